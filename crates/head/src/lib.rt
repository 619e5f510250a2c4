// The head of a run's tables: the counts of processes and variables, then the turn marker.
// Kept, that a head has its size, with each read: C lends it as bytes, and the calls write it between two reads, so that a value that holds it would be made for each read.
#![tactic(auto)]

ghost use Rattle.std.specs.Prelude.{◌≡◌, ◌+◌, ◌≤◌, length};
ghost use Rattle.parlog.specs.Tables.{head_bytes, head_size, marker_last, marker_steps, proc_count, var_count};

use parlog::codes;

// The counts of used rows.
// Kept: three functions of one line, each with its field's name; one with the place as a parameter is no plainer.
pub fn proc_count(head: &[u8]) -> usize
    requires { head_size ≤ length head.now }
    ensures { (result ≡ proc_count head.now) × (result ≤ 65535) }
{
    rows::get_u16(head, codes::HEAD_PROCS) as usize
}

pub fn var_count(head: &[u8]) -> usize
    requires { head_size ≤ length head.now }
    ensures { (result ≡ var_count head.now) × (result ≤ 65535) }
{
    rows::get_u16(head, codes::HEAD_VARS) as usize
}

// The last process stepped, and the steps taken so far.
pub fn marker_last(head: &[u8]) -> usize
    requires { head_size ≤ length head.now }
    ensures { (result ≡ marker_last head.now) × (result ≤ 65535) }
{
    rows::get_u16(head, codes::HEAD_LAST) as usize
}

pub fn marker_steps(head: &[u8]) -> u32
    requires { head_size ≤ length head.now }
    ensures { result ≡ marker_steps head.now }
{
    let at = codes::HEAD_STEPS;
    u32::from_le_bytes([head[at], head[at + 1], head[at + 2], head[at + 3]])
}

fn encode(n: usize, m: usize, last: usize, steps: u32) -> [u8; codes::HEAD_SIZE]
    requires { (n ≤ 65535) × (m ≤ 65535) × (last ≤ 65535) }
    ensures { result ≡ head_bytes n m last steps }
{
    let procs = (n as u16).to_le_bytes();
    let vars = (m as u16).to_le_bytes();
    let marker = (last as u16).to_le_bytes();
    let steps = steps.to_le_bytes();
    [
        procs[0], procs[1], vars[0], vars[1], marker[0], marker[1], steps[0], steps[1], steps[2],
        steps[3],
    ]
}

// The head becomes these counts and this marker.
pub fn put_head(head: &mut [u8], n: usize, m: usize, last: usize, steps: u32)
    requires { (length head.old ≡ head_size) × (n ≤ 65535) × (m ≤ 65535) × (last ≤ 65535) }
    ensures { head.new ≡ head_bytes n m last steps }
{
    let row = encode(n, m, last, steps);
    head.copy_from_slice(&row);
}
