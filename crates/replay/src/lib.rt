// A replay: the records of a trace played on lent tables, one after the other, as long as they agree.
// Kept, head, processes and variables as three rows: the head of crate `bound` says why.
#![tactic(auto)]

ghost use Rattle.program_index.specs.Images.{program_in};
ghost use Rattle.std.specs.Prelude.{◌≡◌, ◌*◌, ◌+◌, ◌≤◌, eqb, length};
ghost use Rattle.entry.specs.Entered.{Inside};
ghost use Rattle.parlog.specs.Limits.{small};
ghost use Rattle.parlog.specs.Numbers.{word};
ghost use Rattle.parlog.specs.Run.{step_tables, supply_tables};
ghost use Rattle.parlog.specs.Tables.{lent, tables_in};
ghost use Rattle.replay.specs.Replay.{PlayedSays, PlaysSay, ReplaySays, play_record, play_step, play_supply, replay_numbers, replay_told};
ghost use Rattle.trace.specs.Trace.{trace_size};

use parlog::{Answer, Refusal, Term, codes};
use program_index::Image;
use rows::Processes;
use trace::{Kind, Record};

// ---- one record

// The step of process p, made where it can be and has this rule; else nothing is written.
fn play_step(
    image: &Image,
    head: &mut [u8],
    procs: &mut [u8],
    vars: &mut [u8],
    p: usize,
    rule: usize,
) -> bool
    requires { Inside small image.now.bytes.now image.now.relations image.now.clauses (lent head.old procs.old vars.old) }
    ensures { PlaysSay small image.now.bytes.now image.now.relations image.now.clauses (lent head.old procs.old vars.old) (play_step (step_tables small (program_in image.now) (tables_in (lent head.old procs.old vars.old)) p) rule) result (lent head.new procs.new vars.new) }
{
    let n = head::proc_count(head);
    if n <= p {
        return false;
    }
    let used = Processes {
        bytes: procs,
        count: n,
    };
    let told = step::ask(&used, p);
    let d = step::planned(image, head, procs, vars, p, told);
    let Ok(plan) = d else {
        return false;
    };
    let mv = plan.mv;
    if words::rule_number(mv) != rule {
        return false;
    }
    step::carry_out(head, procs, vars, p, plan);
    true
}

// The supply of a value to a goal variable, made where it can be.
// Kept, variable and value as two numbers, like `machine::asked`, which it calls: C's calls of a supply have both, so that a struct would be built to be taken apart at once.
fn play_supply(
    image: &Image,
    head: &[u8],
    procs: &[u8],
    vars: &mut [u8],
    variable: u32,
    value: u32,
) -> bool
    requires { Inside small image.now.bytes.now image.now.relations image.now.clauses (lent head.now procs.now vars.old) }
    ensures { PlaysSay small image.now.bytes.now image.now.relations image.now.clauses (lent head.now procs.now vars.old) (play_supply (supply_tables (program_in image.now) (tables_in (lent head.now procs.now vars.old)) variable value)) result (lent head.now procs.now vars.new) }
{
    let a = machine::asked(image, head, vars, variable, value);
    let Ok(v) = a else {
        return false;
    };
    let n = head::var_count(head);
    vars::bind(vars, n, v, Term::Const(value));
    true
}

// Record k of the trace.
fn play_record(
    image: &Image,
    head: &mut [u8],
    procs: &mut [u8],
    vars: &mut [u8],
    trace: &[u8],
    k: usize,
) -> bool
    requires { Inside small image.now.bytes.now image.now.relations image.now.clauses (lent head.old procs.old vars.old) × (k * trace_size + trace_size ≤ length trace.now) }
    ensures { PlaysSay small image.now.bytes.now image.now.relations image.now.clauses (lent head.old procs.old vars.old) (play_record small (program_in image.now) trace.now (k * trace_size) (tables_in (lent head.old procs.old vars.old))) result (lent head.new procs.new vars.new) }
{
    let record = Record::new(trace, k);
    let who = record.who();
    let what = record.what();
    match record.kind() {
        Kind::Step => play_step(image, head, procs, vars, who, what),
        Kind::Supply => play_supply(image, head, procs, vars, who as u32, what as u32),
    }
}

// ---- all records

// The first n records, as long as they agree: how many were played.
fn play(
    image: &Image,
    head: &mut [u8],
    procs: &mut [u8],
    vars: &mut [u8],
    trace: &[u8],
    n: usize,
) -> usize
    requires { Inside small image.now.bytes.now image.now.relations image.now.clauses (lent head.old procs.old vars.old) × (n * trace_size ≤ length trace.now) }
    ensures { PlayedSays small image.now.bytes.now image.now.relations image.now.clauses (lent head.old procs.old vars.old) trace.now n result (lent head.new procs.new vars.new) }
{
    for k in 0..n {
        if !play_record(image, head, procs, vars, trace, k) {
            return k;
        }
    }
    n
}

// ---- the call

// All n records agree, or 20 with the place of the one that does not.
fn told(k: usize, n: usize) -> Answer<usize>
    requires { (k ≤ n) × (n * trace_size ≤ 18446744073709551615) }
    ensures { result ≡ replay_told (eqb k n) k }
{
    if k == n {
        return Ok(k);
    }
    Err(Refusal {
        number: trace::DISAGREES,
        offset: k * trace::SIZE,
    })
}

// The trace is tested as a whole, then played.
fn replay_in(
    image: &Image,
    head: &mut [u8],
    procs: &mut [u8],
    vars: &mut [u8],
    trace: &[u8],
) -> Answer<usize>
    requires { Inside small image.now.bytes.now image.now.relations image.now.clauses (lent head.old procs.old vars.old) }
    ensures { ReplaySays small image.now.bytes.now (lent head.old procs.old vars.old) trace.now result head.new procs.new vars.new }
{
    let n = trace::test_trace(trace)?;
    let k = play(image, head, procs, vars, trace, n);
    told(k, n)
}

// A replay: the records of a trace, as long as they agree.
pub fn replay(
    image: &[u8],
    head: &mut [u8],
    procs: &mut [u8],
    vars: &mut [u8],
    trace: &[u8],
) -> Answer<usize>
    ensures { ReplaySays small image.now (lent head.old procs.old vars.old) trace.now result head.new procs.new vars.new }
{
    let mut ix = [0u16; program_index::SIZE];
    let e = entry::enter(image, head, procs, vars, &mut ix);
    // Kept in each call: docs/DECISIONS.md asks that each takes the load's answer apart by `let .. else`.
    let Ok((relations, clauses)) = e else {
        let r = load::refusal(e);
        return Err(r);
    };
    let accepted = Image {
        bytes: image,
        relations,
        clauses,
        index: &ix,
    };
    replay_in(&accepted, head, procs, vars, trace)
}

// ---- the word

// Of a replay: how many records were played, or the refusal and its place.
pub fn replay_word(a: Answer<usize>) -> u64
    ensures { result ≡ word (replay_numbers a) }
{
    match a {
        Ok(n) => words::word(0, 0, 0, words::told_number(n)),
        Err(r) => words::refused(words::told_refusal(r)),
    }
}
