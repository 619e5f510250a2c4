// The tree of parents: the nearest try-clause above a process, and putting all below it to sleep.
// Kept, for those that write: that parents stand before their children (`Falls`) and that there are marks enough is known of rows that are then written, so that no value could hold it with them.
#![tactic(auto)]

ghost use Rattle.rows.specs.Views.{processes_in};
ghost use Rattle.std.specs.Prelude.{◌≡◌, ◌+◌, ◌*◌, ◌≤◌, ◌<◌, length, set};
ghost use Rattle.parlog.specs.Codes.{dormant};
ghost use Rattle.parlog.specs.Delta.{with_mode};
ghost use Rattle.parlog.specs.Tables.{at, procs_of, row_size};
ghost use Rattle.parlog.specs.Tree.{below, enclosing, first_of};
ghost use Rattle.rows.specs.Rows.{Table};
ghost use Rattle.tree.specs.Family.{Childless, Falls, FirstChild, Marks, most_rows, slept, slept_below};

use parlog::cases::Mode;
use parlog::{Process, codes};
use rows::Processes;

// The most rows that a table may have here: there is a mark for each.
const MOST_ROWS: usize = 4096;

const MARKED: u8 = 1;

// The parent of process i.
fn parent(procs: &Processes, i: usize) -> usize
    ensures { result ≡ (at (processes_in procs.now) i).parent }
{
    usize::from(procs.parent_at(i))
}

// The same for a process known to be there.
// Kept, that the process is there, here, at `mode` and `is_below` and in crate `turn_search`: it ties a number to the table that is lent beside it. Without it each read would test for rows that are not there, as `parent_at` does.
fn above(procs: &Processes, a: usize) -> usize
    requires { a < procs.now.count }
    ensures { result ≡ (at (processes_in procs.now) a).parent }
{
    usize::from(rows::get_u16(procs.bytes, a * codes::ROW_SIZE + codes::ROW_PARENT))
}

// The nearest try-clause above p.
fn enclosing(procs: &Processes, p: usize) -> Option<usize>
    ensures { result ≡ enclosing (processes_in procs.now) p }
{
    let mut a = p;
    for _ in 0..procs.count {
        if a == 0 {
            return None;
        }
        let over = parent(procs, a);
        if procs.tag_at(over) == codes::TRY_CLAUSE {
            return Some(over);
        }
        a = over;
    }
    None
}

fn first_at(procs: &Processes, c: usize) -> usize
    ensures { result ≡ (at (processes_in procs.now) c).spot.first }
{
    usize::from(procs.get(c).spot.first)
}

// Its first variable; 0 where there is none.
// Kept, no Option: 0 for none is what `first_of` says, and a definition keeps its meaning.
pub fn enclosing_first(procs: &Processes, p: usize) -> usize
    ensures { result ≡ first_of (processes_in procs.now) (enclosing (processes_in procs.now) p) }
{
    let Some(c) = enclosing(procs, p) else {
        return 0;
    };
    first_at(procs, c)
}

// Kept beside `move_plan::with_mode`, which stands above this crate.
#[tactic(auto, unfolding(parlog::specs::Delta::with_mode))]
fn dormant(x: Process) -> Process
    ensures { result ≡ with_mode dormant x }
{
    Process {
        mode: Mode::Dormant.number(),
        ..x
    }
}

// The mode of a process known to be there.
fn mode(procs: &Processes, q: usize) -> u8
    requires { q < procs.now.count }
    ensures { result ≡ (at (processes_in procs.now) q).mode }
{
    procs.bytes[q * codes::ROW_SIZE + codes::ROW_MODE]
}

// Process q is below p: its parent is p, or is marked.
fn is_below(procs: &Processes, marks: &[u8], p: usize, q: usize) -> bool
    requires { (q < procs.now.count) × (p < q) × Falls (processes_in procs.now) × (procs.now.count ≤ length marks.now) × Marks (processes_in procs.now) p q marks.now }
    ensures { result ≡ below (processes_in procs.now) p q }
{
    let up = above(procs, q);
    if up == p {
        return true;
    }
    marks[up] != 0
}

// Process q is marked and falls asleep if it is below p; a row that sleeps already is marked too, but not written.
fn sleep_one(procs: &mut [u8], n: usize, marks: &mut [u8], p: usize, q: usize)
    requires { (n * row_size ≤ length procs.old) × (q < n) × (p < q) × Falls (procs_of procs.old n) × (n ≤ length marks.old) × Marks (procs_of procs.old n) p q marks.old }
    ensures table { Table procs.old procs.new (set (procs_of procs.old n) q (slept (procs_of procs.old n) p q)) }
    ensures marks { Marks (procs_of procs.old n) p (q + 1) marks.new }
{
    let used = Processes {
        bytes: procs,
        count: n,
    };
    if !is_below(&used, marks, p, q) {
        return;
    }
    let m = mode(&used, q);
    marks[q] = MARKED;
    if m == codes::DORMANT {
        return;
    }
    let x = used.get(q);
    let y = dormant(x);
    rows::put(procs, n, q, y);
}

// The first row behind p whose parent is p.
fn first_child(procs: &Processes, p: usize) -> Option<usize>
    requires { p < procs.now.count }
    ensures { FirstChild (processes_in procs.now) procs.now.count p result }
{
    for q in p + 1..procs.count {
        if above(procs, q) == p {
            return Some(q);
        }
    }
    None
}

// All below p falls asleep, from its first child on: one pass upward, in which a row has its mark before its children are reached.
fn sleep_from(procs: &mut [u8], n: usize, p: usize, first: usize)
    requires { (n * row_size ≤ length procs.old) × (n ≤ most_rows) × (p < first) × (first ≤ n) × Falls (procs_of procs.old n) × Childless (procs_of procs.old n) p first }
    ensures { Table procs.old procs.new (slept_below (procs_of procs.old n) p) }
{
    let mut marks = [0u8; MOST_ROWS];
    for q in first..n {
        sleep_one(procs, n, &mut marks, p, q);
    }
}

// Every process below p, at any depth, becomes dormant; nothing before the first child of p is below it.
pub fn sleep_below(procs: &mut [u8], n: usize, p: usize)
    requires { (n * row_size ≤ length procs.old) × (p < n) × Falls (procs_of procs.old n) × (n ≤ most_rows) }
    ensures { Table procs.old procs.new (slept_below (procs_of procs.old n) p) }
{
    let used = Processes {
        bytes: procs,
        count: n,
    };
    if let Some(first) = first_child(&used, p) {
        sleep_from(procs, n, p, first);
    }
}
