// The table rules over lent bytes: what is not refusal 8.
// Kept, head, processes and variables as three rows: the head of crate `bound` says why.
#![tactic(auto)]

ghost use Rattle.vars.specs.Views.{variables_in};
ghost use Rattle.rows.specs.Views.{processes_in};
ghost use Rattle.program_index.specs.Images.{program_in};
ghost use Rattle.std.specs.Prelude.{◌≡◌, ◌&&◌, ◌+◌, ◌*◌, ◌≤◌, ◌<◌};
ghost use Rattle.parlog.specs.Codes.{tag_of};
ghost use Rattle.parlog.specs.Scan.{every, implies};
ghost use Rattle.parlog.specs.TableRules.{cell_known, clause_in, found_in, full_size, goal_in, going_ok, kin_ok, known, lent_ok, notes_ok, places_ok, result_ok, row_ok, var_ok};
ghost use Rattle.parlog.specs.Tables.{lent};
ghost use Rattle.table_rules.specs.Parts.{behind_call, behind_goal, behind_literal, cell_ok};

use parlog::{Process, Spot, codes};
use program_index::Image;
use rows::Processes;
use vars::Variables;

// ---- places

// Clause k is there, and its variables from v on are.
fn clause_in(image: &Image, n: usize, k: u8, v: u16) -> bool
    ensures { result ≡ clause_in (program_in image.now) n k v }
{
    let number = k as usize;
    if image.clauses <= number {
        return false;
    }
    let size = program_clause::vars_of(image, number);
    (v as usize) + size <= n
}

// The goal is there, and its variables are.
fn goal_in(image: &Image, n: usize, z: Spot) -> bool
    ensures { result ≡ goal_in (program_in image.now) n z }
{
    if z.kind == codes::THE_GOAL {
        let size = program_clause::goal_vars(image);
        return (z.base == 0) & (size <= n);
    }
    clause_in(image, n, z.clause, z.base)
}

// Where a search tells of a clause, that is there.
fn told_ok(image: &Image, n: usize, told: bool, z: Spot) -> bool
    ensures { result ≡ implies told (found_in (program_in image.now) n z) }
{
    if told {
        return clause_in(image, n, z.found, z.first);
    }
    true
}

// What a tag asks besides a call of relation rel: a block of it, or a clause of it.
fn behind_call(image: &Image, n: usize, t: u8, waits: bool, z: Spot, rel: usize) -> bool
    ensures { result ≡ behind_call t waits (program_in image.now) n z rel }
{
    if (t == codes::OR_SEARCH) | ((t == codes::SEQ_SEARCH) & waits) {
        let count = program_block::block_count(image, rel);
        return (z.block as usize) < count;
    }
    if t < codes::OR_SEARCH {
        return true;
    }
    let found = clause_in(image, n, z.found, z.first);
    let own = program_clause::clause_relation(image, z.found as usize);
    found & (own == rel)
}

// What a tag asks of a literal of relation rel.
fn behind_literal(image: &Image, n: usize, t: u8, waits: bool, z: Spot, rel: usize) -> bool
    ensures { result ≡ behind_literal t waits (program_in image.now) n z rel }
{
    if codes::GUARD_EVAL < t {
        return rel == codes::EQUALITY;
    }
    if rel == codes::EQUALITY {
        return false;
    }
    behind_call(image, n, t, waits, z, rel)
}

// What a tag asks besides a goal: a stage, or a literal.
fn behind_goal(image: &Image, n: usize, t: u8, waits: bool, z: Spot) -> bool
    ensures { result ≡ behind_goal t waits (program_in image.now) n z }
{
    if t < codes::OR_PAR {
        let stages = program_goal::goal_size(image, z.kind, z.clause);
        let stage = z.stage as usize;
        let there = if (t == codes::AND_PAR) | waits {
            stage < stages
        } else {
            stage <= stages
        };
        let split = program_goal::split_by(image, z.kind, z.clause);
        return there & ((t == codes::AND_PAR) | !split);
    }
    let x = program_goal::called(image, z);
    let size = x.size;
    if size <= (z.literal as usize) {
        return false;
    }
    behind_literal(image, n, t, waits, z, x.rel)
}

// What the rules of its tag read is there, and what they read besides in its mode.
fn placed_ok(image: &Image, n: usize, x: Process) -> bool
    ensures { result ≡ (places_ok (tag_of x.tag) (program_in image.now) n x.spot && going_ok (tag_of x.tag) (program_in image.now) n x) }
{
    if x.tag == codes::GUARD_EVAL {
        return clause_in(image, n, x.spot.found, x.spot.first);
    }
    let search = (x.tag == codes::SEQ_SEARCH) | (x.tag == codes::OR_SEARCH);
    let told = search & ((x.mode == codes::REPORTING) & (x.result == codes::SUCCESS));
    let goal = goal_in(image, n, x.spot);
    let found = told_ok(image, n, told, x.spot);
    let there = goal & found;
    if !there {
        return false;
    }
    behind_goal(image, n, x.tag, x.mode == codes::WAITING, x.spot)
}

// ---- a row

// Process 0 stands for the goal; every other has a parent before it that could have made it.
fn kin_ok(image: &Image, procs: &Processes, i: usize, x: Process) -> bool
    ensures { result ≡ kin_ok (program_in image.now) (processes_in procs.now) i x }
{
    if i == 0 {
        let goal = program_goal::tag_of_goal(image, codes::THE_GOAL, 0);
        return (x.tag == goal.number()) & ((x.parent == 0) & (x.spot.kind == codes::THE_GOAL));
    }
    let parent = x.parent as usize;
    if i <= parent {
        return false;
    }
    let up = procs.tag_at(parent);
    row_tests::makes(up, x.tag)
}

// What a row says of itself: known numbers, a result, notes.
fn own_ok(n: usize, i: usize, x: Process) -> bool
    ensures { result ≡ (known x && (result_ok i x && notes_ok n x)) }
{
    let numbers = row_tests::known(x.tag, x.mode, x.result, x.spot.kind);
    let result = row_tests::result_ok(i, x.mode, x.result);
    let four = x.notes;
    let notes = row_tests::notes_ok(n, x.mode, x.count, four);
    numbers & (result & notes)
}

// Row i of the first count.
fn row_ok(image: &Image, procs: &Processes, n: usize, i: usize) -> bool
    ensures { result ≡ row_ok (program_in image.now) (processes_in procs.now) n i }
{
    let x = procs.get(i);
    let own = own_ok(n, i, x);
    if !own {
        return false;
    }
    let kin = kin_ok(image, procs, i, x);
    if !kin {
        return false;
    }
    placed_ok(image, n, x)
}

// ---- the tables

// Each of the first count rows, from the last one on.
// Kept beside `cells_ok`, which is alike: one loop for both would take its test as a closure, and be no plainer.
fn rows_ok(image: &Image, procs: &Processes, n: usize) -> bool
    ensures { result ≡ every (row_ok (program_in image.now) (processes_in procs.now) n) procs.now.count }
{
    for q in (0..procs.count).rev() {
        let ok = row_ok(image, procs, n, q);
        if !ok {
            return false;
        }
    }
    true
}

// The row of variable v of the first n.
// Kept, the sort as its byte: `row_tests::cell_ok` tests it, and refuses what no sort has.
fn cell_ok(vars: &Variables, v: usize) -> bool
    requires { v < vars.now.count }
    ensures { result ≡ cell_ok vars.now.bytes.now vars.now.count v }
{
    let b = v * codes::CELL_SIZE;
    let number = vars::join(vars.bytes[b + 1], vars.bytes[b + 2], vars.bytes[b + 3]) as usize;
    row_tests::cell_ok(v, vars.bytes[b], number)
}

// Each of the first n rows of variables, from the last one on.
fn cells_ok(vars: &Variables) -> bool
    ensures { result ≡ (every (cell_known vars.now.bytes.now) vars.now.count && every (var_ok (variables_in vars.now)) vars.now.count) }
{
    for q in (0..vars.count).rev() {
        let ok = cell_ok(vars, q);
        if !ok {
            return false;
        }
    }
    true
}

// Each lent row of bytes has its full size.
pub fn full_size(head: &[u8], procs: &[u8], vars: &[u8], most: usize, cap: usize) -> bool
    requires { (most ≤ 65535) × (cap ≤ 65535) }
    ensures { result ≡ full_size (record { procs = most; vars = cap }) (lent head.now procs.entry.now vars.now) }
{
    let tables = (procs.len() == most * codes::ROW_SIZE) & (vars.len() == cap * codes::CELL_SIZE);
    (head.len() == codes::HEAD_SIZE) & tables
}

// The lent tables keep every table rule.
pub fn lent_ok(
    image: &Image,
    head: &[u8],
    procs: &[u8],
    vars: &[u8],
    most: usize,
    cap: usize,
) -> bool
    requires { (most ≤ 65535) × (cap ≤ 65535) }
    ensures { result ≡ lent_ok (record { procs = most; vars = cap }) (program_in image.now) (lent head.now procs.entry.now vars.now) }
{
    let full = full_size(head, procs, vars, most, cap);
    if !full {
        return false;
    }
    // So the three numbers of the head lie in it.
    prove!(head.len() >= codes::HEAD_SIZE);
    let count = head::proc_count(head);
    let n = head::var_count(head);
    let last = head::marker_last(head);
    let goal = program_clause::goal_vars(image);
    let counts = row_tests::counts_ok(count, n, last, goal, most, cap);
    if !counts {
        return false;
    }
    let cells = cells_ok(&Variables {
        bytes: vars,
        count: n,
    });
    let used = Processes {
        bytes: procs,
        count,
    };
    let rows = rows_ok(image, &used, n);
    cells & rows
}
