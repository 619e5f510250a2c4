// The rules of or-par, seq-search and or-search: each reads the tables and answers a plan.
// Kept, the mover's number and its row apart: the head of crate `moves` says why.
#![tactic(auto)]

ghost use Rattle.rows.specs.Views.{processes_in};
ghost use Rattle.program_index.specs.Images.{program_in};
ghost use Rattle.parlog.specs.declared.Term.{Term};
ghost use Rattle.std.specs.Prelude.{◌≡◌, [], ◌∷◌, ◌++◌, List, ◌+◌, ◌*◌, ◌≤◌, ◌<◌, suc, ltb, get_or, length, Option, None};
ghost use Rattle.children.specs.Telling.{Tells};
ghost use Rattle.parlog.specs.Codes.{is_tag, or_par, or_search, ready, seq_search, success, try_clause};
ghost use Rattle.parlog.specs.Delta.{report, try_spot};
ghost use Rattle.parlog.specs.Program.{block_count, block_of, literal_at, Program, vars_of};
ghost use Rattle.parlog.specs.Rules.{block_at, body_child, by_rule, or_par_heard, or_search_wait, searching, seq_search_next, start_rule, tries, tries_vars, wait_rule, with_found};
ghost use Rattle.parlog.specs.Tables.{at, new_process, procs_of, row_size, State};
ghost use Rattle.move_plan.specs.Plans.{applied_of, new_most};
ghost use Rattle.rows.specs.Rows.{Table};

use children::{News, Told};
use move_plan::Plan;
use parlog::cases::{Kind, Mode, Outcome, Tag};
use parlog::{Move, Process, Spot, codes};
use program_index::Image;
use rows::Processes;

// ---- what the rules share

// The relation that the literal at z calls.
fn called(image: &Image, z: Spot) -> usize
    ensures { (result ≡ (literal_at (program_in image.now) z).rel) × (result ≤ 255) }
{
    program_goal::literal(image, z).rel
}

// Reports success with the clause that child c names.
fn commit(mv: Move, procs: &Processes, c: usize, x: Process) -> Plan
    ensures { ((vs : List (Option Term)) → applied_of result ≡ by_rule mv (report success (with_found (record { procs = processes_in procs.now; vars = vs }) c x))) × (result.count ≤ new_most) × (result.changes.count ≡ 0) }
{
    let y = procs.get(c);
    let z = move_plan::with_clause(x.spot, y.spot.found, y.spot.first);
    let me = move_plan::with_spot(x, Mode::Reporting, z);
    move_plan::report(mv, Outcome::Success, me)
}

// ---- or-par

// Has a clause looked for.
pub fn start_or_par(n: usize, p: usize, x: Process) -> Plan
    requires { (n ≤ 65535) × (p < n) }
    ensures { ((pr : Program) (s : State) → length s.procs ≡ n → applied_of result ≡ start_rule or_par pr s p x) × (result.count ≤ new_most) × (result.changes.count ≡ 0) }
{
    let z = move_plan::literal_spot(x.spot, x.spot.literal);
    let y = move_plan::new_process(Tag::SeqSearch, Mode::Starting, p, z);
    let me = move_plan::with_mode(x, Mode::Waiting);
    move_plan::make_one(Move::OrParStart(n), me, None, y)
}

// The process for the committed body of clause k, its first variable v.
fn body_child(image: &Image, p: usize, k: u8, v: u16) -> Process
    requires { p ≤ 65535 }
    ensures { result ≡ body_child (program_in image.now) p k v }
{
    let t = program_goal::tag_of_body(image, k);
    let z = move_plan::goal_spot(Kind::TheBody, k, v);
    move_plan::new_process(t, Mode::Starting, p, z)
}

// Child c tells success: a clause was found, or its body is done.
fn or_par_heard(image: &Image, procs: &Processes, p: usize, x: Process, c: usize) -> Plan
    requires { (procs.now.count ≤ 65535) × (p < procs.now.count) }
    ensures { ((vs : List (Option Term)) → applied_of result ≡ or_par_heard (is_tag seq_search (at (processes_in procs.now) c).tag) (program_in image.now) (record { procs = processes_in procs.now; vars = vs }) p x c) × (result.count ≤ new_most) × (result.changes.count ≡ 0) }
{
    let y = procs.get(c);
    if y.tag != codes::SEQ_SEARCH {
        return move_plan::report(Move::OrParSuccess(p), Outcome::Success, x);
    }
    let child = body_child(image, p, y.spot.found, y.spot.first);
    move_plan::make_one(Move::OrParSpawn(procs.count), x, Some(c), child)
}

// Waits for the search, then for the body.
// Kept, like that of seq-search: a match of three arms is as plain as a function that takes an answer for each.
pub fn wait_or_par(image: &Image, procs: &Processes, p: usize, x: Process, told: Told) -> Plan
    requires { (procs.now.count ≤ 65535) × (p < procs.now.count) × Tells (processes_in procs.now) p told }
    ensures { ((vs : List (Option Term)) → applied_of result ≡ wait_rule or_par (program_in image.now) (record { procs = processes_in procs.now; vars = vs }) p x) × (result.count ≤ new_most) × (result.changes.count ≡ 0) }
{
    match told.latest {
        News::Silent => move_plan::none(),
        News::Good(c) => or_par_heard(image, procs, p, x, c),
        News::Bad(_) => move_plan::report(Move::OrParFailure(p), Outcome::Failure, x),
    }
}

// ---- seq-search

// At block b, with a process that tries it.
fn searching(mv: Move, b: u8, p: usize, x: Process, nap: Option<usize>) -> Plan
    requires { p ≤ 65535 }
    ensures { (applied_of result ≡ by_rule mv (searching b p x nap)) × (result.count ≤ new_most) × (result.changes.count ≡ 0) }
{
    let here = move_plan::at_block(x.spot, b);
    let me = move_plan::with_spot(x, Mode::Waiting, here);
    let z = move_plan::block_spot(x.spot, b);
    let y = move_plan::new_process(Tag::OrSearch, Mode::Starting, p, z);
    move_plan::make_one(mv, me, nap, y)
}

// How many blocks the relation has that the literal at z calls.
fn blocks(image: &Image, z: Spot) -> usize
    ensures { (result ≡ block_count (program_in image.now) (literal_at (program_in image.now) z).rel) × (result ≤ 64) }
{
    let rel = called(image, z);
    program_block::block_count(image, rel)
}

// Tries the first block, if there is one.
pub fn start_seq_search(image: &Image, n: usize, p: usize, x: Process) -> Plan
    requires { (n ≤ 65535) × (p < n) }
    ensures { ((s : State) → length s.procs ≡ n → applied_of result ≡ start_rule seq_search (program_in image.now) s p x) × (result.count ≤ new_most) × (result.changes.count ≡ 0) }
{
    let count = blocks(image, x.spot);
    if count == 0 {
        return move_plan::report(Move::SeqSearchNone(p), Outcome::Failure, x);
    }
    searching(Move::SeqSearchStart(n), 0, p, x, None)
}

// Child c tells failure: tries the block behind, if there is one.
fn next_block(image: &Image, n: usize, p: usize, x: Process, c: usize) -> Plan
    requires { (n ≤ 65535) × (p < n) × (x.spot.block < 255) }
    ensures { ((s : State) → length s.procs ≡ n → applied_of result ≡ seq_search_next (ltb (suc x.spot.block) (block_count (program_in image.now) (literal_at (program_in image.now) x.spot).rel)) s p x c) × (result.count ≤ new_most) × (result.changes.count ≡ 0) }
{
    let count = blocks(image, x.spot);
    let b = x.spot.block + 1;
    if count <= b as usize {
        return move_plan::report(Move::SeqSearchFailure(p), Outcome::Failure, x);
    }
    searching(Move::SeqSearchNext(n), b, p, x, Some(c))
}

// Waits for a block that succeeds.
pub fn wait_seq_search(image: &Image, procs: &Processes, p: usize, x: Process, told: Told) -> Plan
    requires { (procs.now.count ≤ 65535) × (p < procs.now.count) × (x.spot.block < 255) × Tells (processes_in procs.now) p told }
    ensures { ((vs : List (Option Term)) → applied_of result ≡ wait_rule seq_search (program_in image.now) (record { procs = processes_in procs.now; vars = vs }) p x) × (result.count ≤ new_most) × (result.changes.count ≡ 0) }
{
    match told.latest {
        News::Silent => move_plan::none(),
        News::Good(c) => commit(Move::SeqSearchSuccess(p), procs, c, x),
        News::Bad(c) => next_block(image, procs.count, p, x, c),
    }
}

// ---- or-search

// The process that tries clause k, its first variable v.
fn try_child(p: usize, z: Spot, k: usize, v: usize) -> Process
    requires { (p ≤ 65535) × (k ≤ 255) × (v ≤ 65535) }
    ensures { result ≡ new_process try_clause ready p (try_spot z k v) }
{
    let y = move_plan::try_spot(z, k as u8, v as u16);
    move_plan::new_process(Tag::TryClause, Mode::Ready, p, y)
}

// The process for clause j of block b, as row j; answers the variable behind its own.
fn try_one(
    image: &Image,
    rows: &mut [u8],
    p: usize,
    z: Spot,
    rel: usize,
    b: u8,
    j: usize,
    v: usize,
) -> usize
    requires { (p ≤ 65535) × (v ≤ 65535) × (j * row_size + row_size ≤ length rows.old) }
    ensures { (result ≡ v + vars_of (program_in image.now) (get_or (block_of (program_in image.now) rel b) j 255)) × (result ≤ v + 510) × Table rows.old rows.new (procs_of rows.old j ++ (new_process try_clause ready p (try_spot z (get_or (block_of (program_in image.now) rel b) j 255) v) ∷ [])) }
{
    let k = program_block::block_clause(image, rel, b, j);
    let y = try_child(p, z, k, v);
    rows::append(rows, j, y);
    v + program_clause::vars_of(image, k)
}

// A process for each clause of block b; answers the variable behind those of all.
fn try_all(
    image: &Image,
    rows: &mut [u8],
    m: usize,
    p: usize,
    z: Spot,
    rel: usize,
    b: u8,
    size: usize,
) -> usize
    requires { (p ≤ 65535) × (size ≡ length (block_of (program_in image.now) rel b)) × (size * row_size ≤ length rows.old) × (m + 510 * size ≤ 65535) }
    ensures { (procs_of rows.new size ≡ tries (program_in image.now) p z m (block_of (program_in image.now) rel b)) × (result ≡ m + tries_vars (program_in image.now) (block_of (program_in image.now) rel b)) }
{
    let mut v = m;
    for j in 0..size {
        v = try_one(image, rows, p, z, rel, b, j, v);
    }
    v
}

// Tries every clause of the block.
pub fn start_or_search(image: &Image, n: usize, m: usize, p: usize, x: Process) -> Plan
    requires { (n ≤ 65535) × (p < n) × (length (block_at (program_in image.now) x.spot) ≤ new_most) × (m + 510 * length (block_at (program_in image.now) x.spot) ≤ 65535) }
    ensures { ((s : State) → length s.procs ≡ n → length s.vars ≡ m → applied_of result ≡ start_rule or_search (program_in image.now) s p x) × (result.count ≤ new_most) × (result.changes.count ≡ 0) }
{
    let rel = called(image, x.spot);
    let b = x.spot.block;
    let size = program_block::block_size(image, rel, b);
    let mut new = [0u8; move_plan::NEW_SIZE];
    let v = try_all(image, &mut new, m, p, x.spot, rel, b, size);
    let me = move_plan::with_mode(x, Mode::Waiting);
    let first = move_plan::touched(n, p, size);
    move_plan::make(Move::OrSearchStart(first), me, None, size, new, v - m)
}

// No child tells success: fails if all tell failure.
fn or_search_none(hopeless: bool, p: usize, x: Process) -> Plan
    ensures { ((s : State) → applied_of result ≡ or_search_wait None hopeless s p x) × (result.count ≤ new_most) × (result.changes.count ≡ 0) }
{
    if hopeless {
        return move_plan::report(Move::OrSearchFailure(p), Outcome::Failure, x);
    }
    move_plan::none()
}

// Commits to the first clause that succeeds.
pub fn wait_or_search(procs: &Processes, p: usize, x: Process, told: Told) -> Plan
    requires { (procs.now.count ≤ 65535) × (p < procs.now.count) × Tells (processes_in procs.now) p told }
    ensures { ((pr : Program) (vs : List (Option Term)) → applied_of result ≡ wait_rule or_search pr (record { procs = processes_in procs.now; vars = vs }) p x) × (result.count ≤ new_most) × (result.changes.count ≡ 0) }
{
    let Some(c) = told.lowest else {
        return or_search_none(told.hopeless, p, x);
    };
    commit(Move::OrSearchCommit(p), procs, c, x)
}
