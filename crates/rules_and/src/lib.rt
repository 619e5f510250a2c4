// The rules of the conjunctions, of a tried clause and of its guard, with ready and stop: each only reads, and answers a plan.
// Kept, the mover's number and its row apart: the head of crate `moves` says why.
#![tactic(auto)]

ghost use Rattle.program_index.specs.Images.{program_in};
ghost use Rattle.std.specs.Prelude.{◌≡◌, true, [], ◌++◌, ◌∷◌, List, ◌≤◌, ◌<◌, length, Some, None};
ghost use Rattle.children.specs.Telling.{Tells};
ghost use Rattle.parlog.specs.Codes.{and_par, and_seq, guard_eval, try_clause};
ghost use Rattle.parlog.specs.Delta.{making};
ghost use Rattle.parlog.specs.Program.{Program};
ghost use Rattle.parlog.specs.Rules.{body_beside, by_rule, member, members, stop_rule};
ghost use Rattle.parlog.specs.Scan.{build};
ghost use Rattle.parlog.specs.Tables.{procs_of};
ghost use Rattle.parlog.specs.declared.Move.TheVariants.{AndSeqNext};
ghost use Rattle.parlog.specs.declared.Process.{Process};
ghost use Rattle.move_plan.specs.Plans.{applied_of, new_most, new_size};
ghost use Rattle.rules_and.specs.Says.{next_stage, Readies, Starts, wait_all, Waits};

use children::{News, Told};
use move_plan::Plan;
use parlog::cases::{Kind, Mode, Outcome, Tag};
use parlog::{Move, Process, Spot, codes};
use program_index::Image;

// A ready process is about to start next.
pub fn ready(p: usize, x: Process) -> Plan
    ensures { Readies p x (applied_of result) × (result.count ≤ new_most) × (result.changes.count ≡ 0) }
{
    let me = move_plan::with_mode(x, Mode::Starting);
    move_plan::only(Move::Ready(p), me)
}

// The goal's own process has nobody to report to.
pub fn stop(p: usize, x: Process) -> Plan
    ensures { (applied_of result ≡ stop_rule p x) × (result.count ≤ new_most) × (result.changes.count ≡ 0) }
{
    if p == 0 {
        let me = move_plan::with_mode(x, Mode::Dormant);
        return move_plan::only(Move::Stop(0), me);
    }
    move_plan::none()
}

// The mover and two children.
fn with_children(mv: Move, x: Process, one: Process, other: Process) -> Plan
    ensures { (applied_of result ≡ by_rule mv (making x None (one ∷ other ∷ []) 0)) × (result.count ≤ new_most) × (result.changes.count ≡ 0) }
{
    let mut new = [0u8; move_plan::NEW_SIZE];
    rows::append(&mut new, 0, one);
    rows::append(&mut new, 1, other);
    move_plan::make(mv, x, None, 2, new, 0)
}

// One failure decides, else all must succeed: a move for each.
fn wait_all(told: Told, failed: Move, succeeded: Move, x: Process) -> Plan
    ensures { (applied_of result ≡ wait_all failed succeeded told.failed told.succeeded x) × (result.count ≤ new_most) × (result.changes.count ≡ 0) }
{
    if told.failed {
        return move_plan::report(failed, Outcome::Failure, x);
    }
    if told.succeeded {
        return move_plan::report(succeeded, Outcome::Success, x);
    }
    move_plan::none()
}

// ---- and-par

// The process for member j of the stage that z names.
fn member(image: &Image, p: usize, z: Spot, j: usize) -> Process
    requires { (p ≤ 65535) × (j ≤ 255) }
    ensures { result ≡ member (program_in image.now) p z j }
{
    let y = move_plan::literal_spot(z, j as u8);
    let t = program_goal::tag_of_literal(image, y);
    move_plan::new_process(t, Mode::Ready, p, y)
}

// The processes for its first k members, as rows.
fn members(image: &Image, p: usize, z: Spot, k: usize, new: &mut [u8])
    requires { (p ≤ 65535) × (k ≤ new_most) × (new_size ≤ length new.old) }
    ensures { procs_of new.new k ≡ build (member (program_in image.now) p z) k }
{
    for j in 0..k {
        let y = member(image, p, z, j);
        rows::append(new, j, y);
    }
}

// Behind k rows that for the body of a split clause, which runs beside its equations; how many rows there are.
fn with_body(apart: bool, p: usize, z: Spot, k: usize, new: &mut [u8]) -> usize
    requires { (p ≤ 65535) × (k ≤ new_most) × (apart ≡ true → k < new_most) × (new_size ≤ length new.old) }
    ensures { (procs_of new.new result ≡ procs_of new.old k ++ body_beside apart p z) × (result ≤ new_most) }
{
    if !apart {
        return k;
    }
    let y = move_plan::goal_spot(Kind::AsWritten, z.clause, z.base);
    let body = move_plan::new_process(Tag::AndSeq, Mode::Ready, p, y);
    rows::append(new, k, body);
    k + 1
}

// Starts every member of the stage.
pub fn start_and_par(image: &Image, n: usize, p: usize, x: Process) -> Plan
    requires { (n ≤ 65535) × (p < n) × (length (members (program_in image.now) p x.spot) ≤ new_most) }
    ensures { Starts and_par (program_in image.now) n p x (applied_of result) × (result.count ≤ new_most) × (result.changes.count ≡ 0) }
{
    let k = program_goal::stage_size(image, x.spot);
    let apart = program_goal::split_by(image, x.spot.kind, x.spot.clause);
    let mut new = [0u8; move_plan::NEW_SIZE];
    members(image, p, x.spot, k, &mut new);
    let count = with_body(apart, p, x.spot, k, &mut new);
    let me = move_plan::with_mode(x, Mode::Waiting);
    let q = move_plan::touched(n, p, count);
    move_plan::make(Move::AndParStart(q), me, None, count, new, 0)
}

// One failure decides, else all must succeed.
pub fn wait_and_par(told: Told, p: usize, x: Process) -> Plan
    ensures { ((ps : List Process) → Tells ps p told → Waits and_par ps p x (applied_of result)) × (result.count ≤ new_most) × (result.changes.count ≡ 0) }
{
    wait_all(told, Move::AndParFailure(p), Move::AndParSuccess(p), x)
}

// ---- and-seq

// Starts the stage that is next, if there is one.
pub fn start_and_seq(image: &Image, n: usize, p: usize, x: Process) -> Plan
    requires { (n ≤ 65535) × (p < n) }
    ensures { Starts and_seq (program_in image.now) n p x (applied_of result) × (result.count ≤ new_most) × (result.changes.count ≡ 0) }
{
    let stages = program_goal::goal_size(image, x.spot.kind, x.spot.clause);
    let i = x.spot.stage as usize;
    if stages <= i {
        return move_plan::report(Move::AndSeqSuccess(p), Outcome::Success, x);
    }
    let t = program_goal::tag_of_stage(image, x.spot);
    let y = move_plan::literal_spot(x.spot, 0);
    let child = move_plan::new_process(t, Mode::Starting, p, y);
    let me = move_plan::with_mode(x, Mode::Waiting);
    move_plan::make_one(Move::AndSeqStart(n), me, None, child)
}

// About to start the stage behind.
fn next_stage(x: Process) -> Process
    requires { x.spot.stage < 255 }
    ensures { result ≡ next_stage x }
{
    let y = move_plan::at_stage(x.spot, x.spot.stage + 1);
    move_plan::with_spot(x, Mode::Starting, y)
}

// The stage succeeded: it sleeps, and the stage behind it is next.
fn pass_stage(p: usize, x: Process, c: usize) -> Plan
    requires { x.spot.stage < 255 }
    ensures { (applied_of result ≡ by_rule (AndSeqNext p) (making (next_stage x) (Some c) [] 0)) × (result.count ≤ new_most) × (result.changes.count ≡ 0) }
{
    let me = next_stage(x);
    let new = [0u8; move_plan::NEW_SIZE];
    move_plan::make(Move::AndSeqNext(p), me, Some(c), 0, new, 0)
}

// Goes on to the stage behind, or fails with its stage.
// Kept, like the guard's: a match of three arms is as plain as a function that takes an answer for each.
pub fn wait_and_seq(told: Told, p: usize, x: Process) -> Plan
    requires { x.spot.stage < 255 }
    ensures { ((ps : List Process) → Tells ps p told → Waits and_seq ps p x (applied_of result)) × (result.count ≤ new_most) × (result.changes.count ≡ 0) }
{
    match told.latest {
        News::Silent => move_plan::none(),
        News::Good(c) => pass_stage(p, x, c),
        News::Bad(_) => move_plan::report(Move::AndSeqFailure(p), Outcome::Failure, x),
    }
}

// ---- try-clause

// Matches the head and runs the guard side by side.
pub fn start_try_clause(n: usize, p: usize, x: Process) -> Plan
    requires { (n ≤ 65535) × (p < n) }
    ensures { ((pr : Program) → Starts try_clause pr n p x (applied_of result)) × (result.count ≤ new_most) × (result.changes.count ≡ 0) }
{
    let call = move_plan::try_spot(x.spot, x.spot.found, x.spot.first);
    let one = move_plan::new_process(Tag::InputMatch, Mode::Ready, p, call);
    let guard = move_plan::guard_spot(x.spot.found, x.spot.first);
    let other = move_plan::new_process(Tag::GuardEval, Mode::Ready, p, guard);
    let me = move_plan::with_mode(x, Mode::Waiting);
    with_children(Move::TryClauseStart(n), me, one, other)
}

// Both must succeed.
pub fn wait_try_clause(told: Told, p: usize, x: Process) -> Plan
    ensures { ((ps : List Process) → Tells ps p told → Waits try_clause ps p x (applied_of result)) × (result.count ≤ new_most) × (result.changes.count ≡ 0) }
{
    wait_all(
        told,
        Move::TryClauseFailure(p),
        Move::TryClauseSuccess(p),
        x,
    )
}

// ---- guard-eval

// Runs the guard of the clause, if it has one.
pub fn start_guard_eval(image: &Image, n: usize, p: usize, x: Process) -> Plan
    requires { (n ≤ 65535) × (p < n) }
    ensures { Starts guard_eval (program_in image.now) n p x (applied_of result) × (result.count ≤ new_most) × (result.changes.count ≡ 0) }
{
    let size = program_goal::goal_size(image, codes::THE_GUARD, x.spot.found);
    if size == 0 {
        return move_plan::report(Move::GuardEvalEmpty(p), Outcome::Success, x);
    }
    let y = move_plan::goal_spot(Kind::TheGuard, x.spot.found, x.spot.first);
    let t = program_goal::tag_of_goal(image, codes::THE_GUARD, x.spot.found);
    let child = move_plan::new_process(t, Mode::Starting, p, y);
    let me = move_plan::with_mode(x, Mode::Waiting);
    move_plan::make_one(Move::GuardEvalStart(n), me, None, child)
}

// Tells what the guard tells.
pub fn wait_guard_eval(told: Told, p: usize, x: Process) -> Plan
    ensures { ((ps : List Process) → Tells ps p told → Waits guard_eval ps p x (applied_of result)) × (result.count ≤ new_most) × (result.changes.count ≡ 0) }
{
    match told.latest {
        News::Silent => move_plan::none(),
        News::Good(_) => move_plan::report(Move::GuardEvalSuccess(p), Outcome::Success, x),
        News::Bad(_) => move_plan::report(Move::GuardEvalFailure(p), Outcome::Failure, x),
    }
}
