// Input-match, equate and wake: each reads the tables and answers a plan. Nothing is written.
// Kept, the mover's number and its row apart: the head of crate `moves` says why.
#![tactic(auto)]

ghost use Rattle.vars.specs.Views.{variables_in};
ghost use Rattle.program_index.specs.Images.{program_in};
ghost use Rattle.std.specs.Prelude.{◌≡◌, ◌≤◌};
ghost use Rattle.parlog.specs.declared.Term.TheVariants.{Const};
ghost use Rattle.parlog.specs.Program.{clause_at, modes_at};
ghost use Rattle.parlog.specs.Rules.{equate_at, equate_start, input_match_start, match_at, wake_rule};
ghost use Rattle.parlog.specs.Tables.{noted};
ghost use Rattle.parlog.specs.Unify.{some_bound};
ghost use Rattle.unify.specs.Pending.{Writable};
ghost use Rattle.decide.specs.Decision.{decided_of, Decides, to_bind};
ghost use Rattle.move_plan.specs.Plans.{applied_of, new_most, state_in, Within};
ghost use Rattle.rules_match.specs.Starts.{equate_move, EquateThere, in_four, match_move, MatchThere, start_by, way_of};

use decide::{Call, Decision};
use move_plan::Plan;
use parlog::cases::Outcome;
use parlog::{Move, Process, Spot, Term, codes};
use program_index::Image;
use rows::Processes;
use vars::Variables;

// ---- what is decided, as a plan

// How a decision ends, by which each rule names its move: with the variable noted or bound first.
#[derive(Clone, Copy)]
enum Way {
    Failure,
    Suspend(Term),
    Success,
    Bind(Term),
}

fn way_of(d: Decision) -> Way
    requires { Decides (decided_of d) d }
    ensures { result ≡ way_of (decided_of d) }
{
    match d {
        Decision::Fails => Way::Failure,
        Decision::Suspends(s) => Way::Suspend(Term::Var(u32::from(s.notes[0]))),
        Decision::Binds(changes) => if changes.count == 0 {
            Way::Success
        } else {
            Way::Bind(Term::Var(changes.list[0].var))
        },
    }
}

// Fails, suspends, or binds what is to be bound and succeeds, by this move.
fn start_by(d: Decision, m: usize, mv: Move, x: Process) -> Plan
    requires { Decides (decided_of d) d × Writable m (to_bind d) }
    ensures { (applied_of result ≡ start_by mv (decided_of d) x) × (result.count ≤ new_most) × (result.changes.count ≤ 4) × Within m result.changes.count result.changes.list }
{
    match d {
        Decision::Fails => move_plan::report(mv, Outcome::Failure, x),
        Decision::Suspends(s) => move_plan::only(mv, move_plan::with_notes(x, s)),
        Decision::Binds(changes) => move_plan::report_with(mv, Outcome::Success, x, changes),
    }
}

// ---- input-match

// The modes of relation q.
fn four_modes(image: &Image, q: usize) -> [u8; codes::MOST_ARITY]
    ensures { result ≡ in_four 0 (modes_at (program_in image.now) q) }
{
    let a = program_clause::mode_of(image, q, 0);
    let b = program_clause::mode_of(image, q, 1);
    let c = program_clause::mode_of(image, q, 2);
    let d = program_clause::mode_of(image, q, 3);
    [a as u8, b as u8, c as u8, d as u8]
}

// The head terms of clause k.
fn four_terms(image: &Image, k: usize) -> [Term; codes::MOST_ARITY]
    ensures { result ≡ in_four (Const 0) (clause_at (program_in image.now) k).head }
{
    let a = program_clause::head_term(image, k, 0);
    let b = program_clause::head_term(image, k, 1);
    let c = program_clause::head_term(image, k, 2);
    let d = program_clause::head_term(image, k, 3);
    [a, b, c, d]
}

// The match that z names.
fn match_at(image: &Image, vars: &Variables, z: Spot) -> Decision
    requires { (vars.now.count ≤ 65535) × MatchThere (program_in image.now) (variables_in vars.now) z }
    ensures { Decides (match_at (program_in image.now) (variables_in vars.now) z) result }
{
    let l = program_goal::literal(image, z);
    let k = z.found as usize;
    let modes = four_modes(image, l.rel);
    let head = four_terms(image, k);
    let own = program_clause::clause_vars(image, k);
    let count = program_clause::mode_count(image, l.rel);
    let arity = count.min(l.arity);
    let args = l.args;
    let call = Call {
        arity,
        modes,
        args,
        base: z.base,
    };
    decide::match_of(vars, call, head, z.first, own)
}

// The move of process p.
// Kept, like that of an equate: a match of four arms is as plain as a function that takes a move for each.
fn match_move(p: usize, w: Way) -> Move
    ensures { result ≡ match_move p w }
{
    match w {
        Way::Failure => Move::InputMatchFailure(p),
        Way::Suspend(v) => Move::InputMatchSuspend(v),
        Way::Success => Move::InputMatchSuccess(p),
        Way::Bind(v) => Move::InputMatchBind(v),
    }
}

// An input-match that starts.
pub fn start_input_match(image: &Image, vars: &Variables, p: usize, x: Process) -> Plan
    requires { (vars.now.count ≤ 65535) × MatchThere (program_in image.now) (variables_in vars.now) x.spot }
    ensures { (applied_of result ≡ input_match_start (match_at (program_in image.now) (variables_in vars.now) x.spot) p x) × (result.count ≤ new_most) × (result.changes.count ≤ 4) × Within vars.now.count result.changes.count result.changes.list }
{
    let d = match_at(image, vars, x.spot);
    start_by(d, vars.count, match_move(p, way_of(d)), x)
}

// ---- equate

// The equation that z names, for process p.
fn equate_at(image: &Image, procs: &Processes, vars: &Variables, p: usize, z: Spot) -> Decision
    requires { (vars.now.count ≤ 65535) × EquateThere (program_in image.now) (variables_in vars.now) z }
    ensures { Decides (equate_at (program_in image.now) (state_in procs.now.bytes.now procs.now.count vars.now.bytes.now vars.now.count) p z) result }
{
    let l = program_goal::literal(image, z);
    let bar = tree::enclosing_first(procs, p);
    decide::equate_of(vars, l.args[0], l.args[1], z.base, bar)
}

// The move of process p.
fn equate_move(p: usize, w: Way) -> Move
    ensures { result ≡ equate_move p w }
{
    match w {
        Way::Failure => Move::EquateFailure(p),
        Way::Suspend(v) => Move::EquateSuspend(v),
        Way::Success => Move::EquateSuccess(p),
        Way::Bind(v) => Move::EquateBind(v),
    }
}

// An equate that starts.
pub fn start_equate(
    image: &Image,
    procs: &Processes,
    vars: &Variables,
    p: usize,
    x: Process,
) -> Plan
    requires { (vars.now.count ≤ 65535) × EquateThere (program_in image.now) (variables_in vars.now) x.spot }
    ensures { (applied_of result ≡ equate_start (equate_at (program_in image.now) (state_in procs.now.bytes.now procs.now.count vars.now.bytes.now vars.now.count) p x.spot) p x) × (result.count ≤ new_most) × (result.changes.count ≤ 4) × Within vars.now.count result.changes.count result.changes.list }
{
    let d = equate_at(image, procs, vars, p, x.spot);
    start_by(d, vars.count, equate_move(p, way_of(d)), x)
}

// ---- wake

// A suspended process starts again once a variable that it notes is bound.
pub fn wake(vars: &Variables, p: usize, x: Process) -> Plan
    requires { x.count ≤ 4 }
    ensures { (applied_of result ≡ wake_rule (some_bound (variables_in vars.now) (noted x)) p x) × (result.count ≤ new_most) × (result.changes.count ≤ 4) × Within vars.now.count result.changes.count result.changes.list }
{
    if !unify::some_bound(vars, &x.notes[..x.count as usize]) {
        return move_plan::none();
    }
    let y = move_plan::woken(x);
    move_plan::only(Move::Wake(p), y)
}
