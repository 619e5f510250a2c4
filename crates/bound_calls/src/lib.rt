// The step by number and the turn, which tell the variables bound: the plain calls with one row more.
// Kept beside `step::step` and `run::turn`, and the traced calls: one for all would take what comes behind the first tests as a closure, whose contract (`StepSays`, `RowSays`) it would have to say for any;
// `capi` exports each under its own. The head of crate `bound` says why head, processes and variables stay three rows.
#![tactic(auto)]

ghost use Rattle.bound.specs.Calls.{RowSays, step_bound_call, turn_bound_call, turn_bound_in};
ghost use Rattle.entry.specs.Entered.{Inside};
ghost use Rattle.parlog.specs.Limits.{small};
ghost use Rattle.parlog.specs.Tables.{lent};

use parlog::{Answer, Move, codes};
use program_index::Image;
use rows::Processes;

// The step by number, and the variables that it bound.
pub fn step_bound(
    image: &[u8],
    head: &mut [u8],
    procs: &mut [u8],
    vars: &mut [u8],
    bound: &mut [u8],
    process: u32,
) -> Answer<Move>
    ensures { RowSays (step_bound_call small image.now (lent head.old procs.old vars.old) bound.old process) result head.new procs.new vars.new bound.new }
{
    let mut ix = [0u16; program_index::SIZE];
    let e = entry::enter(image, head, procs, vars, &mut ix);
    // Kept in each call: docs/DECISIONS.md asks that each takes the load's answer apart by `let .. else`.
    let Ok((relations, clauses)) = e else {
        let r = load::refusal(e);
        return Err(r);
    };
    let accepted = Image {
        bytes: image,
        relations,
        clauses,
        index: &ix,
    };
    let p = process as usize;
    let n = head::proc_count(head);
    if n <= p {
        return Err(entry::refusal(codes::NODE));
    }
    let used = Processes {
        bytes: procs,
        count: n,
    };
    let told = step::ask(&used, p);
    bound::step_in(&accepted, head, procs, vars, bound, p, told)
}

// The step of whose turn it is, in tables that keep the rules.
fn turn_in(
    image: &Image,
    head: &mut [u8],
    procs: &mut [u8],
    vars: &mut [u8],
    bound: &mut [u8],
) -> Answer<Move>
    requires { Inside small image.now.bytes.now image.now.relations image.now.clauses (lent head.old procs.old vars.old) }
    ensures { RowSays (turn_bound_in small image.now.bytes.now image.now.relations image.now.clauses (lent head.old procs.old vars.old) bound.old) result head.new procs.new vars.new bound.new }
{
    let t = run::whose(head, procs, vars);
    let f = t.who;
    let Some(p) = f else {
        return Err(entry::refusal(codes::STILL));
    };
    bound::step_in(image, head, procs, vars, bound, p, t.told)
}

// The turn, and the variables that it bound.
pub fn turn_bound(
    image: &[u8],
    head: &mut [u8],
    procs: &mut [u8],
    vars: &mut [u8],
    bound: &mut [u8],
) -> Answer<Move>
    ensures { RowSays (turn_bound_call small image.now (lent head.old procs.old vars.old) bound.old) result head.new procs.new vars.new bound.new }
{
    let mut ix = [0u16; program_index::SIZE];
    let e = entry::enter(image, head, procs, vars, &mut ix);
    // Kept in each call: docs/DECISIONS.md asks that each takes the load's answer apart by `let .. else`.
    let Ok((relations, clauses)) = e else {
        let r = load::refusal(e);
        return Err(r);
    };
    let accepted = Image {
        bytes: image,
        relations,
        clauses,
        index: &ix,
    };
    turn_in(&accepted, head, procs, vars, bound)
}
