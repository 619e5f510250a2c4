// A turn, and a run of turns, over lent bytes.
// Kept, head, processes and variables as three rows: the head of crate `bound` says why.
#![tactic(auto)]

ghost use Rattle.std.specs.Prelude.{◌≡◌, ◌≤◌};
ghost use Rattle.entry.specs.Entered.{Inside};
ghost use Rattle.parlog.specs.Codes.{result_of};
ghost use Rattle.parlog.specs.Limits.{small};
ghost use Rattle.parlog.specs.Run.{end_of};
ghost use Rattle.parlog.specs.Tables.{lent};
ghost use Rattle.run.specs.Running.{LookSays, RanSays, RunSays, Turning, TurnedIn, TurnSays, WhoseSays};

use children::Told;
use parlog::{Answer, End, Move, codes};
use program_index::Image;
use rows::Processes;
use turn_search::Turn;
use vars::Variables;

// What a run finds before a step: whose turn it is with what its children report, and the end where it is nobody's.
// Kept, no `Option` of a pair, for the reason that stands at `turn_search::Turn`.
#[derive(Clone, Copy)]
pub struct View {
    pub who: Option<usize>,
    pub told: Told,
    pub end: End,
}

// ---- a turn

// Whose turn it is, and what its children report.
pub fn whose(head: &[u8], procs: &[u8], vars: &[u8]) -> Turn
    requires { Turning small head.now procs.now vars.now }
    ensures { WhoseSays (lent head.now procs.now vars.now) result }
{
    let n = head::proc_count(head);
    let m = head::var_count(head);
    let last = head::marker_last(head);
    let used = Processes {
        bytes: procs,
        count: n,
    };
    let cells = Variables {
        bytes: vars,
        count: m,
    };
    turn_search::next(&used, &cells, last)
}

// The step of whose turn it is, in tables that keep the rules.
fn turn_in(image: &Image, head: &mut [u8], procs: &mut [u8], vars: &mut [u8]) -> Answer<Move>
    requires { Inside small image.now.bytes.now image.now.relations image.now.clauses (lent head.old procs.old vars.old) }
    ensures { TurnedIn small image.now.bytes.now image.now.relations image.now.clauses (lent head.old procs.old vars.old) result head.new procs.new vars.new }
{
    let t = whose(head, procs, vars);
    let f = t.who;
    let Some(p) = f else {
        return Err(entry::refusal(codes::STILL));
    };
    step::stepped(image, head, procs, vars, p, t.told)
}

// The turn: the step of the first process that can move after the one stepped last.
pub fn turn(image: &[u8], head: &mut [u8], procs: &mut [u8], vars: &mut [u8]) -> Answer<Move>
    ensures { TurnSays small image.now (lent head.old procs.old vars.old) result head.new procs.new vars.new }
{
    let mut ix = [0u16; program_index::SIZE];
    let e = entry::enter(image, head, procs, vars, &mut ix);
    // Kept in each call: docs/DECISIONS.md asks that each takes the load's answer apart by `let .. else`.
    let Ok((relations, clauses)) = e else {
        let away = load::refusal(e);
        return Err(away);
    };
    let accepted = Image {
        bytes: image,
        relations,
        clauses,
        index: &ix,
    };
    turn_in(&accepted, head, procs, vars)
}

// ---- a run

// The end that a result is.
// Kept: a result is a byte of a row, and each but one is a failure, so that a match would be no plainer.
fn end_by(res: u8) -> End
    ensures { result ≡ end_of (result_of res) }
{
    if res == codes::SUCCESS {
        return End::Success;
    }
    End::Failure
}

// The tests before a step: whether the goal's process sleeps, then whose turn it is.
pub fn look(head: &[u8], procs: &[u8], vars: &[u8]) -> View
    requires { Turning small head.now procs.now vars.now }
    ensures { LookSays (lent head.now procs.now vars.now) result }
{
    let n = head::proc_count(head);
    let used = Processes {
        bytes: procs,
        count: n,
    };
    if used.mode_at(0) == codes::DORMANT {
        let end = end_by(used.result_at(0));
        let told = children::nothing();
        return View {
            who: None,
            told,
            end,
        };
    }
    let t = whose(head, procs, vars);
    let who = t.who;
    let told = t.told;
    View {
        who,
        told,
        end: End::Waiting,
    }
}

// A run in tables that keep the rules; every move keeps them, so no test of the tables is repeated.
fn going(
    image: &Image,
    head: &mut [u8],
    procs: &mut [u8],
    vars: &mut [u8],
    limit: usize,
) -> Answer<(End, usize)>
    requires { Inside small image.now.bytes.now image.now.relations image.now.clauses (lent head.old procs.old vars.old) × (limit ≤ 65535) }
    ensures { RanSays small image.now.bytes.now image.now.relations image.now.clauses (lent head.old procs.old vars.old) limit result (lent head.new procs.new vars.new) }
{
    for k in 0..=limit {
        let w = look(head, procs, vars);
        let f = w.who;
        let Some(p) = f else {
            let end = w.end;
            return Ok((end, k));
        };
        if k == limit {
            return Ok((End::Budget, k));
        }
        let a = step::stepped(image, head, procs, vars, p, w.told);
        let Ok(_) = a else {
            return Ok((End::Room, k));
        };
    }
    // No run comes here: the last turn of the loop has `k == limit`.
    Ok((End::Budget, limit))
}

// The run: turns until the goal has ended, nothing can move, the limit is used up or a step has no room.
pub fn run(
    image: &[u8],
    head: &mut [u8],
    procs: &mut [u8],
    vars: &mut [u8],
    limit: u16,
) -> Answer<(End, usize)>
    ensures { RunSays small image.now (lent head.old procs.old vars.old) limit result head.new procs.new vars.new }
{
    let mut ix = [0u16; program_index::SIZE];
    let e = entry::enter(image, head, procs, vars, &mut ix);
    // Kept in each call: docs/DECISIONS.md asks that each takes the load's answer apart by `let .. else`.
    let Ok((relations, clauses)) = e else {
        let r = load::refusal(e);
        return Err(r);
    };
    let accepted = Image {
        bytes: image,
        relations,
        clauses,
        index: &ix,
    };
    going(&accepted, head, procs, vars, limit as usize)
}
