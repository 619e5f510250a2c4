// The run that records: the plain run with one row more, in which each move leaves its record.
// Kept, head, processes and variables as three rows: the head of crate `bound` says why.
#![tactic(auto)]

ghost use Rattle.std.specs.Prelude.{◌≡◌, ◌<◌, ◌≤◌};
ghost use Rattle.bound.specs.Calls.{RowSays};
ghost use Rattle.children.specs.Telling.{Tells};
ghost use Rattle.entry.specs.Entered.{Inside};
ghost use Rattle.parlog.specs.Limits.{small};
ghost use Rattle.parlog.specs.Tables.{at, lent, proc_count, procs_of};
ghost use Rattle.run_traced.specs.Traced.{MoveSays, moves_for, RanTraced, run_traced_call};

use children::Told;
use parlog::{Answer, End, Move};
use program_index::Image;

// One move of a run, and its record at this place.
fn move_noted(
    image: &Image,
    head: &mut [u8],
    procs: &mut [u8],
    vars: &mut [u8],
    trace: &mut [u8],
    p: usize,
    told: Told,
    place: usize,
    stamp: u16,
) -> Answer<Move>
    requires { Inside small image.now.bytes.now image.now.relations image.now.clauses (lent head.old procs.old vars.old) × (p < proc_count head.old) × ((at (procs_of procs.old (proc_count head.old)) p).mode ≡ 3 → Tells (procs_of procs.old (proc_count head.old)) p told) × (place ≤ 4294967280) }
    ensures { MoveSays small image.now.bytes.now image.now.relations image.now.clauses (lent head.old procs.old vars.old) trace.old p place stamp result head.new procs.new vars.new trace.new }
{
    let m = step::stepped(image, head, procs, vars, p, told)?;
    let rule = words::rule_number(m);
    trace::put_record(trace, place, trace::Kind::Step, p, rule, stamp);
    Ok(m)
}

// A run in tables that keep the rules: each move leaves its record behind those before.
// Kept beside `run::going`: one loop for both would take the move as a closure, under a contract for any, and the plain run would count stamps too.
fn going(
    image: &Image,
    head: &mut [u8],
    procs: &mut [u8],
    vars: &mut [u8],
    trace: &mut [u8],
    limit: usize,
    stamp: u16,
) -> Answer<(End, usize)>
    requires { Inside small image.now.bytes.now image.now.relations image.now.clauses (lent head.old procs.old vars.old) × (limit ≤ 65535) }
    ensures { RanTraced small image.now.bytes.now image.now.relations image.now.clauses (lent head.old procs.old vars.old) trace.old limit stamp result (lent head.new procs.new vars.new) trace.new }
{
    let mut next = stamp;
    for k in 0..=limit {
        let w = run::look(head, procs, vars);
        let f = w.who;
        let Some(p) = f else {
            let end = w.end;
            return Ok((end, k));
        };
        if k == limit {
            return Ok((End::Budget, k));
        }
        let a = move_noted(
            image,
            head,
            procs,
            vars,
            trace,
            p,
            w.told,
            k * trace::SIZE,
            next,
        );
        let Ok(_) = a else {
            return Ok((End::Room, k));
        };
        next = trace::following(next);
    }
    Ok((End::Budget, limit))
}

// How many moves a run may make whose records have so many bytes.
fn moves_for(bytes: usize, limit: usize) -> usize
    ensures { (result ≡ moves_for bytes limit) × (result ≤ limit) }
{
    (bytes / trace::SIZE).min(limit)
}

// The run, and the records of its moves: no more moves than there is room for.
pub fn run_traced(
    image: &[u8],
    head: &mut [u8],
    procs: &mut [u8],
    vars: &mut [u8],
    trace: &mut [u8],
    limit: u16,
    stamp: u16,
) -> Answer<(End, usize)>
    ensures { RowSays (run_traced_call small image.now (lent head.old procs.old vars.old) trace.old limit stamp) result head.new procs.new vars.new trace.new }
{
    let mut ix = [0u16; program_index::SIZE];
    let e = entry::enter(image, head, procs, vars, &mut ix);
    // Kept in each call: docs/DECISIONS.md asks that each takes the load's answer apart by `let .. else`.
    let Ok((relations, clauses)) = e else {
        let r = load::refusal(e);
        return Err(r);
    };
    let accepted = Image {
        bytes: image,
        relations,
        clauses,
        index: &ix,
    };
    let most = moves_for(trace.len(), limit as usize);
    going(&accepted, head, procs, vars, trace, most, stamp)
}
