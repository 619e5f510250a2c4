// Step and supply that record: the plain calls with one row more, in which the move leaves its record.
// Kept, head, processes and variables as three rows, and the calls beside the plain ones: the heads of crates `bound` and `bound_calls` say why.
#![tactic(auto)]

ghost use Rattle.std.specs.Prelude.{◌≡◌};
ghost use Rattle.bound.specs.Calls.{RowSays};
ghost use Rattle.parlog.specs.Calls.{step_call};
ghost use Rattle.parlog.specs.Limits.{small};
ghost use Rattle.parlog.specs.Tables.{lent};
ghost use Rattle.traced.specs.Traced.{step_traced_call, step_unnoted, supply_traced_call, supply_unnoted};

use parlog::{Answer, Move, codes};
use program_index::Image;
use rows::Processes;

// ---- a step

// The step whose record has no room: refused as the plain one, else with ROOM; it only reads.
fn step_unnoted(image: &[u8], head: &[u8], procs: &[u8], vars: &[u8], process: u32) -> Answer<Move>
    ensures { result ≡ step_unnoted (step_call small image.now (lent head.now procs.now vars.now) process).answer }
{
    let mut ix = [0u16; program_index::SIZE];
    let e = entry::enter(image, head, procs, vars, &mut ix);
    // Kept in each call: docs/DECISIONS.md asks that each takes the load's answer apart by `let .. else`.
    let Ok((relations, clauses)) = e else {
        let r = load::refusal(e);
        return Err(r);
    };
    let accepted = Image {
        bytes: image,
        relations,
        clauses,
        index: &ix,
    };
    let p = process as usize;
    let n = head::proc_count(head);
    if n <= p {
        return Err(entry::refusal(codes::NODE));
    }
    let used = Processes {
        bytes: procs,
        count: n,
    };
    let told = step::ask(&used, p);
    step::planned(&accepted, head, procs, vars, p, told)?;
    Err(entry::refusal(codes::ROOM))
}

// The step by number, and its record.
pub fn step_traced(
    image: &[u8],
    head: &mut [u8],
    procs: &mut [u8],
    vars: &mut [u8],
    trace: &mut [u8],
    process: u32,
    stamp: u16,
) -> Answer<Move>
    ensures { RowSays (step_traced_call small image.now (lent head.old procs.old vars.old) trace.old process stamp) result head.new procs.new vars.new trace.new }
{
    if trace.len() < trace::SIZE {
        return step_unnoted(image, head, procs, vars, process);
    }
    let m = step::step(image, head, procs, vars, process)?;
    let rule = words::rule_number(m);
    trace::put_record(trace, 0, trace::Kind::Step, process as usize, rule, stamp);
    Ok(m)
}

// ---- a supply

// The supply whose record has no room: refused as the plain one, else with ROOM.
fn supply_unnoted(a: Answer<usize>) -> Answer<usize>
    ensures { result ≡ supply_unnoted a }
{
    match a {
        Ok(_) => Err(entry::refusal(codes::ROOM)),
        Err(r) => Err(r),
    }
}

// The supply, and its record: the variable of the goal that was asked for.
pub fn supply_traced(
    image: &[u8],
    head: &[u8],
    procs: &[u8],
    vars: &mut [u8],
    trace: &mut [u8],
    variable: u32,
    value: u32,
    stamp: u16,
) -> Answer<usize>
    ensures { RowSays (supply_traced_call small image.now (lent head.now procs.now vars.old) trace.old variable value stamp) result head.now procs.now vars.new trace.new }
{
    if trace.len() < trace::SIZE {
        let d = machine::decided(image, head, procs, vars, variable, value);
        return supply_unnoted(d);
    }
    let v = machine::supply(image, head, procs, vars, variable, value)?;
    trace::put_record(
        trace,
        0,
        trace::Kind::Supply,
        variable as usize,
        value as usize,
        stamp,
    );
    Ok(v)
}
