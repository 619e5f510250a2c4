// The step and the supply, which tell the variables bound: the plain ones with one row more.
// Kept, head, processes and variables as three rows, here and in `resume`, `replay`, `bound_calls`, `traced` and `run_traced`: C lends three, the public calls take them, and below a function takes the one that it reads, so that
// a struct would be made at each call and taken apart at the next. A ghost field could not say `Inside` of lent rows: a step writes row after row, and between two writes no table rule holds.
#![tactic(auto)]

ghost use Rattle.std.specs.Prelude.{◌≡◌, ◌<◌};
ghost use Rattle.children.specs.Telling.{Tells};
ghost use Rattle.entry.specs.Entered.{Inside};
ghost use Rattle.parlog.specs.Limits.{small};
ghost use Rattle.parlog.specs.Tables.{at, lent, proc_count, procs_of};
ghost use Rattle.bound.specs.Calls.{RowSays, step_bound_in, supply_bound_call};

use children::Told;
use parlog::{Answer, Move, Term, codes};
use program_index::Image;

// ---- a step

// The step of process p, in tables that keep the rules; nothing is written before it is known to be made and to be told.
// Kept beside `step::stepped` and `run_traced::move_noted`: between plan and writing stands the test of the row, which the others have not.
// Kept, p and told with what is known of them, for these three and `step::planned`: it is known of rows that the step then writes, so that no value could hold it with its rows.
pub fn step_in(
    image: &Image,
    head: &mut [u8],
    procs: &mut [u8],
    vars: &mut [u8],
    bound: &mut [u8],
    p: usize,
    told: Told,
) -> Answer<Move>
    requires { Inside small image.now.bytes.now image.now.relations image.now.clauses (lent head.old procs.old vars.old) × (p < proc_count head.old) × ((at (procs_of procs.old (proc_count head.old)) p).mode ≡ 3 → Tells (procs_of procs.old (proc_count head.old)) p told) }
    ensures { RowSays (step_bound_in small image.now.bytes.now image.now.relations image.now.clauses (lent head.old procs.old vars.old) bound.old p) result head.new procs.new vars.new bound.new }
{
    let plan = step::planned(image, head, procs, vars, p, told)?;
    if bound.len() < bound_row::size_of(plan.changes) {
        return Err(entry::refusal(codes::ROOM));
    }
    step::carry_out(head, procs, vars, p, plan);
    bound_row::tell(bound, plan.changes);
    Ok(plan.mv)
}

// ---- a supply

// The supply, and the variable that takes the binding.
// Kept beside `machine::supply` and `traced::supply_traced`: what is tested and written beside the tables differs, and `capi` exports each under its own contract.
pub fn supply_bound(
    image: &[u8],
    head: &[u8],
    procs: &[u8],
    vars: &mut [u8],
    bound: &mut [u8],
    variable: u32,
    value: u32,
) -> Answer<usize>
    ensures { RowSays (supply_bound_call small image.now (lent head.now procs.now vars.old) bound.old variable value) result head.now procs.now vars.new bound.new }
{
    let v = machine::decided(image, head, procs, vars, variable, value)?;
    if bound.len() < bound_row::ONE_SIZE {
        let short = entry::refusal(codes::ROOM);
        return Err(short);
    }
    let n = head::var_count(head);
    vars::bind(vars, n, v, Term::Const(value));
    bound_row::tell_one(bound, v);
    Ok(v)
}
