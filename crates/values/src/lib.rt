// The values of all goal variables at once, written into a lent row.
// Kept, head, processes and variables as three rows: the head of crate `bound` says why.
#![tactic(auto)]

ghost use Rattle.vars.specs.Views.{variables_in};
ghost use Rattle.program_index.specs.Images.{program_in};
ghost use Rattle.std.specs.Prelude.{◌≡◌, ◌*◌, ◌≤◌, length};
ghost use Rattle.parlog.specs.Limits.{small};
ghost use Rattle.parlog.specs.Tables.{cell_size, head_size, lent, var_count, vars_in, written};
ghost use Rattle.parlog.specs.Orders.{KeepRules};
ghost use Rattle.values.specs.Values.{GatherSays, ValuesSays, values_bytes};

use parlog::{Answer, Term, codes};
use program_index::Image;
use vars::Variables;

// The values of the first `goal` variables, one row behind the other.
fn write(vars: &Variables, goal: usize, values: &mut [u8])
    requires { (goal ≤ vars.now.count) × (goal ≤ 255) × (goal * cell_size ≤ length values.old) × KeepRules (variables_in vars.now) }
    ensures { values.new ≡ written (values_bytes (variables_in vars.now) goal) values.old }
{
    for v in 0..goal {
        let seen = unify::value_of(vars, Term::Var(v as u32));
        vars::put_bound(values, v, seen);
    }
}

// What is answered, in tables that keep the rules.
fn gather(image: &Image, head: &[u8], vars: &[u8], values: &mut [u8]) -> Answer<usize>
    requires { (head_size ≤ length head.now) × (var_count head.now * cell_size ≤ length vars.now) × ((program_in image.now).goal_vars ≤ var_count head.now) × KeepRules (vars_in vars.now (var_count head.now)) }
    ensures { GatherSays (program_in image.now).goal_vars (vars_in vars.now (var_count head.now)) values.old result values.new }
{
    let goal = program_clause::goal_vars(image);
    if values.len() < goal * codes::CELL_SIZE {
        return Err(entry::refusal(codes::ROOM));
    }
    let cells = Variables {
        bytes: vars,
        count: head::var_count(head),
    };
    write(&cells, goal, values);
    Ok(goal)
}

// The values of all goal variables.
pub fn values(
    image: &[u8],
    head: &[u8],
    procs: &[u8],
    vars: &[u8],
    values: &mut [u8],
) -> Answer<usize>
    ensures { ValuesSays small image.now (lent head.now procs.now vars.now) values.old result values.new }
{
    let mut ix = [0u16; program_index::SIZE];
    let e = entry::enter(image, head, procs, vars, &mut ix);
    // Kept in each call: docs/DECISIONS.md asks that each takes the load's answer apart by `let .. else`.
    let Ok((relations, clauses)) = e else {
        let r = load::refusal(e);
        return Err(r);
    };
    let accepted = Image {
        bytes: image,
        relations,
        clauses,
        index: &ix,
    };
    gather(&accepted, head, vars, values)
}
