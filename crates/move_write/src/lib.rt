// Carries a plan out: the one writer of the tables in a move.
#![tactic(auto)]

ghost use Rattle.std.specs.Prelude.{◌++◌, ◌+◌, ◌*◌, ◌≤◌, ◌<◌, length};
ghost use Rattle.parlog.specs.Delta.{apply};
ghost use Rattle.parlog.specs.Tables.{cell_size, procs_of, row_size, vars_in};
ghost use Rattle.parlog.specs.Unify.{changed};
ghost use Rattle.rows.specs.Rows.{Table};
ghost use Rattle.unify.specs.Pending.{pending};
ghost use Rattle.tree.specs.Family.{Falls, most_rows};
ghost use Rattle.vars.specs.Cells.{Cells};
ghost use Rattle.move_plan.specs.Plans.{delta_of, new_most, state_in, Within};
ghost use Rattle.move_write.specs.Writing.{cut_below, napped, procs_after, slept_at, vars_after};

use move_plan::Plan;
use parlog::cases::Mode;
use rows::Processes;
use unify::Changes;

// Where `cut` says so, all below p fall asleep.
fn cut_below(procs: &mut [u8], n: usize, p: usize, cut: bool)
    requires { (n * row_size ≤ length procs.old) × (p < n) × Falls (procs_of procs.old n) × (n ≤ most_rows) }
    ensures { Table procs.old procs.new (cut_below cut (procs_of procs.old n) p) }
{
    if cut {
        tree::sleep_below(procs, n, p);
    }
}

fn sleep_at(procs: &mut [u8], n: usize, c: usize)
    requires { n * row_size ≤ length procs.old }
    ensures { Table procs.old procs.new (slept_at (procs_of procs.old n) c) }
{
    if c < n {
        let used = Processes {
            bytes: procs,
            count: n,
        };
        let x = used.get(c);
        let y = move_plan::with_mode(x, Mode::Dormant);
        rows::put(procs, n, c, y);
    }
}

// The child that falls asleep, if there is one.
fn nap_at(procs: &mut [u8], n: usize, nap: Option<usize>)
    requires { n * row_size ≤ length procs.old }
    ensures { Table procs.old procs.new (napped nap (procs_of procs.old n)) }
{
    match nap {
        Some(c) => sleep_at(procs, n, c),
        None => {}
    }
}

// The first k of these rows follow the first n.
// Kept, rows and a count: a plan has them so, and `rows::Processes` reads them.
fn append_all(procs: &mut [u8], n: usize, rows: [u8; move_plan::NEW_SIZE], k: usize)
    requires { ((n + k) * row_size ≤ length procs.old) × (k ≤ new_most) }
    ensures { Table procs.old procs.new (procs_of procs.old n ++ procs_of rows k) }
{
    for i in 0..k {
        let new = Processes {
            bytes: &rows,
            count: k,
        };
        let x = new.get(i);
        rows::append(procs, n + i, x);
    }
}

// These changes are bound, in order.
fn bind_all(vars: &mut [u8], m: usize, changes: Changes)
    requires { (m * cell_size ≤ length vars.old) × Within m changes.count changes.list }
    ensures { Cells m vars.old vars.new (changed (vars_in vars.old m) (pending changes)) }
{
    for c in changes.made() {
        let v = c.var as usize;
        vars::bind(vars, m, v, c.to);
    }
}

fn write_procs(procs: &mut [u8], n: usize, p: usize, plan: Plan)
    requires { ((n + plan.count) * row_size ≤ length procs.old) × (plan.count ≤ new_most) × (p < n) × Falls (procs_of procs.old n) × (n ≤ most_rows) }
    ensures { Table procs.old procs.new (procs_after (procs_of procs.old n) p (delta_of plan)) }
{
    let nap = plan.nap;
    let new = plan.rows;
    cut_below(procs, n, p, plan.cut);
    nap_at(procs, n, nap);
    rows::put(procs, n, p, plan.me);
    append_all(procs, n, new, plan.count);
}

fn write_vars(vars: &mut [u8], m: usize, plan: Plan)
    requires { ((m + plan.fresh) * cell_size ≤ length vars.old) × Within (m + plan.fresh) plan.changes.count plan.changes.list }
    ensures { Cells m vars.old vars.new (vars_after (vars_in vars.old m) (delta_of plan)) }
{
    vars::grow(vars, m, plan.fresh);
    bind_all(vars, m + plan.fresh, plan.changes);
}

// Carries a plan out.
pub fn write(procs: &mut [u8], n: usize, vars: &mut [u8], m: usize, p: usize, plan: Plan)
    requires { ((n + plan.count) * row_size ≤ length procs.old) × (plan.count ≤ new_most) × (p < n) × Falls (procs_of procs.old n) × ((m + plan.fresh) * cell_size ≤ length vars.old) × Within (m + plan.fresh) plan.changes.count plan.changes.list × (n ≤ most_rows) }
    ensures { Table procs.old procs.new (apply (state_in procs.old n vars.old m) p (delta_of plan)).procs × Cells m vars.old vars.new (apply (state_in procs.old n vars.old m) p (delta_of plan)).vars }
{
    write_procs(procs, n, p, plan);
    write_vars(vars, m, plan);
}
