// The step by number: the move of one process, over lent bytes.
// Kept, head, processes and variables as three rows: the head of crate `bound` says why.
#![tactic(auto)]

ghost use Rattle.rows.specs.Views.{processes_in};
ghost use Rattle.std.specs.Prelude.{◌≡◌, ◌<◌, ◌≤◌};
ghost use Rattle.children.specs.Telling.{Tells};
ghost use Rattle.entry.specs.Entered.{Inside};
ghost use Rattle.parlog.specs.Limits.{small};
ghost use Rattle.parlog.specs.Run.{counted};
ghost use Rattle.parlog.specs.Tables.{at, lent, proc_count, procs_of};
ghost use Rattle.step.specs.Stepping.{CarriedOut, Carries, PlannedSays, StepSays, SteppedSays};

use children::Told;
use move_plan::Plan;
use parlog::{Answer, Move, codes};
use program_index::Image;
use rows::Processes;
use vars::Variables;

// One step more; the largest number stays.
fn count(steps: u32) -> u32
    ensures { result ≡ counted steps }
{
    steps.saturating_add(1)
}

// What the step of process p will do, in tables that keep the rules, or what refuses it; it only reads.
pub fn planned(
    image: &Image,
    head: &[u8],
    procs: &[u8],
    vars: &[u8],
    p: usize,
    told: Told,
) -> Answer<Plan>
    requires { Inside small image.now.bytes.now image.now.relations image.now.clauses (lent head.now procs.now vars.now) × (p < proc_count head.now) × ((at (procs_of procs.now (proc_count head.now)) p).mode ≡ 3 → Tells (procs_of procs.now (proc_count head.now)) p told) }
    ensures { PlannedSays small image.now.bytes.now image.now.relations image.now.clauses (lent head.now procs.now vars.now) p result }
{
    let n = head::proc_count(head);
    let m = head::var_count(head);
    let used = Processes {
        bytes: procs,
        count: n,
    };
    let cells = Variables {
        bytes: vars,
        count: m,
    };
    let plan = moves::rule_of(image, &used, &cells, p, told);
    if !plan.acts {
        return Err(entry::refusal(codes::STILL));
    }
    if !move_plan::fits(entry::PROCS, entry::VARS, n, m, plan.count, plan.fresh) {
        return Err(entry::refusal(codes::ROOM));
    }
    Ok(plan)
}

// The step of process p by its plan, which nothing refuses: it writes the tables.
pub fn carry_out(head: &mut [u8], procs: &mut [u8], vars: &mut [u8], p: usize, plan: Plan)
    requires { Carries small (lent head.old procs.old vars.old) p plan }
    ensures { CarriedOut (lent head.old procs.old vars.old) p plan head.new procs.new vars.new }
{
    let n = head::proc_count(head);
    let m = head::var_count(head);
    let steps = count(head::marker_steps(head));
    move_write::write(procs, n, vars, m, p, plan);
    head::put_head(head, n + plan.count, m + plan.fresh, p, steps);
}

// The step of process p, in tables that keep the rules; nothing is written before it is known to be made.
pub fn stepped(
    image: &Image,
    head: &mut [u8],
    procs: &mut [u8],
    vars: &mut [u8],
    p: usize,
    told: Told,
) -> Answer<Move>
    requires { Inside small image.now.bytes.now image.now.relations image.now.clauses (lent head.old procs.old vars.old) × (p < proc_count head.old) × ((at (procs_of procs.old (proc_count head.old)) p).mode ≡ 3 → Tells (procs_of procs.old (proc_count head.old)) p told) }
    ensures { SteppedSays small image.now.bytes.now image.now.relations image.now.clauses (lent head.old procs.old vars.old) p result head.new procs.new vars.new }
{
    let plan = planned(image, head, procs, vars, p, told)?;
    let mv = plan.mv;
    carry_out(head, procs, vars, p, plan);
    Ok(mv)
}

// What process p is told of its children; only one that waits asks.
pub fn ask(procs: &Processes, p: usize) -> Told
    requires { procs.now.count ≤ 65535 }
    ensures { (at (processes_in procs.now) p).mode ≡ 3 → Tells (processes_in procs.now) p result }
{
    if procs.mode_at(p) == codes::WAITING {
        return children::asked(procs, p);
    }
    children::nothing()
}

// The step by number.
pub fn step(
    image: &[u8],
    head: &mut [u8],
    procs: &mut [u8],
    vars: &mut [u8],
    process: u32,
) -> Answer<Move>
    ensures { StepSays small image.now (lent head.old procs.old vars.old) process result head.new procs.new vars.new }
{
    let mut ix = [0u16; program_index::SIZE];
    let e = entry::enter(image, head, procs, vars, &mut ix);
    // Kept in each call: docs/DECISIONS.md asks that each takes the load's answer apart by `let .. else`.
    let Ok((relations, clauses)) = e else {
        let r = load::refusal(e);
        return Err(r);
    };
    let accepted = Image {
        bytes: image,
        relations,
        clauses,
        index: &ix,
    };
    let p = process as usize;
    let n = head::proc_count(head);
    if n <= p {
        return Err(entry::refusal(codes::NODE));
    }
    let used = Processes {
        bytes: procs,
        count: n,
    };
    let told = ask(&used, p);
    stepped(&accepted, head, procs, vars, p, told)
}
