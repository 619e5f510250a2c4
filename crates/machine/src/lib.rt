// The calls over lent bytes: a start, a supply, and the value of a goal variable.
// Kept, head, processes and variables as three rows: the head of crate `bound` says why.
#![tactic(auto)]

ghost use Rattle.program_index.specs.Images.{program_in};
ghost use Rattle.std.specs.Prelude.{◌≡◌, cond, ◌*◌, ◌≤◌, ◌<◌, leb, ltb, length, Err};
ghost use Rattle.parlog.specs.Calls.{value_answer, value_call};
ghost use Rattle.parlog.specs.Codes.{starting, the_goal};
ghost use Rattle.parlog.specs.Limits.{small};
ghost use Rattle.parlog.specs.Load.{refusal};
ghost use Rattle.parlog.specs.Program.{tag_of_goal};
ghost use Rattle.parlog.specs.Run.{seen, unseen};
ghost use Rattle.parlog.specs.Tables.{cell_size, goal_spot, head_size, lent, new_process, started_lent, var_count, vars_in};
ghost use Rattle.parlog.specs.Unify.{value};
ghost use Rattle.parlog.specs.declared.Term.TheVariants.{Var};
ghost use Rattle.program_index.specs.Indexed.{IndexedOf};
ghost use Rattle.machine.specs.Starting.{BeginSays, StartSays, StartableSays};
ghost use Rattle.machine.specs.Supplying.{DecidedSays, SupplySays, asked_of, given_by, is_const};

use parlog::cases::{Kind, Mode, Outcome};
use parlog::{Answer, Process, Spot, Term, codes};
use program_index::Image;
use vars::Variables;

// The sizes of the two tables of a run.
const PROC_BYTES: usize = codes::MOST_PROCS * codes::ROW_SIZE;

const VAR_BYTES: usize = codes::MOST_VARS * codes::CELL_SIZE;

// ---- the value

// The value of a goal variable, in tables that keep the rules.
fn look(image: &Image, head: &[u8], vars: &[u8], variable: u32) -> Answer<Term>
    requires { (head_size ≤ length head.now) × (var_count head.now * cell_size ≤ length vars.now) × ((program_in image.now).goal_vars ≤ var_count head.now) }
    ensures { result ≡ value_answer (cond (ltb variable (program_in image.now).goal_vars) (seen (value (vars_in vars.now (var_count head.now)) (Var variable))) (unseen 12)) }
{
    let goal = program_clause::goal_vars(image);
    if goal <= (variable as usize) {
        let unseen = entry::refusal(codes::NOVAR);
        return Err(unseen);
    }
    let cells = Variables {
        bytes: vars,
        count: head::var_count(head),
    };
    let seen = unify::value_of(&cells, Term::Var(variable));
    Ok(seen)
}

// The value of a goal variable.
pub fn value(image: &[u8], head: &[u8], procs: &[u8], vars: &[u8], variable: u32) -> Answer<Term>
    ensures { result ≡ value_call small image.now (lent head.now procs.now vars.now) variable }
{
    let mut ix = [0u16; program_index::SIZE];
    let e = entry::enter(image, head, procs, vars, &mut ix);
    // Kept in each call: docs/DECISIONS.md asks that each takes the load's answer apart by `let .. else`.
    let Ok((relations, clauses)) = e else {
        let r = load::refusal(e);
        return Err(r);
    };
    let accepted = Image {
        bytes: image,
        relations,
        clauses,
        index: &ix,
    };
    look(&accepted, head, vars, variable)
}

// ---- the start

// The image first, then the sizes: the counts of the program with its index, or the refusal.
fn startable(
    image: &[u8],
    head: &[u8],
    procs: &[u8],
    vars: &[u8],
    ix: &mut [u16; program_index::SIZE],
) -> Answer<(usize, usize)>
    ensures startable_says { StartableSays small image.now (lent head.now procs.now vars.now) result }
    ensures indexed_of { IndexedOf result image.now ix.new }
{
    let l = load::load_indexed(image, ix);
    // Kept in each call: docs/DECISIONS.md asks that each takes the load's answer apart by `let .. else`.
    let Ok((relations, clauses)) = l else {
        return l;
    };
    if !table_rules::full_size(head, procs, vars, entry::PROCS, entry::VARS) {
        return Err(entry::refusal(codes::STATE));
    }
    Ok((relations, clauses))
}

// The process of the image's goal, about to start.
fn goal_process(image: &Image) -> Process
    ensures { result ≡ new_process (tag_of_goal (program_in image.now).goal) starting 0 (goal_spot the_goal 0 0) }
{
    let tag = program_goal::tag_of_goal(image, codes::THE_GOAL, 0);
    let goal = move_plan::goal_spot(Kind::TheGoal, 0, 0);
    move_plan::new_process(tag, Mode::Starting, 0, goal)
}

// The process table of a start: the goal's process, and zeros.
fn begin_procs(image: &Image, procs: &mut [u8])
    requires { length procs.old ≡ 12288 }
    ensures { procs.new ≡ (started_lent small (program_in image.now)).procs }
{
    let x = goal_process(image);
    rows::wipe(procs, 0, PROC_BYTES);
    rows::append(procs, 0, x);
}

// All three: the counts, the goal's process, and its variables unbound.
fn begin(image: &Image, head: &mut [u8], procs: &mut [u8], vars: &mut [u8])
    requires { (length head.old ≡ head_size) × (length procs.old ≡ 12288) × (length vars.old ≡ 4096) }
    ensures { BeginSays small (program_in image.now) head.new procs.new vars.new }
{
    let goal = program_clause::goal_vars(image);
    begin_procs(image, procs);
    rows::wipe(vars, 0, VAR_BYTES);
    head::put_head(head, 1, goal, 0, 0);
}

// A start: the tables of a run that has not moved yet.
pub fn start(image: &[u8], head: &mut [u8], procs: &mut [u8], vars: &mut [u8]) -> Answer<()>
    ensures { StartSays small image.now (lent head.old procs.old vars.old) result head.new procs.new vars.new }
{
    let mut ix = [0u16; program_index::SIZE];
    let a = startable(image, head, procs, vars, &mut ix);
    // Kept in each call: docs/DECISIONS.md asks that each takes the load's answer apart by `let .. else`.
    let Ok((relations, clauses)) = a else {
        let r = load::refusal(a);
        return Err(r);
    };
    let accepted = Image {
        bytes: image,
        relations,
        clauses,
        index: &ix,
    };
    begin(&accepted, head, procs, vars);
    Ok(())
}

// ---- the supply

// The value is known already.
fn is_const(t: Term) -> bool
    ensures { result ≡ is_const t }
{
    matches!(t, Term::Const(_))
}

// A constant for a variable whose value is t: it must be one that an image can have, before t is looked at.
fn given(t: Term, constant: u32) -> Answer<usize>
    ensures { result ≡ cond (leb constant 32767) (given_by t) (Err (refusal 14 0)) }
{
    let large = codes::MOST_CONSTANT < constant;
    let known = is_const(t);
    if large {
        return Err(entry::refusal(codes::CONST));
    }
    if known {
        return Err(entry::refusal(codes::BOUND));
    }
    Ok(vars::number_of(t) as usize)
}

// What a supply answers, in tables that keep the rules; nothing is written yet.
// Kept here, at `look` and at `values::gather`, that the cells and the goal's variables are there: docs/landings/07.md names `asked`, which takes the rows as they are lent, and each of the three reads the head once.
// Kept beside `look`, which asks for the same variable: each names its own answer where there is none, and what comes behind the value differs.
pub fn asked(image: &Image, head: &[u8], vars: &[u8], variable: u32, value: u32) -> Answer<usize>
    requires { (head_size ≤ length head.now) × (var_count head.now * cell_size ≤ length vars.now) × ((program_in image.now).goal_vars ≤ var_count head.now) }
    ensures { result ≡ asked_of (program_in image.now) (vars_in vars.now (var_count head.now)) variable value }
{
    let goal = program_clause::goal_vars(image);
    if goal <= (variable as usize) {
        return Err(entry::refusal(codes::NOVAR));
    }
    let cells = Variables {
        bytes: vars,
        count: head::var_count(head),
    };
    let t = unify::value_of(&cells, Term::Var(variable));
    given(t, value)
}

// The same, with the tests that come first.
pub fn decided(
    image: &[u8],
    head: &[u8],
    procs: &[u8],
    vars: &[u8],
    variable: u32,
    value: u32,
) -> Answer<usize>
    ensures { DecidedSays small image.now (lent head.now procs.now vars.now) variable value result }
{
    let mut ix = [0u16; program_index::SIZE];
    let e = entry::enter(image, head, procs, vars, &mut ix);
    // Kept in each call: docs/DECISIONS.md asks that each takes the load's answer apart by `let .. else`.
    let Ok((relations, clauses)) = e else {
        let r = load::refusal(e);
        return Err(r);
    };
    let accepted = Image {
        bytes: image,
        relations,
        clauses,
        index: &ix,
    };
    asked(&accepted, head, vars, variable, value)
}

// A supply: the value of a goal variable becomes bound to a constant.
pub fn supply(
    image: &[u8],
    head: &[u8],
    procs: &[u8],
    vars: &mut [u8],
    variable: u32,
    value: u32,
) -> Answer<usize>
    ensures { SupplySays small image.now (lent head.now procs.now vars.old) variable value result head.now procs.now vars.new }
{
    let v = decided(image, head, procs, vars, variable, value)?;
    let n = head::var_count(head);
    vars::bind(vars, n, v, Term::Const(value));
    Ok(v)
}
