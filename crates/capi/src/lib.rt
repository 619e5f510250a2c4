// What a C program calls: numbers and byte rows alone. Each answer is one word. Crate capi_c exports these functions.
// Kept, calls that are alike: the C interface has each by its name, with rows and numbers of its own.
#![tactic(auto)]

ghost use Rattle.capi.specs.Tells.{LoadTells, ParseTells, PrintTells, ReplayTells, ResumeTells, RunTells, RunTracedTells, SaveTells, StartTells, StepBoundTells, StepTells, StepTracedTells, SupplyBoundTells, SupplyTells, SupplyTracedTells, TurnBoundTells, TurnTells, ValuesTells, ValueTells, WatchTells};
ghost use Rattle.parlog.specs.Limits.{small};
ghost use Rattle.parlog.specs.Tables.{lent};

// Tests an image: its relation and clause counts, or the first refusal.
pub fn rissobarm_load(image: &[u8]) -> u64
    ensures { LoadTells image.now result }
{
    let l = load::load(image);
    let Ok((relations, clauses)) = l else {
        let r = load::refusal(l);
        return words::refused(r);
    };
    words::word(0, relations, clauses, 0)
}

// Writes the tables of a run that has not moved yet.
pub fn rissobarm_start(image: &[u8], head: &mut [u8], procs: &mut [u8], vars: &mut [u8]) -> u64
    ensures { StartTells small image.now (lent head.old procs.old vars.old) result head.new procs.new vars.new }
{
    let a = machine::start(image, head, procs, vars);
    words::start_word(a)
}

// Makes the step of one process.
pub fn rissobarm_step(
    image: &[u8],
    head: &mut [u8],
    procs: &mut [u8],
    vars: &mut [u8],
    process: u32,
) -> u64
    ensures { StepTells small image.now (lent head.old procs.old vars.old) process result head.new procs.new vars.new }
{
    let a = step::step(image, head, procs, vars, process);
    words::step_word(a)
}

// Makes the step of the first process that can move after the one stepped last.
pub fn rissobarm_turn(image: &[u8], head: &mut [u8], procs: &mut [u8], vars: &mut [u8]) -> u64
    ensures { TurnTells small image.now (lent head.old procs.old vars.old) result head.new procs.new vars.new }
{
    let a = run::turn(image, head, procs, vars);
    words::step_word(a)
}

// Makes turns until the goal has ended, nothing can move, the limit is used up or a step has no room.
pub fn rissobarm_run(
    image: &[u8],
    head: &mut [u8],
    procs: &mut [u8],
    vars: &mut [u8],
    limit: u16,
) -> u64
    ensures { RunTells small image.now (lent head.old procs.old vars.old) limit result head.new procs.new vars.new }
{
    let a = run::run(image, head, procs, vars, limit);
    words::run_word(a)
}

// Binds the value of a goal variable to a constant.
pub fn rissobarm_supply(
    image: &[u8],
    head: &[u8],
    procs: &[u8],
    vars: &mut [u8],
    variable: u32,
    value: u32,
) -> u64
    ensures { SupplyTells small image.now (lent head.now procs.now vars.old) variable value result head.now procs.now vars.new }
{
    let a = machine::supply(image, head, procs, vars, variable, value);
    words::supply_word(a)
}

// The value of a goal variable.
pub fn rissobarm_value(image: &[u8], head: &[u8], procs: &[u8], vars: &[u8], variable: u32) -> u64
    ensures { ValueTells small image.now (lent head.now procs.now vars.now) variable result }
{
    let a = machine::value(image, head, procs, vars, variable);
    words::value_word(a)
}

// The values of all goal variables, a variable row each.
pub fn rissobarm_values(image: &[u8], head: &[u8], procs: &[u8], vars: &[u8], row: &mut [u8]) -> u64
    ensures { ValuesTells small image.now (lent head.now procs.now vars.now) row.old result row.new }
{
    let a = values::values(image, head, procs, vars, row);
    words::values_word(a)
}

// The lowest number of a suspended process, in any row of processes.
pub fn rissobarm_watch(procs: &[u8]) -> u64
    ensures { WatchTells procs.now result }
{
    let a = watch_rows::watch_rows(procs);
    words::watch_word(a)
}

// ---- the variables bound, told in a row more

// Makes the step of one process, and tells the variables that it bound.
pub fn rissobarm_step_bound(
    image: &[u8],
    head: &mut [u8],
    procs: &mut [u8],
    vars: &mut [u8],
    bound: &mut [u8],
    process: u32,
) -> u64
    ensures { StepBoundTells small image.now (lent head.old procs.old vars.old) bound.old process result head.new procs.new vars.new bound.new }
{
    let a = bound_calls::step_bound(image, head, procs, vars, bound, process);
    words::step_word(a)
}

// Makes the turn, and tells the variables that it bound.
pub fn rissobarm_turn_bound(
    image: &[u8],
    head: &mut [u8],
    procs: &mut [u8],
    vars: &mut [u8],
    bound: &mut [u8],
) -> u64
    ensures { TurnBoundTells small image.now (lent head.old procs.old vars.old) bound.old result head.new procs.new vars.new bound.new }
{
    let a = bound_calls::turn_bound(image, head, procs, vars, bound);
    words::step_word(a)
}

// Makes the supply, and tells the variable that takes the binding.
pub fn rissobarm_supply_bound(
    image: &[u8],
    head: &[u8],
    procs: &[u8],
    vars: &mut [u8],
    bound: &mut [u8],
    variable: u32,
    value: u32,
) -> u64
    ensures { SupplyBoundTells small image.now (lent head.now procs.now vars.old) bound.old variable value result head.now procs.now vars.new bound.new }
{
    let a = bound::supply_bound(image, head, procs, vars, bound, variable, value);
    words::supply_word(a)
}

// ---- the moves recorded, in a row more

// Makes the step of one process, and records it.
pub fn rissobarm_step_traced(
    image: &[u8],
    head: &mut [u8],
    procs: &mut [u8],
    vars: &mut [u8],
    trace: &mut [u8],
    process: u32,
    stamp: u16,
) -> u64
    ensures { StepTracedTells small image.now (lent head.old procs.old vars.old) trace.old process stamp result head.new procs.new vars.new trace.new }
{
    let a = traced::step_traced(image, head, procs, vars, trace, process, stamp);
    words::step_word(a)
}

// Makes the supply, and records it.
pub fn rissobarm_supply_traced(
    image: &[u8],
    head: &[u8],
    procs: &[u8],
    vars: &mut [u8],
    trace: &mut [u8],
    variable: u32,
    value: u32,
    stamp: u16,
) -> u64
    ensures { SupplyTracedTells small image.now (lent head.now procs.now vars.old) trace.old variable value stamp result head.now procs.now vars.new trace.new }
{
    let a = traced::supply_traced(image, head, procs, vars, trace, variable, value, stamp);
    words::supply_word(a)
}

// Makes turns, and records each.
pub fn rissobarm_run_traced(
    image: &[u8],
    head: &mut [u8],
    procs: &mut [u8],
    vars: &mut [u8],
    trace: &mut [u8],
    limit: u16,
    stamp: u16,
) -> u64
    ensures { RunTracedTells small image.now (lent head.old procs.old vars.old) trace.old limit stamp result head.new procs.new vars.new trace.new }
{
    let a = run_traced::run_traced(image, head, procs, vars, trace, limit, stamp);
    words::run_word(a)
}

// ---- a run saved, and gone on with

// Writes a run to the front of a row, as a saved run.
pub fn rissobarm_save(image: &[u8], head: &[u8], procs: &[u8], vars: &[u8], saved: &mut [u8]) -> u64
    ensures { SaveTells small image.now (lent head.now procs.now vars.now) saved.old result saved.new }
{
    let a = resume::save(image, head, procs, vars, saved);
    words::save_word(a)
}

// Reads a saved run back into tables.
pub fn rissobarm_resume(
    image: &[u8],
    head: &mut [u8],
    procs: &mut [u8],
    vars: &mut [u8],
    saved: &[u8],
) -> u64
    ensures { ResumeTells small image.now (lent head.old procs.old vars.old) saved.now result head.new procs.new vars.new }
{
    let a = resume::resume(image, head, procs, vars, saved);
    words::resume_word(a)
}

// ---- a trace played again

// Plays the records of a trace, as long as they agree.
pub fn rissobarm_replay(
    image: &[u8],
    head: &mut [u8],
    procs: &mut [u8],
    vars: &mut [u8],
    trace: &[u8],
) -> u64
    ensures { ReplayTells small image.now (lent head.old procs.old vars.old) trace.now result head.new procs.new vars.new }
{
    let a = replay::replay(image, head, procs, vars, trace);
    replay::replay_word(a)
}

// ---- clause text

// Writes the text of an image to the front of a row, with the names of a list.
pub fn rissobarm_print(image: &[u8], names: &[u8], text: &mut [u8]) -> u64
    ensures { PrintTells image.now names.now text.old result text.new }
{
    let a = print::print(image, names, text);
    text_words::print_word(a)
}

// Makes an image and its list of names out of a text, each at the front of its row.
pub fn rissobarm_parse(image: &mut [u8], names: &mut [u8], text: &[u8]) -> u64
    ensures { ParseTells image.old names.old text.now result image.new names.new }
{
    let a = parse::parse(image, names, text);
    text_words::parse_word(a)
}
