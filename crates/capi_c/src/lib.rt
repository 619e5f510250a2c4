// The archive: each call of crate capi under its C name, with the same clauses.
#![tactic(auto)]

ghost use Rattle.capi.specs.Tells.{LoadTells, ParseTells, PrintTells, ReplayTells, ResumeTells, RunTells, RunTracedTells, SaveTells, StartTells, StepBoundTells, StepTells, StepTracedTells, SupplyBoundTells, SupplyTells, SupplyTracedTells, TurnBoundTells, TurnTells, ValuesTells, ValueTells, WatchTells};
ghost use Rattle.parlog.specs.Limits.{small};
ghost use Rattle.parlog.specs.Tables.{lent};

// Tests an image: its relation and clause counts, or the first refusal.
#[unsafe(no_mangle)]
pub extern "C" fn rissobarm_load(image: &[u8]) -> u64
    ensures { LoadTells image.now result }
{
    capi::rissobarm_load(image)
}

// Writes the tables of a run that has not moved yet.
#[unsafe(no_mangle)]
pub extern "C" fn rissobarm_start(
    image: &[u8],
    head: &mut [u8],
    procs: &mut [u8],
    vars: &mut [u8],
) -> u64
    ensures { StartTells small image.now (lent head.old procs.old vars.old) result head.new procs.new vars.new }
{
    capi::rissobarm_start(image, head, procs, vars)
}

// Makes the step of one process.
#[unsafe(no_mangle)]
pub extern "C" fn rissobarm_step(
    image: &[u8],
    head: &mut [u8],
    procs: &mut [u8],
    vars: &mut [u8],
    process: u32,
) -> u64
    ensures { StepTells small image.now (lent head.old procs.old vars.old) process result head.new procs.new vars.new }
{
    capi::rissobarm_step(image, head, procs, vars, process)
}

// Makes the step of the first process that can move after the one stepped last.
#[unsafe(no_mangle)]
pub extern "C" fn rissobarm_turn(
    image: &[u8],
    head: &mut [u8],
    procs: &mut [u8],
    vars: &mut [u8],
) -> u64
    ensures { TurnTells small image.now (lent head.old procs.old vars.old) result head.new procs.new vars.new }
{
    capi::rissobarm_turn(image, head, procs, vars)
}

// Makes turns until the goal has ended, nothing can move, the limit is used up or a step has no room.
#[unsafe(no_mangle)]
pub extern "C" fn rissobarm_run(
    image: &[u8],
    head: &mut [u8],
    procs: &mut [u8],
    vars: &mut [u8],
    limit: u16,
) -> u64
    ensures { RunTells small image.now (lent head.old procs.old vars.old) limit result head.new procs.new vars.new }
{
    capi::rissobarm_run(image, head, procs, vars, limit)
}

// Binds the value of a goal variable to a constant.
#[unsafe(no_mangle)]
pub extern "C" fn rissobarm_supply(
    image: &[u8],
    head: &[u8],
    procs: &[u8],
    vars: &mut [u8],
    variable: u32,
    value: u32,
) -> u64
    ensures { SupplyTells small image.now (lent head.now procs.now vars.old) variable value result head.now procs.now vars.new }
{
    capi::rissobarm_supply(image, head, procs, vars, variable, value)
}

// The value of a goal variable.
#[unsafe(no_mangle)]
pub extern "C" fn rissobarm_value(
    image: &[u8],
    head: &[u8],
    procs: &[u8],
    vars: &[u8],
    variable: u32,
) -> u64
    ensures { ValueTells small image.now (lent head.now procs.now vars.now) variable result }
{
    capi::rissobarm_value(image, head, procs, vars, variable)
}

// The values of all goal variables, a variable row each.
#[unsafe(no_mangle)]
pub extern "C" fn rissobarm_values(
    image: &[u8],
    head: &[u8],
    procs: &[u8],
    vars: &[u8],
    row: &mut [u8],
) -> u64
    ensures { ValuesTells small image.now (lent head.now procs.now vars.now) row.old result row.new }
{
    capi::rissobarm_values(image, head, procs, vars, row)
}

// The lowest number of a suspended process, in any row of processes.
#[unsafe(no_mangle)]
pub extern "C" fn rissobarm_watch(procs: &[u8]) -> u64
    ensures { WatchTells procs.now result }
{
    capi::rissobarm_watch(procs)
}

// Makes the step of one process, and tells the variables that it bound.
#[unsafe(no_mangle)]
pub extern "C" fn rissobarm_step_bound(
    image: &[u8],
    head: &mut [u8],
    procs: &mut [u8],
    vars: &mut [u8],
    bound: &mut [u8],
    process: u32,
) -> u64
    ensures { StepBoundTells small image.now (lent head.old procs.old vars.old) bound.old process result head.new procs.new vars.new bound.new }
{
    capi::rissobarm_step_bound(image, head, procs, vars, bound, process)
}

// Makes the turn, and tells the variables that it bound.
#[unsafe(no_mangle)]
pub extern "C" fn rissobarm_turn_bound(
    image: &[u8],
    head: &mut [u8],
    procs: &mut [u8],
    vars: &mut [u8],
    bound: &mut [u8],
) -> u64
    ensures { TurnBoundTells small image.now (lent head.old procs.old vars.old) bound.old result head.new procs.new vars.new bound.new }
{
    capi::rissobarm_turn_bound(image, head, procs, vars, bound)
}

// Makes the supply, and tells the variable that takes the binding.
#[unsafe(no_mangle)]
pub extern "C" fn rissobarm_supply_bound(
    image: &[u8],
    head: &[u8],
    procs: &[u8],
    vars: &mut [u8],
    bound: &mut [u8],
    variable: u32,
    value: u32,
) -> u64
    ensures { SupplyBoundTells small image.now (lent head.now procs.now vars.old) bound.old variable value result head.now procs.now vars.new bound.new }
{
    capi::rissobarm_supply_bound(image, head, procs, vars, bound, variable, value)
}

// Makes the step of one process, and records it.
#[unsafe(no_mangle)]
pub extern "C" fn rissobarm_step_traced(
    image: &[u8],
    head: &mut [u8],
    procs: &mut [u8],
    vars: &mut [u8],
    trace: &mut [u8],
    process: u32,
    stamp: u16,
) -> u64
    ensures { StepTracedTells small image.now (lent head.old procs.old vars.old) trace.old process stamp result head.new procs.new vars.new trace.new }
{
    capi::rissobarm_step_traced(image, head, procs, vars, trace, process, stamp)
}

// Makes the supply, and records it.
#[unsafe(no_mangle)]
pub extern "C" fn rissobarm_supply_traced(
    image: &[u8],
    head: &[u8],
    procs: &[u8],
    vars: &mut [u8],
    trace: &mut [u8],
    variable: u32,
    value: u32,
    stamp: u16,
) -> u64
    ensures { SupplyTracedTells small image.now (lent head.now procs.now vars.old) trace.old variable value stamp result head.now procs.now vars.new trace.new }
{
    capi::rissobarm_supply_traced(image, head, procs, vars, trace, variable, value, stamp)
}

// Makes turns, and records each.
#[unsafe(no_mangle)]
pub extern "C" fn rissobarm_run_traced(
    image: &[u8],
    head: &mut [u8],
    procs: &mut [u8],
    vars: &mut [u8],
    trace: &mut [u8],
    limit: u16,
    stamp: u16,
) -> u64
    ensures { RunTracedTells small image.now (lent head.old procs.old vars.old) trace.old limit stamp result head.new procs.new vars.new trace.new }
{
    capi::rissobarm_run_traced(image, head, procs, vars, trace, limit, stamp)
}

// Writes a run to the front of a row, as a saved run.
#[unsafe(no_mangle)]
pub extern "C" fn rissobarm_save(
    image: &[u8],
    head: &[u8],
    procs: &[u8],
    vars: &[u8],
    saved: &mut [u8],
) -> u64
    ensures { SaveTells small image.now (lent head.now procs.now vars.now) saved.old result saved.new }
{
    capi::rissobarm_save(image, head, procs, vars, saved)
}

// Reads a saved run back into tables.
#[unsafe(no_mangle)]
pub extern "C" fn rissobarm_resume(
    image: &[u8],
    head: &mut [u8],
    procs: &mut [u8],
    vars: &mut [u8],
    saved: &[u8],
) -> u64
    ensures { ResumeTells small image.now (lent head.old procs.old vars.old) saved.now result head.new procs.new vars.new }
{
    capi::rissobarm_resume(image, head, procs, vars, saved)
}

// Plays the records of a trace, as long as they agree.
#[unsafe(no_mangle)]
pub extern "C" fn rissobarm_replay(
    image: &[u8],
    head: &mut [u8],
    procs: &mut [u8],
    vars: &mut [u8],
    trace: &[u8],
) -> u64
    ensures { ReplayTells small image.now (lent head.old procs.old vars.old) trace.now result head.new procs.new vars.new }
{
    capi::rissobarm_replay(image, head, procs, vars, trace)
}

// Writes the text of an image to the front of a row, with the names of a list.
#[unsafe(no_mangle)]
pub extern "C" fn rissobarm_print(image: &[u8], names: &[u8], text: &mut [u8]) -> u64
    ensures { PrintTells image.now names.now text.old result text.new }
{
    capi::rissobarm_print(image, names, text)
}

// Makes an image and its list of names out of a text, each at the front of its row.
#[unsafe(no_mangle)]
pub extern "C" fn rissobarm_parse(image: &mut [u8], names: &mut [u8], text: &[u8]) -> u64
    ensures { ParseTells image.old names.old text.now result image.new names.new }
{
    capi::rissobarm_parse(image, names, text)
}
