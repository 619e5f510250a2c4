// What a move will do, decided before anything is written, and whether there is room for it.
#![tactic(auto)]

ghost use Rattle.std.specs.Prelude.{◌≡◌, [], ◌∷◌, ◌*◌, ◌≤◌};
ghost use Rattle.parlog.specs.Delta.{at_block, at_stage, block_spot, guard_spot, literal_spot, making, only, report, reporting_with, try_spot, with_clause, with_mode, with_notes, with_spot, woken};
ghost use Rattle.parlog.specs.Named.{kind_named, mode_named, result_named, tag_named};
ghost use Rattle.parlog.specs.Rules.{by_rule, no_rule};
ghost use Rattle.parlog.specs.Tables.{goal_spot, new_process, procs_of};
ghost use Rattle.unify.specs.Pending.{noted_in, pending};
ghost use Rattle.move_plan.specs.Plans.{applied_of, fits_in, new_most, touched};

use parlog::cases::{Kind, Mode, Outcome, Tag};
use parlog::{Move, Process, Spot, codes};
use unify::{Changes, Noted};

// How many new processes a plan has room for, and the bytes of their rows.
pub const NEW_MOST: usize = 12;

pub const NEW_SIZE: usize = NEW_MOST * codes::ROW_SIZE;

// The notes of a process that waits for no variable.
const NO_NOTES: [u16; codes::MOST_NOTES as usize] = [0; codes::MOST_NOTES as usize];

// The goal of the image, with nothing named in it.
// Kept, its kind by the code: a constant calls no method.
const THE_GOAL: Spot = Spot {
    kind: codes::THE_GOAL,
    clause: 0,
    base: 0,
    stage: 0,
    literal: 0,
    block: 0,
    found: 0,
    first: 0,
};

// What a move does, if one is made: the new processes wait as rows.
// Kept, the flag: rules that answer `Option<Plan>`, proved and measured, make a run of small steps 1.14 times as long, since a plan has some 400 bytes.
// Kept, the rows and their count: bytes, as `rows::append` writes them into the lent table, which has its count beside it too.
#[derive(Clone, Copy)]
pub struct Plan {
    pub acts: bool,
    pub mv: Move,
    pub me: Process,
    pub cut: bool,
    pub nap: Option<usize>,
    pub count: usize,
    pub rows: [u8; NEW_SIZE],
    pub changes: Changes,
    pub fresh: usize,
}

// ---- one process changed

#[tactic(auto, unfolding(parlog::specs::Delta::with_mode))]
pub fn with_mode(x: Process, mode: Mode) -> Process
    ensures { result ≡ with_mode (mode_named mode) x }
{
    Process {
        mode: mode.number(),
        ..x
    }
}

// Suspended, noting these.
pub fn with_notes(x: Process, s: Noted) -> Process
    ensures { result ≡ with_notes (noted_in s) x }
{
    let notes = s.notes;
    Process {
        mode: Mode::Suspended.number(),
        count: s.count,
        notes,
        ..x
    }
}

// Starting again, noting nothing.
#[tactic(auto, unfolding(parlog::specs::Delta::woken))]
pub fn woken(x: Process) -> Process
    ensures { result ≡ woken x }
{
    Process {
        mode: Mode::Starting.number(),
        count: 0,
        notes: NO_NOTES,
        ..x
    }
}

#[tactic(auto, unfolding(parlog::specs::Delta::with_spot))]
pub fn with_spot(x: Process, mode: Mode, z: Spot) -> Process
    ensures { result ≡ with_spot (mode_named mode) z x }
{
    Process {
        mode: mode.number(),
        spot: z,
        ..x
    }
}

// ---- places

#[tactic(auto, unfolding(parlog::specs::Delta::at_stage))]
pub fn at_stage(z: Spot, k: u8) -> Spot
    ensures { result ≡ at_stage k z }
{
    Spot { stage: k, ..z }
}

#[tactic(auto, unfolding(parlog::specs::Delta::at_block))]
pub fn at_block(z: Spot, k: u8) -> Spot
    ensures { result ≡ at_block k z }
{
    Spot { block: k, ..z }
}

#[tactic(auto, unfolding(parlog::specs::Delta::with_clause))]
pub fn with_clause(z: Spot, k: u8, v: u16) -> Spot
    ensures { result ≡ with_clause k v z }
{
    Spot {
        found: k,
        first: v,
        ..z
    }
}

// Literal j of the stage that z names.
#[tactic(auto, unfolding(parlog::specs::Delta::literal_spot))]
pub fn literal_spot(z: Spot, j: u8) -> Spot
    ensures { result ≡ literal_spot z j }
{
    Spot {
        literal: j,
        block: 0,
        found: 0,
        first: 0,
        ..z
    }
}

// A block for the call that z names.
#[tactic(auto, unfolding(parlog::specs::Delta::block_spot, parlog::specs::Delta::at_block, parlog::specs::Delta::call_spot, parlog::specs::Delta::literal_spot))]
pub fn block_spot(z: Spot, b: u8) -> Spot
    ensures { result ≡ block_spot z b }
{
    Spot {
        block: b,
        found: 0,
        first: 0,
        ..z
    }
}

// A clause for that call, with its first variable.
#[tactic(auto, unfolding(parlog::specs::Delta::try_spot, parlog::specs::Delta::with_clause, parlog::specs::Delta::call_spot, parlog::specs::Delta::literal_spot))]
pub fn try_spot(z: Spot, k: u8, v: u16) -> Spot
    ensures { result ≡ try_spot z k v }
{
    Spot {
        block: 0,
        found: k,
        first: v,
        ..z
    }
}

// The clause alone.
#[tactic(auto, unfolding(parlog::specs::Delta::guard_spot, parlog::specs::Delta::with_clause))]
pub fn guard_spot(k: u8, v: u16) -> Spot
    ensures { result ≡ guard_spot k v }
{
    Spot {
        found: k,
        first: v,
        ..THE_GOAL
    }
}

// A whole goal: the image's, or the guard or committed body of clause k.
pub fn goal_spot(kind: Kind, k: u8, base: u16) -> Spot
    ensures { result ≡ goal_spot (kind_named kind) k base }
{
    Spot {
        kind: kind.number(),
        clause: k,
        base,
        ..THE_GOAL
    }
}

// Kept, no `Default`: four of seven fields are given.
#[tactic(auto, unfolding(parlog::specs::Tables::new_process))]
pub fn new_process(tag: Tag, mode: Mode, parent: usize, z: Spot) -> Process
    requires { parent ≤ 65535 }
    ensures { result ≡ new_process (tag_named tag) (mode_named mode) parent z }
{
    Process {
        tag: tag.number(),
        mode: mode.number(),
        result: Outcome::Nothing.number(),
        count: 0,
        parent: parent as u16,
        spot: z,
        notes: NO_NOTES,
    }
}

// ---- plans

// Kept, each of the three plans names all its fields: one made from another by `..` would set its rows twice.

// No rule applies.
pub fn none() -> Plan
    ensures { (applied_of result ≡ no_rule) × (result.count ≤ new_most) × (result.changes.count ≡ 0) }
{
    let z = guard_spot(0, 0);
    let x = new_process(Tag::AndPar, Mode::Dormant, 0, z);
    Plan {
        acts: false,
        mv: Move::Ready(0),
        me: x,
        cut: false,
        nap: None,
        count: 0,
        rows: [0; NEW_SIZE],
        changes: Changes::none(),
        fresh: 0,
    }
}

// New processes, and a child that falls asleep.
pub fn make(
    mv: Move,
    x: Process,
    nap: Option<usize>,
    count: usize,
    rows: [u8; NEW_SIZE],
    fresh: usize,
) -> Plan
    requires { count ≤ new_most }
    ensures { (applied_of result ≡ by_rule mv (making x nap (procs_of rows count) fresh)) × (result.count ≤ new_most) × (result.changes.count ≡ 0) }
{
    Plan {
        acts: true,
        mv,
        me: x,
        cut: false,
        nap,
        count,
        rows,
        changes: Changes::none(),
        fresh,
    }
}

// One new process, and perhaps a child that falls asleep.
pub fn make_one(mv: Move, x: Process, nap: Option<usize>, y: Process) -> Plan
    ensures { (applied_of result ≡ by_rule mv (making x nap (y ∷ []) 0)) × (result.count ≤ new_most) × (result.changes.count ≡ 0) }
{
    let mut new = [0u8; NEW_SIZE];
    rows::append(&mut new, 0, y);
    make(mv, x, nap, 1, new, 0)
}

// The row that a move touches which makes k processes after n: the first of them, or the mover.
pub fn touched(n: usize, p: usize, k: usize) -> usize
    ensures { result ≡ touched n p k }
{
    if k == 0 { p } else { n }
}

// The mover alone changes.
pub fn only(mv: Move, x: Process) -> Plan
    ensures { (applied_of result ≡ by_rule mv (only x)) × (result.count ≤ new_most) × (result.changes.count ≡ 0) }
{
    make(mv, x, None, 0, [0; NEW_SIZE], 0)
}

// The mover reports, and binds these.
pub fn report_with(mv: Move, res: Outcome, x: Process, changes: Changes) -> Plan
    ensures { (applied_of result ≡ by_rule mv (reporting_with (result_named res) x (pending changes))) × (result.count ≤ new_most) × (result.changes ≡ changes) × (result.fresh ≡ 0) }
{
    Plan {
        acts: true,
        mv,
        me: Process {
            mode: Mode::Reporting.number(),
            result: res.number(),
            ..x
        },
        cut: true,
        nap: None,
        count: 0,
        rows: [0; NEW_SIZE],
        changes,
        fresh: 0,
    }
}

pub fn report(mv: Move, res: Outcome, x: Process) -> Plan
    ensures { (applied_of result ≡ by_rule mv (report (result_named res) x)) × (result.count ≤ new_most) × (result.changes.count ≡ 0) }
{
    report_with(mv, res, x, Changes::none())
}

// With these limits and counts there is room for so many new processes and variables.
pub fn fits(procs: usize, vars: usize, n: usize, m: usize, count: usize, fresh: usize) -> bool
    requires { (n ≤ procs) × (m ≤ vars) }
    ensures { result ≡ fits_in procs vars n m count fresh }
{
    count <= procs - n && fresh <= vars - m
}
