// Whose turn it is: one pass from the last row down, in which every process is asked whether it can move, and heard by its parent.
#![tactic(auto)]

ghost use Rattle.vars.specs.Views.{variables_in};
ghost use Rattle.rows.specs.Views.{processes_in};
ghost use Rattle.std.specs.Prelude.{◌≡◌, cond, ◌*◌, ◌≤◌, ◌<◌, suc, ℕ, ltb, Some};
ghost use Rattle.children.specs.Telling.{Tells};
ghost use Rattle.parlog.specs.Codes.{tag_of};
ghost use Rattle.parlog.specs.Program.{Program};
ghost use Rattle.parlog.specs.Run.{can_move, turn_of};
ghost use Rattle.parlog.specs.Tables.{at, noted};
ghost use Rattle.parlog.specs.Unify.{some_bound};
ghost use Rattle.move_plan.specs.Plans.{state_in};
ghost use Rattle.tree.specs.Family.{Falls};
ghost use Rattle.turn_search.specs.Notes.{AllNoted, AllSaid, asks_of, none_heard, note_in, said_in, tells, told};

use children::{Note, Told};
use parlog::codes;
use rows::Processes;
use vars::Variables;

// Whose turn it is, and what its children report.
// Kept, no `Option` of a pair: `run::WhoseSays` says of `who` alone that it follows from the tables, whatever the program.
#[derive(Clone, Copy)]
pub struct Turn {
    pub who: Option<usize>,
    pub told: Told,
}

// ---- what a waiting process asks for

// In the low half what is asked for, in the high half what of it must not be all that was said.
// Kept: numbers, no enum. One test serves all that may be asked for, `s & (k % HALF) != k / HALF`.
const HALF: u8 = 16;

// One failure, or that none is silent.
const FAILURE_OR_ALL: u8 = HALF * children::SILENT + children::SILENT + children::BAD;

// One success, or that none is silent.
const SUCCESS_OR_ALL: u8 = HALF * children::SILENT + children::SILENT + children::GOOD;

const NOTHING: u8 = 0;

// ---- who can move

// What a waiting process of this tag asks for: it can move unless exactly the high half of the low half was said.
fn asks(tag: u8) -> u8
    ensures { result ≡ asks_of (tag_of tag) }
{
    match tag {
        codes::AND_PAR => FAILURE_OR_ALL,
        codes::AND_SEQ => children::LATEST,
        codes::OR_PAR => children::LATEST,
        codes::SEQ_SEARCH => children::LATEST,
        codes::OR_SEARCH => SUCCESS_OR_ALL,
        codes::TRY_CLAUSE => FAILURE_OR_ALL,
        codes::GUARD_EVAL => children::LATEST,
        _ => NOTHING,
    }
}

// A waiting process of this tag can move by what its children said.
fn tells(tag: u8, s: u8) -> bool
    requires { s < 16 }
    ensures { result ≡ tells (tag_of tag) s }
{
    let k = asks(tag);
    s & (k % HALF) != k / HALF
}

// No row has more notes than there are places for.
fn few(count: u8) -> usize
    ensures { (result ≡ cond (ltb count 4) count 4) × (result ≤ 4) }
{
    usize::from(count.min(codes::MOST_NOTES))
}

// One of the variables that process p noted is bound.
fn wakes(procs: &Processes, vars: &Variables, p: usize) -> bool
    ensures { result ≡ some_bound (variables_in vars.now) (noted (at (processes_in procs.now) p)) }
{
    let count = few(procs.count_at(p));
    let notes = procs.notes_at(p);
    unify::some_bound(vars, &notes[..count])
}

// A rule applies to process p, once all its children were heard; s is what they said.
fn can_move(procs: &Processes, vars: &Variables, p: usize, s: u8) -> bool
    requires { AllSaid (processes_in procs.now) p s }
    ensures { (pr : Program) → result ≡ can_move pr (state_in procs.now.bytes.now procs.now.count vars.now.bytes.now vars.now.count) p }
{
    let mode = procs.mode_at(p);
    if mode == codes::DORMANT {
        return false;
    }
    if mode == codes::WAITING {
        let tag = procs.tag_at(p);
        return tells(tag, s);
    }
    if mode == codes::REPORTING {
        return p == 0;
    }
    if mode < codes::WAITING {
        return true;
    }
    wakes(procs, vars, p)
}

// ---- the notes of all

// What is noted for each of so many rows: whether one child is silent and what the others said, each in bits, the latest, the lowest that succeeded.
#[derive(Drop)]
struct Notes<const W: usize> {
    silent: [u8; W],
    said: [u8; W],
    latest: [u16; W],
    lowest: [u16; W],
}

impl<const W: usize> Notes<W> {
    // Nobody was heard.
    fn new() -> Notes<W>
        ensures { result ≡ none_heard W }
    {
        Notes {
            silent: [0; W],
            said: [0; W],
            latest: [0; W],
            lowest: [0; W],
        }
    }

    // What was said to process p.
    fn said_to(&self, p: usize) -> u8
        requires { p < W }
        ensures { result ≡ said_in self.now p }
    {
        self.silent[p] | self.said[p]
    }

    // What is noted for process p.
    fn note_of(&self, p: usize) -> Note
        requires { p < W }
        ensures { result ≡ note_in self.now p }
    {
        Note {
            said: self.said_to(p),
            latest: self.latest[p],
            lowest: self.lowest[p],
        }
    }

    // Process `up` hears q, which tells f.
    fn hear(&mut self, up: usize, f: u8, q: u16)
        requires { up < W }
        ensures { self.new ≡ told self.old up f q }
    {
        let s = self.said_to(up);
        self.said[up] = children::with(s, f);
        if s == 0 {
            self.latest[up] = q;
        }
        if f == children::SUCCEEDED {
            self.lowest[up] = q;
        }
    }

    // The parent of process q hears it; process 0 has none.
    fn hear_row(&mut self, procs: &Processes, q: usize)
        requires { (procs.now.count ≤ W) × (W ≤ 512) × (q < procs.now.count) × Falls (processes_in procs.now) × AllNoted (processes_in procs.now) procs.now.count (suc q) self.old }
        ensures { AllNoted (processes_in procs.now) procs.now.count q self.new }
    {
        let up = procs.parent_at(q) as usize;
        if up < q {
            let f = children::note_of(procs, q);
            if f == children::SILENT {
                self.silent[up] = children::SILENT;
            } else {
                self.hear(up, f, q as u16);
            }
        }
    }
}

// ---- whose turn it is

// Kept here and below: that there are notes enough (`W`) and that parents stand before their children ties the notes, or the last process stepped, to the table that is lent beside them.
// The next process behind the last that can move, else the lowest that can: one pass over the rows, in which each is heard by its parent.
fn pass<const W: usize>(
    procs: &Processes,
    vars: &Variables,
    last: usize,
    notes: &mut Notes<W>,
) -> Option<usize>
    requires { (procs.now.count ≤ W) × (W ≤ 512) × Falls (processes_in procs.now) × AllNoted (processes_in procs.now) procs.now.count procs.now.count notes.old }
    ensures { ((pr : Program) → result ≡ turn_of (can_move pr (state_in procs.now.bytes.now procs.now.count vars.now.bytes.now vars.now.count)) procs.now.count last) × AllNoted (processes_in procs.now) procs.now.count 0 notes.new }
{
    let mut behind = None;
    let mut round = None;
    for q in (0..procs.count).rev() {
        let s = notes.said_to(q);
        if can_move(procs, vars, q, s) {
            round = Some(q);
            if last < q {
                behind = round;
            }
        }
        notes.hear_row(procs, q);
    }
    behind.or(round)
}

// What the children of that process report.
fn told_of<const W: usize>(procs: &Processes, notes: &Notes<W>, who: Option<usize>) -> Told
    requires { (procs.now.count ≤ W) × AllNoted (processes_in procs.now) procs.now.count 0 notes.now × ((p : ℕ) → who ≡ Some p → p < procs.now.count) }
    ensures { (p : ℕ) → who ≡ Some p → Tells (processes_in procs.now) p result }
{
    let Some(p) = who else {
        return children::nothing();
    };
    children::told_by(procs, notes.note_of(p))
}

// Up to so many rows the notes take little room, which is soon set to zero.
const FEW: usize = 64;

// The same as `next`, for as many rows as the notes have room for.
fn next_in<const W: usize>(procs: &Processes, vars: &Variables, last: usize) -> Turn
    requires { (procs.now.count ≤ W) × (W ≤ 512) × Falls (processes_in procs.now) × (last < procs.now.count) }
    ensures { ((pr : Program) → result.who ≡ turn_of (can_move pr (state_in procs.now.bytes.now procs.now.count vars.now.bytes.now vars.now.count)) procs.now.count last) × ((p : ℕ) → result.who ≡ Some p → Tells (processes_in procs.now) p result.told) }
{
    let mut notes = Notes::<W>::new();
    let who = pass(procs, vars, last, &mut notes);
    let told = told_of(procs, &notes, who);
    Turn { who, told }
}

// The next process behind the last that can move, coming round to the last itself, and what its children report.
pub fn next(procs: &Processes, vars: &Variables, last: usize) -> Turn
    requires { (procs.now.count ≤ 512) × Falls (processes_in procs.now) × (last < procs.now.count) }
    ensures { ((pr : Program) → result.who ≡ turn_of (can_move pr (state_in procs.now.bytes.now procs.now.count vars.now.bytes.now vars.now.count)) procs.now.count last) × ((p : ℕ) → result.who ≡ Some p → Tells (processes_in procs.now) p result.told) }
{
    if procs.count <= FEW {
        return next_in::<FEW>(procs, vars, last);
    }
    next_in::<{ codes::MOST_PROCS }>(procs, vars, last)
}
