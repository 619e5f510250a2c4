// What the children of a process report, heard one by one from the last row down.
#![tactic(auto)]

ghost use Rattle.rows.specs.Views.{processes_in};
ghost use Rattle.std.specs.Prelude.{◌≡◌, false, ◌≤◌, suc, ℕ, None};
ghost use Rattle.parlog.specs.Tables.{at};
ghost use Rattle.parlog.specs.Tree.{is_child};
ghost use Rattle.children.specs.declared.News.TheVariants.{Silent};
ghost use Rattle.children.specs.Notes.{hear, heard_by, heard_in, news_in, none_silent, note_of, Noted, some_bad, some_good};
ghost use Rattle.children.specs.Telling.{heard_of, Tells};

use parlog::codes;
use rows::Processes;

// ---- what was said, in bits: one reports nothing, one success, one failure, and the latest reports
// Kept: bits, no enum. To hear a child is one store, and one note has what all of them said.

pub const SILENT: u8 = 1;

pub const GOOD: u8 = 2;

pub const BAD: u8 = 4;

pub const LATEST: u8 = 8;

// What one child says: nothing is SILENT.
pub const SUCCEEDED: u8 = LATEST + GOOD;

pub const FAILED: u8 = LATEST + BAD;

// What is heard of a child that is not the latest.
const EARLIER: u8 = SILENT + GOOD + BAD;

// ---- what is told

// What the latest child has reported, and its number.
#[derive(Clone, Copy)]
pub enum News {
    Silent,
    Good(usize),
    Bad(usize),
}

// What all of them have: one failure, all success, all failure, the lowest that succeeded, the latest.
#[derive(Clone, Copy)]
pub struct Told {
    pub failed: bool,
    pub succeeded: bool,
    pub hopeless: bool,
    pub lowest: Option<usize>,
    pub latest: News,
}

// What is noted of those heard so far: what they said, the latest of them, the lowest that succeeded.
#[derive(Clone, Copy)]
pub struct Note {
    pub said: u8,
    pub latest: u16,
    pub lowest: u16,
}

// What is handed on for a process that does not ask.
// Kept, no `Default`: `News` would need one too, in which the case for nothing has to be named all the same.
pub fn nothing() -> Told
    ensures { (result.failed ≡ false) × (result.succeeded ≡ false) × (result.hopeless ≡ false) × (result.lowest ≡ None) × (result.latest ≡ Silent) }
{
    Told {
        failed: false,
        succeeded: false,
        hopeless: false,
        lowest: None,
        latest: News::Silent,
    }
}

// ---- one child more

// What process i tells its parent.
pub fn note_of(procs: &Processes, i: usize) -> u8
    ensures { result ≡ note_of (at (processes_in procs.now) i) }
{
    if procs.mode_at(i) == codes::REPORTING {
        let told = procs.result_at(i);
        if told == codes::SUCCESS {
            return SUCCEEDED;
        }
        if told == codes::FAILURE {
            return FAILED;
        }
    }
    SILENT
}

// What was said, and f.
pub fn with(s: u8, f: u8) -> u8
    ensures { result ≡ hear s f }
{
    if s == 0 {
        return f;
    }
    s | (f & EARLIER)
}

// Process q, lower than those heard before, tells f.
fn hear(x: Note, f: u8, q: u16) -> Note
    ensures { result ≡ heard_by x f q }
{
    Note {
        said: with(x.said, f),
        latest: if x.said == 0 && f != SILENT {
            q
        } else {
            x.latest
        },
        lowest: if f == SUCCEEDED { q } else { x.lowest },
    }
}

// ---- what a note says

// Kept, a function for each: a line that is called has no shorter form, and each says another thing of the note.
pub fn some_bad(s: u8) -> bool
    ensures { result ≡ some_bad s }
{
    s / BAD % 2 == 1
}

pub fn some_good(s: u8) -> bool
    ensures { result ≡ some_good s }
{
    s / GOOD % 2 == 1
}

pub fn none_silent(s: u8) -> bool
    ensures { result ≡ none_silent s }
{
    s % 2 == 0
}

// What process c has reported.
fn heard_from(procs: &Processes, c: usize) -> News
    ensures { heard_of result ≡ heard_in (at (processes_in procs.now) c) c }
{
    let f = note_of(procs, c);
    if f == SUCCEEDED {
        return News::Good(c);
    }
    if f == FAILED {
        return News::Bad(c);
    }
    News::Silent
}

// What the latest has reported.
fn heard(procs: &Processes, x: Note) -> News
    ensures { heard_of result ≡ news_in (processes_in procs.now) x }
{
    if x.said / LATEST % 2 == 1 {
        return heard_from(procs, usize::from(x.latest));
    }
    News::Silent
}

// What the note tells once every row was heard.
pub fn told_by(procs: &Processes, x: Note) -> Told
    ensures { (p : ℕ) → Noted (processes_in procs.now) p 0 x → Tells (processes_in procs.now) p result }
{
    let failed = some_bad(x.said);
    let good = some_good(x.said);
    let spoke = none_silent(x.said);
    Told {
        failed,
        succeeded: !failed && spoke,
        hopeless: !good && spoke,
        lowest: good.then_some(usize::from(x.lowest)),
        latest: heard(procs, x),
    }
}

// ---- one process's children

// Process i counts as a child of p, also where it is dormant.
fn is_child(procs: &Processes, p: usize, i: usize) -> bool
    ensures { result ≡ is_child (processes_in procs.now) p i }
{
    if i == 0 {
        return false;
    }
    usize::from(procs.parent_at(i)) == p
}

// Row q is heard if it is a child of p.
fn listen(procs: &Processes, p: usize, q: usize, x: Note) -> Note
    requires { (q ≤ 65535) × Noted (processes_in procs.now) p (suc q) x }
    ensures { Noted (processes_in procs.now) p q result }
{
    if !is_child(procs, p, q) {
        return x;
    }
    let f = note_of(procs, q);
    hear(x, f, q as u16)
}

// What the children of p report: one pass over the rows.
pub fn asked(procs: &Processes, p: usize) -> Told
    requires { procs.now.count ≤ 65535 }
    ensures { Tells (processes_in procs.now) p result }
{
    let mut x = Note {
        said: 0,
        latest: 0,
        lowest: 0,
    };
    for q in (0..procs.count).rev() {
        x = listen(procs, p, q, x);
    }
    told_by(procs, x)
}
