// The table rules of one row, on its numbers alone.
#![tactic(auto)]

ghost use Rattle.std.specs.Prelude.{◌≡◌, ◌&&◌, ◌||◌, not, eqb, leb, ltb, take};
ghost use Rattle.parlog.specs.Codes.{dormant, is_mode, is_result, none, reporting, suspended, tag_of};
ghost use Rattle.parlog.specs.Scan.{implies};
ghost use Rattle.parlog.specs.TableRules.{all_below, binding_ok, makes_tag};
ghost use Rattle.parlog.specs.Tables.{binding_by};

use parlog::codes;

// How many tags, modes, results and kinds of goals there are.
const TAGS: u8 = codes::EQUATE + 1;

const MODES: u8 = codes::SUSPENDED + 1;

const RESULTS: u8 = codes::FAILURE + 1;

const KINDS: u8 = codes::AS_WRITTEN + 1;

const MOST_CONSTANT: usize = codes::MOST_CONSTANT as usize;

// Where the first holds, the second does.
pub fn implies(a: bool, b: bool) -> bool
    ensures { result ≡ implies a b }
{
    !a | b
}

// ---- a process

// Every number stands for something.
pub fn known(tag: u8, mode: u8, res: u8, kind: u8) -> bool
    ensures { result ≡ (ltb tag 9 && (ltb mode 6 && (ltb res 3 && ltb kind 4))) }
{
    (tag < TAGS) & ((mode < MODES) & ((res < RESULTS) & (kind < KINDS)))
}

// Who reports has something to tell, and so has the goal's process once it sleeps.
pub fn result_ok(i: usize, mode: u8, res: u8) -> bool
    ensures { result ≡ implies (is_mode reporting mode || (eqb i 0 && is_mode dormant mode)) (not (is_result none res)) }
{
    implies(
        (mode == codes::REPORTING) | ((i == 0) & (mode == codes::DORMANT)),
        !(res == codes::NONE),
    )
}

// The rules of a process with tag `up` make one with tag t.
pub fn makes(up: u8, t: u8) -> bool
    ensures { result ≡ makes_tag (tag_of up) (tag_of t) }
{
    let literal = (t == codes::OR_PAR) | (codes::GUARD_EVAL < t);
    let goal = (t < codes::SEQ_SEARCH) | (codes::GUARD_EVAL < t);
    match up {
        codes::AND_PAR => (t == codes::AND_SEQ) | literal,
        codes::AND_SEQ => literal | (t == codes::AND_PAR),
        codes::OR_PAR => (t == codes::SEQ_SEARCH) | goal,
        codes::SEQ_SEARCH => t == codes::OR_SEARCH,
        codes::OR_SEARCH => t == codes::TRY_CLAUSE,
        codes::TRY_CLAUSE => (t == codes::INPUT_MATCH) | (t == codes::GUARD_EVAL),
        codes::GUARD_EVAL => goal,
        _ => false,
    }
}

// Note k, where it counts, is a variable.
fn note_ok(k: u8, count: u8, v: u16, n: usize) -> bool
    ensures { result ≡ implies (ltb k count) (ltb v n) }
{
    implies(k < count, (v as usize) < n)
}

// The notes of a suspended process: at most four, all of them variables.
// Kept, an array and a count: they come from a row, in which the count may be over four. That it is not is what is tested.
pub fn notes_ok(n: usize, mode: u8, count: u8, notes: [u16; codes::MOST_NOTES as usize]) -> bool
    ensures { result ≡ implies (is_mode suspended mode) (leb count 4 && all_below n (take count notes)) }
{
    let a = note_ok(0, count, notes[0], n);
    let b = note_ok(1, count, notes[1], n);
    let c = note_ok(2, count, notes[2], n);
    let d = note_ok(3, count, notes[3], n);
    implies(
        mode == codes::SUSPENDED,
        (count <= codes::MOST_NOTES) & (a & (b & (c & d))),
    )
}

// ---- a variable

// Kept, the sort as a number: a row holds any byte, each has its meaning by `binding_by`, and all but three are refused (`cell_known`).
// The row of variable v: a sort that there is, no number where nothing is bound, and a binding that leads to a constant or downward.
pub fn cell_ok(v: usize, sort: u8, number: usize) -> bool
    ensures { result ≡ ((ltb sort 3 && implies (eqb sort 0) (eqb number 0)) && binding_ok v (binding_by sort number)) }
{
    match sort {
        codes::UNBOUND => number == 0,
        codes::CONSTANT => number <= MOST_CONSTANT,
        codes::VARIABLE => number < v,
        _ => false,
    }
}

// ---- the tables

// How many processes and variables there are, and the marker.
pub fn counts_ok(
    procs: usize,
    vars: usize,
    last: usize,
    goal: usize,
    most: usize,
    cap: usize,
) -> bool
    ensures { result ≡ ((leb 1 procs && (leb procs most && (leb vars cap && leb goal vars))) && ltb last procs) }
{
    ((1 <= procs) & ((procs <= most) & ((vars <= cap) & (goal <= vars)))) & (last < procs)
}
