// Names of a text by their numbers: relations by mode line, variables by a table of the places where they first stand.
// Kept: a text and a place in it, which is at most its end, come as two (`find`, `is_mode`, `is_mode_line`, `marks`, `modes`, `mode_line`, `mode_lines`, `relation`). A struct of both is no plainer, as crate `read_goal` says: what is found is a place or a `Span`, and `find` and `relation` have two places in one text.
#![tactic(auto)]

ghost use Rattle.std.specs.Prelude.{true, ◌≡◌, ◌≤◌, leb, drop, length};
ghost use Rattle.read_goal.specs.Spans.{Spans};
ghost use Rattle.read_names.specs.Tables.{Finds, modes_from, names_at};
ghost use Rattle.text_names.specs.Bytes.{front};
ghost use Rattle.text_names.specs.Names.{FoundAt, same_name};
ghost use Rattle.text_program.specs.Source.{is_mode_line, lines, mode_word, read_brackets, read_mode, read_mode_line, row};

use parlog::codes;
use read_goal::Span;

// A relation: its number, and how many modes its line has, if there is one. A name that has no line has the number that a line behind all would have.
#[derive(Clone, Copy)]
pub struct Entry {
    pub number: usize,
    pub arity: Option<usize>,
}

// ---- tables of places

// A place in a text, or its end.
pub fn within(s: &[u8], q: usize) -> usize
    ensures { (drop result s.now ≡ drop q s.now) × (result ≤ length s.now) }
{
    q.min(s.len())
}

// The number of the name at q among those at the places of a table.
pub fn find(s: &[u8], table: &[usize], q: usize) -> Option<usize>
    requires { q ≤ length s.now }
    ensures { FoundAt (names_at s.now table.now) (front (drop q s.now)) result }
{
    table
        .iter()
        .position(|p| text_names::same_name(s, within(s, *p), q))
}

// ---- mode lines

// The word that a mode line begins with.
const MODE: [u8; 4] = *b"mode";

// The name at a place is `mode`.
fn is_mode(s: &[u8], at: usize) -> bool
    requires { at ≤ length s.now }
    ensures { result ≡ same_name (front (drop at s.now)) mode_word }
{
    let end = text_names::name_end(s, at);
    s[at..end] == MODE[..]
}

// A mode line begins at a place.
pub fn is_mode_line(s: &[u8], at: usize) -> bool
    requires { at ≤ length s.now }
    ensures { result ≡ is_mode_line (drop at s.now) }
{
    let word = is_mode(s, at);
    let behind = read_goal::past_name(s, at);
    word & text_names::is_small(place::byte_at(s, behind))
}

// Modes with a comma between them.
// Kept beside `read_goal::names`, as is said there.
fn marks(s: &[u8], at: usize) -> Span
    requires { at ≤ length s.now }
    ensures { Spans s.now (row read_mode 44 (drop at s.now)).rest (length (row read_mode 44 (drop at s.now)).value) true result }
{
    let mut q = at;
    let most = s.len() - at;
    for n in 0..most {
        q = text_names::after_mark(s, q);
        if place::byte_at(s, q) != read_goal::COMMA {
            return Span {
                end: q,
                count: n + 1,
                right: true,
            };
        }
        q = text_names::after_mark(s, q);
    }
    Span {
        end: q,
        count: most,
        right: true,
    }
}

// Modes in brackets, or no brackets.
// Kept beside `read_goal::terms`, as is said there.
fn modes(s: &[u8], at: usize) -> Span
    requires { at ≤ length s.now }
    ensures { Spans s.now (read_brackets read_mode (drop at s.now)).rest (length (read_brackets read_mode (drop at s.now)).value) true result }
{
    if place::byte_at(s, at) != read_goal::OPEN {
        return Span {
            end: at,
            count: 0,
            right: true,
        };
    }
    let from = text_names::after_mark(s, at);
    let inner = marks(s, from);
    let close = inner.end;
    Span {
        end: text_names::after_mark(s, close),
        count: inner.count,
        right: true,
    }
}

// A mode line: its items are its modes, of which an image may have four.
pub fn mode_line(s: &[u8], at: usize) -> Span
    requires { at ≤ length s.now }
    ensures { Spans s.now (read_mode_line (drop at s.now)).rest (length (read_mode_line (drop at s.now)).value.modes) (leb (length (read_mode_line (drop at s.now)).value.modes) 4) result }
{
    let name = read_goal::past_name(s, at);
    let open = read_goal::past_name(s, name);
    let inner = modes(s, open);
    let close = inner.end;
    Span {
        end: text_names::after_mark(s, close),
        count: inner.count,
        right: inner.count <= codes::MOST_ARITY,
    }
}

// All mode lines.
pub fn mode_lines(s: &[u8], at: usize) -> Span
    requires { at ≤ length s.now }
    ensures { Spans s.now (lines is_mode_line read_mode_line (drop at s.now)).rest (length (modes_from s.now at)) true result }
{
    let mut p = at;
    let most = s.len() - at;
    for n in 0..most {
        if !is_mode_line(s, p) {
            return Span {
                end: p,
                count: n,
                right: true,
            };
        }
        let line = mode_line(s, p);
        p = line.end;
    }
    Span {
        end: p,
        count: most,
        right: true,
    }
}

// The relation of the name at q, by the mode lines from a place on.
// Kept: a walk over the lines, for more names than a table has room for; a map would need a heap, and the project has none.
pub fn relation(s: &[u8], from: usize, q: usize) -> Entry
    requires { (from ≤ length s.now) × (q ≤ length s.now) }
    ensures { Finds (modes_from s.now from) (front (drop q s.now)) result }
{
    let mut p = from;
    let most = s.len() - from;
    for n in 0..most {
        if !is_mode_line(s, p) {
            return Entry {
                number: n,
                arity: None,
            };
        }
        let name = read_goal::past_name(s, p);
        let line = mode_line(s, p);
        if text_names::same_name(s, name, q) {
            return Entry {
                number: n,
                arity: Some(line.count),
            };
        }
        p = line.end;
    }
    Entry {
        number: most,
        arity: None,
    }
}
