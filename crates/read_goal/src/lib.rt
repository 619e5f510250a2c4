// Terms, literals and goals where they stand in a text: the place behind them, how many there are, and whether an image may have so many.
// Kept: a text and a place in it, which is at most its end, come as two (`past_name` and all below it). A struct of both is no plainer: a `Span` tells a place, which callers keep among other numbers, and each call here would have to make that struct again from the place that the call before told.
#![tactic(auto)]

ghost use Rattle.std.specs.Prelude.{true, ◌≡◌, ◌-◌, ◌≤◌, drop, length};
ghost use Rattle.read_goal.specs.Spans.{goal_right, literal_right, Spans, stage_right, stages_right};
ghost use Rattle.text_names.specs.Bytes.{past};
ghost use Rattle.text_program.specs.Numbered.{said_terms};
ghost use Rattle.text_program.specs.Parsing.{all_of};
ghost use Rattle.text_program.specs.Source.{read_body, read_brackets, read_goal, read_literal, read_term, row};

use parlog::codes;

// Marks of a text.
pub const OPEN: usize = b'(' as usize;

pub const COMMA: usize = b',' as usize;

pub const AMPERSAND: usize = b'&' as usize;

pub const EQUALS: usize = b'=' as usize;

pub const DOT: usize = b'.' as usize;

pub const SEMICOLON: usize = b';' as usize;

// The mark that the goal line begins with, and that a clause has behind its head where there is a guard or a body.
pub const ARROW: usize = b'<' as usize;

// The mark behind a guard.
pub const COLON: usize = b':' as usize;

// Where something ends, how many items it has, and whether it is right.
#[derive(Clone, Copy)]
pub struct Span {
    pub end: usize,
    pub count: usize,
    pub right: bool,
}

// The place behind the name at a place and the blanks there.
pub fn past_name(s: &[u8], at: usize) -> usize
    requires { at ≤ length s.now }
    ensures { (drop result s.now ≡ past (drop at s.now)) × (result ≤ length s.now) }
{
    let end = text_names::name_end(s, at);
    text_names::skip_blanks(s, end)
}

// Names with a comma between them.
// Kept beside `read_names::marks`, which steps over modes: one loop for both would take that step as a closure, and promise what it reads for any reader whatever, which is no plainer than ten lines.
fn names(s: &[u8], at: usize) -> Span
    requires { at ≤ length s.now }
    ensures { Spans s.now (row read_term 44 (drop at s.now)).rest (length (row read_term 44 (drop at s.now)).value) true result }
{
    let mut q = at;
    let most = s.len() - at;
    for n in 0..most {
        q = past_name(s, q);
        if place::byte_at(s, q) != COMMA {
            return Span {
                end: q,
                count: n + 1,
                right: true,
            };
        }
        q = text_names::after_mark(s, q);
    }
    Span {
        end: q,
        count: most,
        right: true,
    }
}

// Terms in brackets, or no brackets.
// Kept beside `read_names::modes`, for the same reason as `names`.
pub fn terms(s: &[u8], at: usize) -> Span
    requires { at ≤ length s.now }
    ensures { Spans s.now (read_brackets read_term (drop at s.now)).rest (length (read_brackets read_term (drop at s.now)).value) true result }
{
    if place::byte_at(s, at) != OPEN {
        return Span {
            end: at,
            count: 0,
            right: true,
        };
    }
    let from = text_names::after_mark(s, at);
    let inner = names(s, from);
    let close = inner.end;
    Span {
        end: text_names::after_mark(s, close),
        count: inner.count,
        right: true,
    }
}

// A literal; its items are its terms.
fn literal(s: &[u8], at: usize) -> Span
    requires { at ≤ length s.now }
    ensures { Spans s.now (read_literal (drop at s.now)).rest (length (said_terms (read_literal (drop at s.now)).value)) (literal_right (read_literal (drop at s.now)).value) result }
{
    let behind = past_name(s, at);
    if place::byte_at(s, behind) == EQUALS {
        let from = text_names::after_mark(s, behind);
        return Span {
            end: past_name(s, from),
            count: codes::EQUALITY_ARITY,
            right: true,
        };
    }
    let t = terms(s, behind);
    Span {
        right: t.count <= codes::MOST_ARITY,
        ..t
    }
}

// Literals with a comma between them.
// Kept beside `names` and `stages`, since one loop for the three is no plainer: `names` carries nothing from item to item, this one whether all are right, and `stages` the room for literals too.
fn literals(s: &[u8], at: usize) -> Span
    requires { at ≤ length s.now }
    ensures { Spans s.now (row read_literal 44 (drop at s.now)).rest (length (row read_literal 44 (drop at s.now)).value) (all_of literal_right (row read_literal 44 (drop at s.now)).value) result }
{
    let mut q = at;
    let mut right = true;
    let most = s.len() - at;
    for n in 0..most {
        let item = literal(s, q);
        q = item.end;
        right &= item.right;
        if place::byte_at(s, q) != COMMA {
            return Span {
                end: q,
                count: n + 1,
                right,
            };
        }
        q = text_names::after_mark(s, q);
    }
    Span {
        end: q,
        count: most,
        right,
    }
}

// A stage: its literals, at least one.
#[tactic(auto, unfolding(crate::specs::Spans::stage_right))]
fn stage(s: &[u8], at: usize) -> Span
    requires { at ≤ length s.now }
    ensures { Spans s.now (row read_literal 44 (drop at s.now)).rest (length (row read_literal 44 (drop at s.now)).value) (stage_right (row read_literal 44 (drop at s.now)).value) result }
{
    let inner = literals(s, at);
    Span {
        right: (1 <= inner.count) & inner.right,
        ..inner
    }
}

// Stages with `&` between them, and all their literals counted.
fn stages(s: &[u8], at: usize) -> Span
    requires { at ≤ length s.now }
    ensures { Spans s.now (read_goal (drop at s.now)).rest (length (read_goal (drop at s.now)).value) (stages_right 8 (read_goal (drop at s.now)).value) result }
{
    let mut q = at;
    let mut right = true;
    let mut room = codes::MOST_LITERALS;
    let most = s.len() - at;
    for n in 0..most {
        let item = stage(s, q);
        q = item.end;
        right &= item.right & (item.count <= room);
        room = room.saturating_sub(item.count);
        if place::byte_at(s, q) != AMPERSAND {
            return Span {
                end: q,
                count: n + 1,
                right,
            };
        }
        q = text_names::after_mark(s, q);
    }
    Span {
        end: q,
        count: most,
        right,
    }
}

// A goal.
#[tactic(auto, unfolding(crate::specs::Spans::goal_right))]
pub fn goal(s: &[u8], at: usize) -> Span
    requires { at ≤ length s.now }
    ensures { Spans s.now (read_goal (drop at s.now)).rest (length (read_goal (drop at s.now)).value) (goal_right (read_goal (drop at s.now)).value) result }
{
    let inner = stages(s, at);
    Span {
        right: (inner.count <= codes::MOST_STAGES) & inner.right,
        ..inner
    }
}

// A goal, or nothing where the line ends.
pub fn body(s: &[u8], at: usize) -> Span
    requires { at ≤ length s.now }
    ensures { Spans s.now (read_body (drop at s.now)).rest (length (read_body (drop at s.now)).value) (goal_right (read_body (drop at s.now)).value) result }
{
    let mark = place::byte_at(s, at);
    if (mark == DOT) | (mark == SEMICOLON) {
        return Span {
            end: at,
            count: 0,
            right: true,
        };
    }
    goal(s, at)
}
