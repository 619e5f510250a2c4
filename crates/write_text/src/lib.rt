// The text of an image, line by line.
#![tactic(auto)]

ghost use Rattle.std.specs.Prelude.{true, [], ◌∷◌, ◌≡◌, ◌*◌, ◌+◌, ◌≤◌};
ghost use Rattle.lay_text.specs.Wrote.{Wrote};
ghost use Rattle.parlog.specs.Image.{byte_at, mode_end, record_at, record_end};
ghost use Rattle.parlog.specs.Program.{goal_of, modes_of, program_of};
ghost use Rattle.parlog.specs.Scan.{list_of};
ghost use Rattle.text_names.specs.Entries.{is_entry};
ghost use Rattle.text_program.specs.Parsing.{all_of};
ghost use Rattle.text_program.specs.Printing.{bracket_text, goal_line_text, goal_named, mode_lines_text, mode_line_text, mode_text, program_named, program_text, relations_named, row_text};
ghost use Rattle.write_text.specs.Modes.{any_mode};

use lay_text::Writer;
use parlog::codes;
use write_goal::Source;

// ---- mode lines

// The mark of a mode.
fn mode(w: &mut Writer, m: usize)
    ensures { Wrote w.old (mode_text m) (any_mode m) w.new }
{
    if m == 0 {
        w.put(b'?');
    } else {
        w.put(b'^');
    }
}

// n modes from a place on.
// Kept beside `write_goal::terms`, as is said there.
fn modes(w: &mut Writer, s: &[u8], from: usize, n: usize)
    requires { (from ≤ 1073741824) × (n ≤ 255) }
    ensures { Wrote w.old (row_text mode_text (44 ∷ []) (list_of (byte_at s.now) mode_end n from)) (all_of any_mode (list_of (byte_at s.now) mode_end n from)) w.new }
{
    for k in 0..n {
        write_goal::lead(w, k, b",");
        mode(w, place::byte_at(s, from + k));
    }
}

// The modes of the relation at a place, in brackets.
fn mode_marks(w: &mut Writer, s: &[u8], at: usize)
    requires { at ≤ 33554432 }
    ensures { Wrote w.old (bracket_text mode_text (modes_of s.now at)) true w.new }
{
    let n = place::byte_at(s, at + codes::RELATION_ARITY);
    if n == 0 {
        return;
    }
    w.put(b'(');
    modes(w, s, at + codes::RELATION_MODES, n);
    w.put(b')');
}

// The mode line of relation k, at a place.
fn mode_line(w: &mut Writer, s: &Source, k: usize, at: usize)
    requires { at ≤ 33554432 }
    ensures { Wrote w.old (mode_line_text s.now.relations s.now.names.row.now k (modes_of s.now.image.now at)) (is_entry s.now.names.row.now k) w.new }
{
    w.word(b"mode ");
    w.name(&s.names, k);
    mode_marks(w, s.image, at);
    w.word(b".\n");
}

// The mode lines of all relations.
fn mode_lines(w: &mut Writer, s: &Source)
    ensures { Wrote w.old (mode_lines_text s.now.relations s.now.names.row.now 0 (list_of (modes_of s.now.image.now) (record_end s.now.image.now) s.now.relations 0)) (relations_named s.now.relations s.now.names.row.now 0 (list_of (modes_of s.now.image.now) (record_end s.now.image.now) s.now.relations 0)) w.new }
{
    let mut at = 0;
    for k in 0..s.relations {
        mode_line(w, s, k, at);
        at = at + place::word_at(s.image, at);
    }
}

// ---- all lines

// The goal line, with the goal at a place.
fn goal_line(w: &mut Writer, s: &Source, at: usize)
    requires { at ≤ 134217728 }
    ensures { Wrote w.old (goal_line_text s.now.relations s.now.names.row.now (goal_of s.now.image.now at)) (goal_named s.now.relations s.now.names.row.now (goal_of s.now.image.now at)) w.new }
{
    w.word(b"<- ");
    write_goal::goal(w, s, at);
    w.word(b".\n");
}

// Where record k begins.
fn record_at(s: &[u8], k: usize) -> usize
    requires { k ≤ 255 }
    ensures { (result ≡ record_at s.now k) × (result ≤ 65535 * k) }
{
    let mut at = 0;
    for _ in 0..k {
        at = at + place::word_at(s, at);
    }
    at
}

// The text of an image with c clauses.
pub fn lines(w: &mut Writer, s: &Source, c: usize)
    requires { (s.now.relations ≤ 32) × (c ≤ 64) }
    ensures { Wrote w.old (program_text s.now.names.row.now (program_of s.now.image.now s.now.relations c)) (program_named s.now.names.row.now (program_of s.now.image.now s.now.relations c)) w.new }
{
    mode_lines(w, s);
    let from = record_at(s.image, s.relations);
    write_clause::clauses(w, s, from, c);
    let ask = record_at(s.image, s.relations + c);
    goal_line(w, s, ask + codes::GOAL_AT);
}
