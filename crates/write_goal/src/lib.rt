// The text of terms, literals and goals, where they stand in an image.
#![tactic(auto)]

ghost use Rattle.std.specs.Prelude.{true, ◌≡◌, ◌%◌, ◌+◌, ◌≤◌};
ghost use Rattle.lay_text.specs.Wrote.{Wrote};
ghost use Rattle.parlog.specs.Image.{term_at};
ghost use Rattle.parlog.specs.Program.{goal_of, literal_of, stage_of};
ghost use Rattle.text_program.specs.Parsing.{all_of};
ghost use Rattle.text_program.specs.Printing.{bracket_text, comma_mark, goal_named, goal_text, literal_named, literal_text, row_text, term_named, term_text};
ghost use Rattle.write_goal.specs.Rows.{lead_of, terms_at};

use entry_table::Names;
use lay_text::Writer;
use parlog::{Term, codes};

// Kept apart from the writer that is lent beside it: what is read comes by & and what is written by &mut, so that no step has to promise that it left the source as it was.
// An accepted image with its names: those of its relations come first.
#[derive(Clone, Copy)]
pub struct Source<'a> {
    pub image: &'a [u8],
    pub names: Names<'a>,
    pub relations: usize,
    pub ghost few: { relations ≤ 255 },
}

// The letter of a variable: one of sixteen.
fn letter(v: u32) -> u8
    ensures { result ≡ 65 + v % 16 }
{
    b'A' + ((v % 16) as u8)
}

// What stands before item k of a row.
pub fn lead(w: &mut Writer, k: usize, mark: &[u8])
    ensures { Wrote w.old (lead_of mark.now k) true w.new }
{
    if 0 < k {
        w.word(mark);
    }
}

// The term at a place.
fn term(w: &mut Writer, s: &Source, at: usize)
    requires { at ≤ 4294967296 }
    ensures { Wrote w.old (term_text s.now.relations s.now.names.row.now (term_at s.now.image.now at)) (term_named s.now.relations s.now.names.row.now (term_at s.now.image.now at)) w.new }
{
    match place::term_at(s.image, at) {
        Term::Const(c) => w.name(&s.names, s.relations + c as usize),
        Term::Var(v) => w.put(letter(v)),
    }
}

// n terms from a place on, with a mark between them.
// Kept beside `stage`, `goal` and `write_text::modes`: one walk for the four would take two closures, one that writes an item with the same writer and one that tells where the next begins, and bounds of the places that differ, which is no plainer than these lines.
fn terms(w: &mut Writer, s: &Source, from: usize, n: usize, mark: &[u8])
    requires { (from ≤ 1073741824) × (n ≤ 255) }
    ensures { Wrote w.old (row_text (term_text s.now.relations s.now.names.row.now) mark.now (terms_at s.now.image.now n from)) (all_of (term_named s.now.relations s.now.names.row.now) (terms_at s.now.image.now n from)) w.new }
{
    let mut at = from;
    for k in 0..n {
        lead(w, k, mark);
        term(w, s, at);
        at += codes::TERM_SIZE;
    }
}

// n terms in brackets, no brackets for none.
pub fn arguments(w: &mut Writer, s: &Source, from: usize, n: usize)
    requires { (from ≤ 1073741824) × (n ≤ 255) }
    ensures { Wrote w.old (bracket_text (term_text s.now.relations s.now.names.row.now) (terms_at s.now.image.now n from)) (all_of (term_named s.now.relations s.now.names.row.now) (terms_at s.now.image.now n from)) w.new }
{
    if n == 0 {
        return;
    }
    w.put(b'(');
    terms(w, s, from, n, b",");
    w.put(b')');
}

// The literal at a place.
fn literal(w: &mut Writer, s: &Source, at: usize)
    requires { at ≤ 536870912 }
    ensures { Wrote w.old (literal_text s.now.relations s.now.names.row.now (literal_of s.now.image.now at)) (literal_named s.now.relations s.now.names.row.now (literal_of s.now.image.now at)) w.new }
{
    let rel = place::byte_at(s.image, at);
    let n = place::byte_at(s.image, at + codes::LITERAL_ARITY);
    if rel == codes::EQUALITY {
        terms(w, s, at + codes::LITERAL_TERMS, n, b" = ");
        return;
    }
    w.name(&s.names, rel);
    arguments(w, s, at + codes::LITERAL_TERMS, n);
}

// The stage at a place.
// Kept, as `terms` says.
fn stage(w: &mut Writer, s: &Source, from: usize)
    requires { from ≤ 268435456 }
    ensures { Wrote w.old (row_text (literal_text s.now.relations s.now.names.row.now) comma_mark (stage_of s.now.image.now from)) (all_of (literal_named s.now.relations s.now.names.row.now) (stage_of s.now.image.now from)) w.new }
{
    let n = place::byte_at(s.image, from);
    let mut at = from + 1;
    for k in 0..n {
        lead(w, k, b", ");
        literal(w, s, at);
        at = at
            + codes::LITERAL_TERMS
            + codes::TERM_SIZE * place::byte_at(s.image, at + codes::LITERAL_ARITY);
    }
}

// The goal at a place.
// Kept, as `terms` says.
pub fn goal(w: &mut Writer, s: &Source, from: usize)
    requires { from ≤ 134217728 }
    ensures { Wrote w.old (goal_text s.now.relations s.now.names.row.now (goal_of s.now.image.now from)) (goal_named s.now.relations s.now.names.row.now (goal_of s.now.image.now from)) w.new }
{
    let n = place::byte_at(s.image, from);
    let mut at = from + 1;
    for k in 0..n {
        lead(w, k, b" & ");
        stage(w, s, at);
        at = place::stage_end(s.image, at);
    }
}
