// The text of clauses, where they stand in an image.
#![tactic(auto)]

ghost use Rattle.std.specs.Prelude.{◌&&◌, true, ◌≡◌, ◌+◌, ◌≤◌};
ghost use Rattle.lay_text.specs.Wrote.{Wrote};
ghost use Rattle.parlog.specs.Image.{goal_end, record_end};
ghost use Rattle.parlog.specs.Program.{clause_of, goal_of};
ghost use Rattle.parlog.specs.Scan.{list_of};
ghost use Rattle.text_program.specs.Parsing.{all_of};
ghost use Rattle.text_program.specs.Printing.{clause_named, clauses_text, clause_text, end_mark, goal_named, halves_text, next_mark};

use lay_text::Writer;
use parlog::codes;
use write_goal::Source;

// Guard and body, from the guard's place on.
fn halves(w: &mut Writer, s: &Source, at: usize)
    requires { at ≤ 67108864 }
    ensures { Wrote w.old (halves_text s.now.relations s.now.names.row.now (goal_of s.now.image.now at) (goal_of s.now.image.now (goal_end s.now.image.now at))) (goal_named s.now.relations s.now.names.row.now (goal_of s.now.image.now at) && goal_named s.now.relations s.now.names.row.now (goal_of s.now.image.now (goal_end s.now.image.now at))) w.new }
{
    let body = place::goal_end(s.image, at);
    if place::byte_at(s.image, at) == 0 {
        if place::byte_at(s.image, body) == 0 {
            return;
        }
        w.word(b" <- ");
        write_goal::goal(w, s, body);
        return;
    }
    w.word(b" <- ");
    write_goal::goal(w, s, at);
    w.word(b" : ");
    write_goal::goal(w, s, body);
}

// The end of a clause, by the next one's mark.
fn clause_end(w: &mut Writer, mark: usize)
    ensures { Wrote w.old (end_mark mark) true w.new }
{
    if mark == 1 {
        w.word(b";\n");
    } else {
        w.word(b".\n");
    }
}

// The clause at a place.
fn clause(w: &mut Writer, s: &Source, at: usize, mark: usize)
    requires { at ≤ 33554432 }
    ensures { Wrote w.old (clause_text s.now.relations s.now.names.row.now (clause_of s.now.image.now at) mark) (clause_named s.now.relations s.now.names.row.now (clause_of s.now.image.now at)) w.new }
{
    let rel = place::byte_at(s.image, at + codes::CLAUSE_RELATION);
    let n = place::byte_at(s.image, at + codes::CLAUSE_ARITY);
    w.name(&s.names, rel);
    write_goal::arguments(w, s, at + codes::CLAUSE_HEAD, n);
    halves(w, s, at + codes::CLAUSE_HEAD + codes::TERM_SIZE * n);
    clause_end(w, mark);
}

// The mark of the clause at a place, of which so many are left; 0 where none is.
fn next_mark(s: &[u8], at: usize, left: usize) -> usize
    requires { at ≤ 33554432 }
    ensures { result ≡ next_mark (list_of (clause_of s.now) (record_end s.now) left at) }
{
    if left == 0 {
        return 0;
    }
    place::byte_at(s, at + codes::CLAUSE_MARK)
}

// n clauses from a place on.
pub fn clauses(w: &mut Writer, s: &Source, from: usize, n: usize)
    requires { (from ≤ 4194304) × (n ≤ 255) }
    ensures { Wrote w.old (clauses_text s.now.relations s.now.names.row.now (list_of (clause_of s.now.image.now) (record_end s.now.image.now) n from)) (all_of (clause_named s.now.relations s.now.names.row.now) (list_of (clause_of s.now.image.now) (record_end s.now.image.now) n from)) w.new }
{
    let mut at = from;
    for left in (0..n).rev() {
        let next = at + place::word_at(s.image, at);
        let mark = next_mark(s.image, next, left);
        clause(w, s, at, mark);
        at = next;
    }
}
