// Literals, stages and goals of a text taken in one pass: names into tables, bytes into a row, with the test of each call by the way.
#![tactic(auto)]

ghost use Rattle.std.specs.Prelude.{false, true, [], ◌∷◌, ◌≡◌, ◌≤◌, drop, length};
ghost use Rattle.lay.specs.Lay.{laid};
ghost use Rattle.lay_literal.specs.Lows.{lows};
ghost use Rattle.mode_table.specs.Held.{lines_in};
ghost use Rattle.name_index.specs.Index.{chain_of};
ghost use Rattle.take_goal.specs.TakesGoal.{TakesEquality, TakesGoal, TakesLiteral, TakesStage};
ghost use Rattle.take_goal.specs.Turns.{Puts, TakesLiterals, TakesStages};
ghost use Rattle.take_term.specs.Lent.{rows_in, Same};
ghost use Rattle.take_term.specs.Takes.{Ready};
ghost use Rattle.text_names.specs.Bytes.{front, past};
ghost use Rattle.text_program.specs.Source.{literal_by, read_body, read_goal, read_literal, row};

use lay_text::To;
use mode_table::Relations;
use parlog::codes;
use take_term::{Draft, Reading};

// ---- numbers

// Kept, a row and a place: the place is one of the numbers of a `Reading`, and a byte is laid over one far behind it, so that a `lay_text::Writer` is no plainer.

// A number as a byte at a place of the image.
fn patch(out: &mut [u8], at: usize, n: usize)
    ensures { out.new ≡ laid out.old at (lows (n ∷ [])) }
{
    let to = To { at, named: true };
    lay_literal::number(out, to, n);
}

// A number as a byte behind what was taken.
fn number(out: &mut [u8], w: Reading, n: usize) -> Reading
    ensures { Puts out.old w n out.new result }
{
    let to = To {
        at: w.at,
        named: true,
    };
    let next = lay_literal::number(out, to, n);
    Reading { at: next.at, ..w }
}

// ---- literals

// An equality of two terms.
fn equality(s: &[u8], draft: &mut Draft, vars: &mut [usize], w: Reading) -> Reading
    requires { Ready s.now (rows_in draft.old vars.old) w }
    ensures lent { Same draft.old draft.new }
    ensures taken { TakesEquality s.now (rows_in draft.old vars.old) w (literal_by true (drop w.end s.now)) (rows_in draft.new vars.new) result }
{
    let a = number(draft.out, w, codes::EQUALITY);
    let b = number(draft.out, a, codes::EQUALITY_ARITY);
    let c = take_term::term(s, draft, vars, b);
    let d = take_term::move_to(c, text_names::after_mark(s, c.end), codes::EQUALITY_ARITY);
    let e = take_term::term(s, draft, vars, d);
    take_term::move_to(e, e.end, codes::EQUALITY_ARITY)
}

// A call of the relation of the name here, which is in a chain, with the terms behind it; tested by the way.
fn call(
    relations: &Relations,
    draft: &mut Draft,
    vars: &mut [usize],
    w: Reading,
    behind: usize,
    chain: usize,
) -> Reading
    requires { Ready relations.now.text.now (rows_in draft.old vars.old) w × (drop behind relations.now.text.now ≡ past (drop w.end relations.now.text.now)) × (behind ≤ length relations.now.text.now) × (chain ≡ chain_of (front (drop w.end relations.now.text.now))) }
    ensures lent { Same draft.old draft.new }
    ensures taken { TakesLiteral relations.now.text.now (lines_in relations.now) (rows_in draft.old vars.old) w (literal_by false (drop w.end relations.now.text.now)) (rows_in draft.new vars.new) result }
{
    let entry = relations.find(w.end, chain);
    let a = number(draft.out, w, entry.number);
    let b = number(draft.out, a, 0);
    let from = take_term::move_to(b, behind, 0);
    let c = take_term::terms(relations.text, draft, vars, from);
    patch(draft.out, a.at, c.count);
    Reading {
        fits: c.fits & (c.count == entry.arity.unwrap_or(0)),
        declared: c.declared & entry.arity.is_some(),
        ..c
    }
}

// A literal.
fn literal(relations: &Relations, draft: &mut Draft, vars: &mut [usize], w: Reading) -> Reading
    requires { Ready relations.now.text.now (rows_in draft.old vars.old) w }
    ensures lent { Same draft.old draft.new }
    ensures taken { TakesLiteral relations.now.text.now (lines_in relations.now) (rows_in draft.old vars.old) w (read_literal (drop w.end relations.now.text.now)) (rows_in draft.new vars.new) result }
{
    let word = name_index::name_at(relations.text, w.end);
    let behind = text_names::skip_blanks(relations.text, word.end);
    if place::byte_at(relations.text, behind) == read_goal::EQUALS {
        return equality(relations.text, draft, vars, w);
    }
    call(relations, draft, vars, w, behind, word.chain)
}

// ---- stages and goals

// Literals with a comma between them.
// Kept beside `stages`, like `take_term::names`: one loop for both would take what an item is, reads and lays as a closure with ghost arguments.
fn literals(relations: &Relations, draft: &mut Draft, vars: &mut [usize], w: Reading) -> Reading
    requires { Ready relations.now.text.now (rows_in draft.old vars.old) w }
    ensures lent { Same draft.old draft.new }
    ensures taken { TakesLiterals relations.now.text.now (lines_in relations.now) (rows_in draft.old vars.old) w (row read_literal 44 (drop w.end relations.now.text.now)) (rows_in draft.new vars.new) result }
{
    let mut x = w;
    let most = relations.text.len() - w.end;
    for n in 0..most {
        x = literal(relations, draft, vars, x);
        if place::byte_at(relations.text, x.end) != read_goal::COMMA {
            return take_term::move_to(x, x.end, n + 1);
        }
        x = take_term::move_to(x, text_names::after_mark(relations.text, x.end), n + 1);
    }
    take_term::move_to(x, x.end, most)
}

// A stage: how many literals, and the literals.
fn stage(relations: &Relations, draft: &mut Draft, vars: &mut [usize], w: Reading) -> Reading
    requires { Ready relations.now.text.now (rows_in draft.old vars.old) w }
    ensures lent { Same draft.old draft.new }
    ensures taken { TakesStage relations.now.text.now (lines_in relations.now) (rows_in draft.old vars.old) w (row read_literal 44 (drop w.end relations.now.text.now)) (rows_in draft.new vars.new) result }
{
    let a = number(draft.out, w, 0);
    let b = literals(relations, draft, vars, a);
    patch(draft.out, w.at, b.count);
    b
}

// Stages with `&` between them.
// Kept, like `literals`.
fn stages(relations: &Relations, draft: &mut Draft, vars: &mut [usize], w: Reading) -> Reading
    requires { Ready relations.now.text.now (rows_in draft.old vars.old) w }
    ensures lent { Same draft.old draft.new }
    ensures taken { TakesStages relations.now.text.now (lines_in relations.now) (rows_in draft.old vars.old) w (row (row read_literal 44) 38 (drop w.end relations.now.text.now)) (rows_in draft.new vars.new) result }
{
    let mut x = w;
    let most = relations.text.len() - w.end;
    for n in 0..most {
        x = stage(relations, draft, vars, x);
        if place::byte_at(relations.text, x.end) != read_goal::AMPERSAND {
            return take_term::move_to(x, x.end, n + 1);
        }
        x = take_term::move_to(x, text_names::after_mark(relations.text, x.end), n + 1);
    }
    take_term::move_to(x, x.end, most)
}

// A goal: how many stages, and the stages.
// Kept beside `stage`: one function for both would take what stands behind the count as a closure that is lent the draft, under a contract for any; these four lines are no longer.
pub fn goal(relations: &Relations, draft: &mut Draft, vars: &mut [usize], w: Reading) -> Reading
    requires { Ready relations.now.text.now (rows_in draft.old vars.old) w }
    ensures lent { Same draft.old draft.new }
    ensures taken { TakesGoal relations.now.text.now (lines_in relations.now) (rows_in draft.old vars.old) w (read_goal (drop w.end relations.now.text.now)) (rows_in draft.new vars.new) result }
{
    let a = number(draft.out, w, 0);
    let b = stages(relations, draft, vars, a);
    patch(draft.out, w.at, b.count);
    b
}

// A goal, or nothing where the line ends.
pub fn body(relations: &Relations, draft: &mut Draft, vars: &mut [usize], w: Reading) -> Reading
    requires { Ready relations.now.text.now (rows_in draft.old vars.old) w }
    ensures lent { Same draft.old draft.new }
    ensures taken { TakesGoal relations.now.text.now (lines_in relations.now) (rows_in draft.old vars.old) w (read_body (drop w.end relations.now.text.now)) (rows_in draft.new vars.new) result }
{
    let mark = place::byte_at(relations.text, w.end);
    if (mark == read_goal::DOT) | (mark == read_goal::SEMICOLON) {
        return number(draft.out, take_term::move_to(w, w.end, 0), 0);
    }
    goal(relations, draft, vars, w)
}
