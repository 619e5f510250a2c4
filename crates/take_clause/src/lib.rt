// A clause and the goal of a text taken in one pass: constants into a table, the record into a row, and what its tests find.
#![tactic(auto)]

ghost use Rattle.std.specs.Prelude.{true, ◌≡◌, ◌≤◌, drop, length};
ghost use Rattle.lay_literal.specs.Lows.{lows};
ghost use Rattle.lay_text.specs.Laying.{Writes};
ghost use Rattle.mode_table.specs.Held.{lines_in};
ghost use Rattle.name_index.specs.Index.{Indexed};
ghost use Rattle.read_clause.specs.Parts.{part_of, PartIn};
ghost use Rattle.read_names.specs.Tables.{Finds};
ghost use Rattle.take_clause.specs.TakesClause.{ask_front, clause_front, front_bytes, said_at, starting, taken_as, TakesAsk, TakesClause, TakesPart, TakesParts};
ghost use Rattle.take_term.specs.Lent.{rows_in, Same};
ghost use Rattle.take_term.specs.Takes.{Ready, stands};
ghost use Rattle.text_names.specs.Bytes.{front};
ghost use Rattle.text_program.specs.Source.{read_body, read_clause};

use lay_text::To;
use mode_table::Relations;
use parlog::codes;
use read_clause::{ClauseAt, Part};
use read_names::Entry;
use take_term::{Draft, Reading, VARIABLES};

// What is to be taken next: its place in the text, that of its record in the image, and how many constants there are.
// Kept without a fact of its own: that the place is in the text and the constants are in the table ties it to a text and a draft, which are lent beside it.
#[derive(Clone, Copy)]
pub struct Next {
    pub from: usize,
    pub at: usize,
    pub consts: usize,
}

// What was taken: the place behind it in the text and in the image, how many constants there are; a clause's relation and whether it ends in `;`; whether it has no more than it may have, whether each call has the arity of its mode line, and whether each has a mode line.
#[derive(Clone, Copy)]
pub struct Taken {
    pub end: usize,
    pub at: usize,
    pub consts: usize,
    pub number: usize,
    pub semicolon: bool,
    pub right: bool,
    pub fits: bool,
    pub declared: bool,
}

// ---- the state

// The state before the first name of a record.
fn start(end: usize, at: usize, n: usize, fits: bool, known: bool) -> Reading
    ensures { result ≡ starting end at n fits known }
{
    Reading {
        end,
        count: 0,
        at,
        consts: n,
        vars: 0,
        fits,
        declared: known,
    }
}

// The state behind bytes that were laid up to a place.
fn behind(w: Reading, at: usize) -> Reading
    ensures { result ≡ stands w w.end 0 at }
{
    Reading { count: 0, at, ..w }
}

// ---- the front of a record

// Kept, a row and a place: a front is laid before what was taken, at a place that its record has, so that a `lay_text::Writer` is no plainer.

// How long a record is, and its kind.
fn front_of(out: &mut [u8], at: usize, size: usize, kind: usize) -> To
    ensures { Writes out.old (record { at = at; named = true }) (lows (front_bytes size kind)) true out.new result }
{
    let to = To { at, named: true };
    let a = lay_literal::word(out, to, size);
    lay_literal::word(out, a, kind)
}

// What stands in a clause's record before its terms.
fn clause_front(
    out: &mut [u8],
    at: usize,
    size: usize,
    number: usize,
    arity: usize,
    opens: bool,
    vars: usize,
) -> To
    ensures { Writes out.old (record { at = at; named = true }) (lows (clause_front size number arity opens vars)) true out.new result }
{
    let a = front_of(out, at, size, codes::CLAUSE_KIND);
    let b = lay_literal::number(out, a, number);
    let c = lay_literal::number(out, b, arity);
    let d = lay_literal::number(out, c, usize::from(opens));
    lay_literal::number(out, d, vars)
}

// What stands in the goal's record before its stages.
fn ask_front(out: &mut [u8], at: usize, size: usize, vars: usize) -> To
    ensures { Writes out.old (record { at = at; named = true }) (lows (ask_front size vars)) true out.new result }
{
    let a = front_of(out, at, size, codes::GOAL_KIND);
    lay_literal::number(out, a, vars)
}

// ---- terms, guard and body

// A goal where it stands; where there is none, a byte tells so.
fn part(
    relations: &Relations,
    draft: &mut Draft,
    vars: &mut [usize],
    w: Reading,
    p: Part,
) -> Reading
    requires { Ready relations.now.text.now (rows_in draft.old vars.old) w × PartIn relations.now.text.now p }
    ensures lent { Same draft.old draft.new }
    ensures taken { TakesPart relations.now.text.now (lines_in relations.now) (rows_in draft.old vars.old) w (part_of relations.now.text.now p) (rows_in draft.new vars.new) result }
{
    match p {
        Part::Absent => {
            let to = To {
                at: w.at,
                named: true,
            };
            let next = lay_literal::number(draft.out, to, 0);
            behind(w, next.at)
        }
        Part::Goal(at) => {
            let v = take_term::move_to(w, at, 0);
            take_goal::goal(relations, draft, vars, v)
        }
        Part::Body(at) => {
            let v = take_term::move_to(w, at, 0);
            take_goal::body(relations, draft, vars, v)
        }
    }
}

// Terms, guard and body of a clause.
fn parts(
    relations: &Relations,
    draft: &mut Draft,
    vars: &mut [usize],
    w: Reading,
    c: ClauseAt,
) -> Reading
    requires { Ready relations.now.text.now (rows_in draft.old vars.old) w × (w.end ≡ c.terms) × PartIn relations.now.text.now c.guard × PartIn relations.now.text.now c.body }
    ensures lent { Same draft.old draft.new }
    ensures taken { TakesParts relations.now.text.now (lines_in relations.now) (rows_in draft.old vars.old) w (said_at relations.now.text.now c) (rows_in draft.new vars.new) result }
{
    let a = take_term::terms(relations.text, draft, vars, w);
    let b = part(relations, draft, vars, a, c.guard);
    part(relations, draft, vars, b, c.body)
}

// ---- records

// The relation of the name at a place.
fn relation_at(relations: &Relations, from: usize) -> Entry
    requires { (from ≤ length relations.now.text.now) }
    ensures { Finds (lines_in relations.now) (front (drop from relations.now.text.now)) result }
{
    let word = name_index::name_at(relations.text, from);
    relations.find(from, word.chain)
}

// What was taken; it is right only with at most 16 variables.
fn told(end: usize, number: usize, semicolon: bool, right: bool, x: Reading) -> Taken
    ensures { result ≡ taken_as end number semicolon right x }
{
    let Reading {
        at,
        consts,
        vars,
        fits,
        declared,
        ..
    } = x;
    Taken {
        end,
        at,
        consts,
        number,
        semicolon,
        right: (vars <= codes::MOST_VARIABLES) & right,
        fits,
        declared,
    }
}

// The clause that is next; it opens a block or not.
pub fn clause(relations: &Relations, draft: &mut Draft, next: Next, opens: bool) -> Taken
    requires { (next.from ≤ length relations.now.text.now) × (next.at ≤ 65536) × Indexed relations.now.text.now draft.old.consts.now draft.old.links.now next.consts }
    ensures lent { Same draft.old draft.new }
    ensures taken { TakesClause relations.now.text.now (lines_in relations.now) draft.old.out.now draft.old.consts.now next.at next.consts opens (read_clause (drop next.from relations.now.text.now)) draft.new.out.now draft.new.consts.now draft.new.links.now result }
{
    let Next { from, at, consts } = next;
    let c = read_clause::clause(relations.text, from);
    let head = relation_at(relations, from);
    let mut vars = [0; VARIABLES];
    let fits = c.arity == head.arity.unwrap_or(0);
    let known = head.arity.is_some();
    let w = start(c.terms, at + codes::CLAUSE_HEAD, consts, fits, known);
    let x = parts(relations, draft, &mut vars, w, c);
    clause_front(
        draft.out,
        at,
        x.at - at,
        head.number,
        c.arity,
        opens,
        x.vars,
    );
    told(c.next, head.number, c.semicolon, c.right, x)
}

// The goal that is next.
pub fn ask(relations: &Relations, draft: &mut Draft, next: Next) -> Taken
    requires { (next.from ≤ length relations.now.text.now) × (next.at ≤ 65536) × Indexed relations.now.text.now draft.old.consts.now draft.old.links.now next.consts }
    ensures lent { Same draft.old draft.new }
    ensures taken { TakesAsk relations.now.text.now (lines_in relations.now) draft.old.out.now draft.old.consts.now next.at next.consts (read_body (drop next.from relations.now.text.now)) draft.new.out.now draft.new.consts.now draft.new.links.now result }
{
    let Next { from, at, consts } = next;
    let body = read_goal::body(relations.text, from);
    let mut vars = [0; VARIABLES];
    let w = start(from, at + codes::GOAL_AT, consts, true, true);
    let x = take_goal::body(relations, draft, &mut vars, w);
    ask_front(draft.out, at, x.at - at, x.vars);
    told(x.end, 0, false, body.right, x)
}
