// The clauses of a text taken in one pass, each tested, up to the first that is refused.
#![tactic(auto)]

ghost use Rattle.std.specs.Prelude.{◌≡◌, ◌≤◌, length};
ghost use Rattle.judge_text.specs.Tests.{Counted, kept};
ghost use Rattle.mode_table.specs.Held.{lines_in};
ghost use Rattle.name_index.specs.Index.{Indexed};
ghost use Rattle.take_term.specs.Lent.{Same};
ghost use Rattle.take_text.specs.TakesText.{TakesClauses};
ghost use Rattle.take_text.specs.Turned.{started, taken_said, turned_by, Turns};

use mode_table::Relations;
use parlog::{Progress, codes};
use read_goal::ARROW;
use take_clause::{Next, Taken};
use take_term::Draft;

// How far the clauses were taken: the place in the text and how many may still follow, the number of the first refusal, or 0, and the place of its record, or the place behind all; how many constants there are, what is known there, and whether each call so far has a mode line.
// Kept: no Result, since the places, `left` and `declared` are read behind a refusal too.
#[derive(Clone, Copy)]
pub struct Clauses {
    pub end: usize,
    pub left: usize,
    pub number: u8,
    pub at: usize,
    pub consts: usize,
    pub known: Progress,
    pub declared: bool,
}

// How far they were taken behind one more, and whether it ends in `;`.
#[derive(Clone, Copy)]
struct Behind {
    next: Clauses,
    semicolon: bool,
}

// The tests of a clause by its relation, whether it has no more than it may have, and whether each call has its arity.
fn test(g: Progress, opens: bool, number: usize, right: bool, fits: bool) -> Result<Progress, u8>
    requires { Counted g }
    ensures { (result ≡ taken_said g opens number right fits) × kept result }
{
    let block = judge_text::block_with(g, number, opens);
    let known = fits & (g.relation <= number);
    let next = Progress {
        clauses: g.clauses + 1,
        kind: codes::CLAUSE_KIND,
        relation: number,
        block,
        ..g
    };
    judge_text::verdict(
        codes::MOST_CLAUSES <= g.clauses,
        right,
        known,
        codes::MOST_BLOCK < block,
        next,
    )
}

// Behind a clause that goes or is refused; one that is refused has its record's place.
fn turned(v: Result<Progress, u8>, w: Clauses, c: Taken) -> Clauses
    requires { 1 ≤ w.left }
    ensures { result ≡ turned_by v w c }
{
    let Taken {
        end,
        at,
        consts,
        ..
    } = c;
    let left = w.left - 1;
    let declared = w.declared & c.declared;
    match v {
        Err(number) => Clauses {
            end,
            left,
            number,
            consts,
            declared,
            ..w
        },
        Ok(known) => Clauses {
            end,
            left,
            number: 0,
            at,
            consts,
            known,
            declared,
        },
    }
}

// One clause more.
fn turn(relations: &Relations, draft: &mut Draft, w: Clauses, opens: bool) -> Behind
    requires { (w.end ≤ length relations.now.text.now) × (w.at ≤ 65536) × Indexed relations.now.text.now draft.old.consts.now draft.old.links.now w.consts × Counted w.known × (1 ≤ w.left) }
    ensures lent { Same draft.old draft.new }
    ensures taken { Turns relations.now.text.now (lines_in relations.now) draft.old.out.now draft.old.consts.now w opens draft.new.out.now draft.new.consts.now draft.new.links.now result }
{
    let next = Next {
        from: w.end,
        at: w.at,
        consts: w.consts,
    };
    let c = take_clause::clause(relations, draft, next, opens);
    let v = test(w.known, opens, c.number, c.right, c.fits);
    Behind {
        next: turned(v, w, c),
        semicolon: c.semicolon,
    }
}

// Before the first clause.
fn start(left: usize, from: usize, n: usize, at: usize, known: Progress) -> Clauses
    ensures { result ≡ started left from n at known }
{
    Clauses {
        end: from,
        left,
        number: 0,
        at,
        consts: n,
        known,
        declared: true,
    }
}

// The clauses that are next, up to the first that is refused.
pub fn clause_lines(
    relations: &Relations,
    draft: &mut Draft,
    next: Next,
    known: Progress,
) -> Clauses
    requires { (next.from ≤ length relations.now.text.now) × Indexed relations.now.text.now draft.old.consts.now draft.old.links.now next.consts × Counted known × (known.clauses ≡ 0) × (next.at ≤ 16384) }
    ensures lent { Same draft.old draft.new }
    ensures taken { TakesClauses relations.now.text.now (lines_in relations.now) draft.old.out.now draft.old.consts.now next.from next.at next.consts known draft.new.out.now draft.new.consts.now draft.new.links.now result }
{
    let Next { from, at, consts } = next;
    let s = relations.text;
    let mut w = start(s.len() - from, from, consts, at, known);
    let mut before = from;
    let mut semicolon = false;
    // Kept, a loop by a test: `left` is told with the answer, and goes down where a clause is taken (`turned`).
    while 0 < w.left {
        if place::byte_at(s, w.end) == ARROW {
            return w;
        }
        let opens = semicolon & text_names::same_name(s, before, w.end);
        let t = turn(relations, draft, w, opens);
        before = w.end;
        semicolon = t.semicolon;
        w = t.next;
        if 0 < w.number {
            return w;
        }
    }
    w
}
