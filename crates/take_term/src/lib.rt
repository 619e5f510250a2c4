// Terms of a text taken in one pass: their names into tables, their bytes into a row.
#![tactic(auto)]

ghost use Rattle.std.specs.Prelude.{[], ◌∷◌, ◌≡◌, ◌≤◌, drop, length, take};
ghost use Rattle.read_names.specs.Tables.{Adds, names_at};
ghost use Rattle.take_term.specs.Lent.{rows_in, Same};
ghost use Rattle.take_term.specs.Takes.{moved, Ready, TakesTerm, TakesTerms};
ghost use Rattle.text_names.specs.Bytes.{front};
ghost use Rattle.text_names.specs.Names.{look};
ghost use Rattle.text_program.specs.Source.{read_brackets, read_term, row};

use lay_text::To;
use name_index::Added;
use parlog::codes;

// How many places of variables serve for any clause: one more than it may have.
pub const VARIABLES: usize = codes::MOST_VARIABLES + 1;

// An image that is being made: its bytes, and the places of its constants with their chains.
// Kept apart from the relations that are lent beside it: what is read comes by & and what is written by &mut, so that no step has to promise that it left the relations as they were.
#[derive(Drop)]
pub struct Draft<'a> {
    pub out: &'a mut [u8],
    pub consts: &'a mut [usize],
    pub links: &'a mut [u16],
}

// Kept apart from a draft, and so `Ready` as a clause of each step: it ties the text, a draft and a reading, and one struct of the three would have each step promise besides that it is still that text.
// How far a text has been taken: the place in it, how many items were read last, the place in the image, how many constants and variables there are; whether each call has the arity of its mode line, and whether each has a mode line.
#[derive(Clone, Copy)]
pub struct Reading {
    pub end: usize,
    pub count: usize,
    pub at: usize,
    pub consts: usize,
    pub vars: usize,
    pub fits: bool,
    pub declared: bool,
}

// The state at another place of the text, with another count.
pub fn move_to(w: Reading, end: usize, count: usize) -> Reading
    ensures { result ≡ moved w end count }
{
    Reading { end, count, ..w }
}

// The number of the variable at q; it is added to the table if it is new and there is room.
// Kept, a row and its count: the count is `Reading.vars`, of which the definition `Takes` speaks.
fn variable(s: &[u8], vars: &mut [usize], n: usize, q: usize) -> Added
    requires { (n ≤ length vars.old) × (q ≤ length s.now) }
    ensures { Adds s.now vars.old n vars.new result.count (front (drop q s.now) ∷ []) × (result.number ≡ look (names_at s.now (take n vars.old)) (front (drop q s.now))) × (result.number ≤ n) }
{
    if let Some(number) = read_names::find(s, &vars[..n], q) {
        return Added { count: n, number };
    }
    if n < vars.len() {
        vars[n] = q;
        return Added {
            count: n + 1,
            number: n,
        };
    }
    Added {
        count: n,
        number: n,
    }
}

// The term at a place.
pub fn term(s: &[u8], draft: &mut Draft, vars: &mut [usize], w: Reading) -> Reading
    requires { Ready s.now (rows_in draft.old vars.old) w }
    ensures lent { Same draft.old draft.new }
    ensures taken { TakesTerm s.now (rows_in draft.old vars.old) w (rows_in draft.new vars.new) result }
{
    let q = w.end;
    let word = name_index::name_at(s, q);
    let end = text_names::skip_blanks(s, word.end);
    let from = To {
        at: w.at,
        named: true,
    };
    if text_names::is_capital(place::byte_at(s, q)) {
        let v = variable(s, vars, w.vars, q);
        let to = lay_literal::word(draft.out, from, codes::FIRST_VARIABLE + v.number);
        return Reading {
            end,
            at: to.at,
            vars: v.count,
            ..w
        };
    }
    let c = name_index::add(s, draft.consts, draft.links, w.consts, q, word.chain);
    let to = lay_literal::word(draft.out, from, c.number);
    Reading {
        end,
        at: to.at,
        consts: c.count,
        ..w
    }
}

// The terms with a comma between them.
// Kept, a loop beside those of take_goal and take_modes: one for all would take an item's taker as a closure, and with it what it reads, which names and bytes that has and what is tested, as ghost arguments. The loop is shorter.
fn names(s: &[u8], draft: &mut Draft, vars: &mut [usize], w: Reading) -> Reading
    requires { Ready s.now (rows_in draft.old vars.old) w }
    ensures lent { Same draft.old draft.new }
    ensures taken { TakesTerms s.now (rows_in draft.old vars.old) w (row read_term 44 (drop w.end s.now)) (rows_in draft.new vars.new) result }
{
    let mut r = w;
    let most = s.len() - w.end;
    for n in 0..most {
        r = term(s, draft, vars, r);
        let end = r.end;
        if place::byte_at(s, end) != read_goal::COMMA {
            return move_to(r, end, n + 1);
        }
        let behind = text_names::after_mark(s, end);
        r = move_to(r, behind, n + 1);
    }
    let last = r.end;
    move_to(r, last, most)
}

// The terms in brackets, or no brackets.
pub fn terms(s: &[u8], draft: &mut Draft, vars: &mut [usize], w: Reading) -> Reading
    requires { Ready s.now (rows_in draft.old vars.old) w }
    ensures lent { Same draft.old draft.new }
    ensures taken { TakesTerms s.now (rows_in draft.old vars.old) w (read_brackets read_term (drop w.end s.now)) (rows_in draft.new vars.new) result }
{
    let at = w.end;
    if place::byte_at(s, at) != read_goal::OPEN {
        return move_to(w, at, 0);
    }
    let from = text_names::after_mark(s, at);
    let inner = names(s, draft, vars, move_to(w, from, 0));
    let behind = text_names::after_mark(s, inner.end);
    move_to(inner, behind, inner.count)
}
