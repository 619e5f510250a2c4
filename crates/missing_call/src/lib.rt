// The calls of a text whose relations a table does not have: the least of their names that is of a class and above a bound.
#![tactic(auto)]

ghost use Rattle.std.specs.Prelude.{[], ◌∷◌, ◌≡◌, ◌≤◌, drop, length, take};
ghost use Rattle.std.proofs.Props.{props};
ghost use Rattle.missing_call.specs.Called.{calls_from, clause_calls, goal_calls, said_calls};
ghost use Rattle.missing_call.specs.Least.{before, in_class, missing};
ghost use Rattle.missing_call.specs.Sees.{least_of, one_at, OneIn, Sees, unseen, Within};
ghost use Rattle.name_index.specs.Index.{chain_of, Indexed};
ghost use Rattle.read_clause.specs.Parts.{part_of, PartIn};
ghost use Rattle.read_names.specs.Tables.{names_at};
ghost use Rattle.text_names.specs.Bytes.{front};
ghost use Rattle.text_program.specs.Numbered.{joined};
ghost use Rattle.text_program.specs.Source.{is_clause, lines_for, read_body, read_clause, read_goal, read_literal, row};

use name_index::Table;
use read_clause::Part;

// How many classes of chains there are, and how many chains a class has.
pub const CLASSES: usize = 16;

const CHAINS_EACH: usize = 32;

// The class of the names that are looked for, or all; how many names the table has; and the name that they stand above, if there is one.
#[derive(Clone, Copy)]
pub struct Asked {
    pub class: usize,
    pub count: usize,
    pub bound: Option<usize>,
}

// A text, the places and chains of a table of names in it, and what is asked for.
#[derive(Clone, Copy)]
pub struct Search<'a> {
    pub text: &'a [u8],
    pub places: &'a [usize],
    pub links: &'a [u16],
    pub asked: Asked,
    pub ghost indexed: { Indexed text.now places.now links.now asked.count } by { Prim.hlevel props },
    pub ghost bounded: { OneIn text.now asked.bound } by { Prim.hlevel props },
}

// How far the text was walked over, and the least name of a call so far, if there is one.
// Kept: that these places are in the text is asked for by each step, since a walk that had the text beside them would promise at each step that it is still that text.
#[derive(Clone, Copy)]
pub struct Seen {
    pub end: usize,
    pub at: Option<usize>,
}

// ---- names

// The name at p comes before the one at q.
// Kept: one pass over both names; `<` over two slices needs their ends first, which is a second pass.
fn before(s: &[u8], p: usize, q: usize) -> bool
    requires { (p ≤ length s.now) × (q ≤ length s.now) }
    ensures { result ≡ before (front (drop p s.now)) (front (drop q s.now)) }
{
    for j in q..s.len() {
        let a = place::byte_at(s, p + (j - q));
        let b = place::byte_at(s, j);
        if !text_names::is_name(b) {
            return false;
        }
        if !text_names::is_name(a) {
            return true;
        }
        if a != b {
            return a < b;
        }
    }
    false
}

// A chain is of a class.
pub fn in_class(class: usize, chain: usize) -> bool
    ensures { result ≡ in_class class chain }
{
    (CLASSES <= class) | (chain / CHAINS_EACH == class)
}

// What was seen, and the walk is at another place.
fn moved(w: Seen, end: usize) -> Seen
    ensures { result ≡ record { end = end; at = w.at } }
{
    Seen { end, ..w }
}

impl Search<'_> {
    // The name at q, which is in a chain, is looked for.
    fn missing(&self, q: usize, chain: usize) -> bool
        requires { (q ≤ length self.now.text.now) × (chain ≡ chain_of (front (drop q self.now.text.now))) }
        ensures { result ≡ missing self.now.asked.class (names_at self.now.text.now (take self.now.asked.count self.now.places.now)) (one_at self.now.text.now self.now.asked.bound) (front (drop q self.now.text.now)) }
    {
        if !in_class(self.asked.class, chain) {
            return false;
        }
        let table = Table {
            text: self.text,
            places: self.places,
            links: self.links,
            count: self.asked.count,
        };
        if table.find(q, chain).is_some() {
            return false;
        }
        match self.asked.bound {
            Some(bound) => before(self.text, bound, q),
            None => true,
        }
    }

    // The call of the name at q, which is in a chain.
    fn call(&self, w: Seen, q: usize, chain: usize) -> Seen
        requires { (q ≤ length self.now.text.now) × (chain ≡ chain_of (front (drop q self.now.text.now))) × Within self.now.text.now w }
        ensures { (one_at self.now.text.now result.at ≡ least_of self.now.text.now self.now.places.now self.now.asked w (front (drop q self.now.text.now) ∷ [])) × OneIn self.now.text.now result.at × (result.end ≡ w.end) }
    {
        if !self.missing(q, chain) {
            return w;
        }
        if let Some(least) = w.at {
            if !before(self.text, q, least) {
                return w;
            }
        }
        Seen { at: Some(q), ..w }
    }

    // ---- goals

    // A literal.
    fn literal(&self, w: Seen) -> Seen
        requires { Within self.now.text.now w }
        ensures { Sees self.now.text.now (read_literal (drop w.end self.now.text.now)).rest (least_of self.now.text.now self.now.places.now self.now.asked w (said_calls (read_literal (drop w.end self.now.text.now)).value)) result }
    {
        let word = name_index::name_at(self.text, w.end);
        let behind = text_names::skip_blanks(self.text, word.end);
        if place::byte_at(self.text, behind) == read_goal::EQUALS {
            let from = text_names::after_mark(self.text, behind);
            return moved(w, read_goal::past_name(self.text, from));
        }
        let c = self.call(w, w.end, word.chain);
        let t = read_goal::terms(self.text, behind);
        moved(c, t.end)
    }

    // Literals with a comma between them.
    // Kept beside `goal`, as `read_goal` has its rows: one loop for both would take the step over an item as a closure, with a contract that speaks of reader and calls of any item.
    fn stage(&self, w: Seen) -> Seen
        requires { Within self.now.text.now w }
        ensures { Sees self.now.text.now (row read_literal 44 (drop w.end self.now.text.now)).rest (least_of self.now.text.now self.now.places.now self.now.asked w (joined said_calls (row read_literal 44 (drop w.end self.now.text.now)).value)) result }
    {
        let mut v = w;
        for _ in w.end..self.text.len() {
            v = self.literal(v);
            if place::byte_at(self.text, v.end) != read_goal::COMMA {
                return v;
            }
            v = moved(v, text_names::after_mark(self.text, v.end));
        }
        v
    }

    // Stages with `&` between them.
    fn goal(&self, w: Seen) -> Seen
        requires { Within self.now.text.now w }
        ensures { Sees self.now.text.now (read_goal (drop w.end self.now.text.now)).rest (least_of self.now.text.now self.now.places.now self.now.asked w (goal_calls (read_goal (drop w.end self.now.text.now)).value)) result }
    {
        let mut v = w;
        for _ in w.end..self.text.len() {
            v = self.stage(v);
            if place::byte_at(self.text, v.end) != read_goal::AMPERSAND {
                return v;
            }
            v = moved(v, text_names::after_mark(self.text, v.end));
        }
        v
    }

    // A goal, or nothing where the line ends.
    fn body(&self, w: Seen) -> Seen
        requires { Within self.now.text.now w }
        ensures { Sees self.now.text.now (read_body (drop w.end self.now.text.now)).rest (least_of self.now.text.now self.now.places.now self.now.asked w (goal_calls (read_body (drop w.end self.now.text.now)).value)) result }
    {
        let mark = place::byte_at(self.text, w.end);
        if (mark == read_goal::DOT) | (mark == read_goal::SEMICOLON) {
            return w;
        }
        self.goal(w)
    }

    // A goal of a clause where it stands.
    fn part(&self, w: Seen, p: Part) -> Seen
        requires { Within self.now.text.now w × PartIn self.now.text.now p }
        ensures { Sees self.now.text.now (drop result.end self.now.text.now) (least_of self.now.text.now self.now.places.now self.now.asked w (goal_calls (part_of self.now.text.now p))) result }
    {
        match p {
            Part::Absent => w,
            Part::Goal(at) => self.goal(moved(w, at)),
            Part::Body(at) => self.body(moved(w, at)),
        }
    }

    // ---- clauses

    // A clause: its own relation, its guard and its body.
    fn clause(&self, w: Seen) -> Seen
        requires { Within self.now.text.now w }
        ensures { Sees self.now.text.now (read_clause (drop w.end self.now.text.now)).rest (least_of self.now.text.now self.now.places.now self.now.asked w (clause_calls (read_clause (drop w.end self.now.text.now)).value)) result }
    {
        let c = read_clause::clause(self.text, w.end);
        let word = name_index::name_at(self.text, w.end);
        let head = self.call(w, w.end, word.chain);
        let guard = self.part(head, c.guard);
        let body = self.part(guard, c.body);
        moved(body, c.next)
    }

    // Up to `left` clauses.
    fn clauses(&self, w: Seen, left: usize) -> Seen
        requires { Within self.now.text.now w }
        ensures { Sees self.now.text.now (lines_for left is_clause read_clause (drop w.end self.now.text.now)).rest (least_of self.now.text.now self.now.places.now self.now.asked w (joined clause_calls (lines_for left is_clause read_clause (drop w.end self.now.text.now)).value)) result }
    {
        let mut v = w;
        for _ in 0..left {
            if place::byte_at(self.text, v.end) == read_goal::ARROW {
                return v;
            }
            v = self.clause(v);
        }
        v
    }

    // Up to `left` clauses from a place on and the goal behind them: the least name of a call that is looked for.
    // Kept: the next least name is found by a walk of its own, since memory is fixed: a set of all names would need a heap.
    pub fn least(&self, from: usize, left: usize) -> Option<usize>
        requires { from ≤ length self.now.text.now }
        ensures { (one_at self.now.text.now result ≡ least_of self.now.text.now self.now.places.now self.now.asked (unseen from) (calls_from self.now.text.now from left)) × OneIn self.now.text.now result }
    {
        let w = Seen {
            end: from,
            at: None,
        };
        let c = self.clauses(w, left);
        let arrow = read_clause::behind_arrow(self.text, c.end);
        self.body(moved(c, arrow)).at
    }
}
