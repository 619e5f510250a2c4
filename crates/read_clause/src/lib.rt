// Clauses where they stand in a text: the places of their head's terms, guard and body.
// Kept: a text and a place in it, which is at most its end, come as two (`behind_arrow`, `halves`, `clause`). A struct of both is no plainer: `ClauseAt` tells four places of one text, and `Parts` three.
#![tactic(auto)]

ghost use Rattle.std.specs.Prelude.{◌≡◌, ◌≤◌, drop, length};
ghost use Rattle.read_clause.specs.Parts.{ClauseIn, PartsIn};
ghost use Rattle.text_program.specs.Source.{behind_arrow, read_clause, read_halves};

use parlog::codes;

// How many bytes `<-` has.
const ARROW_SIZE: usize = 2;

// How a goal of a clause is read: there is none, there is one at a place, or there may be one, where the line does not end.
#[derive(Clone, Copy)]
pub enum Part {
    Absent,
    Goal(usize),
    Body(usize),
}

// Guard and body, whether they are right; and the place behind them.
#[derive(Clone, Copy)]
pub struct Parts {
    pub guard: Part,
    pub body: Part,
    pub right: bool,
    pub end: usize,
}

// A clause: where its terms begin, how many there are, its guard and body, whether terms and goals are no more than they may be, whether it ends in `;`, and where the next line begins.
#[derive(Clone, Copy)]
pub struct ClauseAt {
    pub terms: usize,
    pub arity: usize,
    pub guard: Part,
    pub body: Part,
    pub right: bool,
    pub semicolon: bool,
    pub next: usize,
}

// The place behind `<-` and the blanks there.
pub fn behind_arrow(s: &[u8], at: usize) -> usize
    requires { at ≤ length s.now }
    ensures { (drop result s.now ≡ behind_arrow (drop at s.now)) × (result ≤ length s.now) }
{
    if s.len() - at < ARROW_SIZE {
        return s.len();
    }
    text_names::skip_blanks(s, at + ARROW_SIZE)
}

// Guard and body of the clause whose head ends at a place.
fn halves(s: &[u8], at: usize) -> Parts
    requires { at ≤ length s.now }
    ensures { PartsIn s.now (read_halves (drop at s.now)) result }
{
    if place::byte_at(s, at) != read_goal::ARROW {
        return Parts {
            guard: Part::Absent,
            body: Part::Absent,
            right: true,
            end: at,
        };
    }
    let from = behind_arrow(s, at);
    let first = read_goal::goal(s, from);
    if place::byte_at(s, first.end) != read_goal::COLON {
        return Parts {
            guard: Part::Absent,
            body: Part::Goal(from),
            right: first.right,
            end: first.end,
        };
    }
    let behind = text_names::after_mark(s, first.end);
    let second = read_goal::body(s, behind);
    Parts {
        guard: Part::Goal(from),
        body: Part::Body(behind),
        right: first.right & second.right,
        end: second.end,
    }
}

// The clause at a place.
pub fn clause(s: &[u8], at: usize) -> ClauseAt
    requires { at ≤ length s.now }
    ensures { ClauseIn s.now at (read_clause (drop at s.now)) result }
{
    let terms = read_goal::past_name(s, at);
    let head = read_goal::terms(s, terms);
    let Parts {
        guard,
        body,
        right,
        end,
    } = halves(s, head.end);
    ClauseAt {
        terms,
        arity: head.count,
        guard,
        body,
        right: (head.count <= codes::MOST_ARITY) & right,
        semicolon: place::byte_at(s, end) == read_goal::SEMICOLON,
        next: text_names::after_mark(s, end),
    }
}
