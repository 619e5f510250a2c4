// The mode lines of a text taken in one pass: names and arities into tables, records into a row, each line tested.
#![tactic(auto)]

ghost use Rattle.std.specs.Prelude.{false, true, ◌≡◌, ◌<◌, ◌≤◌, leb, drop, length, take};
ghost use Rattle.judge_text.specs.Tests.{tested};
ghost use Rattle.lay.specs.Lay.{laid};
ghost use Rattle.lay_literal.specs.Lows.{lows};
ghost use Rattle.name_index.specs.Index.{chain_of, Indexed};
ghost use Rattle.read_goal.specs.Spans.{Spans};
ghost use Rattle.read_names.specs.Tables.{names_at};
ghost use Rattle.take_modes.specs.Lent.{Same};
ghost use Rattle.take_modes.specs.TakesModes.{EntersLine, modes_front, one_more, ReadsLine, TakesModes, told_by};
ghost use Rattle.text_names.specs.Bytes.{front};
ghost use Rattle.text_names.specs.Names.{look};
ghost use Rattle.text_program.specs.Source.{read_brackets, read_mode, row};

use lay_text::To;
use mode_table::Lines;
use name_index::Table;
use parlog::{Answer, Progress, Refusal, codes};
use read_goal::Span;

// The mark of an output argument.
const OUTPUT: usize = b'^' as usize;

// The mode lines in the tables, the place behind them in the text and that behind their records, and what is known there.
#[derive(Clone, Copy)]
pub struct Modes {
    pub lines: Lines,
    pub rest: usize,
    pub at: usize,
    pub known: Progress,
}

// How many numbers serve for the chains of any mode lines: how many chains there are, and how many names there may be.
pub const LINKS: usize = name_index::CHAINS + codes::MOST_RELATIONS;

// Mode lines in tables: the places of their names with their chains, and how many modes each has.
#[derive(Drop)]
pub struct Tables<'a> {
    pub places: &'a mut [usize],
    pub arities: &'a mut [usize],
    pub links: &'a mut [u16],
}

// A mode line: the place of its name, the name's chain, the place behind the line, and how many modes it has.
#[derive(Clone, Copy)]
pub struct Line {
    pub name: usize,
    pub chain: usize,
    pub end: usize,
    pub count: usize,
}

// The mode at a place.
fn mode(s: &[u8], at: usize) -> usize
    ensures { result ≡ (read_mode (drop at s.now)).value }
{
    if place::byte_at(s, at) == OUTPUT {
        1
    } else {
        0
    }
}

// Modes with a comma between them, laid into the row.
// Kept, a loop beside `read_names::modes` and a row with a place: the other loop lays nothing, and the bytes are laid by lay_literal, which takes a row and a place; the front of the record comes before them, and later.
// Kept here, at `brackets`, `read_line` and `mode_lines`, that the place is in the text: the head of crate `read_goal` says why.
fn marks(out: &mut [u8], w: To, s: &[u8], at: usize) -> Span
    requires { at ≤ length s.now }
    ensures { Spans s.now (row read_mode 44 (drop at s.now)).rest (length (row read_mode 44 (drop at s.now)).value) true result × (out.new ≡ laid out.old w.at (lows (row read_mode 44 (drop at s.now)).value)) }
{
    let mut to = w;
    let mut q = at;
    let most = s.len() - at;
    for n in 0..most {
        to = lay_literal::number(out, to, mode(s, q));
        q = text_names::after_mark(s, q);
        if place::byte_at(s, q) != read_goal::COMMA {
            return Span {
                end: q,
                count: n + 1,
                right: true,
            };
        }
        q = text_names::after_mark(s, q);
    }
    Span {
        end: q,
        count: most,
        right: true,
    }
}

// Modes in brackets, or no brackets.
fn brackets(out: &mut [u8], w: To, s: &[u8], at: usize) -> Span
    requires { at ≤ length s.now }
    ensures { Spans s.now (read_brackets read_mode (drop at s.now)).rest (length (read_brackets read_mode (drop at s.now)).value) true result × (out.new ≡ laid out.old w.at (lows (read_brackets read_mode (drop at s.now)).value)) }
{
    if place::byte_at(s, at) != read_goal::OPEN {
        return Span {
            end: at,
            count: 0,
            right: true,
        };
    }
    let from = text_names::after_mark(s, at);
    let inner = marks(out, w, s, from);
    let close = inner.end;
    Span {
        end: text_names::after_mark(s, close),
        count: inner.count,
        right: true,
    }
}

// The mode line at a place, whose record begins at another place of the row.
fn read_line(s: &[u8], out: &mut [u8], p: usize, at: usize) -> Line
    requires { (p ≤ length s.now) × (at ≤ 16384) }
    ensures { ReadsLine s.now p out.old at out.new result }
{
    let name = read_goal::past_name(s, p);
    let word = name_index::name_at(s, name);
    let open = text_names::skip_blanks(s, word.end);
    let w = To {
        at: at + codes::RELATION_MODES,
        named: true,
    };
    let inner = brackets(out, w, s, open);
    let close = inner.end;
    Line {
        name,
        chain: word.chain,
        end: text_names::after_mark(s, close),
        count: inner.count,
    }
}

// The tests of a mode line.
fn test_line(s: &[u8], tables: &Tables, g: Progress, line: Line) -> Result<Progress, u8>
    requires { (line.name ≤ length s.now) × (line.chain ≡ chain_of (front (drop line.name s.now))) × Indexed s.now tables.now.places.now tables.now.links.now g.relations × (g.relations ≤ 32) }
    ensures { result ≡ tested (leb 32 g.relations) (leb line.count 4) (leb g.relations (look (names_at s.now (take g.relations tables.now.places.now)) (front (drop line.name s.now)))) false (one_more g) }
{
    let n = g.relations;
    let names = Table {
        text: s,
        places: tables.places,
        links: tables.links,
        count: n,
    };
    let fresh = names.find(line.name, line.chain).is_none();
    let next = Progress {
        relations: n + 1,
        kind: codes::RELATION_KIND,
        ..g
    };
    judge_text::verdict(
        codes::MOST_RELATIONS <= n,
        line.count <= codes::MOST_ARITY,
        fresh,
        false,
        next,
    )
}

// The bytes of a relation's record before its modes.
fn begin(out: &mut [u8], at: usize, count: usize)
    requires { count ≤ 4 }
    ensures { out.new ≡ laid out.old at (lows (modes_front count)) }
{
    let w = To { at, named: true };
    let a = lay_literal::word(out, w, codes::RELATION_MODES + count);
    let b = lay_literal::word(out, a, codes::RELATION_KIND);
    lay_literal::number(out, b, count);
}

// A new mode line into the tables, as number n.
fn enter(s: &[u8], tables: &mut Tables, n: usize, line: Line)
    requires { (line.name ≤ length s.now) × (line.chain ≡ chain_of (front (drop line.name s.now))) × Indexed s.now tables.old.places.now tables.old.links.now n × (n < length tables.old.places.now) × (length tables.old.arities.now ≡ length tables.old.places.now) × (n ≤ look (names_at s.now (take n tables.old.places.now)) (front (drop line.name s.now))) }
    ensures lent { Same tables.old tables.new }
    ensures entered { EntersLine s.now (front (drop line.name s.now)) line.count tables.old.places.now tables.old.arities.now n tables.new.places.now tables.new.arities.now tables.new.links.now }
{
    name_index::add(s, tables.places, tables.links, n, line.name, line.chain);
    tables.arities[n] = line.count;
}

// What is told of the mode lines.
fn told(m: usize, p: usize, g: Progress, at: usize) -> Modes
    ensures { result ≡ told_by m p g at }
{
    Modes {
        lines: Lines {
            from: m,
            count: g.relations,
        },
        rest: p,
        at,
        known: g,
    }
}

// The mode lines from a place on, up to the first that is refused.
pub fn mode_lines(s: &[u8], m: usize, out: &mut [u8], tables: &mut Tables) -> Answer<Modes>
    requires { (m ≤ length s.now) × (32 ≤ length tables.old.places.now) × (length tables.old.arities.now ≡ length tables.old.places.now) × Indexed s.now tables.old.places.now tables.old.links.now 0 }
    ensures lent { Same tables.old tables.new }
    ensures taken { TakesModes s.now m out.old out.new tables.new.places.now tables.new.arities.now tables.new.links.now result }
{
    let mut p = m;
    let mut at = 0;
    let mut g = Progress {
        relations: 0,
        clauses: 0,
        kind: 0,
        relation: 0,
        block: 0,
    };
    for _ in m..s.len() {
        if !read_names::is_mode_line(s, p) {
            return Ok(told(m, p, g, at));
        }
        let line = read_line(s, out, p, at);
        let n = g.relations;
        match test_line(s, tables, g, line) {
            Err(number) => return Err(Refusal { number, offset: at }),
            Ok(next) => g = next,
        }
        enter(s, tables, n, line);
        begin(out, at, line.count);
        at = at + codes::RELATION_MODES + line.count;
        p = line.end;
    }
    Ok(told(m, p, g, at))
}
