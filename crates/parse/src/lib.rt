// The call that reads a clause text: its image and its names in two lent rows, or a refusal that changes nothing.
#![tactic(auto)]

ghost use Rattle.std.specs.Prelude.{◌++◌, ◌≡◌, ◌<◌, ◌≤◌, length, Err};
ghost use Rattle.mode_table.specs.Held.{lines_in};
ghost use Rattle.name_index.specs.Index.{Indexed};
ghost use Rattle.parse.specs.Says.{fitted, ParseSays, Tells};
ghost use Rattle.parse.specs.Ways.{ask_tested, Behind, stop_as};
ghost use Rattle.read_names.specs.Tables.{mode_names, names_at};
ghost use Rattle.text_names.specs.Entries.{entries};
ghost use Rattle.text_program.specs.Parsing.{declared, sourced};
ghost use Rattle.text_program.specs.Source.{source_of};

use lay_text::To;
use mode_table::Relations;
use parlog::{Answer, Refusal, codes};
use take_clause::Next;
use take_modes::{Modes, Tables};
use take_term::Draft;

// 16, TEXT.
const TEXT: u8 = 16;

// Rows on the stack: an image has no more bytes than this.
const IMAGE: usize = 12800;

// One more than the constants of a text that passes 4, 5 and 6: 68 in each of 64 clauses, and 32 in the goal.
const CONSTANTS: usize = 4385;

// Their chains.
const CONSTANT_LINKS: usize = name_index::CHAINS + CONSTANTS;

// How long a row is.
fn room_of(row: &[u8]) -> usize
    ensures { (result ≡ length row.now) × (result < 18446744073709551615) }
{
    row.len()
}

// ---- what is written

// The bytes of an image and the names, where both rows have room; the constants are at the places of a table.
fn write(
    image: &mut [u8],
    names: &mut [u8],
    relations: &Relations,
    bytes: &[u8],
    consts: &[usize],
) -> Answer<(usize, usize)>
    requires { relations.now.lines.from ≤ length relations.now.text.now }
    ensures { Tells (fitted image.old names.old bytes.now (entries (mode_names (lines_in relations.now)) ++ entries (names_at relations.now.text.now consts.now))) result image.new names.new }
{
    let s = relations.text;
    let m = relations.lines.from;
    let i = room_of(image);
    let j = room_of(names);
    let size = room_of(bytes);
    let start = To { at: 0, named: true };
    let mut unseen = [0u8; 1];
    let a = lay_names::mode_names(&mut unseen, start, s, m);
    let b = lay_names::table_names(&mut unseen, a, s, consts);
    let short = (i < size) | (j < b.at);
    if short {
        return Err(Refusal {
            number: codes::ROOM,
            offset: 0,
        });
    }
    let e = lay_text::word(image, start, bytes);
    let f = lay_names::mode_names(names, start, s, m);
    let g = lay_names::table_names(names, f, s, consts);
    Ok((e.at, g.at))
}

// ---- what is refused

// 17 before 4 and 5 of the goal, whose record is at a place; 17 is told without one.
fn test_ask(known: bool, right: bool, fits: bool, at: usize) -> Answer<()>
    ensures { result ≡ ask_tested known right fits at }
{
    if !known {
        return Err(Refusal {
            number: text_program::UNDECLARED,
            offset: 0,
        });
    }
    if !right {
        return Err(Refusal {
            number: codes::BODY,
            offset: at,
        });
    }
    if !fits {
        return Err(Refusal {
            number: codes::NAME,
            offset: at,
        });
    }
    Ok(())
}

// A refusal with its number and its place, unless a call has no mode line.
fn stopped(declared: bool, number: u8, at: usize) -> Answer<(usize, usize)>
    ensures { result ≡ Err (stop_as declared number at) }
{
    if declared {
        return Err(Refusal { number, offset: at });
    }
    Err(Refusal {
        number: text_program::UNDECLARED,
        offset: 0,
    })
}

// ---- the text

// The clauses and the goal, behind mode lines that were taken.
fn clauses(
    image: &mut [u8],
    names: &mut [u8],
    relations: &Relations,
    mut draft: Draft,
    modes: Modes,
) -> Answer<(usize, usize)>
    requires { Behind relations.now.text.now draft.out.now relations.now.lines modes.rest modes.at modes.known × Indexed relations.now.text.now draft.consts.now draft.links.now 0 × (length draft.consts.now ≡ 4385) }
    ensures { Tells (sourced image.old names.old (declared (source_of relations.now.text.now)) (source_of relations.now.text.now)) result image.new names.new }
{
    let s = relations.text;
    let first = Next {
        from: modes.rest,
        at: modes.at,
        consts: 0,
    };
    let r = take_text::clause_lines(relations, &mut draft, first, modes.known);
    if r.number != 0 {
        let behind = declared_calls::declared(
            s,
            relations.places,
            relations.links,
            relations.lines.from,
            relations.lines.count,
            r.end,
            r.left,
        );
        return stopped(r.declared & behind, r.number, r.at);
    }
    let q = read_clause::behind_arrow(s, r.end);
    let last = Next {
        from: q,
        at: r.at,
        consts: r.consts,
    };
    let a = take_clause::ask(relations, &mut draft, last);
    test_ask(r.declared & a.declared, a.right, a.fits, r.at)?;
    let Draft { out, consts, .. } = draft;
    write(image, names, relations, &out[..a.at], &consts[..a.consts])
}

// A text that is spelled right.
fn spelled(image: &mut [u8], names: &mut [u8], s: &[u8]) -> Answer<(usize, usize)>
    ensures { Tells (sourced image.old names.old (declared (source_of s.now)) (source_of s.now)) result image.new names.new }
{
    let m = text_names::skip_blanks(s, 0);
    let mut out = [0u8; IMAGE];
    let mut consts = [0; CONSTANTS];
    let mut links = [0u16; CONSTANT_LINKS];
    let mut places = [0; codes::MOST_RELATIONS];
    let mut arities = [0; codes::MOST_RELATIONS];
    let mut chains = [0u16; take_modes::LINKS];
    let mut tables = Tables {
        places: &mut places,
        arities: &mut arities,
        links: &mut chains,
    };
    match take_modes::mode_lines(s, m, &mut out, &mut tables) {
        Err(refused) => {
            // No constant is numbered here, so that their table is free for the names of relations.
            let behind = declared_calls::declared_behind(s, m, &mut consts, &mut links);
            stopped(behind, refused.number, refused.offset)
        }
        Ok(modes) => {
            let relations = Relations {
                text: s,
                places: &places,
                arities: &arities,
                links: &chains,
                lines: modes.lines,
            };
            let draft = Draft {
                out: &mut out,
                consts: &mut consts,
                links: &mut links,
            };
            clauses(image, names, &relations, draft, modes)
        }
    }
}

// The image and the names of a text, in two lent rows.
pub fn parse(image: &mut [u8], names: &mut [u8], text: &[u8]) -> Answer<(usize, usize)>
    ensures { ParseSays image.old names.old text.now result image.new names.new }
{
    match spell::spelling(text) {
        Ok(()) => spelled(image, names, text),
        Err(offset) => Err(Refusal {
            number: TEXT,
            offset,
        }),
    }
}
