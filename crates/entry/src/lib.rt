// The tests at a call's entry: the image first, then the table rules.
// Kept, head, processes and variables as three rows: the head of crate `bound` says why.
#![tactic(auto)]

ghost use Rattle.std.specs.Prelude.{◌≡◌};
ghost use Rattle.parlog.specs.Limits.{small};
ghost use Rattle.parlog.specs.Load.{refusal};
ghost use Rattle.parlog.specs.Tables.{lent};
ghost use Rattle.program_index.specs.Indexed.{IndexedOf};
ghost use Rattle.entry.specs.Entered.{EnterSays, InsideOf};

use parlog::{Answer, Refusal, codes};
use program_index::Image;

// The limits of a run.
pub const PROCS: usize = codes::MOST_PROCS;

pub const VARS: usize = codes::MOST_VARS;

// A refusal with this number; it has no offset.
// Kept, refusals by number, here and in all crates: docs/REFERENCE.md names them so, C is told the number, and what is promised of a call, `RefusesBy`, has the highest number that it may answer, so that an enum would be turned into its number at each place.
pub fn refusal(number: u8) -> Refusal
    ensures { result ≡ refusal number 0 }
{
    Refusal { number, offset: 0 }
}

// The image first, then the table rules: the counts of the program with its index, or the refusal.
pub fn enter(
    image: &[u8],
    head: &[u8],
    procs: &[u8],
    vars: &[u8],
    ix: &mut [u16; program_index::SIZE],
) -> Answer<(usize, usize)>
    ensures enter_says { EnterSays small image.now (lent head.now procs.now vars.now) result }
    ensures inside_of { InsideOf result small image.now (lent head.now procs.now vars.now) }
    ensures indexed_of { IndexedOf result image.now ix.new }
{
    let l = load::load_indexed(image, ix);
    // Kept in each call: docs/DECISIONS.md asks that each takes the load's answer apart by `let .. else`.
    let Ok((relations, clauses)) = l else {
        return l;
    };
    let accepted = Image {
        bytes: image,
        relations,
        clauses,
        index: ix,
    };
    if !table_rules::lent_ok(&accepted, head, procs, vars, PROCS, VARS) {
        return Err(refusal(codes::STATE));
    }
    Ok((relations, clauses))
}
