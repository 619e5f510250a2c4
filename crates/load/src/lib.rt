// The image loader: the tests of a record in their order, and the records in file order.
#![tactic(auto)]

ghost use Rattle.std.specs.Prelude.{◌≡◌, false, true, ◌+◌, ◌<◌, ◌≤◌, ℕ, get_or, length, Err, IfSome, MatchOption};
ghost use Rattle.parlog.specs.Records.{kind_at, record_end};
ghost use Rattle.parlog.specs.Load.{kind_fault, too_many, block_full, progressed, records, nothing_read, refusal, load_of};
ghost use Rattle.load_body.specs.Reading.{place_of};
ghost use Rattle.load_names.specs.Reading.{kind_number};
ghost use Rattle.program_index.specs.Indexed.{blocks_from, IndexedOf};
ghost use Rattle.load.specs.Bounds.{Bounded, Next, Small};
ghost use Rattle.load.specs.Fields.{fields_verdict, record_verdict, refusal_of, told};

use load_names::{Kind, Known};
use parlog::{Answer, Progress, Refusal, codes};

// What is known before the first record.
const NOTHING_READ: Progress = Progress {
    relations: 0,
    clauses: 0,
    kind: 0,
    relation: 0,
    block: 0,
};

// 3, KIND: the kind of a record that may come behind those before it.
fn kind_after(g: Progress, number: usize) -> Option<Kind>
    ensures { MatchOption result (kind_fault g number ≡ true) (λ k. (kind_number k ≡ number) × (kind_fault g number ≡ false)) }
{
    let kind = Kind::of(number)?;
    let late = (number < g.kind) | (g.kind == codes::GOAL_KIND);
    (!late).then_some(kind)
}

// 6, MANY: 33rd relation, 65th clause.
fn too_many(g: Progress, kind: Kind) -> bool
    ensures { result ≡ too_many g (kind_number kind) }
{
    match kind {
        Kind::Relation => codes::MOST_RELATIONS <= g.relations,
        Kind::Clause => codes::MOST_CLAUSES <= g.clauses,
        Kind::Goal => false,
    }
}

// 6, MANY: 9th clause of a block.
fn block_full(known: &Known, kind: Kind) -> bool
    requires { known.now.before.block ≤ 8 }
    ensures { result ≡ block_full known.now.image.now known.now.before known.now.at (kind_number kind) }
{
    let Kind::Clause = kind else {
        return false;
    };
    let r = place::byte_at(known.image, known.at + codes::CLAUSE_RELATION);
    let m = place::byte_at(known.image, known.at + codes::CLAUSE_MARK);
    codes::MOST_BLOCK < load_names::block_with(known.before, r, m)
}

// What is known after the record.
fn progressed(known: &Known, kind: Kind) -> Progress
    requires small { Small known.now.before }
    requires few { too_many known.now.before (kind_number kind) ≡ false }
    requires room { block_full known.now.image.now known.now.before known.now.at (kind_number kind) ≡ false }
    ensures value { result ≡ progressed known.now.image.now known.now.before known.now.at (kind_number kind) }
    ensures small { Small result }
{
    let g = Progress {
        kind: kind.number(),
        ..known.before
    };
    match kind {
        Kind::Relation => Progress {
            relations: g.relations + 1,
            ..g
        },
        Kind::Clause => {
            let relation = place::byte_at(known.image, known.at + codes::CLAUSE_RELATION);
            let mark = place::byte_at(known.image, known.at + codes::CLAUSE_MARK);
            Progress {
                clauses: g.clauses + 1,
                relation,
                block: load_names::block_with(known.before, relation, mark),
                ..g
            }
        }
        Kind::Goal => g,
    }
}

// The tests of a record's fields, 4, 5, and the ninth-clause part of 6: what is known after it, and where the body of a clause begins.
fn test_fields(known: &Known, kind: Kind) -> Result<(Progress, usize), u8>
    requires small { Small known.now.before }
    requires inside { record_end known.now.image.now known.now.at ≤ length known.now.image.now }
    requires few { too_many known.now.before (kind_number kind) ≡ false }
    ensures { (result ≡ told (fields_verdict known.now.image.now known.now.before known.now.at (kind_number kind)) (place_of known.now.image.now known.now.at (kind_number kind))) × Next result }
{
    let body = load_body::body_of(known.image, known.at, kind.number()).ok_or(codes::BODY)?;
    if !load_names::names_right(known, kind) {
        return Err(codes::NAME);
    }
    if block_full(known, kind) {
        return Err(codes::MANY);
    }
    Ok((progressed(known, kind), body))
}

// The tests of a record, 2, 3, 6, then those of its fields.
fn test_record(known: &Known) -> Result<(Progress, usize), u8>
    requires { Small known.now.before }
    ensures { (result ≡ told (record_verdict known.now.image.now known.now.before known.now.at) (place_of known.now.image.now known.now.at (kind_at known.now.image.now known.now.at))) × Next result }
{
    if records::cut(known.image, known.at) {
        return Err(codes::CUT);
    }
    let number = records::kind_at(known.image, known.at);
    let kind = kind_after(known.before, number).ok_or(codes::KIND)?;
    if too_many(known.before, kind) {
        return Err(codes::MANY);
    }
    test_fields(known, kind)
}

// A refusal with its number and offset.
fn refused(number: u8, offset: usize) -> Answer<(usize, usize)>
    ensures { result ≡ Err (refusal number offset) }
{
    Err(Refusal { number, offset })
}

// Records in file order, each noted in the index once it has passed its tests.
fn records(s: &[u8], ix: &mut [u16; program_index::SIZE]) -> Answer<(usize, usize)>
    requires { (length s.now ≤ 32768) × ((k : ℕ) → k < 96 → get_or ix.old (blocks_from + k) 0 ≡ 0) }
    ensures value { result ≡ records s.now (length s.now) 0 nothing_read }
    ensures bounded { Bounded (length s.now) result }
    ensures indexed_of { IndexedOf result s.now ix.new }
{
    let n = s.len();
    let mut arities = [0; codes::ARITIES];
    let mut at = 0;
    let mut g = NOTHING_READ;
    while at < n {
        let end = records::end_at(s, at);
        let known = Known {
            image: s,
            at,
            before: g,
            arities: &arities,
        };
        let (next, body) = match test_record(&known) {
            Ok(passed) => passed,
            Err(number) => return refused(number, at),
        };
        arities[g.relations] = place::byte_at(s, at + codes::RELATION_ARITY) as u8;
        ix[g.relations + g.clauses] = at as u16;
        index_fill::note(s, g, at, next.kind, body, ix);
        g = next;
        at = end;
    }
    if g.kind == codes::GOAL_KIND {
        Ok((g.relations, g.clauses))
    } else {
        refused(codes::NOGOAL, n)
    }
}

// The answer to an image: its counts, with the index of its program, or the first refusal.
pub fn load_indexed(image: &[u8], ix: &mut [u16; program_index::SIZE]) -> Answer<(usize, usize)>
    ensures value { result ≡ load_of image.now }
    ensures bounded { Bounded (length image.now) result }
    ensures indexed_of { IndexedOf result image.now ix.new }
{
    if codes::MOST_BYTES < image.len() {
        return refused(codes::LONG, 0);
    }
    index_fill::clear(ix);
    records(image, ix)
}

// The number by which the first record is refused, if it is; none too where the image has no record or is too long.
fn first_refusal(s: &[u8]) -> Option<u8>
    ensures { IfSome result (λ n. (load_of s.now ≡ Err (refusal n 0)) × (1 ≤ n) × (n ≤ 7)) }
{
    if s.is_empty() | (codes::MOST_BYTES < s.len()) {
        return None;
    }
    let arities = [0; codes::ARITIES];
    let known = Known {
        image: s,
        at: 0,
        before: NOTHING_READ,
        arities: &arities,
    };
    test_record(&known).err()
}

// The same for who needs no index: it is the same pass, but that no row is set up for it where the first record is refused.
pub fn load(image: &[u8]) -> Answer<(usize, usize)>
    ensures value { result ≡ load_of image.now }
    ensures bounded { Bounded (length image.now) result }
{
    if let Some(number) = first_refusal(image) {
        return refused(number, 0);
    }
    let mut ix = [0u16; program_index::SIZE];
    load_indexed(image, &mut ix)
}

// The refusal that an answer holds.
// Kept, a number for none: docs/DECISIONS.md, "Required forms", asks for `let .. else` where a call takes an answer apart, and its else branch has no name for what an Err holds.
pub fn refusal(l: Answer<(usize, usize)>) -> Refusal
    ensures { result ≡ refusal_of l }
{
    match l {
        Ok(_) => Refusal {
            number: 0,
            offset: 0,
        },
        Err(r) => r,
    }
}
