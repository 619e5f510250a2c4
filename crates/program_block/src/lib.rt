// The blocks of a relation's clauses in an image: their number by the index, the rest in one pass over the relation's clauses.
#![tactic(auto)]

ghost use Rattle.program_index.specs.Images.{program_in};
ghost use Rattle.std.specs.Prelude.{◌≡◌, ◌≤◌, length, get_or};
ghost use Rattle.parlog.specs.Program.{block_count, block_of};
ghost use Rattle.program_block.specs.Parts.{opens_by};
ghost use Rattle.program_index.specs.Indexed.{Behind, Early};

use parlog::codes;
use program_index::Image;

// Whether a clause opens a block of relation q: it is of q, and it comes after another relation's clause or has another mark than 0.
#[tactic(auto, unfolding(crate::specs::Parts::opens_by))]
pub fn opens(rel: usize, own: bool, mark: usize, q: usize) -> bool
    ensures { result ≡ opens_by rel own mark q }
{
    (rel == q) & !(own & (mark == 0))
}

// A clause before which none is of relation q.
fn from_of(image: &Image, q: usize) -> usize
    ensures { Early (program_in image.now) q result × (result ≤ image.now.clauses) }
{
    if q < image.relations {
        return image.first_of(q);
    }
    0
}

// A clause from which on none is.
fn to_of(image: &Image, q: usize) -> usize
    ensures { Behind (program_in image.now) q image.now.clauses result × (result ≤ image.now.clauses) }
{
    if q < image.relations {
        return image.behind_of(q);
    }
    image.clauses
}

// The blocks of a relation: how many, and of one block the number of its clauses and a clause.
#[derive(Clone, Copy)]
pub struct Blocks {
    pub count: usize,
    pub size: usize,
    pub clause: usize,
}

// One pass over the clauses of relation q, for its block b and clause j there.
fn block_scan(image: &Image, q: usize, b: u8, j: usize) -> Blocks
    ensures { (result.count ≡ block_count (program_in image.now) q) × (result.size ≡ length (block_of (program_in image.now) q b)) × (result.clause ≡ get_or (block_of (program_in image.now) q b) j 255) × (result.count ≤ 64) × (result.size ≤ 64) × (result.clause ≤ 255) }
{
    let next = usize::from(b) + 1;
    let to = to_of(image, q);
    let mut own = false;
    let mut count = 0;
    let mut size = 0;
    let mut clause = 255;
    let from = from_of(image, q);
    for k in from..to {
        let at = image.record_at(image.relations + k);
        let rel = place::byte_at(image.bytes, at + codes::CLAUSE_RELATION);
        let mark = place::byte_at(image.bytes, at + codes::CLAUSE_MARK);
        let new = opens(rel, own, mark, q);
        count = program_clause::more(new, count);
        let there = (rel == q) & (count == next);
        clause = program_clause::found(there, size, j, k, clause);
        size = program_clause::more(there, size);
        own = rel == q;
    }
    Blocks {
        count,
        size,
        clause,
    }
}

// The number of blocks of relation q.
pub fn block_count(image: &Image, q: usize) -> usize
    ensures { (result ≡ block_count (program_in image.now) q) × (result ≤ 64) }
{
    if q < image.relations {
        return image.blocks_of(q);
    }
    let x = block_scan(image, q, 0, 0);
    x.count
}

// The number of clauses of block b of relation q.
pub fn block_size(image: &Image, q: usize, b: u8) -> usize
    ensures { (result ≡ length (block_of (program_in image.now) q b)) × (result ≤ 64) }
{
    let x = block_scan(image, q, b, 0);
    x.size
}

// Clause j of block b of relation q; 255 past the end.
pub fn block_clause(image: &Image, q: usize, b: u8, j: usize) -> usize
    ensures { (result ≡ get_or (block_of (program_in image.now) q b) j 255) × (result ≤ 255) }
{
    let x = block_scan(image, q, b, j);
    x.clause
}
