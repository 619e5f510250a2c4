// The filling of the index, record by record, as the load passes them.
#![tactic(auto)]

ghost use Rattle.std.specs.Prelude.{◌≡◌, cond, ◌+◌, ◌≤◌, ◌<◌, ℕ, eqb, get_or};
ghost use Rattle.parlog.specs.Records.{byte_at};
ghost use Rattle.program_index.specs.Indexed.{blocks_from, index_size};
ghost use Rattle.index_fill.specs.Filling.{Fits, Kept, note_clause, noted, put_clause, vars_word};

use parlog::{Progress, codes};

// How many words the relations have.
const RELATION_WORDS: usize = 96;

// Nothing is known of the relations yet.
pub fn clear(ix: &mut [u16; program_index::SIZE])
    ensures { ((k : ℕ) → k < 96 → get_or ix.new (blocks_from + k) 0 ≡ 0) × Kept blocks_from index_size ix.old ix.new }
{
    ix[program_index::BLOCKS..program_index::BLOCKS + RELATION_WORDS].fill(0);
}

// ---- a clause

// Its new variables: its own, and one for each output argument of its relation, whose record is given too.
fn vars_of(s: &[u8], at: usize, rec: usize) -> usize
    requires { (at ≤ 32768) × (rec ≤ 65535) }
    ensures { (result ≡ vars_word s.now at rec) × (result ≤ 510) }
{
    let n = place::byte_at(s, rec + codes::RELATION_ARITY);
    let outs = program_clause::outs_of(s, n, rec + codes::RELATION_MODES, 0);
    let count = outs.count;
    let v = place::byte_at(s, at + codes::CLAUSE_VARS);
    v + count
}

// The first clause of its relation: this one where none was before it.
fn first_of(behind: usize, first: usize, k: usize) -> usize
    ensures { result ≡ cond (eqb behind 0) k first }
{
    if behind == 0 { k } else { first }
}

// The words of clause k and of its relation q.
fn put_clause(
    ix: &mut [u16; program_index::SIZE],
    k: usize,
    q: usize,
    vars: usize,
    body: usize,
    blocks: usize,
    first: usize,
)
    requires { (k < 64) × (q < 32) × (vars ≤ 65535) × (body ≤ 65535) × (blocks ≤ 65535) × (first ≤ 65535) }
    ensures { ix.new ≡ put_clause ix.old k q vars body blocks first }
{
    ix[program_index::VARS + k] = vars as u16;
    ix[program_index::BODIES + k] = body as u16;
    ix[program_index::BLOCKS + q] = blocks as u16;
    ix[program_index::FIRST + q] = first as u16;
    ix[program_index::BEHIND + q] = (k + 1) as u16;
}

// The clause at a place, with what was known before it and where its body begins.
fn note_clause(s: &[u8], g: Progress, at: usize, body: usize, ix: &mut [u16; program_index::SIZE])
    requires { Fits s.now g at body ix.old }
    ensures { (ix.new ≡ note_clause s.now g at body ix.old) × (vars_word s.now at (get_or ix.old (byte_at s.now (at + 4)) 0) ≤ 510) }
{
    let q = place::byte_at(s, at + codes::CLAUSE_RELATION);
    let mark = place::byte_at(s, at + codes::CLAUSE_MARK);
    let own = load_names::follows(g, q);
    let new = program_block::opens(q, own, mark, q);
    let rec = usize::from(ix[q]);
    let x = usize::from(ix[program_index::BLOCKS + q]);
    let f = usize::from(ix[program_index::FIRST + q]);
    let b = usize::from(ix[program_index::BEHIND + q]);
    let vars = vars_of(s, at, rec);
    let blocks = program_clause::more(new, x);
    let first = first_of(b, f, g.clauses);
    put_clause(ix, g.clauses, q, vars, body, blocks, first);
}

// ---- a record

// The record at a place, of this kind: only a clause changes more than the places.
pub fn note(
    s: &[u8],
    g: Progress,
    at: usize,
    kind: usize,
    body: usize,
    ix: &mut [u16; program_index::SIZE],
)
    requires { kind ≡ 2 → Fits s.now g at body ix.old }
    ensures { (ix.new ≡ noted kind s.now g at body ix.old) × (kind ≡ 2 → vars_word s.now at (get_or ix.old (byte_at s.now (at + 4)) 0) ≤ 510) }
{
    if kind == codes::CLAUSE_KIND {
        note_clause(s, g, at, body, ix);
    }
}
