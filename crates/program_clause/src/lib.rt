// The records of an image, read where they stand: modes of relations, fields of clauses. Total, with the definitions' defaults past the end.
#![tactic(auto)]

ghost use Rattle.program_index.specs.Images.{program_in};
ghost use Rattle.std.specs.Prelude.{◌≡◌, [], ◌+◌, ◌≤◌, ◌&&◌, cond, eqb, length, get_or};
ghost use Rattle.parlog.specs.declared.Term.TheVariants.{Const};
ghost use Rattle.parlog.specs.Scan.{list_of, those};
ghost use Rattle.parlog.specs.Image.{byte_at, term_at, term_end, mode_end, record_end};
ghost use Rattle.parlog.specs.Program.{modes_of, clause_at, modes_at, vars_of};
ghost use Rattle.program_clause.specs.Parts.{is_out};

use parlog::{Term, codes};
use program_index::Image;

// ---- relations

// A row of modes: how many, and where.
#[derive(Clone, Copy)]
pub struct Row {
    pub n: usize,
    pub at: usize,
}

// The modes of relation q.
pub fn modes_of(image: &Image, q: usize) -> Row
    ensures { (list_of (byte_at image.now.bytes.now) mode_end result.n result.at ≡ get_or (list_of (modes_of image.now.bytes.now) (record_end image.now.bytes.now) image.now.relations 0) q []) × (result.n ≤ 255) × (result.at ≤ 16777216) }
{
    if image.relations <= q {
        return Row { n: 0, at: 0 };
    }
    let rec = image.record_at(q);
    let n = place::byte_at(image.bytes, rec + codes::RELATION_ARITY);
    Row {
        n,
        at: rec + codes::RELATION_MODES,
    }
}

// The number of arguments of relation q.
pub fn mode_count(image: &Image, q: usize) -> usize
    ensures { (result ≡ length (modes_at (program_in image.now) q)) × (result ≤ 255) }
{
    let ms = modes_of(image, q);
    ms.n
}

// The mode of its argument i.
pub fn mode_of(image: &Image, q: usize, i: usize) -> usize
    ensures { (result ≡ get_or (modes_at (program_in image.now) q) i 0) × (result ≤ 255) }
{
    let ms = modes_of(image, q);
    let n = ms.n;
    let at = ms.at;
    if n <= i {
        return 0;
    }
    place::byte_at(image.bytes, at + i)
}

// ---- scans by number

// One more where the test holds.
pub fn more(test: bool, n: usize) -> usize
    requires { n ≤ 255 }
    ensures { (result ≡ cond test (n + 1) n) × (result ≤ n + 1) }
{
    n + usize::from(test)
}

// Number k where it passes the test and is the j-th that does; else what was found before.
pub fn found(test: bool, count: usize, j: usize, k: usize, old: usize) -> usize
    requires { (k ≤ 255) × (old ≤ 255) }
    ensures { (result ≡ cond (test && eqb count j) k old) × (result ≤ 255) }
{
    if test & (count == j) { k } else { old }
}

// The outputs in a row of modes: how many, and the number of one.
#[derive(Clone, Copy)]
pub struct Outs {
    pub count: usize,
    pub number: usize,
}

// The outputs among n modes at a place, and the number of output j.
pub fn outs_of(s: &[u8], n: usize, at: usize, j: usize) -> Outs
    requires { (n ≤ 255) × (at ≤ 16777216) }
    ensures { (result.count ≡ length (those (is_out s.now at) n)) × (result.number ≡ get_or (those (is_out s.now at) n) j 0) × (result.count ≤ n) × (result.number ≤ 255) }
{
    let mut count = 0;
    let mut number = 0;
    for k in 0..n {
        let out = place::byte_at(s, at + k) != 0;
        number = found(out, count, j, k, number);
        count = more(out, count);
    }
    Outs { count, number }
}

// ---- the fields of clause k

// The relation; that of equality past the end.
// Kept apart from `clause_vars`: one function for both would take the field and the default beside these two, and call no less.
pub fn clause_relation(image: &Image, k: usize) -> usize
    ensures { (result ≡ (clause_at (program_in image.now) k).rel) × (result ≤ 255) }
{
    if image.clauses <= k {
        return codes::EQUALITY;
    }
    let at = image.record_at(image.relations + k);
    place::byte_at(image.bytes, at + codes::CLAUSE_RELATION)
}

// The number of its own variables.
pub fn clause_vars(image: &Image, k: usize) -> usize
    ensures { (result ≡ (clause_at (program_in image.now) k).vars) × (result ≤ 255) }
{
    if image.clauses <= k {
        return 0;
    }
    let at = image.record_at(image.relations + k);
    place::byte_at(image.bytes, at + codes::CLAUSE_VARS)
}

// The new variables of clause k: its own, and one for each output argument.
pub fn vars_of(image: &Image, k: usize) -> usize
    ensures { (result ≡ vars_of (program_in image.now) k) × (result ≤ 510) }
{
    if image.clauses <= k {
        return 0;
    }
    image.vars_at(k)
}

// Term k of n terms at a place.
pub fn term_of(s: &[u8], n: usize, at: usize, k: usize) -> Term
    requires { (n ≤ 255) × (at ≤ 268435456) }
    ensures { result ≡ get_or (list_of (term_at s.now) term_end n at) k (Const 0) }
{
    if k < n {
        return place::term_at(s, at + codes::TERM_SIZE * k);
    }
    Term::Const(0)
}

// Head term i.
pub fn head_term(image: &Image, k: usize, i: usize) -> Term
    ensures { result ≡ get_or (clause_at (program_in image.now) k).head i (Const 0) }
{
    if image.clauses <= k {
        return Term::Const(0);
    }
    let at = image.record_at(image.relations + k);
    let n = place::byte_at(image.bytes, at + codes::CLAUSE_ARITY);
    term_of(image.bytes, n, at + codes::CLAUSE_HEAD, i)
}

// ---- the goal's record

// The number of the goal's variables.
pub fn goal_vars(image: &Image) -> usize
    ensures { (result ≡ (program_in image.now).goal_vars) × (result ≤ 255) }
{
    let at = image.record_at(image.relations + image.clauses);
    place::byte_at(image.bytes, at + codes::GOAL_VARS)
}
