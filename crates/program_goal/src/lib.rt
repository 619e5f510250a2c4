// The goals of an image, their stages and literals, read where they stand, and the tags that they call for.
#![tactic(auto)]

ghost use Rattle.program_index.specs.Images.{program_in};
ghost use Rattle.std.specs.Prelude.{◌≡◌, cond, [], ◌+◌, ◌*◌, ◌≤◌, ◌<◌, eqb, length, get_or};
ghost use Rattle.parlog.specs.Codes.{kind_of};
ghost use Rattle.parlog.specs.Image.{body_at, byte_at, guard_at, record_at, term_at};
ghost use Rattle.parlog.specs.Named.{tag_named};
ghost use Rattle.parlog.specs.Program.{no_literal, equation, literal_of, goal_by, stage_at, literal_at, tag_of_literal, tag_of_stage, tag_of_goal, body_tag, clause_at, committed_body, is_split, split_by};
ghost use Rattle.program_goal.specs.Parts.{shown, front, goal_in, Near, stages_of, relation_tag, splits_with};

use parlog::cases::Tag;
use parlog::{Spot, Term, codes};
use program_clause::Outs;
use program_index::Image;

// A literal: its relation, its arity, and the arguments that it may have, those past its arity 0.
#[derive(Clone, Copy)]
pub struct Lit {
    pub rel: usize,
    pub arity: usize,
    pub args: [Term; codes::MOST_ARITY],
}

// ---- literals in the image

// What stands past the end.
// Kept, no `Default`: its relation is that of equality, which is not 0.
#[tactic(auto, unfolding(crate::specs::Parts::shown))]
fn none() -> Lit
    ensures { (result ≡ shown no_literal) × (result.rel ≤ 255) }
{
    Lit {
        rel: codes::EQUALITY,
        arity: 0,
        args: [Term::Const(0); codes::MOST_ARITY],
    }
}

// The literal at a place.
fn literal_here(s: &[u8], at: usize) -> Lit
    requires { at ≤ 268435000 }
    ensures { (result ≡ shown (literal_of s.now at)) × (result.rel ≤ 255) }
{
    let rel = place::byte_at(s, at);
    let n = place::byte_at(s, at + codes::LITERAL_ARITY);
    let first = at + codes::LITERAL_TERMS;
    let a = program_clause::term_of(s, n, first, 0);
    let b = program_clause::term_of(s, n, first, 1);
    let c = program_clause::term_of(s, n, first, 2);
    let d = program_clause::term_of(s, n, first, 3);
    Lit {
        rel,
        arity: n,
        args: [a, b, c, d],
    }
}

// Literal j of stage i of n stages at a place.
fn literal_in(s: &[u8], n: usize, at: usize, i: usize, j: usize) -> Lit
    requires { (n ≤ 255) × (at ≤ 134217728) }
    ensures { (result ≡ shown (get_or (get_or (stages_of s.now n at) i []) j no_literal)) × (result.rel ≤ 255) }
{
    if n <= i {
        return none();
    }
    let st = place::stages_end(s, i, at);
    let m = place::byte_at(s, st);
    if m <= j {
        return none();
    }
    let l = place::literals_end(s, j, st + 1);
    literal_here(s, l)
}

// One output equation.
#[tactic(auto, unfolding(crate::specs::Parts::shown))]
fn equation(t: Term, v: usize) -> Lit
    requires { v ≤ 4096 }
    ensures { (result ≡ shown (equation t v)) × (result.rel ≤ 255) }
{
    Lit {
        rel: codes::EQUALITY,
        arity: 2,
        args: [t, Term::Var(v as u32), Term::Const(0), Term::Const(0)],
    }
}

// ---- where a goal stands

// The stages of a goal: how many, and where; for a committed body also its clause, whose output equations come first.
// Kept, the bounds of its places (`Near`) in each contract: the laws of where a goal stands (`home_by`, `home-clause` and others in proofs/Homes) make such places of any size, and were not proved with a bound as a part.
// Kept, a flag beside the clause: `literal_at` reads the clause where j is the number of an equation, which says that there is one, and would open an Option there again.
#[derive(Clone, Copy)]
pub struct Home {
    pub stages: usize,
    pub at: usize,
    pub body: bool,
    pub clause: usize,
}

// The place of the guard of clause k, whose record stands at a place, or of its body.
// Kept, by number, like `goal_home`: the kind is a raw number of a row, and each byte has a meaning (docs/ARCHITECTURE.md, of `kind_of`).
fn part_place(image: &Image, k: usize, clause: usize, kind: u8) -> usize
    requires { (k < image.now.clauses) × (clause ≡ record_at image.now.bytes.now (image.now.relations + k)) × (clause ≤ 65535) }
    ensures { (result ≡ cond (eqb kind 1) (guard_at image.now.bytes.now clause) (body_at image.now.bytes.now clause)) × (result ≤ 67108864) }
{
    if kind == codes::THE_GUARD {
        let arity = place::byte_at(image.bytes, clause + codes::CLAUSE_ARITY);
        return clause + codes::CLAUSE_HEAD + codes::TERM_SIZE * arity;
    }
    image.body_at(k)
}

// Clause k, whose record stands at a place, has an output argument, and there is more than one stage.
fn splits(image: &Image, k: usize, clause: usize, stages: usize) -> bool
    requires { (k < image.now.clauses) × (clause ≡ record_at image.now.bytes.now (image.now.relations + k)) × (clause ≤ 65535) }
    ensures { result ≡ splits_with (program_in image.now) k stages }
{
    let vars = image.vars_at(k);
    let own = place::byte_at(image.bytes, clause + codes::CLAUSE_VARS);
    (own < vars) & (1 < stages)
}

// The goal that kind and k name is the equations of a split clause.
pub fn split_by(image: &Image, kind: u8, k: u8) -> bool
    ensures { result ≡ split_by (kind_of kind) (program_in image.now) k }
{
    let number = k as usize;
    if (kind != codes::THE_BODY) | (image.clauses <= number) {
        return false;
    }
    let clause = image.record_at(image.relations + number);
    let at = image.body_at(number);
    let stages = place::byte_at(image.bytes, at);
    splits(image, number, clause, stages)
}

// The stages that stand behind the equations: none where the body runs beside them.
fn stages_left(apart: bool, stages: usize) -> usize
    ensures { (result ≡ cond apart 0 stages) × (result ≤ stages) }
{
    if apart { 0 } else { stages }
}

// The goal that kind and k name: the image's goal, the guard of clause k, its committed body, or its body as it is written.
fn goal_home(image: &Image, kind: u8, k: u8) -> Home
    ensures { (goal_by (kind_of kind) (program_in image.now) k ≡ goal_in image.now.bytes.now image.now.relations result) × Near result }
{
    if kind == codes::THE_GOAL {
        let at = image.record_at(image.relations + image.clauses) + codes::GOAL_AT;
        let stages = place::byte_at(image.bytes, at);
        return Home {
            stages,
            at: at + 1,
            body: false,
            clause: 0,
        };
    }
    let number = k as usize;
    if image.clauses <= number {
        return Home {
            stages: 0,
            at: 0,
            body: false,
            clause: 0,
        };
    }
    let clause = image.record_at(image.relations + number);
    let at = part_place(image, number, clause, kind);
    let stages = place::byte_at(image.bytes, at);
    let body = kind == codes::THE_BODY;
    let apart = body & splits(image, number, clause, stages);
    Home {
        stages: stages_left(apart, stages),
        at: at + 1,
        body,
        clause,
    }
}

// The output equations that come before stage i: how many, and the number of the argument of equation j.
fn outs_before(image: &Image, h: Home, i: usize, j: usize) -> Outs
    requires { Near h }
    ensures { (result.count ≡ length (front h.body i image.now.bytes.now image.now.relations h.clause)) × ((j < result.count) → equation (term_at image.now.bytes.now (h.clause + 8 + 2 * result.number)) (byte_at image.now.bytes.now (h.clause + 7) + j) ≡ get_or (front h.body i image.now.bytes.now image.now.relations h.clause) j no_literal) × (result.count ≤ 255) × (result.number ≤ 255) }
{
    let clause = h.clause;
    if !(h.body & (i == 0)) {
        return Outs {
            count: 0,
            number: 0,
        };
    }
    let q = place::byte_at(image.bytes, clause + codes::CLAUSE_RELATION);
    let m = place::byte_at(image.bytes, clause + codes::CLAUSE_ARITY);
    let ms = program_clause::modes_of(image, q);
    program_clause::outs_of(image.bytes, m.min(ms.n), ms.at, j)
}

// ---- reads of a goal where it stands

// Literal j of its stage i.
fn literal_at(image: &Image, h: Home, i: usize, j: usize) -> Lit
    requires { Near h }
    ensures { (result ≡ shown (get_or (get_or (goal_in image.now.bytes.now image.now.relations h) i []) j no_literal)) × (result.rel ≤ 255) }
{
    let outs = outs_before(image, h, i, j);
    let count = outs.count;
    let number = outs.number;
    let clause = h.clause;
    if j < count {
        let t = place::term_at(
            image.bytes,
            clause + codes::CLAUSE_HEAD + codes::TERM_SIZE * number,
        );
        let v = place::byte_at(image.bytes, clause + codes::CLAUSE_VARS);
        return equation(t, v + j);
    }
    let stages = h.stages;
    let at = h.at;
    literal_in(image.bytes, stages, at, i, j - count)
}

// The number of literals of its stage i.
fn stage_size_at(image: &Image, h: Home, i: usize) -> usize
    requires { Near h }
    ensures { (result ≡ length (get_or (goal_in image.now.bytes.now image.now.relations h) i [])) × (result ≤ 510) }
{
    let outs = outs_before(image, h, i, 0);
    let count = outs.count;
    let stages = h.stages;
    let at = h.at;
    if stages <= i {
        return count;
    }
    let st = place::stages_end(image.bytes, i, at);
    count + place::byte_at(image.bytes, st)
}

// A stage's size and the relation of one of its literals, that of equality past the end.
#[derive(Clone, Copy)]
pub struct Call {
    pub size: usize,
    pub rel: usize,
}

// Both for its stage i and literal j there.
fn called_at(image: &Image, h: Home, i: usize, j: usize) -> Call
    requires { Near h × (j ≤ 255) }
    ensures { (result.size ≡ length (get_or (goal_in image.now.bytes.now image.now.relations h) i [])) × (result.rel ≡ (get_or (get_or (goal_in image.now.bytes.now image.now.relations h) i []) j no_literal).rel) × (result.size ≤ 510) × (result.rel ≤ 255) }
{
    let outs = outs_before(image, h, i, j);
    let count = outs.count;
    let stages = h.stages;
    let at = h.at;
    if stages <= i {
        return Call {
            size: count,
            rel: codes::EQUALITY,
        };
    }
    let st = place::stages_end(image.bytes, i, at);
    let size = count + place::byte_at(image.bytes, st);
    if (j < count) | (size <= j) {
        return Call {
            size,
            rel: codes::EQUALITY,
        };
    }
    let l = place::literals_end(image.bytes, j - count, st + 1);
    let rel = place::byte_at(image.bytes, l);
    Call { size, rel }
}

// The number of its stages.
fn goal_size_at(image: &Image, h: Home) -> usize
    requires { Near h }
    ensures { (result ≡ length (goal_in image.now.bytes.now image.now.relations h)) × (result ≤ 255) }
{
    let stages = h.stages;
    if stages != 0 {
        return stages;
    }
    let outs = outs_before(image, h, 0, 0);
    let count = outs.count;
    if count == 0 { 0 } else { 1 }
}

// The tag of a literal of relation rel.
fn relation_tag(rel: usize) -> Tag
    ensures { tag_named result ≡ relation_tag rel }
{
    if rel == codes::EQUALITY {
        Tag::Equate
    } else {
        Tag::OrPar
    }
}

// The tag of its stage i.
fn stage_tag(image: &Image, h: Home, i: usize) -> Tag
    requires { Near h }
    ensures { tag_named result ≡ tag_of_stage (get_or (goal_in image.now.bytes.now image.now.relations h) i []) }
{
    let n = stage_size_at(image, h, i);
    if n != 1 {
        return Tag::AndPar;
    }
    let l = literal_at(image, h, i, 0);
    let rel = l.rel;
    relation_tag(rel)
}

// ---- goals by kind and clause

// The number of stages of the goal that kind and k name.
pub fn goal_size(image: &Image, kind: u8, k: u8) -> usize
    ensures { (result ≡ length (goal_by (kind_of kind) (program_in image.now) k)) × (result ≤ 255) }
{
    let h = goal_home(image, kind, k);
    goal_size_at(image, h)
}

// The tag of that goal.
pub fn tag_of_goal(image: &Image, kind: u8, k: u8) -> Tag
    ensures { tag_named result ≡ tag_of_goal (goal_by (kind_of kind) (program_in image.now) k) }
{
    let h = goal_home(image, kind, k);
    let n = goal_size_at(image, h);
    if n != 1 {
        return Tag::AndSeq;
    }
    stage_tag(image, h, 0)
}

// The tag of a process for the committed body of clause k.
pub fn tag_of_body(image: &Image, k: u8) -> Tag
    ensures { tag_named result ≡ body_tag (is_split (program_in image.now) (clause_at (program_in image.now) k)) (committed_body (program_in image.now) (clause_at (program_in image.now) k)) }
{
    if split_by(image, codes::THE_BODY, k) {
        return Tag::AndPar;
    }
    tag_of_goal(image, codes::THE_BODY, k)
}

// ---- the stage and the literal that a process names

// The number of literals of the stage.
pub fn stage_size(image: &Image, z: Spot) -> usize
    ensures { (result ≡ length (stage_at (program_in image.now) z)) × (result ≤ 510) }
{
    let h = goal_home(image, z.kind, z.clause);
    stage_size_at(image, h, z.stage as usize)
}

// That number, and the relation of the literal. The table rules alone ask this, of every row: with one caller it is compiled into their loop.
pub fn called(image: &Image, z: Spot) -> Call
    ensures { (result.size ≡ length (stage_at (program_in image.now) z)) × (result.rel ≡ (literal_at (program_in image.now) z).rel) × (result.rel ≤ 255) }
{
    let h = goal_home(image, z.kind, z.clause);
    let stage = z.stage as usize;
    let literal = z.literal as usize;
    called_at(image, h, stage, literal)
}

// The tag of the stage.
pub fn tag_of_stage(image: &Image, z: Spot) -> Tag
    ensures { tag_named result ≡ tag_of_stage (stage_at (program_in image.now) z) }
{
    let h = goal_home(image, z.kind, z.clause);
    stage_tag(image, h, z.stage as usize)
}

// The literal.
pub fn literal(image: &Image, z: Spot) -> Lit
    ensures { (result ≡ shown (literal_at (program_in image.now) z)) × (result.rel ≤ 255) }
{
    let h = goal_home(image, z.kind, z.clause);
    literal_at(image, h, z.stage as usize, z.literal as usize)
}

// The tag of the literal.
pub fn tag_of_literal(image: &Image, z: Spot) -> Tag
    ensures { tag_named result ≡ tag_of_literal (literal_at (program_in image.now) z) }
{
    let l = literal(image, z);
    let rel = l.rel;
    relation_tag(rel)
}
