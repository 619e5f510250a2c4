// Refusal 5, NAME: what a record names, and where a clause stands, in the order of the definitions.
#![tactic(auto)]

ghost use Rattle.std.specs.Prelude.{◌≡◌, cond, ◌+◌, ◌*◌, ◌<◌, ◌≤◌, ℕ, length, eqb, IfSome, MatchOption};
ghost use Rattle.std.specs.Bool.{then_some};
ghost use Rattle.parlog.specs.Image.{byte_at, equality, number_of, literal_end, literals_end, stages_end, goal_end, body_at};
ghost use Rattle.parlog.specs.Load.{block_with};
ghost use Rattle.parlog.specs.Names.{arity_of, term_named, terms_named, relation_named, literal_named, literals_named, stages_named, goal_named, follows, clause_placed, clause_inside, names_right};
ghost use Rattle.load_names.specs.Reading.{GoalsIn, kind_number, word_of};

use parlog::{Progress, Term, codes};

// The kinds of records of an image, each as its number there.
// Kept, `Progress.kind`, `load_body::body_of` and `index_fill::note` have the number: the definitions `kind_fault` and `progressed` order and copy it, and docs/ARCHITECTURE.md names both functions, which take any number.
#[derive(Clone, Copy)]
pub enum Kind {
    Relation = codes::RELATION_KIND as isize,
    Clause = codes::CLAUSE_KIND as isize,
    Goal = codes::GOAL_KIND as isize,
}

impl Kind {
    // The kind that a number is, if it is one.
    pub fn of(number: usize) -> Option<Kind>
        ensures { MatchOption result ((number ≡ 1 → ⊥) × (number ≡ 2 → ⊥) × (number ≡ 3 → ⊥)) (λ k. kind_number k ≡ number) }
    {
        match number {
            codes::RELATION_KIND => Some(Kind::Relation),
            codes::CLAUSE_KIND => Some(Kind::Clause),
            codes::GOAL_KIND => Some(Kind::Goal),
            _ => None,
        }
    }

    // The number that it is.
    pub fn number(self) -> usize
        ensures { result ≡ kind_number self }
    {
        self as usize
    }
}

// What is known where a record is read: the image, where the record stands there, what those before it have shown, and the arities of their relations.
#[derive(Clone, Copy)]
pub struct Known<'a> {
    pub image: &'a [u8],
    pub at: usize,
    pub before: Progress,
    pub arities: &'a [u8; codes::ARITIES],
    pub ghost near: { at ≤ 32768 },
    pub ghost told: { (k : ℕ) → k < before.relations → byte_at arities.now k ≡ arity_of image.now k },
    pub ghost relations: { before.relations ≤ 32 },
}

// The number that a term is in an image. Kept, no `From`: it would be the same match, in crate parlog, which has the type.
fn word_of(t: Term) -> usize
    requires { number_of t ≤ 32767 }
    ensures { result ≡ word_of t }
{
    match t {
        Term::Const(c) => c as usize,
        Term::Var(v) => codes::FIRST_VARIABLE + v as usize,
    }
}

// NAME: a term that is a variable is below the count; one comparison, since constants have the lower numbers.
fn term_named(vars: usize, t: Term) -> bool
    requires { (number_of t ≤ 32767) × (vars ≤ 255) }
    ensures { result ≡ term_named vars t }
{
    word_of(t) < codes::FIRST_VARIABLE + vars
}

// NAME: each of n terms is.
fn terms_named(s: &[u8], vars: usize, n: usize, from: usize) -> bool
    requires { (n ≤ 255) × (from ≤ 1073741824) × (vars ≤ 255) × (from + 2 * n ≤ length s.now) }
    ensures { result ≡ terms_named s.now vars n from }
{
    let mut at = from;
    for _ in 0..n {
        let t = place::term_in(s, at);
        if !term_named(vars, t) {
            return false;
        }
        at += codes::TERM_SIZE;
    }
    true
}

// NAME: one of the relations, with its arity, which the table has.
fn relation_named(known: &Known, r: usize, a: usize) -> bool
    ensures { result ≡ relation_named known.now.image.now known.now.before.relations r a }
{
    if r < known.before.relations {
        return a == usize::from(known.arities[r]);
    }
    false
}

// NAME, literals: relation 255 with arity 2 is equality.
fn relation_called(known: &Known, r: usize, a: usize) -> bool
    ensures { result ≡ cond (eqb r equality) (eqb a 2) (relation_named known.now.image.now known.now.before.relations r a) }
{
    if r == codes::EQUALITY {
        return a == codes::EQUALITY_ARITY;
    }
    relation_named(known, r, a)
}

// NAME, literals: the relation, then the terms.
fn literal_named(known: &Known, vars: usize, at: usize) -> bool
    requires { (vars ≤ 255) × (at ≤ 536870912) × (literal_end known.now.image.now at ≤ length known.now.image.now) }
    ensures { result ≡ literal_named known.now.image.now known.now.before.relations vars at }
{
    let r = place::byte_in(known.image, at);
    let a = place::byte_in(known.image, at + codes::LITERAL_ARITY);
    if !relation_called(known, r, a) {
        return false;
    }
    terms_named(known.image, vars, a, at + codes::LITERAL_TERMS)
}

// NAME, literals: the place after n literals, if each is right. Kept, a walk of its own: `place::literals_end` says why.
fn literals_named(known: &Known, vars: usize, n: usize, from: usize) -> Option<usize>
    requires { (vars ≤ 255) × (n ≤ 255) × (from ≤ 402653184) × (literals_end known.now.image.now n from ≤ length known.now.image.now) }
    ensures { (result ≡ then_some (literals_named known.now.image.now known.now.before.relations vars n from) (literals_end known.now.image.now n from)) × IfSome result (λ e. e ≤ from + 512 * n) }
{
    let mut at = from;
    for _ in 0..n {
        if !literal_named(known, vars, at) {
            return None;
        }
        let a = place::byte_in(known.image, at + codes::LITERAL_ARITY);
        at = at + codes::LITERAL_TERMS + codes::TERM_SIZE * a;
    }
    Some(at)
}

// NAME, goals: the place after n stages, if each is right. Kept too, for the same reason.
fn stages_named(known: &Known, vars: usize, n: usize, from: usize) -> Option<usize>
    requires { (vars ≤ 255) × (n ≤ 255) × (from ≤ 268435456) × (stages_end known.now.image.now n from ≤ length known.now.image.now) }
    ensures { (result ≡ then_some (stages_named known.now.image.now known.now.before.relations vars n from) (stages_end known.now.image.now n from)) × IfSome result (λ e. e ≤ from + 130561 * n) }
{
    let mut at = from;
    for _ in 0..n {
        let k = place::byte_in(known.image, at);
        at = literals_named(known, vars, k, at + 1)?;
    }
    Some(at)
}

// NAME, goals: the place after a goal, if it is right.
fn goal_named(known: &Known, vars: usize, at: usize) -> Option<usize>
    requires { (vars ≤ 255) × (at ≤ 134217728) × (goal_end known.now.image.now at ≤ length known.now.image.now) }
    ensures { (result ≡ then_some (goal_named known.now.image.now known.now.before.relations vars at) (goal_end known.now.image.now at)) × IfSome result (λ e. e ≤ at + 33293056) }
{
    let n = place::byte_in(known.image, at);
    stages_named(known, vars, n, at + 1)
}

// ---- records

// The clause before was of the same relation.
pub fn follows(g: Progress, r: usize) -> bool
    ensures { result ≡ follows g r }
{
    (0 < g.clauses) & (g.relation == r)
}

// How many clauses the block has with one of this relation and mark.
pub fn block_with(g: Progress, r: usize, mark: usize) -> usize
    requires { g.block ≤ 8 }
    ensures { result ≡ block_with g r mark }
{
    if follows(g, r) & (mark == 0) {
        g.block + 1
    } else {
        1
    }
}

// NAME, kind 2: its relation is known with its arity and in order, and a relation's first clause has mark 0.
fn clause_placed(known: &Known) -> bool
    ensures { result ≡ clause_placed known.now.image.now known.now.before known.now.at }
{
    let at = known.at;
    let g = known.before;
    let r = place::byte_at(known.image, at + codes::CLAUSE_RELATION);
    let a = place::byte_at(known.image, at + codes::CLAUSE_ARITY);
    let m = place::byte_at(known.image, at + codes::CLAUSE_MARK);
    let first = follows(g, r) | (m == 0);
    relation_named(known, r, a) & ((g.relation <= r) & first)
}

// NAME, kind 2: the names in its head, guard and body.
fn clause_inside(known: &Known) -> bool
    requires { goal_end known.now.image.now (body_at known.now.image.now known.now.at) ≤ length known.now.image.now }
    ensures { result ≡ clause_inside known.now.image.now known.now.before.relations known.now.at }
{
    let at = known.at;
    let a = place::byte_at(known.image, at + codes::CLAUSE_ARITY);
    let v = place::byte_at(known.image, at + codes::CLAUSE_VARS);
    let head = terms_named(known.image, v, a, at + codes::CLAUSE_HEAD);
    let guard = at + codes::CLAUSE_HEAD + codes::TERM_SIZE * a;
    let Some(b) = goal_named(known, v, guard) else {
        return false;
    };
    head & goal_named(known, v, b).is_some()
}

// NAME, kind 3: the names in its goal.
fn ask_named(known: &Known) -> bool
    requires { goal_end known.now.image.now (known.now.at + 5) ≤ length known.now.image.now }
    ensures { result ≡ goal_named known.now.image.now known.now.before.relations (byte_at known.now.image.now (known.now.at + 4)) (known.now.at + 5) }
{
    let v = place::byte_at(known.image, known.at + codes::GOAL_VARS);
    goal_named(known, v, known.at + codes::GOAL_AT).is_some()
}

// 5, NAME.
pub fn names_right(known: &Known, kind: Kind) -> bool
    requires { GoalsIn known.now.image.now known.now.at (kind_number kind) }
    ensures { result ≡ names_right known.now.image.now known.now.before known.now.at (kind_number kind) }
{
    match kind {
        Kind::Relation => true,
        Kind::Clause => clause_placed(known) & clause_inside(known),
        Kind::Goal => ask_named(known),
    }
}
