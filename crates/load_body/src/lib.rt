// Refusal 4, BODY: what a record holds, field by field, in the order of the definitions.
#![tactic(auto)]

ghost use Rattle.std.specs.Prelude.{◌≡◌, ◌+◌, ◌*◌, ◌≤◌, IfSome};
ghost use Rattle.std.specs.Bool.{then_some};
ghost use Rattle.parlog.specs.Image.{body_at, byte_at, literals_end, stage_end, goal_end};
ghost use Rattle.parlog.specs.Body.{modes_range, literals_range, stage_range, goal_range, relation_body, clause_body, ask_body, body_right};
ghost use Rattle.load_body.specs.Reading.{place_of, stages_row};

use parlog::codes;

// Kept, modes of arguments and marks of clauses are numbers: here each is a byte of an image, held to its range, and has no other use.
// Kept, image and place with `at ≤ 32768` in the tests of a record: `body_of`, which docs/ARCHITECTURE.md names, is given both, and a struct made of them here would be taken apart again for each field.

// What is told for the body of a record that is no clause.
const NO_CLAUSE: usize = 1;

// BODY, kind 1: each of n modes is 0 or 1.
fn modes_range(s: &[u8], n: usize, from: usize) -> bool
    requires { (n ≤ 255) × (from ≤ 1073741824) }
    ensures { result ≡ modes_range s.now n from }
{
    (from..from + n).all(|at| place::byte_at(s, at) <= codes::MOST_MODE)
}

// BODY, literals: the place after n literals, if each has an arity of 0 to 4. Kept, a walk of its own: `place::literals_end` says why.
fn literals_range(s: &[u8], n: usize, from: usize) -> Option<usize>
    requires { (n ≤ 255) × (from ≤ 1073741824) }
    ensures { (result ≡ then_some (literals_range s.now n from) (literals_end s.now n from)) × IfSome result (λ e. e ≤ from + 10 * n) }
{
    let mut at = from;
    for _ in 0..n {
        let a = place::byte_at(s, at + codes::LITERAL_ARITY);
        if codes::MOST_ARITY < a {
            return None;
        }
        at = at + codes::LITERAL_TERMS + codes::TERM_SIZE * a;
    }
    Some(at)
}

// BODY, goals: the place after a stage, if it has at least 1 literal.
fn stage_range(s: &[u8], at: usize) -> Option<usize>
    requires { at ≤ 536870912 }
    ensures { (result ≡ then_some (stage_range s.now at) (stage_end s.now at)) × IfSome result (λ e. e ≤ at + 1 + 10 * byte_at s.now at) }
{
    let n = place::byte_at(s, at);
    if n == 0 {
        return None;
    }
    literals_range(s, n, at + 1)
}

// BODY, goals: the place after n stages, if they have at most 8 literals in all. Kept too: it sums the literals.
fn stages_range(s: &[u8], n: usize, from: usize) -> Option<usize>
    requires { (n ≤ 8) × (from ≤ 268435456) }
    ensures { (result ≡ stages_row s.now n from 0) × IfSome result (λ e. e ≤ from + 81 * n) }
{
    let mut at = from;
    let mut sum = 0;
    for _ in 0..n {
        sum += place::byte_at(s, at);
        if codes::MOST_LITERALS < sum {
            return None;
        }
        at = stage_range(s, at)?;
    }
    Some(at)
}

// BODY, goals: the place after a goal, if it has 0 to 8 stages.
fn goal_range(s: &[u8], at: usize) -> Option<usize>
    requires { at ≤ 134217728 }
    ensures { (result ≡ then_some (goal_range s.now at) (goal_end s.now at)) × IfSome result (λ e. e ≤ at + 649) }
{
    let n = place::byte_at(s, at);
    if codes::MOST_STAGES < n {
        return None;
    }
    stages_range(s, n, at + 1)
}

// BODY, kind 1: arity, modes, and the record's end.
fn relation_body(s: &[u8], at: usize) -> bool
    requires { at ≤ 32768 }
    ensures { result ≡ relation_body s.now at }
{
    let a = place::byte_at(s, at + codes::RELATION_ARITY);
    let w = place::word_at(s, at);
    let modes = modes_range(s, a, at + codes::RELATION_MODES);
    (a <= codes::MOST_ARITY) & (modes & (at + codes::RELATION_MODES + a == at + w))
}

// BODY, kind 2: arity, mark, variables, guard, body, and the record's end: where its body begins.
fn clause_body(s: &[u8], at: usize) -> Option<usize>
    requires { at ≤ 32768 }
    ensures { (result ≡ then_some (clause_body s.now at) (body_at s.now at)) × IfSome result (λ b. b ≤ at + 1167) }
{
    let a = place::byte_at(s, at + codes::CLAUSE_ARITY);
    let m = place::byte_at(s, at + codes::CLAUSE_MARK);
    let v = place::byte_at(s, at + codes::CLAUSE_VARS);
    let w = place::word_at(s, at);
    let b = goal_range(s, at + codes::CLAUSE_HEAD + codes::TERM_SIZE * a)?;
    let e = goal_range(s, b)?;
    let counts = (v <= codes::MOST_VARIABLES) & (e == at + w);
    ((a <= codes::MOST_ARITY) & ((m <= codes::MOST_MARK) & counts)).then_some(b)
}

// BODY, kind 3: variables, goal, and the record's end.
fn ask_body(s: &[u8], at: usize) -> bool
    requires { at ≤ 32768 }
    ensures { result ≡ ask_body s.now at }
{
    let v = place::byte_at(s, at + codes::GOAL_VARS);
    let w = place::word_at(s, at);
    let end = goal_range(s, at + codes::GOAL_AT);
    (v <= codes::MOST_VARIABLES) & (end == Some(at + w))
}

// 4, BODY: where a clause's body begins, 1 of another record; none where it is refused.
// Kept, the kind is a number: docs/ARCHITECTURE.md names this function, which takes any number, as the definition `body_right` does; `load_names::Kind` has three.
pub fn body_of(s: &[u8], at: usize, kind: usize) -> Option<usize>
    requires { at ≤ 32768 }
    ensures { (result ≡ then_some (body_right s.now at kind) (place_of s.now at kind)) × IfSome result (λ b. b ≤ at + 1167) }
{
    match kind {
        codes::RELATION_KIND => relation_body(s, at).then_some(NO_CLAUSE),
        codes::CLAUSE_KIND => clause_body(s, at),
        _ => ask_body(s, at).then_some(NO_CLAUSE),
    }
}
