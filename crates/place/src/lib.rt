// Reads of an image by places, total: a byte past the end is 0, and a place is where the fields lead.
#![tactic(auto)]

ghost use Rattle.std.specs.Prelude.{◌≡◌, ◌+◌, ◌*◌, ◌≤◌, ◌<◌, length};
ghost use Rattle.parlog.specs.Image.{byte_at, word_at, term_of, term_at, number_of, literals_end, stage_end, stages_end, goal_end};

use parlog::{Term, codes};

// The byte at i, or 0 past the end.
pub fn byte_at(s: &[u8], i: usize) -> usize
    ensures { (result ≡ byte_at s.now i) × (result ≤ 255) }
{
    if i < s.len() { byte_in(s, i) } else { 0 }
}

// Two bytes, little-endian; the usual case takes one test of the length.
pub fn word_at(s: &[u8], i: usize) -> usize
    requires { i ≤ 4294967296 }
    ensures { (result ≡ word_at s.now i) × (result ≤ 65535) }
{
    if i + 1 < s.len() {
        word_in(s, i)
    } else {
        byte_at(s, i)
    }
}

// Kept, pairs with and without a test: the load reads what BODY has passed by byte_in, word_in and term_in, which ask that the bytes are there, and all else reads by byte_at, word_at and term_at, which ask nothing.

// The same, of bytes that are there: no test.
pub fn byte_in(s: &[u8], i: usize) -> usize
    requires { i < length s.now }
    ensures { (result ≡ byte_at s.now i) × (result ≤ 255) }
{
    usize::from(s[i])
}

// The same, of bytes that are there: no test.
pub fn word_in(s: &[u8], i: usize) -> usize
    requires { i + 1 < length s.now }
    ensures { (result ≡ word_at s.now i) × (result ≤ 65535) }
{
    usize::from(u16::from_le_bytes([s[i], s[i + 1]]))
}

// The term that a number is. Kept, no `From`: it would be the same match, in crate parlog, which has the type.
fn term_of(w: usize) -> Term
    requires { w ≤ 65535 }
    ensures { (result ≡ term_of w) × (number_of result ≤ 32767) }
{
    let number = (w % codes::FIRST_VARIABLE) as u32;
    if w < codes::FIRST_VARIABLE {
        Term::Const(number)
    } else {
        Term::Var(number)
    }
}

// The term at a place.
pub fn term_at(s: &[u8], at: usize) -> Term
    requires { at ≤ 4294967296 }
    ensures { (result ≡ term_at s.now at) × (number_of result ≤ 32767) }
{
    term_of(word_at(s, at))
}

// The same, of bytes that are there: no test.
pub fn term_in(s: &[u8], at: usize) -> Term
    requires { (at ≤ 4294967296) × (at + 1 < length s.now) }
    ensures { (result ≡ term_at s.now at) × (number_of result ≤ 32767) }
{
    term_of(word_in(s, at))
}

// The place after n literals.
// Kept, walks of literals and of stages here, in load_body and in load_names: one for all would take its step as a closure, which may be called up to a bound of its own alone. This one has an end for all bytes, that of load_body stops at a fault, and that of load_names reads without a test of the length.
pub fn literals_end(s: &[u8], n: usize, from: usize) -> usize
    requires { (n ≤ 255) × (from ≤ 1073741824) }
    ensures { (result ≡ literals_end s.now n from) × (result ≤ from + 512 * n) }
{
    let mut at = from;
    for _ in 0..n {
        at = at + codes::LITERAL_TERMS + codes::TERM_SIZE * byte_at(s, at + codes::LITERAL_ARITY);
    }
    at
}

// The place after a stage: at most 130,561 bytes on.
// Kept, beside goal_end: one for both would take the walk behind the count as a closure, and be no shorter.
pub fn stage_end(s: &[u8], at: usize) -> usize
    requires { at ≤ 536870912 }
    ensures { (result ≡ stage_end s.now at) × (result ≤ at + 130561) }
{
    let n = byte_at(s, at);
    literals_end(s, n, at + 1)
}

// The place after n stages.
pub fn stages_end(s: &[u8], n: usize, from: usize) -> usize
    requires { (n ≤ 255) × (from ≤ 268435456) }
    ensures { (result ≡ stages_end s.now n from) × (result ≤ from + 130561 * n) }
{
    let mut at = from;
    for _ in 0..n {
        at = stage_end(s, at);
    }
    at
}

// The place after a goal.
pub fn goal_end(s: &[u8], at: usize) -> usize
    requires { at ≤ 134217728 }
    ensures { (result ≡ goal_end s.now at) × (result ≤ at + 33293056) }
{
    let n = byte_at(s, at);
    stages_end(s, n, at + 1)
}
