// Names and blanks where they stand in a text.
// Kept: a text and a place in it, which is at most its end, come as two (`name_end`, `skip_blanks`, `after_mark`, `same_name`). A struct of both is no plainer: each of these answers a place, which the caller keeps with others of the same text, and would need that struct made again.
#![tactic(auto)]

ghost use Rattle.std.specs.Prelude.{◌≡◌, ◌+◌, ◌-◌, ◌≤◌, drop, length};
ghost use Rattle.spell.specs.Forms.{in_span};
ghost use Rattle.text_names.specs.Bytes.{back, front, is_blank, is_capital, is_name, is_small, next, skip};
ghost use Rattle.text_names.specs.Names.{same_name};

// ---- bytes

// Bytes that stand in no row of others.
const UNDERSCORE: usize = b'_' as usize;

const RETURN: usize = b'\r' as usize;

const SPACE: usize = b' ' as usize;

// One of the bytes a to z.
// Kept, like the tests of letters: a byte comes as a number, as `place::byte_at` tells it; `is_ascii_lowercase` would need it as a byte again, which is no plainer.
fn in_span(a: u8, z: u8, b: usize) -> bool
    requires { a ≤ z }
    ensures { result ≡ in_span a (z - a) b }
{
    usize::from(a) <= b && b <= usize::from(z)
}

// A lower-case letter.
// Kept beside `is_capital`: one function for both would take their first and last letter, and is `in_span`.
#[tactic(auto, unfolding(crate::specs::Bytes::is_small))]
pub fn is_small(b: usize) -> bool
    ensures { result ≡ is_small b }
{
    in_span(b'a', b'z', b)
}

// An upper-case letter.
#[tactic(auto, unfolding(crate::specs::Bytes::is_capital))]
pub fn is_capital(b: usize) -> bool
    ensures { result ≡ is_capital b }
{
    in_span(b'A', b'Z', b)
}

// A byte of a name: a lower-case letter in most cases.
#[tactic(auto, unfolding(crate::specs::Bytes::is_name))]
pub fn is_name(b: usize) -> bool
    ensures { result ≡ is_name b }
{
    if is_small(b) {
        return true;
    }
    is_capital(b) | (in_span(b'0', b'9', b) | (b == UNDERSCORE))
}

// A blank or a line end.
#[tactic(auto, unfolding(crate::specs::Bytes::is_blank))]
fn is_blank(b: usize) -> bool
    ensures { result ≡ is_blank b }
{
    in_span(b'\t', b'\n', b) || b == RETURN || b == SPACE
}

// ---- places

// The place behind the name at a place.
pub fn name_end(s: &[u8], from: usize) -> usize
    requires { from ≤ length s.now }
    ensures { (drop result s.now ≡ back (drop from s.now)) × (result ≤ length s.now) × (from ≤ result) }
{
    for i in from..s.len() {
        if !is_name(place::byte_in(s, i)) {
            return i;
        }
    }
    s.len()
}

// The place behind the blanks at a place.
pub fn skip_blanks(s: &[u8], from: usize) -> usize
    requires { from ≤ length s.now }
    ensures { (drop result s.now ≡ skip (drop from s.now)) × (result ≤ length s.now) }
{
    for i in from..s.len() {
        if !is_blank(place::byte_in(s, i)) {
            return i;
        }
    }
    s.len()
}

// The place behind a mark and the blanks there.
pub fn after_mark(s: &[u8], at: usize) -> usize
    requires { at ≤ length s.now }
    ensures { (drop result s.now ≡ next (drop at s.now)) × (result ≤ length s.now) }
{
    if at < s.len() {
        return skip_blanks(s, at + 1);
    }
    at
}

// The names at two places are the same.
// Kept: one pass over both names; `==` over two slices needs their ends first, which is a second pass.
pub fn same_name(s: &[u8], a: usize, b: usize) -> bool
    requires { (a ≤ length s.now) × (b ≤ length s.now) }
    ensures { result ≡ same_name (front (drop a s.now)) (front (drop b s.now)) }
{
    let mut i = a;
    let mut j = b;
    loop {
        let p = place::byte_at(s, i);
        let q = place::byte_at(s, j);
        if !is_name(p) {
            return !is_name(q);
        }
        if p != q {
            return false;
        }
        i += 1;
        j += 1;
    }
}
