// Records one after the other, whatever they hold: what each begins with, and whether it is cut.
#![tactic(auto)]

ghost use Rattle.std.specs.Prelude.{◌≡◌, ◌+◌, ◌≤◌};
ghost use Rattle.parlog.specs.Records.{record_end, kind_at, cut};

use parlog::codes;

// Where the record ends.
pub fn end_at(s: &[u8], at: usize) -> usize
    requires { at ≤ 2147483648 }
    ensures { (result ≡ record_end s.now at) × (result ≤ at + 65535) }
{
    at + place::word_at(s, at)
}

// What the record is.
pub fn kind_at(s: &[u8], at: usize) -> usize
    requires { at ≤ 2147483648 }
    ensures { (result ≡ kind_at s.now at) × (result ≤ 65535) }
{
    place::word_at(s, at + codes::RECORD_KIND)
}

// 2, CUT.
pub fn cut(s: &[u8], at: usize) -> bool
    requires { at ≤ 2147483648 }
    ensures { result ≡ cut s.now at }
{
    let w = place::word_at(s, at);
    let n = s.len();
    (n < at + codes::RECORD_BODY) | ((w < codes::RECORD_BODY) | (n < at + w))
}
