// Bytes written one behind the other into a lent row, as far as there is room: the writers never fail and tell the place behind what they wrote.
#![tactic(auto)]

ghost use Rattle.std.specs.Prelude.{[], ◌∷◌, ◌≤◌};
ghost use Rattle.lay.specs.Lay.{four, Lays, two};

// One byte.
// Kept beside `lay_text::put`: a place here has a bound, so that one is added; the place of a text has none and stops at the greatest number.
pub fn put(out: &mut [u8], at: usize, byte: u8) -> usize
    requires { at ≤ 4294967296 }
    ensures { Lays out.old out.new at (byte ∷ []) result }
{
    if at < out.len() {
        out[at] = byte;
    }
    at + 1
}

// The two low bytes of a number, the lowest first.
// Kept: `to_le_bytes` is of a `u16`, to which a number of any size would have to be cut first, which is no plainer.
pub fn put2(out: &mut [u8], at: usize, number: usize) -> usize
    requires { at ≤ 4294967295 }
    ensures { Lays out.old out.new at (two number) result }
{
    let next = put(out, at, (number % 256) as u8);
    put(out, next, (number / 256 % 256) as u8)
}

// The four low bytes of a number, the lowest first.
pub fn put4(out: &mut [u8], at: usize, number: usize) -> usize
    requires { at ≤ 4294967293 }
    ensures { Lays out.old out.new at (four number) result }
{
    let next = put2(out, at, number);
    put2(out, next, number / 65536)
}
