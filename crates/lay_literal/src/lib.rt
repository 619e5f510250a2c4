// The low bytes of numbers, laid into a row as far as there is room.
#![tactic(auto)]

ghost use Rattle.std.specs.Prelude.{true, [], ◌∷◌};
ghost use Rattle.lay_literal.specs.Lows.{lows};
ghost use Rattle.lay_text.specs.Laying.{Writes};
ghost use Rattle.text_program.specs.Encoded.{word_bytes};

use lay_text::To;

// How many numbers a byte has.
const BYTE: usize = 256;

// The lowest byte of a number.
pub fn number(out: &mut [u8], w: To, n: usize) -> To
    ensures { Writes out.old w (lows (n ∷ [])) true out.new result }
{
    lay_text::put(out, w, (n % BYTE) as u8)
}

// A number as two bytes.
// Kept, like `lay::put2`: `to_le_bytes` is of a `u16`, to which the number would have to be cut first, which is no plainer.
pub fn word(out: &mut [u8], w: To, n: usize) -> To
    ensures { Writes out.old w (lows (word_bytes n)) true out.new result }
{
    let a = number(out, w, n % BYTE);
    number(out, a, n / BYTE)
}
