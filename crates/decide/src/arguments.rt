// The arguments of a call.

ghost use Rattle.std.specs.Prelude.{◌≤◌};

use parlog::Term;

// The first of four, each with its mode, their variables numbered from base.
// Kept, modes as numbers, 0 for an input: an image has a byte for each, and the definitions (`is_input`, `out_count`) read it.
#[derive(Clone, Copy)]
pub struct Call {
    pub arity: usize,
    pub modes: [u8; 4],
    pub args: [Term; 4],
    pub base: u16,
    pub ghost few: { arity ≤ 4 },
}
