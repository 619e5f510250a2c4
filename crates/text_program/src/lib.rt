// What a clause text means, and the text of an image, in specs/. There is nothing to run here but a number.
#![tactic(auto)]

// 17, UNDECLARED: a relation has no mode line, or the list lacks a name in use.
pub const UNDECLARED: u8 = 17;
