// The runner's text in a lent row, written from its back to its front: each piece is put in front of what stands there.
#![tactic(auto)]

ghost use Rattle.std.specs.Prelude.{◌≤◌, length};

use parlog::{End, Refusal, Term};

// A lent row, and where the text in it begins, which ends with the row.
// Kept beside `Display`: the row is lent, so that it has no room to grow, and the text of a run is told from its end on, with the digits of a number in front of what follows.
#[derive(Drop)]
pub struct Text<'a> {
    pub out: &'a mut [u8],
    pub at: usize,
    pub ghost inside: { at ≤ length out.now },
}

impl<'a> Text<'a> {
    ghost use Rattle.std.specs.Prelude.{◌≡◌, ◌∷◌, ◌++◌, ◌≤◌, length};
    ghost use Rattle.parlog.specs.Text.{decimal, end_word, refused_text, term_text};
    ghost use Rattle.runner_text.specs.Fronting.{line_text, ran_text};
    ghost use Rattle.runner_text.specs.Writing.{Fronts, standing};

    // No text yet, at a row's end.
    pub fn new(out: &'a mut [u8]) -> Self
        ensures row { (result.out.ghost_name ≡ out.entry.ghost_name) × (result.out.now ≡ out.old) }
        ensures start { result.at ≡ length out.old }
    {
        let at = out.len();
        Text { out, at }
    }

    // One byte.
    fn put(&mut self, byte: u8)
        requires { 1 ≤ self.old.at }
        ensures { Fronts self.old 1 (byte ∷ standing self.old) self.new }
    {
        self.at -= 1;
        self.out[self.at] = byte;
    }

    // A word.
    fn word(&mut self, bytes: &[u8])
        requires { length bytes.now ≤ self.old.at }
        ensures { Fronts self.old (length bytes.now) (bytes.now ++ standing self.old) self.new }
    {
        let end = self.at;
        self.at = end - bytes.len();
        self.out[self.at..end].copy_from_slice(bytes);
    }

    // A number in decimal.
    fn number(&mut self, n: u64)
        requires { 20 ≤ self.old.at }
        ensures { Fronts self.old 20 (decimal n (standing self.old)) self.new }
    {
        self.at = itoa::write_digits(n, self.out, self.at);
    }

    // The end of a run, in its word.
    fn end_word(&mut self, end: End)
        requires { 7 ≤ self.old.at }
        ensures { Fronts self.old 7 (end_word end ++ standing self.old) self.new }
    {
        match end {
            End::Success => self.word(b"success"),
            End::Failure => self.word(b"failure"),
            End::Waiting => self.word(b"waiting"),
            End::Room => self.word(b"room"),
            End::Budget => self.word(b"budget"),
        }
    }

    // A value, and the end of its line.
    fn term(&mut self, t: Term)
        requires { 22 ≤ self.old.at }
        ensures { Fronts self.old 22 (term_text t ++ standing self.old) self.new }
    {
        self.put(b'\n');
        match t {
            Term::Const(c) => self.number(u64::from(c)),
            Term::Var(v) => {
                self.number(u64::from(v));
                self.put(b'_');
            }
        }
    }

    // The line of a goal variable.
    pub fn line(&mut self, v: usize, t: Term)
        requires { 49 ≤ self.old.at }
        ensures { Fronts self.old 49 (line_text v t ++ standing self.old) self.new }
    {
        self.term(t);
        self.word(b" = ");
        self.number(v as u64);
        self.word(b"var ");
    }

    // The lines of a run that come before its variables.
    pub fn ran(&mut self, end: End, steps: usize)
        requires { 39 ≤ self.old.at }
        ensures { Fronts self.old 39 (ran_text end steps (standing self.old)) self.new }
    {
        self.put(b'\n');
        self.end_word(end);
        self.word(b"\nend ");
        self.number(steps as u64);
        self.word(b"steps ");
    }

    // The one line of a refusal, where no text stands yet.
    pub fn refused(&mut self, r: Refusal)
        requires { (self.old.at ≡ length self.old.out.now) × (53 ≤ self.old.at) }
        ensures { Fronts self.old 53 (refused_text r) self.new }
    {
        self.put(b'\n');
        self.number(r.offset as u64);
        self.word(b" at ");
        self.number(u64::from(r.number));
        self.word(b"refused ");
    }
}
