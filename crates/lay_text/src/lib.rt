// Text laid into a lent row as far as there is room: bytes, words, and names of a names row.
#![tactic(auto)]

ghost use Rattle.std.specs.Prelude.{true, [], ◌∷◌, ◌≡◌, ◌+◌, ◌<◌, ◌≤◌, length};
ghost use Rattle.lay.specs.Lay.{laid};
ghost use Rattle.lay_text.specs.Laying.{most, Writes};

use entry_table::Names;

// How far a text has come: the place, and whether the names row had all its names.
#[derive(Clone, Copy)]
pub struct To {
    pub at: usize,
    pub named: bool,
}

// One byte into the row.
fn store(out: &mut [u8], at: usize, byte: u8)
    ensures { out.new ≡ laid out.old at (byte ∷ []) }
{
    if at < out.len() {
        out[at] = byte;
    }
}

// A part of a row, as far as there is room.
// Byte by byte: `copy_from_slice` over a length that is known at run time alone would have the archive need `memmove` of the C library.
fn copy(out: &mut [u8], at: usize, part: &[u8])
    ensures { out.new ≡ laid out.old at part.now }
{
    if at < out.len() {
        let n = part.len().min(out.len() - at);
        for k in 0..n {
            out[at + k] = part[k];
        }
    }
}

// ---- a row and a place

// Kept beside `Writer` for lay_names, lay_literal and parse: those that call them keep a row's place among other numbers, as `take_term::Reading` does, so that a writer, which holds the row, is no plainer there.

// One byte of text.
pub fn put(out: &mut [u8], w: To, byte: u8) -> To
    ensures { Writes out.old w (byte ∷ []) true out.new result }
{
    store(out, w.at, byte);
    To {
        at: w.at.saturating_add(1),
        ..w
    }
}

// A word.
pub fn word(out: &mut [u8], w: To, bytes: &[u8]) -> To
    ensures { Writes out.old w bytes.now true out.new result }
{
    copy(out, w.at, bytes);
    To {
        at: w.at.saturating_add(bytes.len()),
        ..w
    }
}

// ---- a writer

// A lent row, and how far the text in it has come.
// What it holds is so by its types: the row's length and the place are numbers.
#[derive(Drop)]
pub struct Writer<'a> {
    pub out: &'a mut [u8],
    pub to: To,
    pub ghost holds: { (length out.now ≤ most) × (to.at ≤ most) },
}

impl<'a> Writer<'a> {
    ghost use Rattle.lay_text.specs.Wrote.{Wrote};
    ghost use Rattle.text_names.specs.Entries.{entry_name, is_entry};

    // A text that begins in a row.
    pub fn new(out: &'a mut [u8]) -> Self
        ensures row { (result.out.ghost_name ≡ out.entry.ghost_name) × (result.out.now ≡ out.old) }
        ensures start { (result.to.at ≡ 0) × (result.to.named ≡ true) }
    {
        Writer {
            out,
            to: To { at: 0, named: true },
        }
    }

    // One byte of text.
    pub fn put(&mut self, byte: u8)
        ensures { Wrote self.old (byte ∷ []) true self.new }
    {
        store(self.out, self.to.at, byte);
        self.to.at = self.to.at.saturating_add(1);
    }

    // A word.
    pub fn word(&mut self, bytes: &[u8])
        ensures { Wrote self.old bytes.now true self.new }
    {
        copy(self.out, self.to.at, bytes);
        self.to.at = self.to.at.saturating_add(bytes.len());
    }

    // The name in entry k, and whether it is one.
    pub fn name(&mut self, names: &Names, k: usize)
        ensures { Wrote self.old (entry_name names.now.row.now k) (is_entry names.now.row.now k) self.new }
    {
        let from = names.find(k);
        let end = text_names::name_end(names.row, from);
        copy(self.out, self.to.at, &names.row[from..end]);
        let there = entry_table::is_name(names.row, from, end);
        self.to.at = self.to.at.saturating_add(end - from);
        self.to.named &= there;
    }
}
