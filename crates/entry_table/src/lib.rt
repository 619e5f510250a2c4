// Where the entries of a names row begin, noted in a lent table: each entry, or each second, fourth or eighth of a long row.
#![tactic(auto)]

ghost use Rattle.std.specs.Prelude.{◌&&◌, ◌≡◌, ◌*◌, ◌<◌, ◌≤◌, ℕ, eqb, drop, get_or, length};
ghost use Rattle.std.proofs.Props.{props};
ghost use Rattle.entry_table.specs.Entered.{Entered};
ghost use Rattle.text_names.specs.Bytes.{is_small};
ghost use Rattle.text_names.specs.Entries.{behind_entry, entry_from};

// What ends an entry.
pub const LINE_END: u8 = b'\n';

// How many places a table has: an odd number, so that the last one stays where each other one goes.
pub const PLACES: usize = 5121;

// How many places are left where each other one goes.
const HALF: usize = 2561;

// The most entries from one place to the next: 5121 places then reach farther than an image has names for.
const FARTHEST: usize = 8;

// How many entries lie from one noted place to the next, and how many places are noted.
// Kept beside a table with a count: a Vec of places would need a heap, and the project has none.
#[derive(Clone, Copy)]
pub struct Noted {
    pub every: usize,
    pub count: usize,
}

// A names row, and a table in which places of its entries are noted.
#[derive(Clone, Copy)]
pub struct Names<'a> {
    pub row: &'a [u8],
    pub table: &'a [usize],
    pub noted: Noted,
    pub ghost entered: { Entered row.now table.now noted.every noted.count } by { Prim.hlevel props },
}

// ---- walks

// Kept: a row and a place in it come as two (`entry_end`, `walk`), as in crate `text_names`; each answers a place.

// The place behind the entry at a place.
fn entry_end(s: &[u8], from: usize) -> usize
    requires { from < length s.now }
    ensures { (drop result s.now ≡ behind_entry (drop from s.now)) × (result ≤ length s.now) × (from < result) }
{
    for i in from..s.len() {
        if s[i] == LINE_END {
            return i + 1;
        }
    }
    s.len()
}

// The place behind k entries, or the end.
fn walk(s: &[u8], from: usize, k: usize) -> usize
    requires { from ≤ length s.now }
    ensures { (drop result s.now ≡ entry_from (drop from s.now) k) × (result ≤ length s.now) × (0 < k → from < length s.now → from < result) }
{
    let mut at = from;
    for _ in 0..k {
        if at == s.len() {
            return at;
        }
        at = entry_end(s, at);
    }
    at
}

// ---- filling

// Each other place of a full table.
fn thin(table: &mut [usize; PLACES])
    ensures { (k : ℕ) → k < 2561 → get_or table.new k 0 ≡ get_or table.old (2 * k) 0 }
{
    for k in 0..HALF {
        table[k] = table[2 * k];
    }
}

// The places of all entries, until the table is full. Each byte might end an entry, so the place behind it is noted, and counts if it does: no branch.
fn fill_each(table: &mut [usize; PLACES], names: &[u8]) -> usize
    ensures { Entered names.now table.new 1 result }
{
    table[0] = 0;
    let mut n = 1;
    for (i, b) in names.iter().enumerate() {
        if n == PLACES {
            return n;
        }
        table[n] = i + 1;
        n += usize::from(*b == LINE_END);
    }
    n
}

// More places behind the n that are noted, until the table is full.
fn fill_on(table: &mut [usize; PLACES], names: &[u8], every: usize, n: usize) -> usize
    requires { Entered names.now table.old every n }
    ensures { Entered names.now table.new every result }
{
    let mut at = table[n - 1];
    for count in n..PLACES {
        if at == names.len() {
            return count;
        }
        at = walk(names, at, every);
        table[count] = at;
    }
    PLACES
}

// The places of a row's entries.
pub fn fill(table: &mut [usize; PLACES], names: &[u8]) -> Noted
    ensures { Entered names.now table.new result.every result.count }
{
    let mut every = 1;
    let mut count = fill_each(table, names);
    while every < FARTHEST && count == PLACES {
        thin(table);
        every = 2 * every;
        count = fill_on(table, names, every, HALF);
    }
    Noted { every, count }
}

// ---- finding

// The noted place next before entry k.
fn nearest(every: usize, count: usize, k: usize) -> usize
    requires { (0 < every) × (0 < count) }
    ensures { (result < count) × (result * every ≤ k) }
{
    (k / every).min(count - 1)
}

impl<'a> Names<'a> {
    // A row with its places, noted in a lent table.
    pub fn new(table: &'a mut [usize; PLACES], row: &'a [u8]) -> Self
        ensures { result.row.now ≡ row.now }
    {
        let noted = fill(table, row);
        Names { row, table, noted }
    }

    // The place of entry k.
    pub fn find(&self, k: usize) -> usize
        ensures { (drop result self.now.row.now ≡ entry_from self.now.row.now k) × (result ≤ length self.now.row.now) }
    {
        let Noted { every, count } = self.noted;
        let q = nearest(every, count, k);
        walk(self.row, self.table[q], k - q * every)
    }
}

// The entry at a place of a names row is a lower-case name, which ends at another.
pub fn is_name(names: &[u8], at: usize, end: usize) -> bool
    ensures { result ≡ (is_small (get_or names.now at 0) && eqb (get_or names.now end 0) 10) }
{
    let small = text_names::is_small(place::byte_at(names, at));
    small & (place::byte_at(names, end) == usize::from(LINE_END))
}
