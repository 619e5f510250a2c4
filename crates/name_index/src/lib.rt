// Names of a text by their numbers in a table of places, found in chains by a sum of their bytes.
#![tactic(auto)]

ghost use Rattle.std.specs.Prelude.{◌≡◌, ◌%◌, ◌*◌, ◌+◌, ◌<◌, ◌≤◌, drop, length, take};
ghost use Rattle.std.proofs.Props.{props};
ghost use Rattle.name_index.specs.Index.{AddsOne, chain_of, Indexed, Spells};
ghost use Rattle.read_names.specs.Tables.{names_at};
ghost use Rattle.text_names.specs.Bytes.{front};
ghost use Rattle.text_names.specs.Names.{FoundAt};

// How many chains there are.
// Kept: chains in lent rows, since a map would need a heap, and the project has none.
pub const CHAINS: usize = 512;

// By what a sum is multiplied for each byte.
const FACTOR: usize = 31;

// Where a name ends, and its chain.
#[derive(Clone, Copy)]
pub struct Word {
    pub end: usize,
    pub chain: usize,
}

// How many names there are now, and the number of the one that was added.
#[derive(Clone, Copy)]
pub struct Added {
    pub count: usize,
    pub number: usize,
}

// ---- names

// The chain of a name with one more byte.
fn chained(h: usize, b: usize) -> usize
    requires { (h < 512) × (b ≤ 255) }
    ensures { (result ≡ (h * 31 + b) % 512) × (result < 512) }
{
    (h * FACTOR + b) % CHAINS
}

// The name at a place.
// Kept, that the place is in the text, here and at `add`: the head of crate `read_goal` says why places stay apart from their text.
pub fn name_at(s: &[u8], at: usize) -> Word
    requires { at ≤ length s.now }
    ensures { Spells s.now at result }
{
    let mut h = 0;
    for i in at..s.len() {
        let b = place::byte_in(s, i);
        if !text_names::is_name(b) {
            return Word { end: i, chain: h };
        }
        h = chained(h, b);
    }
    Word {
        end: s.len(),
        chain: h,
    }
}

// Names of a text at the first places of a table, each once, with their chains.
#[derive(Clone, Copy)]
pub struct Table<'a> {
    pub text: &'a [u8],
    pub places: &'a [usize],
    pub links: &'a [u16],
    pub count: usize,
    pub ghost indexed: { Indexed text.now places.now links.now count } by { Prim.hlevel props },
}

impl<'a> Table<'a> {
    // The number of the name at q, which is in a chain.
    // Kept: place and chain apart, here and in `add`: a struct of both would hold the text too, and each function would ask that it is the table's.
    #[tactic(auto, using(crate::proofs::Chains::in_links))]
    pub fn find(&self, q: usize, chain: usize) -> Option<usize>
        requires { (q ≤ length self.now.text.now) × (chain ≡ chain_of (front (drop q self.now.text.now))) }
        ensures { FoundAt (names_at self.now.text.now (take self.now.count self.now.places.now)) (front (drop q self.now.text.now)) result }
    {
        let mut k = usize::from(self.links[chain]);
        while 0 < k {
            let i = k - 1;
            let p = read_names::within(self.text, self.places[i]);
            if text_names::same_name(self.text, p, q) {
                return Some(i);
            }
            k = usize::from(self.links[CHAINS + i]);
        }
        None
    }
}

// The name at q among them, if it is new and there is room.
// Kept, two lent rows and a count: they lie in a `take_term::Draft` with a `Reading`, in `take_modes::Tables` with what is known, and in rows of declared_calls, so that each caller would make a struct of them for this one call.
#[tactic(auto, using(crate::proofs::Chains::in_links))]
pub fn add(
    s: &[u8],
    places: &mut [usize],
    links: &mut [u16],
    n: usize,
    q: usize,
    chain: usize,
) -> Added
    requires { (q ≤ length s.now) × (chain ≡ chain_of (front (drop q s.now))) × Indexed s.now places.old links.old n }
    ensures { AddsOne s.now places.old links.old n (front (drop q s.now)) places.new links.new result }
{
    let table = Table {
        text: s,
        places,
        links,
        count: n,
    };
    if let Some(number) = table.find(q, chain) {
        return Added { count: n, number };
    }
    if n < places.len() {
        places[n] = q;
        links[CHAINS + n] = links[chain];
        links[chain] = (n + 1) as u16;
        return Added {
            count: n + 1,
            number: n,
        };
    }
    Added {
        count: n,
        number: n,
    }
}
