// The mode lines of a text in tables, and a relation found there by its name.
#![tactic(auto)]

ghost use Rattle.std.specs.Prelude.{◌≡◌, ◌≤◌, drop, length};
ghost use Rattle.std.proofs.Props.{props};
ghost use Rattle.mode_table.specs.Moded.{Moded};
ghost use Rattle.name_index.specs.Index.{chain_of};
ghost use Rattle.read_names.specs.Tables.{Finds, modes_from};
ghost use Rattle.text_names.specs.Bytes.{front};

use name_index::Table;
use read_names::Entry;

// Where the mode lines begin, and how many there are.
#[derive(Clone, Copy)]
pub struct Lines {
    pub from: usize,
    pub count: usize,
}

// The relations of a text: the places of their names with their chains, how many modes each has, and where their lines are.
#[derive(Clone, Copy)]
pub struct Relations<'a> {
    pub text: &'a [u8],
    pub places: &'a [usize],
    pub arities: &'a [usize],
    pub links: &'a [u16],
    pub lines: Lines,
    pub ghost moded: { Moded text.now places.now arities.now links.now lines } by { Prim.hlevel props },
}

impl<'a> Relations<'a> {
    // The relation of the name at q, which is in a chain.
    pub fn find(&self, q: usize, chain: usize) -> Entry
        requires { (q ≤ length self.now.text.now) × (chain ≡ chain_of (front (drop q self.now.text.now))) }
        ensures { Finds (modes_from self.now.text.now self.now.lines.from) (front (drop q self.now.text.now)) result }
    {
        let names = Table {
            text: self.text,
            places: self.places,
            links: self.links,
            count: self.lines.count,
        };
        match names.find(q, chain) {
            Some(number) => Entry {
                number,
                arity: Some(self.arities[number]),
            },
            None => Entry {
                number: names.count,
                arity: None,
            },
        }
    }
}
