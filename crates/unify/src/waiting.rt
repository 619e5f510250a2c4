// What waits to be written, by value: bindings in the order made, and variables noted.

ghost use Rattle.std.specs.Prelude.{◌≡◌, ◌≤◌, take};
ghost use Rattle.std.proofs.Props.{props};
ghost use Rattle.parlog.specs.Delta.{four_of};

use parlog::{Change, Term, codes};

// Bindings that wait, in order: the first of the list.
#[derive(Clone, Copy)]
pub struct Changes {
    pub count: usize,
    pub list: [Change; codes::MOST_ARITY],
    pub ghost few: { count ≤ 4 },
}

impl Changes {
    ghost use Rattle.std.specs.Prelude.{◌≡◌, [], ◌∷◌, ◌++◌, ◌+◌, ◌<◌};
    ghost use Rattle.unify.specs.Pending.{pending};

    // Nothing waits.
    // Kept, no `Default`: a `Change` has none, since no term is the first.
    #[tactic(auto, unfolding(crate::specs::Pending::pending))]
    pub fn none() -> Changes
        ensures { (pending result ≡ []) × (result.count ≡ 0) }
    {
        let unused = Change {
            var: 0,
            to: Term::Const(0),
        };
        Changes {
            count: 0,
            list: [unused; codes::MOST_ARITY],
        }
    }

    // One more, behind the others.
    pub fn with(self, c: Change) -> Changes
        requires { self.count < 4 }
        ensures { (pending result ≡ pending self ++ (c ∷ [])) × (result.count ≡ self.count + 1) }
    {
        let mut list = self.list;
        list[self.count] = c;
        Changes {
            count: self.count + 1,
            list,
        }
    }

    // Those that wait.
    #[tactic(auto, unfolding(crate::specs::Pending::pending))]
    pub fn made(&self) -> &[Change]
        ensures { result.now ≡ pending self.now }
    {
        &self.list[..self.count]
    }
}

// Variables noted: the first of a row's four places, with zeros behind them.
#[derive(Clone, Copy)]
pub struct Noted {
    pub count: u8,
    pub notes: [u16; codes::MOST_NOTES as usize],
    pub ghost few: { count ≤ 4 },
    pub ghost filled: { notes ≡ four_of (take count notes) } by { Prim.hlevel props },
}

impl Noted {
    ghost use Rattle.std.specs.Prelude.{◌≡◌, [], ◌∷◌, ◌++◌, ◌+◌, ◌<◌};
    ghost use Rattle.unify.specs.Pending.{noted_in};

    // Nothing is noted.
    pub fn none() -> Noted
        ensures { (noted_in result ≡ []) × (result.count ≡ 0) }
    {
        Noted {
            count: 0,
            notes: [0; codes::MOST_NOTES as usize],
        }
    }

    // One more, behind the others.
    pub fn with(self, v: u16) -> Noted
        requires { self.count < 4 }
        ensures { (noted_in result ≡ noted_in self ++ (v ∷ [])) × (result.count ≡ self.count + 1) }
    {
        let mut notes = self.notes;
        notes[usize::from(self.count)] = v;
        Noted {
            count: self.count + 1,
            notes,
        }
    }
}
