// The index of an image's program: a row of words on the caller's stack, filled once a call and lent to every read of the program.
#![tactic(auto)]

ghost use Rattle.std.specs.Prelude.{◌≡◌, ◌+◌, ◌≤◌, ◌<◌};
ghost use Rattle.std.proofs.Props.{props};
ghost use Rattle.parlog.specs.Image.{body_at, record_at};
ghost use Rattle.parlog.specs.Program.{block_count, vars_of};
ghost use Rattle.program_index.specs.Indexed.{Behind, Early, Indexed};

// Kept, six parts in one row of words: the definition `Indexed` reads them by these places in one list.
// ---- its parts: a word for each record from 0 on, then a word for each clause, then a word for each relation

// The number of new variables of a clause.
pub const VARS: usize = 97;

// Where the body of a clause begins.
pub const BODIES: usize = 161;

// The number of blocks of a relation.
pub const BLOCKS: usize = 225;

// The first clause of a relation.
pub const FIRST: usize = 257;

// The number behind its last clause.
pub const BEHIND: usize = 289;

// All in all.
pub const SIZE: usize = 321;

// ---- the image with it

// An accepted image: its bytes, how many relations and clauses it has, and the index that tells where each stands.
#[derive(Clone, Copy)]
pub struct Image<'a> {
    pub bytes: &'a [u8],
    pub relations: usize,
    pub clauses: usize,
    pub index: &'a [u16; SIZE],
    pub ghost few_relations: { relations ≤ 32 },
    pub ghost few_clauses: { clauses ≤ 64 },
    pub ghost indexed: { Indexed bytes.now relations clauses index.now } by { Prim.hlevel props },
}

// Kept, a read for each part: a line that is called has no shorter form, and each promises another thing of the program.
// Kept, that the record, clause or relation is there, with each read: the number is the caller's, and a value of image and number would be made for each read.
impl<'a> Image<'a> {
    ghost use Rattle.program_index.specs.Images.{program_in};

    // Where record k begins.
    pub fn record_at(&self, k: usize) -> usize
        requires { k ≤ self.now.relations + self.now.clauses }
        ensures { (result ≡ record_at self.now.bytes.now k) × (result ≤ 65535) }
    {
        usize::from(self.index[k])
    }

    // The new variables of clause k.
    pub fn vars_at(&self, k: usize) -> usize
        requires { k < self.now.clauses }
        ensures { (result ≡ vars_of (program_in self.now) k) × (result ≤ 510) }
    {
        usize::from(self.index[VARS + k])
    }

    // Where the body of clause k begins.
    pub fn body_at(&self, k: usize) -> usize
        requires { k < self.now.clauses }
        ensures { (result ≡ body_at self.now.bytes.now (record_at self.now.bytes.now (self.now.relations + k))) × (result ≤ 65535) }
    {
        usize::from(self.index[BODIES + k])
    }

    // The blocks of relation q.
    pub fn blocks_of(&self, q: usize) -> usize
        requires { q < self.now.relations }
        ensures { (result ≡ block_count (program_in self.now) q) × (result ≤ 64) }
    {
        usize::from(self.index[BLOCKS + q])
    }

    // No clause before this one is of relation q.
    pub fn first_of(&self, q: usize) -> usize
        requires { q < self.now.relations }
        ensures { Early (program_in self.now) q result × (result ≤ self.now.clauses) }
    {
        usize::from(self.index[FIRST + q])
    }

    // No clause from this one on is of relation q.
    pub fn behind_of(&self, q: usize) -> usize
        requires { q < self.now.relations }
        ensures { Behind (program_in self.now) q self.now.clauses result × (result ≤ self.now.clauses) }
    {
        usize::from(self.index[BEHIND + q])
    }
}
