// The variable table: a lent row of bytes, one cell of them a variable, read and written a binding at a time.
// Kept: a row and its count, no slice of structs, since the C interface lends bytes, and the head has the counts. For reading both stand in one value, for writing not, as in crate `rows`.
#![tactic(auto)]

ghost use Rattle.std.specs.Prelude.{◌≡◌, ◌++◌, ◌+◌, ◌*◌, ◌≤◌, ◌<◌, length, replicate, set, None, Some};
ghost use Rattle.parlog.specs.Tables.{binding_at, binding_by, binding_bytes, binding_of, cell_size, number_code, sort_code, vars_in};
ghost use Rattle.vars.specs.Cells.{Cells, put_cell};

use parlog::{Term, codes};

// ---- numbers of three bytes, and terms as sort and number
// Kept, sorts of cells as numbers: a lent row holds any byte, each has its meaning by `binding_by` (parlog/specs/Tables), and `cell_known` refuses the others by number.

// The number of three bytes, the low one first.
pub fn join(a: u8, b: u8, c: u8) -> u32
    ensures { result ≡ a + b * 256 + c * 65536 }
{
    u32::from_le_bytes([a, b, c, 0])
}

// Kept: a `From` would be the same match.
fn sort_of(t: Term) -> u8
    ensures { result ≡ sort_code (Some t) }
{
    match t {
        Term::Const(_) => codes::CONSTANT,
        Term::Var(_) => codes::VARIABLE,
    }
}

// The number of a term.
pub fn number_of(t: Term) -> u32
    ensures { result ≡ number_code (Some t) }
{
    match t {
        Term::Const(k) | Term::Var(k) => k,
    }
}

#[tactic(auto, unfolding(parlog::specs::Tables::binding_by))]
fn binding_by(sort: u8, number: u32) -> Option<Term>
    ensures { result ≡ binding_by sort number }
{
    match sort {
        codes::UNBOUND => None,
        codes::CONSTANT => Some(Term::Const(number)),
        _ => Some(Term::Var(number)),
    }
}

#[tactic(auto, unfolding(parlog::specs::Tables::binding_at))]
fn get_binding(vars: &[u8], v: usize) -> Option<Term>
    requires { v * cell_size + cell_size ≤ length vars.now }
    ensures { result ≡ binding_at vars.now v }
{
    let b = v * codes::CELL_SIZE;
    let sort = vars[b];
    let number = join(vars[b + 1], vars[b + 2], vars[b + 3]);
    binding_by(sort, number)
}

// Row v becomes that of a variable bound to t.
pub fn put_bound(vars: &mut [u8], v: usize, t: Term)
    requires { (v * cell_size + cell_size ≤ length vars.old) × (number_code (Some t) < 16777216) }
    ensures { vars.new ≡ put_cell vars.old v (binding_bytes (Some t)) }
{
    let b = v * codes::CELL_SIZE;
    let number = number_of(t).to_le_bytes();
    vars[b] = sort_of(t);
    vars[b + 1] = number[0];
    vars[b + 2] = number[1];
    vars[b + 3] = number[2];
}

// ---- reading

// The used rows of a variable table: its bytes, and how many rows are used.
#[derive(Clone, Copy)]
pub struct Variables<'a> {
    pub bytes: &'a [u8],
    pub count: usize,
    pub ghost whole: { count * cell_size ≤ length bytes.now },
}

impl<'a> Variables<'a> {
    ghost use Rattle.vars.specs.Views.{variables_in};

    // The binding of variable v; past the used rows, unbound.
    pub fn get(&self, v: usize) -> Option<Term>
        ensures { result ≡ binding_of (variables_in self.now) v }
    {
        if v < self.count {
            return get_binding(self.bytes, v);
        }
        None
    }
}

// ---- writing

// Variable v of the first n becomes bound to t.
pub fn bind(vars: &mut [u8], n: usize, v: usize, t: Term)
    requires { (n * cell_size ≤ length vars.old) × (v < n) × (number_code (Some t) < 16777216) }
    ensures { Cells n vars.old vars.new (set (vars_in vars.old n) v (Some t)) }
{
    put_bound(vars, v, t);
}

// After the first n come k variables more, unbound.
pub fn grow(vars: &mut [u8], n: usize, k: usize)
    requires { n * cell_size + k * cell_size ≤ length vars.old }
    ensures { Cells n vars.old vars.new (vars_in vars.old n ++ replicate k None) }
{
    rows::wipe(vars, n * codes::CELL_SIZE, k * codes::CELL_SIZE);
}
