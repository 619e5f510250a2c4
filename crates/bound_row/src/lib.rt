// The variables bound, told in a lent row.
#![tactic(auto)]

ghost use Rattle.std.specs.Prelude.{◌≡◌, [], ◌∷◌, length};
ghost use Rattle.lay.specs.Lay.{laid};
ghost use Rattle.unify.specs.Pending.{pending, vars_bound};
ghost use Rattle.bound_row.specs.Row.{bound_bytes};

use unify::Changes;

// The bytes of the count and of each variable told.
const COUNT_SIZE: usize = 2;

const VAR_SIZE: usize = 2;

// And those of one variable.
pub const ONE_SIZE: usize = COUNT_SIZE + VAR_SIZE;

// How many bytes tell the variables of these changes.
pub fn size_of(changes: Changes) -> usize
    ensures { result ≡ length (bound_bytes (vars_bound (pending changes))) }
{
    COUNT_SIZE + VAR_SIZE * changes.count
}

// Tells them: their count, then each, in the order of the changes.
pub fn tell(out: &mut [u8], changes: Changes)
    ensures { out.new ≡ laid out.old 0 (bound_bytes (vars_bound (pending changes))) }
{
    let mut at = lay::put2(out, 0, changes.count);
    for c in changes.made() {
        at = lay::put2(out, at, c.var as usize);
    }
}

// Tells one.
pub fn tell_one(out: &mut [u8], v: usize)
    ensures { out.new ≡ laid out.old 0 (bound_bytes (v ∷ [])) }
{
    let at = lay::put2(out, 0, 1);
    lay::put2(out, at, v);
}
