// The tests of one record of a text in their order, 6, 4 and 5, and the block that a clause is of.
#![tactic(auto)]

ghost use Rattle.std.specs.Prelude.{◌≡◌, ◌≤◌};
ghost use Rattle.judge_text.specs.Tests.{tested};
ghost use Rattle.parlog.specs.Load.{block_with};
ghost use Rattle.text_program.specs.Numbered.{mark_by};

use parlog::{Progress, codes};

// The first test that fails, or what is known behind the record.
pub fn verdict(
    many: bool,
    right: bool,
    known: bool,
    full: bool,
    next: Progress,
) -> Result<Progress, u8>
    ensures { result ≡ tested many right known full next }
{
    if many {
        return Err(codes::MANY);
    }
    if !right {
        return Err(codes::BODY);
    }
    if !known {
        return Err(codes::NAME);
    }
    if full {
        return Err(codes::MANY);
    }
    Ok(next)
}

// How many clauses the block has with this one.
pub fn block_with(g: Progress, r: usize, opens: bool) -> usize
    requires { g.block ≤ 8 }
    ensures { result ≡ block_with g r (mark_by opens) }
{
    load_names::block_with(g, r, usize::from(opens))
}
