// Clause text, byte by byte: whether it is one, and where it leaves the clause texts.
#![tactic(auto)]

mod tables;

ghost use Rattle.std.specs.Prelude.{◌≡◌, ◌+◌, ◌≤◌};
ghost use Rattle.spell.specs.Rows.{cell_count, kind_count, kinds};
ghost use Rattle.spell.specs.Stuck.{spelling_of};
ghost use Rattle.spell.specs.Table.{row_after, steps};

// The row that follows the one at place row, at byte b.
fn follows(ks: &[u8; 256], rs: &[u16; 1240], row: usize, b: u8) -> usize
    requires { (ks.now ≡ kinds) × (rs.now ≡ steps) × (row + kind_count ≤ cell_count) }
    ensures { (result ≡ row_after row b) × (result + kind_count ≤ cell_count) }
{
    let kind = usize::from(ks[usize::from(b)]);
    let to = row + kind;
    usize::from(rs[to])
}

// The run over the tables.
fn scan(ks: &[u8; 256], rs: &[u16; 1240], text: &[u8]) -> Result<(), usize>
    requires { (ks.now ≡ kinds) × (rs.now ≡ steps) }
    ensures { result ≡ spelling_of text.now }
{
    let mut row: usize = tables::FIRST_ROW;
    for (i, b) in text.iter().enumerate() {
        row = follows(ks, rs, row, *b);
        if row == 0 {
            return Err(i);
        }
    }
    if row == tables::LAST_ROW {
        return Ok(());
    }
    Err(text.len())
}

// 16, TEXT.
#[tactic(auto, unfolding(crate::specs::Rows::kinds, crate::specs::Rows::rows, crate::specs::Table::steps))]
pub fn spelling(text: &[u8]) -> Result<(), usize>
    ensures { result ≡ spelling_of text.now }
{
    scan(&tables::KINDS, &tables::STEPS, text)
}
