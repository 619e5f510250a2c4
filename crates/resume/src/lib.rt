// A run saved at night and gone on with in the morning: the two calls over lent bytes.
// Kept, head, processes and variables as three rows: the head of crate `bound` says why.
#![tactic(auto)]

ghost use Rattle.program_index.specs.Images.{program_in};
ghost use Rattle.std.specs.Prelude.{◌≡◌, ◌+◌, ◌*◌, ◌≤◌, length};
ghost use Rattle.parlog.specs.Limits.{small};
ghost use Rattle.parlog.specs.TableRules.{lent_ok};
ghost use Rattle.parlog.specs.Tables.{lent};
ghost use Rattle.saved.specs.Restored.{resumed_lent};
ghost use Rattle.resume.specs.Calls.{resumable};
ghost use Rattle.resume.specs.Says.{DecidedSays, ResumeSays, SaveSays, TestedSays};

use parlog::{Answer, codes};
use program_index::Image;

// 15, FOREIGN: the saved run belongs to an image of another length.
pub const FOREIGN: u8 = 15;

// A save: the run as a saved run at the front of the lent row.
pub fn save(image: &[u8], head: &[u8], procs: &[u8], vars: &[u8], row: &mut [u8]) -> Answer<usize>
    ensures { SaveSays small image.now (lent head.now procs.now vars.now) row.old result row.new }
{
    let mut ix = [0u16; program_index::SIZE];
    let e = entry::enter(image, head, procs, vars, &mut ix);
    // Kept in each call: docs/DECISIONS.md asks that each takes the load's answer apart by `let .. else`.
    let Ok((relations, clauses)) = e else {
        let r = load::refusal(e);
        return Err(r);
    };
    let n = head::proc_count(head);
    let m = head::var_count(head);
    let size = saved::size(n, m);
    if row.len() < size {
        return Err(entry::refusal(codes::ROOM));
    }
    saved::write(row, head, procs, vars, image.len());
    Ok(size)
}

// What a saved run of a processes and b variables holds keeps every table rule.
fn keeps_rules(image: &Image, row: &[u8], a: usize, b: usize) -> bool
    requires { (a ≤ 512) × (b ≤ 1024) × (18 + a * 28 + b * 8 ≤ length row.now) }
    ensures { result ≡ lent_ok small (program_in image.now) (resumed_lent small row.now a b) }
{
    let mut head = [0u8; codes::HEAD_SIZE];
    let mut procs = [0u8; codes::MOST_PROCS * codes::ROW_SIZE];
    let mut vars = [0u8; codes::MOST_VARS * codes::CELL_SIZE];
    saved::restore(row, a, b, &mut head, &mut procs, &mut vars);
    table_rules::lent_ok(image, &head, &procs, &vars, entry::PROCS, entry::VARS)
}

// The lent rows have their full sizes, the counts agree, and the table rules are kept.
fn fits(
    image: &Image,
    head: &[u8],
    procs: &[u8],
    vars: &[u8],
    row: &[u8],
    a: usize,
    b: usize,
) -> bool
    requires { 18 + a * 28 + b * 8 ≤ length row.now }
    ensures { result ≡ resumable small (program_in image.now) (lent head.now procs.now vars.now) row.now a b }
{
    let full = table_rules::full_size(head, procs, vars, entry::PROCS, entry::VARS);
    let agree = saved::counts_agree(row, a, b);
    let few = (a <= entry::PROCS) & (b <= entry::VARS);
    let so_far = full & (agree & few);
    if !so_far {
        return false;
    }
    keeps_rules(image, row, a, b)
}

// The tests of a saved run for a program: its records, the image's length, then all of 8.
fn tested(
    image: &Image,
    head: &[u8],
    procs: &[u8],
    vars: &[u8],
    row: &[u8],
) -> Answer<(usize, usize)>
    ensures { TestedSays small (program_in image.now) (length image.now.bytes.now) (lent head.now procs.now vars.now) row.now result }
{
    let (a, b) = saved::read(row)?;
    if saved::image_length(row) != image.bytes.len() {
        return Err(entry::refusal(FOREIGN));
    }
    if !fits(image, head, procs, vars, row, a, b) {
        return Err(entry::refusal(codes::STATE));
    }
    Ok((a, b))
}

// The same, with the test of the image first; nothing is written yet.
fn decided(
    image: &[u8],
    head: &[u8],
    procs: &[u8],
    vars: &[u8],
    row: &[u8],
) -> Answer<(usize, usize)>
    ensures { DecidedSays small image.now (lent head.now procs.now vars.now) row.now result }
{
    let mut ix = [0u16; program_index::SIZE];
    let l = load::load_indexed(image, &mut ix);
    // Kept in each call: docs/DECISIONS.md asks that each takes the load's answer apart by `let .. else`.
    let Ok((relations, clauses)) = l else {
        let r = load::refusal(l);
        return Err(r);
    };
    let accepted = Image {
        bytes: image,
        relations,
        clauses,
        index: &ix,
    };
    tested(&accepted, head, procs, vars, row)
}

// A resume: the tables of a saved run, every byte of them.
pub fn resume(
    image: &[u8],
    head: &mut [u8],
    procs: &mut [u8],
    vars: &mut [u8],
    row: &[u8],
) -> Answer<()>
    ensures { ResumeSays small image.now (lent head.old procs.old vars.old) row.now result head.new procs.new vars.new }
{
    let (a, b) = decided(image, head, procs, vars, row)?;
    saved::restore(row, a, b, head, procs, vars);
    Ok(())
}
