// The watch over process rows: the test on one record, and the scan of a lent row of bytes.
#![tactic(auto)]

ghost use Rattle.std.specs.Prelude.{◌≡◌, ◌/◌, length};
ghost use Rattle.parlog.specs.Codes.{is_mode, suspended};
ghost use Rattle.parlog.specs.Run.{watch_of};
ghost use Rattle.parlog.specs.Tables.{procs_of, row_size};

use parlog::{Process, codes};
use rows::Processes;

// A process is suspended.
// Kept as a function of one record: a required form of docs/DECISIONS.md.
pub fn is_suspended(x: Process) -> bool
    ensures { result ≡ is_mode suspended x.mode }
{
    x.mode == codes::SUSPENDED
}

// The lowest number of a row whose process is suspended; a rest of fewer bytes than a row has is no row.
pub fn watch_rows(procs: &[u8]) -> Option<usize>
    ensures { result ≡ watch_of (procs_of procs.now (length procs.now / row_size)) }
{
    let n = procs.len() / codes::ROW_SIZE;
    let whole = Processes {
        bytes: procs,
        count: n,
    };
    for q in 0..n {
        let x = whole.get(q);
        if is_suspended(x) {
            return Some(q);
        }
    }
    None
}
