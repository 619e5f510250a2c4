// The watch call of operators: a lent row of process records, scanned by one thin function over a covered test on one record.
#![tactic(auto)]

ghost use Rattle.std.specs.Prelude.{◌≡◌};
ghost use Rattle.parlog.specs.Run.{watch_of};

use parlog::Process;

// The lowest number of a process that is suspended, or none; any row will do.
pub fn watch(rows: &[Process]) -> Option<usize>
    ensures { result ≡ watch_of rows.now }
{
    for (i, row) in rows.iter().enumerate() {
        if watch_rows::is_suspended(*row) {
            return Some(i);
        }
    }
    None
}
