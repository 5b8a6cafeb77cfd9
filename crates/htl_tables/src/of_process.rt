//! The rows of one process in a table of latest events.

ghost use Rattle.std.specs.Prelude.{◌≡◌, ◌==◌, filter};
ghost use Rattle.htl_tables.specs.RowOrder.{AreByProcess};

use htl_event::SharedEvent;

/// The rows of the process. They are neighbours in the table.
pub(crate) fn of_process(rows: &[SharedEvent], process: u32) -> &[SharedEvent]
    requires { AreByProcess rows.now }
    ensures { result.now ≡ filter (λ e. e.process == process) rows.now }
{
    let start = rows.partition_point(|row| row.process < process);
    let rest = &rows[start..];
    let len = rest.partition_point(|row| row.process == process);
    &rest[..len]
}
