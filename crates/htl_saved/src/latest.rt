//! Latest events: the rows of a table of them.

ghost use Rattle.std.specs.Prelude.{◌≡◌, map, IfOk};
ghost use Rattle.htl_saved.specs.Tables.{IsOrdered, HasAll, latest_row};

use crate::place::place_of;
use htl_event::{NoMemory, SharedEvent, SharedStack};
use htl_state::LatestRow;
use std::alloc::Global;

/// The rows of the latest events. The table has their stacks.
pub(crate) fn latest_rows(
    alloc: Global,
    table: &[SharedStack],
    latest: &[SharedEvent],
) -> Result<Vec<LatestRow>, NoMemory>
    requires ordered { IsOrdered table.now }
    requires here { HasAll table.now (map (λ e. e.stack) latest.now) }
    ensures { IfOk result (λ rows. rows.items ≡ map (latest_row table.now) latest.now) }
{
    let mut rows = Vec::with_capacity(alloc, latest.len())?;
    for event in latest {
        rows.push(LatestRow {
            sequence: event.sequence,
            kind: event.kind,
            process: event.process,
            thread: event.thread,
            handle: event.handle,
            stack: place_of(table, &event.stack),
        })?;
    }
    Ok(rows)
}
