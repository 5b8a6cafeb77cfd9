//! A tree and tables of the rows of a processor.

ghost use Rattle.std.specs.Prelude.{◌≡◌, ◌<◌, length, map, Contains, IfOk};
ghost use Rattle.htl_tables.specs.Tables.{IsEventTable, IsSequenceTable};
ghost use Rattle.htl_tree.specs.Trees.{IsTally, by_stack};
ghost use Rattle.htl_state.specs.declared.rows.CountRow.{CountRow as Counted};
ghost use Rattle.htl_state.specs.declared.rows.LatestRow.{LatestRow as Latter};
ghost use Rattle.htl_saved.specs.Restored.{listed, event_of};

use htl_event::{Count, NoMemory, SharedEvent, SharedStack, Slot};
use htl_state::{CountRow, LatestRow};
use htl_tables::{EventKind, Greatest, Latest};
use htl_tree::{StackTree, TallyFault};
use std::alloc::Global;

/// What the rows count, each with its stack, which the table has.
pub(crate) fn counts_of_rows(
    alloc: Global,
    table: &[SharedStack],
    rows: &[CountRow],
) -> Result<Vec<((Slot, SharedStack), Count)>, NoMemory>
    requires here { (row : Counted) → Contains rows.now row → row.stack < length table.now }
    ensures { IfOk result (λ counts. counts.items ≡ map (listed table.now) rows.now) }
{
    let mut counts = Vec::with_capacity(alloc, rows.len())?;
    for row in rows {
        let stack = table[row.stack as usize].copy()?;
        counts.push(((row.slot, stack), row.count))?;
    }
    Ok(counts)
}

/// The tree of the counts.
pub(crate) fn tree_of(
    alloc: Global,
    counts: &[((Slot, SharedStack), Count)],
) -> Result<StackTree<Global>, NoMemory>
    requires { IsTally counts.now }
    ensures { IfOk result (λ tree. tree ≡ map by_stack counts.now) }
{
    match StackTree::of_rows(alloc, counts) {
        Ok(tree) => Ok(tree),
        Err(TallyFault::NoMemory) => Err(NoMemory),
        Err(TallyFault::NoTally) => unreachable!(),
    }
}

/// The events of the rows, each with its stack, which the table has. An open or a close has no object
/// and no tag.
pub(crate) fn events_of_rows(
    alloc: Global,
    table: &[SharedStack],
    rows: &[LatestRow],
) -> Result<Vec<SharedEvent>, NoMemory>
    requires here { (row : Latter) → Contains rows.now row → row.stack < length table.now }
    ensures { IfOk result (λ events. events.items ≡ map (event_of table.now) rows.now) }
{
    let mut events = Vec::with_capacity(alloc, rows.len())?;
    for row in rows {
        let stack = table[row.stack as usize].copy()?;
        events.push(SharedEvent {
            sequence: row.sequence,
            kind: row.kind,
            process: row.process,
            thread: row.thread,
            handle: row.handle,
            object: 0,
            tag: [0; 4],
            stack,
        })?;
    }
    Ok(events)
}

/// The table of the latest events.
pub(crate) fn latest_of(events: Vec<SharedEvent>) -> Latest<Global>
    requires { IsEventTable events.items }
    ensures { result ≡ events.items }
{
    match Latest::of_rows(events) {
        Ok(latest) => latest,
        Err(_) => unreachable!(),
    }
}

/// The table of the greatest sequences.
pub(crate) fn greatest_of<K: EventKind>(
    alloc: Global,
    rows: &[(u32, u64)],
) -> Result<Greatest<K, Global>, NoMemory>
    requires { IsSequenceTable rows.now }
    ensures { IfOk result (λ greatest. greatest ≡ rows.now) }
{
    let rows = Vec::from_slice(alloc, rows)?;
    match Greatest::of_rows(rows) {
        Ok(greatest) => Ok(greatest),
        Err(_) => unreachable!(),
    }
}
