//! The listing of one handle.

ghost use Rattle.std.specs.Prelude.{◌≡◌, ◌++◌, filter, flat_map, IfOk, OnOk, Contains};
ghost use Rattle.std.specs.List.Sorted.{IsPermutation};
ghost use Rattle.htl_event.specs.Handles.{HaveOwnSequences, IsListing};
ghost use Rattle.htl_case.specs.Listed.{is_of_handle, IsNewestFirst};

use htl_event::{EventList, Kind, NoMemory, SharedEvent, base};
use std::alloc::Global;
use std::cmp::Reverse;

/// The opens, closes and bad references of a process with the same base handle, the newest first.
/// Only the events that are listed are copied.
pub fn events_of_handle<E: EventList>(
    alloc: Global,
    lists: &[E],
    process: u32,
    handle: u32,
) -> Result<Vec<SharedEvent>, NoMemory>
    ensures { IfOk result (λ rows. HaveOwnSequences (flat_map E.events_of lists.now)
        → IsListing (Contains (flat_map E.events_of lists.now)) process handle rows.items) }
{
    let base = base(handle);
    let mut rows = Vec::new(alloc);
    for list in lists {
        push_rows(&mut rows, list.events(), process, base)?;
    }
    newest_first(&mut rows);
    Ok(rows)
}

// The handle is compared first, since few events have it.
fn is_of_handle(event: &SharedEvent, process: u32, base_handle: u32) -> bool
    ensures { result ≡ is_of_handle process base_handle event.now }
{
    base(event.handle) == base_handle
        && event.process == process
        && matches!(event.kind, Kind::Opened | Kind::Closed | Kind::BadRef)
}

fn push_rows(
    rows: &mut Vec<SharedEvent>,
    events: &[SharedEvent],
    process: u32,
    base_handle: u32,
) -> Result<(), NoMemory>
    ensures { OnOk result (rows.new.items
        ≡ rows.old.items ++ filter (is_of_handle process base_handle) events.now) }
{
    for event in events {
        if is_of_handle(event, process, base_handle) {
            rows.push(event.copy()?)?;
        }
    }
    Ok(())
}

fn newest_first(rows: &mut Vec<SharedEvent>)
    ensures moved { IsPermutation rows.old.items rows.new.items }
    ensures sorted { IsNewestFirst rows.new.items }
{
    rows.sort_unstable_by_key(|event| Reverse(event.sequence));
}
