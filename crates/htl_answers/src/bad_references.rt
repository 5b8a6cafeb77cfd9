//! The bad references of a process.

ghost use Rattle.std.specs.Prelude.{◌≡◌, ◌<◌, ◌^◌, ℕ, List, map, IfOk};
ghost use Rattle.std.specs.List.{filter_map};
ghost use Rattle.std.specs.Option.{option_map};
ghost use Rattle.htl_event.specs.Events.{Event};
ghost use Rattle.htl_event.specs.declared.slot.Slot.{Slot};
ghost use Rattle.htl_event.specs.declared.slot.Count.{Count};
ghost use Rattle.htl_event.specs.Tallies.{IsBad};
ghost use Rattle.htl_answers.specs.Parts.{AreEventsOf, size_of_all};
ghost use Rattle.htl_answers.specs.Bad.{bad_row};

use crate::counted_by::BySlotAndStack;
use crate::part::Part;
use crate::slot_counts::counts_of_slots;
use htl_event::{Count, NoMemory, SharedStack, Slot};
use htl_tree::Slots;
use std::alloc::Global;

/// Each handle as written and each stack with a bad reference of the process, and how often it
/// came, by handle and then in stack order.
pub fn bad<P: Part>(
    alloc: Global,
    parts: &[P],
    process: u32,
) -> Result<Vec<(u32, SharedStack, u64)>, NoMemory>
    requires { size_of_all (map P.contents parts.now) < 2 ^ 64 }
    ensures { IfOk result (λ rows. (events : List Event)
        → AreEventsOf (map P.contents parts.now) events
        → IsBad events process rows.items) }
{
    let counts = counts_of_slots::<BySlotAndStack, P>(alloc, parts, Slots::BadOf(process))?;
    bad_rows(alloc, &counts, process)
}

/// The rows of the bad references of the process.
fn bad_rows(
    alloc: Global,
    counts: &[((Slot, SharedStack), Count)],
    process: u32,
) -> Result<Vec<(u32, SharedStack, u64)>, NoMemory>
    ensures { IfOk result (λ rows. rows.items ≡ filter_map
        (λ (row : (Slot × List ℕ) × Count). bad_row process row.0.0 row.0.1 row.1) counts.now) }
{
    let mut rows = Vec::new(alloc);
    for ((slot, stack), count) in counts {
        if let Some(handle) = bad_handle(*slot, process) {
            rows.push((handle, stack.copy()?, count.plus))?;
        }
    }
    Ok(rows)
}

/// The handle of the slot, if the slot is one of bad references of the process.
fn bad_handle(slot: Slot, process: u32) -> Option<u32>
    ensures { (stack : List ℕ) (count : Count) → bad_row process slot stack count
        ≡ option_map (λ handle. (handle, stack, count.plus)) result }
{
    match slot {
        Slot::Bad {
            process: its,
            handle,
        } => { if its == process { Some(handle) } else { None } }
        Slot::Tagged { .. } | Slot::Handles { .. } => None,
    }
}
