//! The balances of an object's tags, and the stacks of one tag.

ghost use Rattle.std.specs.Prelude.{◌≡◌, ◌<◌, ◌^◌, ℕ, List, map, IfOk};
ghost use Rattle.std.specs.List.{filter_map};
ghost use Rattle.htl_event.specs.Events.{Event};
ghost use Rattle.htl_event.specs.declared.slot.Slot.{Slot};
ghost use Rattle.htl_event.specs.declared.slot.Count.{Count};
ghost use Rattle.htl_event.specs.Tallies.{IsTags, IsStacks};
ghost use Rattle.htl_answers.specs.Parts.{AreEventsOf, size_of_all};
ghost use Rattle.htl_answers.specs.Tags.{tag_row};

use crate::counted_by::{BySlot, BySlotAndStack};
use crate::part::Part;
use crate::slot_counts::counts_of_slots;
use htl_event::{Count, NoMemory, SharedStack, Slot};
use htl_tree::Slots;
use std::alloc::Global;

/// Every tag with an event of the object, by its bytes, and how often the object was referenced and
/// dereferenced under it.
pub fn tags<P: Part>(
    alloc: Global,
    parts: &[P],
    object: u64,
) -> Result<Vec<([u8; 4], Count)>, NoMemory>
    requires { size_of_all (map P.contents parts.now) < 2 ^ 64 }
    ensures { IfOk result (λ rows. (events : List Event)
        → AreEventsOf (map P.contents parts.now) events
        → IsTags events object rows.items) }
{
    let sums = counts_of_slots::<BySlot, P>(alloc, parts, Slots::OfObject(object))?;
    tag_rows(alloc, &sums, object)
}

/// The rows of the object's slots.
fn tag_rows(
    alloc: Global,
    sums: &[(Slot, Count)],
    object: u64,
) -> Result<Vec<([u8; 4], Count)>, NoMemory>
    ensures { IfOk result (λ rows. rows.items
        ≡ filter_map (λ (sum : Slot × Count). tag_row object sum.0 sum.1) sums.now) }
{
    let mut rows = Vec::new(alloc);
    for (slot, count) in sums {
        if let Some(row) = tag_row(*slot, *count, object) {
            rows.push(row)?;
        }
    }
    Ok(rows)
}

/// The row of the slot, if the slot is of the object.
fn tag_row(slot: Slot, count: Count, object: u64) -> Option<([u8; 4], Count)>
    ensures { result ≡ tag_row object slot count }
{
    match slot {
        Slot::Tagged { object: its, tag } => {
            if its == object {
                Some((tag, count))
            } else {
                None
            }
        }
        Slot::Handles { .. } | Slot::Bad { .. } => None,
    }
}

/// The stacks with an event of the object and tag, each with its tally, in stack order.
pub fn stacks<P: Part>(
    alloc: Global,
    parts: &[P],
    object: u64,
    tag: [u8; 4],
) -> Result<Vec<(SharedStack, Count)>, NoMemory>
    requires { size_of_all (map P.contents parts.now) < 2 ^ 64 }
    ensures { IfOk result (λ rows. (events : List Event)
        → AreEventsOf (map P.contents parts.now) events
        → IsStacks events object tag rows.items) }
{
    let slot = Slot::Tagged { object, tag };
    let counts = counts_of_slots::<BySlotAndStack, P>(alloc, parts, Slots::One(slot))?;
    without_slot(alloc, &counts)
}

/// The rows of one slot, with the slot left out.
fn without_slot(
    alloc: Global,
    counts: &[((Slot, SharedStack), Count)],
) -> Result<Vec<(SharedStack, Count)>, NoMemory>
    ensures { IfOk result (λ rows. rows.items
        ≡ map (λ (row : (Slot × List ℕ) × Count). (row.0.1, row.1)) counts.now) }
{
    let mut rows = Vec::with_capacity(alloc, counts.len())?;
    for ((_, stack), count) in counts {
        rows.push((stack.copy()?, *count))?;
    }
    Ok(rows)
}
