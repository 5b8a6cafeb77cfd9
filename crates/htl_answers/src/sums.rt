//! How often each slot came, over all parts.

ghost use Rattle.std.specs.Prelude.{◌<◌, ◌^◌, List, Contains, map, IfOk};
ghost use Rattle.std.specs.List.{sum_by};
ghost use Rattle.htl_event.specs.Events.{Event};
ghost use Rattle.htl_event.specs.declared.slot.Slot.{Slot};
ghost use Rattle.htl_event.specs.declared.slot.Count.{Count};
ghost use Rattle.htl_event.specs.Tallies.{total_of, IsPositive};
ghost use Rattle.htl_answers.specs.Parts.{AreEventsOf, size_of_all};
ghost use Rattle.htl_answers.specs.Sums.{ListsSlotSums};

use crate::counted_by::BySlot;
use crate::part::Part;
use crate::slot_counts::counts_of_slots;
use htl_event::{Count, NoMemory, Slot};
use htl_tree::Slots;
use std::alloc::Global;

/// Each slot of the parts' events in slot order, and how often it came with any stack.
pub fn slot_sums<P: Part>(alloc: Global, parts: &[P]) -> Result<Vec<(Slot, Count)>, NoMemory>
    requires { size_of_all (map P.contents parts.now) < 2 ^ 64 }
    ensures sums { IfOk result (λ sums. (events : List Event)
        → AreEventsOf (map P.contents parts.now) events
        → ListsSlotSums events sums.items) }
    ensures positive { IfOk result (λ sums. (sum : Slot × Count)
        → Contains sums.items sum → IsPositive sum.1) }
    ensures fits { IfOk result (λ sums. sum_by (λ sum. total_of sum.1) sums.items < 2 ^ 64) }
{
    let sums = counts_of_slots::<BySlot, P>(alloc, parts, Slots::All)?;
    Ok(sums)
}
