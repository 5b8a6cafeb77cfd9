//! Sums of counts by slot.

ghost use Rattle.std.specs.Prelude.{◌<◌, ◌^◌, IfOk};
ghost use Rattle.std.specs.List.Sorted.{IsPermutation, IsSortedByKey};
ghost use Rattle.htl_event.specs.SlotOrder.{slot_cmp};
ghost use Rattle.htl_event.specs.declared.slot.Slot.{Slot};
ghost use Rattle.htl_event.specs.declared.slot.Count.{Count};
ghost use Rattle.htl_event.specs.Tallies.{total_of, IsPositive};
ghost use Rattle.htl_sorted.specs.Entries.{Each};
ghost use Rattle.htl_tree.specs.Nodes.{counts_at, AreAddedUp};

use crate::filling::add_count;
use htl_event::{Count, NoMemory, Slot};
use std::alloc::Allocator;

/// Puts counts in slot order.
pub fn sort_by_slot<A: Allocator>(counts: &mut Vec<(Slot, Count), A>)
    ensures moved { IsPermutation counts.old.items counts.new.items }
    ensures sorted { IsSortedByKey (λ (e : Slot × Count). e.0) slot_cmp counts.new.items }
{
    counts.sort_unstable_by_key(|count| count.0);
}

/// Adds up the counts of each slot. Where they are in slot order, each is added at the end.
pub fn add_up<A: Allocator + Clone>(
    alloc: &A,
    counts: &[(Slot, Count)],
) -> Result<Vec<(Slot, Count), A>, NoMemory>
    requires positive { Each IsPositive counts.now }
    requires fit { (slot : Slot) → total_of (counts_at slot counts.now) < 2 ^ 64 }
    ensures { IfOk result (λ sums. AreAddedUp counts.now sums.items) }
{
    let mut sums = Vec::with_capacity(alloc.clone()?, number_of_slots(counts))?;
    for (slot, count) in counts {
        add_count(&mut sums, *slot, *count)?;
    }
    Ok(sums)
}

/// The number of sums where the counts are in slot order, and more elsewhere. It only says how much
/// room to make.
fn number_of_slots(counts: &[(Slot, Count)]) -> usize {
    let mut number = 0usize;
    let mut last = None;
    for (slot, _) in counts {
        if last != Some(*slot) {
            number = number.saturating_add(1);
            last = Some(*slot);
        }
    }
    number
}
