//! Filters: each slot has one bit of 64. A list has the bits of all its slots in one number, so a slot
//! whose bit isn't in that number isn't in the list.

ghost use Rattle.std.specs.Prelude.{◌≡◌, ℕ, true};
ghost use Rattle.std.specs.Int.Bits.{bit_and};
ghost use Rattle.htl_event.specs.declared.slot.Slot.{Slot};
ghost use Rattle.htl_tree.specs.HasSlot.{has_slot};
ghost use Rattle.htl_tree.specs.Filters.{bit_of, filter_of, common_filter, HasFilter, HaveFilters};

use crate::slots::Slots;
use htl_event::{Count, Slot};

/// An odd constant for multiplicative hashing: numbers that differ in few bits get different filters.
const SPREAD: u64 = 0x9e37_79b9_7f4a_7c15;

/// One bit of 64, by the slot's object or process.
pub fn filter_of(slot: Slot) -> u64
    ensures { result ≡ filter_of slot }
{
    match slot {
        Slot::Tagged { object, .. } => bit_of(object),
        Slot::Handles { process } => bit_of(u64::from(process)),
        Slot::Bad { process, .. } => bit_of(u64::from(process)),
    }
}

/// The filters of all slots that are counted.
pub fn filters_of(counts: &[(Slot, Count)]) -> u64
    ensures { HaveFilters result counts.now }
{
    let mut filters = 0;
    for (slot, _) in counts {
        filters |= filter_of(*slot);
    }
    filters
}

/// The bit that all these slots have as their filter, or no bit where all slots are asked for.
pub fn common_filter(slots: Slots) -> u64
    ensures value { result ≡ common_filter slots }
    ensures of_each { (filters : ℕ) (slot : Slot) → has_slot slots slot ≡ true
        → HasFilter filters slot → bit_and filters result ≡ result }
{
    match slots {
        Slots::All => 0,
        Slots::One(slot) => filter_of(slot),
        Slots::OfObject(object) => bit_of(object),
        Slots::BadOf(process) => bit_of(u64::from(process)),
    }
}

fn bit_of(number: u64) -> u64
    ensures { result ≡ bit_of number }
{
    1 << (number.wrapping_mul(SPREAD) >> 58)
}
