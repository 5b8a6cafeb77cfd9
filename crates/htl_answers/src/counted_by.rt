//! The keys of counts: slots, or slots with stacks.

ghost use Rattle.std.specs.Prelude.{◌≡◌, ◌≤◌, ℕ, List, true, IfOk};
ghost use Rattle.std.specs.declared.cmp.Ordering.TheVariants.{Equal};
ghost use Rattle.htl_event.specs.Events.{Event};
ghost use Rattle.htl_event.specs.declared.slot.Slot.{Slot};
ghost use Rattle.htl_tree.specs.Trees.{HasTally, total_count};
ghost use Rattle.htl_answers.specs.Rows.{count_of, total_in, rows_of, EachPositive};

use htl_event::{Count, NoMemory, SharedStack, Slot};
use htl_tree::{Slots, StackTree};
use std::alloc::{AllocError, Allocator, Global};

/// The key by which counts are listed.
pub(crate) trait CountedBy {
    type Key: Ord + Drop;

    ghost key_of: { Slot → List ℕ → Self.Key };

    fn key(slot: Slot, stack: &SharedStack) -> Result<Self::Key, AllocError>
        ensures { IfOk result (λ key. key ≡ key_of slot stack.now) };

    /// A hash of the key, by which a hint finds its row again.
    fn hash(slot: Slot, stack: &SharedStack) -> u64;

    fn is_key(key: &Self::Key, slot: Slot, stack: &SharedStack) -> bool
        ensures { result ≡ true → key.now ≡ key_of slot stack.now };

    /// The tree's counts of these slots, one row for each key.
    fn counts_in<A: Allocator>(
        alloc: Global,
        tree: &StackTree<A>,
        slots: Slots,
    ) -> Result<Vec<(Self::Key, Count)>, NoMemory>
        ensures counts { IfOk result (λ rows. (events : List Event) → HasTally tree.now events
            → (k : Self.Key) → count_of Self.Key.cmp k rows.items
            ≡ count_of Self.Key.cmp k (rows_of key_of slots events)) }
        ensures positive { IfOk result (λ rows. EachPositive rows.items) }
        ensures total { IfOk result (λ rows. total_in rows.items ≤ total_count tree.now) };

    /// Keys that tie are equal.
    ghost proper: { (x y : Self.Key) → Self.Key.cmp x y ≡ Equal → x ≡ y };
}

/// Counts by slot, whatever the stacks.
pub(crate) struct BySlot;

impl CountedBy for BySlot {
    ghost use Rattle.htl_event.specs.OrderLaws.{slot_same};

    type Key = Slot;

    ghost key_of = { λ slot stack. slot };

    ghost proper = { slot_same };

    fn key(slot: Slot, _stack: &SharedStack) -> Result<Slot, AllocError> {
        Ok(slot)
    }

    fn hash(slot: Slot, _stack: &SharedStack) -> u64 {
        slot.fingerprint()
    }

    fn is_key(key: &Slot, slot: Slot, _stack: &SharedStack) -> bool {
        *key == slot
    }

    fn counts_in<A: Allocator>(
        alloc: Global,
        tree: &StackTree<A>,
        slots: Slots,
    ) -> Result<Vec<(Slot, Count)>, NoMemory> {
        tree.sums_of(alloc, slots)
    }
}

/// Counts by slot and stack.
pub(crate) struct BySlotAndStack;

impl CountedBy for BySlotAndStack {
    ghost use Rattle.htl_answers.specs.RowOrder.{row_same};

    type Key = (Slot, SharedStack);

    ghost key_of = { λ slot stack. (slot, stack) };

    ghost proper = { row_same };

    fn key(slot: Slot, stack: &SharedStack) -> Result<(Slot, SharedStack), AllocError> {
        Ok((slot, stack.copy()?))
    }

    fn hash(slot: Slot, stack: &SharedStack) -> u64 {
        slot.fingerprint().rotate_left(31) ^ stack.fingerprint()
    }

    fn is_key(key: &(Slot, SharedStack), slot: Slot, stack: &SharedStack) -> bool {
        key.0 == slot && key.1.fingerprint() == stack.fingerprint() && key.1 == *stack
    }

    fn counts_in<A: Allocator>(
        alloc: Global,
        tree: &StackTree<A>,
        slots: Slots,
    ) -> Result<Vec<((Slot, SharedStack), Count)>, NoMemory> {
        tree.rows_of(alloc, slots)
    }
}
