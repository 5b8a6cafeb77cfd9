//! The root of a tree. The first count makes it.

ghost use Rattle.std.specs.Prelude.{◌≡◌, ◌+◌, ◌<◌, ◌≤◌, ◌^◌, ◌↔◌};
ghost use Rattle.std.specs.Prelude.{length, IsTrue, IfOk, MatchResult};
ghost use Rattle.htl_event.specs.Tallies.{total_of};
ghost use Rattle.htl_tree.specs.Trees.{count_at, count_under, total_count, with_one};
ghost use Rattle.htl_tree.specs.Trees.{IsSameTally, IsSumTally, ListsSlots};
ghost use Rattle.htl_tree.specs.HasSlot.{has_slot};
ghost use Rattle.htl_tree.specs.Nodes.{tree_of, picked, asked_of, counts_in, IsNormalRoot};

use crate::listing::order_slots;
use crate::node::{Node, ZERO};
use crate::slots::Slots;
use htl_event::{Count, MAX_FRAMES, NoMemory, SharedStack, Sign, Slot};
use std::alloc::{Allocator, Global};

/// Counts the slot with the stack once more. Where memory is refused, the counts stay the same.
pub fn add_to_root<A: Allocator + Clone>(
    root: &mut Option<Node<A>>,
    alloc: &A,
    slot: Slot,
    sign: Sign,
    stack: &[u64],
) -> Result<(), NoMemory>
    requires normal { IsNormalRoot root.old }
    requires short { length stack.now ≤ MAX_FRAMES }
    requires fits { total_of (count_at (tree_of root.old) slot stack.now) + 1 < 2 ^ 64 }
    ensures { MatchResult result
        (λ _. IsNormalRoot root.new
        × (tree_of root.new ≡ with_one (tree_of root.old) slot sign stack.now))
        (λ _. IsNormalRoot root.new × (tree_of root.new ≡ tree_of root.old)) }
{
    if let Some(root) = root {
        return root.add(slot, sign, stack);
    }
    let branch = Node::branch(alloc, slot, sign, stack)?;
    *root = Some(branch);
    Ok(())
}

/// How often the slot came with a stack that begins with the path, read from the outermost frame.
pub fn under_root<A: Allocator>(root: &Option<Node<A>>, path: &[u64], slot: Slot) -> Count
    requires normal { IsNormalRoot root.now }
    requires fits { total_count (tree_of root.now) < 2 ^ 64 }
    ensures { result ≡ count_under (tree_of root.now) path.now slot }
{
    match root {
        None => ZERO,
        Some(root) => root.top().under(path, slot),
    }
}

/// Whether both count each slot equally often with each stack.
pub fn same_roots<A: Allocator>(left: &Option<Node<A>>, right: &Option<Node<A>>) -> bool
    requires left { IsNormalRoot left.now }
    requires right { IsNormalRoot right.now }
    ensures { IsTrue result ↔ IsSameTally (tree_of left.now) (tree_of right.now) }
{
    match (left, right) {
        (None, None) => true,
        (Some(left), Some(right)) => left.top().same(&right.top()),
        (None, Some(_)) => false,
        (Some(_), None) => false,
    }
}

/// A root that counts the same, in memory of its own.
pub fn copy_root<A: Allocator + Clone>(
    root: &Option<Node<A>>,
    alloc: &A,
) -> Result<Option<Node<A>>, NoMemory>
    requires { IsNormalRoot root.now }
    ensures { IfOk result (λ copy. IsNormalRoot copy × (tree_of copy ≡ tree_of root.now)) }
{
    match root {
        None => Ok(None),
        Some(root) => Ok(Some(root.top().copy(alloc)?)),
    }
}

/// A root that counts what both count together, in memory of its own.
pub fn plus_roots<A: Allocator + Clone>(
    left: &Option<Node<A>>,
    right: &Option<Node<A>>,
    alloc: &A,
) -> Result<Option<Node<A>>, NoMemory>
    requires left { IsNormalRoot left.now }
    requires right { IsNormalRoot right.now }
    requires fits { total_count (tree_of left.now) + total_count (tree_of right.now) < 2 ^ 64 }
    ensures { IfOk result (λ sum. IsNormalRoot sum
        × IsSumTally (tree_of sum) (tree_of left.now) (tree_of right.now)) }
{
    match (left, right) {
        (None, right) => copy_root(right, alloc),
        (left, None) => copy_root(left, alloc),
        (Some(left), Some(right)) => Ok(Some(left.top().plus(&right.top(), alloc)?)),
    }
}

/// The counts of these slots, by stack and then by slot.
pub fn list_root_rows<A: Allocator>(
    root: &Option<Node<A>>,
    alloc: Global,
    slots: Slots,
) -> Result<Vec<((Slot, SharedStack), Count)>, NoMemory>
    requires { IsNormalRoot root.now }
    ensures { IfOk result (λ rows. rows.items ≡ picked (has_slot slots) (tree_of root.now)) }
{
    let mut rows = Vec::new(alloc);
    match root {
        None => Ok(rows),
        Some(root) => {
            let mut path = Vec::with_capacity(alloc, MAX_FRAMES)?;
            root.list_rows(alloc, slots, &mut path, &mut rows)?;
            Ok(rows)
        }
    }
}

/// The counts of these slots, by stack and then by slot, with the stacks left out. A slot is there
/// once for each of its stacks.
pub fn list_root_counts<A: Allocator>(
    root: &Option<Node<A>>,
    alloc: Global,
    slots: Slots,
) -> Result<Vec<(Slot, Count)>, NoMemory>
    requires { IsNormalRoot root.now }
    ensures { IfOk result (λ counts.
        counts.items ≡ asked_of slots (counts_in (tree_of root.now))) }
{
    let mut counts = Vec::new(alloc);
    match root {
        None => Ok(counts),
        Some(root) => {
            root.list_counts(slots, &mut counts)?;
            Ok(counts)
        }
    }
}

/// Each slot that is counted, once, in slot order.
pub fn list_root_slots<A: Allocator>(
    root: &Option<Node<A>>,
    alloc: Global,
) -> Result<Vec<Slot>, NoMemory>
    requires { IsNormalRoot root.now }
    ensures { IfOk result (λ slots. ListsSlots (tree_of root.now) slots.items) }
{
    let mut slots = Vec::new(alloc);
    match root {
        None => Ok(slots),
        Some(root) => {
            root.list_slots(&mut slots)?;
            order_slots(&mut slots);
            Ok(slots)
        }
    }
}
