//! Lists of the counts and slots of a node.

ghost use Rattle.std.specs.Prelude.{◌≡◌, ℕ, ◌<◌, ◌≤◌, List, [], ◌++◌, ◌↔◌, length};
ghost use Rattle.std.specs.Prelude.{map, reverse, false, Contains, IfOk, OnOk};
ghost use Rattle.htl_event.specs.declared.slot.Slot.{Slot};
ghost use Rattle.htl_event.specs.declared.slot.Count.{Count};
ghost use Rattle.htl_event.specs.Members.{IsRising};
ghost use Rattle.htl_tree.specs.Trees.{BySlot};
ghost use Rattle.htl_tree.specs.HasSlot.{has_slot};
ghost use Rattle.htl_tree.specs.Nodes.{top, inside, rows, rows_at, rows_of_counts};
ghost use Rattle.htl_tree.specs.Nodes.{asked_of, counts_in, slots_of, IsNormal, IsShortFrom};

use crate::filters::common_filter;
use crate::node::Node;
use crate::slots::Slots;
use htl_event::{Count, MAX_FRAMES, NoMemory, SharedStack, Slot};
use std::alloc::{Allocator, Global};

impl<A: Allocator> Node<A> {
    /// Adds the counts of these slots, at this node and below, by stack and then by slot. The path
    /// leads to the node's frames from the outermost frame, and is there again at the return.
    pub fn list_rows(
        &self,
        alloc: Global,
        slots: Slots,
        path: &mut Vec<u64>,
        into: &mut Vec<((Slot, SharedStack), Count)>,
    ) -> Result<(), NoMemory>
        requires normal { IsNormal (top self.now) }
        requires short { IsShortFrom (length path.old.items) (rows (top self.now)) }
        ensures path { OnOk result (path.new.items ≡ path.old.items) }
        ensures listed { OnOk result (into.new.items
            ≡ into.old.items
            ++ rows_at (has_slot slots) path.old.items (rows (top self.now))) }
    {
        if !self.may_count(common_filter(slots)) {
            return Ok(());
        }
        let len = path.len();
        path.extend_from_slice(&self.frames)?;
        push_rows(alloc, &self.counts, slots, path, into)?;
        for (frame, child) in &self.children {
            path.push(*frame)?;
            child.list_rows(alloc, slots, path, into)?;
            let _ = path.pop();
        }
        path.truncate(len);
        Ok(())
    }

    /// Adds the counts of these slots, at this node and below, whatever their stacks.
    pub fn list_counts(&self, slots: Slots, into: &mut Vec<(Slot, Count)>) -> Result<(), NoMemory>
        requires { IsNormal (inside self.now) }
        ensures { OnOk result (into.new.items
            ≡ into.old.items ++ asked_of slots (counts_in (rows (inside self.now)))) }
    {
        if !self.may_count(common_filter(slots)) {
            return Ok(());
        }
        push_counts(&self.counts, slots, into)?;
        for (_, child) in &self.children {
            child.list_counts(slots, into)?;
        }
        Ok(())
    }

    /// Adds the slots that are counted at this node and below, each as often as it is counted.
    pub fn list_slots(&self, into: &mut Vec<Slot>) -> Result<(), NoMemory>
        ensures { OnOk result (into.new.items
            ≡ into.old.items ++ slots_of (rows (inside self.now))) }
    {
        push_slots(&self.counts, into)?;
        for (_, child) in &self.children {
            child.list_slots(into)?;
        }
        Ok(())
    }
}

fn push_counts(
    counts: &[(Slot, Count)],
    slots: Slots,
    into: &mut Vec<(Slot, Count)>,
) -> Result<(), NoMemory>
    ensures { OnOk result (into.new.items ≡ into.old.items ++ asked_of slots counts.now) }
{
    for (slot, count) in counts {
        if slots.contains(*slot) {
            into.push((*slot, *count))?;
        }
    }
    Ok(())
}

fn push_slots(counts: &[(Slot, Count)], into: &mut Vec<Slot>) -> Result<(), NoMemory>
    ensures { OnOk result (into.new.items ≡ into.old.items ++ map (λ entry. entry.0) counts.now) }
{
    for (slot, _) in counts {
        into.push(*slot)?;
    }
    Ok(())
}

/// Puts slots in order, each once.
pub fn order_slots(slots: &mut Vec<Slot>)
    ensures rising { IsRising BySlot slots.new.items }
    ensures members { (slot : Slot)
        → Contains slots.new.items slot ↔ Contains slots.old.items slot }
{
    slots.sort_unstable();
    slots.dedup();
}

fn push_rows(
    alloc: Global,
    counts: &[(Slot, Count)],
    slots: Slots,
    path: &[u64],
    into: &mut Vec<((Slot, SharedStack), Count)>,
) -> Result<(), NoMemory>
    requires { 0 < length counts.now → length path.now ≤ MAX_FRAMES }
    ensures { OnOk result (into.new.items
        ≡ into.old.items ++ rows_of_counts (has_slot slots) path.now counts.now) }
{
    if counts.is_empty() || !has_any(counts, slots) {
        return Ok(());
    }
    let stack = stack_at(alloc, path)?;
    for (slot, count) in counts {
        if slots.contains(*slot) {
            into.push(((*slot, stack.copy()?), *count))?;
        }
    }
    Ok(())
}

/// Whether one of the counts is of one of these slots.
fn has_any(counts: &[(Slot, Count)], slots: Slots) -> bool
    ensures { result ≡ false → (path : List ℕ)
        → rows_of_counts (has_slot slots) path counts.now ≡ [] }
{
    for (slot, _) in counts {
        if slots.contains(*slot) {
            return true;
        }
    }
    false
}

/// The stack that a path from the outermost frame leads to.
fn stack_at(alloc: Global, path: &[u64]) -> Result<SharedStack, NoMemory>
    requires { length path.now ≤ MAX_FRAMES }
    ensures { IfOk result (λ stack. stack ≡ reverse path.now) }
{
    let mut addresses = Vec::from_slice(alloc, path)?;
    addresses.reverse();
    SharedStack::of(alloc, addresses, 0)
}

/// The rows of one slot, with the slot left out.
pub fn without_slot(
    alloc: Global,
    rows: &[((Slot, SharedStack), Count)],
) -> Result<Vec<(SharedStack, Count)>, NoMemory>
    ensures { IfOk result (λ stacks. stacks.items
        ≡ map (λ (row : (Slot × List ℕ) × Count). (row.0.1, row.1)) rows.now) }
{
    let mut stacks = Vec::with_capacity(alloc, rows.len())?;
    for ((_, stack), count) in rows {
        stacks.push((stack.copy()?, *count))?;
    }
    Ok(stacks)
}
