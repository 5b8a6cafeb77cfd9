//! Puts the rows of one stack into a node, all their counts by one descent.

ghost use Rattle.std.specs.Prelude.{◌≡◌, ◌+◌, ◌<◌, ◌^◌, [], length, reverse};
ghost use Rattle.std.specs.Prelude.{IfOk, OnOk, OnErr, MatchResult};
ghost use Rattle.std.specs.FinMap.Entries.{put};
ghost use Rattle.htl_event.specs.declared.slot.Slot.{Slot};
ghost use Rattle.htl_event.specs.SlotOrder.{slot_cmp};
ghost use Rattle.htl_event.specs.Tallies.{plus_count, total_of, IsPositive};
ghost use Rattle.htl_sorted.specs.Entries.{IsSorted, Each};
ghost use Rattle.htl_tree.specs.Nodes.{top, tally, count_in, IsNormal, IsKept};
ghost use Rattle.htl_tree.specs.Rows.{entries_of, slot_sum, Gained, IsGained, IsLeafOfRows};

use crate::filters::filters_of;
use crate::node::{Node, find_frame, find_slot, insert_child, sum_of};
use crate::row::Row;
use crate::sums::plus_counts;
use htl_event::{Count, NoMemory, Slot};
use std::alloc::Allocator;

impl<A: Allocator + Clone> Node<A> {
    /// A node that counts these rows at the end of the stack, and nothing else. Its vectors have no
    /// room to spare.
    pub fn leaf_of_rows(alloc: &A, stack: &[u64], rows: &[Row<'_>]) -> Result<Self, NoMemory>
        requires some { 0 < length rows.now }
        requires positive { Each IsPositive (entries_of rows.now) }
        requires fits { (slot : Slot) → total_of (slot_sum slot rows.now) < 2 ^ 64 }
        ensures { IfOk result (λ node. IsLeafOfRows (reverse stack.now) rows.now (top node)) }
    {
        let counts = counts_of(alloc.clone()?, rows)?;
        Node::leaf(alloc, counts, stack)
    }

    /// Adds the counts of the rows at the end of the stack. Where memory is refused, the node
    /// counts what it did.
    pub fn add_rows(&mut self, stack: &[u64], rows: &[Row<'_>]) -> Result<(), NoMemory>
        requires normal { IsNormal (top self.old) }
        requires some { 0 < length rows.now }
        requires positive { Each IsPositive (entries_of rows.now) }
        requires fits { (slot : Slot) → total_of (tally (reverse stack.now) slot (top self.old))
            + total_of (slot_sum slot rows.now) < 2 ^ 64 }
        ensures { MatchResult result
            (λ _. IsGained (reverse stack.now) rows.now (top self.old) (top self.new))
            (λ _. IsKept (top self.old) (top self.new)) }
    {
        let stack = self.enter(stack)?;
        match stack.split_last() {
            None => {
                add_to_counts(&mut self.counts, rows)?;
                self.filters |= filters_of(&self.counts);
                Ok(())
            }
            Some((frame, rest)) => match find_frame(&self.children, *frame) {
                Ok(i) => {
                    let child = &mut self.children[i].1;
                    let added = child.add_rows(rest, rows);
                    self.filters |= child.filters;
                    added
                }
                Err(i) => {
                    let child = Node::leaf_of_rows(self.children.allocator(), rest, rows)?;
                    let filters = child.filters;
                    insert_child(&mut self.children, i, *frame, child)?;
                    self.filters |= filters;
                    Ok(())
                }
            },
        }
    }
}

/// Adds the counts of the rows, slot by slot. Where memory is refused, the counts stay the same.
/// The rows are counted in a list of their own, which is merged with the old one in one pass.
fn add_to_counts<A: Allocator + Clone>(
    counts: &mut Vec<(Slot, Count), A>,
    rows: &[Row<'_>],
) -> Result<(), NoMemory>
    requires sorted { IsSorted slot_cmp counts.old.items }
    requires positive { Each IsPositive counts.old.items }
    requires rows { Each IsPositive (entries_of rows.now) }
    requires fits { (slot : Slot) → total_of (count_in counts.old.items slot)
        + total_of (slot_sum slot rows.now) < 2 ^ 64 }
    ensures ok { OnOk result (Gained rows.now counts.old.items counts.new.items) }
    ensures err { OnErr result (counts.new.items ≡ counts.old.items) }
{
    let alloc = counts.allocator().clone()?;
    let more = counts_of(alloc.clone()?, rows)?;
    if counts.is_empty() {
        *counts = more;
        return Ok(());
    }
    let sums = plus_counts(alloc, counts, &more)?;
    *counts = sums;
    Ok(())
}

/// The counts of the rows by slot. Room for all is made at once.
fn counts_of<A: Allocator>(alloc: A, rows: &[Row<'_>]) -> Result<Vec<(Slot, Count), A>, NoMemory>
    requires rows { Each IsPositive (entries_of rows.now) }
    requires fits { (slot : Slot) → total_of (slot_sum slot rows.now) < 2 ^ 64 }
    ensures { IfOk result (λ counts. Gained rows.now [] counts.items) }
{
    let mut counts = Vec::with_capacity(alloc, rows.len())?;
    for row in rows {
        add_count(&mut counts, row.slot, row.count)?;
    }
    Ok(counts)
}

/// Adds this count to the slot's.
pub fn add_count<A: Allocator>(
    counts: &mut Vec<(Slot, Count), A>,
    slot: Slot,
    count: Count,
) -> Result<(), NoMemory>
    requires sorted { IsSorted slot_cmp counts.old.items }
    requires fits { total_of (count_in counts.old.items slot) + total_of count < 2 ^ 64 }
    ensures { OnOk result (counts.new.items
        ≡ put slot_cmp slot (plus_count (count_in counts.old.items slot) count) counts.old.items) }
{
    match find_slot(counts, slot) {
        Ok(i) => {
            let sum = sum_of(counts[i].1, count);
            counts[i].1 = sum;
            Ok(())
        }
        Err(i) => {
            counts.insert(i, (slot, count))?;
            Ok(())
        }
    }
}
