//! Takes rows out of a tree again, after memory was refused while they were added. No memory is
//! asked for here.

ghost use Rattle.std.specs.Prelude.{◌≡◌, ◌<◌, ◌==◌, not, true, false};
ghost use Rattle.std.specs.Prelude.{ℕ, List, [], length, reverse, filter};
ghost use Rattle.std.specs.Borrow.{Bor};
ghost use Rattle.std.specs.List.{flat_map, AllByRecursion};
ghost use Rattle.std.specs.FinMap.Entries.{put};
ghost use Rattle.htl_event.specs.declared.slot.Slot.{Slot};
ghost use Rattle.htl_event.specs.declared.slot.Count.{Count};
ghost use Rattle.htl_event.specs.SlotOrder.{slot_cmp};
ghost use Rattle.htl_event.specs.Tallies.{plus_count, IsPositive};
ghost use Rattle.htl_sorted.specs.Entries.{IsSorted, Each};
ghost use Rattle.htl_tree.specs.Trees.{count_at};
ghost use Rattle.htl_tree.specs.declared.row.Row.{Row};
ghost use Rattle.htl_tree.specs.Nodes.{inside, top, tree_of, counts_of, children_of, tally, count_in};
ghost use Rattle.htl_tree.specs.Nodes.{IsNonEmpty, IsNormal, IsNormalRoot};
ghost use Rattle.htl_tree.specs.Rows.{entries_of, slot_sum, sum_at, AreShort, IsGroup, WithRows};
ghost use Rattle.htl_tree.specs.Removed.{minus_count, is_some_count, IsAtMost, Lost, IsLess};

use crate::node::{Node, find_frame, find_slot};
use crate::row::Row;
use htl_event::{Count, Slot};
use std::alloc::Allocator;

/// Takes what these groups count out of the tree, which counts them among others.
pub fn remove_groups<A: Allocator>(root: &mut Option<Node<A>>, groups: &[&[Row<'_>]])
    requires normal { IsNormalRoot root.old }
    requires groups { AllByRecursion (λ (group : Bor (List Row)). IsGroup group.now) groups.now }
    requires rows { AllByRecursion (λ (group : Bor (List Row)). AreShort group.now) groups.now }
    requires counted { (before : Slot → List ℕ → Count) × ((slot : Slot) (stack : List ℕ)
        → count_at (tree_of root.old) slot stack ≡ plus_count (before slot stack)
        (sum_at (entries_of (flat_map (λ (group : Bor (List Row)). group.now) groups.now)) slot stack)) }
    ensures normal { IsNormalRoot root.new }
    ensures counts { WithRows (tree_of root.old) (tree_of root.new)
        (flat_map (λ (group : Bor (List Row)). group.now) groups.now) }
{
    for group in groups {
        remove_group(root, group);
    }
}

/// Takes what the rows of one stack count out of the tree.
fn remove_group<A: Allocator>(root: &mut Option<Node<A>>, group: &[Row<'_>])
    requires normal { IsNormalRoot root.old }
    requires group { IsGroup group.now }
    requires rows { AreShort group.now }
    requires counted { (slot : Slot) (stack : List ℕ) → IsAtMost
        (sum_at (entries_of group.now) slot stack) (count_at (tree_of root.old) slot stack) }
    ensures normal { IsNormalRoot root.new }
    ensures counts { WithRows (tree_of root.old) (tree_of root.new) group.now }
{
    if let Some(node) = root {
        node.remove_rows(group[0].stack, group);
        if node.is_empty() {
            *root = None;
        }
    }
}

impl<A: Allocator> Node<A> {
    /// Takes what the rows count out of the counts at the end of the stack, and drops each child of
    /// which nothing is left. The node's frames all lead along the stack, since the rows are counted
    /// at its end.
    fn remove_rows(&mut self, stack: &[u64], rows: &[Row<'_>])
        requires normal { IsNormal (top self.old) }
        requires some { 0 < length rows.now }
        requires positive { Each IsPositive (entries_of rows.now) }
        requires counted { (slot : Slot) → IsAtMost
            (slot_sum slot rows.now) (tally (reverse stack.now) slot (top self.old)) }
        ensures { IsLess (reverse stack.now) rows.now self.old self.new }
    {
        let stack = &stack[..stack.len() - self.frames.len()];
        match stack.split_last() {
            None => remove_from_counts(&mut self.counts, rows),
            Some((frame, rest)) => {
                if let Ok(i) = find_frame(&self.children, *frame) {
                    let child = &mut self.children[i].1;
                    child.remove_rows(rest, rows);
                    if child.is_empty() {
                        remove_child(&mut self.children, *frame);
                    }
                }
            }
        }
    }

    /// Whether nothing is counted at the node or below it.
    fn is_empty(&self) -> bool
        ensures empty { result ≡ true → (counts_of self.now ≡ []) × (children_of self.now ≡ []) }
        ensures some { result ≡ false → IsNonEmpty (inside self.now) }
    {
        self.counts.is_empty() && self.children.is_empty()
    }
}

/// Drops the child under the frame.
fn remove_child<A: Allocator>(children: &mut Vec<(u64, Node<A>), A>, frame: u64)
    ensures { children.new.items ≡ filter (λ child. not (child.0 == frame)) children.old.items }
{
    children.retain(|child| child.0 != frame);
}

/// Takes what the rows count out of the counts, and drops those of which nothing is left.
fn remove_from_counts<A: Allocator>(counts: &mut Vec<(Slot, Count), A>, rows: &[Row<'_>])
    requires sorted { IsSorted slot_cmp counts.old.items }
    requires rows { Each IsPositive (entries_of rows.now) }
    requires counted { (slot : Slot)
        → IsAtMost (slot_sum slot rows.now) (count_in counts.old.items slot) }
    ensures lost { Lost rows.now counts.old.items counts.new.items }
    ensures positive { Each IsPositive counts.new.items }
{
    for row in rows {
        subtract(counts, row.slot, row.count);
    }
    drop_zeros(counts);
}

/// Takes this count out of the slot's, and leaves zero where it was all.
fn subtract<A: Allocator>(counts: &mut Vec<(Slot, Count), A>, slot: Slot, count: Count)
    requires sorted { IsSorted slot_cmp counts.old.items }
    requires positive { IsPositive count }
    requires counted { IsAtMost count (count_in counts.old.items slot) }
    ensures { counts.new.items
        ≡ put slot_cmp slot (minus_count (count_in counts.old.items slot) count) counts.old.items }
{
    if let Ok(i) = find_slot(counts, slot) {
        let left = difference(counts[i].1, count);
        counts[i].1 = left;
    }
}

/// The first count without the second, each sign on its own.
fn difference(all: Count, part: Count) -> Count
    requires { IsAtMost part all }
    ensures { result ≡ minus_count all part }
{
    Count {
        plus: all.plus - part.plus,
        minus: all.minus - part.minus,
    }
}

/// Drops the counts that are zero.
fn drop_zeros<A: Allocator>(counts: &mut Vec<(Slot, Count), A>)
    ensures { counts.new.items ≡ filter (λ entry. is_some_count entry.1) counts.old.items }
{
    counts.retain(|entry| counts_something(entry.1));
}

/// Whether the count is more than zero, on either side.
pub fn counts_something(count: Count) -> bool
    ensures { result ≡ is_some_count count }
{
    count.plus > 0 || count.minus > 0
}
