//! Copies of nodes, and sums of two nodes.

ghost use Rattle.std.specs.Prelude.{◌≡◌, ◌+◌, ◌<◌, ◌≤◌, ◌^◌, length, drop, take, IfOk, OnOk};
ghost use Rattle.std.specs.Prelude.{◌≢◌, get_or};
ghost use Rattle.std.specs.FinMap.Entries.{find};
ghost use Rattle.htl_event.specs.declared.slot.Slot.{Slot};
ghost use Rattle.htl_event.specs.Tallies.{plus_count, total_of};
ghost use Rattle.htl_sorted.specs.Entries.{IsSorted, joined_at};
ghost use Rattle.htl_event.specs.SlotOrder.{slot_cmp};
ghost use Rattle.htl_tree.specs.Nodes.{top, tops, position_of, children, IsNormal, IsCopy};
ghost use Rattle.htl_tree.specs.Nodes.{AppendsCopies, IsSum, FitsSum, count_in};

use crate::cursor::Cursor;
use crate::node::Node;
use crate::order::BySlot;
use htl_event::{Count, NoMemory, Slot};
use htl_sorted::merge;
use std::alloc::Allocator;
use std::cmp::Ordering;

impl<'a, A: Allocator + Clone> Cursor<'a, A> {
    /// A copy of the node at this position.
    #[cycle(copying)]
    pub fn copy(&self, alloc: &A) -> Result<Node<A>, NoMemory>
        requires { IsNormal (position_of self.now) }
        ensures { IfOk result (λ copy. IsCopy (position_of self.now) (top copy)) }
    {
        let inside = self.skip(self.frames.len());
        let mut children = Vec::with_capacity(alloc.clone()?, inside.number_of_children())?;
        copy_children(alloc, &inside, 0, &mut children)?;
        Ok(Node {
            frames: Vec::from_slice(alloc.clone()?, self.frames)?,
            counts: Vec::from_slice(alloc.clone()?, inside.counts())?,
            children,
            filters: inside.filters(),
        })
    }

    /// The node whose counts are the sums of both positions' counts, made in one pass over both.
    pub fn plus(&self, other: &Self, alloc: &A) -> Result<Node<A>, NoMemory>
        requires left { IsNormal (position_of self.now) }
        requires right { IsNormal (position_of other.now) }
        requires fits { FitsSum (position_of self.now) (position_of other.now) }
        ensures { IfOk result (λ sum.
            IsSum (position_of self.now) (position_of other.now) (top sum)) }
    {
        let shared = common_len(self.frames, other.frames);
        let left = self.skip(shared);
        let right = other.skip(shared);
        let frames = Vec::from_slice(alloc.clone()?, &self.frames[..shared])?;
        let counts = plus_counts(alloc.clone()?, left.counts(), right.counts())?;
        let room = left.number_of_children().max(right.number_of_children());
        let mut children = Vec::with_capacity(alloc.clone()?, room)?;
        let mut i = 0;
        let mut j = 0;
        while i < left.number_of_children() && j < right.number_of_children() {
            let (x, a) = left.child_at(i);
            let (y, b) = right.child_at(j);
            match x.cmp(&y) {
                Ordering::Less => {
                    children.push((x, a.copy(alloc)?))?;
                    i += 1;
                }
                Ordering::Greater => {
                    children.push((y, b.copy(alloc)?))?;
                    j += 1;
                }
                Ordering::Equal => {
                    children.push((x, a.plus(&b, alloc)?))?;
                    i += 1;
                    j += 1;
                }
            }
        }
        copy_children(alloc, &left, i, &mut children)?;
        copy_children(alloc, &right, j, &mut children)?;
        Ok(Node {
            frames,
            counts,
            children,
            filters: left.filters() | right.filters(),
        })
    }
}

/// The number of frames with which both begin.
fn common_len(left: &[u64], right: &[u64]) -> usize
    ensures left { result ≤ length left.now }
    ensures right { result ≤ length right.now }
    ensures shared { take result left.now ≡ take result right.now }
    ensures no_more { result < length left.now → result < length right.now
        → get_or left.now result 0 ≢ get_or right.now result 0 }
{
    let mut len = 0;
    while len < left.len() && len < right.len() && left[len] == right[len] {
        len += 1;
    }
    len
}

/// The sums of both sides' counts, slot by slot.
pub fn plus_counts<A: Allocator>(
    alloc: A,
    left: &[(Slot, Count)],
    right: &[(Slot, Count)],
) -> Result<Vec<(Slot, Count), A>, NoMemory>
    requires left { IsSorted slot_cmp left.now }
    requires right { IsSorted slot_cmp right.now }
    requires fits { (slot : Slot)
        → total_of (count_in left.now slot) + total_of (count_in right.now slot) < 2 ^ 64 }
    ensures sorted { IfOk result (λ sums. IsSorted slot_cmp sums.items) }
    ensures values { IfOk result (λ sums. (slot : Slot)
        → find slot_cmp slot sums.items
        ≡ joined_at plus_count (find slot_cmp slot left.now) (find slot_cmp slot right.now)) }
{
    let sums = merge::<BySlot, A>(alloc, left, right)?;
    Ok(sums)
}

/// Adds copies of the children, from this one on.
#[cycle(copying)]
fn copy_children<A: Allocator + Clone>(
    alloc: &A,
    from: &Cursor<'_, A>,
    start: usize,
    into: &mut Vec<(u64, Node<A>), A>,
) -> Result<(), NoMemory>
    requires { IsNormal (position_of from.now) }
    ensures { OnOk result (AppendsCopies (drop start (children (position_of from.now)))
        (tops into.old.items) (tops into.new.items)) }
{
    for index in start..from.number_of_children() {
        let (frame, child) = from.child_at(index);
        into.push((frame, child.copy(alloc)?))?;
    }
    Ok(())
}
