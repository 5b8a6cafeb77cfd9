//! A node: the counts of one stack, and the nodes further in.

ghost use Rattle.std.specs.Prelude.{◌≡◌, ◌≢◌, ◌+◌, ◌-◌, ◌<◌, ◌≤◌, ◌^◌, [], ◌++◌, length, take};
ghost use Rattle.std.specs.Prelude.{get_or, reverse, false, vec_len};
ghost use Rattle.std.specs.Prelude.{IfOk, IfErr, OnOk, OnErr, MatchResult};
ghost use Rattle.std.specs.List.{insert};
ghost use Rattle.std.specs.Int.Bits.{bit_and};
ghost use Rattle.std.specs.Ordering.{nat_cmp};
ghost use Rattle.htl_event.specs.Tallies.{total_of, plus_count};
ghost use Rattle.htl_sorted.specs.Entries.{IsSorted, IsPlace, IsGap};
ghost use Rattle.htl_event.specs.SlotOrder.{slot_cmp};
ghost use Rattle.htl_tree.specs.Trees.{add_one};
ghost use Rattle.htl_tree.specs.Filters.{HaveFilters};
ghost use Rattle.htl_tree.specs.Nodes.{frames, counts_of, children_of, filters_at, top};
ghost use Rattle.htl_tree.specs.Nodes.{tally, count_in};
ghost use Rattle.htl_tree.specs.Nodes.{IsNormal, counted, IsBranch, IsAdded, IsKept};

use crate::filters::{filter_of, filters_of};
use crate::order::{ByFrame, BySlot};
use htl_event::{Count, NoMemory, Sign, Slot};
use htl_sorted::search;
use std::alloc::Allocator;
use std::mem;

/// The root stands for the outermost end of all stacks. No count is zero, and no node is empty, so
/// that equal tallies have one tree when it is seen frame by frame.
#[derive(Drop)]
pub struct Node<A: Allocator> {
    /// The frames that lead to the node, the outermost first. The first of all is missing: the parent
    /// has the node under that frame.
    pub frames: Vec<u64, A>,
    pub counts: Vec<(Slot, Count), A>,
    pub children: Vec<(u64, Node<A>), A>,
    /// The filters of the slots that are counted at the node and below it. A walk that looks for
    /// slots with other filters skips the node.
    pub filters: u64,
}

/// The count of a slot that never came.
pub const ZERO: Count = Count { plus: 0, minus: 0 };

/// While a node has fewer children than this, its list of them has no room to spare.
const FEW_CHILDREN: usize = 8;

/// The place of a slot among counts in slot order, or else the place where it would go.
pub fn find_slot(counts: &[(Slot, Count)], slot: Slot) -> Result<usize, usize>
    requires { IsSorted slot_cmp counts.now }
    ensures found { IfOk result (IsPlace slot_cmp counts.now slot) }
    ensures absent { IfErr result (IsGap slot_cmp counts.now slot) }
{
    search::<BySlot>(counts, slot)
}

/// The place of the child under a frame, or else the place where it would go.
pub fn find_frame<A: Allocator>(children: &[(u64, Node<A>)], frame: u64) -> Result<usize, usize>
    requires { IsSorted nat_cmp children.now }
    ensures found { IfOk result (IsPlace nat_cmp children.now frame) }
    ensures absent { IfErr result (IsGap nat_cmp children.now frame) }
{
    search::<ByFrame<A>>(children, frame)
}

impl<A: Allocator> Node<A> {
    /// A node with one count, at the end of the stack.
    pub fn branch(alloc: &A, slot: Slot, sign: Sign, stack: &[u64]) -> Result<Self, NoMemory>
    where
        A: Clone,
        ensures { IfOk result (λ node. IsBranch (reverse stack.now) slot sign (top node)) }
    {
        let mut counts = Vec::with_capacity(alloc.clone()?, 1)?;
        counts.push((slot, add_one(ZERO, sign)))?;
        Node::leaf(alloc, counts, stack)
    }

    /// A node with these counts at the end of the stack. Its vectors have no room to spare.
    pub fn leaf(alloc: &A, counts: Vec<(Slot, Count), A>, stack: &[u64]) -> Result<Self, NoMemory>
    where
        A: Clone,
        ensures frames { IfOk result (λ node. frames node ≡ reverse stack.now) }
        ensures counts { IfOk result (λ node. counts_of node ≡ counts.items) }
        ensures children { IfOk result (λ node. children_of node ≡ []) }
        ensures filters { IfOk result (λ node. HaveFilters (filters_at node) (counts_of node)) }
    {
        let mut frames = Vec::from_slice(alloc.clone()?, stack)?;
        frames.reverse();
        let children = Vec::new(alloc.clone()?);
        let filters = filters_of(&counts);
        Ok(Node {
            frames,
            counts,
            children,
            filters,
        })
    }

    /// Counts one more at the end of the stack. A missing branch is built apart and attached by one
    /// allocation.
    pub fn add(&mut self, slot: Slot, sign: Sign, stack: &[u64]) -> Result<(), NoMemory>
    where
        A: Clone,
        requires normal { IsNormal (top self.old) }
        requires fits { total_of (tally (reverse stack.now) slot (top self.old)) + 1 < 2 ^ 64 }
        ensures { MatchResult result
            (λ _. IsAdded (reverse stack.now) slot sign (top self.old) (top self.new))
            (λ _. IsKept (top self.old) (top self.new)) }
    {
        let stack = self.enter(stack)?;
        match stack.split_last() {
            None => {
                count_one(&mut self.counts, slot, sign)?;
                self.filters |= filter_of(slot);
                Ok(())
            }
            Some((frame, rest)) => match find_frame(&self.children, *frame) {
                Ok(i) => {
                    let child = &mut self.children[i].1;
                    let added = child.add(slot, sign, rest);
                    self.filters |= child.filters;
                    added
                }
                Err(i) => {
                    let child = Node::branch(self.children.allocator(), slot, sign, rest)?;
                    let filters = child.filters;
                    insert_child(&mut self.children, i, *frame, child)?;
                    self.filters |= filters;
                    Ok(())
                }
            },
        }
    }

    /// Shortens the node's frames to those that the stack begins with, and returns the rest of the
    /// stack. The counts stay the same.
    pub fn enter<'a>(&mut self, stack: &'a [u64]) -> Result<&'a [u64], NoMemory>
    where
        A: Clone,
        requires normal { IsNormal (top self.old) }
        ensures kept { IsKept (top self.old) (top self.new) }
        ensures rest { IfOk result (λ rest.
            reverse stack.now ≡ frames self.new ++ reverse rest.now) }
    {
        let shared = shared_len(&self.frames, stack);
        if shared < self.frames.len() {
            self.split(shared)?;
        }
        Ok(&stack[..stack.len() - shared])
    }

    /// Whether the node has this filter. If it hasn't, no slot with this filter is counted at the node
    /// or below it.
    pub fn may_count(&self, filter: u64) -> bool
        ensures { result ≡ false → bit_and (filters_at self.now) filter ≢ filter }
    {
        self.filters & filter == filter
    }

    /// Splits the node: it keeps this many frames, and its only child gets the other frames, the counts
    /// and the children. Both have all filters of the node.
    fn split(&mut self, len: usize) -> Result<(), NoMemory>
    where
        A: Clone,
        requires normal { IsNormal (top self.old) }
        requires within { len < length (frames self.old) }
        ensures kept { IsKept (top self.old) (top self.new) }
        ensures frames { OnOk result (frames self.new ≡ take len (frames self.old)) }
    {
        let alloc = self.frames.allocator().clone()?;
        let lower = Node {
            frames: Vec::from_slice(alloc.clone()?, &self.frames[len + 1..])?,
            counts: Vec::new(alloc.clone()?),
            children: Vec::new(alloc.clone()?),
            filters: self.filters,
        };
        let mut children = Vec::with_capacity(alloc.clone()?, 2)?;
        children.push((self.frames[len], lower))?;
        let frames = Vec::from_slice(alloc, &self.frames[..len])?;
        self.swap_inside(&mut children[0].1);
        self.children = children;
        self.frames = frames;
        Ok(())
    }

    /// Exchanges the counts and the children of two nodes. Each keeps its frames and filters.
    fn swap_inside(&mut self, other: &mut Self)
        ensures frames { frames self.new ≡ frames self.old }
        ensures filters { filters_at self.new ≡ filters_at self.old }
        ensures counts { counts_of self.new ≡ counts_of other.old }
        ensures children { children_of self.new ≡ children_of other.old }
        ensures other_frames { frames other.new ≡ frames other.old }
        ensures other_filters { filters_at other.new ≡ filters_at other.old }
        ensures other_counts { counts_of other.new ≡ counts_of self.old }
        ensures other_children { children_of other.new ≡ children_of self.old }
    {
        mem::swap(&mut self.counts, &mut other.counts);
        mem::swap(&mut self.children, &mut other.children);
    }
}

/// Inserts a child at the place of its frame. Most forks have few children, so room is made for one.
pub fn insert_child<A: Allocator>(
    children: &mut Vec<(u64, Node<A>), A>,
    place: usize,
    frame: u64,
    child: Node<A>,
) -> Result<(), NoMemory>
    requires { place ≤ vec_len children.old }
    ensures ok { OnOk result
        (children.new.items ≡ insert children.old.items place (frame, child)) }
    ensures err { OnErr result (children.new.items ≡ children.old.items) }
{
    if children.len() < FEW_CHILDREN {
        children.reserve_exact(1)?;
    }
    children.insert(place, (frame, child))?;
    Ok(())
}

/// The number of these frames with which the stack begins, read from its outermost frame.
fn shared_len(frames: &[u64], stack: &[u64]) -> usize
    ensures within { result ≤ length frames.now }
    ensures stack { result ≤ length stack.now }
    ensures shared { reverse stack.now
        ≡ take result frames.now ++ reverse (take (length stack.now - result) stack.now) }
    ensures no_more { result < length frames.now → result < length stack.now
        → get_or frames.now result 0 ≢ get_or stack.now (length stack.now - 1 - result) 0 }
{
    let mut len = 0;
    while len < frames.len() && len < stack.len() && frames[len] == stack[stack.len() - 1 - len] {
        len += 1;
    }
    len
}

/// The slot's count among counts in slot order, zero where it has none.
pub fn count_in(counts: &[(Slot, Count)], slot: Slot) -> Count
    requires { IsSorted slot_cmp counts.now }
    ensures { result ≡ count_in counts.now slot }
{
    match find_slot(counts, slot) {
        Ok(i) => counts[i].1,
        Err(_) => ZERO,
    }
}

/// Both counts added up, each sign on its own.
pub fn sum_of(left: Count, right: Count) -> Count
    requires { total_of (plus_count left right) < 2 ^ 64 }
    ensures { result ≡ plus_count left right }
{
    Count {
        plus: left.plus + right.plus,
        minus: left.minus + right.minus,
    }
}

/// The count with one more of the sign.
pub fn add_one(count: Count, sign: Sign) -> Count
    requires { total_of count + 1 < 2 ^ 64 }
    ensures { result ≡ add_one sign count }
{
    match sign {
        Sign::Plus => Count {
            plus: count.plus + 1,
            minus: count.minus,
        },
        Sign::Minus => Count {
            plus: count.plus,
            minus: count.minus + 1,
        },
    }
}

fn count_one<A: Allocator>(
    counts: &mut Vec<(Slot, Count), A>,
    slot: Slot,
    sign: Sign,
) -> Result<(), NoMemory>
    requires sorted { IsSorted slot_cmp counts.old.items }
    requires fits { total_of (count_in counts.old.items slot) + 1 < 2 ^ 64 }
    ensures ok { OnOk result (counts.new.items ≡ counted slot sign counts.old.items) }
    ensures err { OnErr result (counts.new.items ≡ counts.old.items) }
{
    match find_slot(counts, slot) {
        Ok(i) => {
            let count = add_one(counts[i].1, sign);
            counts[i].1 = count;
            Ok(())
        }
        Err(i) => {
            let count = add_one(ZERO, sign);
            counts.insert(i, (slot, count))?;
            Ok(())
        }
    }
}
