//! A position in a tree: at a node, or some frames before it. From one position to the next it is
//! one frame, as if each node had one.

ghost use Rattle.std.specs.Prelude.{◌≡◌, ◌<◌, ◌≤◌, Some, None, IfSome};
ghost use Rattle.std.specs.Prelude.{length, drop, get_or, reverse};
ghost use Rattle.std.specs.Ordering.{nat_cmp};
ghost use Rattle.std.specs.FinMap.Entries.{find};
ghost use Rattle.htl_tree.specs.Nodes.{top, position_of, counts, filters, children};
ghost use Rattle.htl_tree.specs.Nodes.{tally, IsNormal};

use crate::node::{Node, ZERO, count_in, find_frame};
use htl_event::{Count, Slot};
use std::alloc::Allocator;

/// A position in a tree.
#[derive(Clone, Copy)]
pub struct Cursor<'a, A: Allocator> {
    /// The frames from here to the node.
    pub frames: &'a [u64],
    pub node: &'a Node<A>,
}

impl<A: Allocator> Node<A> {
    /// The position before all frames of a node.
    pub fn top(&self) -> Cursor<'_, A>
        ensures { position_of result ≡ top self.now }
    {
        Cursor {
            frames: &self.frames,
            node: self,
        }
    }
}

impl<'a, A: Allocator> Cursor<'a, A> {
    /// The position this many frames further towards the node.
    pub fn skip(&self, frames: usize) -> Cursor<'a, A>
        requires { frames ≤ length self.now.frames.now }
        ensures { position_of result ≡ (drop frames self.now.frames.now, self.now.node.now) }
    {
        Cursor {
            frames: &self.frames[frames..],
            node: self.node,
        }
    }

    /// The counts here. There are none before the node.
    pub fn counts(&self) -> &'a [(Slot, Count)]
        ensures { result.now ≡ counts (position_of self.now) }
    {
        if self.frames.is_empty() {
            &self.node.counts
        } else {
            &[]
        }
    }

    /// The filters of the slots that are counted here or further in.
    pub fn filters(&self) -> u64
        ensures { result ≡ filters (position_of self.now) }
    {
        self.node.filters
    }

    /// The number of positions one frame further in. Before the node there is one.
    pub fn number_of_children(&self) -> usize
        ensures { result ≡ length (children (position_of self.now)) }
    {
        if self.frames.is_empty() {
            self.node.children.len()
        } else {
            1
        }
    }

    /// One of these positions, and the frame that leads to it, in frame order.
    pub fn child_at(&self, index: usize) -> (u64, Cursor<'a, A>)
        requires { index < length (children (position_of self.now)) }
        ensures { (result.0, position_of result.1)
            ≡ get_or (children (position_of self.now)) index (result.0, position_of result.1) }
    {
        match self.frames.split_first() {
            Some((frame, frames)) => (
                *frame,
                Cursor {
                    frames,
                    node: self.node,
                },
            ),
            None => {
                let (frame, child) = &self.node.children[index];
                (*frame, child.top())
            }
        }
    }

    /// The position that the frame leads to.
    pub fn child(&self, frame: u64) -> Option<Cursor<'a, A>>
        requires { IsNormal (position_of self.now) }
        ensures some { IfSome result (λ child.
            find nat_cmp frame (children (position_of self.now)) ≡ Some (position_of child)) }
        ensures none { result ≡ None → find nat_cmp frame (children (position_of self.now)) ≡ None }
    {
        match self.frames.split_first() {
            Some((first, frames)) if *first == frame => Some(Cursor {
                frames,
                node: self.node,
            }),
            Some(_) => None,
            None => match find_frame(&self.node.children, frame) {
                Ok(i) => Some(self.node.children[i].1.top()),
                Err(_) => None,
            },
        }
    }

    /// The count at the end of the stack.
    pub fn at(&self, slot: Slot, stack: &[u64]) -> Count
        requires { IsNormal (position_of self.now) }
        ensures { result ≡ tally (reverse stack.now) slot (position_of self.now) }
    {
        match stack.split_last() {
            None => count_in(self.counts(), slot),
            Some((frame, rest)) => match self.child(*frame) {
                Some(child) => child.at(slot, rest),
                None => ZERO,
            },
        }
    }
}
