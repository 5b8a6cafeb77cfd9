//! Counts of all stacks that begin alike.

ghost use Rattle.std.specs.Prelude.{◌≡◌, ◌<◌, ◌^◌, []};
ghost use Rattle.htl_event.specs.Tallies.{total_of};
ghost use Rattle.htl_tree.specs.Nodes.{inside, position_of, IsNormal, sum_under};

use crate::cursor::Cursor;
use crate::filters::filter_of;
use crate::node::{Node, ZERO, count_in, sum_of};
use htl_event::{Count, Slot};
use std::alloc::Allocator;

impl<A: Allocator> Node<A> {
    /// The sum of the slot's counts at this node and below.
    pub fn sum(&self, slot: Slot) -> Count
        requires normal { IsNormal (inside self.now) }
        requires fits { total_of (sum_under [] slot (inside self.now)) < 2 ^ 64 }
        ensures { result ≡ sum_under [] slot (inside self.now) }
    {
        if !self.may_count(filter_of(slot)) {
            return ZERO;
        }
        let mut sum = count_in(&self.counts, slot);
        for (_, child) in &self.children {
            let below = child.sum(slot);
            sum = sum_of(sum, below);
        }
        sum
    }
}

impl<'a, A: Allocator> Cursor<'a, A> {
    /// The sum of the slot's counts at the position that the path leads to, from the outermost
    /// frame, and below.
    pub fn under(&self, path: &[u64], slot: Slot) -> Count
        requires normal { IsNormal (position_of self.now) }
        requires fits { total_of (sum_under path.now slot (position_of self.now)) < 2 ^ 64 }
        ensures { result ≡ sum_under path.now slot (position_of self.now) }
    {
        match path.split_first() {
            None => self.node.sum(slot),
            Some((frame, rest)) => match self.child(*frame) {
                Some(child) => child.under(rest, slot),
                None => ZERO,
            },
        }
    }
}
