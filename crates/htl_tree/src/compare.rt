//! Equality: whether two positions count the same.

ghost use Rattle.std.specs.Prelude.{◌≡◌, ◌↔◌, IsTrue};
ghost use Rattle.htl_tree.specs.Nodes.{position_of, tally_of, IsNormal, IsSameTally};

use crate::cursor::Cursor;
use htl_event::{Count, Slot};
use std::alloc::Allocator;

fn same_counts(a: &[(Slot, Count)], b: &[(Slot, Count)]) -> bool
    ensures { IsTrue result ↔ a.now ≡ b.now }
{
    a == b
}

impl<'a, A: Allocator> Cursor<'a, A> {
    /// Two nodes whose branches fork at other frames may count the same, where memory ran out
    /// after one was split. So positions are compared, frame by frame.
    pub fn same(&self, other: &Self) -> bool
        requires left { IsNormal (position_of self.now) }
        requires right { IsNormal (position_of other.now) }
        ensures { IsTrue result
            ↔ IsSameTally (tally_of (position_of self.now)) (tally_of (position_of other.now)) }
    {
        if !same_counts(self.counts(), other.counts())
            || self.number_of_children() != other.number_of_children()
        {
            return false;
        }
        for i in 0..self.number_of_children() {
            let (x, a) = self.child_at(i);
            let (y, b) = other.child_at(i);
            if x != y || !a.same(&b) {
                return false;
            }
        }
        true
    }
}
