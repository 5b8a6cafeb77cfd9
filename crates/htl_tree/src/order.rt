//! The orders of a node's two lists.

use crate::node::{Node, sum_of};
use htl_event::{Count, Slot};
use htl_sorted::{Joined, Keyed};
use std::alloc::{AllocError, Allocator};
use std::marker::PhantomData;

/// The counts of a node, in slot order.
pub struct BySlot;

impl Keyed for BySlot {
    ghost use Rattle.htl_event.specs.OrderLaws.{slot_same};

    type Row = (Slot, Count);

    type Key = Slot;

    type Value = Count;

    ghost key_of = { λ row. row.0 };

    ghost value_of = { λ row. row.1 };

    ghost proper = { slot_same };

    fn key(row: &(Slot, Count)) -> Slot {
        row.0
    }
}

/// Two counts of one slot are added up.
impl Joined for BySlot {
    ghost use Rattle.std.specs.Prelude.{◌+◌, ◌<◌, ◌^◌};
    ghost use Rattle.htl_event.specs.Tallies.{plus_count, total_of};

    ghost can_join = { λ x y. total_of x + total_of y < 2 ^ 64 };

    ghost joined = { plus_count };

    fn copy(row: &(Slot, Count)) -> Result<(Slot, Count), AllocError> {
        Ok(*row)
    }

    fn join(left: &(Slot, Count), right: &(Slot, Count)) -> Result<(Slot, Count), AllocError> {
        Ok((left.0, sum_of(left.1, right.1)))
    }
}

/// The children of a node, in the order of their frames.
pub struct ByFrame<A: Allocator>(PhantomData<A>);

impl<A: Allocator> Keyed for ByFrame<A> {
    ghost use Rattle.std.specs.FinMap.{nat_cmp-IsAntisymmetric};

    type Row = (u64, Node<A>);

    type Key = u64;

    type Value = Node<A>;

    ghost key_of = { λ row. row.0 };

    ghost value_of = { λ row. row.1 };

    ghost proper = { nat_cmp-IsAntisymmetric };

    fn key(row: &(u64, Node<A>)) -> u64 {
        row.0
    }
}
