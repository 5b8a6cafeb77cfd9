//! Rows of latest events, by process and base handle.

ghost use Rattle.htl_tables.specs.Keys.{key_of};
ghost use Rattle.htl_tables.specs.Latest.{later_of};
ghost use Rattle.htl_tables.specs.KeyLaws.{key_cmp-equal};

use htl_event::{SharedEvent, base};
use htl_sorted::{Joined, Keyed};
use std::alloc::AllocError;

/// Events by process and base handle. Of two for one handle the later stays.
pub(crate) struct ByHandle;

impl Keyed for ByHandle {
    type Row = SharedEvent;

    type Key = (u32, u32);

    type Value = SharedEvent;

    ghost key_of = { key_of };

    ghost value_of = { λ e. e };

    ghost proper = { key_cmp-equal };

    fn key(event: &SharedEvent) -> (u32, u32) {
        (event.process, base(event.handle))
    }
}

impl Joined for ByHandle {
    ghost can_join = { λ x y. Unit {0} };

    ghost joined = { later_of };

    fn copy(event: &SharedEvent) -> Result<SharedEvent, AllocError> {
        event.copy()
    }

    fn join(left: &SharedEvent, right: &SharedEvent) -> Result<SharedEvent, AllocError> {
        if left.sequence < right.sequence {
            right.copy()
        } else {
            left.copy()
        }
    }
}
