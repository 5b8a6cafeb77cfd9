//! Lists of events, and how many events several lists have.

ghost use Rattle.std.specs.Prelude.{◌≡◌, ◌<◌, ◌≤◌, ◌^◌, None, IfSome, length, flat_map};

use crate::event::SharedEvent;
use std::alloc::Allocator;

/// A type that has a list of events, as a segment does. Calls that need the events of several such
/// lists take a slice of them, so callers need not concatenate.
pub trait EventList {
    ghost use Rattle.std.specs.Prelude.{List};
    ghost use Rattle.htl_event.specs.Events.{Event};

    ghost events_of: { Self → List Event };

    /// The events in the list's order. None is copied.
    fn events(&self) -> &[SharedEvent]
        ensures { result.now ≡ events_of self.now };
}

impl<A: Allocator> EventList for Vec<SharedEvent, A> {
    ghost events_of = { λ run. run.items };

    fn events(&self) -> &[SharedEvent] {
        self.as_slice()
    }
}

/// The number of events in the lists, or none if it exceeds a `u64`.
pub fn number_of_events<R: EventList>(lists: &[R]) -> Option<usize>
    ensures some { IfSome result (λ number. number ≡ length (flat_map R.events_of lists.now)) }
    ensures none { result ≡ None → 2 ^ 64 ≤ length (flat_map R.events_of lists.now) }
{
    let mut number = 0usize;
    for list in lists {
        number = number.checked_add(list.events().len())?;
    }
    Some(number)
}
