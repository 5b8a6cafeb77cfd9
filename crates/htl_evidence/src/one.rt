//! An event as a list.

use htl_event::{EventList, SharedEvent};
use std::slice::from_ref;

/// A list of one event, which stays where it lies.
#[derive(Clone, Copy, Debug)]
pub struct One<'a> {
    pub event: &'a SharedEvent,
}

impl EventList for One<'_> {
    ghost use Rattle.std.specs.Prelude.{[], ◌∷◌};

    ghost events_of = { λ one. one.event.now ∷ [] };

    fn events(&self) -> &[SharedEvent] {
        from_ref(self.event)
    }
}
