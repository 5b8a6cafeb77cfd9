//! The events of a list up to a moment.

ghost use Rattle.std.specs.Prelude.{◌≡◌};
ghost use Rattle.std.specs.List.Sorted.{IsNonDecreasingBy};
ghost use Rattle.htl_event.specs.Moments.{events_until};

use crate::event::SharedEvent;
use crate::event_list::EventList;

/// The events of a list up to a moment, as a list. None is copied.
#[derive(Clone, Copy, Debug)]
pub struct Until<'a> {
    events: &'a [SharedEvent],
}

impl<'a> Until<'a> {
    ghost use Rattle.std.specs.Prelude.{◌≡◌};
    ghost use Rattle.std.specs.List.Sorted.{IsNonDecreasingBy};
    ghost use Rattle.htl_event.specs.Moments.{counted_events};

    /// The events at or below the moment, or all where none is given. The sequences of the events
    /// rise.
    pub fn new(events: &'a [SharedEvent], until: Option<u64>) -> Until<'a>
        ensures { IsNonDecreasingBy (λ e. e.sequence) events.now
            → ⟦<Until<'a> as EventList>⟧.events_of result ≡ counted_events until events.now }
    {
        match until {
            Some(moment) => Until {
                events: up_to(events, moment),
            },
            None => Until { events },
        }
    }
}

impl EventList for Until<'_> {
    ghost events_of = { λ until. until.events.now };

    fn events(&self) -> &[SharedEvent] {
        self.events
    }
}

/// The events at or below the moment, which come first where the sequences rise.
fn up_to(events: &[SharedEvent], moment: u64) -> &[SharedEvent]
    ensures { IsNonDecreasingBy (λ e. e.sequence) events.now
        → result.now ≡ events_until moment events.now }
{
    &events[..events.partition_point(|event| event.sequence <= moment)]
}
