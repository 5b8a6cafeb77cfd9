//! Answers over held events, which were not folded.

ghost use Rattle.std.specs.Prelude.{◌≡◌, ◌↔◌, IsTrue, Contains, flat_map};
ghost use Rattle.std.specs.Option.{option_copied};
ghost use Rattle.htl_tables.specs.Latest.{with_event};
ghost use Rattle.htl_event.specs.Handles.{LatestIs, IsGreatestSequence, IsOf, later};

use htl_event::{EventList, Kind, SharedEvent, base};

/// The later of two events, or the first where they have one sequence.
pub fn later_of<'a>(
    one: Option<&'a SharedEvent>,
    other: Option<&'a SharedEvent>,
) -> Option<&'a SharedEvent>
    ensures { option_copied result ≡ later (option_copied one.entry) (option_copied other.entry) }
{
    match (one, other) {
        (None, _) => other,
        (Some(_), None) => one,
        (Some(first), Some(second)) => {
            if first.sequence < second.sequence {
                other
            } else {
                one
            }
        }
    }
}

/// The later of an event and one more, if that opens or closes the base handle of the process, or else
/// the first.
fn with_event<'a>(
    old: Option<&'a SharedEvent>,
    event: &'a SharedEvent,
    process: u32,
    handle: u32,
) -> Option<&'a SharedEvent>
    ensures { option_copied result ≡ with_event process handle (option_copied old.entry) event.now }
{
    if event.kind.opens_or_closes() && event.process == process && base(event.handle) == handle {
        later_of(old, Some(event))
    } else {
        old
    }
}

/// The latest open or close of the base handle of the process among the events.
fn latest_of_events(events: &[SharedEvent], process: u32, base: u32) -> Option<&SharedEvent>
    ensures { LatestIs (Contains events.now) process base (option_copied result) }
{
    let mut latest = None;
    for event in events {
        latest = with_event(latest, event, process, base);
    }
    latest
}

/// The latest open or close of the base handle of the process among the events of the lists.
pub fn latest_held<E: EventList>(lists: &[E], process: u32, base: u32) -> Option<&SharedEvent>
    ensures { LatestIs (Contains (flat_map E.events_of lists.now)) process base
        (option_copied result) }
{
    let mut latest = None;
    for list in lists {
        latest = later_of(latest, latest_of_events(list.events(), process, base));
    }
    latest
}

/// Whether the event is of the kind and of the process.
fn is_of(event: &SharedEvent, kind: Kind, process: u32) -> bool
    ensures { IsTrue result ↔ IsOf kind process event.now }
{
    event.kind == kind && event.process == process
}

/// The greatest sequence of the kind's events of the process among the events.
fn greatest_of_events(events: &[SharedEvent], kind: Kind, process: u32) -> u64
    ensures { IsGreatestSequence (λ e. Contains events.now e × IsOf kind process e) result }
{
    let mut greatest = 0;
    for event in events {
        if is_of(event, kind, process) {
            greatest = greatest.max(event.sequence);
        }
    }
    greatest
}

/// The greatest sequence of the kind's events of the process among the events of the lists, or 0 where
/// there is none.
pub fn greatest_held<E: EventList>(lists: &[E], kind: Kind, process: u32) -> u64
    ensures { IsGreatestSequence
        (λ e. Contains (flat_map E.events_of lists.now) e × IsOf kind process e) result }
{
    let mut greatest = 0;
    for list in lists {
        greatest = greatest.max(greatest_of_events(list.events(), kind, process));
    }
    greatest
}
