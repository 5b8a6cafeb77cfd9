//! Answers about handles and processes that take no memory.

ghost use Rattle.std.specs.Prelude.{◌≡◌, ◌≢◌, List, Contains, IsNone, map};
ghost use Rattle.std.specs.Option.{option_copied};
ghost use Rattle.htl_event.specs.Events.{Event};
ghost use Rattle.htl_event.specs.Slots.{base_of};
ghost use Rattle.htl_event.specs.Handles.{LatestIs, IsMark, IsLastExit};
ghost use Rattle.htl_answers.specs.Parts.{AreEventsOf};

use crate::held::{greatest_held, later_of, latest_held};
use crate::part::Part;
use htl_event::{Kind, SharedEvent, base};

/// The latest open or close of the handle's base in the process. Base 0 names no entry of a handle
/// table, so there is none for it.
pub fn latest<P: Part>(parts: &[P], process: u32, handle: u32) -> Option<&SharedEvent>
    ensures value { base_of handle ≢ 0
        → (events : List Event) → AreEventsOf (map P.contents parts.now) events
        → LatestIs (Contains events) process (base_of handle) (option_copied result) }
    ensures zero { base_of handle ≡ 0 → IsNone result }
{
    let base = base(handle);
    if base == 0 {
        return None;
    }
    let mut latest = None;
    for part in parts {
        let folded = part.latest().get(process, handle);
        let held = latest_held(part.held(), process, base);
        latest = later_of(latest, later_of(folded, held));
    }
    latest
}

/// The snapshot mark of the process: the greatest sequence of its snapshots, or 0 where it has none.
pub fn mark<P: Part>(parts: &[P], process: u32) -> u64
    ensures { (events : List Event) → AreEventsOf (map P.contents parts.now) events
        → IsMark (Contains events) process result }
{
    let mut mark = 0;
    for part in parts {
        let folded = part.marks().get(process);
        let held = greatest_held(part.held(), Kind::Snapshot, process);
        mark = mark.max(folded.max(held));
    }
    mark
}

/// The last exit of the process: the greatest sequence of its exits, or 0 where it has none.
pub(crate) fn last_exit<P: Part>(parts: &[P], process: u32) -> u64
    ensures { (events : List Event) → AreEventsOf (map P.contents parts.now) events
        → IsLastExit (Contains events) process result }
{
    let mut exit = 0;
    for part in parts {
        let folded = part.exits().get(process);
        let held = greatest_held(part.held(), Kind::Exited, process);
        exit = exit.max(folded.max(held));
    }
    exit
}
