//! Events of lines.

use htl_event::SharedEvent;
use htl_samples::shared_events;
use std::alloc::Global;
use std::process::Abort;

/// The events of lines.
pub fn events_of(rt: &impl Abort, alloc: Global, lines: &str) -> Vec<SharedEvent> {
    shared_events(alloc, lines).expect(rt, "the lines are events")
}
