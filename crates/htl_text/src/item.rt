//! Items: what the lines of a text say.

use htl_event::Event;

/// The fields of a header, whether or not they keep the rules of the format.
#[derive(Clone, Copy, Debug, PartialEq, Eq)]
pub(crate) struct Head {
    pub version: u16,
    pub trace_id: u64,
    pub processors: u16,
    pub processor: u16,
    pub number: u32,
}

/// The item that one line says.
#[derive(Debug, Drop)]
pub(crate) enum Item {
    /// A segment begins here.
    Segment(Head),
    /// This is an event of the segment. Its frames follow.
    Event(Event<()>),
    /// This is the next frame of the event's stack, from the innermost call outwards.
    Frame(u64),
}
