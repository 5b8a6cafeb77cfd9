//! The span and the points of a growth.

/// The moments from a first to a last sequence.
#[derive(Clone, Copy, Debug, PartialEq, Eq)]
pub struct Span {
    pub first: u64,
    pub last: u64,
}

/// How many handles of a process are outstanding as of a moment.
#[derive(Clone, Copy, Debug, PartialEq, Eq)]
pub struct Point {
    /// The moment: events with a greater sequence don't count.
    pub sequence: u64,
    pub outstanding: u64,
}
