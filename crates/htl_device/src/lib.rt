//! Sources and sinks of bytes, which report whether they have failed.
//!
//! A contract can't say what a file or a pipe gives or takes. So the run is written over the
//! traits `Source` and `Sink`, whose clauses speak of the bytes where the device gives them to
//! contracts, as one over memory does, and else of failures alone. `Reading` and `Writing` make a
//! source and a sink of std's.
//!
//! Files: `source.rt` and `sink.rt` (the traits, and std's readers and writers as such), `parted.rt`
//! (sources that several workers may read at once), `whole.rt` (whole texts, over as many reads or
//! writes as they take), `laws.rt` (the bounds of reading).
#![tactic(auto)]

pub mod laws;
mod parted;
mod sink;
mod source;
mod whole;

/// A read or a write failed.
#[derive(Clone, Copy, Debug, PartialEq, Eq)]
pub struct Failed;

pub use parted::Parted;
pub use sink::{Sink, Writing};
pub use source::{MAX_READ_LEN, MIN_READ_LEN, Reading, Source};
pub use whole::{MAX_READS, ReadFault, read_whole, write_whole};
