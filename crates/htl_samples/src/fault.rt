//! Why there is no sample.

use htl_event::{Event, NoMemory};
use htl_segment::Fault;
use std::alloc::{AllocError, AllocFailed};
use thiserror::Error;

/// Why there is no sample.
#[derive(Clone, Copy, Debug, PartialEq, Eq, Error)]
pub enum SampleFault {
    /// The line or the stack isn't one that this crate takes.
    #[error("no sample")]
    Line,
    /// The parts are no segment.
    #[error("no segment: {0}")]
    Segment(Fault),
    /// An allocation was refused.
    #[error("out of memory")]
    NoMemory,
}

impl From<NoMemory> for SampleFault {
    fn from(_refused: NoMemory) -> SampleFault {
        SampleFault::NoMemory
    }
}

impl From<AllocError> for SampleFault {
    fn from(_refused: AllocError) -> SampleFault {
        SampleFault::NoMemory
    }
}

impl<T: Drop> From<AllocFailed<T>> for SampleFault {
    fn from(_refused: AllocFailed<T>) -> SampleFault {
        SampleFault::NoMemory
    }
}

impl From<(Fault, Vec<Event>)> for SampleFault {
    fn from((fault, _): (Fault, Vec<Event>)) -> SampleFault {
        match fault {
            Fault::NoMemory => SampleFault::NoMemory,
            _ => SampleFault::Segment(fault),
        }
    }
}
