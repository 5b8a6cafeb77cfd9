//! Why the reading of a source ended.

use htl_event::NoMemory;
use htl_segment::Fault;

/// Why the reading of a source ended before its end.
#[derive(Clone, Copy, Debug, PartialEq, Eq)]
pub enum SourceFault {
    /// The bytes at this offset are not a segment.
    Segment { offset: u64, fault: Fault },
    /// A read failed, or the source had no end after `MAX_READS` reads.
    Read,
    /// Memory was refused.
    NoMemory,
}

impl SourceFault {
    ghost use Rattle.std.specs.Prelude.{◌≡◌};
    ghost use Rattle.htl_reading.specs.Blocks.{of_segment};

    /// The fault of the bytes at an offset.
    pub(crate) fn from_segment(offset: u64, fault: Fault) -> SourceFault
        ensures { result ≡ of_segment offset fault }
    {
        match fault {
            Fault::NoMemory => SourceFault::NoMemory,
            _ => SourceFault::Segment { offset, fault },
        }
    }
}

impl<R: Into<NoMemory>> From<R> for SourceFault {
    ghost use Rattle.htl_reading.specs.Blocks.{IsNoMemory};

    ghost from_gives = { λ _. IsNoMemory };

    fn from(refused: R) -> SourceFault {
        let NoMemory = refused.into();
        SourceFault::NoMemory
    }
}
