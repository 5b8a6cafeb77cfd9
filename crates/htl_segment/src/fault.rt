//! Why bytes are no segment.
ghost use Rattle.std.specs.Prelude.{◌≡◌};
ghost use Rattle.htl_segment.specs.declared.fault.Fault.TheVariants as faults;

use htl_event::NoMemory;
use thiserror::Error;

/// Why bytes are no segment: the first rule of the format that they break.
///
/// A number is the place of a record, counted from 0. The `Display` text is the fault's code.
#[derive(Clone, Copy, Debug, PartialEq, Eq, Error)]
pub enum Fault {
    /// Fewer bytes than a header has.
    #[error("S1")]
    Short,
    /// The bytes don't begin with `HLS1`.
    #[error("S2")]
    Magic,
    /// The version isn't known.
    #[error("S3")]
    Version,
    /// No processors, or more than the version allows.
    #[error("S4")]
    Processors,
    /// The processor isn't below their number.
    #[error("S5")]
    Processor,
    /// The header's reserved field isn't 0.
    #[error("S6")]
    Reserved,
    /// The segment number is above 0xFFFFFFFE.
    #[error("S7")]
    Number,
    /// More than 4,096 records.
    #[error("S8")]
    Count,
    /// The length is below a header's, or above what the version allows.
    #[error("S9")]
    Length,
    /// Fewer bytes than the length.
    #[error("S10")]
    Cut,
    /// Fewer bytes are left inside the length than a record without frames has.
    #[error("S11({0})")]
    RecordShort(u64),
    /// The sequence is 0, or not above that of the record before.
    #[error("S12({0})")]
    Sequence(u64),
    /// The version has no such kind.
    #[error("S13({0})")]
    Kind(u64),
    /// More frames than the version allows, or than the bytes left inside the length hold.
    #[error("S14({0})")]
    Frames(u64),
    /// The reserved field, the handle, the object or the tag isn't what the kind asks.
    #[error("S15({0})")]
    Field(u64),
    /// Bytes are left inside the length after the last record.
    #[error("S16")]
    Excess,
    /// An allocation was refused.
    #[error("S17")]
    NoMemory,
}

impl Fault {
    ghost use Rattle.std.specs.Prelude.{◌≡◌};
    ghost use Rattle.htl_segment.specs.Bundles.{is_early_end};

    /// Whether the bytes only end too early, so that more bytes may complete them to a segment.
    pub fn is_early_end(self) -> bool
        ensures { result ≡ is_early_end self }
    {
        matches!(self, Fault::Short | Fault::Cut)
    }
}

impl<R: Into<NoMemory>> From<R> for Fault {
    ghost from_gives = { λ _ fault. fault ≡ faults.NoMemory };

    fn from(refused: R) -> Fault {
        let NoMemory = refused.into();
        Fault::NoMemory
    }
}
