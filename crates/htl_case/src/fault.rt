//! Why a list of segments isn't a case, and why a list of steps isn't played.

use htl_event::NoMemory;
use thiserror::Error;

/// Why a list of segments isn't a case: the first rule that it breaks. Each rule is tried over all
/// segments before the next. The `Display` text is the fault's code.
#[derive(Clone, Copy, Debug, PartialEq, Eq, Error)]
pub enum CaseFault {
    /// There are no segments.
    #[error("C1")]
    Empty,
    /// The segment at this place, counted from 0, is the first whose trace id isn't that of place 0.
    #[error("C2({0})")]
    OtherTrace(u64),
    /// The segment at this place is the first whose processor count isn't that of place 0.
    #[error("C3({0})")]
    OtherProcessors(u64),
    /// Two different segments have this processor and number, the least such ones.
    #[error("C4({0}, {1})")]
    TwoContents(u16, u32),
    /// Two different segments have an event of this sequence, the least such one.
    #[error("C5({0})")]
    SequenceTwice(u64),
    /// An allocation was refused. It is reported after `TwoContents`, and before the faults that are
    /// tried later.
    #[error("C6")]
    NoMemory,
    /// The segment of this processor and number has an event that isn't above every sequence in the
    /// processor's segments of lower numbers. It is the least such segment. This rule is tried last.
    #[error("C7({0}, {1})")]
    Falling(u16, u32),
}

/// Why a list of steps isn't played. The steps are checked in their order before any is done, so
/// the fault is that of the first step that has one. The `Display` text is the fault's code.
#[derive(Clone, Copy, Debug, PartialEq, Eq, Error)]
pub enum PlayFault {
    /// The step at this place, counted from 0, names an analyst that isn't there.
    #[error("P1({0})")]
    NoAnalyst(u64),
    /// The step at this place names analysts that are there and a segment that isn't.
    #[error("P2({0})")]
    NoSegment(u64),
    /// An allocation was refused. No step names an analyst or a segment that isn't there.
    #[error("P3")]
    NoMemory,
}

impl<R: Into<NoMemory>> From<R> for CaseFault {
    ghost use Rattle.std.specs.Prelude.{◌≡◌};
    ghost use Rattle.htl_case.specs.declared.fault.CaseFault.TheVariants as faults;

    ghost from_gives = { λ _ fault. fault ≡ faults.NoMemory };

    fn from(refused: R) -> CaseFault {
        let NoMemory = refused.into();
        CaseFault::NoMemory
    }
}

impl<R: Into<NoMemory>> From<R> for PlayFault {
    ghost use Rattle.std.specs.Prelude.{◌≡◌};
    ghost use Rattle.htl_case.specs.declared.fault.PlayFault.TheVariants as faults;

    ghost from_gives = { λ _ fault. fault ≡ faults.NoMemory };

    fn from(refused: R) -> PlayFault {
        let NoMemory = refused.into();
        PlayFault::NoMemory
    }
}
