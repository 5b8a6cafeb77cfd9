//! Why analysts are not made, and segments and analysts not taken in; and what a take answers.
ghost use Rattle.std.specs.Prelude.{◌≡◌};
ghost use Rattle.htl_analyst.specs.declared.fault.AnalystFault.TheVariants as analysts;
ghost use Rattle.htl_analyst.specs.declared.fault.MergeFault.TheVariants as merges;
ghost use Rattle.htl_analyst.specs.declared.fault.RestoreFault.TheVariants as restores;

use htl_event::NoMemory;
use std::alloc::AllocError;

/// Why an analyst was not made.
#[derive(Clone, Copy, Debug, PartialEq, Eq)]
pub enum AnalystFault {
    /// The number of processors is 0 or above 256.
    Processors,
    NoMemory,
}

/// Why a segment was not taken. The causes are tried in this order.
#[derive(Clone, Copy, Debug, PartialEq, Eq)]
pub enum TakeFault {
    /// The segment has another trace id.
    OtherTrace,
    /// The segment has another processor count.
    OtherProcessors,
    /// A different segment of this processor and number is held.
    Conflict(u16, u32),
    NoMemory,
}

/// Why two analysts were not merged. The causes are tried in this order.
#[derive(Clone, Copy, Debug, PartialEq, Eq)]
pub enum MergeFault {
    /// The analysts have two trace ids.
    OtherTrace,
    /// The analysts have two processor counts.
    OtherProcessors,
    /// Both hold a segment of this processor and number, and the two are different. It is the least
    /// such processor, and the least such number there.
    Conflict(u16, u32),
    NoMemory,
}

/// Why no analyst was made of folds. The number of processors is tried first, and then each
/// processor in turn.
#[derive(Clone, Copy, Debug, PartialEq, Eq)]
pub enum RestoreFault {
    /// The number of processors is 0 or above 256.
    Processors,
    /// The tree of this processor counts more than 4,096 times its front.
    Counts(u16),
    /// More than 4,096 times its front events were folded of this processor, though its tree counts
    /// no more than that.
    Events(u16),
    NoMemory,
}

/// Whether a segment was taken now or had been before.
#[derive(Clone, Copy, Debug, PartialEq, Eq)]
pub enum Took {
    New,
    Repeat,
}

impl From<NoMemory> for AnalystFault {
    ghost from_gives = { λ _ fault. fault ≡ analysts.NoMemory };

    fn from(_refused: NoMemory) -> AnalystFault {
        AnalystFault::NoMemory
    }
}

impl From<AllocError> for AnalystFault {
    ghost from_gives = { λ _ fault. fault ≡ analysts.NoMemory };

    fn from(_refused: AllocError) -> AnalystFault {
        AnalystFault::NoMemory
    }
}

impl From<NoMemory> for MergeFault {
    ghost from_gives = { λ _ fault. fault ≡ merges.NoMemory };

    fn from(_refused: NoMemory) -> MergeFault {
        MergeFault::NoMemory
    }
}

impl From<NoMemory> for RestoreFault {
    ghost from_gives = { λ _ fault. fault ≡ restores.NoMemory };

    fn from(_refused: NoMemory) -> RestoreFault {
        RestoreFault::NoMemory
    }
}

impl From<AllocError> for RestoreFault {
    ghost from_gives = { λ _ fault. fault ≡ restores.NoMemory };

    fn from(_refused: AllocError) -> RestoreFault {
        RestoreFault::NoMemory
    }
}
