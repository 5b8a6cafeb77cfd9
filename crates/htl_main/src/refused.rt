//! Why a run ended, and which two segments its fault is about.

use crate::origin::Between;
use htl_event::NoMemory;
use htl_inputs::RunFault;
use thiserror::Error;

/// Why a run ended, and which two segments its fault is about. Its text is the fault's line.
#[derive(Clone, Copy, Debug, PartialEq, Eq, Error)]
#[error("{fault}")]
pub struct Refused {
    pub fault: RunFault,
    pub between: Between,
}

/// A fault that is about no two segments.
impl From<RunFault> for Refused {
    ghost use Rattle.std.specs.Prelude.{◌≡◌};
    ghost use Rattle.htl_main.specs.declared.origin.Between.TheVariants.{Nothing};

    ghost from_gives = { λ fault refused.
        (refused.fault ≡ fault) × (refused.between ≡ Nothing) };

    fn from(fault: RunFault) -> Refused {
        Refused {
            fault,
            between: Between::Nothing,
        }
    }
}

/// Memory was refused, which is about no two segments.
impl From<NoMemory> for Refused {
    ghost use Rattle.std.specs.Prelude.{◌≡◌};
    ghost use Rattle.htl_inputs.specs.declared.fault.RunFault.TheVariants.{Memory};
    ghost use Rattle.htl_main.specs.declared.origin.Between.TheVariants.{Nothing};

    ghost from_gives = { λ _ refused.
        (refused.fault ≡ Memory) × (refused.between ≡ Nothing) };

    fn from(_refused: NoMemory) -> Refused {
        Refused::from(RunFault::Memory)
    }
}
