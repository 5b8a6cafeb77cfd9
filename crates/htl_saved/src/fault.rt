//! Why no rows are made of an analyst, and no analyst of bytes.

ghost use Rattle.std.specs.Prelude.{◌≡◌};
ghost use Rattle.htl_saved.specs.declared.fault.SaveFault.TheVariants as saves;
ghost use Rattle.htl_saved.specs.declared.fault.LoadFault.TheVariants as loads;

use htl_analyst::RestoreFault;
use htl_event::NoMemory;
use htl_state::StateError;
use thiserror::Error;

/// Why no rows are made of an analyst.
#[derive(Clone, Copy, Debug, PartialEq, Eq, Error)]
pub enum SaveFault {
    /// The analyst has more than 2^32 stacks: a row has no number for the places of all of them.
    #[error("more than 2^32 stacks")]
    Stacks,
    /// An allocation was refused.
    #[error("out of memory")]
    NoMemory,
}

/// Why no analyst is made of bytes.
#[derive(Clone, Copy, Debug, PartialEq, Eq)]
pub enum LoadFault {
    /// The bytes are no state.
    Format(StateError),
    /// The bytes are rows of no analyst's state, or an allocation was refused.
    Bounds(RestoreFault),
}

impl From<StateError> for LoadFault {
    ghost from_gives = { λ error fault. fault ≡ loads.Format error };

    fn from(error: StateError) -> LoadFault {
        LoadFault::Format(error)
    }
}

impl From<RestoreFault> for LoadFault {
    ghost from_gives = { λ refused fault. fault ≡ loads.Bounds refused };

    fn from(refused: RestoreFault) -> LoadFault {
        LoadFault::Bounds(refused)
    }
}

impl<R: Into<NoMemory>> From<R> for SaveFault {
    ghost from_gives = { λ _ fault. fault ≡ saves.NoMemory };

    fn from(refused: R) -> SaveFault {
        let NoMemory = refused.into();
        SaveFault::NoMemory
    }
}
