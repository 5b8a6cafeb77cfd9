//! Why an exchange isn't started or closed, or a case isn't surveyed.

use crate::desk::Desk;
use crate::exchange::Exchange;
use htl_event::NoMemory;

/// Why no exchange is started.
#[derive(Clone, Copy, Debug, PartialEq, Eq)]
pub enum StartFault {
    /// The number of desks isn't 1 to 8.
    Desks,
    /// Memory was refused.
    NoMemory,
}

impl From<NoMemory> for StartFault {
    ghost use Rattle.std.specs.Prelude.{◌≡◌};
    ghost use Rattle.htl_exchange.specs.declared.fault.StartFault.TheVariants as faults;

    ghost from_gives = { λ _ fault. fault ≡ faults.NoMemory };

    fn from(_refused: NoMemory) -> StartFault {
        StartFault::NoMemory
    }
}

/// Why an exchange isn't closed.
#[derive(Clone, Copy, Debug, PartialEq, Eq)]
pub enum Why {
    /// Some desks weren't handed in: how many were, of how many that are out.
    DesksOut(u32, u32),
    /// Memory was refused.
    NoMemory,
}

/// A refused close: the cause, and the exchange and the desks, so that it can be tried again.
#[derive(Drop)]
pub struct CloseFault {
    pub why: Why,
    pub exchange: Exchange,
    pub desks: Vec<Desk>,
}

/// Why a case isn't surveyed.
#[derive(Clone, Copy, Debug, PartialEq, Eq)]
pub enum SurveyFault {
    /// The number of workers isn't 1 to 8.
    Workers,
    /// Memory was refused, other than in a worker's turn.
    NoMemory,
    /// The system refused to start a worker. Those that ran were joined first.
    NoThread,
}
