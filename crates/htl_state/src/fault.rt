//! Why bytes are no state.
ghost use Rattle.htl_state.specs.declared.fault.Fault.TheVariants as faults;

use htl_event::NoMemory;
use thiserror::Error;

/// Why bytes are no state: the first rule of the format that they break, in the order in which the
/// rules are tried. The `Display` text is the fault's code.
#[derive(Clone, Copy, Debug, PartialEq, Eq, Error)]
pub enum Fault {
    /// Fewer bytes than a state has at least.
    #[error("F1")]
    Short,
    /// The bytes don't begin with `HLA1`.
    #[error("F2")]
    Magic,
    /// The version isn't known.
    #[error("F3")]
    Version,
    /// The header's reserved field isn't 0.
    #[error("F4")]
    Reserved,
    /// No processors, or more than 256.
    #[error("F5")]
    Processors,
    /// The length at the end isn't that of the bytes.
    #[error("F6")]
    Length,
    /// The checksum at the end isn't that of the bytes before it.
    #[error("F7")]
    Checksum,
    /// Fewer bytes are left than the rows of a list take.
    #[error("F8")]
    List,
    /// A stack is cut or too deep, or isn't above that before it.
    #[error("F9")]
    Stack,
    /// Fewer bytes are left than the numbers at the front of a part take.
    #[error("F10")]
    Part,
    /// A count is of no stack of the table or of no slot, is zero on both sides, or isn't above the
    /// count before it.
    #[error("F11")]
    Count,
    /// A latest event is none, is of no stack of the table, or isn't above that before it.
    #[error("F12")]
    Latest,
    /// A mark or an exit has the sequence 0, or isn't above that before it.
    #[error("F13")]
    Moment,
    /// A held segment is none, isn't of the part, or isn't above the front or that before it.
    #[error("F14")]
    Held,
    /// Bytes are left after the last part.
    #[error("F15")]
    Excess,
    /// An allocation was refused.
    #[error("F16")]
    NoMemory,
}

/// Why bytes are no state, and the offset at which the refused item begins, from 0. For refused
/// memory the offset means nothing.
#[derive(Clone, Copy, Debug, PartialEq, Eq)]
pub struct StateError {
    pub fault: Fault,
    pub offset: u64,
}

/// Why an item can't be read, and how many bytes are left where it begins.
#[derive(Clone, Copy, Debug, PartialEq, Eq)]
pub(crate) struct Refused {
    pub(crate) fault: Fault,
    pub(crate) left: usize,
}

impl Refused {
    ghost use Rattle.std.specs.Prelude.{◌≡◌};
    ghost use Rattle.htl_state.specs.Reading.{refused};

    /// The item at the front of these bytes is refused.
    pub(crate) fn at(fault: Fault, bytes: &[u8]) -> Refused
        ensures { result ≡ refused fault bytes.now }
    {
        Refused {
            fault,
            left: bytes.len(),
        }
    }
}

impl<R: Into<NoMemory>> From<R> for Refused {
    ghost use Rattle.std.specs.Prelude.{◌≡◌};

    ghost from_gives = { λ _ refused. refused.fault ≡ faults.NoMemory };

    fn from(refused: R) -> Refused {
        let NoMemory = refused.into();
        Refused {
            fault: Fault::NoMemory,
            left: 0,
        }
    }
}
