//! Why a run ended: its faults, their lines and their statuses.

use htl_case::CaseFault;
use htl_device::ReadFault;
use htl_event::NoMemory;
use htl_reading::{DigitsFault, SourceFault};
use htl_segment::{Fault, HexFault};
use htl_state::Fault as StateFault;
use htl_symbols::SymbolFault;
use htl_text::{LineFault, TextFault, event_line};
use std::alloc::{AllocError, AllocFailed};
use thiserror::Error;

/// Why a run ended. Its text is the line that the program prints on standard error.
///
/// Inputs and offsets count from 0. The offset is that in the bytes of the input, which are the
/// decoded ones where it is given in hexadecimal.
#[derive(Clone, Copy, Debug, PartialEq, Eq, Error)]
pub enum RunFault {
    /// The number of workers is not allowed.
    #[error("hleak: workers must be 1 to 8")]
    Workers,
    /// The bytes at this offset of an input are not a segment.
    #[error("hleak: input {input}, offset {offset}: {fault}")]
    Segment {
        input: u64,
        offset: u64,
        fault: Fault,
    },
    /// An input is not valid hexadecimal.
    #[error("hleak: input {input}: {fault}")]
    Hex {
        input: u64,
        fault: HexFault,
    },
    /// A text that is to be encoded has this fault at this line, counted from 1. If the fault is in
    /// an event of the segment that begins there, `event` is the event's line.
    #[error("hleak: input {input}, line {line}: {fault}")]
    Text {
        input: u64,
        line: u64,
        fault: LineFault,
        event: Option<u64>,
    },
    /// The segments of all inputs don't form a case.
    #[error("hleak: case: {0}")]
    Case(CaseFault),
    /// A complete case was asked for, and the segment of this key is the first that is missing.
    #[error("hleak: case: C8({processor}, {number})")]
    Incomplete {
        processor: u16,
        number: u32,
    },
    /// The question's subject has no event, and the exit status would say that nothing was found.
    #[error("hleak: case: C9")]
    NoSubject,
    /// The symbols are not a symbol table.
    #[error("hleak: symbols: {0}")]
    Symbols(SymbolFault),
    /// A read of an input failed, or the input could not be opened.
    #[error("hleak: input {input}: read failed")]
    Read {
        input: u64,
    },
    /// The file of symbols could not be read. The program reports it; a run is given the bytes.
    #[error("hleak: symbols: read failed")]
    SymbolsRead,
    /// A write failed, or accepted none of the bytes.
    #[error("hleak: output: write failed")]
    Write,
    /// An allocation was refused.
    #[error("hleak: out of memory")]
    Memory,
    /// The system refused to start a worker. No run reports it, since each can do without threads.
    #[error("hleak: no thread")]
    NoThread,
    /// A complete case was asked for, and no segment is known to be missing, but this input is cut
    /// within one, and which one isn't known: it ends within the header, or the segment is of
    /// another trace.
    #[error("hleak: case: C10({input})")]
    UnknownCut {
        input: u64,
    },
    /// The bytes at this offset of a saved state are none of its format. States are counted as
    /// inputs are: that of a line is 0.
    #[error("hleak: state {state}, offset {offset}: {fault}")]
    State {
        state: u64,
        offset: u64,
        fault: StateFault,
    },
    /// A saved state counts more of this processor than its segments can have.
    #[error("hleak: state {state}: F17({processor})")]
    Unbounded {
        state: u64,
        processor: u16,
    },
    /// A saved state could not be read.
    #[error("hleak: state {state}: read failed")]
    StateRead {
        state: u64,
    },
    /// A state could not be saved.
    #[error("hleak: state: write failed")]
    StateWrite,
    /// What was folded has more than 2^32 stacks, so it can't be saved.
    #[error("hleak: state: more than 2^32 stacks")]
    StateStacks,
}

impl RunFault {
    ghost use Rattle.std.specs.Prelude.{◌≡◌};
    ghost use Rattle.htl_inputs.specs.Faults.{of_digits, of_hex, of_read, of_segment, of_source};
    ghost use Rattle.htl_inputs.specs.Faults.{of_text};
    ghost use Rattle.htl_inputs.specs.Statuses.{status_of};

    /// The exit status of the program: 2 for a wrong command, 3 for malformed input or a malformed
    /// state, 4 if the inputs don't form a case, or not the complete one that was asked for, or the
    /// subject has no event, 5 if a device failed or a state can't be saved, 6 if memory was
    /// refused, and 7 for malformed symbols. A run without a fault has status 0.
    pub fn status(&self) -> u8
        ensures { result ≡ status_of self.now }
    {
        match self {
            RunFault::Workers => 2,
            RunFault::Segment { .. }
            | RunFault::Hex { .. }
            | RunFault::Text { .. }
            | RunFault::State { .. }
            | RunFault::Unbounded { .. } => 3,
            RunFault::Case(_)
            | RunFault::Incomplete { .. }
            | RunFault::UnknownCut { .. }
            | RunFault::NoSubject => 4,
            RunFault::Read { .. }
            | RunFault::SymbolsRead
            | RunFault::Write
            | RunFault::StateRead { .. }
            | RunFault::StateWrite
            | RunFault::StateStacks => 5,
            RunFault::Memory | RunFault::NoThread => 6,
            RunFault::Symbols(_) => 7,
        }
    }

    /// The fault of the bytes at an offset of an input.
    pub fn from_segment(input: u64, offset: u64, fault: Fault) -> RunFault
        ensures { result ≡ of_segment input offset fault }
    {
        match fault {
            Fault::NoMemory => RunFault::Memory,
            _ => RunFault::Segment {
                input,
                offset,
                fault,
            },
        }
    }

    /// The fault of the digits of an input.
    pub(crate) fn from_hex(input: u64, fault: HexFault) -> RunFault
        ensures { result ≡ of_hex input fault }
    {
        match fault {
            HexFault::NoMemory => RunFault::Memory,
            _ => RunFault::Hex { input, fault },
        }
    }

    /// The fault of a read of an input.
    pub fn from_read(input: u64, fault: ReadFault) -> RunFault
        ensures { result ≡ of_read input fault }
    {
        match fault {
            ReadFault::NoMemory => RunFault::Memory,
            ReadFault::Failed => RunFault::Read { input },
        }
    }

    /// Why the reading of an input of digits ended.
    pub fn from_digits(input: u64, fault: DigitsFault) -> RunFault
        ensures { result ≡ of_digits input fault }
    {
        match fault {
            DigitsFault::Foreign(place) => RunFault::Hex {
                input,
                fault: HexFault::BadDigit(place),
            },
            DigitsFault::Odd => RunFault::Hex {
                input,
                fault: HexFault::Odd,
            },
            DigitsFault::Read => RunFault::Read { input },
            DigitsFault::NoMemory => RunFault::Memory,
        }
    }

    /// Why the reading of an input of bytes ended.
    pub fn from_source(input: u64, fault: SourceFault) -> RunFault
        ensures { result ≡ of_source input fault }
    {
        match fault {
            SourceFault::Segment { offset, fault } => RunFault::Segment {
                input,
                offset,
                fault,
            },
            SourceFault::Read => RunFault::Read { input },
            SourceFault::NoMemory => RunFault::Memory,
        }
    }

    /// The fault of the text of an input.
    pub fn from_text(input: u64, text: &[u8], fault: TextFault) -> RunFault
        ensures { result ≡ of_text input text.now fault }
    {
        match fault {
            TextFault::NoMemory => RunFault::Memory,
            TextFault::Line(line, fault) => RunFault::Text {
                input,
                line,
                fault,
                event: event_line(text, line, fault),
            },
        }
    }
}

impl From<CaseFault> for RunFault {
    ghost use Rattle.std.specs.Prelude.{◌≡◌};
    ghost use Rattle.htl_inputs.specs.Faults.{of_case};

    ghost from_gives = { λ fault reported. reported ≡ of_case fault };

    fn from(fault: CaseFault) -> RunFault {
        match fault {
            CaseFault::NoMemory => RunFault::Memory,
            _ => RunFault::Case(fault),
        }
    }
}

impl From<SymbolFault> for RunFault {
    ghost use Rattle.std.specs.Prelude.{◌≡◌};
    ghost use Rattle.htl_inputs.specs.Faults.{of_symbols};

    ghost from_gives = { λ fault reported. reported ≡ of_symbols fault };

    fn from(fault: SymbolFault) -> RunFault {
        match fault {
            SymbolFault::NoMemory => RunFault::Memory,
            _ => RunFault::Symbols(fault),
        }
    }
}

impl From<NoMemory> for RunFault {
    ghost use Rattle.htl_inputs.specs.Faults.{IsMemory};

    ghost from_gives = { λ _. IsMemory };

    fn from(_refused: NoMemory) -> RunFault {
        RunFault::Memory
    }
}

impl From<AllocError> for RunFault {
    ghost use Rattle.htl_inputs.specs.Faults.{IsMemory};

    ghost from_gives = { λ _. IsMemory };

    fn from(_refused: AllocError) -> RunFault {
        RunFault::Memory
    }
}

impl<T: Drop> From<AllocFailed<T>> for RunFault {
    ghost use Rattle.htl_inputs.specs.Faults.{IsMemory};

    ghost from_gives = { λ _. IsMemory };

    fn from(_refused: AllocFailed<T>) -> RunFault {
        RunFault::Memory
    }
}
