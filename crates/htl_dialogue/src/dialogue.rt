//! A dialogue: how it went, and why it ends before its lines do.

use htl_device::ReadFault;
use htl_event::NoMemory;
use htl_main::RunFault;
use std::alloc::{AllocError, AllocFailed};
use thiserror::Error;

/// How a dialogue went that came to its end.
#[derive(Clone, Copy, Debug, PartialEq, Eq)]
pub struct Conversed {
    /// Whether a line was wrong.
    pub has_wrong: bool,
    /// The fault of the first line whose files were refused, whose question wasn't answered, or whose
    /// state wasn't merged or saved.
    pub first_fault: Option<RunFault>,
}

impl Conversed {
    ghost use Rattle.std.specs.Prelude.{◌≡◌, ◌||◌, None, false};
    ghost use Rattle.std.specs.Option.{option_or};

    /// A dialogue without a wrong line and a fault.
    pub fn fine() -> Conversed
        ensures wrong { result.has_wrong ≡ false }
        ensures first { result.first_fault ≡ None }
    {
        Conversed {
            has_wrong: false,
            first_fault: None,
        }
    }

    /// The same dialogue with one line more.
    pub fn then(self, line: Conversed) -> Conversed
        ensures wrong { result.has_wrong ≡ (self.has_wrong || line.has_wrong) }
        ensures first { result.first_fault ≡ option_or self.first_fault line.first_fault }
    {
        Conversed {
            has_wrong: self.has_wrong || line.has_wrong,
            first_fault: self.first_fault.or(line.first_fault),
        }
    }
}

/// Why a dialogue ends before its lines do.
#[derive(Clone, Copy, Debug, PartialEq, Eq, Error)]
pub enum DialogueFault {
    /// A read of the lines failed, a line had no end within 2^32 reads, or 2^32 lines didn't end
    /// the dialogue.
    #[error("hleak: questions: read failed")]
    Questions,
    /// A write failed, or accepted none of the bytes.
    #[error("hleak: output: write failed")]
    Write,
    /// An allocation was refused.
    #[error("hleak: out of memory")]
    NoMemory,
}

impl From<ReadFault> for DialogueFault {
    ghost use Rattle.std.specs.Prelude.{◌≡◌};
    ghost use Rattle.htl_dialogue.specs.Replying.{of_read};

    ghost from_gives = { λ fault reported. reported ≡ of_read fault };

    fn from(fault: ReadFault) -> DialogueFault {
        match fault {
            ReadFault::Failed => DialogueFault::Questions,
            ReadFault::NoMemory => DialogueFault::NoMemory,
        }
    }
}

impl From<NoMemory> for DialogueFault {
    ghost use Rattle.std.specs.Prelude.{◌≡◌};
    ghost use Rattle.htl_dialogue.specs.declared.dialogue.DialogueFault.TheVariants as faults;

    ghost from_gives = { λ _ fault. fault ≡ faults.NoMemory };

    fn from(_refused: NoMemory) -> DialogueFault {
        DialogueFault::NoMemory
    }
}

impl From<AllocError> for DialogueFault {
    ghost use Rattle.std.specs.Prelude.{◌≡◌};
    ghost use Rattle.htl_dialogue.specs.declared.dialogue.DialogueFault.TheVariants as faults;

    ghost from_gives = { λ _ fault. fault ≡ faults.NoMemory };

    fn from(_refused: AllocError) -> DialogueFault {
        DialogueFault::NoMemory
    }
}

impl<T: Drop> From<AllocFailed<T>> for DialogueFault {
    ghost use Rattle.std.specs.Prelude.{◌≡◌};
    ghost use Rattle.htl_dialogue.specs.declared.dialogue.DialogueFault.TheVariants as faults;

    ghost from_gives = { λ _ fault. fault ≡ faults.NoMemory };

    fn from(_refused: AllocFailed<T>) -> DialogueFault {
        DialogueFault::NoMemory
    }
}
