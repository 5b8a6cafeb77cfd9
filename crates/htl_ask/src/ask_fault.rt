//! Why a dialogue ends early, or never begins.

use htl_dialogue::DialogueFault;
use htl_main::Refused;
use thiserror::Error;

/// Why a dialogue ends before its lines do. Its text is the line that the program prints on
/// standard error.
#[derive(Clone, Copy, Debug, PartialEq, Eq, Error)]
pub enum AskFault {
    /// It never began: the inputs or the symbols are refused, or memory was.
    #[error("{0}")]
    Run(Refused),
    /// It began, and no further reply could be given.
    #[error("{0}")]
    Dialogue(DialogueFault),
}

impl From<Refused> for AskFault {
    ghost use Rattle.std.specs.Prelude.{◌≡◌};
    ghost use Rattle.htl_ask.specs.declared.ask_fault.AskFault.TheVariants.{Run};

    ghost from_gives = { λ refused fault. fault ≡ Run refused };

    fn from(refused: Refused) -> AskFault {
        AskFault::Run(refused)
    }
}

impl From<DialogueFault> for AskFault {
    ghost use Rattle.std.specs.Prelude.{◌≡◌};
    ghost use Rattle.htl_ask.specs.declared.ask_fault.AskFault.TheVariants.{Dialogue};

    ghost from_gives = { λ ended fault. fault ≡ Dialogue ended };

    fn from(ended: DialogueFault) -> AskFault {
        AskFault::Dialogue(ended)
    }
}
