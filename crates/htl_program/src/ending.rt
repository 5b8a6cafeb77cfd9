//! The statuses with which the program ends.

ghost use Rattle.std.specs.Prelude.{◌≡◌};
ghost use Rattle.htl_main.specs.Origins.{by_fault};
ghost use Rattle.htl_program.specs.Statuses.{conversed_status, conversion_status, dialogue_status};
ghost use Rattle.htl_program.specs.Statuses.{end_status, stop_status};

use htl_ask::AskFault;
use htl_dialogue::{Conversed, DialogueFault};
use htl_main::{Added, Completed, Refused, RunFault};

/// The status after a question: that of its fault; or else 1 if the answer finds something and the
/// status is to say so; or else 0.
pub(crate) fn status_of_answer(exit_code: bool, ended: Result<Completed, Refused>) -> u8
    ensures { result ≡ end_status exit_code (by_fault ended) }
{
    match ended {
        Ok(completed) => {
            if exit_code && completed.remarks.has_finding {
                1
            } else {
                0
            }
        }
        Err(refused) => refused.fault.status(),
    }
}

/// The status after a conversion: 0, or that of its fault.
pub(crate) fn status_of_conversion<T: Drop>(ended: Result<T, RunFault>) -> u8
    ensures { result ≡ conversion_status ended }
{
    match ended {
        Ok(_) => 0,
        Err(fault) => fault.status(),
    }
}

/// The same where segments were folded.
pub(crate) fn status_of_fold(ended: Result<Added, Refused>) -> u8
    ensures { result ≡ conversion_status (by_fault ended) }
{
    match ended {
        Ok(_) => 0,
        Err(refused) => refused.fault.status(),
    }
}

/// The status after a dialogue, or that of its fault.
pub(crate) fn status_after(counts_wrong: bool, ended: Result<Conversed, AskFault>) -> u8
    ensures { result ≡ dialogue_status counts_wrong ended }
{
    match ended {
        Ok(conversed) => status_of_conversed(counts_wrong, conversed),
        Err(AskFault::Run(refused)) => refused.fault.status(),
        Err(AskFault::Dialogue(fault)) => stop_status(fault),
    }
}

/// The status after a dialogue that came to its end: 2 if a line was wrong and that counts, or else
/// the status of the first files that were refused, or else 0.
fn status_of_conversed(counts_wrong: bool, conversed: Conversed) -> u8
    ensures { result ≡ conversed_status counts_wrong conversed }
{
    if conversed.has_wrong && counts_wrong {
        return 2;
    }
    match conversed.first_fault {
        Some(fault) => fault.status(),
        None => 0,
    }
}

/// The status of a dialogue that a fault ended.
fn stop_status(fault: DialogueFault) -> u8
    ensures { result ≡ stop_status fault }
{
    match fault {
        DialogueFault::Questions | DialogueFault::Write => 5,
        DialogueFault::NoMemory => 6,
    }
}
