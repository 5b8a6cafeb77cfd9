//! What a person is told beside the output.

use crate::saying::lack::Lack;
use htl_dialogue::DialogueFault;
use htl_main::{Coverage, CutInputs, Refused};

/// A message to a person. It is lent what names things: the command whose run it is about (`C`), and
/// why arguments are refused (`F`). What a person heard is said in contracts by messages that own them.
#[derive(Clone, Copy)]
pub enum Message<C, F> {
    /// The run of the command begins. How far it has come may be shown from now on.
    Begins(C),
    /// The run has ended. How it ended is told next.
    Ends,
    /// The arguments are refused.
    Refusal(F),
    /// A text that was asked for could not be written. Like any failed write it isn't said to a person
    /// who watches where the output's reader has gone, and is said everywhere else.
    Unwritten,
    /// A fault ended a run.
    Fault(Refused),
    /// What the fault means that ended the run of the command.
    Meaning(C, Refused),
    /// The question lacks something in the segments.
    Lack(Lack),
    /// The answer shows addresses, and the table of symbols has none of them.
    Unnamed,
    /// Segments are missing, whose events what the command gives may lack.
    Gaps(C, Coverage),
    /// Some inputs of the command end within a segment, which counts for nothing.
    Cut(C, CutInputs),
    /// The replies of a dialogue stopped.
    Stop(DialogueFault),
    /// What it means that the replies of a dialogue stopped.
    StopMeaning(DialogueFault),
}
