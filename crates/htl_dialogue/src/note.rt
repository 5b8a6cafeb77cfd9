//! What a speaker hears beside the replies.

use htl_main::{Absence, Added, Coverage, CutInputs, Refused, Remarks, RunFault};

/// A note beside the replies. It is lent what names things: the names of files (`N`), why a line is
/// wrong (`F`), and the job of a question (`J`). What a speaker heard is said in contracts by notes
/// that own them.
#[derive(Clone, Copy)]
pub enum Note<N, F, J> {
    /// Questions can come. The files of these names were read, and this is told of them and of the
    /// states.
    Begins(N, Opening),
    /// A line is awaited.
    Awaits,
    /// A line is wrong, for this reason.
    Refuses(F),
    /// Files of these names were to be read, or the state of this name merged: this is what they added,
    /// or why they are refused.
    Reads(N, Result<Added, Refused>),
    /// A question isn't answered, or a state isn't saved, for this reason.
    Declines(RunFault),
    /// A question was answered: why nothing can be found of what it is about, if nothing can, and
    /// what is told of its answer.
    Answered(J, Option<Absence>, Remarks),
}

/// What is told of the states and files that a dialogue begins with.
#[derive(Clone, Copy)]
pub struct Opening {
    /// How much of their trace they have.
    pub coverage: Coverage,
    /// The inputs that end within a segment.
    pub cut: Option<CutInputs>,
    /// Whether events are forgotten once they are read.
    pub forgets: bool,
}
