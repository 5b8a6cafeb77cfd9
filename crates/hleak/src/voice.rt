//! What is written on standard error, beside an answer and beside the replies of a dialogue.

use crate::explaining::{Explanation, Task};
use crate::note::CutNote;
use crate::progress::Progress;
use crate::reason::LastRefusal;
use crate::shown::Shown;
use htl_command::ParseFault;
use htl_main::{CutInputs, Refused};
use std::fmt;

/// Standard error. A line that can't be written is left out.
#[derive(Clone, Copy)]
pub struct Voice<'p> {
    pub rt: HostRuntime,
    /// Shows how much was read, where a person watches.
    pub progress: Option<&'p Progress>,
    /// Why something could not be opened or read.
    pub refusal: &'p LastRefusal,
}

impl Voice<'_> {
    /// Says it in a line.
    pub fn say<T: fmt::Display + Drop>(&self, said: T) {
        let _ = eprintln!(self.rt; "{said}");
    }

    /// Says why arguments are refused, or the help that they ask for.
    pub fn refuse(&self, refused: &ParseFault) {
        match refused {
            ParseFault::Help(text) | ParseFault::Usage(text) => {
                let _ = eprint!(self.rt; "{}", Shown::lines(text));
            }
            ParseFault::Memory => {
                let _ = eprintln!(self.rt; "{refused}");
            }
        }
    }

    /// Says what the fault of a task means.
    pub fn explain(&self, task: Task, refused: Refused) {
        self.say(Explanation {
            task,
            fault: refused.fault,
            between: refused.between,
            reason: self.refusal.reason(),
        });
    }

    /// Says which inputs of a task end within a segment.
    pub fn note_cut(&self, task: Task, inputs: CutInputs) {
        self.say(CutNote { task, inputs });
    }
}
