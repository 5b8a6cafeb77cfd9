//! Why the replies of a dialogue stopped, in words.

use crate::explaining::meaning::Meaning;
use crate::reason::Reason;
use htl_dialogue::DialogueFault;
use std::fmt;

/// A dialogue's fault in words: what it is about, what is wrong, and what to do.
#[derive(Clone, Copy)]
pub struct Stopped {
    pub fault: DialogueFault,
    /// Why standard input could not be read, where that is the fault.
    pub reason: Reason,
}

impl fmt::Display for Stopped {
    ghost use Rattle.std.specs.Prelude.{Some};
    ghost use Rattle.hleak.specs.Explanations.{stopped_text};

    ghost output = { λ stopped. Some (stopped_text stopped.fault stopped.reason) };

    fn fmt<W: fmt::Write>(&self, f: &mut fmt::Formatter<W>) -> fmt::Result {
        match self.fault {
            DialogueFault::Questions => write!(
                f,
                "standard input: {}",
                Meaning::unread(self.reason)
            ),
            DialogueFault::Write => write!(f, "standard output: {}", Meaning::untaken()),
            DialogueFault::NoMemory => write!(f, "hleak: {}", Meaning::no_memory()),
        }
    }
}
