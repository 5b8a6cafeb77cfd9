//! Whoever reads standard error, at a terminal or not.

use crate::saying::message::Message;
use htl_command::{Command, ParseFault};

/// Who reads the messages beside the output. The implementation chooses their words.
pub trait Person {
    ghost use Rattle.std.specs.Prelude.{◌≡◌, Bool, List, Option};
    ghost use Rattle.htl_program.specs.Messages.{Hears, Said, owned};

    // What the person was told, where that is known.
    ghost heard: { Self → Option (List Said) };

    // Whether a person is shown the bytes that go to standard output.
    ghost sees_output: { Self → Bool };

    // Whether a person watches, who wants to read more than the lines of faults.
    ghost is_watching: { Self → Bool };

    /// Whether a person is shown the bytes that go to standard output.
    fn sees_output(&self) -> bool
        ensures { result ≡ sees_output self.now };

    /// Whether a person watches, who wants to read more than the lines of faults.
    fn is_watching(&self) -> bool
        ensures { result ≡ is_watching self.now };

    /// The person is told this.
    fn hears(&mut self, message: Message<&Command, &ParseFault>)
        ensures { Hears (heard self.old) (heard self.new) (owned message.entry) };
}
