//! Where answers are written, and who reads the messages beside them.

ghost use Rattle.std.specs.Prelude.{◌≡◌, ◌&&◌, ◌||◌};
ghost use Rattle.htl_program.specs.Messages.{Hears};

use crate::output::Output;
use crate::saying::{Audience, Manner, Message, Person};
use htl_command::CommandLine;

/// Where answers go, and who reads what is said beside them.
#[derive(Drop)]
pub struct Console<O, P> {
    /// Where answers go.
    pub out: O,
    /// Who reads what is said beside the answers.
    pub person: P,
}

impl<O: Output, P: Person> Console<O, P> {
    /// Says that the run of the command line begins.
    pub(crate) fn begin(&mut self, line: &CommandLine) -> Audience
        ensures watching { result.is_watching ≡ P.is_watching self.old.person }
        ensures words { result.wants_words ≡ (P.is_watching self.old.person || line.now.notes) }
        ensures told { Hears (P.heard self.old.person) (P.heard self.new.person)
            (Message.Begins line.now.command) }
        ensures out { self.new.out ≡ self.old.out }
    {
        let is_watching = self.person.is_watching();
        self.person.hears(Message::Begins(&line.command));
        Audience {
            is_watching,
            wants_words: is_watching || line.notes,
        }
    }

    /// Says that the run has ended, and in which manner it is told how.
    pub(crate) fn end(&mut self, audience: Audience) -> Manner
        ensures quiet { result.is_quiet
            ≡ (audience.is_watching && O.has_lost_reader self.new.out) }
        ensures words { result.in_words ≡ audience.wants_words }
        ensures told { Hears (P.heard self.old.person) (P.heard self.new.person)
            Message.Ends }
        ensures out { self.new.out ≡ self.old.out }
    {
        self.person.hears(Message::Ends);
        Manner {
            is_quiet: self.is_quiet(audience.is_watching),
            in_words: audience.wants_words,
        }
    }
}

impl<O: Output, P> Console<O, P> {
    /// Whether a failed write goes unsaid: a person watches, and the output's reader has gone. Whoever
    /// ends `hleak .. | head` at a terminal knows that it read no further.
    pub(crate) fn is_quiet(&self, is_watched: bool) -> bool
        ensures { result ≡ (is_watched && O.has_lost_reader self.now.out) }
    {
        is_watched && self.out.has_lost_reader()
    }
}
