//! Who types the lines of a dialogue.

use crate::note::Note;
use htl_command::{Job, ParseFault};

/// Who types the lines of a dialogue, and hears what goes on beside the replies. What a speaker is
/// shown of that isn't part of the replies.
pub trait Speaker {
    ghost use Rattle.std.specs.Prelude.{◌≡◌, Bool};
    ghost use Rattle.htl_dialogue.specs.Notes.{OwnNote, owned};

    // The speaker once they heard a note.
    ghost told: { Self → OwnNote → Self };

    // Whether notes are wanted on questions that were answered.
    ghost wants_notes: { Self → Bool };

    // Whether a wrong line makes the status of a wrong command line.
    ghost counts: { Self → Bool };

    // The speaker once it is known whether notes are wanted.
    ghost noted: { Self → Bool → Self };

    // The speaker once there are no more replies, because the lines came to their end or not.
    ghost left: { Self → Bool → Self } = { λ speaker _. speaker };

    /// The speaker hears a note.
    fn hears(&mut self, note: Note<&[String], &ParseFault, &Job>)
        ensures told { self.new ≡ told self.old (owned note.entry) }
        ensures same { wants_notes self.new ≡ wants_notes self.old };

    /// Whether notes are wanted on questions that were answered, which costs a look at all events for
    /// each question.
    fn wants_notes(&self) -> bool
        ensures { result ≡ wants_notes self.now };

    /// Says whether notes are wanted: by a person who watches, or by whoever asks for them.
    fn takes_notes(&mut self, are_wanted: bool)
        ensures taken { self.new ≡ noted self.old are_wanted }
        ensures wanted { wants_notes self.new ≡ are_wanted };

    /// Whether a wrong line makes the status of a wrong command line.
    fn counts_wrong(&self) -> bool
        ensures { result ≡ counts self.now };

    /// No more replies follow. `has_ended` says whether the lines came to their end.
    fn leaves(&mut self, has_ended: bool)
        ensures { self.new ≡ left self.old has_ended };
}
