//! The reply to a state that was merged.

use htl_main::{Added, Coverage};
use std::fmt;

/// What the state that a line merges brought: its segments, each key once, and those that weren't
/// there; and how much of its trace is there now.
#[derive(Clone, Copy, Debug, PartialEq, Eq)]
pub struct Merged {
    pub added: Added,
}

/// The line of a dialogue that says what a state brought.
impl fmt::Display for Merged {
    ghost use Rattle.std.specs.Prelude.{Some};
    ghost use Rattle.htl_dialogue.specs.Dialogues.{merged_text};

    ghost output = { λ merged. Some (merged_text merged.added) };

    fn fmt<W: fmt::Write>(&self, f: &mut fmt::Formatter<W>) -> fmt::Result {
        let Added {
            segments,
            new,
            coverage: Coverage { gaps, complete_to },
            ..
        } = self.added;
        write!(
            f,
            "merged segments={segments} new={new} complete_to={complete_to} gaps={gaps}"
        )
    }
}
