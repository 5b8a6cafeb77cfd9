//! What a person reads of the segments themselves, after an answer or before a dialogue.

ghost use Rattle.std.specs.Prelude.{◌≡◌};
ghost use Rattle.hleak.specs.Notes.{gap_word as word_of, gaps_noted};
ghost use Rattle.hleak.specs.Notes.{moment_advice as advice_of};

use crate::explaining::Task;
use crate::shown::Shown;
use htl_main::{Coverage, CutInputs};
use std::fmt;

/// A note on what an answer is of: the segments, or the table of symbols.
#[derive(Clone, Copy)]
pub enum InputsNote {
    /// Some are missing: the answer holds for those that are there.
    Gaps {
        coverage: Coverage,
        /// Whether events are forgotten once they are read. Then no question can be asked as of a
        /// moment.
        forgets: bool,
    },
    /// The table of symbols has none of the addresses that an answer shows.
    Unnamed,
}

impl InputsNote {
    /// The note on segments with a gap, where they had no gap before. There is none on others.
    pub fn on_gaps(before: u64, coverage: Coverage, forgets: bool) -> Option<InputsNote>
        ensures { result ≡ gaps_noted before coverage forgets }
    {
        if before == 0 && coverage.gaps > 0 {
            Some(InputsNote::Gaps { coverage, forgets })
        } else {
            None
        }
    }
}

impl fmt::Display for InputsNote {
    ghost use Rattle.std.specs.Prelude.{Some};
    ghost use Rattle.hleak.specs.Notes.{note_text};

    ghost output = { λ note. Some (note_text note) };

    fn fmt<W: fmt::Write>(&self, f: &mut fmt::Formatter<W>) -> fmt::Result {
        match *self {
            InputsNote::Gaps {
                coverage: Coverage { gaps, complete_to },
                forgets,
            } => {
                let (word, advice) = (gap_word(gaps), moment_advice(forgets));
                write!(
                    f,
                    "\
hleak: note: {gaps} {word}: segments are missing (summary lists them){advice}: answers are complete to \
{complete_to}"
                )
            }
            InputsNote::Unnamed => write!(
                f,
                "hleak: note: the symbol table has none of the addresses: is it of this build?"
            ),
        }
    }
}

/// The word for this number of gaps.
fn gap_word(gaps: u64) -> &'static str
    ensures { result.now ≡ word_of gaps }
{
    if gaps == 1 { "gap" } else { "gaps" }
}

/// As of which moment questions can be asked where there is a gap. Where events are forgotten there
/// is none.
fn moment_advice(forgets: bool) -> &'static str
    ensures { result.now ≡ advice_of forgets }
{
    if forgets {
        ""
    } else {
        "; ask with --until complete"
    }
}

/// The note on inputs that end within a segment, which is left out.
#[derive(Clone, Copy)]
pub struct CutNote<'a> {
    /// What names the inputs.
    pub task: Task<'a>,
    pub inputs: CutInputs,
}

impl fmt::Display for CutNote<'_> {
    ghost use Rattle.std.specs.Prelude.{Some};
    ghost use Rattle.hleak.specs.Notes.{cut_text};

    ghost output = { λ note. Some (cut_text note.task note.inputs) };

    fn fmt<W: fmt::Write>(&self, f: &mut fmt::Formatter<W>) -> fmt::Result {
        let name = Shown::name(self.task.input(self.inputs.first));
        match self.inputs.others {
            0 => write!(f, "hleak: note: {name} ends within a segment"),
            others => write!(
                f,
                "hleak: note: {name} ends within a segment, and {others} more"
            ),
        }
    }
}
