//! What the program can be asked, and how.

use htl_question::Question;

/// Up to when events count: those that were written by then.
#[derive(Clone, Copy, Debug, PartialEq, Eq)]
pub enum Moment {
    /// This sequence.
    Sequence(u64),
    /// The sequence up to which no segment is missing.
    Complete,
}

/// How the inputs hold segments.
#[derive(Clone, Copy, Debug, PartialEq, Eq)]
pub struct InputForm {
    /// Whether they are digits in hexadecimal.
    pub hex: bool,
    /// Whether one that ends within a segment counts with the whole segments before.
    pub partial: bool,
}

/// How segments are read.
#[derive(Clone, Copy, Debug, PartialEq, Eq)]
pub struct Setting {
    /// How the inputs hold segments.
    pub form: InputForm,
    /// The greatest number of threads that are used, 1 to 8.
    pub workers: u32,
    /// Whether segments of which one is missing are refused.
    pub complete: bool,
}

/// The form in which an answer is printed.
#[derive(Clone, Copy, Debug, PartialEq, Eq)]
pub enum Format {
    /// Lines for a person.
    Plain,
    /// A JSON object a line.
    Json,
    /// Folded stacks, for flame graph programs. Only an answer to `Leaks` or to `Sites` has them;
    /// every other one is printed in plain lines.
    Folded,
}

/// A question with how it is answered.
#[derive(Clone, Copy, Debug, PartialEq, Eq)]
pub struct Job {
    pub question: Question,
    pub setting: Setting,
    /// Up to when events count. `None` stands for all of them.
    pub until: Option<Moment>,
    /// How many rows are printed at most, 1 or more, and of a summary how many of each kind. `None`
    /// stands for all.
    pub top: Option<u32>,
    /// Whether the exit status says that the answer finds something. The text is the same.
    pub exit_code: bool,
    pub format: Format,
}

impl Job {
    ghost use Rattle.std.specs.Prelude.{◌≡◌};
    ghost use Rattle.htl_command.specs.Needs.{needs_events};

    /// Whether the answer needs the events themselves, one by one: a listing, a growth, and an answer
    /// as of a moment do.
    pub fn needs_events(&self) -> bool
        ensures { result ≡ needs_events self.now }
    {
        self.question.is_of_events() || self.until.is_some()
    }
}
