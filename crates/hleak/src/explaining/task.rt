//! What the program was doing, and what a person calls its inputs.

ghost use Rattle.std.specs.Prelude.{◌≡◌, ◌==◌, length};
ghost use Rattle.hleak.specs.Subjects.{IsTaskOf, asked_about, forgets_events, has_moment};
ghost use Rattle.hleak.specs.Subjects.{alone as alone_of, alone_after, alone_name, has_since};
ghost use Rattle.hleak.specs.Subjects.{input_name, name_at, name_among, part_among, part_at};
ghost use Rattle.hleak.specs.Subjects.{other_input, state_name, symbols_name};

use htl_command::{Command, Dialogue, Run};
use htl_main::since_of;
use htl_program::NamedPart;
use htl_question::Subject;

/// What the program was doing.
#[derive(Clone, Copy)]
pub enum Task<'a> {
    Question(&'a Run),
    /// Segments are printed, made or folded, of these files.
    Convert(&'a [String]),
    Ask(&'a Dialogue),
    /// These files are read within a dialogue, or the saved state of this name is merged.
    Read {
        files: &'a [String],
        /// Whether the dialogue forgets events once they are read.
        forgets: bool,
    },
}

impl<'a> Task<'a> {
    /// What the program does for a command, where it has inputs. A code is explained without any.
    pub fn of(command: &'a Command) -> Option<Task<'a>>
        ensures { IsTaskOf command.now result }
    {
        match command {
            Command::Question(run) => Some(Task::Question(run)),
            Command::Dump { files, .. }
            | Command::Encode { files, .. }
            | Command::Fold { files, .. } => Some(Task::Convert(files)),
            Command::Ask(of) => Some(Task::Ask(of)),
            Command::Explain(_) => None,
        }
    }

    /// What a person calls the input at a place.
    pub fn input(self, place: u64) -> &'a str
        ensures { result.now ≡ input_name self.entry place }
    {
        match self {
            Task::Question(run) => name_among(&run.files, place, other_input(&run.states)),
            Task::Convert(files) => name_among(files, place, "standard input"),
            Task::Ask(of) => name_among(&of.files, place, "standard input"),
            Task::Read { files, .. } => name_among(files, place, "what was read before"),
        }
    }

    /// What a person calls the saved state at a place.
    pub fn state(self, place: u64) -> &'a str
        ensures { result.now ≡ state_name self.entry place }
    {
        match self {
            Task::Read { .. } => self.input(place),
            Task::Question(run) => name_among(&run.states, place, "the state"),
            Task::Ask(of) => name_among(&of.states, place, "the state"),
            Task::Convert(_) => "the state",
        }
    }

    /// What a person calls that which doesn't fit what was read before: the file, where a line of a
    /// dialogue reads one alone or merges one, or where a dialogue begins with one after a saved
    /// state, or a question is asked of both, and else the program.
    pub fn alone(self) -> &'a str
        ensures { result.now ≡ alone_name self.entry }
    {
        match self {
            Task::Read { files, .. } => alone(files),
            Task::Question(run) => alone_after(&run.states, &run.files),
            Task::Ask(of) => alone_after(&of.states, &of.files),
            Task::Convert(_) => "hleak",
        }
    }

    /// What the fault of a case names by this place: a segment, or a saved state that a dialogue
    /// begins with, or that a question is asked of.
    pub fn part_at(self, place: u64) -> NamedPart
        ensures { result ≡ part_at self.entry place }
    {
        match self {
            Task::Question(run) => part_among(&run.states, &run.files, place),
            Task::Ask(of) => part_among(&of.states, &of.files, place),
            Task::Convert(_) | Task::Read { .. } => NamedPart::Segment(place),
        }
    }

    /// What a person calls that which the fault of a case names by this place.
    pub fn name_at(self, place: u64) -> &'a str
        ensures { result.now ≡ name_at self.entry place }
    {
        match self.part_at(place) {
            NamedPart::State(place) => self.state(place),
            _ => self.alone(),
        }
    }

    /// What a person calls the table of symbols.
    pub fn symbols(self) -> &'a str
        ensures { result.now ≡ symbols_name self.entry }
    {
        match self {
            Task::Question(
                Run {
                    symbols: Some(name),
                    ..
                },
            ) => name.as_str(),
            Task::Ask(
                Dialogue {
                    symbols: Some(name),
                    ..
                },
            ) => name.as_str(),
            _ => "the table of symbols",
        }
    }

    /// What the question is about, where one is asked and it isn't about all events.
    pub fn asked_about(self) -> Option<Subject>
        ensures { result ≡ asked_about self.entry }
    {
        match self {
            Task::Question(run) => run.job.question.subject(),
            Task::Convert(_) | Task::Ask(_) | Task::Read { .. } => None,
        }
    }

    /// Whether a question is asked as of a moment.
    pub fn has_moment(self) -> bool
        ensures { result ≡ has_moment self.entry }
    {
        match self {
            Task::Question(run) => run.job.until.is_some(),
            Task::Convert(_) | Task::Ask(_) | Task::Read { .. } => false,
        }
    }

    /// Whether a question is asked since a sequence.
    pub fn has_since(self) -> bool
        ensures { result ≡ has_since self.entry }
    {
        match self {
            Task::Question(run) => since_of(run.job.question).is_some(),
            Task::Convert(_) | Task::Ask(_) | Task::Read { .. } => false,
        }
    }

    /// Whether events are forgotten once they are read: where there are saved states, where a dialogue
    /// folds, and where segments are folded, which of all conversions alone looks for missing ones.
    pub fn forgets_events(self) -> bool
        ensures { result ≡ forgets_events self.entry }
    {
        match self {
            Task::Question(run) => !run.states.is_empty(),
            Task::Convert(_) => true,
            Task::Ask(of) => of.folds || !of.states.is_empty(),
            Task::Read { forgets, .. } => forgets,
        }
    }
}

/// The name at a place, or else these words.
fn name_among<'a>(names: &'a [String], place: u64, other: &'static str) -> &'a str
    ensures { result.now ≡ name_among names.now place other.now }
{
    match names.get(place as usize) {
        Some(name) => name.as_str(),
        None => other,
    }
}

/// What is read where a question names no file: standard input, or where it names states, they alone.
fn other_input(states: &[String]) -> &'static str
    ensures { result.now ≡ other_input states.now }
{
    if states.is_empty() {
        "standard input"
    } else {
        "the state"
    }
}

/// What the fault of a case names by this place where these states and files are read: a segment, or
/// a state. The first state fits.
fn part_among(states: &[String], files: &[String], place: u64) -> NamedPart
    ensures { result ≡ part_among (length states.now) (length files.now == 0) place }
{
    if 0 < place && place < states.len() as u64 {
        if files.is_empty() {
            NamedPart::State(place)
        } else {
            NamedPart::StateOrSegment(place)
        }
    } else {
        NamedPart::Segment(place)
    }
}

/// The only one of the files, or else the program.
fn alone(files: &[String]) -> &str
    ensures { result.now ≡ alone_of files.now }
{
    match files {
        [name] => name.as_str(),
        _ => "hleak",
    }
}

/// The only one of what comes after the first state, or else the program.
fn alone_after<'a>(states: &'a [String], files: &'a [String]) -> &'a str
    ensures { result.now ≡ alone_after states.now files.now }
{
    match states {
        [_] => alone(files),
        [_, name] if files.is_empty() => name.as_str(),
        _ => "hleak",
    }
}
