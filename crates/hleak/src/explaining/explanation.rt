//! The fault of a run in words.

ghost use Rattle.std.specs.Prelude.{◌≡◌};
ghost use Rattle.hleak.specs.Explanations.{about, about_text, meaning_text};
ghost use Rattle.hleak.specs.Meanings.{text_of};
ghost use Rattle.hleak.specs.Subjects.{event_line_of, subject_of};

use crate::explaining::meaning::Meaning;
use crate::explaining::side::Side;
use crate::explaining::task::Task;
use crate::reason::Reason;
use crate::shown::Shown;
use htl_case::CaseFault;
use htl_main::{Between, RunFault};
use htl_program::FREE_MEMORY;
use std::fmt;

/// A fault in words: the file or the two segments that it is about, the line of the event in a text
/// if it is about one, what is wrong, and what to do.
#[derive(Clone, Copy)]
pub struct Explanation<'a> {
    pub task: Task<'a>,
    pub fault: RunFault,
    /// Which two segments it is about.
    pub between: Between,
    /// Why something could not be opened or read, where that is the fault.
    pub reason: Reason,
}

impl fmt::Display for Explanation<'_> {
    ghost use Rattle.std.specs.Prelude.{Some};
    ghost use Rattle.hleak.specs.Explanations.{explanation_text};

    ghost output = { λ of. Some (explanation_text of.task of.fault of.between of.reason) };

    fn fmt<W: fmt::Write>(&self, f: &mut fmt::Formatter<W>) -> fmt::Result {
        let (about, meaning) = (self.about(), self.meaning());
        match self.event_line() {
            Some(line) => write!(f, "{about}: line {line}: {meaning}"),
            None => write!(f, "{about}: {meaning}"),
        }
    }
}

/// What a fault is about.
#[derive(Clone, Copy)]
enum About<'a> {
    /// A file, a device or the program.
    One(Shown<'a>),
    /// Two segments, of which the first breaks a rule against the second.
    Two(Side<'a>, Side<'a>),
}

impl fmt::Display for About<'_> {
    ghost use Rattle.std.specs.Prelude.{Some};

    ghost output = { λ about. Some (about_text about) };

    fn fmt<W: fmt::Write>(&self, f: &mut fmt::Formatter<W>) -> fmt::Result {
        match *self {
            About::One(name) => write!(f, "{name}"),
            About::Two(first, second) => write!(f, "{first} and {second}"),
        }
    }
}

impl<'a> Explanation<'a> {
    /// What the fault is about.
    fn about(&self) -> About<'a>
        ensures { about_text result ≡ about self.now.task self.now.fault self.now.between }
    {
        match (self.fault, self.between) {
            (RunFault::Case(fault), Between::Two(first, second)) => About::Two(
                Side::of(self.task, fault, first),
                Side::of(self.task, fault, second),
            ),
            _ => About::One(Shown::name(self.subject())),
        }
    }

    /// What is wrong, and what to do.
    fn meaning(&self) -> Meaning
        ensures { text_of result ≡ meaning_text self.now.task self.now.fault self.now.reason }
    {
        match self.fault {
            RunFault::Workers => Meaning::new("there can't be so many workers", "give 1 to 8"),
            RunFault::Segment { fault, .. } => Meaning::from_segment(fault),
            RunFault::Hex { fault, .. } => Meaning::from_hex(fault),
            RunFault::Text { fault, .. } => Meaning::from_line(fault),
            RunFault::Case(fault) => Meaning::from_case(self.task, fault),
            RunFault::Incomplete { processor, number } => {
                Meaning::from_missing(self.task.forgets_events(), processor, number)
            }
            RunFault::UnknownCut { input } => Meaning::from_unknown_cut(input),
            RunFault::NoSubject => Meaning::from_absent(
                self.task.asked_about(),
                self.task.has_moment(),
                self.task.has_since(),
            ),
            RunFault::Symbols(fault) => Meaning::from_symbols(fault),
            RunFault::Read { .. } | RunFault::SymbolsRead => Meaning::unread(self.reason),
            RunFault::Write => Meaning::untaken(),
            RunFault::State { fault, .. } => Meaning::from_state(fault),
            RunFault::Unbounded { processor, .. } => Meaning::from_unbounded(processor),
            RunFault::StateRead { .. } => Meaning::unread(self.reason),
            RunFault::StateWrite => Meaning::unsaved(self.reason),
            RunFault::StateStacks => Meaning::too_many_stacks(),
            RunFault::Memory => Meaning::no_memory(),
            // No run reports it.
            RunFault::NoThread => Meaning::new("the system started no thread", FREE_MEMORY),
        }
    }

    /// The line of the event that the fault of a text is about, where it is about one.
    fn event_line(&self) -> Option<u64>
        ensures { result ≡ event_line_of self.now.fault }
    {
        match self.fault {
            RunFault::Text { event, .. } => event,
            _ => None,
        }
    }

    /// The file, the device or the program that the fault is about.
    fn subject(&self) -> &'a str
        ensures { result.now ≡ subject_of self.now.task self.now.fault }
    {
        match self.fault {
            RunFault::Segment { input, .. } => self.task.input(input),
            RunFault::Hex { input, .. } => self.task.input(input),
            RunFault::Text { input, .. } => self.task.input(input),
            RunFault::Read { input } => self.task.input(input),
            RunFault::UnknownCut { input } => self.task.input(input),
            RunFault::State { state, .. } => self.task.state(state),
            RunFault::Unbounded { state, .. } => self.task.state(state),
            RunFault::StateRead { state } => self.task.state(state),
            RunFault::Case(CaseFault::Empty) => self.task.input(0),
            RunFault::Case(CaseFault::OtherTrace(place)) => self.task.name_at(place),
            RunFault::Case(CaseFault::OtherProcessors(place)) => self.task.name_at(place),
            RunFault::Symbols(_) | RunFault::SymbolsRead => self.task.symbols(),
            RunFault::Write => "standard output",
            RunFault::StateWrite | RunFault::StateStacks => "the state",
            RunFault::Case(_) => self.task.alone(),
            RunFault::Workers
            | RunFault::Incomplete { .. }
            | RunFault::NoSubject
            | RunFault::Memory
            | RunFault::NoThread => "hleak",
        }
    }
}
