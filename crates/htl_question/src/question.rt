//! What can be asked of a trace.

use crate::subject::Subject;
use htl_event::{Interest, Since};

/// A question about the events of a trace.
#[derive(Clone, Copy, Debug, PartialEq, Eq)]
pub enum Question {
    /// What leaks at all: each process, the objects with an unbalanced tag, and the segments that
    /// are missing.
    Summary,
    /// The handles of a process that are open.
    Outstanding {
        process: u32,
    },
    /// The handles of a process that were opened since then and are open.
    Diff {
        process: u32,
        since: Since,
    },
    /// The references and dereferences of an object under each tag.
    Tags {
        object: u64,
    },
    /// The references of a process to invalid handles.
    Bad {
        process: u32,
    },
    /// The stacks that opened handles of a process which are still open: each that opened at least
    /// `at_least` of them, 1 or more. Where there is a `since`, only handles that were opened since
    /// then count.
    Leaks {
        process: u32,
        since: Option<Since>,
        at_least: u32,
    },
    /// The stacks that opened handles of any process which are still open: each that opened at least
    /// `at_least` of them, 1 or more. Where there is a `since`, only handles that were opened since
    /// then count; since the snapshot is for each process since its own.
    Sites {
        since: Option<Since>,
        at_least: u32,
    },
    /// The stacks behind a tag of an object. The tag's bytes are in the order in which they are
    /// shown.
    Stacks {
        object: u64,
        tag: [u8; 4],
    },
    /// The tags that don't balance on some object, over all objects, or with `all` each tag that an
    /// event names.
    Balance {
        all: bool,
    },
    /// The stacks behind a tag, over all objects.
    TagStacks {
        tag: [u8; 4],
    },
    /// Each event of a handle of a process.
    Trace {
        process: u32,
        handle: u32,
    },
    /// How many handles of a process are open as of each of several moments, 2 to 1000 of them.
    Growth {
        process: u32,
        points: u32,
    },
}

impl Question {
    ghost use Rattle.std.specs.Prelude.{◌≡◌};
    ghost use Rattle.htl_question.specs.Questions.{asks_since, interest_of, is_of_all_handles};
    ghost use Rattle.htl_question.specs.Questions.{is_of_events, is_of_open_handles};
    ghost use Rattle.htl_question.specs.Questions.{is_since_snapshots, subject_of, widest, word_of};

    /// The word that names the question in a command, and in the first line of its answer.
    pub fn word(self) -> &'static str
        ensures { result.now ≡ word_of self }
    {
        match self {
            Question::Summary => "summary",
            Question::Outstanding { .. } => "outstanding",
            Question::Diff { .. } => "diff",
            Question::Tags { .. } => "tags",
            Question::Bad { .. } => "bad",
            Question::Leaks { .. } => "leaks",
            Question::Sites { .. } => "sites",
            Question::Stacks { .. } => "stacks",
            Question::Balance { .. } | Question::TagStacks { .. } => "balance",
            Question::Trace { .. } => "trace",
            Question::Growth { .. } => "growth",
        }
    }

    /// What the question is about. A summary and a balance are about all events, and sites about the
    /// open handles of all processes.
    pub fn subject(self) -> Option<Subject>
        ensures { result ≡ subject_of self }
    {
        match self {
            Question::Summary | Question::Sites { .. } | Question::Balance { .. } => None,
            Question::Outstanding { process }
            | Question::Diff { process, .. }
            | Question::Bad { process }
            | Question::Leaks { process, .. }
            | Question::Growth { process, .. } => Some(Subject::Process(process)),
            Question::Tags { object } => Some(Subject::Object(object)),
            Question::Stacks { object, tag } => Some(Subject::Tag { object, tag }),
            Question::TagStacks { tag } => Some(Subject::TagOfAll(tag)),
            Question::Trace { process, handle } => Some(Subject::Handle { process, handle }),
        }
    }

    /// Whether the answer follows from what tells of open handles, of the process or of all.
    fn is_of_open_handles(self) -> bool
        ensures { result ≡ is_of_open_handles self }
    {
        matches!(
            self,
            Question::Outstanding { .. }
                | Question::Diff { .. }
                | Question::Leaks { .. }
                | Question::Sites { .. }
                | Question::Growth { .. }
        )
    }

    /// Whether the question is about the open handles of all processes. So it is about something in
    /// each trace.
    pub fn is_of_all_handles(self) -> bool
        ensures { result ≡ is_of_all_handles self }
    {
        matches!(self, Question::Sites { .. })
    }

    /// Whether the answer needs events one by one: it lists them, or counts at many moments.
    pub fn is_of_events(self) -> bool
        ensures { result ≡ is_of_events self }
    {
        matches!(self, Question::Trace { .. } | Question::Growth { .. })
    }

    /// Whether handles count since the last snapshot of their own process, so that there is no one
    /// sequence after which they count.
    pub fn is_since_snapshots(self) -> bool
        ensures { result ≡ is_since_snapshots self }
    {
        matches!(
            self,
            Question::Sites {
                since: Some(Since::Snapshot),
                ..
            }
        )
    }

    /// Since when handles count, where the question says it, and there is one sequence after which
    /// they do.
    pub fn since(self) -> Option<Since>
        ensures { result ≡ asks_since self }
    {
        match self {
            Question::Diff { since, .. } => Some(since),
            Question::Leaks { since, .. } => since,
            Question::Sites { since, .. } if !self.is_since_snapshots() => since,
            _ => None,
        }
    }

    /// The events that the answer needs.
    pub fn interest(self) -> Interest
        ensures { result ≡ interest_of self }
    {
        if self.is_of_open_handles() {
            narrowed(self.widest_interest())
        } else {
            self.widest_interest()
        }
    }

    /// All events of what the question is about, from which it can be answered too. Of all processes
    /// these are only what tells of open handles.
    pub fn widest_interest(self) -> Interest
        ensures { result ≡ widest self }
    {
        match self.subject() {
            Some(subject) => Subject::interest(Some(subject)),
            None if self.is_of_all_handles() => Interest::AllHandles,
            None => Interest::AllEvents,
        }
    }
}

ghost use Rattle.std.specs.Prelude.{◌≡◌};
ghost use Rattle.htl_question.specs.Questions.{narrowed};

/// Of a process, what tells of its open handles.
fn narrowed(interest: Interest) -> Interest
    ensures { result ≡ narrowed interest }
{
    match interest {
        Interest::Process(process) => Interest::OpenHandles(process),
        other => other,
    }
}
