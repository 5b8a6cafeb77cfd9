//! The table of the commands: a row for each question, with what help says of it.
ghost use Rattle.std.specs.Prelude.{◌≡◌, find, is_some};
ghost use Rattle.std.specs.Str.{bytes_eq};
ghost use Rattle.htl_command.specs.Commands.{command_named, name_of, question_row};

use crate::help::{ROWS_HELP, ROWS_OF_EACH_HELP};
use crate::names::{CommandFlag, CommandOption};

/// A command.
#[derive(Clone, Copy)]
pub(crate) enum CommandName {
    /// Answers a question over segments.
    Question(QuestionName),
    /// Says what a code means.
    Explain,
    /// Prints segments as text.
    Dump,
    /// Makes segments of text.
    Encode,
    /// Answers many questions over the same segments.
    Ask,
    /// Folds segments into a state.
    Fold,
}

/// A question, by the name of its command.
#[derive(Clone, Copy)]
pub(crate) enum QuestionName {
    Summary,
    Outstanding,
    Diff,
    Tags,
    Bad,
    Leaks,
    Sites,
    Stacks,
    Balance,
    Trace,
    Growth,
}

/// What the command line has of a question.
#[derive(Clone, Copy)]
pub(crate) struct QuestionRow<'a> {
    /// The name of its command.
    pub name: &'a str,
    /// The options whose values make the question, in the order in which they are read.
    pub options: &'a [CommandOption],
    /// What help says of `--top`, where the question has it.
    pub top: Option<&'a str>,
    /// The options without a value that not every question has.
    pub flags: &'a [CommandFlag],
    /// What the command answers, in one line.
    pub about: &'a str,
    /// A command line to begin with, after what else is to be known.
    pub example: &'a str,
}

/// All commands, as help lists them.
pub(crate) const COMMANDS: [CommandName; 16] = [
    CommandName::Question(QuestionName::Summary),
    CommandName::Question(QuestionName::Outstanding),
    CommandName::Question(QuestionName::Diff),
    CommandName::Question(QuestionName::Tags),
    CommandName::Question(QuestionName::Bad),
    CommandName::Question(QuestionName::Leaks),
    CommandName::Question(QuestionName::Sites),
    CommandName::Question(QuestionName::Stacks),
    CommandName::Question(QuestionName::Balance),
    CommandName::Question(QuestionName::Trace),
    CommandName::Question(QuestionName::Growth),
    CommandName::Ask,
    CommandName::Fold,
    CommandName::Explain,
    CommandName::Dump,
    CommandName::Encode,
];

impl CommandName {
    pub(crate) fn as_str<'a>(self) -> &'a str
        ensures { result.now ≡ name_of self }
    {
        match self {
            CommandName::Question(question) => question.row().name,
            CommandName::Explain => "explain",
            CommandName::Dump => "dump",
            CommandName::Encode => "encode",
            CommandName::Ask => "ask",
            CommandName::Fold => "fold",
        }
    }

    pub(crate) fn is_question(self) -> bool {
        matches!(self, CommandName::Question(_))
    }

    /// Whether it is a question that needs events, so that it is never asked of a state.
    pub(crate) fn is_of_events(self) -> bool {
        matches!(
            self,
            CommandName::Question(QuestionName::Trace | QuestionName::Growth)
        )
    }

    #[tactic(auto, unfolding(crate::specs::Commands::command_named))]
    pub(crate) fn from_name(name: &str) -> Option<CommandName>
        ensures { result ≡ command_named name.now }
    {
        named_among(&COMMANDS, name)
    }
}

impl QuestionName {
    // It lives as long as the caller wants, since `clap`'s builders take no text of a longer life.
    pub(crate) fn row<'a>(self) -> QuestionRow<'a>
        ensures name { result.name.now ≡ (question_row self).name }
        ensures options { result.options.now ≡ (question_row self).options }
        ensures top { is_some result.top ≡ (question_row self).has_top }
        ensures flags { result.flags.now ≡ (question_row self).flags }
    {
        use CommandFlag::{All, ExitCode, Folded};
        use CommandOption::{AtLeast, Handle, Object, Points, Process, Since, Tag, TagOfAll};
        match self {
            QuestionName::Summary => QuestionRow {
                name: "summary",
                options: &[],
                top: Some(ROWS_OF_EACH_HELP),
                flags: &[ExitCode],
                about: "What leaks at all: processes, objects, and missing segments",
                example: "\
With gaps=0 the last segments of a processor may still be missing. Answers are
final up to complete_to, which --until complete asks for.

Example:
  hleak summary cpu0.hls cpu1.hls",
            },
            QuestionName::Outstanding => QuestionRow {
                name: "outstanding",
                options: &[Process],
                top: Some(ROWS_HELP),
                flags: &[ExitCode],
                about: "Handles that are open, each with the stack that opened it",
                example: "\
Example:
  hleak outstanding --process 4 --symbols names.csv cpu0.hls cpu1.hls",
            },
            QuestionName::Diff => QuestionRow {
                name: "diff",
                options: &[Process, Since],
                top: Some(ROWS_HELP),
                flags: &[ExitCode],
                about: "Handles opened since a snapshot and still open (!htrace -diff)",
                example: "Example:\n  hleak diff --process 4 --since 1200 cpu0.hls cpu1.hls",
            },
            QuestionName::Tags => QuestionRow {
                name: "tags",
                options: &[Object],
                top: None,
                flags: &[ExitCode],
                about: "References and dereferences of an object, by tag (!obtrace)",
                example: "Example:\n  hleak tags --object 0xffffa00000001000 cpu0.hls cpu1.hls",
            },
            QuestionName::Bad => QuestionRow {
                name: "bad",
                options: &[Process],
                top: Some(ROWS_HELP),
                flags: &[ExitCode],
                about: "References to invalid handles, by handle and stack (BAD REF)",
                example: "Example:\n  hleak bad --process 4 --symbols names.csv cpu0.hls cpu1.hls",
            },
            QuestionName::Leaks => QuestionRow {
                name: "leaks",
                options: &[Process, Since, AtLeast],
                top: Some(ROWS_HELP),
                flags: &[ExitCode, Folded],
                about: "Stacks by how many of their handles are still open, most first",
                example: "Example:\n  hleak leaks --process 4 --workers 4 cpu0.hls cpu1.hls",
            },
            QuestionName::Sites => QuestionRow {
                name: "sites",
                options: &[Since, AtLeast],
                top: Some(ROWS_HELP),
                flags: &[ExitCode, Folded],
                about: "Stacks by how many of their handles are open, over all processes",
                example: "\
Example:
  hleak sites --since snapshot --symbols names.csv cpu0.hls cpu1.hls",
            },
            QuestionName::Stacks => QuestionRow {
                name: "stacks",
                options: &[Object, Tag],
                top: Some(ROWS_HELP),
                flags: &[],
                about: "Stacks behind one tag of an object (!obtrace)",
                example: "\
Example:
  hleak stacks --object 0xffffa00000001000 --tag Lky8 cpu0.hls cpu1.hls",
            },
            QuestionName::Balance => QuestionRow {
                name: "balance",
                options: &[TagOfAll],
                top: Some(ROWS_HELP),
                flags: &[All, ExitCode],
                about: "Tags that do not balance on some object, over all objects",
                example: "\
Examples:
  hleak balance cpu0.hls cpu1.hls
  hleak balance --tag Lky8 --symbols names.csv cpu0.hls cpu1.hls",
            },
            QuestionName::Trace => QuestionRow {
                name: "trace",
                options: &[Process, Handle],
                top: Some(ROWS_HELP),
                flags: &[],
                about: "Each open, close and bad reference of a handle (!htrace HANDLE)",
                example: "Example:\n  hleak trace --process 4 --handle 0x44 cpu0.hls cpu1.hls",
            },
            QuestionName::Growth => QuestionRow {
                name: "growth",
                options: &[Process, Points],
                top: None,
                flags: &[],
                about: "How many handles are open as of each of many moments",
                example: "Example:\n  hleak growth --process 4 --points 50 cpu0.hls cpu1.hls",
            },
        }
    }

    /// Whether it has an option of this name that not every question has.
    pub(crate) fn has_own(self, name: &str) -> bool {
        let row = self.row();
        row.options.iter().any(|option| option.as_str() == name)
            || row.flags.iter().any(|flag| flag.as_str() == name)
            || (row.top.is_some() && name == CommandOption::Top.as_str())
    }
}

fn named_among(commands: &[CommandName], name: &str) -> Option<CommandName>
    ensures { result ≡ find (λ command. bytes_eq (name_of command) name.now) commands.now }
{
    commands
        .iter()
        .copied()
        .find(|command| command.as_str() == name)
}
