//! Why arguments give no job, and what a person reads of it.
ghost use Rattle.std.specs.Prelude.{◌≡◌, ⊤};
ghost use Rattle.clap.specs.Words.{kind_of};
ghost use Rattle.htl_command.specs.Refusals.{IsUsageWith};
ghost use Rattle.htl_command.specs.Steps.{Reports};

use crate::builder::Place;
use crate::help::CODE_EXPECTED;
use crate::no_job::NoJob;
use crate::table::CommandName;
use crate::tip::{Tip, around_tip};
use clap::error::ErrorKind;
use std::alloc::{AllocError, Global};
use thiserror::Error;

/// Why arguments give no job.
#[derive(Debug, PartialEq, Eq, Drop, Error)]
pub enum ParseFault {
    /// Help or the version was asked for. The text, which ends with a line feed, goes to standard
    /// output.
    #[error("{0}")]
    Help(String),
    /// The arguments are no command line of the program. The text says why, after `error: `; it
    /// ends with a line feed and goes to standard error.
    #[error("{0}")]
    Usage(String),
    /// An allocation was refused.
    #[error("hleak: out of memory")]
    Memory,
}

impl ParseFault {
    ghost use Rattle.std.specs.Prelude.{◌≡◌, ⊤};
    ghost use Rattle.htl_command.specs.Refusals.{IsUsageWith};
    ghost use Rattle.htl_command.specs.Statuses.{status_of};

    /// The fault of an argument that is not text in UTF-8.
    pub fn no_text(alloc: Global) -> ParseFault
        ensures { IsUsageWith ⊤ result }
    {
        let why = "an argument is not text in UTF-8\n\nFor more information, try 'hleak --help'.";
        usage(alloc, why, "")
    }

    /// The fault of segments that would be written to a terminal.
    pub fn bytes_at_terminal(alloc: Global) -> ParseFault
        ensures { IsUsageWith ⊤ result }
    {
        let why = "\
bytes are not written to a terminal

  tip: send them to a file, as in 'hleak encode a.txt > a.hls', or add --hex

For more information, try 'hleak encode --help'.";
        usage(alloc, why, "")
    }

    /// The fault of a state that would be written to a terminal.
    pub fn state_at_terminal(alloc: Global) -> ParseFault
        ensures { IsUsageWith ⊤ result }
    {
        let why = "\
bytes are not written to a terminal

  tip: send them to a file, as in 'hleak fold a.hls > a.hla'

For more information, try 'hleak fold --help'.";
        usage(alloc, why, "")
    }

    /// The fault of a line in which a quote is not ended.
    pub fn open_quote(alloc: Global) -> ParseFault
        ensures { IsUsageWith ⊤ result }
    {
        wrong_line(alloc, "a quote is not ended")
    }

    /// The fault of a line that is too long.
    pub fn long_line(alloc: Global) -> ParseFault
        ensures { IsUsageWith ⊤ result }
    {
        wrong_line(alloc, "a line has at most 65536 bytes")
    }

    /// The fault of a line that is to read files and names none, or has an option.
    pub fn no_files(alloc: Global) -> ParseFault
        ensures { IsUsageWith ⊤ result }
    {
        let why = "\
'read' takes files, and no option

  tip: a name that begins with '-' follows '--', as in 'read -- -a.hls'";
        wrong_line(alloc, why)
    }

    /// The fault of a question that needs the events where these are forgotten.
    pub fn needs_events(alloc: Global) -> ParseFault
        ensures { IsUsageWith ⊤ result }
    {
        let why = "'--fold' keeps no events, which 'trace', 'growth' and '--until' need";
        wrong_line(alloc, why)
    }

    /// The fault of a line that merges a state, or saves it, where events are kept.
    pub fn needs_fold(alloc: Global) -> ParseFault
        ensures { IsUsageWith ⊤ result }
    {
        wrong_line(
            alloc,
            "'merge' and 'save' need '--fold', which keeps no events",
        )
    }

    /// The exit status of the program: 0 for help, 2 for arguments that are no command line, 6 for
    /// memory.
    pub fn status(&self) -> u8
        ensures { result ≡ status_of self.now }
    {
        match self {
            ParseFault::Help(_) => 0,
            ParseFault::Usage(_) => 2,
            ParseFault::Memory => 6,
        }
    }
}

impl From<AllocError> for ParseFault {
    ghost use Rattle.std.specs.Prelude.{◌≡◌};
    ghost use Rattle.htl_command.specs.declared.fault.ParseFault.TheVariants.{Memory};

    ghost from_gives = { λ _ fault. fault ≡ Memory };

    fn from(_refused: AllocError) -> ParseFault {
        ParseFault::Memory
    }
}

/// The fault that `clap` reports of arguments, in its own words. A tip that helps stands in the place
/// of `clap`'s.
pub(crate) fn from_clap(
    alloc: Global,
    error: &clap::Error,
    arguments: &[String],
    place: Place,
) -> ParseFault
    ensures { Reports (kind_of error.now) result }
{
    if matches!(error.kind(), ErrorKind::OutOfMemory) {
        return ParseFault::Memory;
    }
    match error.to_string(alloc) {
        Err(_) => ParseFault::Memory,
        Ok(text) if error.use_stderr() => mistake(alloc, why_of(&text), arguments, place),
        Ok(text) => ParseFault::Help(text),
    }
}

/// The fault of a mistake. What no line of a dialogue is about has the words of a line.
fn mistake(alloc: Global, why: &str, arguments: &[String], place: Place) -> ParseFault
    ensures { IsUsageWith ⊤ result }
{
    if place.is_dialogue() && is_other_command(arguments) {
        return other_command(alloc);
    }
    let Some(tip) = Tip::of(why, arguments, place) else {
        return usage(alloc, why, "");
    };
    let (before, after) = around_tip(why);
    match format!(in alloc; "{before}{tip}{after}") {
        Ok(why) => usage(alloc, &why, ""),
        Err(_) => ParseFault::Memory,
    }
}

/// Whether the first argument is a command that is no question.
fn is_other_command(arguments: &[String]) -> bool {
    match arguments.first() {
        Some(first) => match CommandName::from_name(first) {
            Some(name) => !name.is_question(),
            None => false,
        },
        None => false,
    }
}

/// The fault of entries that are no job, in the form of `clap`'s texts. The program's name is empty
/// in a dialogue.
pub(crate) fn refused_entries(
    alloc: Global,
    program: &str,
    name: CommandName,
    refused: NoJob,
) -> ParseFault
    ensures { IsUsageWith ⊤ result }
{
    let why = format!(in alloc;
        "{refused}\n\nFor more information, try '{program}{} --help'.",
        name.as_str()
    );
    match why {
        Ok(why) => usage(alloc, &why, ""),
        Err(_) => ParseFault::Memory,
    }
}

/// The fault of a text that is no code.
pub(crate) fn unknown_code(alloc: Global, given: &str) -> ParseFault
    ensures { IsUsageWith ⊤ result }
{
    let why = format!(in alloc;
        "invalid value '{given}' for '<CODE>'\n  [expected: {CODE_EXPECTED}]\n\n\
        For more information, try 'hleak explain --help'."
    );
    match why {
        Ok(why) => usage(alloc, &why, ""),
        Err(_) => ParseFault::Memory,
    }
}

/// The fault of arguments with no command. `clap` refuses these itself, so it is never reported.
pub(crate) fn no_command(alloc: Global) -> ParseFault
    ensures { IsUsageWith ⊤ result }
{
    let why = "a command is missing\n\nFor more information, try 'hleak --help'.";
    usage(alloc, why, "")
}

/// The fault of a line of a dialogue with a command that is no question.
pub(crate) fn other_command(alloc: Global) -> ParseFault
    ensures { IsUsageWith ⊤ result }
{
    let why = "\
a line is a question, or 'read', 'merge', 'save', 'use' or 'quit'

  tip: ask, fold, explain, dump and encode are commands of their own";
    wrong_line(alloc, why)
}

/// The fault of a question of a dialogue that has what a run alone has.
pub(crate) fn no_question(alloc: Global) -> ParseFault
    ensures { IsUsageWith ⊤ result }
{
    let why = "\
a line is a question with its own options

  tip: files, --symbols, --workers, --state, --fold, --complete, --hex,
  --partial and --notes stand after 'hleak ask'; --exit-code is for a run of
  its own";
    wrong_line(alloc, why)
}

/// The fault of a line of a dialogue.
fn wrong_line(alloc: Global, why: &str) -> ParseFault
    ensures { IsUsageWith ⊤ result }
{
    usage(alloc, why, "\n\nFor more information, try 'help'.")
}

/// What an error of `clap`'s says, without the frame that every usage fault has.
fn why_of(text: &str) -> &str {
    text.strip_prefix("error: ").unwrap_or(text).trim_end()
}

/// A usage fault, in the frame that every one has.
pub(crate) fn usage(alloc: Global, why: &str, tip: &str) -> ParseFault
    ensures { IsUsageWith ⊤ result }
{
    match format!(in alloc; "error: {why}{tip}\n") {
        Ok(text) => ParseFault::Usage(text),
        Err(_) => ParseFault::Memory,
    }
}
