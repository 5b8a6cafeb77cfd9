//! What helps where `clap` refuses arguments, in the place of a tip of its own that would mislead.

use crate::builder::Place;
use crate::table::{COMMANDS, CommandName, QuestionName};
use std::fmt;

/// What stands before a tip in a refusal.
const TIP: &str = "\n\n  tip: ";

/// What helps.
#[derive(Clone, Copy)]
pub(crate) enum Tip<'a> {
    /// Nothing that is known.
    Nothing,
    /// A value that begins with `-` stands apart from its option.
    Apart,
    /// A file stands where a command is expected.
    File(&'a str),
    /// A file stands where a line of a dialogue has its question.
    Read(&'a str),
    /// A question of a dialogue is not written in full.
    Short(QuestionName),
    /// A line of a dialogue begins as none does.
    Line,
    /// An option stands before the command.
    Before,
    /// The version is asked for behind a command.
    Version,
    /// An option of other commands.
    Elsewhere(&'a str),
    /// A fault that is to be explained is several arguments.
    Unquoted,
}

impl<'a> Tip<'a> {
    /// The tip on arguments that are refused for this reason. There is none where that of `clap`, if
    /// it has one, may help.
    pub(crate) fn of(why: &'a str, arguments: &[String], place: Place) -> Option<Tip<'a>> {
        if has_apart(arguments) {
            return Some(Tip::Apart);
        }
        if let Some(word) = quoted(why, "unrecognized subcommand '", "'\n") {
            return Tip::on_word(word, why, place);
        }
        if let Some(argument) = quoted(why, "unexpected argument '", "' found") {
            return Tip::on_argument(argument, why, arguments, place);
        }
        None
    }

    /// The tip on a word that is no command.
    fn on_word(word: &'a str, why: &str, place: Place) -> Option<Tip<'a>> {
        match place {
            Place::Shell if is_path(word) => Some(Tip::File(word)),
            Place::Shell => None,
            Place::Dialogue if is_path(word) => Some(Tip::Read(word)),
            Place::Dialogue if helps_line(own_tip(why)) => None,
            Place::Dialogue => match question_from(word) {
                Some(name) => Some(Tip::Short(name)),
                None => Some(Tip::Line),
            },
        }
    }

    /// The tip on an argument that is not expected.
    fn on_argument(
        argument: &'a str,
        why: &str,
        arguments: &[String],
        place: Place,
    ) -> Option<Tip<'a>> {
        let first = first_of(arguments);
        if first.starts_with('-') {
            Some(Tip::Before)
        } else if argument == "-V" || argument == "--version" {
            Some(Tip::Version)
        } else if is_elsewhere(argument) {
            Some(Tip::Elsewhere(argument))
        } else if first == "explain" && !argument.starts_with('-') {
            Some(Tip::Unquoted)
        } else if names_file(why) && (place.is_dialogue() || has_no_file(argument, arguments)) {
            Some(Tip::Nothing)
        } else {
            None
        }
    }
}

impl fmt::Display for Tip<'_> {
    fn fmt<W: fmt::Write>(&self, f: &mut fmt::Formatter<W>) -> fmt::Result {
        match *self {
            Tip::Nothing => Ok(()),
            Tip::Apart => {
                write!(
                    f,
                    "{TIP}a value that begins with '-' follows '=', as in '--tag=-abc'"
                )
            }
            Tip::File(name) => write!(f, "{TIP}did you mean 'hleak summary {name}'?"),
            Tip::Read(name) => write!(f, "{TIP}did you mean 'read {name}'?"),
            Tip::Short(name) => write!(
                f,
                "{TIP}a question is written in full: '{}'",
                name.row().name
            ),
            Tip::Line => write!(
                f,
                "{TIP}a line is a question, or 'read', 'merge', 'save', 'use' or 'quit', as\n  \
                'help' says"
            ),
            Tip::Before => {
                write!(
                    f,
                    "{TIP}options stand behind a command, as in 'leaks --process 4'"
                )
            }
            Tip::Version => write!(f, "{TIP}--version stands alone, without a command"),
            Tip::Elsewhere(option) => write_owners(f, option),
            Tip::Unquoted => write!(f, "{TIP}a line with blanks stands in quotes"),
        }
    }
}

/// A refusal before its tip and after it. One without a tip is cut where it would stand: behind what
/// is wrong.
pub(crate) fn around_tip(why: &str) -> (&str, &str) {
    match why.split_once(TIP) {
        Some((before, tip)) => (before, from_paragraph(tip)),
        None => {
            let rest = from_paragraph(why);
            let wrong = why.strip_suffix(rest).unwrap_or(why);
            (wrong, rest)
        }
    }
}

/// What follows the first paragraph, with the empty line between.
fn from_paragraph(text: &str) -> &str {
    let end = text.find("\n\n").unwrap_or(text.len());
    text.get(end..).unwrap_or("")
}

/// The tip of `clap`'s own, with what follows it. It is empty where there is none.
fn own_tip(why: &str) -> &str {
    match why.split_once(TIP) {
        Some((_, tip)) => tip,
        None => "",
    }
}

/// The first argument, or an empty text where there is none.
fn first_of(arguments: &[String]) -> &str {
    match arguments.first() {
        Some(first) => first.as_str(),
        None => "",
    }
}

/// The word that stands in a text between this start of it and this end.
fn quoted<'a>(text: &'a str, start: &str, end: &str) -> Option<&'a str> {
    let (word, _) = text.strip_prefix(start)?.split_once(end)?;
    Some(word)
}

/// Whether a word is like the name of a file.
fn is_path(word: &str) -> bool {
    word.contains('.') || word.contains('/')
}

/// The question whose name a word begins.
fn question_from(word: &str) -> Option<QuestionName> {
    for command in &COMMANDS {
        match *command {
            CommandName::Question(name) if name.row().name.starts_with(word) => return Some(name),
            _ => {}
        }
    }
    None
}

/// Whether a tip of `clap`'s own names what a line of a dialogue may begin with, and nothing else.
fn helps_line(tip: &str) -> bool {
    !tip.is_empty()
        && COMMANDS.iter().all(|command| command.is_question() || !tip.contains(command.as_str()))
}

/// Whether commands have an option of their own that is written so.
fn is_elsewhere(option: &str) -> bool {
    COMMANDS.iter().any(|command| has_own(*command, option))
}

/// Whether a command has an option of its own that is written so.
fn has_own(command: CommandName, option: &str) -> bool {
    match (command, option.strip_prefix("--")) {
        (CommandName::Question(question), Some(name)) => question.has_own(name),
        (CommandName::Ask, Some(name)) => matches!(name, "fold" | "state"),
        _ => false,
    }
}

/// Writes which commands have an option.
fn write_owners<W: fmt::Write>(f: &mut fmt::Formatter<W>, option: &str) -> fmt::Result {
    if option == "--state" {
        write!(f, "{TIP}{option} is an option of questions and of ask")
    } else {
        list_owners(f, option)
    }
}

/// Writes the names of the commands that have an option.
fn list_owners<W: fmt::Write>(f: &mut fmt::Formatter<W>, option: &str) -> fmt::Result {
    write!(f, "{TIP}{option} is an option of")?;
    let mut separator = "";
    for command in &COMMANDS {
        if has_own(*command, option) {
            write!(f, "{separator} {}", command.as_str())?;
            separator = ",";
        }
    }
    Ok(())
}

/// Whether a tip of `clap`'s own is to pass the argument as a file.
fn names_file(why: &str) -> bool {
    own_tip(why).starts_with("to pass '")
}

/// Whether an argument can't be meant for a file: it begins with `--`, or follows an option whose
/// value is a number.
fn has_no_file(argument: &str, arguments: &[String]) -> bool {
    argument.starts_with("--") || has_no_number(arguments)
}

fn has_apart(arguments: &[String]) -> bool {
    let next = arguments.iter().skip(1);
    arguments
        .iter()
        .zip(next)
        .any(|(option, value)| is_apart(option, value))
}

fn has_no_number(arguments: &[String]) -> bool {
    let next = arguments.iter().skip(1);
    arguments
        .iter()
        .zip(next)
        .any(|(option, value)| is_no_number(option, value))
}

/// Whether a value that begins with `-`, of an option that may have such a value, stands apart from
/// it.
fn is_apart(option: &str, value: &str) -> bool {
    matches!(option, "--tag" | "--symbols" | "--state") && value.starts_with('-')
}

/// Whether what follows an option whose value is a number begins with `-`, as no such value does.
fn is_no_number(option: &str, value: &str) -> bool {
    let takes_number = matches!(
        option,
        "--process"
            | "--since"
            | "--at-least"
            | "--object"
            | "--handle"
            | "--points"
            | "--top"
            | "--workers"
            | "--until"
    );
    takes_number && value.starts_with('-')
}
