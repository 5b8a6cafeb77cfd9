//! Why entries are no job, and what a person reads of it.

use crate::names::{CommandFlag, CommandOption};
use crate::question::Job;
use crate::values;
use std::fmt;

/// A value that breaks the rule of its option.
#[derive(Clone, Copy)]
pub(crate) struct InvalidValue<'a> {
    pub option: CommandOption,
    /// The text that was given; empty where there is none.
    pub given: &'a str,
}

/// Why entries are no job.
#[derive(Clone, Copy)]
pub(crate) enum NoJob<'a> {
    /// A value breaks the rule of its option.
    Value(InvalidValue<'a>),
    /// Two forms of an answer are asked for.
    Formats,
    /// The stacks of a tag of all objects are asked for, and this, which only tags have.
    BesideTag(CommandFlag),
    /// A dialogue is asked for with neither a file nor a state to begin with.
    NoInputs,
    /// This job needs events, and is asked of a state, which has none.
    NoEvents(Job),
}

impl<'a> From<InvalidValue<'a>> for NoJob<'a> {
    ghost use Rattle.std.specs.Prelude.{◌≡◌};
    ghost use Rattle.htl_command.specs.declared.no_job.NoJob.TheVariants.{Value};

    ghost from_gives = { λ refused why. why ≡ Value refused };

    fn from(refused: InvalidValue<'a>) -> NoJob<'a> {
        NoJob::Value(refused)
    }
}

impl fmt::Display for NoJob<'_> {
    fn fmt<W: fmt::Write>(&self, f: &mut fmt::Formatter<W>) -> fmt::Result {
        match self {
            NoJob::Value(refused) => write!(f, "{refused}"),
            NoJob::Formats => { write!(f, "the argument '--json' cannot be used with '--folded'") }
            NoJob::BesideTag(flag) => write!(
                f,
                "the argument '--tag <TAG>' cannot be used with '--{}'",
                flag.as_str()
            ),
            NoJob::NoInputs => write!(
                f,
                "the following required arguments were not provided:\n  \
                <FILES>... or --state <FILE>"
            ),
            NoJob::NoEvents(job) if job.question.is_of_events() => write!(
                f,
                "the argument '--state <FILE>' cannot be used with '{}'",
                job.question.word()
            ),
            NoJob::NoEvents(_) => write!(
                f,
                "the argument '--until <N>' cannot be used with '--state <FILE>'"
            ),
        }
    }
}

impl fmt::Display for InvalidValue<'_> {
    fn fmt<W: fmt::Write>(&self, f: &mut fmt::Formatter<W>) -> fmt::Result {
        write!(
            f,
            "invalid value '{}' for '--{} <{}>'\n  [expected: {}]",
            self.given,
            self.option.as_str(),
            self.option.value_name(),
            self.option.expected()
        )?;
        self.write_tip(f)
    }
}

impl InvalidValue<'_> {
    /// What was meant, where a number is written as a debugger or a language shows it.
    fn write_tip<W: fmt::Write>(&self, f: &mut fmt::Formatter<W>) -> fmt::Result {
        let given = self.given;
        match self.option {
            CommandOption::Process | CommandOption::Since | CommandOption::Until => {
                match hexadecimal(given) {
                    Some(number) => write!(f, "\n\n  tip: {given} is {number}"),
                    None => Ok(()),
                }
            }
            option => match (given.split_once('`'), digits(option, given)) {
                (Some((high, low)), _) if is_address(option, high, low) => {
                    write!(f, "\n\n  tip: write {high}{low}")
                }
                (_, Some(digits)) => write!(f, "\n\n  tip: write 0x{digits}"),
                _ => Ok(()),
            },
        }
    }
}

/// The number that is written in hexadecimal behind `0x` or `0X`.
pub(crate) fn hexadecimal(given: &str) -> Option<u64> {
    match given.strip_prefix("0X") {
        Some(digits) if !digits.starts_with("0x") => values::object(digits),
        None if given.starts_with("0x") => values::object(given),
        _ => None,
    }
}

/// The digits behind `0X`, where they are a value of the option behind `0x`.
fn digits(option: CommandOption, given: &str) -> Option<&str> {
    let digits = given.strip_prefix("0X")?;
    let is_value = match option {
        CommandOption::Object => values::object(digits).is_some(),
        CommandOption::Handle => values::handle(digits).is_some(),
        CommandOption::Tag | CommandOption::TagOfAll => {
            digits.len() == 8 && values::handle(digits).is_some()
        }
        _ => false,
    };
    if is_value && !digits.starts_with("0x") {
        Some(digits)
    } else {
        None
    }
}

/// Whether these are the halves of an object's address, which a debugger separates by a backquote.
fn is_address(option: CommandOption, high: &str, low: &str) -> bool {
    matches!(option, CommandOption::Object)
        && low.len() == 8
        && !low.starts_with("0x")
        && values::object(high).is_some()
        && values::object(low).is_some()
}
