//! What a command asks for, read from the entries that `clap` found.

ghost use Rattle.std.specs.Prelude.{◌≡◌, IfErr, IfOk, None, OnErr, find};
ghost use Rattle.std.specs.Result.{result_ok};
ghost use Rattle.htl_command.specs.Commands.{balance_of, question_row};
ghost use Rattle.htl_command.specs.Requests.{AsksNothing, IsAskedFor, beside_tag, dialogue_setting};
ghost use Rattle.htl_command.specs.Requests.{format_of, input_form, is_of_run, job_by_values, job_of};
ghost use Rattle.htl_command.specs.Requests.{job_of_run, request_of, setting_of};
ghost use Rattle.htl_command.specs.Steps.{IsFirstBroken, IsNoDialogue, IsNoJob, IsTwoForms, Names};
ghost use Rattle.htl_command.specs.Steps.{breaks_rule, entries_of, job_options};
ghost use Rattle.htl_command.specs.declared.command.Command.TheVariants as wish;
ghost use Rattle.htl_command.specs.declared.table.CommandName.TheVariants as command;
ghost use Rattle.htl_command.specs.declared.names.CommandOption.TheVariants as option;

use crate::entries::{entry, has_files, has_option, has_states, is_given};
use crate::names::{CommandFlag, CommandOption};
use crate::no_job::{InvalidValue, NoJob};
use crate::options;
use crate::printed::PrintedFault;
use crate::question::{Format, InputForm, Job, Setting};
use crate::table::QuestionName;
use clap::ArgMatches;
use htl_question::{Question, Since};

/// The job of the question with these entries. Where several values break their rules, the first is
/// reported: those of the question's own options, of `--workers`, `--until` and `--top`, in this order.
/// Options that can't stand together are reported last.
#[tactic(auto, unfolding(crate::specs::Requests::job_of))]
pub(crate) fn job<'a>(name: QuestionName, entries: &ArgMatches<'a>) -> Result<Job, NoJob<'a>>
    ensures ok { result_ok result ≡ job_of name (entries_of entries.now) }
    ensures err { IfErr result (IsNoJob name (entries_of entries.now)) }
{
    let job = by_values(name, entries)?;
    match beside_tag(entries) {
        Some(flag) => Err(NoJob::BesideTag(flag)),
        None => Ok(job),
    }
}

/// The job of a run of the question with these entries. Where there is a state, which has no events,
/// a job that needs them is refused behind all else.
#[tactic(auto, unfolding(crate::specs::Requests::job_of_run))]
pub(crate) fn job_of_run<'a>(name: QuestionName, entries: &ArgMatches<'a>) -> Result<Job, NoJob<'a>>
    ensures ok { result_ok result ≡ job_of_run name (entries_of entries.now) }
    ensures err { IfErr result (IsNoJob name (entries_of entries.now)) }
{
    let job = job(name, entries)?;
    if has_states(entries) && job.needs_events() {
        Err(NoJob::NoEvents(job))
    } else {
        Ok(job)
    }
}

/// The job by the values and flags, each by itself.
#[tactic(auto, unfolding(crate::specs::Requests::job_by_values))]
fn by_values<'a>(name: QuestionName, entries: &ArgMatches<'a>) -> Result<Job, NoJob<'a>>
    ensures ok { result_ok result ≡ job_by_values name (entries_of entries.now) }
    ensures err { IfErr result (IsNoJob name (entries_of entries.now)) }
    ensures none { IfOk result (λ _.
        find (breaks_rule (entries_of entries.now)) (job_options name) ≡ None) }
{
    Ok(Job {
        question: question(name, entries)?,
        setting: setting(entries)?,
        until: options::until(entries)?,
        top: options::top(entries)?,
        exit_code: is_given(entries, CommandFlag::ExitCode),
        format: format(entries)?,
    })
}

/// How segments are read.
pub(crate) fn setting<'a>(entries: &ArgMatches<'a>) -> Result<Setting, InvalidValue<'a>>
    ensures ok { result_ok result ≡ setting_of (entries_of entries.now) }
    ensures err { IfErr result (Names option.Workers (entries_of entries.now)) }
{
    Ok(Setting {
        form: input_form(entries),
        workers: options::workers(entries)?,
        complete: is_given(entries, CommandFlag::Complete),
    })
}

/// How the segments of a dialogue are read, which begins with a file or a state.
pub(crate) fn dialogue_setting<'a>(entries: &ArgMatches<'a>) -> Result<Setting, NoJob<'a>>
    ensures ok { result_ok result ≡ dialogue_setting (entries_of entries.now) }
    ensures err { IfErr result (IsNoDialogue (entries_of entries.now)) }
{
    let setting = setting(entries)?;
    if has_files(entries) || has_states(entries) {
        Ok(setting)
    } else {
        Err(NoJob::NoInputs)
    }
}

/// How the inputs hold segments.
pub(crate) fn input_form(entries: &ArgMatches) -> InputForm
    ensures { result ≡ input_form (entries_of entries.now) }
{
    InputForm {
        hex: is_given(entries, CommandFlag::Hex),
        partial: is_given(entries, CommandFlag::Partial),
    }
}

/// Whether an option, a file or a state is given that a run alone has, and no question of a dialogue.
pub(crate) fn is_of_run(entries: &ArgMatches) -> bool
    ensures { result ≡ is_of_run (entries_of entries.now) }
{
    is_given(entries, CommandFlag::Hex)
        || is_given(entries, CommandFlag::Partial)
        || is_given(entries, CommandFlag::Complete)
        || is_given(entries, CommandFlag::ExitCode)
        || is_given(entries, CommandFlag::Notes)
        || has_option(entries, CommandOption::Symbols)
        || has_option(entries, CommandOption::Workers)
        || has_files(entries)
        || has_states(entries)
}

/// The fault that is to be explained, or else what was given for one.
pub(crate) fn printed_fault<'a>(entries: &ArgMatches<'a>) -> Result<PrintedFault, &'a str>
    ensures ok { IfOk result (λ fault.
        IsAskedFor (request_of command.Explain (entries_of entries.now)) (wish.Explain fault)) }
    ensures err { OnErr result
        (AsksNothing (request_of command.Explain (entries_of entries.now))) }
{
    let Some(given) = entry(entries, "code") else {
        return Err("");
    };
    PrintedFault::from_text(given).ok_or(given)
}

/// The question of the name, with the values of its own options.
fn question<'a>(name: QuestionName, entries: &ArgMatches<'a>) -> Result<Question, InvalidValue<'a>>
    ensures ok { result_ok result ≡ (question_row name).asked (entries_of entries.now) }
    ensures err { IfErr result (IsFirstBroken (entries_of entries.now) (question_row name).options) }
    ensures none { IfOk result (λ _.
        find (breaks_rule (entries_of entries.now)) (question_row name).options ≡ None) }
{
    Ok(match name {
        QuestionName::Summary => Question::Summary,
        QuestionName::Outstanding => Question::Outstanding {
            process: options::process(entries)?,
        },
        QuestionName::Diff => Question::Diff {
            process: options::process(entries)?,
            since: options::since(entries)?.unwrap_or(Since::Snapshot),
        },
        QuestionName::Tags => Question::Tags {
            object: options::object(entries)?,
        },
        QuestionName::Bad => Question::Bad {
            process: options::process(entries)?,
        },
        QuestionName::Leaks => Question::Leaks {
            process: options::process(entries)?,
            since: options::since(entries)?,
            at_least: options::at_least(entries)?,
        },
        QuestionName::Sites => Question::Sites {
            since: options::since(entries)?,
            at_least: options::at_least(entries)?,
        },
        QuestionName::Stacks => Question::Stacks {
            object: options::object(entries)?,
            tag: options::tag(entries)?,
        },
        QuestionName::Balance => {
            let tag = options::tag_of_all(entries)?;
            balance(tag, is_given(entries, CommandFlag::All))
        }
        QuestionName::Trace => Question::Trace {
            process: options::process(entries)?,
            handle: options::handle(entries)?,
        },
        QuestionName::Growth => Question::Growth {
            process: options::process(entries)?,
            points: options::points(entries)?,
        },
    })
}

/// What a balance is asked for: the stacks of a tag where one is given, and else tags.
fn balance(tag: Option<[u8; 4]>, all: bool) -> Question
    ensures { result ≡ balance_of all tag }
{
    match tag {
        Some(tag) => Question::TagStacks { tag },
        None => Question::Balance { all },
    }
}

/// What is given beside a tag of all objects, whose stacks don't have it.
fn beside_tag(entries: &ArgMatches) -> Option<CommandFlag>
    ensures { result ≡ beside_tag (entries_of entries.now) }
{
    if !has_option(entries, CommandOption::TagOfAll) {
        None
    } else if is_given(entries, CommandFlag::All) {
        Some(CommandFlag::All)
    } else if is_given(entries, CommandFlag::ExitCode) {
        Some(CommandFlag::ExitCode)
    } else {
        None
    }
}

/// The form of the answer.
fn format<'a>(entries: &ArgMatches<'a>) -> Result<Format, NoJob<'a>>
    ensures ok { result_ok result ≡ format_of (entries_of entries.now) }
    ensures err { IfErr result (IsTwoForms (entries_of entries.now)) }
{
    let json = is_given(entries, CommandFlag::Json);
    let folded = is_given(entries, CommandFlag::Folded);
    match (json, folded) {
        (false, false) => Ok(Format::Plain),
        (true, false) => Ok(Format::Json),
        (false, true) => Ok(Format::Folded),
        (true, true) => Err(NoJob::Formats),
    }
}
