//! What a line of a dialogue asks for.
ghost use Rattle.std.specs.Prelude.{◌≡◌, IfErr, IfOk, None, Some, map, string_bytes};
ghost use Rattle.std.specs.List.{list_any};
ghost use Rattle.clap.specs.Words.{subcommand_rows_of};
ghost use Rattle.htl_command.specs.Processes.{is_process, takes_process};
ghost use Rattle.htl_command.specs.Refusals.{IsUsageWith, RefusesQuestion};
ghost use Rattle.htl_command.specs.Requests.{asked_by, asked_in, asked_met};
ghost use Rattle.htl_command.specs.Steps.{entries_of};
ghost use Rattle.htl_command.specs.Values.{process_in};
ghost use Rattle.htl_command.specs.declared.table.CommandName.TheVariants as command;

use crate::builder::Place;
use crate::fault::{ParseFault, no_command, no_question, other_command, refused_entries};
use crate::matching::matches;
use crate::names::CommandOption;
use crate::question::Job;
use crate::reading::{is_of_run, job};
use crate::table::{CommandName, QuestionName};
use crate::values;
use clap::ArgMatches;
use std::alloc::Global;

/// The job that the arguments of a line ask for: a question and its own options, and none that a
/// whole run has.
pub fn parse_question(alloc: Global, arguments: &[String]) -> Result<Job, ParseFault>
    ensures ok { IfOk result (λ job. asked_in (map string_bytes arguments.now) ≡ Some job) }
    ensures err { IfErr result (RefusesQuestion (map string_bytes arguments.now)) }
{
    match matches(alloc, arguments, Place::Dialogue) {
        Ok(matches) => read_line(alloc, &matches),
        Err(fault) => Err(fault),
    }
}

fn read_line(alloc: Global, matches: &ArgMatches) -> Result<Job, ParseFault>
    ensures ok { IfOk result (λ job. asked_met (subcommand_rows_of matches.now) ≡ Some job) }
    ensures err { IfErr result (IsUsageWith (asked_met (subcommand_rows_of matches.now) ≡ None)) }
{
    let Some((name, entries)) = matches.subcommand() else {
        return Err(no_command(alloc));
    };
    match CommandName::from_name(name) {
        Some(CommandName::Question(question)) => read_entries(alloc, question, entries),
        Some(_) => Err(other_command(alloc)),
        None => Err(no_command(alloc)),
    }
}

fn read_entries(
    alloc: Global,
    question: QuestionName,
    entries: &ArgMatches,
) -> Result<Job, ParseFault>
    ensures ok { IfOk result (λ job.
        asked_by (command.Question question) (entries_of entries.now) ≡ Some job) }
    ensures err { IfErr result
        (IsUsageWith (asked_by (command.Question question) (entries_of entries.now) ≡ None)) }
{
    if is_of_run(entries) {
        return Err(no_question(alloc));
    }
    match job(question, entries) {
        Ok(job) => Ok(job),
        Err(refused) => {
            let name = CommandName::Question(question);
            Err(refused_entries(alloc, "", name, refused))
        }
    }
}

/// The process that a text names.
pub fn parse_process(text: &str) -> Option<u32>
    ensures { result ≡ process_in text.now }
{
    values::process(text)
}

/// Whether a word is a question about a process, which `--process` names.
#[tactic(auto, unfolding(crate::specs::Processes::takes_process))]
pub fn takes_process(word: &str) -> bool
    ensures { result ≡ takes_process word.now }
{
    match CommandName::from_name(word) {
        Some(CommandName::Question(question)) => has_process(question.row().options),
        _ => false,
    }
}

fn has_process(options: &[CommandOption]) -> bool
    ensures { result ≡ list_any is_process options.now }
{
    options.iter().any(|option| is_process(*option))
}

fn is_process(option: CommandOption) -> bool
    ensures { result ≡ is_process option }
{
    matches!(option, CommandOption::Process)
}
