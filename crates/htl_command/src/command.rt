//! What a command line asks for.
ghost use Rattle.std.specs.Prelude.{◌≡◌, ◌≢◌, [], IfErr, IfOk, IsOk, None, Some, map, option_map};
ghost use Rattle.std.specs.Prelude.{string_bytes};
ghost use Rattle.clap.specs.Words.{subcommand_rows_of};
ghost use Rattle.htl_command.specs.Needs.{FitsStates};
ghost use Rattle.htl_command.specs.Refusals.{IsUsageWith, RefusesArguments};
ghost use Rattle.htl_command.specs.Requests.{AsksNothing, IsAskedFor, asks, file_names, folds};
ghost use Rattle.htl_command.specs.Options.{given as given_in, is_given as is_given_in};
ghost use Rattle.htl_command.specs.Requests.{is_folded, job_of_run, notes_in, notes_met};
ghost use Rattle.htl_command.specs.Requests.{request_met, request_of, requested, state_names};
ghost use Rattle.htl_command.specs.Requests.{stored as stored_work, work};
ghost use Rattle.htl_command.specs.Requests.{with_inputs as with_inputs_in};
ghost use Rattle.htl_command.specs.Steps.{entries_of};
ghost use Rattle.htl_command.specs.declared.command.Command.TheVariants as wish;
ghost use Rattle.htl_command.specs.declared.names.CommandFlag.TheVariants as flag;
ghost use Rattle.htl_command.specs.declared.table.CommandName.TheVariants as command;
ghost use Rattle.htl_command.specs.declared.names.CommandOption.TheVariants as option;

use crate::builder::Place;
use crate::entries::{files, has_states, is_given, states, symbols};
use crate::fault::{ParseFault, no_command, refused_entries, unknown_code};
use crate::matching::matches;
use crate::names::CommandFlag;
use crate::no_job::NoJob;
use crate::printed::PrintedFault;
use crate::question::{Format, InputForm, Job, Setting};
use crate::reading::{dialogue_setting, input_form, job_of_run, printed_fault, setting};
use crate::table::{CommandName, QuestionName};
use clap::ArgMatches;
use htl_question::Question;
use std::alloc::{AllocError, Global};

/// What a command line asks for.
#[derive(Debug, PartialEq, Eq, Drop)]
pub struct CommandLine {
    pub command: Command,
    /// Whether standard error gets the notes that it gets at a terminal, wherever it goes.
    pub notes: bool,
}

/// What a command is to do.
#[derive(Debug, PartialEq, Eq, Drop)]
pub enum Command {
    /// The answer to a question.
    Question(Run),
    /// What a fault means, and what to do.
    Explain(PrintedFault),
    /// The text of segments.
    Dump {
        /// How the inputs hold segments.
        form: InputForm,
        /// The names of the inputs, in order. Where there is none, standard input is read.
        files: Vec<String>,
    },
    /// The segments of a text.
    Encode {
        /// Whether the segments that are written are digits in hexadecimal.
        hex: bool,
        /// The names of the inputs, in order. Where there is none, standard input is read.
        files: Vec<String>,
    },
    /// The answers to questions that come line by line.
    Ask(Dialogue),
    /// The state that segments come to.
    Fold {
        /// How the segments are read.
        setting: Setting,
        /// The names of the inputs, in order. Where there is none, standard input is read.
        files: Vec<String>,
    },
}

/// A question, and what it is asked of.
#[derive(Debug, PartialEq, Eq, Drop)]
pub struct Run {
    pub job: Job,
    /// The names of the saved states, in order. Where there is one, what is read is folded, and
    /// standard input isn't read.
    pub states: Vec<String>,
    /// The names of the inputs, in order. Where there is none, and no state, standard input is read.
    pub files: Vec<String>,
    /// The name of the file with the symbol table.
    pub symbols: Option<String>,
}

/// What the questions of a dialogue are asked of.
#[derive(Debug, PartialEq, Eq, Drop)]
pub struct Dialogue {
    pub setting: Setting,
    /// Whether what was read is folded and forgotten. Then only the state is kept in memory, and
    /// `trace`, `growth` and `--until` aren't answered.
    pub folds: bool,
    /// The names of the saved states that it begins with, in order. Where there is one, what was read
    /// is folded.
    pub states: Vec<String>,
    /// The names of the inputs, in order. There is at least one, or a state.
    pub files: Vec<String>,
    /// The name of the file with the symbol table.
    pub symbols: Option<String>,
}

/// What the arguments after the program's name ask for. No arguments ask for the stored job: the
/// outstanding handles of process 4, from standard input in hexadecimal.
///
/// A command, its options and its files are arguments as `clap` takes them: `--process 4` or
/// `--process=4`, options and files in any order, and only files after `--`. No option but `--state`
/// may be given twice.
///
/// Where several things are wrong, what `clap` refuses is reported first, then the first value that
/// breaks its rule, and last options that can't stand together, or that a dialogue has neither a file
/// nor a state to begin with. A state can't stand beside `--until`, and neither `trace` nor `growth`
/// is asked of one: a state has no events.
#[tactic(auto, using(crate::proofs::Arguments::no_arguments, crate::proofs::Arguments::no_notes))]
pub fn parse(alloc: Global, arguments: Vec<String>) -> Result<CommandLine, ParseFault>
    ensures command { IfOk result (λ line.
        IsAskedFor (requested (map string_bytes arguments.items)) line.command) }
    ensures notes { IfOk result (λ line.
        line.notes ≡ notes_in (map string_bytes arguments.items)) }
    ensures states { IfOk result (λ line. FitsStates line.command) }
    ensures err { IfErr result (RefusesArguments (map string_bytes arguments.items)) }
    ensures none { arguments.items ≡ [] → IsOk result }
{
    if arguments.is_empty() {
        Ok(CommandLine {
            command: Command::Question(stored(alloc)),
            notes: false,
        })
    } else {
        read_arguments(alloc, &arguments)
    }
}

fn stored(alloc: Global) -> Run
    ensures asked { work result ≡ stored_work }
    ensures states { result.states.items ≡ [] }
{
    Run {
        job: Job {
            question: Question::Outstanding { process: 4 },
            setting: Setting {
                form: InputForm {
                    hex: true,
                    partial: false,
                },
                workers: 1,
                complete: false,
            },
            until: None,
            top: None,
            exit_code: false,
            format: Format::Plain,
        },
        states: Vec::new(alloc),
        files: Vec::new(alloc),
        symbols: None,
    }
}

fn read_arguments(alloc: Global, arguments: &[String]) -> Result<CommandLine, ParseFault>
    requires some { arguments.now ≢ [] }
    ensures command { IfOk result (λ line.
        IsAskedFor (requested (map string_bytes arguments.now)) line.command) }
    ensures notes { IfOk result (λ line. line.notes ≡ notes_in (map string_bytes arguments.now)) }
    ensures states { IfOk result (λ line. FitsStates line.command) }
    ensures err { IfErr result (RefusesArguments (map string_bytes arguments.now)) }
{
    match matches(alloc, arguments, Place::Shell) {
        Ok(matches) => read_matches(alloc, &matches),
        Err(fault) => Err(fault),
    }
}

fn read_matches(alloc: Global, matches: &ArgMatches) -> Result<CommandLine, ParseFault>
    ensures command { IfOk result (λ line.
        IsAskedFor (request_met (subcommand_rows_of matches.now)) line.command) }
    ensures notes { IfOk result (λ line.
        line.notes ≡ notes_met (subcommand_rows_of matches.now)) }
    ensures err { IfErr result
        (IsUsageWith (AsksNothing (request_met (subcommand_rows_of matches.now)))) }
{
    let Some((name, entries)) = matches.subcommand() else {
        return Err(no_command(alloc));
    };
    match CommandName::from_name(name) {
        Some(name) => read_line(alloc, name, entries),
        None => Err(no_command(alloc)),
    }
}

fn read_line(
    alloc: Global,
    name: CommandName,
    entries: &ArgMatches,
) -> Result<CommandLine, ParseFault>
    ensures command { IfOk result (λ line.
        IsAskedFor (request_of name (entries_of entries.now)) line.command) }
    ensures notes { IfOk result (λ line.
        line.notes ≡ is_given_in flag.Notes (entries_of entries.now)) }
    ensures err { IfErr result
        (IsUsageWith (AsksNothing (request_of name (entries_of entries.now)))) }
{
    Ok(CommandLine {
        command: read_command(alloc, name, entries)?,
        notes: is_given(entries, CommandFlag::Notes),
    })
}

fn read_command(
    alloc: Global,
    name: CommandName,
    entries: &ArgMatches,
) -> Result<Command, ParseFault>
    ensures ok { IfOk result (IsAskedFor (request_of name (entries_of entries.now))) }
    ensures err { IfErr result
        (IsUsageWith (AsksNothing (request_of name (entries_of entries.now)))) }
{
    match name {
        CommandName::Question(question) => {
            let run = read_question(alloc, question, entries)?;
            Ok(Command::Question(run))
        }
        CommandName::Explain => match printed_fault(entries) {
            Ok(fault) => Ok(Command::Explain(fault)),
            Err(given) => Err(unknown_code(alloc, given)),
        },
        CommandName::Dump => Ok(read_dump(alloc, entries)?),
        CommandName::Encode => Ok(read_encode(alloc, entries)?),
        CommandName::Ask => {
            let dialogue = read_dialogue(alloc, entries)?;
            Ok(Command::Ask(dialogue))
        }
        CommandName::Fold => read_fold(alloc, entries),
    }
}

fn read_question(alloc: Global, name: QuestionName, entries: &ArgMatches) -> Result<Run, ParseFault>
    ensures ok { IfOk result (λ run.
        option_map (with_inputs_in (entries_of entries.now))
        (job_of_run name (entries_of entries.now)) ≡ Some (work run)) }
    ensures err { IfErr result (IsUsageWith (job_of_run name (entries_of entries.now) ≡ None)) }
{
    match job_of_run(name, entries) {
        Ok(job) => Ok(with_inputs(alloc, job, entries)?),
        Err(refused) => Err(refused_entries(alloc, "hleak ", CommandName::Question(name), refused)),
    }
}

fn read_dialogue(alloc: Global, entries: &ArgMatches) -> Result<Dialogue, ParseFault>
    ensures ok { IfOk result (λ of.
        IsAskedFor (request_of command.Ask (entries_of entries.now)) (wish.Ask of)) }
    ensures err { IfErr result
        (IsUsageWith (AsksNothing (request_of command.Ask (entries_of entries.now)))) }
{
    match dialogue_setting(entries) {
        Ok(setting) => Ok(dialogue_with(alloc, setting, entries)?),
        Err(why) => Err(refused_entries(alloc, "hleak ", CommandName::Ask, why)),
    }
}

fn dialogue_with(
    alloc: Global,
    setting: Setting,
    entries: &ArgMatches,
) -> Result<Dialogue, AllocError>
    ensures { IfOk result (λ of. IsAskedFor (Some (asks setting
        (is_folded (entries_of entries.now)) (state_names (entries_of entries.now))
        (file_names (entries_of entries.now))
        (given_in option.Symbols (entries_of entries.now)))) (wish.Ask of)) }
{
    Ok(Dialogue {
        setting,
        folds: is_given(entries, CommandFlag::Fold) || has_states(entries),
        states: states(alloc, entries)?,
        files: files(alloc, entries)?,
        symbols: symbols(alloc, entries)?,
    })
}

fn read_fold(alloc: Global, entries: &ArgMatches) -> Result<Command, ParseFault>
    ensures ok { IfOk result (IsAskedFor (request_of command.Fold (entries_of entries.now))) }
    ensures err { IfErr result
        (IsUsageWith (AsksNothing (request_of command.Fold (entries_of entries.now)))) }
{
    match setting(entries) {
        Ok(setting) => {
            let files = files(alloc, entries)?;
            Ok(Command::Fold { setting, files })
        }
        Err(refused) => {
            let why = NoJob::Value(refused);
            Err(refused_entries(alloc, "hleak ", CommandName::Fold, why))
        }
    }
}

fn with_inputs(alloc: Global, job: Job, entries: &ArgMatches) -> Result<Run, AllocError>
    ensures { IfOk result (λ run.
        work run ≡ with_inputs_in (entries_of entries.now) job) }
{
    Ok(Run {
        job,
        states: states(alloc, entries)?,
        files: files(alloc, entries)?,
        symbols: symbols(alloc, entries)?,
    })
}

fn read_dump(alloc: Global, entries: &ArgMatches) -> Result<Command, AllocError>
    ensures { IfOk result (IsAskedFor (request_of command.Dump (entries_of entries.now))) }
{
    Ok(Command::Dump {
        form: input_form(entries),
        files: files(alloc, entries)?,
    })
}

fn read_encode(alloc: Global, entries: &ArgMatches) -> Result<Command, AllocError>
    ensures { IfOk result (IsAskedFor (request_of command.Encode (entries_of entries.now))) }
{
    Ok(Command::Encode {
        hex: is_given(entries, CommandFlag::Hex),
        files: files(alloc, entries)?,
    })
}
