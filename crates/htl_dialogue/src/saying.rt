//! What a line says.

ghost use Rattle.std.specs.Prelude.{◌≡◌, ◌<◌, ⊤, ℕ, List, IfErr, IfOk, Some, length, map, string_bytes};
ghost use Rattle.htl_command.specs.Helps.{IsHelp};
ghost use Rattle.htl_command.specs.Refusals.{IsUsageWith, RefusesQuestion};
ghost use Rattle.htl_command.specs.Requests.{asked_in};
ghost use Rattle.htl_dialogue.specs.Reading.{IsLine};
ghost use Rattle.htl_dialogue.specs.Notes.{IsFaultBy};
ghost use Rattle.htl_dialogue.specs.Replying.{HasReason, KeepsFault, KeepsOwnFault};
ghost use Rattle.htl_dialogue.specs.Sayings.{asking, is_help_sign, is_refused_in, meant, merges};
ghost use Rattle.htl_dialogue.specs.Sayings.{naming, reading, saves, saying, saying_by, saying_in};
ghost use Rattle.htl_dialogue.specs.Sayings.{saying_of, turn, using, using_named};
ghost use Rattle.htl_dialogue.specs.Sayings.{wrong as says_wrong};

use crate::files::{has_option, names_of, only_name};
use crate::line::Line;
use crate::naming::with_process;
use crate::sorting::{Sort, sort_of};
use crate::splitting::{ArgumentFault, arguments};
use htl_command::{Job, ParseFault, parse_process, parse_question};
use htl_event::NoMemory;
use std::alloc::Global;

/// What a line says.
#[derive(Debug, PartialEq, Eq, Drop)]
pub enum Said {
    /// It has no arguments.
    Nothing,
    /// The dialogue ends.
    Quits,
    /// A question.
    Asks(Job),
    /// Files of these names are to be read.
    Reads(Vec<String>),
    /// From here on questions that name no process are about this one, if there is one.
    Uses(Option<u32>),
    /// The state that the file of this name holds is to be merged.
    Merges(String),
    /// The state is to be saved in the file of this name.
    Saves(String),
    /// The line is wrong, for this reason.
    Wrong(ParseFault),
}

impl Said {
    ghost use Rattle.std.specs.Prelude.{◌≡◌};
    ghost use Rattle.htl_dialogue.specs.Sayings.{saying, used};

    /// The process that is used after this was said, where this one was used before.
    pub fn used(&self, before: Option<u32>) -> Option<u32>
        ensures { result ≡ used before (saying self.now) }
    {
        match self {
            Said::Uses(process) => *process,
            _ => before,
        }
    }
}

/// What a line says in a dialogue where this process is used. Where the dialogue forgets events, a
/// question that needs them is wrong; where it keeps them, a line that merges or saves a state is.
pub fn read_line(
    alloc: Global,
    line: &Line,
    process: Option<u32>,
    forgets: bool,
) -> Result<Said, NoMemory>
    ensures said { IfOk result (λ said. (bytes : List ℕ) → IsLine bytes line.now
        → saying said ≡ saying_in forgets (turn process bytes)) }
    ensures fault { IfOk result (λ said. (bytes : List ℕ) → IsLine bytes line.now
        → KeepsFault forgets (turn process bytes) said) }
{
    let said = said_of(alloc, line, process)?;
    if is_refused_in(&said, forgets) {
        wrong(refusal(alloc, forgets))
    } else {
        Ok(said)
    }
}

/// Whether it is a question that needs events, where these are forgotten, or is about a state, where
/// they are kept.
fn is_refused_in(said: &Said, forgets: bool) -> bool
    ensures { result ≡ is_refused_in forgets (saying said.now) }
{
    match said {
        Said::Asks(job) => forgets && job.needs_events(),
        Said::Merges(_) | Said::Saves(_) => !forgets,
        _ => false,
    }
}

/// Why something is refused in a dialogue that forgets events, or keeps them.
fn refusal(alloc: Global, forgets: bool) -> ParseFault
    ensures { IsUsageWith ⊤ result }
{
    if forgets {
        ParseFault::needs_events(alloc)
    } else {
        ParseFault::needs_fold(alloc)
    }
}

/// What a line says in whatever dialogue.
#[tactic(auto, unfolding(crate::specs::Sayings::saying_of))]
fn said_of(alloc: Global, line: &Line, process: Option<u32>) -> Result<Said, NoMemory>
    ensures said { IfOk result (λ said. (bytes : List ℕ) → IsLine bytes line.now
        → saying said ≡ saying_of (turn process bytes)) }
    ensures fault { IfOk result (λ said. (bytes : List ℕ) → IsLine bytes line.now
        → KeepsOwnFault (turn process bytes) said) }
{
    let Line::Whole(bytes) = line else {
        return wrong(ParseFault::long_line(alloc));
    };
    match arguments(alloc, bytes) {
        Ok(arguments) => said_by(alloc, arguments, process),
        Err(ArgumentFault::OpenQuote) => wrong(ParseFault::open_quote(alloc)),
        Err(ArgumentFault::NotUtf8) => wrong(ParseFault::no_text(alloc)),
        Err(ArgumentFault::NoMemory) => Err(NoMemory),
    }
}

/// What a line with these arguments says.
fn said_by(alloc: Global, arguments: Vec<String>, process: Option<u32>) -> Result<Said, NoMemory>
    ensures said { IfOk result (λ said.
        saying said ≡ saying_by process (map string_bytes arguments.items)) }
    ensures fault { IfOk result (HasReason (IsFaultBy process (map string_bytes arguments.items))) }
{
    match sort_of(&arguments) {
        Sort::Nothing => Ok(Said::Nothing),
        Sort::Farewell => Ok(Said::Quits),
        Sort::Help => wrong(help_of(alloc, &arguments)),
        Sort::Files => files_of(alloc, arguments),
        Sort::Process => process_of(alloc, &arguments, process),
        Sort::Merge => merging(alloc, arguments),
        Sort::Save => saving(alloc, arguments),
        Sort::Question => {
            let meant = with_process(alloc, arguments, process)?;
            said_by_question(alloc, &meant)
        }
    }
}

/// The help that arguments ask for.
fn help_of(alloc: Global, arguments: &[String]) -> ParseFault
    ensures { IsHelp result }
{
    if has_word(arguments, "read") {
        ParseFault::read_help(alloc)
    } else if has_word(arguments, "use") {
        ParseFault::use_help(alloc)
    } else if has_word(arguments, "merge") {
        ParseFault::merge_help(alloc)
    } else if has_word(arguments, "save") {
        ParseFault::save_help(alloc)
    } else {
        ParseFault::quit_help(alloc)
    }
}

/// Whether the word is one of the arguments.
fn has_word(arguments: &[String], word: &str) -> bool {
    arguments.iter().any(|argument| argument.as_str() == word)
}

/// The question that the arguments ask, or why they are wrong.
fn said_by_question(alloc: Global, arguments: &[String]) -> Result<Said, NoMemory>
    ensures said { IfOk result (λ said. saying said ≡ asking (map string_bytes arguments.now)) }
    ensures fault { IfOk result
        (HasReason (RefusesQuestion (meant (map string_bytes arguments.now)))) }
{
    match question_job(alloc, arguments) {
        Ok(job) => Ok(Said::Asks(job)),
        Err(fault) => wrong(fault),
    }
}

/// What a `use` line says, where this process is used before it.
fn process_of(alloc: Global, arguments: &[String], before: Option<u32>) -> Result<Said, NoMemory>
    ensures said { IfOk result (λ said.
        saying said ≡ using before (map string_bytes arguments.now)) }
    ensures fault { IfOk result (HasReason (IsUsageWith ⊤)) }
{
    match arguments {
        [_] => Ok(Said::Uses(before)),
        [_, name] => named_process(alloc, name),
        _ => wrong(ParseFault::many_processes(alloc)),
    }
}

/// What is said by the name of a process, or by `none`.
fn named_process(alloc: Global, name: &str) -> Result<Said, NoMemory>
    ensures said { IfOk result (λ said. saying said ≡ using_named name.now) }
    ensures fault { IfOk result (HasReason (IsUsageWith ⊤)) }
{
    if name == "none" {
        return Ok(Said::Uses(None));
    }
    match parse_process(name) {
        Some(process) => Ok(Said::Uses(Some(process))),
        None => wrong(ParseFault::no_process(alloc, name)),
    }
}

/// What a `read` line says: the names of one or more files after the word, and no option. After `--`
/// each argument is a name.
fn files_of(alloc: Global, mut arguments: Vec<String>) -> Result<Said, NoMemory>
    requires some { 0 < length arguments.items }
    ensures said { IfOk result (λ said.
        saying said ≡ reading (map string_bytes arguments.items)) }
    ensures fault { IfOk result (HasReason (IsUsageWith ⊤)) }
{
    let _word = arguments.remove(0);
    if has_option(&arguments) {
        return wrong(ParseFault::no_files(alloc));
    }
    let names = names_of(arguments);
    if names.is_empty() {
        return wrong(ParseFault::no_files(alloc));
    }
    Ok(Said::Reads(names))
}

/// What a `merge` line says: the name of one file after the word, and no option.
fn merging(alloc: Global, arguments: Vec<String>) -> Result<Said, NoMemory>
    requires some { 0 < length arguments.items }
    ensures said { IfOk result (λ said.
        saying said ≡ naming merges (map string_bytes arguments.items)) }
    ensures fault { IfOk result (HasReason (IsUsageWith ⊤)) }
{
    match only_name(arguments) {
        Some(name) => Ok(Said::Merges(name)),
        None => wrong(ParseFault::no_name(alloc, "merge")),
    }
}

/// What a `save` line says: the name of one file after the word, and no option.
fn saving(alloc: Global, arguments: Vec<String>) -> Result<Said, NoMemory>
    requires some { 0 < length arguments.items }
    ensures said { IfOk result (λ said.
        saying said ≡ naming saves (map string_bytes arguments.items)) }
    ensures fault { IfOk result (HasReason (IsUsageWith ⊤)) }
{
    match only_name(arguments) {
        Some(name) => Ok(Said::Saves(name)),
        None => wrong(ParseFault::no_name(alloc, "save")),
    }
}

/// The job that the arguments ask for.
fn question_job(alloc: Global, arguments: &[String]) -> Result<Job, ParseFault>
    ensures ok { IfOk result (λ job. asked_in (meant (map string_bytes arguments.now)) ≡ Some job) }
    ensures err { IfErr result (RefusesQuestion (meant (map string_bytes arguments.now))) }
{
    if is_help_sign(arguments) {
        let help = [String::from_str(alloc, "help")?];
        parse_question(alloc, &help)
    } else {
        parse_question(alloc, arguments)
    }
}

/// Whether the arguments are `?` alone, which is `help`.
fn is_help_sign(arguments: &[String]) -> bool
    ensures { result ≡ is_help_sign (map string_bytes arguments.now) }
{
    match arguments {
        [word] => word.as_str() == "?",
        _ => false,
    }
}

/// What is wrong with a line, unless memory was refused.
fn wrong(fault: ParseFault) -> Result<Said, NoMemory>
    ensures said { IfOk result (λ said. saying said ≡ says_wrong) }
    ensures fault { IfOk result (HasReason (λ kept. kept ≡ fault)) }
{
    match fault {
        ParseFault::Memory => Err(NoMemory),
        fault => Ok(Said::Wrong(fault)),
    }
}
