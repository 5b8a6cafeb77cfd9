//! The process that the arguments of a question name, or that is named for them.

ghost use Rattle.std.specs.Prelude.{◌≡◌, ◌<◌, IfOk, length, map, string_bytes, true};
ghost use Rattle.std.specs.List.{insert, list_any};
ghost use Rattle.htl_dialogue.specs.Sayings.{lacks_process, names_process, process_option};
ghost use Rattle.htl_dialogue.specs.Sayings.{with_process};

use htl_command::takes_process;
use htl_event::NoMemory;
use std::alloc::{AllocError, Global};

/// The arguments with what they mean where this process is used: that a question which names no
/// process, though it is about one, is about this one.
#[tactic(auto, unfolding(crate::specs::Sayings::with_process))]
pub(crate) fn with_process(
    alloc: Global,
    arguments: Vec<String>,
    process: Option<u32>,
) -> Result<Vec<String>, NoMemory>
    ensures { IfOk result (λ meant.
        map string_bytes meant.items ≡ with_process process (map string_bytes arguments.items)) }
{
    let Some(process) = process else {
        return Ok(arguments);
    };
    if lacks_process(&arguments) {
        let option = process_option(alloc, process)?;
        named(arguments, option)
    } else {
        Ok(arguments)
    }
}

/// Whether arguments ask about a process, and name none.
fn lacks_process(arguments: &[String]) -> bool
    ensures lacks { result ≡ lacks_process (map string_bytes arguments.now) }
    ensures some { result ≡ true → 0 < length arguments.now }
{
    match arguments {
        [word, more @ ..] => takes_process(word) && !any_named(more),
        [] => false,
    }
}

/// Whether one of the arguments names a process.
fn any_named(arguments: &[String]) -> bool
    ensures { result ≡ list_any names_process (map string_bytes arguments.now) }
{
    arguments.iter().any(|argument| names_process(argument))
}

/// Whether an argument is the option of a process, alone or with its value.
fn names_process(argument: &str) -> bool
    ensures { result ≡ names_process argument.now }
{
    argument == "--process" || argument.starts_with("--process=")
}

/// The option with its value.
fn process_option(alloc: Global, process: u32) -> Result<String, AllocError>
    ensures { IfOk result (λ option. string_bytes option ≡ process_option process) }
{
    format!(in alloc; "--process={process}")
}

/// The arguments with an option behind their first word.
fn named(mut arguments: Vec<String>, option: String) -> Result<Vec<String>, NoMemory>
    requires some { 0 < length arguments.items }
    ensures { IfOk result (λ named. map string_bytes named.items
        ≡ insert (map string_bytes arguments.items) 1 (string_bytes option)) }
{
    arguments.insert(1, option)?;
    Ok(arguments)
}
