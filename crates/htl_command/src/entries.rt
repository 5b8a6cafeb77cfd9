//! What `clap` found in the arguments: flags, options and files, by their names.

ghost use Rattle.std.specs.Prelude.{◌≡◌, ◌==◌, [], IfOk, is_some, length, map, not, option_map};
ghost use Rattle.std.specs.Prelude.{string_bytes, unwrap_or};
ghost use Rattle.clap.specs.Words.{all_of, first_of};
ghost use Rattle.htl_command.specs.Options.{given as given_in, is_given as is_given_in};
ghost use Rattle.htl_command.specs.Requests.{file_names, has_files, has_states, state_names};
ghost use Rattle.htl_command.specs.Steps.{entries_of};
ghost use Rattle.htl_command.specs.declared.names.CommandOption.TheVariants as option;

use crate::names::{CommandFlag, CommandOption};
use clap::ArgMatches;
use std::alloc::{AllocError, Global};

/// Whether a flag is given: `clap` gives it the text `true` or `false`.
pub(crate) fn is_given(entries: &ArgMatches, flag: CommandFlag) -> bool
    ensures { result ≡ is_given_in flag (entries_of entries.now) }
{
    match entry(entries, flag.as_str()) {
        Some(text) => text == "true",
        None => false,
    }
}

/// The text of an option.
pub(crate) fn given<'a>(entries: &ArgMatches<'a>, option: CommandOption) -> Option<&'a str>
    ensures { option_map (λ text. text.now) result ≡ given_in option (entries_of entries.now) }
{
    entry(entries, option.as_str())
}

/// Whether an option is given.
pub(crate) fn has_option(entries: &ArgMatches, option: CommandOption) -> bool
    ensures { result ≡ is_some (given_in option (entries_of entries.now)) }
{
    given(entries, option).is_some()
}

/// Whether a file is given.
pub(crate) fn has_files(entries: &ArgMatches) -> bool
    ensures { result ≡ has_files (entries_of entries.now) }
{
    has_any(entries, "files")
}

/// Whether a saved state is given.
pub(crate) fn has_states(entries: &ArgMatches) -> bool
    ensures { result ≡ has_states (entries_of entries.now) }
{
    has_any(entries, "state")
}

/// The names of the files, in order.
pub(crate) fn files(alloc: Global, entries: &ArgMatches) -> Result<Vec<String>, AllocError>
    ensures { IfOk result (λ files. map string_bytes files.items ≡ file_names (entries_of entries.now)) }
{
    names(alloc, entries, "files")
}

/// The names of the saved states, in order.
pub(crate) fn states(alloc: Global, entries: &ArgMatches) -> Result<Vec<String>, AllocError>
    ensures { IfOk result (λ states.
        map string_bytes states.items ≡ state_names (entries_of entries.now)) }
{
    names(alloc, entries, "state")
}

/// The name of the file with the symbol table.
pub(crate) fn symbols(alloc: Global, entries: &ArgMatches) -> Result<Option<String>, AllocError>
    ensures { IfOk result (λ name. option_map string_bytes name
        ≡ given_in option.Symbols (entries_of entries.now)) }
{
    match given(entries, CommandOption::Symbols) {
        None => Ok(None),
        Some(text) => Ok(Some(String::from_str(alloc, text)?)),
    }
}

/// The text of what may be given once.
pub(crate) fn entry<'a>(entries: &ArgMatches<'a>, id: &str) -> Option<&'a str>
    ensures { option_map (λ text. text.now) result ≡ first_of id.now (entries_of entries.now) }
{
    entries.get_str(id)
}

/// Whether what may be given many times is given at all.
fn has_any(entries: &ArgMatches, id: &str) -> bool
    ensures { result ≡ not (length (unwrap_or (all_of id.now (entries_of entries.now)) []) == 0) }
{
    match entry_list(entries, id) {
        None => false,
        Some(texts) => !texts.is_empty(),
    }
}

/// Copies of all texts of what may be given many times, in order.
fn names(alloc: Global, entries: &ArgMatches, id: &str) -> Result<Vec<String>, AllocError>
    ensures { IfOk result (λ names.
        map string_bytes names.items ≡ unwrap_or (all_of id.now (entries_of entries.now)) []) }
{
    match entry_list(entries, id) {
        None => Ok(Vec::new(alloc)),
        Some(texts) => copies(alloc, texts),
    }
}

fn copies(alloc: Global, texts: &[&str]) -> Result<Vec<String>, AllocError>
    ensures { IfOk result (λ copies.
        map string_bytes copies.items ≡ map (λ text. text.now) texts.now) }
{
    let mut copies = Vec::new(alloc);
    for text in texts {
        copies.push(String::from_str(alloc, text)?)?;
    }
    Ok(copies)
}

/// The texts of what may be given many times.
fn entry_list<'e, 'a>(entries: &'e ArgMatches<'a>, id: &str) -> Option<&'e [&'a str]>
    ensures { option_map (λ texts. map (λ text. text.now) texts.now) result
        ≡ all_of id.now (entries_of entries.now) }
{
    entries.get_strs(id)
}
