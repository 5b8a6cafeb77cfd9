//! The names of files that the arguments of a line have.

ghost use Rattle.std.specs.Prelude.{◌≡◌, ◌<◌, IfSome, length, map, string_bytes};
ghost use Rattle.std.specs.List.{list_any, position};
ghost use Rattle.std.specs.Option.{option_map};
ghost use Rattle.htl_dialogue.specs.Sayings.{before_files, ends_options, is_option, names_among};
ghost use Rattle.htl_dialogue.specs.Sayings.{only, only_name};

/// The only name of a file after the word, where there is no option. After `--` an argument is a
/// name.
pub(crate) fn only_name(mut arguments: Vec<String>) -> Option<String>
    requires some { 0 < length arguments.items }
    ensures { option_map string_bytes result ≡ only_name (map string_bytes arguments.items) }
{
    let _word = arguments.remove(0);
    if has_option(&arguments) {
        None
    } else {
        only(names_of(arguments))
    }
}

/// The name, where it is the only one.
#[tactic(auto, using(crate::proofs::Named::one_of_several))]
fn only(mut names: Vec<String>) -> Option<String>
    ensures { option_map string_bytes result ≡ only (map string_bytes names.items) }
{
    let name = names.pop()?;
    if names.is_empty() { Some(name) } else { None }
}

/// The names of files among arguments: all of them but the first `--`.
#[tactic(auto, using(crate::proofs::Named::names_some, crate::proofs::Named::names_none))]
pub(crate) fn names_of(mut arguments: Vec<String>) -> Vec<String>
    ensures { map string_bytes result.items ≡ names_among (map string_bytes arguments.items) }
{
    match options_end(&arguments) {
        Some(place) => {
            let _sign = arguments.remove(place);
            arguments
        }
        None => arguments,
    }
}

/// Whether an argument before the first `--` begins as an option does.
#[tactic(auto, using(crate::proofs::Named::before_some, crate::proofs::Named::before_none))]
pub(crate) fn has_option(arguments: &[String]) -> bool
    ensures { result ≡ list_any is_option (before_files (map string_bytes arguments.now)) }
{
    match options_end(arguments) {
        Some(place) => any_option(&arguments[..place]),
        None => any_option(arguments),
    }
}

/// Whether one of the arguments begins as an option does.
fn any_option(arguments: &[String]) -> bool
    ensures { result ≡ list_any is_option (map string_bytes arguments.now) }
{
    arguments.iter().any(|argument| is_option(argument))
}

/// The place of the first `--`.
fn options_end(arguments: &[String]) -> Option<usize>
    ensures place { result ≡ position ends_options (map string_bytes arguments.now) }
    ensures bound { IfSome result (λ place. place < length arguments.now) }
{
    arguments.iter().position(|argument| ends_options(argument))
}

/// Whether only files follow the argument.
fn ends_options(argument: &str) -> bool
    ensures { result ≡ ends_options argument.now }
{
    argument == "--"
}

/// Whether an argument begins as an option does. `-` alone is the name of a file.
fn is_option(argument: &str) -> bool
    ensures { result ≡ is_option argument.now }
{
    matches!(argument.as_bytes(), [b'-', _, ..])
}
