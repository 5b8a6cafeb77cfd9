//! What the arguments of a line are for, by their words.

ghost use Rattle.std.specs.Prelude.{◌≡◌, ◌<◌, ◌∷◌, [], length, map, string_bytes};
ghost use Rattle.htl_dialogue.specs.Sayings.{asks_help, is_farewell, is_help_option, is_merge, is_quit};
ghost use Rattle.htl_dialogue.specs.Sayings.{is_read, is_save, is_use, is_word, sort_of};

/// What the arguments of a line are for, by their words.
#[derive(Clone, Copy)]
pub(crate) enum Sort {
    /// There are none.
    Nothing,
    /// They end the dialogue.
    Farewell,
    /// They ask for help of a word that is no question.
    Help,
    /// They name files to read.
    Files,
    /// They name a process to use.
    Process,
    /// They name a state to merge.
    Merge,
    /// They name a file, in which the state is saved.
    Save,
    /// They are meant for a question.
    Question,
}

/// What arguments are for, by their words.
pub(crate) fn sort_of(arguments: &[String]) -> Sort
    ensures sort { result ≡ sort_of (map string_bytes arguments.now) }
    ensures files { result ≡ Sort.Files → 0 < length arguments.now }
    ensures merge { result ≡ Sort.Merge → 0 < length arguments.now }
    ensures save { result ≡ Sort.Save → 0 < length arguments.now }
{
    if arguments.is_empty() {
        Sort::Nothing
    } else if is_quit(arguments) {
        Sort::Farewell
    } else if asks_help(arguments) {
        Sort::Help
    } else if is_read(arguments) {
        Sort::Files
    } else if is_use(arguments) {
        Sort::Process
    } else if is_merge(arguments) {
        Sort::Merge
    } else if is_save(arguments) {
        Sort::Save
    } else {
        Sort::Question
    }
}

/// Whether help is asked for of a word that is no question.
fn asks_help(arguments: &[String]) -> bool
    ensures { result ≡ asks_help (map string_bytes arguments.now) }
{
    match arguments {
        [first, second] => is_help_of(first, second),
        _ => false,
    }
}

/// Whether two words ask for such help: `help` before the word, or an option behind it.
fn is_help_of(first: &str, second: &str) -> bool
    ensures { result ≡ asks_help (first.now ∷ second.now ∷ []) }
{
    (first == "help" && is_word(second)) || (is_word(first) && is_help_option(second))
}

/// Whether the word begins a line that is no question.
fn is_word(word: &str) -> bool
    ensures { result ≡ is_word word.now }
{
    word == "read" || word == "use" || word == "merge" || word == "save" || is_farewell(word)
}

/// Whether the word is an option that asks for help.
fn is_help_option(word: &str) -> bool
    ensures { result ≡ is_help_option word.now }
{
    word == "--help" || word == "-h"
}

/// Whether the first argument is the word `read`.
fn is_read(arguments: &[String]) -> bool
    ensures { result ≡ is_read (map string_bytes arguments.now) }
{
    match arguments.first() {
        Some(word) => word.as_str() == "read",
        None => false,
    }
}

/// Whether the first argument is the word `use`.
fn is_use(arguments: &[String]) -> bool
    ensures { result ≡ is_use (map string_bytes arguments.now) }
{
    match arguments.first() {
        Some(word) => word.as_str() == "use",
        None => false,
    }
}

/// Whether the first argument is the word `merge`.
fn is_merge(arguments: &[String]) -> bool
    ensures { result ≡ is_merge (map string_bytes arguments.now) }
{
    match arguments.first() {
        Some(word) => word.as_str() == "merge",
        None => false,
    }
}

/// Whether the first argument is the word `save`.
fn is_save(arguments: &[String]) -> bool
    ensures { result ≡ is_save (map string_bytes arguments.now) }
{
    match arguments.first() {
        Some(word) => word.as_str() == "save",
        None => false,
    }
}

/// Whether the arguments are a word alone that ends the dialogue.
fn is_quit(arguments: &[String]) -> bool
    ensures { result ≡ is_quit (map string_bytes arguments.now) }
{
    match arguments {
        [word] => is_farewell(word),
        _ => false,
    }
}

/// Whether the word is `quit`, `exit` or `q`.
fn is_farewell(word: &str) -> bool
    ensures { result ≡ is_farewell word.now }
{
    word == "quit" || word == "exit" || word == "q"
}
