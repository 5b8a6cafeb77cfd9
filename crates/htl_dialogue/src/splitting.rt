//! The arguments of a line.

ghost use Rattle.std.specs.Prelude.{◌≡◌, ◌≤◌, ◌<◌, ◌++◌, false, true, length, map, IfErr, IfOk};
ghost use Rattle.std.specs.Prelude.{string_bytes};
ghost use Rattle.std.specs.List.{list_all};
ghost use Rattle.std.specs.Str.{is_utf8};
ghost use Rattle.htl_dialogue.specs.Lines.{IsUnreadable, arguments_of, ends_quoted, is_blank, turned};
ghost use Rattle.htl_dialogue.specs.Parts.{IsNotUtf8, IsNotUtf8With, kept, part_end, unquoted};

use std::alloc::{AllocError, AllocFailed, Global};
use thiserror::Error;

/// Why a line has no arguments.
#[derive(Clone, Copy, Debug, PartialEq, Eq, Error)]
pub enum ArgumentFault {
    /// A quote is not ended.
    #[error("a quote is not ended")]
    OpenQuote,
    /// An argument is not text in UTF-8.
    #[error("an argument is not text in UTF-8")]
    NotUtf8,
    /// An allocation was refused.
    #[error("out of memory")]
    NoMemory,
}

impl From<AllocError> for ArgumentFault {
    ghost use Rattle.std.specs.Prelude.{◌≡◌};
    ghost use Rattle.htl_dialogue.specs.declared.splitting.ArgumentFault.TheVariants.{NoMemory};

    ghost from_gives = { λ _ fault. fault ≡ NoMemory };

    fn from(_refused: AllocError) -> ArgumentFault {
        ArgumentFault::NoMemory
    }
}

impl<T: Drop> From<AllocFailed<T>> for ArgumentFault {
    ghost use Rattle.std.specs.Prelude.{◌≡◌};
    ghost use Rattle.htl_dialogue.specs.declared.splitting.ArgumentFault.TheVariants.{NoMemory};

    ghost from_gives = { λ _ fault. fault ≡ NoMemory };

    fn from(_refused: AllocFailed<T>) -> ArgumentFault {
        ArgumentFault::NoMemory
    }
}

/// The arguments of a line, which blanks separate. A blank in double quotes belongs to the
/// argument, and the quotes don't. Quotes with nothing in them make no argument. A quote that is
/// not ended is reported first, and then the first argument that is not text.
pub fn arguments(alloc: Global, line: &[u8]) -> Result<Vec<String>, ArgumentFault>
    ensures ok { IfOk result (λ arguments. (ends_quoted false line.now ≡ false)
        × (map string_bytes arguments.items ≡ arguments_of line.now)
        × (list_all is_utf8 (arguments_of line.now) ≡ true)) }
    ensures err { IfErr result (IsUnreadable line.now) }
{
    if is_open(line) {
        return Err(ArgumentFault::OpenQuote);
    }
    split_arguments(alloc, line)
}

/// The parts of a line as texts.
fn split_arguments(alloc: Global, line: &[u8]) -> Result<Vec<String>, ArgumentFault>
    ensures ok { IfOk result (λ arguments. (map string_bytes arguments.items ≡ arguments_of line.now)
        × (list_all is_utf8 (arguments_of line.now) ≡ true)) }
    ensures err { IfErr result (IsNotUtf8 line.now) }
{
    let mut arguments = Vec::new(alloc);
    let mut rest = line;
    while !rest.is_empty() {
        let (part, others) = first_part(rest);
        let bytes = without_quotes(alloc, part)?;
        if !bytes.is_empty() {
            arguments.push(text_of(bytes)?)?;
        }
        rest = others;
    }
    Ok(arguments)
}

/// Whether a quote is not ended.
fn is_open(line: &[u8]) -> bool
    ensures { result ≡ ends_quoted false line.now }
{
    let mut quoted = false;
    for byte in line {
        quoted = turned(quoted, *byte);
    }
    quoted
}

/// What stands before the first blank that separates, and what follows it.
fn first_part(line: &[u8]) -> (&[u8], &[u8])
    requires { 0 < length line.now }
    ensures parts { arguments_of line.now ≡ kept result.0.now ++ arguments_of result.1.now }
    ensures shorter { length result.1.now < length line.now }
{
    let (part, rest) = line.split_at(part_end(line));
    match rest.split_first() {
        Some((_, rest)) => (part, rest),
        None => (part, rest),
    }
}

/// The place of the first blank that separates, or the length.
fn part_end(line: &[u8]) -> usize
    ensures value { result ≡ part_end false line.now }
    ensures bound { result ≤ length line.now }
{
    let mut quoted = false;
    for (place, byte) in line.iter().enumerate() {
        if is_blank(*byte) && !quoted {
            return place;
        }
        quoted = turned(quoted, *byte);
    }
    line.len()
}

/// Whether what follows a byte stands in quotes.
fn turned(quoted: bool, byte: u8) -> bool
    ensures { result ≡ turned quoted byte }
{
    if byte == b'"' { !quoted } else { quoted }
}

/// Whether the byte is a blank.
fn is_blank(byte: u8) -> bool
    ensures { result ≡ is_blank byte }
{
    matches!(byte, b' ' | b'\t' | b'\r')
}

/// A part without its quotes.
fn without_quotes(alloc: Global, part: &[u8]) -> Result<Vec<u8>, AllocError>
    ensures { IfOk result (λ bytes. bytes.items ≡ unquoted part.now) }
{
    part.iter()
        .copied()
        .filter(|byte| *byte != b'"')
        .collect(alloc)
}

/// The text of bytes, if they are one.
fn text_of(bytes: Vec<u8>) -> Result<String, ArgumentFault>
    ensures ok { IfOk result (λ text. (string_bytes text ≡ bytes.items)
        × (is_utf8 bytes.items ≡ true)) }
    ensures err { IfErr result (IsNotUtf8With (is_utf8 bytes.items ≡ false)) }
{
    match String::from_utf8(bytes) {
        Ok(text) => Ok(text),
        Err(_) => Err(ArgumentFault::NotUtf8),
    }
}
