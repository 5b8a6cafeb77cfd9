//! Bytes read from hexadecimal digits.
ghost use Rattle.std.specs.Prelude.{◌≡◌, ◌<◌, ◌%◌, ℕ, true, length, position};
ghost use Rattle.std.specs.Prelude.{Ok, Err, Some, None, MatchResult};
ghost use Rattle.std.specs.List.{AllPass};
ghost use Rattle.hex.specs.Hex.{decode_of, hex_digit_value, is_hex_digit, pair_value};
ghost use Rattle.htl_segment.specs.Hexadecimal.{is_foreign, digits_of, hex_fault};
ghost use Rattle.htl_segment.specs.declared.hexadecimal.HexFault.TheVariants as faults;

use htl_event::NoMemory;
use htl_numbers::digit_value;
use std::alloc::Global;
use thiserror::Error;

/// Why a text is not valid hexadecimal. The `Display` text is the fault's code.
#[derive(Clone, Copy, Debug, PartialEq, Eq, Error)]
pub enum HexFault {
    /// The byte at this place of the text is the first that is neither a digit nor white space.
    #[error("H1({0})")]
    BadDigit(u64),
    /// The number of digits is odd.
    #[error("H2")]
    Odd,
    /// An allocation was refused.
    #[error("H3")]
    NoMemory,
}

impl<R: Into<NoMemory>> From<R> for HexFault {
    ghost from_gives = { λ _ fault. fault ≡ faults.NoMemory };

    fn from(refused: R) -> HexFault {
        let NoMemory = refused.into();
        HexFault::NoMemory
    }
}

/// The bytes that the hexadecimal digits of a text write. Two digits make a byte, in lower or upper
/// case. Spaces, carriage returns and line feeds are ignored. The first other byte is reported before
/// an odd number of digits, and both before memory is asked for.
pub fn from_hex(alloc: Global, text: &[u8]) -> Result<Vec<u8>, HexFault>
    ensures refused { (fault : HexFault) → hex_fault text.now ≡ Some fault → result ≡ Err fault }
    ensures read { hex_fault text.now ≡ None → MatchResult result
        (λ bytes. decode_of (digits_of text.now) ≡ Ok bytes.items)
        (λ fault. fault ≡ HexFault.NoMemory) }
{
    if let Some(place) = first_foreign(text) {
        return Err(HexFault::BadDigit(place as u64));
    }
    let count = digit_count(text);
    if count % 2 == 1 {
        return Err(HexFault::Odd);
    }
    let digits = gather_digits(alloc, text, count)?;
    decode_digits(alloc, &digits)
}

/// Whether the byte is a hexadecimal digit, of either case.
pub fn is_digit(byte: u8) -> bool
    ensures { result ≡ is_hex_digit byte }
{
    digit_value(byte) < 16
}

fn first_foreign(text: &[u8]) -> Option<usize>
    ensures { result ≡ position is_foreign text.now }
{
    text.iter().position(|byte| !(is_digit(*byte)
        || *byte == b' '
        || *byte == b'\r'
        || *byte == b'\n'))
}

fn digit_count(text: &[u8]) -> usize
    ensures { result ≡ length (digits_of text.now) }
{
    text.iter().filter(|byte| is_digit(**byte)).count()
}

/// The digits without the white space. There are `count` of them.
fn gather_digits(alloc: Global, text: &[u8], count: usize) -> Result<Vec<u8>, HexFault>
    ensures { MatchResult result
        (λ digits. digits.items ≡ digits_of text.now)
        (λ fault. fault ≡ HexFault.NoMemory) }
{
    let mut digits = Vec::with_capacity(alloc, count)?;
    for byte in text {
        if is_digit(*byte) {
            digits.push(*byte)?;
        }
    }
    Ok(digits)
}

fn decode_digits(alloc: Global, digits: &[u8]) -> Result<Vec<u8>, HexFault>
    requires even { length digits.now % 2 ≡ 0 }
    requires digits { AllPass is_hex_digit digits.now }
    ensures { MatchResult result
        (λ bytes. decode_of digits.now ≡ Ok bytes.items)
        (λ fault. fault ≡ HexFault.NoMemory) }
{
    let count = digits.len() / 2;
    let mut bytes = vec![in alloc; 0u8; count]?;
    for place in 0..count {
        bytes[place] = byte_of(digits[2 * place], digits[2 * place + 1]);
    }
    Ok(bytes)
}

/// The byte that two digits write.
fn byte_of(high: u8, low: u8) -> u8
    requires high { is_hex_digit high ≡ true }
    requires low { is_hex_digit low ≡ true }
    ensures { (place : ℕ) → pair_value high low place ≡ Ok result }
{
    16 * value_of(high) + value_of(low)
}

/// The value of a digit: its last four bits, and 9 more for a letter. A sum, which is made of many
/// digits at once, where a table or a choice would take one after the other.
fn value_of(digit: u8) -> u8
    requires { is_hex_digit digit ≡ true }
    ensures value { hex_digit_value digit ≡ Some result }
    ensures small { result < 16 }
{
    digit % 16 + 9 * (digit / 64)
}
