//! The values of words, and words that are a field and its value.
ghost use Rattle.std.specs.Prelude.{◌≡◌, ◌≤◌, IfOk, IfSome, MatchOption, MatchResult, None, Some};
ghost use Rattle.htl_numbers.specs.Numbers.{decimal_number};
ghost use Rattle.htl_text.specs.declared.fault.FormFault.{FormFault};
ghost use Rattle.htl_text.specs.Fields.{first_text, first_value, frame_value, marked_value};
ghost use Rattle.htl_text.specs.Lines.{words_of};

use crate::dumping::all_visible;
use crate::fault::FormFault;
use crate::field::Field;
use crate::words::{after_bytes, first_word};
use htl_numbers::{decimal, hexadecimal};

/// The number of hexadecimal digits that have `0x` before them.
#[tactic(auto, unfolding(crate::specs::Fields::marked_value))]
fn marked_value(text: &[u8], most: u64) -> Option<u64>
    ensures value { result ≡ marked_value most text.now }
    ensures bound { IfSome result (λ n. n ≤ most) }
{
    if text.starts_with(b"0x") {
        hexadecimal(text, most)
    } else {
        None
    }
}

/// The address of a frame.
pub(crate) fn frame_value(text: &[u8]) -> Option<u64>
    ensures { result ≡ frame_value text.now }
{
    marked_value(text, u64::MAX)
}

/// What a field's text can say.
pub(crate) trait FieldValue {
    ghost use Rattle.std.specs.Prelude.{◌≡◌, ℕ, List, Option};

    /// The value of a text, which is a list of bytes.
    ghost value_of: { List ℕ → Option Self };

    /// The value of a field's text, if it says one that fits.
    fn of_text(text: &[u8]) -> Option<Self>
        ensures { result ≡ Self.value_of text.now };
}

/// An object or a trace.
impl FieldValue for u64 {
    ghost use Rattle.htl_text.specs.Fields.{address_value};

    ghost value_of = { address_value };

    fn of_text(text: &[u8]) -> Option<u64> {
        hexadecimal(text, u64::MAX)
    }
}

/// A handle.
impl FieldValue for u32 {
    ghost use Rattle.htl_text.specs.Fields.{handle_value};

    ghost value_of = { handle_value };

    fn of_text(text: &[u8]) -> Option<u32> {
        let handle = hexadecimal(text, u64::from(u32::MAX))?;
        Some(handle as u32)
    }
}

/// A tag's bytes, in the order in which they are shown.
impl FieldValue for [u8; 4] {
    ghost use Rattle.htl_text.specs.Fields.{tag_value};

    ghost value_of = { tag_value };

    #[tactic(auto, unfolding(crate::specs::Fields::tag_value))]
    fn of_text(text: &[u8]) -> Option<[u8; 4]> {
        if let Ok(tag) = <[u8; 4]>::try_from(text) {
            return if all_visible(text) { Some(tag) } else { None };
        }
        if text.len() == 10 {
            let in_order = marked_value(text, u64::from(u32::MAX))?;
            return Some((in_order as u32).to_be_bytes());
        }
        None
    }
}

/// The value that the first word gives a field, after its name and `=`, and the words that follow it.
#[tactic(auto, unfolding(crate::specs::Fields::first_text))]
fn first_text<'a>(words: &'a [u8], field: Field) -> Option<(&'a [u8], &'a [u8])>
    ensures { MatchOption result
        (first_text field (words_of words.entry.now) ≡ None)
        (λ found. first_text field (words_of words.entry.now)
        ≡ Some (found.0.now, words_of found.1.now)) }
{
    let (word, words) = first_word(words)?;
    let value = after_bytes(word, field.name().as_bytes())?;
    Some((after_bytes(value, b"=")?, words))
}

/// The decimal number, at most `most`, that the first word gives a field, and the words that follow; or
/// the field, if it has no such value.
#[tactic(auto, unfolding(crate::specs::Fields::first_value))]
pub(crate) fn number<'a>(
    words: &'a [u8],
    field: Field,
    most: u64,
) -> Result<(u64, &'a [u8]), FormFault>
    ensures value { MatchResult result
        (λ found. first_value field (decimal_number most) (words_of words.entry.now)
        ≡ Some (found.0, words_of found.1.now))
        (λ fault. (first_value field (decimal_number most) (words_of words.entry.now) ≡ None)
        × (fault ≡ FormFault.Field field)) }
    ensures bound { IfOk result (λ found. found.0 ≤ most) }
{
    let missing = FormFault::Field(field);
    let (text, words) = first_text(words, field).ok_or(missing)?;
    Ok((decimal(text, most).ok_or(missing)?, words))
}

/// The value that the first word gives a field, and the words that follow; or the field, if it has no
/// such value.
#[tactic(auto, unfolding(crate::specs::Fields::first_value))]
pub(crate) fn value<'a, V: FieldValue>(
    words: &'a [u8],
    field: Field,
) -> Result<(V, &'a [u8]), FormFault>
    ensures { MatchResult result
        (λ found. first_value field V.value_of (words_of words.entry.now)
        ≡ Some (found.0, words_of found.1.now))
        (λ fault. (first_value field V.value_of (words_of words.entry.now) ≡ None)
        × (fault ≡ FormFault.Field field)) }
{
    let missing = FormFault::Field(field);
    let (text, words) = first_text(words, field).ok_or(missing)?;
    Ok((V::of_text(text).ok_or(missing)?, words))
}
