//! The segments of inputs that lie in memory.

ghost use Rattle.std.specs.Prelude.{◌≡◌, ℕ, List, IfOk, IfErr, length, map, true};
ghost use Rattle.htl_segment.specs.Hexadecimal.{WritesBytes, digits_of};
ghost use Rattle.htl_inputs.specs.Ends.{IsInput};
ghost use Rattle.htl_inputs.specs.Inputs.{HasBytes, IsReportedOfInput, StopsAtInput};
ghost use Rattle.htl_inputs.specs.Spans.{AreDecoded};
ghost use Rattle.htl_inputs.specs.Reads.{IsOfDigits, NamesOnly, NeverRead, NeverWrite};

use crate::cuts::{Accepted, accept};
use crate::decoded::Decoded;
use crate::fault::RunFault;
use htl_command::InputForm;
use htl_reading::{Bundle, early_end};
use htl_segment::{HexFault, Segment, Segments, from_hex, is_digit, split};
use std::alloc::Global;

/// The segments of all inputs, those of the first input first. The first fault is reported.
pub fn decode_all(alloc: Global, form: InputForm, inputs: &[Vec<u8>]) -> Result<Decoded, RunFault>
    ensures ok { IfOk result (AreDecoded form (map (λ input. input.items) inputs.now)) }
    ensures err { IfErr result
        (StopsAtInput form (IsReportedOfInput form) (map (λ input. input.items) inputs.now)) }
{
    let mut decoded = Decoded::new(alloc);
    for (place, input) in inputs.iter().enumerate() {
        let more = decode_input(alloc, form, place as u64, input)?;
        decoded.add(place as u64, more)?;
    }
    Ok(decoded)
}

/// The segments of the input at a place.
fn decode_input(
    alloc: Global,
    form: InputForm,
    place: u64,
    input: &[u8],
) -> Result<Accepted<Vec<Segment>>, RunFault>
    ensures ok { IfOk result (λ decoded.
        IsInput form input.now decoded.segments.items decoded.end) }
    ensures err { IfErr result (IsReportedOfInput form place input.now) }
    ensures no_read { NeverRead result }
    ensures named { NamesOnly place result }
{
    if form.hex {
        decode_text(alloc, form, place, input)
    } else {
        decode_bytes(alloc, form, place, input)
    }
}

/// The segments of the input at a place, which is a text in hexadecimal.
fn decode_text(
    alloc: Global,
    form: InputForm,
    place: u64,
    input: &[u8],
) -> Result<Accepted<Vec<Segment>>, RunFault>
    requires { form.hex ≡ true }
    ensures ok { IfOk result (λ decoded.
        IsInput form input.now decoded.segments.items decoded.end) }
    ensures err { IfErr result (IsReportedOfInput form place input.now) }
    ensures no_read { NeverRead result }
    ensures named { NamesOnly place result }
{
    let bytes = bytes_of_digits(alloc, place, input)?;
    decode_bytes(alloc, form, place, &bytes)
}

/// The bytes that the digits of the input at a place write. Where it has none, no memory is asked for.
fn bytes_of_digits(alloc: Global, place: u64, input: &[u8]) -> Result<Vec<u8>, RunFault>
    ensures ok { IfOk result (λ bytes. WritesBytes input.now bytes.items) }
    ensures err { IfErr result (λ fault. (form : InputForm) → form.hex ≡ true
        → IsReportedOfInput form place input.now fault) }
    ensures digits { IfErr result (IsOfDigits place) }
{
    match from_hex(alloc, input) {
        Ok(bytes) => Ok(bytes),
        Err(HexFault::NoMemory) if digit_count(input) == 0 => Ok(Vec::new(alloc)),
        Err(fault) => Err(RunFault::from_hex(place, fault)),
    }
}

/// How many of these bytes are hexadecimal digits.
fn digit_count(bytes: &[u8]) -> usize
    ensures { result ≡ length (digits_of bytes.now) }
{
    bytes.iter().filter(|byte| is_digit(**byte)).count()
}

/// The segments that the bytes of the input at a place encode.
pub(crate) fn decode_bytes(
    alloc: Global,
    form: InputForm,
    place: u64,
    bytes: &[u8],
) -> Result<Accepted<Vec<Segment>>, RunFault>
    ensures ok { (input : List ℕ) → HasBytes form.hex input bytes.now
        → IfOk result (λ decoded. IsInput form input decoded.segments.items decoded.end) }
    ensures err { (input : List ℕ) → HasBytes form.hex input bytes.now
        → IfErr result (IsReportedOfInput form place input) }
    ensures no_read { NeverRead result }
    ensures no_write { NeverWrite result }
    ensures named { NamesOnly place result }
{
    let mut segments = Segments::new(alloc);
    let rest = match split(alloc, &mut segments, bytes) {
        Ok(rest) => rest,
        Err((offset, fault)) => return Err(RunFault::from_segment(place, offset, fault)),
    };
    let offset = (bytes.len() - rest.len()) as u64;
    let early_end = early_end(offset, rest);
    let segments = segments.list;
    accept(
        form,
        place,
        Bundle {
            segments,
            early_end,
        },
    )
}
