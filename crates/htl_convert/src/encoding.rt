//! The run that encodes texts of segments.

ghost use Rattle.std.specs.Prelude.{◌≡◌, ◌≤◌, ℕ, Bool, List, Option, false, true, length};
ghost use Rattle.std.specs.Prelude.{map, IfErr, IfOk, IfSome};
ghost use Rattle.hex.specs.Hex.{encode_lower};
ghost use Rattle.htl_segment.specs.Bundles.{bundle};
ghost use Rattle.htl_segment.specs.Content.{Content};
ghost use Rattle.htl_text.specs.Encoded.{Encodes};
ghost use Rattle.htl_device.specs.States.{AreOpen, IfKnown, IsOpen, ends, lefts};
ghost use Rattle.htl_inputs.specs.Reads.{IsRead, NamesOnly, NeverRead, NeverWrite};
ghost use Rattle.htl_inputs.specs.Readings.{AreRead, AskForReaders};
ghost use Rattle.htl_convert.specs.Encodings.{EncodeAll, EncodingStops, IsEncodedFrom};
ghost use Rattle.htl_convert.specs.Encodings.{IsReportedOfText, written_as};
ghost use Rattle.htl_convert.specs.Writing.{Writes};

use htl_device::{MAX_READS, Sink, Source, read_whole};
use htl_inputs::{RunFault, write_lines};
use htl_text::encode;
use std::alloc::Global;

/// Writes the bytes of the segments that the texts of the sources encode, those of the first source
/// first, or their hexadecimal digits and a line feed.
///
/// Each source is read whole, as a text of its own. The first fault ends the run, and no later
/// source is read. Nothing is written before all texts are encoded; after a failed write some first
/// part of the bytes went out.
pub fn encode_from<R: Source, W: Sink>(
    alloc: Global,
    hex: bool,
    inputs: &mut [R],
    out: &mut W,
) -> Result<(), RunFault>
    requires ready { AreOpen (map R.state inputs.old) }
    requires out { (W.state out.old).failed ≡ false }
    ensures { IsEncodedFrom hex (map R.state inputs.old) (map R.state inputs.new)
        (W.state out.old) (W.state out.new) result }
{
    let bundle = encode_all(alloc, inputs)?;
    write_bundle(hex, &bundle, out)
}

/// The bytes of the segments that the texts of all sources encode.
fn encode_all<R: Source>(alloc: Global, sources: &mut [R]) -> Result<Vec<u8>, RunFault>
    requires ready { AreOpen (map R.state sources.old) }
    ensures ok { IfKnown (map R.state sources.old) (λ texts. IfOk result (λ bytes.
        (segments : List Content) × EncodeAll texts segments × (bytes.items ≡ bundle segments))) }
    ensures stops { IfKnown (map R.state sources.old) (λ texts. IfErr result (EncodingStops texts
        (lefts (map R.state sources.new)) (ends (map R.state sources.new)))) }
    ensures reading { AreRead true (map R.state sources.old) (map R.state sources.new) result }
    ensures readers { AskForReaders true 1 (map R.state sources.old) (map R.state sources.new) }
    ensures no_write { NeverWrite result }
{
    let mut bundle = Vec::new(alloc);
    for (place, source) in sources.iter_mut().enumerate() {
        let mut more = encode_input(alloc, place as u64, source)?;
        bundle.append(&mut more)?;
    }
    Ok(bundle)
}

/// The bytes of the segments that the text of the source at a place encodes.
fn encode_input<R: Source>(alloc: Global, place: u64, source: &mut R) -> Result<Vec<u8>, RunFault>
    requires ready { IsOpen (R.state source.old) }
    ensures ok { IfOk result (λ bytes. IfSome (R.state source.old).remaining (λ text.
        (segments : List Content) × Encodes text segments × (bytes.items ≡ bundle segments))) }
    ensures stops { IfErr result (λ fault. IfSome (R.state source.old).remaining (λ text.
        IsReportedOfText (R.state source.new).remaining (R.state source.new).ended place text
        fault)) }
    ensures reading { IsRead true MAX_READS place (R.state source.old) (R.state source.new) result }
    ensures tails { (R.state source.new).tails ≡ (R.state source.old).tails }
    ensures no_write { NeverWrite result }
{
    match read_whole(alloc, source) {
        Ok(text) => encode_text(alloc, place, &text),
        Err(fault) => Err(RunFault::from_read(place, fault)),
    }
}

/// The bytes of the segments that the text of the input at a place encodes.
fn encode_text(alloc: Global, place: u64, text: &[u8]) -> Result<Vec<u8>, RunFault>
    ensures ok { IfOk result (λ bytes. (segments : List Content) × Encodes text.now segments
        × (bytes.items ≡ bundle segments)) }
    ensures stops { IfErr result (λ fault. (left : Option (List ℕ)) (ended : Bool)
        → IsReportedOfText left ended place text.now fault) }
    ensures no_read { NeverRead result }
    ensures named { NamesOnly place result }
    ensures no_write { NeverWrite result }
{
    encode(alloc, text).map_err(|fault| RunFault::from_text(place, text, fault))
}

/// Writes the bytes as they are, or their hexadecimal digits and a line feed.
fn write_bundle<W: Sink>(hex: bool, bytes: &[u8], out: &mut W) -> Result<(), RunFault>
    requires { (W.state out.old).failed ≡ false }
    ensures { Writes (written_as hex bytes.now) (W.state out.old) (W.state out.new) result }
{
    if hex {
        write_digits(bytes, out)?;
        write_lines(out, b"\n")
    } else {
        write_lines(out, bytes)
    }
}

/// How many bytes are written in hexadecimal at once.
const STEP: usize = 2_048;

/// Writes the hexadecimal digits of bytes, in lower case.
fn write_digits<W: Sink>(bytes: &[u8], out: &mut W) -> Result<(), RunFault>
    requires { (W.state out.old).failed ≡ false }
    ensures { Writes (encode_lower bytes.now) (W.state out.old) (W.state out.new) result }
{
    let mut rest = bytes;
    while !rest.is_empty() {
        let (step, later) = rest.split_at(rest.len().min(STEP));
        write_step(step, out)?;
        rest = later;
    }
    Ok(())
}

/// Writes the hexadecimal digits of at most 2,048 bytes.
fn write_step<W: Sink>(bytes: &[u8], out: &mut W) -> Result<(), RunFault>
    requires few { length bytes.now ≤ STEP }
    requires out { (W.state out.old).failed ≡ false }
    ensures { Writes (encode_lower bytes.now) (W.state out.old) (W.state out.new) result }
{
    let mut buffer = [0u8; 2 * STEP];
    let digits = &mut buffer[..2 * bytes.len()];
    match hex::encode_to_slice(bytes, digits) {
        Ok(()) => write_lines(out, digits),
        Err(_) => unreachable!(),
    }
}
