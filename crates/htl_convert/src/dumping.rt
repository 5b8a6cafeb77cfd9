//! The run that dumps the segments of sources as text.

ghost use Rattle.std.specs.Prelude.{◌≡◌, ◌⊎◌, ◌+◌, ◌*◌, ◌-◌, ◌<◌, ◌≤◌, ◌^◌};
ghost use Rattle.std.specs.Prelude.{ℕ, Bool, List, Option, Err, false, true, drop};
ghost use Rattle.std.specs.Prelude.{length, map, IfErr, IfOk, MatchResult, OnOk};
ghost use Rattle.std.specs.Io.KnownBytes.{Appends};
ghost use Rattle.htl_device.specs.Devices.{AppendsPrefix};
ghost use Rattle.htl_segment.specs.Bundles.{bundle, IsRest};
ghost use Rattle.htl_segment.specs.Content.{Content};
ghost use Rattle.htl_text.specs.Texts.{segment_text};
ghost use Rattle.htl_reading.specs.Sources.{IsReadToFault};
ghost use Rattle.htl_device.specs.States.{AreOpen, IsOpen};
ghost use Rattle.htl_inputs.specs.Ends.{IsEnd, IsEndRefused, IsSegmentOf};
ghost use Rattle.htl_inputs.specs.Inputs.{HasBytes};
ghost use Rattle.htl_inputs.specs.Reads.{FailsOnly, IsRead, NamesOnly, NeverRead};
ghost use Rattle.htl_convert.specs.Dumping.{DumpsInput, EndsInput, FrontDumped, FrontStops};
ghost use Rattle.htl_convert.specs.Dumping.{OthersFit, with_input};
ghost use Rattle.htl_convert.specs.Dumps.{InputStops, IsDumpedFrom, is_failed_write};

use htl_command::InputForm;
use htl_device::{MAX_READ_LEN, MAX_READS, MIN_READ_LEN, Sink, Source};
use htl_inputs::{CutInputs, RunFault, check_end, write_lines};
use htl_reading::{EarlyEnd, early_end, read_digits};
use htl_segment::SegmentBytes;
use htl_text::dump;
use std::alloc::Global;

/// Writes the text of every segment of the sources in their order, each as soon as its bytes were
/// read. The segments need not form a case.
///
/// The first fault ends the run: nothing is read after the read that showed it. By then the texts
/// of all segments before the fault were written, or a first part of them if a write failed. A text
/// in hexadecimal is read to its end or its first foreign byte before it is dumped, and the bytes that
/// it writes are kept; of bytes only one incomplete segment and one read are.
pub fn dump_from<R: Source, W: Sink>(
    alloc: Global,
    form: InputForm,
    inputs: &mut [R],
    out: &mut W,
) -> Result<Option<CutInputs>, RunFault>
    requires ready { AreOpen (map R.state inputs.old) }
    requires out { (W.state out.old).failed ≡ false }
    ensures { IsDumpedFrom form (map R.state inputs.old) (map R.state inputs.new)
        (W.state out.old) (W.state out.new) result }
{
    let mut cut = None;
    for (place, source) in inputs.iter_mut().enumerate() {
        let end = dump_input(alloc, form, place as u64, source, out)?;
        cut = with_input(cut, place as u64, end.is_some());
    }
    Ok(cut)
}

/// Adds the input at this place to the cut inputs if it is cut.
fn with_input(cut: Option<CutInputs>, place: u64, is_cut: bool) -> Option<CutInputs>
    requires { OthersFit cut place }
    ensures { result ≡ with_input is_cut place cut }
{
    if !is_cut {
        return cut;
    }
    match cut {
        None => Some(CutInputs {
            first: place,
            others: 0,
        }),
        Some(CutInputs { first, others }) => Some(CutInputs {
            first,
            others: others + 1,
        }),
    }
}

/// Dumps the source at a place. The bytes that a text in hexadecimal writes are gathered first; of a
/// source of bytes each read is dumped at once.
fn dump_input<R: Source, W: Sink>(
    alloc: Global,
    form: InputForm,
    place: u64,
    source: &mut R,
    out: &mut W,
) -> Result<Option<EarlyEnd>, RunFault>
    requires ready { IsOpen (R.state source.old) }
    requires out { (W.state out.old).failed ≡ false }
    ensures dumped { EndsInput form place (R.state source.old) (R.state source.new)
        (W.state out.old).contents (W.state out.new).contents result }
    ensures failed { (W.state out.new).failed ≡ is_failed_write result }
    ensures reading { IsRead form.hex MAX_READS place (R.state source.old)
        (R.state source.new) result }
    ensures tails { (R.state source.new).tails ≡ (R.state source.old).tails }
{
    if form.hex {
        return match read_digits(alloc, source) {
            Ok(bytes) => dump_text(alloc, form, place, &bytes, out),
            Err(fault) => Err(RunFault::from_digits(place, fault)),
        };
    }
    let mut buffer = [0u8; MIN_READ_LEN];
    dump_within(alloc, form, place, source, &mut buffer, MAX_READS, out)
}

/// Dumps the input at a place, a text in hexadecimal that writes these bytes.
fn dump_text<W: Sink>(
    alloc: Global,
    form: InputForm,
    place: u64,
    bytes: &[u8],
    out: &mut W,
) -> Result<Option<EarlyEnd>, RunFault>
    requires out { (W.state out.old).failed ≡ false }
    requires digits { form.hex ≡ true }
    ensures ok { (input : List ℕ) → HasBytes form.hex input bytes.now → IfOk result (λ end.
        DumpsInput form input end (W.state out.old).contents (W.state out.new).contents) }
    ensures stops { (input : List ℕ) (left : Option (List ℕ)) (ended : Bool)
        → HasBytes form.hex input bytes.now → IfErr result (InputStops form left ended place input
        (W.state out.old).contents (W.state out.new).contents) }
    ensures failed { (W.state out.new).failed ≡ is_failed_write result }
    ensures no_read { NeverRead result }
    ensures named { NamesOnly place result }
{
    let rest = dump_front(alloc, place, 0, bytes, &mut Vec::new(alloc), out)?;
    finish(form, place, (bytes.len() - rest.len()) as u64, rest)
}

/// Dumps the source at a place in reads of the buffer's length, of which at most `most` give bytes.
fn dump_within<R: Source, W: Sink>(
    alloc: Global,
    form: InputForm,
    place: u64,
    source: &mut R,
    buffer: &mut [u8],
    most: u64,
    out: &mut W,
) -> Result<Option<EarlyEnd>, RunFault>
    requires ready { IsOpen (R.state source.old) }
    requires out { (W.state out.old).failed ≡ false }
    requires whole { length buffer.old ≡ MIN_READ_LEN }
    requires few { most * MAX_READ_LEN < 2 ^ 64 }
    requires bytes { form.hex ≡ false }
    ensures dumped { EndsInput form place (R.state source.old) (R.state source.new)
        (W.state out.old).contents (W.state out.new).contents result }
    ensures failed { (W.state out.new).failed ≡ is_failed_write result }
    ensures ended { OnOk result ((R.state source.new).ended ≡ true) }
    ensures reported { (R.state source.new).failed ≡ true → result ≡ Err (RunFault.Read place) }
    ensures read { FailsOnly place (R.state source.new).failed (R.state source.new).good_reads
        (R.state source.old).remaining most result }
    ensures no_fault { (at : ℕ) → result ≡ Err (RunFault.Read at)
        → IsReadToFault 0 (R.state source.old).remaining (R.state source.new).remaining }
    ensures bounded { (R.state source.new).good_reads ≤ (R.state source.old).good_reads + most }
    ensures tails { (R.state source.new).tails ≡ (R.state source.old).tails }
    ensures named { NamesOnly place result }
    ensures to_fault { IsReadToFault MAX_READ_LEN (R.state source.old).remaining
        (R.state source.new).remaining }
{
    let mut held = Vec::new(alloc);
    let mut text = Vec::new(alloc);
    let mut start = 0;
    for _read in 0..most {
        let Ok(count) = source.read(buffer) else {
            return Err(RunFault::Read { input: place });
        };
        if count == 0 {
            return finish(form, place, start, &held);
        }
        held.extend_from_slice(&buffer[..count])?;
        let left = dump_front(alloc, place, start, &held, &mut text, out)?.len();
        start += (held.len() - left) as u64;
        keep_last(&mut held, left);
    }
    Err(RunFault::Read { input: place })
}

/// Drops all but the last `count` bytes.
fn keep_last(bytes: &mut Vec<u8>, count: usize)
    requires { count ≤ length bytes.old.items }
    ensures { bytes.new.items ≡ drop (length bytes.old.items - count) bytes.old.items }
{
    bytes.rotate_left(bytes.len() - count);
    bytes.truncate(count);
}

/// Ends the input at this place, whose bytes from this offset on make no whole segment. Returns
/// where it was cut within a segment.
fn finish(
    form: InputForm,
    place: u64,
    offset: u64,
    rest: &[u8],
) -> Result<Option<EarlyEnd>, RunFault>
    requires { IsRest rest.now }
    ensures ok { (segments : List Content) → offset ≡ length (bundle segments)
        → IfOk result (IsEnd form segments rest.now) }
    ensures stops { (segments : List Content) → offset ≡ length (bundle segments)
        → IfErr result (IsEndRefused form place offset rest.now) }
    ensures segment { IfErr result (IsSegmentOf place) }
{
    check_end(form, place, early_end(offset, rest))
}

/// Dumps the whole segments at the front of these bytes, which follow `start` others of the input
/// at this place. Returns the bytes after them, which may begin another segment.
fn dump_front<'a, W: Sink>(
    alloc: Global,
    place: u64,
    start: u64,
    bytes: &'a [u8],
    text: &mut Vec<u8>,
    out: &mut W,
) -> Result<&'a [u8], RunFault>
    requires out { (W.state out.old).failed ≡ false }
    requires room { start + length bytes.now < 2 ^ 64 }
    ensures dumped { MatchResult result
        (λ rest. FrontDumped bytes.now rest.now (W.state out.old).contents
        (W.state out.new).contents × IsRest rest.now)
        (λ fault. FrontStops place start bytes.now (W.state out.old).contents
        (W.state out.new).contents fault) }
    ensures failed { (W.state out.new).failed ≡ is_failed_write result }
{
    let mut rest = bytes;
    loop {
        match SegmentBytes::check(rest) {
            Ok(segment) => {
                dump_segment(alloc, &segment, text, out)?;
                rest = &rest[segment.byte_len()..];
            }
            Err(fault) if fault.is_early_end() => return Ok(rest),
            Err(fault) => {
                return Err(RunFault::Segment {
                    input: place,
                    offset: start + (bytes.len() - rest.len()) as u64,
                    fault,
                });
            }
        }
    }
}

/// Writes the text of a segment.
fn dump_segment<W: Sink>(
    alloc: Global,
    segment: &SegmentBytes<'_>,
    text: &mut Vec<u8>,
    out: &mut W,
) -> Result<(), RunFault>
    requires { (W.state out.old).failed ≡ false }
    ensures ok { OnOk result
        (Appends (W.state out.old).contents (W.state out.new).contents (segment_text segment.now)) }
    ensures err { IfErr result (λ fault. ((fault ≡ RunFault.Memory) × (out.new ≡ out.old))
        ⊎ ((fault ≡ RunFault.Write)
        × AppendsPrefix (W.state out.old).contents (W.state out.new).contents
        (segment_text segment.now))) }
    ensures failed { (W.state out.new).failed ≡ is_failed_write result }
{
    text.clear();
    dump(alloc, segment, text)?;
    write_lines(out, text)
}
