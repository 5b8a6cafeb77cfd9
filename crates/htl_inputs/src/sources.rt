//! The segments that sources give, each read to its end.

ghost use Rattle.std.specs.Prelude.{map, IfOk, IfErr, IfSome};
ghost use Rattle.htl_device.specs.States.{AreOpen, IsOpen};
ghost use Rattle.htl_inputs.specs.Ends.{IsInput};
ghost use Rattle.htl_inputs.specs.Spans.{AreDecoded};
ghost use Rattle.htl_inputs.specs.Reads.{IsRead, NeverWrite, ReadsAll, StopsIn};
ghost use Rattle.htl_inputs.specs.Sources.{IsReportedOfSource};
ghost use Rattle.htl_reading.specs.Sources.{AsksReaders};
ghost use Rattle.htl_inputs.specs.Readings.{readers_of};

use crate::cuts::{Accepted, accept};
use crate::decoded::Decoded;
use crate::fault::RunFault;
use crate::inputs::decode_bytes;
use htl_command::InputForm;
use htl_device::{MAX_READS, Parted};
use htl_reading::{read_bundle, read_digits};
use htl_segment::Segment;
use std::alloc::Global;
use std::thread::Threads;

/// The segments of all sources, those of the first source first. The first fault is reported, and
/// ends the reading.
pub fn read_all<Rt: Threads + Sync, R: Parted>(
    rt: &Rt,
    alloc: Global,
    form: InputForm,
    workers: u32,
    sources: &mut [R],
) -> Result<Decoded, RunFault>
    requires ready { AreOpen (map R.state sources.old) }
    ensures reads { ReadsAll form.hex workers (map R.state sources.old) (map R.state sources.new)
        (AreDecoded form) (StopsIn form (map R.state sources.new)) result }
    ensures no_write { NeverWrite result }
{
    let mut decoded = Decoded::new(alloc);
    for (place, source) in sources.iter_mut().enumerate() {
        let more = read_input(rt, alloc, form, workers, place as u64, source)?;
        decoded.add(place as u64, more)?;
    }
    Ok(decoded)
}

/// The segments of the source at a place, read by this number of workers. One worker gathers the bytes
/// that a text in hexadecimal writes, and then decodes them. It is read no further than its first
/// foreign byte.
fn read_input<Rt: Threads + Sync, R: Parted>(
    rt: &Rt,
    alloc: Global,
    form: InputForm,
    workers: u32,
    place: u64,
    source: &mut R,
) -> Result<Accepted<Vec<Segment>>, RunFault>
    requires ready { IsOpen (R.state source.old) }
    ensures ok { IfOk result (λ input. IfSome (R.state source.old).remaining
        (λ bytes. IsInput form bytes input.segments.items input.end)) }
    ensures err { IfErr result (λ fault. IfSome (R.state source.old).remaining (λ bytes.
        IsReportedOfSource form (R.state source.new).remaining (R.state source.new).ended
        place bytes fault)) }
    ensures reading { IsRead form.hex MAX_READS place (R.state source.old)
        (R.state source.new) result }
    ensures readers { AsksReaders (readers_of form.hex workers) (R.state source.old).remaining
        (R.state source.old) (R.state source.new) }
    ensures no_write { NeverWrite result }
{
    if form.hex {
        return match read_digits(alloc, source) {
            Ok(bytes) => decode_bytes(alloc, form, place, &bytes),
            Err(fault) => Err(RunFault::from_digits(place, fault)),
        };
    }
    match read_bundle(rt, alloc, workers, source) {
        Ok(bundle) => accept(form, place, bundle),
        Err(fault) => Err(RunFault::from_source(place, fault)),
    }
}
