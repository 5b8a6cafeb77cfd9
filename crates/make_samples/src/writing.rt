//! Segments as they are made, one after the other into a sink.
ghost use Rattle.std.specs.Prelude.{◌≡◌, [], ◌∷◌, false, true, OnOk};
ghost use Rattle.htl_samples.specs.Samples.{IsOfTrace};
ghost use Rattle.make_samples.specs.Writing.{Writes, WritesKeys, turn, turns};

use crate::fault::MakeFault;
use htl_device::{Sink, write_whole};
use htl_samples::{RandomTrace, SampleFault, TRACE, Trace};
use htl_segment::{Segment, encode};
use std::alloc::Global;

/// Writes a generated trace: number 0 of each processor, then number 1 of each, and so on. Only one
/// segment is in memory at a time. After a fault the segments before it are written, and after a
/// failed write a part of one more.
pub fn write_generated<W: Sink>(
    alloc: Global,
    generated: &RandomTrace,
    out: &mut W,
) -> Result<(), MakeFault>
    requires { (W.state out.old).failed ≡ false }
    ensures ok { OnOk result (WritesKeys (record TRACE { processors = generated.now.processors })
        (turns generated.now.processors generated.now.segments)
        (W.state out.old).contents (W.state out.new).contents) }
    ensures fine { OnOk result ((W.state out.new).failed ≡ false) }
    ensures reported { (W.state out.new).failed ≡ true → result ≡ Err MakeFault.Write }
{
    for number in 0..generated.segments {
        write_turn(alloc, generated, number, out)?;
    }
    Ok(())
}

/// Writes the segment of this number of each processor.
fn write_turn<W: Sink>(
    alloc: Global,
    generated: &RandomTrace,
    number: u32,
    out: &mut W,
) -> Result<(), MakeFault>
    requires { (W.state out.old).failed ≡ false }
    ensures ok { OnOk result (WritesKeys (record TRACE { processors = generated.now.processors })
        (turn generated.now.processors number)
        (W.state out.old).contents (W.state out.new).contents) }
    ensures fine { OnOk result ((W.state out.new).failed ≡ false) }
    ensures reported { (W.state out.new).failed ≡ true → result ≡ Err MakeFault.Write }
{
    let trace = Trace {
        processors: generated.processors,
        ..TRACE
    };
    for processor in 0..generated.processors {
        let segment = generated.segment(alloc, processor, number)?;
        write_segment(alloc, trace, &segment, out)?;
    }
    Ok(())
}

/// Writes one segment.
fn write_segment<W: Sink>(
    alloc: Global,
    trace: Trace,
    segment: &Segment,
    out: &mut W,
) -> Result<(), MakeFault>
    requires fresh { (W.state out.old).failed ≡ false }
    requires of_trace { IsOfTrace trace segment.now }
    ensures ok { OnOk result (Writes trace (segment.now ∷ [])
        (W.state out.old).contents (W.state out.new).contents) }
    ensures fine { OnOk result ((W.state out.new).failed ≡ false) }
    ensures reported { (W.state out.new).failed ≡ true → result ≡ Err MakeFault.Write }
{
    let bytes = encode(alloc, segment).map_err(SampleFault::from)?;
    match write_whole(out, &bytes) {
        Ok(()) => Ok(()),
        Err(_) => Err(MakeFault::Write),
    }
}
