//! Encoding: the bytes of a segment.
ghost use Rattle.std.specs.Prelude.{◌≡◌, ◌≤◌, ◌+◌, ◌*◌, ◌++◌, length, sum_by, IfOk, OnOk};
ghost use Rattle.std.specs.List.{flat_map};
ghost use Rattle.htl_segment.specs.Numbers.{bytes_of};
ghost use Rattle.htl_segment.specs.Encoding.{event_bytes, records, header_bytes, Encodes};

use crate::fields::{push_u16, push_u32, push_u64};
use crate::header::HEADER_LEN;
use crate::kinds::code_of;
use crate::record::RECORD_LEN;
use crate::segment::Segment;
use htl_event::{NoMemory, SharedEvent};
use std::alloc::{AllocError, Global};

/// The bytes of a segment.
pub fn encode(alloc: Global, segment: &Segment) -> Result<Vec<u8>, NoMemory>
    ensures { IfOk result (λ bytes. Encodes bytes.items segment.now) }
{
    let events = segment.events();
    let size = RECORD_LEN * events.len() + 8 * frame_count(events);
    let mut out = Vec::with_capacity(alloc, HEADER_LEN + size)?;
    push_header(&mut out, segment, size)?;
    push_records(&mut out, events)?;
    Ok(out)
}

/// The number of frames of all stacks together.
fn frame_count(events: &[SharedEvent]) -> usize
    requires { length events.now ≤ 4096 }
    ensures value { result ≡ sum_by (λ event. length event.stack) events.now }
    ensures few { result ≤ 64 * 4096 }
{
    let mut count = 0;
    for event in events {
        count += event.stack.frames().len();
    }
    count
}

/// Writes the header of a segment whose records have `size` bytes.
#[tactic(auto, unfolding(crate::specs::Encoding::header_bytes))]
fn push_header(out: &mut Vec<u8>, segment: &Segment, size: usize) -> Result<(), AllocError>
    requires few { length segment.now.events ≤ 4096 }
    requires small { size ≤ 4096 * (36 + 64 * 8) }
    ensures { OnOk result (out.new.items ≡ out.old.items ++ header_bytes segment.now size) }
{
    out.extend_from_slice(b"HLS1")?;
    push_u16(out, segment.version())?;
    push_u16(out, segment.processors())?;
    push_u16(out, segment.processor())?;
    push_u16(out, 0)?;
    push_u32(out, segment.number())?;
    push_u64(out, segment.trace_id())?;
    push_u32(out, segment.events().len() as u32)?;
    push_u32(out, (HEADER_LEN + size) as u32)?;
    Ok(())
}

fn push_records(out: &mut Vec<u8>, events: &[SharedEvent]) -> Result<(), AllocError>
    ensures { OnOk result (out.new.items ≡ out.old.items ++ records events.now) }
{
    for event in events {
        push_record(out, event)?;
    }
    Ok(())
}

fn push_record(out: &mut Vec<u8>, event: &SharedEvent) -> Result<(), AllocError>
    ensures { OnOk result (out.new.items ≡ out.old.items ++ event_bytes event.now) }
{
    let frames = event.stack.frames();
    push_u64(out, event.sequence)?;
    out.push(code_of(event.kind))?;
    out.push(frames.len() as u8)?;
    push_u16(out, 0)?;
    push_u32(out, event.process)?;
    push_u32(out, event.thread)?;
    push_u32(out, event.handle)?;
    push_u64(out, event.object)?;
    out.extend_from_slice(&event.tag)?;
    push_frames(out, frames)?;
    Ok(())
}

/// Writes the addresses of a stack, eight bytes each.
pub fn push_frames(out: &mut Vec<u8>, frames: &[u64]) -> Result<(), AllocError>
    ensures { OnOk result (out.new.items ≡ out.old.items ++ flat_map (bytes_of 8) frames.now) }
{
    for frame in frames {
        push_u64(out, *frame)?;
    }
    Ok(())
}
