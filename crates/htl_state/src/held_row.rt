//! Held segments as rows, in the format HLS1.
ghost use Rattle.std.specs.Prelude.{◌≡◌, Some, None, MatchOption};
ghost use Rattle.htl_state.specs.Reading.{is_of, segment_of};

use crate::fault::Fault;
use crate::row::{Row, RowRead, behind};
use crate::rows::Setting;
use htl_event::NoMemory;
use htl_segment::{Fault as SegmentFault, Segment, decode, encode};
use std::alloc::Global;

impl Row for Segment {
    ghost use Rattle.htl_state.specs.Reading.{held};

    ghost format = { held };

    fn least() -> usize {
        32
    }

    fn fault() -> Fault {
        Fault::Held
    }

    #[tactic(auto, unfolding(crate::specs::Reading::segment_in))]
    fn read<'a>(alloc: Global, setting: Setting, bytes: &'a [u8]) -> RowRead<'a, Segment> {
        match decode(alloc, bytes) {
            Ok((segment, len)) => Ok(of_part(setting, segment, behind(bytes, len))),
            Err(SegmentFault::NoMemory) => Err(NoMemory),
            Err(_) => Ok(None),
        }
    }

    fn is_before(&self, next: &Segment) -> bool {
        self.number() < next.number()
    }

    fn write(&self, alloc: Global, out: &mut Vec<u8>) -> Result<(), NoMemory> {
        let bytes = encode(alloc, self)?;
        out.extend_from_slice(&bytes)?;
        Ok(())
    }
}

/// The segment and the bytes after it, if it is of the part.
fn of_part(setting: Setting, segment: Segment, rest: &[u8]) -> Option<(Segment, &[u8])>
    ensures { MatchOption result
        (segment_of setting segment rest.now ≡ None)
        (λ read. segment_of setting segment rest.now ≡ Some (read.0, read.1.now)) }
{
    if !is_of(setting, &segment) {
        return None;
    }
    Some((segment, rest))
}

/// Whether the segment is of the trace and the processor, and above the front.
fn is_of(setting: Setting, segment: &Segment) -> bool
    ensures { result ≡ is_of setting segment.now }
{
    segment.trace_id() == setting.trace_id
        && u64::from(segment.processors()) == setting.processors
        && u64::from(segment.processor()) == setting.processor
        && u64::from(segment.number()) > setting.front
}
