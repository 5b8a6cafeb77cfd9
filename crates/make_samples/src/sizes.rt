//! The sizes of generated traces.

ghost use Rattle.std.specs.Prelude.{◌≡◌, ◌≤◌};

use htl_samples::{RandomTrace, SMALL};

/// How many events a segment may have.
pub const MOST_EVENTS: u32 = 4096;

/// How many processes there are where no number is given.
pub const PROCESSES: u32 = 16;

/// How many bytes an event has, on the average: its fields and 20 frames.
const EVENT_LEN: u64 = 36 + 20 * 8;

/// A generated trace of about so many megabytes, with so many stacks, handles and processes, and with
/// at most `most_events` events in a segment. Each processor has at least one segment, and each
/// segment one event; a processor has several segments only where they have as many events as they
/// may.
pub fn generated(
    megabytes: u32,
    stacks: u32,
    handles: u32,
    processors: u16,
    processes: u32,
    most_events: u32,
) -> RandomTrace
    ensures processors { result.processors ≡ processors }
    ensures stacks { result.stacks ≡ stacks }
    ensures handles { result.handles ≡ handles }
    ensures processes { result.processes ≡ processes }
    ensures some { 1 ≤ result.segments }
    ensures events { (1 ≤ result.events) × (result.events ≤ 4096) }
{
    let each = u64::from(megabytes) * 1_000_000 / u64::from(processors.max(1));
    let most = u64::from(most_events.clamp(1, MOST_EVENTS));
    let segment_len = 32 + most * EVENT_LEN;
    RandomTrace {
        processors,
        segments: u32::try_from(each / segment_len).unwrap_or(u32::MAX).max(1),
        events: (each / EVENT_LEN).clamp(1, most) as u32,
        processes,
        handles,
        stacks,
        least_frames: 8,
        most_frames: 32,
        ..SMALL
    }
}
