//! A plain reader of the format, which only looks for faults. It was written from docs/FORMAT.md
//! and shares no code with the readers that it is compared with.

ghost use Rattle.std.specs.Prelude.{◌<◌};

use htl_segment::Fault;

const HEADER: usize = 32;

/// A record without its frames.
const RECORD: usize = 36;

/// What a version allows.
#[derive(Clone, Copy)]
struct Rules {
    processors: u64,
    length: u64,
    kinds: u64,
    frames: u64,
}

const FIRST_VERSION: Rules = Rules {
    processors: 64,
    length: 1_196_064,
    kinds: 6,
    frames: 32,
};

const SECOND_VERSION: Rules = Rules {
    processors: 256,
    length: 2_244_640,
    kinds: 7,
    frames: 64,
};

/// The number of a fault's code.
pub fn code(fault: Fault) -> u32
    ensures { result < 32 }
{
    match fault {
        Fault::Short => 1,
        Fault::Magic => 2,
        Fault::Version => 3,
        Fault::Processors => 4,
        Fault::Processor => 5,
        Fault::Reserved => 6,
        Fault::Number => 7,
        Fault::Count => 8,
        Fault::Length => 9,
        Fault::Cut => 10,
        Fault::RecordShort(_) => 11,
        Fault::Sequence(_) => 12,
        Fault::Kind(_) => 13,
        Fault::Frames(_) => 14,
        Fault::Field(_) => 15,
        Fault::Excess => 16,
        Fault::NoMemory => 17,
    }
}

/// How many segments stand one after the other in the bytes, or the place and the fault of the
/// first that is none.
pub fn count_segments(bytes: &[u8]) -> Result<usize, (u64, Fault)> {
    let mut count: usize = 0;
    let mut rest = bytes;
    let mut place: u64 = 0;
    for _ in 0..bytes.len() {
        if rest.is_empty() {
            break;
        }
        let len = segment_len(rest).map_err(|fault| (place, fault))?;
        count = count.wrapping_add(1);
        place = place.wrapping_add(len as u64);
        rest = rest.get(len..).unwrap_or_default();
    }
    Ok(count)
}

/// The length of the segment that the bytes begin with, or the first rule that they break.
pub fn segment_len(bytes: &[u8]) -> Result<usize, Fault> {
    if bytes.len() < HEADER {
        return Err(Fault::Short);
    }
    if !bytes.starts_with(b"HLS1") {
        return Err(Fault::Magic);
    }
    let rules = match number(bytes, 4, 2) {
        1 => FIRST_VERSION,
        2 => SECOND_VERSION,
        _ => return Err(Fault::Version),
    };
    check_header(rules, bytes)?;
    let len = number(bytes, 28, 4) as usize;
    let records = bytes.get(HEADER..len).ok_or(Fault::Cut)?;
    check_records(rules, number(bytes, 24, 4), records)?;
    Ok(len)
}

/// The fields after the version.
fn check_header(rules: Rules, bytes: &[u8]) -> Result<(), Fault> {
    let processors = number(bytes, 6, 2);
    let length = number(bytes, 28, 4);
    for (holds, fault) in [
        (
            1 <= processors && processors <= rules.processors,
            Fault::Processors,
        ),
        (number(bytes, 8, 2) < processors, Fault::Processor),
        (number(bytes, 10, 2) == 0, Fault::Reserved),
        (number(bytes, 12, 4) <= 0xffff_fffe, Fault::Number),
        (number(bytes, 24, 4) <= 4096, Fault::Count),
        (32 <= length && length <= rules.length, Fault::Length),
    ] {
        if !holds {
            return Err(fault);
        }
    }
    Ok(())
}

/// The records, which have to fill the bytes.
fn check_records(rules: Rules, count: u64, bytes: &[u8]) -> Result<(), Fault> {
    let mut rest = bytes;
    let mut last = 0;
    for place in 0..count {
        let len = record_len(rules, place, last, rest)?;
        last = number(rest, 0, 8);
        rest = rest.get(len..).ok_or(Fault::Frames(place))?;
    }
    if !rest.is_empty() {
        return Err(Fault::Excess);
    }
    Ok(())
}

/// The length that the record at the front of the bytes says it has.
fn record_len(rules: Rules, place: u64, last: u64, bytes: &[u8]) -> Result<usize, Fault> {
    if bytes.len() < RECORD {
        return Err(Fault::RecordShort(place));
    }
    if number(bytes, 0, 8) <= last {
        return Err(Fault::Sequence(place));
    }
    let kind = number(bytes, 8, 1);
    if kind < 1 || kind > rules.kinds {
        return Err(Fault::Kind(place));
    }
    let frames = number(bytes, 9, 1);
    let len = 8usize.wrapping_mul(frames as usize).wrapping_add(RECORD);
    if frames > rules.frames || len > bytes.len() {
        return Err(Fault::Frames(place));
    }
    if !fields_hold(kind, bytes) {
        return Err(Fault::Field(place));
    }
    Ok(len)
}

fn fields_hold(kind: u64, bytes: &[u8]) -> bool {
    let handle = number(bytes, 20, 4);
    let object = number(bytes, 24, 8);
    let handle_holds = match kind {
        1 | 2 => handle >= 4,
        3 => true,
        _ => handle == 0,
    };
    let object_holds = match kind {
        5 | 6 => object != 0,
        _ => object == 0 && number(bytes, 32, 4) == 0,
    };
    number(bytes, 10, 2) == 0 && handle_holds && object_holds
}

/// The little-endian number of so many bytes at a place. Bytes that aren't there count as 0.
fn number(bytes: &[u8], place: usize, width: usize) -> u64 {
    let mut number = 0;
    for offset in (0..width).rev() {
        let byte = bytes.get(place.wrapping_add(offset)).copied();
        number = number << 8 | u64::from(byte.unwrap_or(0));
    }
    number
}
