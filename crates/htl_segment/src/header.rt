//! The header of a segment: the places of its fields, and the values that are allowed.
ghost use Rattle.std.specs.Prelude.{◌≡◌, ◌≤◌, length, None, Some, OnOk, IfOk, IfSome, IfNone};
ghost use Rattle.std.specs.Prelude.{◌<◌, MatchResult};
ghost use Rattle.htl_segment.specs.Reading.{length_in};
ghost use Rattle.htl_segment.specs.InPlace.{header_in};
ghost use Rattle.htl_segment.specs.Faults.{header_fault};

use crate::fault::Fault;
use crate::fields::{u16_at, u32_at, u64_at};
use crate::version::Version;

/// The length of a header in bytes.
pub const HEADER_LEN: usize = 32;

/// The greatest number of a segment.
pub const MAX_NUMBER: u32 = 0xFFFF_FFFE;

/// The greatest number of events in a segment.
pub const MAX_EVENTS: u32 = 4096;

// Where the fields lie after the magic.
const VERSION: usize = 4;

const PROCESSORS: usize = 6;

const PROCESSOR: usize = 8;

const RESERVED: usize = 10;

const NUMBER: usize = 12;

const TRACE_ID: usize = 16;

const COUNT: usize = 24;

const LEN: usize = 28;

/// The fields of a header.
#[derive(Clone, Copy, Debug)]
pub struct Header {
    pub version: Version,
    pub processors: u16,
    pub processor: u16,
    pub number: u32,
    pub trace_id: u64,
    /// The number of records that follow.
    pub count: u32,
    /// The length of the segment in bytes, its header included.
    pub len: u32,
}

/// Reads the header at the front of `bytes`, and tests its rules from left to right.
#[tactic(auto, unfolding(crate::specs::Faults::header_fault, crate::specs::InPlace::header_in))]
pub fn read_header(bytes: &[u8]) -> Result<Header, Fault>
    ensures fault { MatchResult result
        (λ header. (header_fault bytes.now ≡ None) × (header ≡ header_in bytes.now))
        (λ fault. header_fault bytes.now ≡ Some fault) }
    ensures long { OnOk result (HEADER_LEN ≤ length bytes.now) }
    ensures whole { IfOk result (λ header. HEADER_LEN ≤ header.len) }
{
    if bytes.len() < HEADER_LEN {
        return Err(Fault::Short);
    }
    if !bytes.starts_with(b"HLS1") {
        return Err(Fault::Magic);
    }
    let Some(version) = Version::from_number(u16_at(bytes, VERSION)) else {
        return Err(Fault::Version);
    };
    let limits = version.limits();
    let header = Header {
        version,
        processors: u16_at(bytes, PROCESSORS),
        processor: u16_at(bytes, PROCESSOR),
        number: u32_at(bytes, NUMBER),
        trace_id: u64_at(bytes, TRACE_ID),
        count: u32_at(bytes, COUNT),
        len: u32_at(bytes, LEN),
    };
    if header.processors == 0 || header.processors > limits.processors {
        return Err(Fault::Processors);
    }
    if header.processor >= header.processors {
        return Err(Fault::Processor);
    }
    if u16_at(bytes, RESERVED) != 0 {
        return Err(Fault::Reserved);
    }
    if header.number > MAX_NUMBER {
        return Err(Fault::Number);
    }
    if header.count > MAX_EVENTS {
        return Err(Fault::Count);
    }
    if (header.len as usize) < HEADER_LEN || header.len > limits.len {
        return Err(Fault::Length);
    }
    Ok(header)
}

/// The length that these bytes of a header state.
pub fn len_at(bytes: &[u8]) -> usize
    requires { HEADER_LEN ≤ length bytes.now }
    ensures { result ≡ length_in bytes.now }
{
    u32_at(bytes, LEN) as usize
}

/// The length of the segment that `bytes` begin with, as its header states it. It is none where the
/// header has a fault, or the bytes end before its end.
#[tactic(auto, unfolding(crate::specs::InPlace::header_in))]
pub fn whole_len(bytes: &[u8]) -> Option<usize>
    ensures header { IfSome result (λ len. (header_fault bytes.now ≡ None)
        × (len ≡ length_in bytes.now)) }
    ensures inside { IfSome result (λ len. (HEADER_LEN ≤ len) × (len ≤ length bytes.now)) }
    ensures none { IfNone result (header_fault bytes.now ≡ None
        → length bytes.now < length_in bytes.now) }
{
    match read_header(bytes) {
        Ok(header) if header.len as usize <= bytes.len() => Some(header.len as usize),
        _ => None,
    }
}
