//! The outcome of a source that was read to its end.

ghost use Rattle.std.specs.Prelude.{◌≡◌, List, length};
ghost use Rattle.htl_segment.specs.Content.{Content};
ghost use Rattle.htl_segment.specs.Bundles.{IsRest, bundle};
ghost use Rattle.htl_reading.specs.Sources.{IsLeft, begins_header, name_in};

use byteorder::{ByteOrder, LittleEndian};
use htl_segment::{Fault, cut_off};

/// The segments of a source that was read to its end.
#[derive(Drop)]
pub struct Bundle<T> {
    /// The keeper that took all whole segments, or their list.
    pub segments: T,
    /// Where the source ends within one more.
    pub early_end: Option<EarlyEnd>,
}

/// Where bytes end within a segment.
#[derive(Clone, Copy, Debug, PartialEq, Eq)]
pub struct EarlyEnd {
    /// The offset at which the segment begins.
    pub offset: u64,
    /// Why its bytes are too few: `Short` or `Cut`.
    pub fault: Fault,
    /// Whether its bytes begin as a header does, as far as they go.
    pub is_begun: bool,
    /// Which segment it is, where its header is whole.
    pub name: Option<SegmentName>,
}

/// Which segment it is: its trace, and its key there.
#[derive(Clone, Copy, Debug, PartialEq, Eq)]
pub struct SegmentName {
    pub trace_id: u64,
    pub processors: u16,
    pub processor: u16,
    pub number: u32,
}

/// The length of a header in bytes.
const HEADER_LEN: usize = 32;

/// Where bytes end within a segment, given the bytes that are left behind the whole segments and
/// their offset. There is none if no byte is left.
pub fn early_end(offset: u64, rest: &[u8]) -> Option<EarlyEnd>
    ensures { (segments : List Content) → offset ≡ length (bundle segments) → IsRest rest.now
        → IsLeft segments rest.now result }
{
    if rest.is_empty() {
        return None;
    }
    Some(EarlyEnd {
        offset,
        fault: cut_off(rest),
        is_begun: begins_header(rest),
        name: name_in(rest),
    })
}

/// Whether the bytes begin as a header does, as far as they go.
fn begins_header(bytes: &[u8]) -> bool
    ensures { result ≡ begins_header bytes.now }
{
    b"HLS1".starts_with(&bytes[..bytes.len().min(4)])
}

/// Which segment the bytes are of, where its header is whole.
#[tactic(auto, unfolding(htl_segment::specs::Numbers::number))]
fn name_in(bytes: &[u8]) -> Option<SegmentName>
    ensures { result ≡ name_in bytes.now }
{
    if bytes.len() < HEADER_LEN {
        return None;
    }
    Some(SegmentName {
        trace_id: LittleEndian::read_u64(&bytes[16..]),
        processors: LittleEndian::read_u16(&bytes[6..]),
        processor: LittleEndian::read_u16(&bytes[8..]),
        number: LittleEndian::read_u32(&bytes[12..]),
    })
}
