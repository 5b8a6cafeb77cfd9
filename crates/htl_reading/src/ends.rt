//! Where the parts of several workers end.

ghost use Rattle.std.specs.Prelude.{◌≤◌, ◌+◌, ◌*◌, All, IfOk, IfSome, OnOk, length};
ghost use Rattle.htl_reading.specs.Parts.{IsTailed, most_parts};

use htl_device::{Parted, Reading, read_whole};
use htl_segment::whole_len;
use std::alloc::{AllocError, Global};
use std::io::Read;

/// The least number of bytes of a part.
const MIN_PART_LEN: u64 = 4_194_304;

/// Twice the length of the longest segment, so that as many bytes contain a whole one.
const MAX_SEARCH_LEN: u64 = 4_489_280;

/// A search begins with this number of bytes, more than twice the length of most segments.
const SHORT_SEARCH_LEN: u64 = 2_097_152;

/// The offsets at which the workers' parts end. They are sought at equal distances of at most `most`
/// bytes, and each is the next offset at which a segment seems to begin, less than `MAX_SEARCH_LEN`
/// bytes further on. The last may be the end of the source. Where no segment is found, there is one
/// part fewer, and the one before goes on to the next offset. There are no ends for one worker, nor
/// where the source is too short for two parts.
pub fn ends<R: Parted>(
    alloc: Global,
    workers: u32,
    most: u64,
    len: u64,
    source: &mut R,
) -> Result<Vec<u64>, AllocError>
    requires { MIN_PART_LEN ≤ most }
    // Each part is read by a thread of its own, so no more of these are started than workers.
    ensures few { IfOk result (λ ends. length ends.items ≤ most_parts workers) }
    ensures far { IfOk result (λ ends. All (λ end. MIN_PART_LEN ≤ end) ends.items) }
    ensures tails { IsTailed R.state R.is_parted (2 * most_parts workers) source.old source.new }
{
    let parts = u64::from(workers).min(len / MIN_PART_LEN);
    let mut ends = Vec::new(alloc);
    if parts < 2 {
        return Ok(ends);
    }
    let each = (len / parts).min(most);
    for part in 1..parts {
        let end = find_segment(alloc, source, each.saturating_mul(part));
        add_end(&mut ends, end)?;
    }
    if each < most {
        ends.push(len)?;
    } else {
        let end = find_segment(alloc, source, each.saturating_mul(parts));
        add_end(&mut ends, end)?;
    }
    Ok(ends)
}

/// Adds an end, where one was found.
fn add_end(ends: &mut Vec<u64>, found: Option<u64>) -> Result<(), AllocError>
    requires far { All (λ end. MIN_PART_LEN ≤ end) ends.old.items }
    requires found { IfSome found (λ end. MIN_PART_LEN ≤ end) }
    ensures few { length ends.new.items ≤ length ends.old.items + 1 }
    ensures far { OnOk result (All (λ end. MIN_PART_LEN ≤ end) ends.new.items) }
{
    if let Some(end) = found {
        ends.push(end)?;
    }
    Ok(())
}

/// The first offset at which a whole segment seems to stand, from this one on.
fn find_segment<R: Parted>(alloc: Global, source: &mut R, near: u64) -> Option<u64>
    ensures behind { IfSome result (λ place. near ≤ place) }
    ensures tails { IsTailed R.state R.is_parted 2 source.old source.new }
{
    match find_within(alloc, source, near, SHORT_SEARCH_LEN) {
        Some(place) => Some(place),
        None => find_within(alloc, source, near, MAX_SEARCH_LEN),
    }
}

/// The first offset at which a whole segment seems to stand, among this number of bytes.
fn find_within<R: Parted>(alloc: Global, source: &mut R, near: u64, len: u64) -> Option<u64>
    ensures behind { IfSome result (λ place. near ≤ place) }
    ensures tails { IsTailed R.state R.is_parted 1 source.old source.new }
{
    let tail = source.tail(near)?;
    let bytes = read_whole(alloc, &mut Reading::new(tail.take(len))).ok()?;
    near.checked_add(first_whole(&bytes)? as u64)
}

/// The first place of a header that is followed by all bytes of its segment.
fn first_whole(bytes: &[u8]) -> Option<usize> {
    for place in 0..bytes.len() {
        if whole_len(&bytes[place..]).is_some() {
            return Some(place);
        }
    }
    None
}
