//! Decoding: the segment that bytes encode.
ghost use Rattle.std.specs.Prelude.{◌≡◌, ℕ, None, IfOk, MatchOption, MatchResult};
ghost use Rattle.htl_segment.specs.Content.{Content};
ghost use Rattle.htl_segment.specs.Encoding.{BeginsWith};
ghost use Rattle.htl_segment.specs.Faults.{first_fault};

use crate::fault::Fault;
use crate::segment::Segment;
use crate::segment_bytes::SegmentBytes;
use std::alloc::Global;

/// The segment that `bytes` begin with, and its length in bytes.
///
/// Where they begin with no segment, it reports the first rule that they break, before it asks for
/// memory. Faults come in this order: those of the header from left to right, `Cut`, then those of
/// one record after the other, each in the order of their codes, `Excess`, and last `NoMemory`.
pub fn decode(alloc: Global, bytes: &[u8]) -> Result<(Segment, usize), Fault>
    // What is read is encoded by the first bytes.
    ensures found { IfOk result (λ x. BeginsWith bytes.now x.1 x.0) }
    // What the first bytes encode is read, unless memory runs out.
    ensures only { (s : Content) (n : ℕ) → BeginsWith bytes.now n s
        → MatchResult result (λ x. x ≡ (s, n)) (λ fault. fault ≡ Fault.NoMemory) }
    // The first fault is reported, and memory is asked for only where there is none.
    ensures fault { MatchResult result
        (λ _. first_fault bytes.now ≡ None)
        (λ fault. MatchOption (first_fault bytes.now)
        (fault ≡ Fault.NoMemory)
        (λ first. fault ≡ first)) }
{
    let found = SegmentBytes::check(bytes)?;
    let segment = found.to_segment(alloc)?;
    Ok((segment, found.byte_len()))
}
