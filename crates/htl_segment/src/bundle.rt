//! Bundles: the bytes of segments one after another.
ghost use Rattle.std.specs.Prelude.{◌≡◌, ◌≢◌, ◌⊎◌, ◌++◌, List, [], IfOk, IfErr};
ghost use Rattle.htl_segment.specs.Content.{Content};
ghost use Rattle.htl_segment.specs.Bundles.{Splits, IsBoundary, IsRest, IsRefused};
ghost use Rattle.htl_segment.specs.Bundles.{BundleFault, SegmentAt, cut_off};
ghost use Rattle.htl_segment.specs.Keepers.{TookUpTo};

use crate::fault::Fault;
use crate::header::HEADER_LEN;
use crate::keeper::{Keeper, Segments};
use crate::segment::Segment;
use crate::segment_bytes::SegmentBytes;
use htl_event::NoMemory;
use std::alloc::Global;

/// The segments whose bytes, one after another, are `bytes`. A refusal reports the offset at which
/// the refused segment begins.
pub fn decode_bundle(alloc: Global, bytes: &[u8]) -> Result<Vec<Segment>, (u64, Fault)>
    ensures found { IfOk result (λ segments. Splits bytes.now segments.items []) }
    ensures boundary { IfErr result (λ refused. IsBoundary bytes.now refused.0) }
    // The first fault is reported. Memory is asked for only where a segment begins.
    ensures fault { IfErr result (λ refused.
        BundleFault bytes.now refused.0 refused.1
        ⊎ ((refused.1 ≡ Fault.NoMemory) × SegmentAt bytes.now refused.0)) }
{
    let mut kept = Segments::new(alloc);
    let rest = split(alloc, &mut kept, bytes)?;
    if rest.is_empty() {
        return Ok(kept.list);
    }
    let offset = (bytes.len() - rest.len()) as u64;
    Err((offset, cut_off(rest)))
}

/// The fault of bytes that end inside a segment, or before its header is whole.
pub fn cut_off(rest: &[u8]) -> Fault
    ensures { result ≡ cut_off rest.now }
{
    if rest.len() < HEADER_LEN {
        Fault::Short
    } else {
        Fault::Cut
    }
}

/// Hands the keeper each whole segment at the front of `bytes`, and gives the bytes after them, which
/// more bytes may complete to a segment. A refusal reports the offset of the refused segment, and
/// the keeper has the segments before it then, unless memory was refused.
pub fn split<'a, K: Keeper>(
    alloc: Global,
    keeper: &mut K,
    bytes: &'a [u8],
) -> Result<&'a [u8], (u64, Fault)>
    ensures gathered { IfOk result (λ rest. (more : List Content) × Splits bytes.now more rest.now
        × ((start : K) (segments : List Content) → K.gathers start keeper.old segments
        → K.gathers start keeper.new (segments ++ more))) }
    ensures rest { IfOk result (λ rest. IsRest rest.now) }
    ensures refused { IfErr result (λ refused. IsRefused bytes.now refused.0 refused.1) }
    // The keeper has the segments before the refused one, unless memory was refused.
    ensures kept { IfErr result (λ refused. refused.1 ≢ Fault.NoMemory
        → TookUpTo K.gathers keeper.old keeper.new bytes.now refused.0) }
{
    let mut rest = bytes;
    loop {
        let offset = (bytes.len() - rest.len()) as u64;
        match SegmentBytes::check(rest) {
            Ok(found) => match keeper.take(alloc, &found) {
                Ok(()) => rest = &rest[found.byte_len()..],
                Err(NoMemory) => return Err((offset, Fault::NoMemory)),
            },
            Err(end) if end.is_early_end() => return Ok(rest),
            Err(other) => return Err((offset, other)),
        }
    }
}
