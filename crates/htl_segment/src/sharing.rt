//! The events of records. Their stacks are looked up in batches.
ghost use Rattle.std.specs.Prelude.{◌≡◌, ◌++◌, ◌∷◌, [], map, OnOk};
ghost use Rattle.htl_segment.specs.Records.{event_of};

use crate::fingerprints::fingerprint_of;
use crate::record::Record;
use crate::stack_cache::StackCache;
use htl_event::{NoMemory, SharedEvent};
use std::alloc::Global;

/// The number of stacks that are looked up together.
pub const BATCH: usize = 32;

/// Adds a record to a batch. Where the batch is full, its events are made first.
pub fn put<'a>(
    alloc: Global,
    cache: &mut StackCache,
    batch: &mut Vec<Record<'a>>,
    events: &mut Vec<SharedEvent>,
    found: Record<'a>,
) -> Result<(), NoMemory>
    ensures { OnOk result (events.new.items ++ map event_of batch.new.items
        ≡ events.old.items ++ (map event_of batch.old.items ++ event_of found.entry ∷ [])) }
{
    if batch.len() >= BATCH {
        share_all(alloc, cache, batch, events)?;
        batch.clear();
    }
    batch.push(found)?;
    Ok(())
}

/// Puts the events of a batch behind `events`. The cells of the cache that may have their stacks are
/// all looked at first, so that their memory is near when the stacks are shared.
pub fn share_all(
    alloc: Global,
    cache: &mut StackCache,
    batch: &[Record<'_>],
    events: &mut Vec<SharedEvent>,
) -> Result<(), NoMemory>
    ensures { OnOk result (events.new.items ≡ events.old.items ++ map event_of batch.now) }
{
    let fingerprints = fingerprints_of(batch);
    cache.look_at(&fingerprints[..batch.len().min(BATCH)]);
    for (place, record) in batch.iter().enumerate() {
        let fingerprint = fingerprints.get(place).copied().unwrap_or(0);
        events.push(record.shared(alloc, cache, fingerprint)?)?;
    }
    Ok(())
}

/// The fingerprints of the stacks of the first records.
fn fingerprints_of(batch: &[Record<'_>]) -> [u64; BATCH] {
    let mut fingerprints = [0; BATCH];
    for (fingerprint, record) in fingerprints.iter_mut().zip(batch) {
        *fingerprint = fingerprint_of(record.frames);
    }
    fingerprints
}
