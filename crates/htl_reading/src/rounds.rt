//! Rounds: several workers read the front of a source, some 32 MB for each worker at a time.

ghost use Rattle.std.specs.Prelude.{◌≡◌, ◌≤◌, ◌^◌, ◌+◌, ◌*◌, ◌⊎◌, [], ℕ, List, IfOk, OnOk, false};
ghost use Rattle.htl_segment.specs.Keepers.{Took};
ghost use Rattle.htl_device.specs.States.{IsOpen};
ghost use Rattle.htl_reading.specs.Keepers.{TookAll};
ghost use Rattle.htl_reading.specs.Parts.{AreEmpty, AsksFew, Skips, TookInOrder, most_parts};
ghost use Rattle.htl_reading.specs.Sources.{AsksReaders};
ghost use Rattle.htl_reading.specs.declared.ends.TheConstants.{MIN_PART_LEN};
ghost use Rattle.htl_reading.specs.Taking.{LeavesTaken};

use crate::parts::{MAX_LEN, gather_front};
use htl_device::Parted;
use htl_event::NoMemory;
use htl_segment::{Keeper, Segment, Segments};
use std::alloc::Global;
use std::mem;
use std::thread::Threads;

/// About the number of bytes that a worker reads in one round: its part ends where a segment begins.
/// In memory their events take about a third of that.
const PART_LEN: u64 = 33_554_432;

/// A keeper that also takes segments that others have read.
pub trait SegmentKeeper: Keeper {
    ghost use Rattle.std.specs.Prelude.{◌++◌, ◌∷◌, List, [], OnOk};
    ghost use Rattle.htl_segment.specs.Content.{Content};

    /// Takes the next segment.
    fn take_segment(&mut self, alloc: Global, segment: Segment) -> Result<(), NoMemory>
        ensures { (kind : Self) (segments : List Content) → Self.gathers kind self.old segments
            → OnOk result (Self.gathers kind self.new (segments ++ segment ∷ [])) };
}

/// Has a keeper take the segments at the front of a source, which several workers read round by round,
/// and gives their number of bytes. The source skips them. A round ends where its bytes are no
/// whole segments. After each one `between` is called.
pub fn take_rounds<
    T: Threads + Sync,
    R: Parted,
    K: SegmentKeeper,
    F: Fn(&mut K) -> Result<(), NoMemory>,
>(
    rt: &T,
    alloc: Global,
    workers: u32,
    source: &mut R,
    keeper: &mut K,
    between: &F,
) -> Result<u64, NoMemory>
    requires ready { IsOpen (R.state source.old) }
    requires callable { F.IsAlwaysCallable between.now }
    requires leaves { LeavesTaken K.gathers (F.post between.now) }
    ensures skips { Skips K.gathers (R.state source.old) (R.state source.new)
        keeper.old keeper.new 0 result }
    ensures readers { AsksReaders workers (R.state source.old).remaining (R.state source.old)
        (R.state source.new) }
{
    let mut spare = Vec::new(alloc);
    let mut offset = 0;
    // The bound makes the loop end. No source has so many rounds: each reads some megabytes.
    for _round in 0..u32::MAX {
        let end = take_round(rt, alloc, workers, offset, source, keeper, &mut spare)?;
        if end == offset {
            break;
        }
        between(keeper)?;
        offset = end;
        if offset > MAX_LEN {
            break;
        }
    }
    Ok(offset)
}

/// Has a keeper take the next round of segments, which stand at an offset, and says where they end.
/// That is the same offset if one worker has to read on. The workers' keepers keep the stack caches of
/// the last round.
fn take_round<T: Threads + Sync, R: Parted, K: SegmentKeeper>(
    rt: &T,
    alloc: Global,
    workers: u32,
    offset: u64,
    source: &mut R,
    keeper: &mut K,
    spare: &mut Vec<Segments>,
) -> Result<u64, NoMemory>
    requires ready { IsOpen (R.state source.old) }
    requires few { offset ≤ 2 ^ 61 }
    requires spare { AreEmpty spare.old.items }
    ensures skips { Skips K.gathers (R.state source.old) (R.state source.new) keeper.old keeper.new
        offset result }
    ensures far { IfOk result (λ end. (end ≡ offset) ⊎ (offset + MIN_PART_LEN ≤ end)) }
    ensures tails { AsksFew (3 * most_parts workers) (R.state source.old) (R.state source.new) }
    ensures spare { OnOk result (AreEmpty spare.new.items) }
{
    let none = Segments::new(alloc);
    let last = mem::replace(spare, Vec::new(alloc));
    let Some(front) = gather_front(rt, alloc, workers, PART_LEN, source, &none, last) else {
        return Ok(offset);
    };
    source.skip(front.len);
    *spare = take_lists(alloc, keeper, front.keepers)?;
    Ok(offset + front.len)
}

/// Has a keeper take the segments of several workers, in order. Gives the workers' keepers back without
/// segments.
fn take_lists<K: SegmentKeeper>(
    alloc: Global,
    keeper: &mut K,
    lists: Vec<Segments>,
) -> Result<Vec<Segments>, NoMemory>
    ensures taken { (none : Segments) (bytes : List ℕ) → none.list.items ≡ []
        → TookInOrder ⟦<Segments as Keeper>⟧.gathers none lists.items bytes
        → OnOk result (TookAll K.gathers keeper.old keeper.new bytes) }
    ensures emptied { IfOk result (λ emptied. AreEmpty emptied.items) }
{
    let mut emptied = Vec::with_capacity(alloc, lists.len())?;
    for segments in lists {
        take_list(alloc, keeper, segments.list)?;
        emptied.push(Segments {
            cache: segments.cache,
            list: Vec::new(alloc),
        })?;
    }
    Ok(emptied)
}

/// Has a keeper take segments, one after the other.
fn take_list<K: SegmentKeeper>(
    alloc: Global,
    keeper: &mut K,
    list: Vec<Segment>,
) -> Result<(), NoMemory>
    ensures { OnOk result (Took K.gathers keeper.old keeper.new list.items) }
{
    for segment in list {
        keeper.take_segment(alloc, segment)?;
    }
    Ok(())
}
