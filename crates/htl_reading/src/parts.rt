//! Parts of a source's bytes, each of which a worker reads.

ghost use Rattle.std.specs.Prelude.{
  ◌≡◌,
  ◌≤◌,
  ◌<◌,
  ◌*◌,
  ◌^◌,
  ◌⊎◌,
  ℕ,
  All,
  IfSome,
  List,
  OnOk,
  OnSome,
  Some,
  [],
};
ghost use Rattle.std.specs.Prelude.{drop, false, length, map, take, true};
ghost use Rattle.std.specs.Io.Take.{take_remaining};
ghost use Rattle.htl_device.specs.States.{IsOpen};
ghost use Rattle.htl_reading.specs.Keepers.{TookAll};
ghost use Rattle.htl_reading.specs.Parts.{ArePartsOf, IsAnother, IsPartOf, IsTailed, Skips};
ghost use Rattle.htl_reading.specs.Parts.{TookInOrder, most_parts};
ghost use Rattle.htl_reading.specs.Sources.{AsksReaders};
ghost use Rattle.htl_reading.specs.declared.ends.TheConstants.{MIN_PART_LEN};

use crate::ends::ends;
use crate::reading::gather_on;
use htl_device::{MAX_READS, Parted, Reading};
use htl_event::NoMemory;
use htl_segment::{JoiningKeeper, Keeper};
use std::alloc::Global;
use std::io::{Read, Take};
use std::thread::{Threads, map_vec};

/// Several workers read at most this number of bytes of a source. No source has more.
pub const MAX_LEN: u64 = 1 << 61;

/// A part of a source's bytes, and the keeper that takes its segments.
#[derive(Drop)]
pub struct SourcePart<R, K> {
    bytes: Take<R>,
    keeper: K,
}

impl<R: Read + Drop, K: Keeper + Drop> SourcePart<R, K> {
    /// Reads the part and returns the keeper with its segments, or none if the part can't be read
    /// or isn't made of whole segments.
    fn gather(self, alloc: Global) -> Option<K>
        ensures { IfSome result (λ new. IfSome (take_remaining R.remaining self.bytes)
            (TookAll K.gathers self.keeper new)) }
    {
        let mut source = Reading::new(self.bytes);
        let bundle = gather_on(alloc, MAX_READS, 0, &mut source, self.keeper).ok()?;
        if bundle.early_end.is_some() {
            return None;
        }
        Some(bundle.segments)
    }
}

/// What workers took of the bytes at the front of a source: their keepers have the segments in order.
#[derive(Drop)]
pub struct Front<K> {
    pub keepers: Vec<K>,
    /// The number of bytes.
    pub len: u64,
}

/// Has a keeper take over the segments at the front of a source. Each of several workers reads a part
/// of these bytes, and the source skips them. Where these bytes aren't whole segments, the keeper
/// takes nothing and the source stays where it was. Gives the number of bytes that were skipped, 0
/// where one worker has to read.
pub fn take_parts<T: Threads + Sync, R: Parted, K: JoiningKeeper + Drop + Send>(
    rt: &T,
    alloc: Global,
    workers: u32,
    source: &mut R,
    keeper: &mut K,
) -> Result<u64, NoMemory>
    requires { IsOpen (R.state source.old) }
    ensures skips { Skips K.gathers (R.state source.old) (R.state source.new)
        keeper.old keeper.new 0 result }
    ensures readers { AsksReaders workers (R.state source.old).remaining (R.state source.old)
        (R.state source.new) }
{
    let spare = Vec::new(alloc);
    let Some(front) = gather_front(rt, alloc, workers, u64::MAX, source, keeper, spare) else {
        return Ok(0);
    };
    source.skip(front.len);
    append_all(keeper, front.keepers)?;
    Ok(front.len)
}

/// Gathers the segments at the front of a source by several workers, each of which reads a part. The
/// ends of the parts are sought at distances of at most `most` bytes. A part may be longer, since it
/// ends where a segment begins (see `ends`). Spare keepers are used first, and then new ones of the
/// keeper's kind.
///
/// It gives none if one worker has to read the source: if it has no parts or is short, or if a part
/// can't be read, isn't whole segments, or finds no memory.
pub fn gather_front<T: Threads + Sync, R: Parted, K: JoiningKeeper + Drop + Send>(
    rt: &T,
    alloc: Global,
    workers: u32,
    most: u64,
    source: &mut R,
    keeper: &K,
    spare: Vec<K>,
) -> Option<Front<K>>
    requires most { MIN_PART_LEN ≤ most }
    requires fresh { All (λ spare. IsAnother K.gathers keeper.now spare []) spare.items }
    ensures tails { IsTailed R.state R.is_parted (3 * most_parts workers) source.old source.new }
    ensures parted { OnSome result (R.is_parted source.new ≡ true) }
    ensures some { IfSome result (λ front. MIN_PART_LEN ≤ front.len) }
    ensures few { IfSome result (λ front. front.len ≤ 2 ^ 61) }
    ensures taken { IfSome result (λ front. IfSome (R.state source.old).remaining (λ bytes.
        (front.len ≤ length bytes)
        × TookInOrder K.gathers keeper.now front.keepers.items (take front.len bytes))) }
{
    let len = source.len()?.min(MAX_LEN);
    let ends = ends(alloc, workers, most, len, source).ok()?;
    let (parts, end) = cut(alloc, source, keeper, spare, &ends)?;
    if end == 0 || end > len {
        return None;
    }
    let gather = |part: SourcePart<R::Tail, K>| -> Option<K>
        ensures { IfSome result (λ new. IfSome
            (take_remaining R.Tail.remaining part.bytes) (TookAll K.gathers part.keeper new)) }
    { part.gather(alloc) };
    let Ok(gathered) = map_vec(rt, parts, &gather) else {
        return None;
    };
    Some(Front {
        keepers: all_of(alloc, gathered)?,
        len: end,
    })
}

/// The parts of a source's bytes that end at these offsets, and where the last one does.
fn cut<R: Parted, K: JoiningKeeper + Drop>(
    alloc: Global,
    source: &mut R,
    keeper: &K,
    mut spare: Vec<K>,
    ends: &[u64],
) -> Option<(Vec<SourcePart<R::Tail, K>>, u64)>
    requires fresh { All (λ spare. IsAnother K.gathers keeper.now spare []) spare.items }
    requires far { All (λ end. MIN_PART_LEN ≤ end) ends.now }
    ensures parts { IfSome result (λ cut. IfSome (R.state source.old).remaining (λ bytes.
        ArePartsOf K.gathers R.Tail.remaining keeper.now cut.0.items (take cut.1 bytes))) }
    ensures far { IfSome result (λ cut. (cut.1 ≡ 0) ⊎ (MIN_PART_LEN ≤ cut.1)) }
    ensures tails { IsTailed R.state R.is_parted (length ends.now) source.old source.new }
{
    let mut parts = Vec::new(alloc);
    let mut from = 0;
    for end in ends {
        let len = end.checked_sub(from)?;
        parts
            .push(part_at(alloc, source, keeper, &mut spare, from, len)?)
            .ok()?;
        from = *end;
    }
    Some((parts, from))
}

/// The part of this number of bytes at an offset of a source.
fn part_at<R: Parted, K: JoiningKeeper + Drop>(
    alloc: Global,
    source: &mut R,
    keeper: &K,
    spare: &mut Vec<K>,
    from: u64,
    len: u64,
) -> Option<SourcePart<R::Tail, K>>
    requires { All (λ spare. IsAnother K.gathers keeper.now spare []) spare.old.items }
    ensures part { IfSome result (λ part. IfSome (R.state source.old).remaining (λ bytes.
        IsPartOf K.gathers R.Tail.remaining keeper.now part (take len (drop from bytes)))) }
    ensures tails { IsTailed R.state R.is_parted 1 source.old source.new }
    ensures spare { All (λ spare. IsAnother K.gathers keeper.now spare []) spare.new.items }
{
    Some(SourcePart {
        bytes: source.tail(from)?.take(len),
        keeper: fresh_keeper(alloc, keeper, spare),
    })
}

/// A spare keeper, or where none is left another one of this kind.
fn fresh_keeper<K: JoiningKeeper + Drop>(alloc: Global, keeper: &K, spare: &mut Vec<K>) -> K
    requires { All (λ spare. IsAnother K.gathers keeper.now spare []) spare.old.items }
    ensures fresh { IsAnother K.gathers keeper.now result [] }
    ensures spare { All (λ spare. IsAnother K.gathers keeper.now spare []) spare.new.items }
{
    match spare.pop() {
        Some(keeper) => keeper,
        None => keeper.another(alloc),
    }
}

/// All keepers, where each part gave one.
fn all_of<K: Drop>(alloc: Global, gathered: Vec<Option<K>>) -> Option<Vec<K>>
    ensures { IfSome result (λ keepers. map (λ keeper. Some keeper) keepers.items ≡
        gathered.items) }
{
    let mut keepers = Vec::with_capacity(alloc, gathered.len()).ok()?;
    for keeper in gathered {
        keepers.push(keeper?).ok()?;
    }
    Some(keepers)
}

/// Has a keeper take over the segments of the parts, in order.
fn append_all<K: JoiningKeeper + Drop>(keeper: &mut K, parts: Vec<K>) -> Result<(), NoMemory>
    ensures { (bytes : List ℕ) → TookInOrder K.gathers keeper.old parts.items bytes
        → OnOk result (TookAll K.gathers keeper.old keeper.new bytes) }
{
    for mut part in parts {
        keeper.append(&mut part)?;
    }
    Ok(())
}
