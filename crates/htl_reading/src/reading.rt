//! A source, read to its end.

ghost use Rattle.std.specs.Prelude.{◌≡◌, ◌*◌, ◌+◌, ◌<◌, ◌^◌, ℕ, List, Option};
ghost use Rattle.std.specs.Prelude.{[], IfOk, IfErr, IfSome, false};
ghost use Rattle.htl_segment.specs.Bundles.{Splits};
ghost use Rattle.htl_device.specs.States.{IsOpen};
ghost use Rattle.htl_reading.specs.Keepers.{IsTakenTo};
ghost use Rattle.htl_reading.specs.Sources.{IsLeft, IsReportedOfBundle, IsSourceRead};
ghost use Rattle.htl_reading.specs.Taking.{GathersSource, LeavesTaken, TakesSource};

use crate::block::Block;
use crate::fault::SourceFault;
use crate::gathered::{Gathered, take_front};
use crate::outcome::{Bundle, EarlyEnd};
use crate::parts::take_parts;
use crate::rounds::{SegmentKeeper, take_rounds};
use htl_device::{MAX_READ_LEN, MAX_READS, MIN_READ_LEN, Parted, Source};
use htl_event::NoMemory;
use htl_segment::{JoiningKeeper, Keeper, Segment, Segments};
use std::alloc::Global;
use std::thread::Threads;

/// Gathers the segments of a source. One worker reads it to its end, in reads of 65,536 bytes, but for
/// the first, of 4,096, and takes the segments of each read before the next. A source without bytes
/// needs no memory. One that ends within a segment gives the whole segments before it.
///
/// Several workers read parts of it first, where it has some, and one reads on behind these. Where the
/// parts are no whole segments, one worker reads it as if there were no others: the segments are the
/// same for every number of workers, and so are an early end and what is reported.
pub fn gather_bundle<T: Threads + Sync, R: Parted, K: JoiningKeeper + Drop + Send>(
    rt: &T,
    alloc: Global,
    workers: u32,
    source: &mut R,
    mut keeper: K,
) -> Result<Bundle<K>, SourceFault>
    requires { IsOpen (R.state source.old) }
    ensures { GathersSource workers MAX_READS K.gathers (R.state source.old).remaining keeper
        (R.state source.old) (R.state source.new) result }
{
    let offset = take_parts(rt, alloc, workers, source, &mut keeper)?;
    gather_on(alloc, MAX_READS, offset, source, keeper)
}

/// The segments of a source, as `gather_bundle` gathers them.
pub fn read_bundle<T: Threads + Sync, R: Parted>(
    rt: &T,
    alloc: Global,
    workers: u32,
    source: &mut R,
) -> Result<Bundle<Vec<Segment>>, SourceFault>
    requires { IsOpen (R.state source.old) }
    ensures ok { IfOk result (λ bundle. IfSome (R.state source.old).remaining (λ bytes.
        (rest : List ℕ) × Splits bytes bundle.segments.items rest
        × IsLeft bundle.segments.items rest bundle.early_end)) }
    ensures err { IfErr result (λ fault. IfSome (R.state source.old).remaining (λ bytes.
        IsReportedOfBundle (R.state source.new).remaining (R.state source.new).ended bytes fault)) }
    ensures reading { IsSourceRead workers MAX_READS (R.state source.old).remaining
        (R.state source.old) (R.state source.new) result }
{
    let Bundle {
        segments,
        early_end,
    } = gather_bundle(rt, alloc, workers, source, Segments::new(alloc))?;
    Ok(Bundle {
        segments: segments.list,
        early_end,
    })
}

/// Has a keeper take the segments of a source, which one worker reads to its end, in reads of 65,536
/// bytes, but for the first, of 4,096. The segments of each read are taken before the next. It tells
/// where the source ends within one more.
///
/// Several workers read the front of a source that has parts first, in rounds, some 32 MB for each
/// worker, and one reads on behind it. For the keeper that makes no difference.
///
/// After a fault the keeper has the segments before it, unless memory was refused. A source without
/// bytes needs no memory. Before each read but the first, and behind the parts of several workers,
/// `between` is called, so that the keeper can do what it does from time to time.
pub fn take_source<
    T: Threads + Sync,
    R: Parted,
    K: SegmentKeeper,
    F: Fn(&mut K) -> Result<(), NoMemory>,
>(
    rt: &T,
    alloc: Global,
    workers: u32,
    source: &mut R,
    keeper: &mut K,
    between: &F,
) -> Result<Option<EarlyEnd>, SourceFault>
    requires ready { IsOpen (R.state source.old) }
    requires callable { F.IsAlwaysCallable between.now }
    requires leaves { LeavesTaken K.gathers (F.post between.now) }
    ensures { TakesSource workers MAX_READS K.gathers (R.state source.old).remaining
        keeper.old keeper.new (R.state source.old) (R.state source.new) result }
{
    let offset = take_rounds(rt, alloc, workers, source, keeper, between)?;
    take_reads(alloc, MAX_READS, offset, source, keeper, between)
}

/// Gathers the segments of a source from an offset on by one worker, with a keeper that took those
/// before and is given back. At most `most` reads give bytes.
pub(crate) fn gather_on<R: Source, K: Keeper + Drop>(
    alloc: Global,
    most: u64,
    offset: u64,
    source: &mut R,
    mut keeper: K,
) -> Result<Bundle<K>, SourceFault>
    requires ready { IsOpen (R.state source.old) }
    requires some { 0 < most }
    requires few { offset + (most + 1) * MAX_READ_LEN < 2 ^ 64 }
    ensures { (start : K) (given : Option (List ℕ))
        → IsTakenTo K.gathers start keeper given (R.state source.old).remaining [] offset 0
        → GathersSource 1 most K.gathers given start (R.state source.old) (R.state source.new)
        result }
{
    let nothing = |keeper: &mut K| -> Result<(), NoMemory>
        ensures { keeper.new ≡ keeper.old }
    { Ok(()) };
    let early_end = take_reads(alloc, most, offset, source, &mut keeper, &nothing)?;
    Ok(Bundle {
        segments: keeper,
        early_end,
    })
}

/// Has a keeper take the segments of a source from an offset on: it took those before. At most `most`
/// reads give bytes.
///
/// The first read goes into a short buffer. If it gives bytes, a block is made for all other reads.
fn take_reads<R: Source, K: Keeper, F: Fn(&mut K) -> Result<(), NoMemory>>(
    alloc: Global,
    most: u64,
    offset: u64,
    source: &mut R,
    keeper: &mut K,
    between: &F,
) -> Result<Option<EarlyEnd>, SourceFault>
    requires ready { IsOpen (R.state source.old) }
    requires some { 0 < most }
    requires few { offset + (most + 1) * MAX_READ_LEN < 2 ^ 64 }
    requires callable { F.IsAlwaysCallable between.now }
    requires leaves { LeavesTaken K.gathers (F.post between.now) }
    ensures { (start : K) (given : Option (List ℕ))
        → IsTakenTo K.gathers start keeper.old given (R.state source.old).remaining [] offset 0
        → TakesSource 1 most K.gathers given start keeper.new (R.state source.old)
        (R.state source.new) result }
{
    let mut buffer = [0u8; MIN_READ_LEN];
    let Ok(count) = source.read(&mut buffer) else {
        return Err(SourceFault::Read);
    };
    if count == 0 {
        return Ok(None);
    }
    let piece = &buffer[..count];
    let len = take_front(alloc, keeper, offset, piece)?;
    let gathered = Gathered {
        offset: offset + len as u64,
        block: Block::new(alloc, &piece[len..])?,
    };
    gathered.read_on(alloc, most, source, keeper, between)
}
