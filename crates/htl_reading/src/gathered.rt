//! What was gathered from a source so far, and how one worker reads on.

ghost use Rattle.std.specs.Prelude.{◌≡◌, ◌≢◌, ◌+◌, ◌*◌, ◌<◌, ◌≤◌, ◌^◌, ℕ, List, Option, Err};
ghost use Rattle.std.specs.Prelude.{IfOk, IfErr, OnOk, false, length};
ghost use Rattle.htl_device.specs.States.{IsOpen};
ghost use Rattle.htl_reading.specs.Blocks.{IsKeptAt, IsRefusedAt, IsTakenIn};
ghost use Rattle.htl_reading.specs.Keepers.{IsTakenOff, IsTakenTo};
ghost use Rattle.htl_reading.specs.Taking.{LeavesTaken, TakesSource};
ghost use Rattle.htl_reading.specs.declared.fault.SourceFault.TheVariants.{Read};

use crate::block::Block;
use crate::fault::SourceFault;
use crate::outcome::{EarlyEnd, early_end};
use htl_device::{MAX_READ_LEN, Source};
use htl_event::NoMemory;
use htl_segment::{Keeper, split};
use std::alloc::Global;

/// What was gathered from a source: the number of bytes whose segments a keeper took, and the bytes
/// after these.
#[derive(Drop)]
pub struct Gathered {
    /// The offset of the block among all bytes.
    pub offset: u64,
    pub block: Block,
}

impl Gathered {
    /// Has a keeper take the segments at the front of the block.
    fn take<K: Keeper>(&mut self, alloc: Global, keeper: &mut K) -> Result<(), SourceFault>
        requires { self.old.offset + length self.old.block.held < 2 ^ 64 }
        ensures ok { OnOk result (IsTakenIn K.gathers keeper.old keeper.new
            self.old.block.held self.new.block.held self.old.offset self.new.offset) }
        ensures err { IfErr result (IsRefusedAt self.old.offset self.old.block.held) }
        ensures kept { IfErr result
            (IsKeptAt K.gathers keeper.old keeper.new self.old.offset self.old.block.held) }
        ensures no_read { result ≢ Err Read }
    {
        let len = take_front(alloc, keeper, self.offset, self.block.held())?;
        self.block.consume(len);
        self.offset += len as u64;
        Ok(())
    }

    /// Reads a source on to its end, after one read that gave bytes, and has a keeper take its
    /// segments. At most `most` reads give bytes, and `between` is called before each but the first.
    pub fn read_on<R: Source, K: Keeper, F: Fn(&mut K) -> Result<(), NoMemory>>(
        mut self,
        alloc: Global,
        most: u64,
        source: &mut R,
        keeper: &mut K,
        between: &F,
    ) -> Result<Option<EarlyEnd>, SourceFault>
        requires ready { IsOpen (R.state source.old) }
        requires some { 0 < most }
        requires few { self.offset + length self.block.held + most * MAX_READ_LEN < 2 ^ 64 }
        requires counted { 1 ≤ (R.state source.old).good_reads }
        requires callable { F.IsAlwaysCallable between.now }
        requires leaves { LeavesTaken K.gathers (F.post between.now) }
        ensures taken { (start : K) (given : Option (List ℕ)) → IsTakenTo K.gathers
            start keeper.old given (R.state source.old).remaining self.block.held self.offset 1
            → TakesSource 1 most K.gathers given start keeper.new
            (R.state source.old) (R.state source.new) result }
        ensures bounded { (R.state source.new).good_reads + 1
            ≤ (R.state source.old).good_reads + most }
    {
        for _reads in 1..most {
            between(keeper)?;
            self.block.make_room()?;
            let Ok(count) = self.block.read(source) else {
                return Err(SourceFault::Read);
            };
            if count == 0 {
                return Ok(early_end(self.offset, self.block.held()));
            }
            self.take(alloc, keeper)?;
        }
        Err(SourceFault::Read)
    }
}

/// Has a keeper take the segments at the front of the bytes at an offset, and gives the number of
/// their bytes.
pub fn take_front<K: Keeper>(
    alloc: Global,
    keeper: &mut K,
    offset: u64,
    bytes: &[u8],
) -> Result<usize, SourceFault>
    requires { offset + length bytes.now < 2 ^ 64 }
    ensures ok { IfOk result (IsTakenOff K.gathers keeper.old keeper.new bytes.now) }
    ensures inside { IfOk result (λ len. len ≤ length bytes.now) }
    ensures err { IfErr result (IsRefusedAt offset bytes.now) }
    ensures kept { IfErr result (IsKeptAt K.gathers keeper.old keeper.new offset bytes.now) }
    ensures no_read { result ≢ Err Read }
{
    match split(alloc, keeper, bytes) {
        Ok(rest) => Ok(bytes.len() - rest.len()),
        Err((inside, fault)) => Err(SourceFault::from_segment(offset + inside, fault)),
    }
}
