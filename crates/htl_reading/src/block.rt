//! Blocks: a source is read into a block, and segments are checked in it.

use htl_device::{Failed, MAX_READ_LEN, Source};
use std::alloc::{AllocError, Global};
use std::marker::Model;

/// The least size in bytes of a block that has room for a read.
const LEAST_LEN: usize = 1_048_576;

/// Bytes that were read from a source and not taken yet, and room for more behind them.
#[derive(Drop)]
pub struct Block {
    bytes: Vec<u8>,
    start: usize,
    end: usize,
}

impl Model for Block {
    ghost use Rattle.std.specs.Prelude.{◌-◌, ◌≤◌, drop, length, take};
    ghost use Rattle.htl_reading.specs.Blocks.{BlockState};

    ghost Value = { BlockState };

    ghost view = { λ b. record {
      held = take (b.end - b.start) (drop b.start b.bytes.items);
      room = length b.bytes.items - b.end;
    } };

    ghost invariant = { λ b. (b.start ≤ b.end) × (b.end ≤ length b.bytes.items) };
}

impl Block {
    ghost use Rattle.std.specs.Prelude.{◌≡◌, ◌+◌, ◌<◌, ◌≤◌, ◌^◌, drop, false, length};
    ghost use Rattle.std.specs.Prelude.{IfOk, OnErr, OnOk, is_err};
    ghost use Rattle.std.specs.Io.KnownBytes.{Keeps};
    ghost use Rattle.htl_device.specs.States.{IsOpen, finds_end, reads_after};
    ghost use Rattle.htl_reading.specs.Blocks.{IsReadBehind};

    /// A block that holds these bytes.
    pub fn new(alloc: Global, held: &[u8]) -> Result<Block, AllocError>
        ensures { IfOk result (λ block. block.held ≡ held.now) }
    {
        Ok(Block {
            bytes: Vec::from_slice(alloc, held)?,
            start: 0,
            end: held.len(),
        })
    }

    /// The bytes held.
    pub fn held(&self) -> &[u8]
        ensures { result.now ≡ self.now.held }
    {
        &self.bytes[self.start..self.end]
    }

    /// Takes this many bytes off the front of those held.
    pub fn consume(&mut self, len: usize)
        requires { len ≤ length self.old.held }
        ensures { self.new.held ≡ drop len self.old.held }
    {
        self.start += len;
    }

    /// Makes room for a read behind the bytes held. They are moved to the front if there is no room, and
    /// the block grows if that isn't enough.
    pub fn make_room(&mut self) -> Result<(), AllocError>
        requires { length self.old.held + MAX_READ_LEN < 2 ^ 64 }
        ensures held { self.new.held ≡ self.old.held }
        ensures room { OnOk result (MAX_READ_LEN ≤ self.new.room) }
    {
        if self.bytes.len() - self.end >= MAX_READ_LEN {
            return Ok(());
        }
        if self.start > 0 {
            self.move_to_front();
        }
        let least = self.end + MAX_READ_LEN;
        if self.bytes.len() < least {
            self.bytes.resize(least.max(LEAST_LEN), 0)?;
        }
        Ok(())
    }

    fn move_to_front(&mut self)
        ensures { self.new.held ≡ self.old.held }
    {
        self.bytes.copy_within(self.start..self.end, 0);
        self.end -= self.start;
        self.start = 0;
    }

    /// Reads the next bytes behind those held, and gives their number.
    pub fn read<R: Source>(&mut self, source: &mut R) -> Result<usize, Failed>
        requires ready { IsOpen (R.state source.old) }
        requires room { MAX_READ_LEN ≤ self.old.room }
        ensures ok { IfOk result (IsReadBehind (R.state source.old).remaining
            (R.state source.new).remaining self.old.held self.new.held) }
        ensures bound { IfOk result (λ count. count ≤ MAX_READ_LEN) }
        ensures err { OnErr result (Keeps (R.state source.old).remaining
            (R.state source.new).remaining) }
        ensures kept { OnErr result (self.new.held ≡ self.old.held) }
        ensures fails { (R.state source.new).failed ≡ is_err result }
        ensures counts { (R.state source.new).good_reads
            ≡ reads_after (R.state source.old).good_reads result }
        ensures tails { (R.state source.new).tails ≡ (R.state source.old).tails }
        ensures ends { (R.state source.new).ended ≡ finds_end result }
    {
        let count = source.read(&mut self.bytes[self.end..self.end + MAX_READ_LEN])?;
        self.end += count;
        Ok(count)
    }
}
