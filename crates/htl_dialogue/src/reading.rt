//! The lines of a source, as they come.

ghost use Rattle.std.specs.Prelude.{◌≡◌, ◌≤◌, ◌⊎◌, [], false, true, position, Err};
ghost use Rattle.std.specs.Prelude.{IfErr, IfOk, OnOk};
ghost use Rattle.std.specs.Io.KnownBytes.{prepend_known};
ghost use Rattle.htl_device.specs.States.{IsOpen};
ghost use Rattle.htl_dialogue.specs.Lines.{is_feed};
ghost use Rattle.htl_dialogue.specs.Reading.{IsBegun, IsNext};

use crate::line::Line;
use htl_device::{Failed, MAX_READ_LEN, MAX_READS, ReadFault, Source};
use std::alloc::{AllocError, Global};
use std::marker::Model;

/// Bytes that were read of a source, and that no line has yet.
#[derive(Drop)]
pub struct ReadAhead {
    buffer: Vec<u8>,
    taken: usize,
    read: usize,
}

impl Model for ReadAhead {
    ghost use Rattle.std.specs.Prelude.{◌≡◌, ◌≤◌, ◌-◌, ℕ, List, drop, length, take};
    ghost use Rattle.htl_device.specs.declared.source.TheConstants.{MAX_READ_LEN};

    ghost Value = { List ℕ };

    ghost view = { λ h. take (h.read - h.taken) (drop h.taken h.buffer.items) };

    ghost invariant = { λ h. (h.taken ≤ h.read) × (h.read ≤ MAX_READ_LEN)
        × (length h.buffer.items ≡ MAX_READ_LEN) };
}

impl ReadAhead {
    ghost use Rattle.std.specs.Prelude.{◌≡◌, ◌<◌, [], false, IfOk, OnErr, is_err, length};
    ghost use Rattle.std.specs.Io.KnownBytes.{Consumes, IsAtEnd, Keeps};
    ghost use Rattle.htl_device.specs.States.{IsOpen, reads_after};
    ghost use Rattle.htl_dialogue.specs.Reading.{Moves};

    /// No bytes, and room for those of a read.
    pub fn new(alloc: Global) -> Result<ReadAhead, AllocError>
        ensures { IfOk result (λ held. held ≡ []) }
    {
        Ok(ReadAhead {
            buffer: vec![in alloc; 0; MAX_READ_LEN]?,
            taken: 0,
            read: 0,
        })
    }

    /// Moves the bytes before the first line feed to the line, drops the line feed, and returns
    /// whether there was one.
    fn move_to(&mut self, line: &mut Line) -> Result<bool, AllocError>
        ensures ok { IfOk result (Moves self.old self.new line.old line.new) }
        ensures err { OnErr result (self.new ≡ self.old) }
    {
        let held = &self.buffer[self.taken..self.read];
        match first_feed(held) {
            Some(place) => {
                line.add(&held[..place])?;
                self.taken += place + 1;
                Ok(true)
            }
            None => {
                line.add(held)?;
                self.taken = self.read;
                Ok(false)
            }
        }
    }

    /// Reads more bytes if none are held, and returns how many came.
    fn refill<R: Source>(&mut self, source: &mut R) -> Result<usize, Failed>
        requires empty { self.old ≡ [] }
        requires ready { IsOpen (R.state source.old) }
        ensures ok { IfOk result (λ count. (count ≡ length self.new)
            × Consumes (R.state source.old).remaining (R.state source.new).remaining self.new
            × (count ≡ 0 → IsAtEnd (R.state source.new).remaining)) }
        ensures err { OnErr result ((self.new ≡ [])
            × Keeps (R.state source.old).remaining (R.state source.new).remaining) }
        ensures fails { (R.state source.new).failed ≡ is_err result }
        ensures inside { IfOk result (λ count. 0 < count → (R.state source.new).ended ≡ false) }
        ensures counts { (R.state source.new).good_reads
            ≡ reads_after (R.state source.old).good_reads result }
    {
        self.taken = 0;
        self.read = 0;
        let count = source.read(&mut self.buffer)?;
        self.read = count;
        Ok(count)
    }
}

/// The place of the first line feed.
fn first_feed(bytes: &[u8]) -> Option<usize>
    ensures { result ≡ position is_feed bytes.now }
{
    bytes.iter().position(|byte| *byte == b'\n')
}

/// A line, and whether no line feed follows it.
#[derive(Debug, PartialEq, Eq, Drop)]
pub struct NextLine {
    pub line: Line,
    pub is_last: bool,
}

/// The next line of what is held and of what the source gives, which is read no further than to the
/// line's end. The last line has no line feed after it, and may be empty. A line whose end doesn't
/// come with 2^32 reads is a failure. Where a read failed, no bytes are held.
pub fn next_line<R: Source>(
    alloc: Global,
    source: &mut R,
    held: &mut ReadAhead,
) -> Result<NextLine, ReadFault>
    requires ready { IsOpen (R.state source.old) }
    ensures ok { IfOk result (IsNext (prepend_known held.old (R.state source.old).remaining)
        (prepend_known held.new (R.state source.new).remaining)) }
    ensures fine { OnOk result ((R.state source.new).failed ≡ false) }
    ensures inside { IfOk result (λ next.
        next.is_last ≡ false → (R.state source.new).ended ≡ false) }
    ensures reported { (R.state source.new).failed ≡ true → result ≡ Err ReadFault.Failed }
    ensures begun { IfErr result (λ _. IsBegun (prepend_known held.old (R.state source.old).remaining)
        (prepend_known held.new (R.state source.new).remaining)) }
    ensures all { (R.state source.new).failed ≡ true → held.new ≡ [] }
    ensures failed { result ≡ Err ReadFault.Failed → ((R.state source.new).failed ≡ true)
        ⊎ (MAX_READS ≤ (R.state source.new).good_reads) }
{
    let mut line = Line::Whole(Vec::new(alloc));
    for _read in 0..MAX_READS {
        if held.move_to(&mut line)? {
            return Ok(NextLine {
                line,
                is_last: false,
            });
        }
        let Ok(count) = held.refill(source) else {
            return Err(ReadFault::Failed);
        };
        if count == 0 {
            return Ok(NextLine {
                line,
                is_last: true,
            });
        }
    }
    Err(ReadFault::Failed)
}
