//! Whole texts, read or written by as many calls as it takes.

ghost use Rattle.std.specs.Prelude.{◌≡◌, ◌<◌, ◌≤◌, ◌+◌, ℕ, List, Option, false, length};
ghost use Rattle.std.specs.Prelude.{IfOk};
ghost use Rattle.std.specs.Io.KnownBytes.{Consumes};
ghost use Rattle.htl_device.specs.Devices.{ReadsWhole, WritesWhole};
ghost use Rattle.htl_device.specs.States.{IsOpen};

use crate::source::{MAX_READ_LEN, MIN_READ_LEN};
use crate::{Failed, Sink, Source};
use std::alloc::{AllocError, Global};

/// Writes the whole text, or some first part of it if the sink fails.
pub fn write_whole<W: Sink>(out: &mut W, text: &[u8]) -> Result<(), Failed>
    requires { (W.state out.old).failed ≡ false }
    ensures { WritesWhole (W.state out.old) (W.state out.new) text.now result }
{
    let mut sent = 0;
    while sent < text.len() {
        let taken = out.write(&text[sent..])?;
        if taken == 0 {
            return Err(Failed);
        }
        sent += taken;
    }
    Ok(())
}

/// Why a source could not be read whole.
#[derive(Clone, Copy, Debug, PartialEq, Eq)]
pub enum ReadFault {
    /// A read failed, or `MAX_READS` of them gave bytes.
    Failed,
    /// An allocation was refused.
    NoMemory,
}

impl From<AllocError> for ReadFault {
    ghost use Rattle.std.specs.Prelude.{◌≡◌};
    ghost use Rattle.htl_device.specs.declared.whole.ReadFault.TheVariants.{NoMemory};

    ghost from_gives = { λ _ fault. fault ≡ NoMemory };

    fn from(_refused: AllocError) -> ReadFault {
        ReadFault::NoMemory
    }
}

/// The most reads of one source that may give bytes: 2^32.
pub const MAX_READS: u64 = 4_294_967_296;

/// All bytes of a source, in reads of 65,536 bytes each, but for the first, of 4,096. The 2^32-nd read
/// may still find the end, and a source that gives bytes at each of them has failed. Memory is asked
/// for once some bytes came, and no more once the end was found.
pub fn read_whole<R: Source>(alloc: Global, source: &mut R) -> Result<Vec<u8>, ReadFault>
    requires { IsOpen (R.state source.old) }
    ensures { ReadsWhole MAX_READS (R.state source.old).remaining (R.state source.old)
        (R.state source.new) result }
{
    read_within(alloc, source, MAX_READS)
}

/// All bytes of a source. At most `most` reads may give bytes.
fn read_within<R: Source>(alloc: Global, source: &mut R, most: u64) -> Result<Vec<u8>, ReadFault>
    requires ready { IsOpen (R.state source.old) }
    requires some { 0 < most }
    ensures { ReadsWhole most (R.state source.old).remaining (R.state source.old)
        (R.state source.new) result }
{
    let mut first = [0u8; MIN_READ_LEN];
    let Ok(count) = source.read(&mut first) else {
        return Err(ReadFault::Failed);
    };
    if count == 0 {
        return Ok(Vec::new(alloc));
    }
    let bytes = Vec::from_slice(alloc, &first[..count])?;
    let mut buffer = read_buffer(alloc)?;
    read_on(source, &mut buffer, bytes, most)
}

/// A buffer for the longest reads.
fn read_buffer(alloc: Global) -> Result<Vec<u8>, AllocError>
    ensures { IfOk result (λ buffer. length buffer.items ≡ MAX_READ_LEN) }
{
    vec![in alloc; 0; MAX_READ_LEN]
}

/// Reads the source on to its end, and puts its bytes behind those of the first read.
fn read_on<R: Source>(
    source: &mut R,
    buffer: &mut [u8],
    mut bytes: Vec<u8>,
    most: u64,
) -> Result<Vec<u8>, ReadFault>
    requires ready { IsOpen (R.state source.old) }
    requires whole { length buffer.old ≡ MAX_READ_LEN }
    requires begun { 0 < length bytes.items }
    requires some { 0 < most }
    requires counted { 1 ≤ (R.state source.old).good_reads }
    ensures read { (given : Option (List ℕ))
        → Consumes given (R.state source.old).remaining bytes.items
        → ReadsWhole most given (R.state source.old) (R.state source.new) result }
    ensures bounded { (R.state source.new).good_reads + 1 ≤ (R.state source.old).good_reads + most }
{
    for _read in 1..most {
        let Ok(count) = source.read(buffer) else {
            return Err(ReadFault::Failed);
        };
        if count == 0 {
            return Ok(bytes);
        }
        bytes.extend_from_slice(&buffer[..count])?;
    }
    Err(ReadFault::Failed)
}
