//! Sources of bytes.

ghost use Rattle.std.specs.Prelude.{◌≡◌, ◌≢◌, ◌≤◌, Some, length, is_some, IfErr, IfOk};
ghost use Rattle.std.specs.Io.KnownBytes.{ReadConsumes};
ghost use Rattle.std.specs.IoError.{error_kind};
ghost use Rattle.htl_device.specs.States.{IsOpen, IsRead, SourceState, fresh};

use crate::Failed;
use std::io;
use std::io::{ErrorKind, Read};

/// The most bytes that a read asks for.
pub const MAX_READ_LEN: usize = 65_536;

/// The fewest bytes that a read asks for.
pub const MIN_READ_LEN: usize = 4_096;

/// A source of bytes, which are read one after the other.
pub trait Source {
    // What is known of the source.
    ghost state: { Self → SourceState };

    /// Whether the last read found the end.
    fn ended(&self) -> bool
        ensures { result ≡ (state self.now).ended };

    /// Reads some of the bytes that are left into a buffer of 4,096 to 65,536 bytes, and gives their
    /// number. It is 0 where the source has ended. No read follows the end or a failed read.
    fn read(&mut self, buffer: &mut [u8]) -> Result<usize, Failed>
        requires ready { IsOpen (state self.old) }
        requires least { MIN_READ_LEN ≤ length buffer.old }
        requires most { length buffer.old ≤ MAX_READ_LEN }
        ensures { IsRead (state self.old) (state self.new) buffer.new result };
}

/// A reader of std as a source. A read that a signal interrupts is no failure: it is tried again.
#[derive(Drop)]
pub struct Reading<R> {
    /// The reader, of which the bytes that were read are gone.
    pub reader: R,
    /// Of which kind the error of the failed read is, where one has failed.
    pub failure: Option<ErrorKind>,
    reads: u64,
    /// How often another reader was asked for. There is none.
    pub(crate) tails: u64,
    ended: bool,
}

impl<R: Read> Reading<R> {
    /// A source that was not read yet, and gives the bytes of the reader. Every error of the reader but
    /// an interrupted read is a failure, even one after which a caller might try again.
    pub fn new(reader: R) -> Reading<R>
        ensures state { ⟦<Reading<R> as Source>⟧.state result ≡ fresh (R.remaining reader) }
        ensures reader { result.reader ≡ reader }
    {
        Reading {
            reader,
            failure: None,
            reads: 0,
            tails: 0,
            ended: false,
        }
    }
}

impl<R: Read> Source for Reading<R> {
    ghost state = { λ s. record {
      failed = is_some s.failure;
      ended = s.ended;
      good_reads = s.reads;
      tails = s.tails;
      remaining = R.remaining s.reader;
    } };

    fn ended(&self) -> bool {
        self.ended
    }

    fn read(&mut self, buffer: &mut [u8]) -> Result<usize, Failed>
        requires { IsOpen (⟦<Reading<R> as Source>⟧.state self.old) }
        ensures state { IsRead (⟦<Reading<R> as Source>⟧.state self.old)
            (⟦<Reading<R> as Source>⟧.state self.new) buffer.new result }
        ensures retried { self.new.failure ≢ Some ErrorKind.Interrupted }
    {
        match read_uninterrupted(&mut self.reader, buffer) {
            Ok(0) => {
                self.ended = true;
                Ok(0)
            }
            Ok(count) => {
                self.reads = self.reads.saturating_add(1);
                Ok(count)
            }
            Err(error) => {
                self.failure = Some(error.kind());
                Err(Failed)
            }
        }
    }
}

/// Reads once, but for reads that a signal interrupts.
fn read_uninterrupted<R: Read>(reader: &mut R, buffer: &mut [u8]) -> io::Result<usize>
    ensures bound { IfOk result (λ n. n ≤ length buffer.new) }
    ensures same { length buffer.new ≡ length buffer.old }
    ensures bytes { ReadConsumes (R.remaining reader.old) (R.remaining reader.new) result buffer.new }
    ensures retried { IfErr result (λ error. error_kind error ≢ ErrorKind.Interrupted) }
{
    for _try in 0..u64::MAX {
        match reader.read(buffer) {
            Err(error) if error.kind() == ErrorKind::Interrupted => {}
            ended => return ended,
        }
    }
    Err(io::Error::from(ErrorKind::TimedOut))
}
