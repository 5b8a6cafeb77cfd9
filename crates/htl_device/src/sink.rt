//! Sinks of bytes.

ghost use Rattle.std.specs.Prelude.{◌≡◌, ◌≢◌, ◌≤◌, Some, false, length};
ghost use Rattle.std.specs.Prelude.{is_some, IfErr, IfOk, true};
ghost use Rattle.std.specs.Io.KnownBytes.{WriteAppends};
ghost use Rattle.std.specs.IoError.{error_kind};
ghost use Rattle.htl_device.specs.Failures.{is_broken_pipe};
ghost use Rattle.htl_device.specs.States.{IsWritten, SinkState};

use crate::Failed;
use std::io;
use std::io::{ErrorKind, Write};

/// A sink of bytes, which are written one after the other.
pub trait Sink {
    // What is known of the sink.
    ghost state: { Self → SinkState };

    /// Takes some of the bytes from their front, and gives their number. No write follows a failed one.
    fn write(&mut self, bytes: &[u8]) -> Result<usize, Failed>
        requires { (state self.old).failed ≡ false }
        ensures { IsWritten (state self.old) (state self.new) bytes.now result };
}

/// A writer of std as a sink. A write that a signal interrupts is no failure: it is tried again.
#[derive(Drop)]
pub struct Writing<W> {
    writer: W,
    /// Of which kind the error of the failed write is, where one has failed.
    pub failure: Option<ErrorKind>,
}

impl<W: Write> Writing<W> {
    /// A sink that has not failed, and has the bytes that the writer has.
    pub fn new(writer: W) -> Writing<W>
        ensures { ⟦<Writing<W> as Sink>⟧.state result
            ≡ record { failed = false; contents = W.contents writer } }
    {
        Writing {
            writer,
            failure: None,
        }
    }

    /// Whether a write failed because nobody reads the pipe any more.
    pub fn is_pipe_broken(&self) -> bool
        ensures is { result ≡ is_broken_pipe self.now.failure }
        ensures failed { result ≡ true → (⟦<Writing<W> as Sink>⟧.state self.now).failed ≡ true }
    {
        matches!(self.failure, Some(ErrorKind::BrokenPipe))
    }
}

impl<W: Write> Sink for Writing<W> {
    ghost state = { λ s. record { failed = is_some s.failure; contents = W.contents s.writer } };

    fn write(&mut self, bytes: &[u8]) -> Result<usize, Failed>
        requires { is_some self.old.failure ≡ false }
        ensures state { IsWritten (⟦<Writing<W> as Sink>⟧.state self.old)
            (⟦<Writing<W> as Sink>⟧.state self.new) bytes.now result }
        ensures retried { self.new.failure ≢ Some ErrorKind.Interrupted }
    {
        match write_uninterrupted(&mut self.writer, bytes) {
            Ok(0) if !bytes.is_empty() => {
                self.failure = Some(ErrorKind::WriteZero);
                Ok(0)
            }
            Ok(count) => Ok(count),
            Err(error) => {
                self.failure = Some(error.kind());
                Err(Failed)
            }
        }
    }
}

/// Writes once, but for writes that a signal interrupts.
fn write_uninterrupted<W: Write>(writer: &mut W, bytes: &[u8]) -> io::Result<usize>
    ensures bound { IfOk result (λ n. n ≤ length bytes.now) }
    ensures bytes { WriteAppends (W.contents writer.old) (W.contents writer.new) result bytes.now }
    ensures retried { IfErr result (λ error. error_kind error ≢ ErrorKind.Interrupted) }
{
    for _try in 0..u64::MAX {
        match writer.write(bytes) {
            Err(error) if error.kind() == ErrorKind::Interrupted => {}
            ended => return ended,
        }
    }
    Err(io::Error::from(ErrorKind::TimedOut))
}
