//! Sinks that take a few bytes a write, and that fail at each of their writes in turn.

use crate::commands::{COMMANDS, Command, INPUTS, SYMBOLS, bytes_of, completed};
use crate::comparison::assert_row;
use crate::printed::over_bytes;
use htl_main::{Completed, Refused, RunFault, Writing, run};
use std::alloc::Global;
use std::io;
use std::io::Write;
use std::process::Abort;
use std::thread::Threads;

/// How a write fails.
#[derive(Clone, Copy)]
enum Failure {
    /// By an error.
    Error,
    /// It accepts no byte.
    Nothing,
}

/// A writer into memory that takes a few bytes a write, and fails after so many writes.
#[derive(Drop)]
struct Narrow {
    held: Vec<u8>,
    piece: usize,
    writes_left: usize,
    failure: Failure,
}

impl Write for Narrow {
    fn write(&mut self, bytes: &[u8]) -> io::Result<usize> {
        if self.writes_left == 0 {
            return match self.failure {
                Failure::Error => Err(io::Error::from(io::ErrorKind::Other)),
                Failure::Nothing => Ok(0),
            };
        }
        self.writes_left -= 1;
        let count = self.piece.min(bytes.len());
        self.held.extend_from_slice(&bytes[..count])?;
        Ok(count)
    }

    fn flush(&mut self) -> io::Result<()> {
        Ok(())
    }
}

/// What of a command's text goes out, and how its run ends.
fn run_into(
    rt: &(impl Threads + Sync),
    alloc: Global,
    command: &Command,
    inputs: &[Vec<u8>],
    mut narrow: Narrow,
) -> (Vec<u8>, Result<Completed, Refused>) {
    let ended = run(
        rt,
        alloc,
        &over_bytes(command.question),
        inputs,
        Some(SYMBOLS.as_bytes()),
        &mut Writing::new(&mut narrow),
    );
    (narrow.held, ended)
}

/// Writes of a few bytes, and how one of them fails.
#[derive(Clone, Copy)]
struct Failing {
    piece: usize,
    failure: Failure,
}

impl Failing {
    /// A writer that fails after so many writes.
    fn after(self, alloc: Global, writes: usize) -> Narrow {
        Narrow {
            held: Vec::new(alloc),
            piece: self.piece,
            writes_left: writes,
            failure: self.failure,
        }
    }

    /// So much of a text goes out in so many writes.
    fn went(self, text: &str, writes: usize) -> Option<&[u8]> {
        text.as_bytes().get(..writes.saturating_mul(self.piece))
    }
}

/// Fails each write in turn, and says how many. A run with a failed write reports it, and what was
/// written before went out; with none the whole text does.
fn fail_writes(
    rt: &(impl Threads + Sync + Abort),
    alloc: Global,
    command: &Command,
    inputs: &[Vec<u8>],
    failing: Failing,
) -> usize {
    let writes = command.text.len().div_ceil(failing.piece.max(1));
    for before in 0..writes {
        let (held, ended) = run_into(rt, alloc, command, inputs, failing.after(alloc, before));
        let found = (Some(held.as_slice()), ended);
        let went = failing.went(command.text, before);
        assert_row(rt, before, found, (went, Err(RunFault::Write.into())));
    }
    let (held, ended) = run_into(rt, alloc, command, inputs, failing.after(alloc, writes));
    let whole = Some(command.text.as_bytes());
    assert_row(
        rt,
        writes,
        (Some(held.as_slice()), ended),
        (whole, Ok(completed(command))),
    );
    writes
}

/// Fails the writes of one command of 1, 10 and 65,536 bytes, in both ways.
fn fail_writes_of(
    rt: &(impl Threads + Sync + Abort),
    alloc: Global,
    command: &Command,
    inputs: &[Vec<u8>],
) -> usize {
    let mut failed: usize = 0;
    for piece in [1, 10, 65_536] {
        for failure in [Failure::Error, Failure::Nothing] {
            let failing = Failing { piece, failure };
            let more = fail_writes(rt, alloc, command, inputs, failing);
            failed = failed.wrapping_add(more);
        }
    }
    failed
}

#[test]
fn failing_writes(rt: HostRuntime) {
    let inputs = inputs(&rt, rt.alloc());
    let mut failed: usize = 0;
    for command in COMMANDS {
        let more = fail_writes_of(&rt, rt.alloc(), command, &inputs);
        failed = failed.wrapping_add(more);
    }
    assert_eq!(rt; failed, 2052);
}

/// The bytes of both inputs.
fn inputs(rt: &impl Abort, alloc: Global) -> Vec<Vec<u8>> {
    let mut inputs = Vec::new(alloc);
    for line in INPUTS {
        let bytes = bytes_of(rt, alloc, line);
        inputs.push(bytes).expect(rt, "the memory");
    }
    inputs
}
