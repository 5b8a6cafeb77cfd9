//! Sources that give a few bytes a read, and that fail at each of their reads in turn.

use crate::commands::{COMMANDS, Command, INPUTS, SYMBOLS, bytes_of, completed, digits_of};
use crate::comparison::assert_row;
use crate::devices::printed_from;
use crate::pieces::Pieces;
use crate::printed::over_bytes;
use htl_command::Job;
use htl_main::{Completed, Reading, Refused, RunFault};
use std::alloc::Global;
use std::process::Abort;
use std::thread::Threads;

/// Two inputs that give so many bytes a read.
#[derive(Clone, Copy)]
struct Sources<'a> {
    first: &'a [u8],
    second: &'a [u8],
    piece: usize,
}

impl<'a> Sources<'a> {
    /// How many reads an input takes: one for each piece, and one that finds the end.
    fn reads_of(self, bytes: &[u8]) -> usize {
        bytes.len().div_ceil(self.piece.max(1)).saturating_add(1)
    }

    fn source(self, bytes: &'a [u8], reads_left: usize) -> Pieces<'a> {
        Pieces::new(bytes, self.piece, reads_left)
    }

    /// What a run writes whose reads after the first so many fail, and how it ends.
    fn run(
        self,
        rt: &(impl Threads + Sync),
        alloc: Global,
        job: &Job,
        reads: usize,
    ) -> (Vec<u8>, Result<Completed, Refused>) {
        let reads_left = reads.saturating_sub(self.reads_of(self.first));
        let mut sources = [
            Reading::new(self.source(self.first, reads)),
            Reading::new(self.source(self.second, reads_left)),
        ];
        printed_from(rt, alloc, job, &mut sources, Some(SYMBOLS))
    }
}

/// Fails each read of the inputs in turn, and says how many. A run with a failed read reports
/// its input and writes nothing; with none it writes the text.
fn fail_reads(
    rt: &(impl Threads + Sync + Abort),
    alloc: Global,
    job: &Job,
    sources: Sources,
    command: &Command,
) -> usize {
    let reads_of_first = sources.reads_of(sources.first);
    let reads = reads_of_first.saturating_add(sources.reads_of(sources.second));
    for read in 0..reads {
        let (written, ended) = sources.run(rt, alloc, job, read);
        let input = u64::from(read >= reads_of_first);
        let wanted = Err(RunFault::Read { input }.into());
        assert_row(
            rt,
            read,
            (written.as_slice(), ended),
            ([].as_slice(), wanted),
        );
    }
    let (written, ended) = sources.run(rt, alloc, job, reads);
    let wanted = (command.text.as_bytes(), Ok(completed(command)));
    assert_row(rt, reads, (written.as_slice(), ended), wanted);
    reads
}

/// Fails the reads of one command, which give 1, 7 and 65,536 bytes.
fn fail_reads_of(
    rt: &(impl Threads + Sync + Abort),
    alloc: Global,
    command: &Command,
    hex: bool,
    (first, second): (&[u8], &[u8]),
) -> usize {
    let mut job = over_bytes(command.question);
    job.setting.form.hex = hex;
    let mut failed: usize = 0;
    for piece in [1, 7, 65_536] {
        let sources = Sources {
            first,
            second,
            piece,
        };
        failed = failed.wrapping_add(fail_reads(rt, alloc, &job, sources, command));
    }
    failed
}

/// Fails the reads of all commands over these two inputs.
fn fail_all_reads(
    rt: &(impl Threads + Sync + Abort),
    alloc: Global,
    hex: bool,
    inputs: (&[u8], &[u8]),
) -> usize {
    let mut failed: usize = 0;
    for command in COMMANDS {
        failed = failed.wrapping_add(fail_reads_of(rt, alloc, command, hex, inputs));
    }
    failed
}

#[test]
fn failing_reads(rt: HostRuntime) {
    let first = bytes_of(&rt, rt.alloc(), INPUTS[0]);
    let second = bytes_of(&rt, rt.alloc(), INPUTS[1]);
    let failed = fail_all_reads(&rt, rt.alloc(), false, (&first, &second));
    assert_eq!(rt; failed, 3328);
}

#[test]
fn failing_reads_of_digits(rt: HostRuntime) {
    let first = digits_of(&rt, rt.alloc(), &bytes_of(&rt, rt.alloc(), INPUTS[0]));
    let second = digits_of(&rt, rt.alloc(), &bytes_of(&rt, rt.alloc(), INPUTS[1]));
    let failed = fail_all_reads(&rt, rt.alloc(), true, (&first, &second));
    assert_eq!(rt; failed, 6576);
}
