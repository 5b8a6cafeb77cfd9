//! Runs over sources and sinks that give or take a few bytes, and that fail.

ghost use Rattle.std.specs.Prelude.{map};
ghost use Rattle.htl_device.specs.States.{AreOpen};

use crate::comparison::assert_row;
use crate::pieces::Pieces;
use crate::printed::{OUTSTANDING, bundles, fault_of, has_line, over_bytes, table_of};
use crate::rows::{PRINTED, Printed, STORED, STORED_COMPLETED, STORED_TEXT};
use htl_command::Job;
use htl_main::{Completed, Reading, Refused, RunFault, Source, Writing, run_from};
use htl_segment::{Fault, from_hex};
use std::alloc::Global;
use std::io;
use std::io::Write;
use std::process::Abort;
use std::thread::Threads;

/// A writer that takes a few bytes a write into memory, and fails when it holds `most`. The next
/// call would succeed, so that a write that is tried again silently shows.
#[derive(Drop)]
pub struct Narrow {
    pub held: Vec<u8>,
    pub piece: usize,
    pub most: usize,
}

impl Write for Narrow {
    fn write(&mut self, bytes: &[u8]) -> io::Result<usize> {
        if self.held.len() >= self.most {
            self.most = usize::MAX;
            return Err(io::Error::from(io::ErrorKind::Other));
        }
        let count = self.piece.min(bytes.len());
        self.held.extend_from_slice(&bytes[..count])?;
        Ok(count)
    }

    fn flush(&mut self) -> io::Result<()> {
        Ok(())
    }
}

/// The bytes of the stored run.
fn stored(rt: &impl Abort, alloc: Global) -> Vec<u8> {
    from_hex(alloc, STORED.as_bytes()).expect(rt, "digits")
}

/// What a run over sources writes, and how it ends.
pub fn printed_from<'a>(
    rt: &(impl Threads + Sync),
    alloc: Global,
    job: &Job,
    sources: &mut [Reading<Pieces<'a>>],
    symbols: Option<&str>,
) -> (Vec<u8>, Result<Completed, Refused>)
    requires { AreOpen (map ⟦<Reading<Pieces<'a>> as Source>⟧.state sources.old) }
{
    let mut written = Vec::new(alloc);
    let ended = run_from(
        rt,
        alloc,
        job,
        sources,
        table_of(symbols),
        &mut Writing::new(&mut written),
    );
    (written, ended)
}

/// What is printed of one source with these bytes, so many a read, and how that ends.
fn printed_in_pieces(
    rt: &(impl Threads + Sync),
    alloc: Global,
    row: &Printed,
    bytes: &[u8],
    piece: usize,
) -> (Vec<u8>, Result<Completed, Refused>) {
    let job = over_bytes(row.question);
    let mut sources = [Reading::new(Pieces::new(bytes, piece, 10_000))];
    printed_from(rt, alloc, &job, &mut sources, row.symbols)
}

/// A row's text is printed of its segments in one source.
fn is_printed(
    rt: &(impl Threads + Sync + Abort),
    alloc: Global,
    row: &Printed,
    bytes: &[u8],
    piece: usize,
) {
    let (written, ended) = printed_in_pieces(rt, alloc, row, bytes, piece);
    let found = (written.as_slice(), ended.is_ok());
    assert_row(rt, row.name, found, (row.text.as_bytes(), true));
}

#[test]
fn prints_the_same_whatever_the_reads(rt: HostRuntime) {
    for row in PRINTED {
        let bytes = bundle(&rt, rt.alloc(), row);
        for piece in [1, 7, 65_536] {
            is_printed(&rt, rt.alloc(), row, &bytes, piece);
        }
    }
}

/// The bytes of a row's inputs, one after another.
fn bundle(rt: &impl Abort, alloc: Global, row: &Printed) -> Vec<u8> {
    let inputs = bundles(rt, alloc, row.inputs);
    inputs.concat(alloc).expect(rt, "the memory")
}

/// A job over digits.
fn over_digits() -> Job {
    let mut job = over_bytes(OUTSTANDING);
    job.setting.form.hex = true;
    job
}

#[test]
fn gathers_hexadecimal(rt: HostRuntime) {
    let mut sources = [Reading::new(Pieces::new(STORED.as_bytes(), 7, 10_000))];
    let (written, ended) = printed_from(&rt, rt.alloc(), &over_digits(), &mut sources, None);
    let wanted = (STORED_TEXT.as_bytes(), Ok(STORED_COMPLETED));
    assert_row(&rt, "digits", (written.as_slice(), ended), wanted);
}

/// A run over these two sources writes nothing, and ends with the fault.
fn is_refused(
    rt: &(impl Threads + Sync + Abort),
    alloc: Global,
    job: &Job,
    (first, second): (Pieces, Pieces),
    fault: RunFault,
) {
    let mut sources = [Reading::new(first), Reading::new(second)];
    let (written, ended) = printed_from(rt, alloc, job, &mut sources, None);
    assert_row(rt, fault, fault_of(rt, &written, ended), fault);
}

#[test]
fn reports_failed_reads(rt: HostRuntime) {
    let bytes = stored(&rt, rt.alloc());
    // the second read of the first source fails, or the first one of the second source
    for (first, second, input) in [(1, 99, 0), (99, 0, 1)] {
        is_refused(
            &rt,
            rt.alloc(),
            &over_bytes(OUTSTANDING),
            (
                Pieces::new(&bytes, 7, first),
                Pieces::new(&bytes, 7, second),
            ),
            RunFault::Read { input },
        );
    }
}

#[test]
fn reports_failed_reads_of_digits(rt: HostRuntime) {
    let digits = STORED.as_bytes();
    is_refused(
        &rt,
        rt.alloc(),
        &over_digits(),
        (Pieces::new(digits, 7, 1), Pieces::new(digits, 7, 99)),
        RunFault::Read { input: 0 },
    );
}

/// The bytes of the stored run in a version that is none.
fn stored_in_version_3(rt: &impl Abort, alloc: Global) -> Vec<u8> {
    let mut bytes = stored(rt, alloc);
    if let Some(version) = bytes.get_mut(4) {
        *version = 3;
    }
    bytes
}

#[test]
fn a_fault_ends_the_reading(rt: HostRuntime) {
    let other = stored_in_version_3(&rt, rt.alloc());
    // the second read of the first source would fail, and the first one of the second source
    is_refused(
        &rt,
        rt.alloc(),
        &over_bytes(OUTSTANDING),
        (Pieces::new(&other, 65_536, 1), Pieces::new(&other, 7, 0)),
        RunFault::Segment {
            input: 0,
            offset: 0,
            fault: Fault::Version,
        },
    );
}

#[test]
fn reports_an_end_inside_a_segment(rt: HostRuntime) {
    let bytes = stored(&rt, rt.alloc());
    let (part, _) = bytes.split_at(70.min(bytes.len()));
    is_refused(
        &rt,
        rt.alloc(),
        &over_bytes(OUTSTANDING),
        (Pieces::new(&bytes, 7, 99), Pieces::new(part, 7, 99)),
        RunFault::Segment {
            input: 1,
            offset: 0,
            fault: Fault::Cut,
        },
    );
}

/// What went into a narrow writer in the stored run, whose bytes come 7 a read, and how the run
/// ended.
fn printed_into(
    rt: &(impl Threads + Sync),
    alloc: Global,
    bytes: &[u8],
    mut narrow: Narrow,
) -> (Vec<u8>, Result<Completed, Refused>) {
    let mut sources = [Reading::new(Pieces::new(bytes, 7, 10_000))];
    let ended = run_from(
        rt,
        alloc,
        &over_bytes(OUTSTANDING),
        &mut sources,
        None,
        &mut Writing::new(&mut narrow),
    );
    (narrow.held, ended)
}

/// A writer of so many bytes a write, which fails when it holds `most`, takes this in the stored
/// run, which ends so.
fn takes(
    rt: &(impl Threads + Sync + Abort),
    alloc: Global,
    (piece, most): (usize, usize),
    went: &str,
    wanted: Result<Completed, Refused>,
) {
    let narrow = Narrow {
        held: Vec::new(alloc),
        piece,
        most,
    };
    let (held, ended) = printed_into(rt, alloc, &stored(rt, alloc), narrow);
    assert_row(
        rt,
        (piece, most),
        (held.as_slice(), ended),
        (went.as_bytes(), wanted),
    );
}

#[test]
fn reports_failed_writes(rt: HostRuntime) {
    for (piece, most, went) in [(10, 10, "outstandin"), (0, 10, ""), (1, 0, "")] {
        takes(
            &rt,
            rt.alloc(),
            (piece, most),
            went,
            Err(RunFault::Write.into()),
        );
    }
}

#[test]
fn writes_pieces(rt: HostRuntime) {
    for piece in [1, 7] {
        takes(
            &rt,
            rt.alloc(),
            (piece, 10_000),
            STORED_TEXT,
            Ok(STORED_COMPLETED),
        );
    }
}

const FAULTS: &[(RunFault, &str, u8)] = &[
    (
        RunFault::Read { input: 1 },
        "hleak: input 1: read failed",
        5,
    ),
    (RunFault::SymbolsRead, "hleak: symbols: read failed", 5),
    (RunFault::Write, "hleak: output: write failed", 5),
    (RunFault::Memory, "hleak: out of memory", 6),
];

#[test]
fn failures_have_lines_and_statuses(rt: HostRuntime) {
    for (fault, line, status) in FAULTS {
        has_line(&rt, rt.alloc(), fault, line);
        assert_row(&rt, *line, fault.status(), *status);
    }
}
