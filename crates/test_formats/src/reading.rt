//! Sources that give their bytes once, beside bytes that lie in memory.

use crate::parts::{Told, bundle, told_of_bytes, told_of_read};
use crate::rows::assert_row;
use htl_device::Reading;
use htl_reading::{SourceFault, read_bundle};
use std::alloc::Global;
use std::io;
use std::io::Read;
use std::process::Abort;
use std::thread::Threads;

/// A reader over memory that gives a few bytes a read, and fails once after so many reads. The next
/// read would succeed, so that bytes after a lost read show.
#[derive(Clone, Copy, Drop)]
struct Pieces<'a> {
    bytes: &'a [u8],
    piece: usize,
    reads_left: usize,
}

impl Read for Pieces<'_> {
    fn read(&mut self, buffer: &mut [u8]) -> io::Result<usize> {
        if self.reads_left == 0 {
            self.reads_left = usize::MAX;
            return Err(io::Error::from(io::ErrorKind::Other));
        }
        self.reads_left -= 1;
        let count = self.piece.min(self.bytes.len()).min(buffer.len());
        let (given, rest) = self.bytes.split_at(count);
        buffer[..count].copy_from_slice(given);
        self.bytes = rest;
        Ok(count)
    }
}

/// What the reads come to: what their bytes do, where these have a fault that more bytes wouldn't
/// mend; else a failed read, where one comes before the end. The first read asks for 4,096 bytes.
fn expected(alloc: Global, source: Pieces) -> Told {
    let len = source.bytes.len();
    let first = source.piece.min(4_096).min(len);
    let later = (len - first).div_ceil(source.piece.max(1));
    let fails = source.reads_left <= later.saturating_add(1);
    let given = source
        .piece
        .saturating_mul(source.reads_left.saturating_sub(1))
        .saturating_add(first)
        .min(len);
    let (read, _) = source.bytes.split_at(given);
    match told_of_bytes(alloc, read) {
        Ok(_) if fails => Err(SourceFault::Read),
        told => told,
    }
}

/// Reads for one worker and for several, of which one reads such a source.
fn by_all(rt: &(impl Abort + Threads + Sync), alloc: Global, source: Pieces) {
    let expected = expected(alloc, source);
    for workers in [1, 8] {
        let read = read_bundle(rt, alloc, workers, &mut Reading::new(source));
        assert_row(rt, workers, told_of_read(read), expected);
    }
}

#[test]
fn pieces_of_a_few_bytes(rt: HostRuntime) {
    let alloc = rt.alloc();
    let mut bytes = bundle(&rt, alloc, 40);
    for place in [1_280, 996, 352, 3] {
        for (piece, reads_left) in [
            (7, 9),
            (7, 1_000),
            (64, 3),
            (64, 7),
            (64, 11),
            (64, 17),
            (64, 1_000),
        ] {
            by_all(
                &rt,
                alloc,
                Pieces {
                    bytes: &bytes,
                    piece,
                    reads_left,
                },
            );
        }
        if let Some(cell) = bytes.get_mut(place) {
            *cell = 0xFF;
        }
        bytes.truncate(1_275);
    }
}

#[test]
fn pieces_of_many_bytes(rt: HostRuntime) {
    let alloc = rt.alloc();
    let mut bytes = bundle(&rt, alloc, 8_000);
    for place in [256_000, 189_988, 149_988] {
        for reads_left in [3, 1_000] {
            by_all(
                &rt,
                alloc,
                Pieces {
                    bytes: &bytes,
                    piece: 65_536,
                    reads_left,
                },
            );
        }
        if let Some(cell) = bytes.get_mut(place) {
            *cell = 0xFF;
        }
    }
}

/// A reader over memory that notes how many bytes each read asks for.
#[derive(Drop)]
struct Noting<'a> {
    bytes: &'a [u8],
    lens: Vec<usize>,
}

impl Read for Noting<'_> {
    fn read(&mut self, buffer: &mut [u8]) -> io::Result<usize> {
        self.lens.push(buffer.len())?;
        let count = self.bytes.len().min(buffer.len());
        let (given, rest) = self.bytes.split_at(count);
        buffer[..count].copy_from_slice(given);
        self.bytes = rest;
        Ok(count)
    }
}

/// How many bytes each read of some bytes asks for, by so many workers.
fn lens_of_reads(
    rt: &(impl Abort + Threads + Sync),
    alloc: Global,
    workers: u32,
    bytes: &[u8],
) -> Vec<usize> {
    let mut reader = Noting {
        bytes,
        lens: Vec::new(alloc),
    };
    let read = read_bundle(rt, alloc, workers, &mut Reading::new(&mut reader));
    assert!(rt; read.is_ok());
    reader.lens
}

#[test]
fn reads_ask_for_many_bytes(rt: HostRuntime) {
    let alloc = rt.alloc();
    let bytes = bundle(&rt, alloc, 8_000);
    for workers in [1, 4] {
        let lens = lens_of_reads(&rt, alloc, workers, &bytes);
        let (first, later) = lens.split_first().expect(&rt, "a read");
        assert_row(&rt, workers, *first, 4_096);
        assert!(rt; !later.is_empty());
        for len in later {
            assert_row(&rt, workers, *len, 65_536);
        }
    }
}
