//! Devices that give or take a few bytes, and that fail.

use crate::rows::assert_row;
use htl_device::{Failed, ReadFault, Reading, Sink, Source, Writing, read_whole, write_whole};
use std::alloc::Global;
use std::io;
use std::io::{Read, Write};

/// A reader over memory that gives a few bytes a read and fails at one of its calls. The next call
/// would succeed, so that a read that is tried again silently shows.
#[derive(Drop)]
struct Pieces<'a> {
    bytes: &'a [u8],
    piece: usize,
    calls_left: usize,
}

impl Read for Pieces<'_> {
    fn read(&mut self, buffer: &mut [u8]) -> io::Result<usize> {
        if self.calls_left == 0 {
            self.calls_left = usize::MAX;
            return Err(io::Error::from(io::ErrorKind::Other));
        }
        self.calls_left -= 1;
        let count = self.piece.min(self.bytes.len()).min(buffer.len());
        let (given, rest) = self.bytes.split_at(count);
        buffer[..count].copy_from_slice(given);
        self.bytes = rest;
        Ok(count)
    }
}

/// A writer that takes a few bytes a write into memory, and fails when it holds `most`. The next
/// call would succeed, so that a write that is tried again silently shows.
#[derive(Drop)]
struct Narrow {
    held: Vec<u8>,
    piece: usize,
    most: usize,
}

impl Write for Narrow {
    fn write(&mut self, bytes: &[u8]) -> io::Result<usize> {
        if self.held.len() >= self.most {
            self.most = usize::MAX;
            return Err(io::Error::from(io::ErrorKind::Other));
        }
        let count = self.piece.min(bytes.len());
        self.held.extend_from_slice(&bytes[..count])?;
        Ok(count)
    }

    fn flush(&mut self) -> io::Result<()> {
        Ok(())
    }
}

const TEXT: &[u8] = b"outstanding process=4 count=0\n";

/// What comes of a reader that gives this many bytes a read, and fails after this many calls.
fn read_by(alloc: Global, piece: usize, calls_left: usize) -> Result<Vec<u8>, ReadFault> {
    let mut source = Reading::new(Pieces {
        bytes: TEXT,
        piece,
        calls_left,
    });
    read_whole(alloc, &mut source)
}

#[test]
fn reads_pieces(rt: HostRuntime) {
    for piece in [1, 7, 65_536] {
        let read = read_by(rt.alloc(), piece, 100).expect(&rt, "what is read");
        assert_row(&rt, piece, read.as_slice(), TEXT);
    }
}

#[test]
fn reports_a_failed_read(rt: HostRuntime) {
    let read = read_by(rt.alloc(), 7, 1);
    assert!(rt; matches!(read, Err(ReadFault::Failed)));
}

/// What comes of a writer that takes this many bytes a write and fails when it holds `most`, and the
/// bytes that it took.
fn write_by(alloc: Global, piece: usize, most: usize) -> (Result<(), Failed>, Vec<u8>) {
    let mut narrow = Narrow {
        held: Vec::new(alloc),
        piece,
        most,
    };
    let mut sink = Writing::new(&mut narrow);
    let written = write_whole(&mut sink, TEXT);
    (written, narrow.held)
}

#[test]
fn writes_pieces(rt: HostRuntime) {
    let (written, held) = write_by(rt.alloc(), 1, 100);
    let found = (written, held.as_slice());
    assert_row(&rt, "a byte a write", found, (Ok(()), TEXT));
}

#[test]
fn reports_a_failed_write(rt: HostRuntime) {
    for (piece, went) in [(10, "outstandin"), (0, "")] {
        let (written, held) = write_by(rt.alloc(), piece, 10);
        let found = (written, held.as_slice());
        assert_row(&rt, piece, found, (Err(Failed), went.as_bytes()));
    }
}
