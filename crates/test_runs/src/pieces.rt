//! A reader that gives a few bytes a read, and fails.

use std::io;
use std::io::Read;

/// A reader over memory that gives a few bytes a read, and fails once after so many reads. The next
/// read would succeed, so that a read that is silently tried again shows.
#[derive(Drop)]
pub struct Pieces<'a> {
    bytes: &'a [u8],
    piece: usize,
    reads_left: usize,
}

impl<'a> Pieces<'a> {
    pub fn new(bytes: &'a [u8], piece: usize, reads_left: usize) -> Pieces<'a> {
        Pieces {
            bytes,
            piece,
            reads_left,
        }
    }
}

impl Read for Pieces<'_> {
    fn read(&mut self, buffer: &mut [u8]) -> io::Result<usize> {
        if self.reads_left == 0 {
            self.reads_left = usize::MAX;
            return Err(io::Error::from(io::ErrorKind::Other));
        }
        self.reads_left -= 1;
        let count = self.piece.min(self.bytes.len()).min(buffer.len());
        let (given, rest) = self.bytes.split_at(count);
        buffer[..count].copy_from_slice(given);
        self.bytes = rest;
        Ok(count)
    }
}
