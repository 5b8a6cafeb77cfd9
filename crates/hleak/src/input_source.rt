//! The inputs of the program as sources, of which several workers may read parts.

ghost use Rattle.std.specs.Prelude.{◌≡◌, is_some};
ghost use Rattle.htl_device.specs.States.{fresh};
ghost use Rattle.hleak.specs.Stages.{is_unread};

use crate::disk::Disk;
use crate::input::Input;
use htl_device::{Failed, Parted, Reading, Source};
use std::io::Read;

/// An input of the program as a source.
#[derive(Drop)]
pub struct InputSource<'a, D: Disk> {
    reading: Reading<Input<'a, D>>,
    /// How often another reader was asked for.
    tails: u64,
}

impl<'a, D: Disk> InputSource<'a, D> {
    /// The input as a source that was not read yet.
    pub fn new(input: Input<'a, D>) -> InputSource<'a, D>
        ensures { ⟦<InputSource<'a, D> as Source>⟧.state result
            ≡ fresh (⟦<Input<'a, D> as Read>⟧.remaining input.entry) }
    {
        InputSource {
            reading: Reading::new(input),
            tails: 0,
        }
    }
}

impl<'a, D: Disk> Source for InputSource<'a, D> {
    ghost state = { λ s. record (⟦<Reading<Input<'a, D>> as Source>⟧.state s.reading) {
      tails = s.tails;
    } };

    fn ended(&self) -> bool {
        self.reading.ended()
    }

    fn read(&mut self, buffer: &mut [u8]) -> Result<usize, Failed> {
        self.reading.read(buffer)
    }
}

/// A file can be opened once more for each part.
impl<'a, D: Disk> Parted for InputSource<'a, D>
where
    D::File: Send,
{
    type Tail = D::File;

    ghost is_parted = { λ s. is_unread s.reading.reader.file.stage s.reading.reader.file.len };

    fn len(&self) -> Option<u64> {
        let file = &self.reading.reader.file;
        if !file.is_unread() {
            return None;
        }
        file.len()
    }

    fn tail(&mut self, offset: u64) -> Option<D::File> {
        self.tails = self.tails.saturating_add(1);
        let file = &self.reading.reader.file;
        if !file.is_unread() {
            return None;
        }
        file.tail(offset).ok()
    }

    fn skip(&mut self, len: u64) {
        if self.reading.reader.file.is_unread() {
            self.reading.reader.skip(len);
        }
    }
}
