//! What the program reads: files and standard input, as readers.

ghost use Rattle.std.specs.Prelude.{◌≡◌, ◌⊎◌, None, option_map, true};
ghost use Rattle.htl_device.specs.Devices.{tail_of};
ghost use Rattle.hleak.specs.Stages.{is_unread};

use crate::disk::Disk;
use crate::file::InputFile;
use crate::progress::Progress;
use crate::reason::LastRefusal;
use std::io;
use std::io::Read;

/// An input of the program. It gives the bytes of its file, and counts them if progress is shown. Why
/// a read fails is noted.
#[derive(Drop)]
pub struct Input<'a, D: Disk> {
    pub file: InputFile<D>,
    progress: Option<&'a Progress>,
    refusal: &'a LastRefusal,
}

impl<'a, D: Disk> Input<'a, D> {
    /// A file of which nothing was read, and the number of its bytes, where it is known.
    pub fn new(
        file: InputFile<D>,
        len: Option<u64>,
        progress: Option<&'a Progress>,
        refusal: &'a LastRefusal,
    ) -> Input<'a, D>
        ensures file { result.file ≡ file }
        ensures watched { result.progress ≡ progress.entry }
    {
        if let Some(progress) = progress {
            progress.open(len);
        }
        Input {
            file,
            progress,
            refusal,
        }
    }

    /// Skips bytes of a file of which nothing was read, and counts them.
    pub fn skip(&mut self, len: u64)
        requires { is_unread self.old.file.stage self.old.file.len ≡ true }
        ensures bytes { ⟦<Input<'a, D> as Read>⟧.remaining self.new
            ≡ tail_of len (⟦<Input<'a, D> as Read>⟧.remaining self.old) }
        ensures watched { self.new.progress ≡ self.old.progress }
    {
        self.file.skip(len);
        if let Some(progress) = self.progress {
            progress.count(len);
        }
    }
}

impl<'a, D: Disk> Read for Input<'a, D> {
    ghost remaining = { λ s. ⟦<InputFile<D> as Read>⟧.remaining s.file };

    fn read(&mut self, buffer: &mut [u8]) -> io::Result<usize> {
        let read = self.file.read(buffer);
        if let Err(error) = &read {
            self.refusal.note(error);
        }
        if let Some(progress) = self.progress {
            match read {
                Ok(0) | Err(_) => progress.end(),
                Ok(count) => progress.count(count as u64),
            }
        }
        read
    }
}
