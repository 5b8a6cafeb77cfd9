//! What the program opens: the files and the standard input of a disk.

ghost use Rattle.std.specs.Prelude.{◌≡◌, Err, IfErr, IfOk, None, Ok};
ghost use Rattle.std_io.specs.IoError.{error_kind};
ghost use Rattle.htl_device.specs.States.{fresh};
ghost use Rattle.hleak.specs.Openings.{open_fault};

use crate::disk::Disk;
use crate::file::InputFile;
use crate::input::Input;
use crate::input_source::InputSource;
use crate::progress::Progress;
use crate::shown::Shown;
use crate::voice::Voice;
use htl_device::Source;
use htl_world::{OpenFault, World};
use std::io;
use std::io::Read;

/// What the program opens. What is read of it is counted where somebody watches, and why something is
/// refused is noted.
#[derive(Clone, Copy)]
pub struct Machine<'p, D: Disk> {
    pub disk: D,
    pub voice: Voice<'p>,
    /// Whether a person types standard input.
    pub is_typed: bool,
}

impl<'p, D: Disk> Machine<'p, D> {
    /// Says to a person who watches that a pipe of this name is waited for: opening it lasts until
    /// somebody writes to it. Those of the process itself, as the shell's `<(..)`, are open already.
    fn await_writer(&self, name: &str) {
        let is_open = name.starts_with("/dev/") || name.starts_with("/proc/");
        if self.voice.progress.is_some() && !is_open && self.disk.is_pipe(name) {
            let _ = eprintln!(self.voice.rt; "hleak: waiting for {}", Shown::name(name));
        }
    }

    /// What was opened, read or written, or why nothing was, which is noted.
    fn opened<T: Drop>(&self, attempt: io::Result<T>) -> Result<T, OpenFault>
        ensures ok { IfOk attempt (λ it. result ≡ Ok it) }
        ensures err { IfErr attempt (λ error. result ≡ Err (open_fault (error_kind error))) }
    {
        match attempt {
            Ok(it) => {
                self.voice.refusal.forget();
                Ok(it)
            }
            Err(error) => {
                self.voice.refusal.note(&error);
                Err(fault_of(&error))
            }
        }
    }

    /// A source of a file that was just opened.
    fn source(&self, file: InputFile<D>, progress: Option<&'p Progress>) -> InputSource<'p, D>
        ensures { ⟦<InputSource<'p, D> as Source>⟧.state result
            ≡ fresh (⟦<InputFile<D> as Read>⟧.remaining file) }
    {
        let len = file.len();
        InputSource::new(Input::new(file, len, progress, self.voice.refusal))
    }
}

impl<'p, D: Disk> World for Machine<'p, D>
where
    D::File: Send,
{
    type Input = InputSource<'p, D>;

    // It keeps no log of what it was asked for.
    ghost state = { λ machine. record { known = D.known machine.disk; asked = None } };

    fn open(&mut self, name: &str) -> Result<InputSource<'p, D>, OpenFault> {
        self.await_writer(name);
        let file = self.opened(InputFile::find(self.disk, self.voice.rt.alloc(), name))?;
        Ok(self.source(file, self.voice.progress))
    }

    fn read(&mut self, name: &str) -> Result<Vec<u8>, OpenFault> {
        self.await_writer(name);
        self.opened(self.disk.read(name))
    }

    fn write(&mut self, name: &str, bytes: &[u8]) -> Result<(), OpenFault> {
        self.opened(self.disk.write(name, bytes))
    }

    /// It is counted where somebody watches. What a person types is not.
    fn standard_input(&mut self) -> InputSource<'p, D> {
        let progress = self.voice.progress.filter(|_| !self.is_typed);
        self.source(InputFile::standard(self.disk), progress)
    }

    fn questions(&mut self) -> InputSource<'p, D> {
        self.source(InputFile::standard_stream(self.disk), None)
    }

    fn can_be_read_again(&self, name: &str) -> bool {
        self.disk.can_be_read_again(name)
    }

    fn standard_can_be_read_again(&self) -> bool {
        self.disk.standard_len().is_some()
    }
}

/// Why something could not be opened, read or written.
fn fault_of(error: &io::Error) -> OpenFault
    ensures { result ≡ open_fault (error_kind error.now) }
{
    if error.kind() == io::ErrorKind::OutOfMemory {
        OpenFault::NoMemory
    } else {
        OpenFault::Refused
    }
}
