//! The files of the machine and its standard input. No contract knows what these hold. So what the
//! program does with them is written for every disk, whose clauses speak of the bytes where they are
//! known, and the machine is a disk of which nothing is known. Each body of it here is a line or two,
//! to be read; `.ci/statuses`, `.ci/picks`, `.ci/ask` and `.ci/states` test them.

ghost use Rattle.std.specs.Prelude.{◌≡◌, ℕ, Bool, IfOk, IfSome, List, None, Option, false, is_some};
ghost use Rattle.std.specs.Prelude.{length, true};
ghost use Rattle.htl_device.specs.Devices.{tail_of};
ghost use Rattle.htl_world.specs.Worlds.{Known};
ghost use Rattle.hleak.specs.Disks.{IsAnswered, IsFound};
ghost use Rattle.hleak.specs.Openings.{IsKnownLen, IsStream};

use crate::replacing::replace;
use std::fs::{File, Metadata};
use std::io::{Read, Seek, SeekFrom, Stdin};
use std::os::unix::fs::FileTypeExt;
use std::{fs, io, process};

/// A file that was just opened, and what the system says of it.
#[derive(Drop)]
pub struct Found<F> {
    pub file: F,
    /// The number of its bytes, where it is a regular file.
    pub len: Option<u64>,
    /// Whether it gives other bytes each time that it is opened, as a pipe or a terminal does.
    pub is_stream: bool,
}

/// Where files are opened by their names, and replaced.
pub trait Disk: Copy {
    /// An open file, or standard input.
    type File: Read + Drop;

    // What is known of it.
    ghost known: { Self → Known };

    // Whether what a name stands for gives other bytes each time that it is opened, where that is known.
    ghost is_stream: { Self → List ℕ → Option Bool };

    /// The file of this name, of which nothing was read.
    fn find(&self, name: &str) -> io::Result<Found<Self::File>>
        ensures answered { IsAnswered (known self.now) name.now result }
        ensures found { IfOk result (IsFound Self.File.remaining ((known self.now).holds name.now)
            (is_stream self.now name.now)) };

    /// The regular file of this name, to be read from an offset on.
    fn open(&self, name: &str, offset: u64) -> io::Result<Self::File>
        ensures { IfOk result (λ file.
            Self.File.remaining file ≡ tail_of offset ((known self.now).holds name.now)) };

    /// All bytes of this name.
    fn read(&self, name: &str) -> io::Result<Vec<u8>>
        ensures answered { IsAnswered (known self.now) name.now result }
        ensures bytes { IfOk result (λ read. IfSome ((known self.now).holds name.now)
            (λ bytes. read.items ≡ bytes)) };

    /// Has a name hold these bytes: all of them, or what it held before, whatever happens meanwhile. Of
    /// a name that may be written it isn't known what it holds.
    fn write(&self, name: &str, bytes: &[u8]) -> io::Result<()>;

    /// Standard input, to be read from where it stands.
    fn standard(&self) -> Self::File
        ensures { Self.File.remaining result ≡ (known self.now).standard };

    /// The number of bytes of standard input, where it is a regular file of which nothing was read
    /// and that can be opened again.
    fn standard_len(&self) -> Option<u64>
        ensures len { IfSome result (λ len. IfSome (known self.now).standard
            (λ bytes. length bytes ≡ len)) }
        ensures again { is_some result ≡ true
            → (known self.now).standard_can_be_read_again ≡ true };

    /// The regular file that is standard input, opened again, to be read from an offset on.
    fn open_standard(&self, offset: u64) -> io::Result<Self::File>
        ensures { IfOk result (λ file.
            Self.File.remaining file ≡ tail_of offset (known self.now).standard) };

    /// Whether a name gives the same bytes, as fast, when it is opened again.
    fn can_be_read_again(&self, name: &str) -> bool
        ensures { result ≡ true → (known self.now).can_be_read_again name.now ≡ true };

    /// Whether the name is that of a pipe.
    fn is_pipe(&self, name: &str) -> bool;
}

/// What standard input is, as the system names it.
const STANDARD: &str = "/dev/stdin";

/// A file of the machine, or its standard input.
#[derive(Drop)]
pub enum MachineFile {
    Named(File),
    Standard(Stdin),
}

impl Read for MachineFile {
    fn read(&mut self, buffer: &mut [u8]) -> io::Result<usize> {
        match self {
            MachineFile::Named(file) => file.read(buffer),
            MachineFile::Standard(standard) => standard.read(buffer),
        }
    }
}

impl Disk for HostRuntime {
    type File = MachineFile;

    ghost known = { λ _. record {
      holds = λ _. None;
      is_absent = λ _. false;
      can_be_read_again = λ _. true;
      standard = None;
      standard_can_be_read_again = true;
    } };

    ghost is_stream = { λ _ _. None };

    fn find(&self, name: &str) -> io::Result<Found<MachineFile>> {
        let file = File::open(self, name)?;
        let metadata = file.metadata();
        Ok(Found {
            len: known_len(&metadata),
            is_stream: is_stream(&metadata),
            file: MachineFile::Named(file),
        })
    }

    fn open(&self, name: &str, offset: u64) -> io::Result<MachineFile> {
        let mut file = File::open(self, name)?;
        file.seek(SeekFrom::Start(offset))?;
        Ok(MachineFile::Named(file))
    }

    fn read(&self, name: &str) -> io::Result<Vec<u8>> {
        fs::read(self, name)
    }

    fn write(&self, name: &str, bytes: &[u8]) -> io::Result<()> {
        let mut keeper = *self;
        let process = process::id(self.process());
        replace(self.alloc(), &mut keeper, process, name, bytes)
    }

    fn standard(&self) -> MachineFile {
        MachineFile::Standard(self.stdin())
    }

    /// Where the system doesn't say how far it was read, it isn't opened again.
    fn standard_len(&self) -> Option<u64> {
        let len = known_len(&fs::metadata(self, STANDARD))?;
        let position = fs::read_to_string(self, "/proc/self/fdinfo/0").ok()?;
        if !position.starts_with("pos:\t0\n") || File::open(self, STANDARD).is_err() {
            return None;
        }
        Some(len)
    }

    fn open_standard(&self, offset: u64) -> io::Result<MachineFile> {
        self.open(STANDARD, offset)
    }

    fn can_be_read_again(&self, name: &str) -> bool {
        known_len(&fs::metadata(self, name)).is_some()
    }

    fn is_pipe(&self, name: &str) -> bool {
        match fs::metadata(self, name) {
            Ok(metadata) => metadata.file_type().is_fifo(),
            Err(_) => false,
        }
    }
}

/// How many bytes a file has. A pipe, a terminal or the like doesn't say.
fn known_len(metadata: &io::Result<Metadata>) -> Option<u64>
    ensures { IsKnownLen metadata.now result }
{
    match metadata {
        Ok(metadata) if metadata.is_file() => Some(metadata.len()),
        _ => None,
    }
}

/// Whether a file gives other bytes each time that it is opened. A folder gives none.
fn is_stream(metadata: &io::Result<Metadata>) -> bool
    ensures { IsStream metadata.now result }
{
    match metadata {
        Ok(metadata) => !metadata.is_file() && !metadata.is_dir(),
        Err(_) => true,
    }
}
