//! A file that is open only while it is read.

ghost use Rattle.std.specs.Prelude.{◌≡◌, ◌≤◌, ◌↔◌, IfOk, IfSome, OnErr, OnOk, false, length, true};
ghost use Rattle.std.specs.Io.KnownBytes.{ReadConsumes};
ghost use Rattle.htl_device.specs.Devices.{tail_of};
ghost use Rattle.hleak.specs.Disks.{IsAnswered};
ghost use Rattle.hleak.specs.Files.{IsLenBehind, held_by, left_of};
ghost use Rattle.hleak.specs.Stages.{IsBegun, IsStageAfter, is_unread};

use crate::disk::{Disk, Found};
use std::alloc::Global;
use std::io;
use std::io::Read;

/// How far the reading of a file has come.
#[derive(Drop)]
pub enum Stage<F> {
    /// Nothing was read, and the file isn't open.
    Found,
    Open(F),
    /// The end was found, and the file isn't open any more.
    Ended,
}

/// What a file is opened by.
#[derive(Drop)]
pub enum Place {
    Named(String),
    /// Standard input, where it is a regular file.
    Standard,
}

impl Place {
    /// The file from an offset on.
    fn open<D: Disk>(&self, disk: D, offset: u64) -> io::Result<D::File>
        ensures { IfOk result (λ file.
            D.File.remaining file ≡ tail_of offset (held_by (D.known disk) self.now)) }
    {
        match self {
            Place::Named(name) => disk.open(name, offset),
            Place::Standard => disk.open_standard(offset),
        }
    }
}

/// A regular file, which is opened at its first read and closed once its end is found. Or a stream,
/// which is open from the first.
#[derive(Drop)]
pub struct InputFile<D: Disk> {
    disk: D,
    place: Place,
    /// The length of a regular file as it was found, less the skipped bytes.
    len: Option<u64>,
    /// How many bytes in front aren't read.
    skipped: u64,
    stage: Stage<D::File>,
    ghost fits: { IsLenBehind len skipped (held_by (D.known disk) place) },
}

impl<D: Disk> InputFile<D> {
    /// The file of this name, where it can be opened. It is closed again until it is read, so that
    /// there may be more files than may be open at once. A stream stays open.
    pub fn find(disk: D, alloc: Global, name: &str) -> io::Result<InputFile<D>>
        ensures answered { IsAnswered (D.known disk) name.now result }
        ensures bytes { IfOk result (λ found. ⟦<InputFile<D> as Read>⟧.remaining found
            ≡ (D.known disk).holds name.now) }
        ensures closed { IfOk result (λ found. IfSome (D.is_stream disk name.now)
            (λ is_stream. found.stage ≡ Stage.Found ↔ is_stream ≡ false)) }
    {
        let Found {
            file,
            len,
            is_stream,
        } = disk.find(name)?;
        let place = Place::Named(String::from_str(alloc, name)?);
        let stage = if is_stream {
            Stage::Open(file)
        } else {
            Stage::Found
        };
        Ok(InputFile {
            disk,
            place,
            len,
            skipped: 0,
            stage,
        })
    }

    /// Standard input. It is opened again where it is a regular file of which nothing was read.
    pub fn standard(disk: D) -> InputFile<D>
        ensures { ⟦<InputFile<D> as Read>⟧.remaining result ≡ (D.known disk).standard }
    {
        match disk.standard_len() {
            Some(len) => InputFile {
                disk,
                place: Place::Standard,
                len: Some(len),
                skipped: 0,
                stage: Stage::Found,
            },
            None => InputFile::standard_stream(disk),
        }
    }

    /// Standard input as a stream, read from where it stands.
    pub fn standard_stream(disk: D) -> InputFile<D>
        ensures { ⟦<InputFile<D> as Read>⟧.remaining result ≡ (D.known disk).standard }
    {
        InputFile {
            disk,
            place: Place::Standard,
            len: None,
            skipped: 0,
            stage: Stage::Open(disk.standard()),
        }
    }

    /// The length of a regular file as it was found, less the skipped bytes.
    pub fn len(&self) -> Option<u64>
        ensures { result ≡ self.now.len }
    {
        self.len
    }

    /// Whether it is a regular file of which nothing was read.
    pub fn is_unread(&self) -> bool
        ensures { result ≡ is_unread self.now.stage self.now.len }
    {
        matches!(self.stage, Stage::Found) && self.len.is_some()
    }

    /// The file from an offset on behind what is skipped, opened once more.
    pub fn tail(&self, offset: u64) -> io::Result<D::File>
        requires { is_unread self.now.stage self.now.len ≡ true }
        ensures { IfOk result (λ file. D.File.remaining file
            ≡ tail_of offset (⟦<InputFile<D> as Read>⟧.remaining self.now)) }
    {
        self.place
            .open(self.disk, self.skipped.saturating_add(offset))
    }

    /// Skips bytes of a regular file of which nothing was read: reading begins behind them.
    pub fn skip(&mut self, len: u64)
        requires { is_unread self.old.stage self.old.len ≡ true }
        ensures { ⟦<InputFile<D> as Read>⟧.remaining self.new
            ≡ tail_of len (⟦<InputFile<D> as Read>⟧.remaining self.old) }
    {
        let left = self.len.map(|left| left.saturating_sub(len));
        self.skipped = self.skipped.saturating_add(len);
        self.len = left;
    }

    /// Opens the file, where that wasn't done.
    fn begin(&mut self) -> io::Result<()>
        ensures begun { OnOk result (IsBegun self.old.stage self.new.stage) }
        ensures refused { OnErr result ((self.old.stage ≡ Stage.Found)
            × (self.new.stage ≡ Stage.Found)) }
        ensures bytes { ⟦<InputFile<D> as Read>⟧.remaining self.new
            ≡ ⟦<InputFile<D> as Read>⟧.remaining self.old }
        ensures same { (self.new.place ≡ self.old.place) × (self.new.len ≡ self.old.len)
            × (self.new.skipped ≡ self.old.skipped) }
    {
        if let Stage::Found = self.stage {
            self.stage = Stage::Open(self.place.open(self.disk, self.skipped)?);
        }
        Ok(())
    }

    /// Reads on. The first read opens the file, and the one that finds its end closes it: from then on
    /// there are no bytes, and the file isn't opened again.
    fn read_on(&mut self, buffer: &mut [u8]) -> io::Result<usize>
        ensures bound { IfOk result (λ count. count ≤ length buffer.new) }
        ensures len { length buffer.new ≡ length buffer.old }
        ensures bytes { ReadConsumes (⟦<InputFile<D> as Read>⟧.remaining self.old)
            (⟦<InputFile<D> as Read>⟧.remaining self.new) result buffer.new }
        ensures stage { IfOk result (λ count.
            IsStageAfter self.old.stage (length buffer.old) count self.new.stage) }
        ensures same { (self.new.place ≡ self.old.place) × (self.new.len ≡ self.old.len)
            × (self.new.skipped ≡ self.old.skipped) }
    {
        self.begin()?;
        let Stage::Open(file) = &mut self.stage else {
            return Ok(0);
        };
        let count = file.read(buffer)?;
        if count == 0 && !buffer.is_empty() {
            self.stage = Stage::Ended;
        }
        Ok(count)
    }
}

impl<D: Disk> Read for InputFile<D> {
    ghost remaining = { λ s. left_of D.File.remaining (held_by (D.known s.disk) s.place)
        s.skipped s.stage };

    fn read(&mut self, buffer: &mut [u8]) -> io::Result<usize> {
        self.read_on(buffer)
    }
}
