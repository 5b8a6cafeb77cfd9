//! Replaces a file of the machine as a whole. No contract knows what a disk has, or when. So the steps
//! are proved for whoever keeps files, who may keep a log of what was asked, and the machine keeps
//! none. Each body of it here is a line or two, to be read; `.ci/states` ends the program before each
//! step, and has each fail.

ghost use Rattle.std.specs.Prelude.{◌≡◌, ◌∷◌, ℕ, IfOk, List, None, Option, [], is_ok, string_bytes};
ghost use Rattle.hleak.specs.Replacing.{IsPut, IsReplaced, Step, Takes, folder_of as folder_in_which};
ghost use Rattle.hleak.specs.Replacing.{name_beside as beside_of, or_here, to_remove};
ghost use Rattle.hleak.specs.Replacing.{to_rename, to_sync, to_write};

use std::alloc::{AllocError, Global};
use std::fs::{File, OpenOptions};
use std::io::Write;
use std::os::unix::fs::{OpenOptionsExt, PermissionsExt};
use std::path::Path;
use std::{fs, io};

/// Who keeps files.
pub trait Keeper {
    // What it was asked for so far, where that is known.
    ghost steps: { Self → Option (List Step) };

    /// Writes a file of these bytes, which the disk has once this returns.
    fn write_whole(&mut self, name: &str, bytes: &[u8], rights: u32) -> io::Result<()>
        ensures { Takes (steps self.old) (steps self.new)
            (to_write name.now bytes.now (is_ok result) ∷ []) };

    /// Gives a file this name. What had the name before is there no longer.
    fn rename(&mut self, from: &str, to: &str) -> io::Result<()>
        ensures { Takes (steps self.old) (steps self.new)
            (to_rename from.now to.now (is_ok result) ∷ []) };

    /// Brings to the disk which names a folder has.
    fn sync_folder(&mut self, folder: &str) -> io::Result<()>
        ensures { Takes (steps self.old) (steps self.new) (to_sync folder.now (is_ok result) ∷ []) };

    /// Removes a file, if it can.
    fn remove(&mut self, name: &str)
        ensures { Takes (steps self.old) (steps self.new) (to_remove name.now ∷ []) };

    /// The rights of the file of this name, or those of a new file.
    fn rights_of(&self, name: &str) -> u32;
}

/// Has a name hold these bytes: all of them, or what it held before, also where the program or the
/// machine ends meanwhile. They are written to a file beside it, which takes the name once the disk
/// has all of them. Each process has a file of its own there. Where the name doesn't get the bytes, it
/// is removed.
pub fn replace<K: Keeper>(
    alloc: Global,
    keeper: &mut K,
    process: u32,
    name: &str,
    bytes: &[u8],
) -> io::Result<()>
    ensures { IsReplaced (K.steps keeper.old) (K.steps keeper.new) (beside_of name.now process)
        name.now bytes.now result }
{
    let beside = name_beside(alloc, name, process)?;
    if let Err(error) = put(keeper, &beside, name, bytes) {
        keeper.remove(&beside);
        return Err(error);
    }
    keeper.sync_folder(folder_of(name))
}

/// The file beside a name gets these bytes, and then the name.
fn put<K: Keeper>(keeper: &mut K, beside: &str, name: &str, bytes: &[u8]) -> io::Result<()>
    ensures { IsPut (K.steps keeper.old) (K.steps keeper.new) beside.now name.now bytes.now result }
{
    let rights = keeper.rights_of(name);
    keeper.write_whole(beside, bytes, rights)?;
    keeper.rename(beside, name)
}

impl Keeper for HostRuntime {
    ghost steps = { λ _. None };

    fn write_whole(&mut self, name: &str, bytes: &[u8], rights: u32) -> io::Result<()> {
        let mut options = OpenOptions::new();
        options.write(true).create(true).truncate(true).mode(rights);
        let mut file: File = options.open(self, name)?;
        file.write_all(bytes)?;
        file.sync_all()
    }

    fn rename(&mut self, from: &str, to: &str) -> io::Result<()> {
        fs::rename(self, from, to)
    }

    fn sync_folder(&mut self, folder: &str) -> io::Result<()> {
        File::open(self, folder)?.sync_all()
    }

    fn remove(&mut self, name: &str) {
        let _ = fs::remove_file(self, name);
    }

    /// Of each new file the system takes some away (`umask`).
    fn rights_of(&self, name: &str) -> u32 {
        match fs::metadata(self, name) {
            Ok(metadata) => metadata.permissions().mode(),
            Err(_) => 0o666,
        }
    }
}

/// The name of the file beside the one of a name, for this process.
fn name_beside(alloc: Global, name: &str, process: u32) -> Result<String, AllocError>
    ensures { IfOk result (λ beside. string_bytes beside ≡ beside_of name.now process) }
{
    format!(in alloc; "{name}.{process}.new")
}

/// The folder that a name is in.
fn folder_of(name: &str) -> &str
    ensures { result.now ≡ folder_in_which name.now }
{
    match Path::new(name).parent() {
        Some(folder) => or_here(folder.as_str()),
        None => "/",
    }
}

/// The folder of this name, or the one in which the program runs, which has none.
fn or_here(folder: &str) -> &str
    ensures { result.now ≡ or_here folder.now }
{
    if folder.is_empty() { "." } else { folder }
}
