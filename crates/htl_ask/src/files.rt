//! Files that lines of a dialogue name.

ghost use Rattle.std.specs.Prelude.{IfOk, map, string_bytes};
ghost use Rattle.htl_world.specs.Rounds.{Asks};
ghost use Rattle.htl_world.specs.Worlds.{change};
ghost use Rattle.htl_ask.specs.Loads.{AddsFiles, FoldsFiles, ReadsFiles};
ghost use Rattle.htl_ask.specs.LineRounds.{AsksNames};

use crate::kept::Kept;
use htl_command::Dialogue;
use htl_event::NoMemory;
use htl_main::{Added, Folded, Loaded, Refused, RunFault, add, fold};
use htl_world::{World, open_files};
use std::alloc::Global;
use std::thread::Threads;

/// How a dialogue's files are read, and which it begins with.
#[derive(Clone, Copy)]
pub struct Files<'a, Rt> {
    /// What starts the threads that read.
    pub rt: &'a Rt,
    /// The states and files at the beginning, the table of symbols, and how all files are read.
    pub dialogue: &'a Dialogue,
}

impl<Rt: Threads + Sync> Files<'_, Rt> {
    /// Opens files and adds their segments to what is kept. If memory is refused while segments are
    /// folded, it isn't known which of them were taken. Then the dialogue ends.
    pub(crate) fn read<W: World>(
        &self,
        alloc: Global,
        world: &mut W,
        kept: &mut Kept,
        names: &[String],
    ) -> Result<Result<Added, Refused>, NoMemory>
        ensures read { IfOk result (ReadsFiles (W.state world.old).known
            self.now.dialogue.now.setting kept.old (map string_bytes names.now) kept.new) }
        ensures asked { Asks (change (W.state world.old) (W.state world.new))
            (AsksNames (map string_bytes names.now)) }
    {
        match kept {
            Kept::Case(loaded) => Ok(self.add(alloc, world, loaded, names)),
            Kept::State(folded) => match self.fold(alloc, world, folded, names) {
                Err(
                    Refused {
                        fault: RunFault::Memory,
                        ..
                    },
                ) => Err(NoMemory),
                ended => Ok(ended),
            },
        }
    }

    /// Opens files and adds their segments to what was loaded.
    fn add<W: World>(
        &self,
        alloc: Global,
        world: &mut W,
        loaded: &mut Loaded,
        names: &[String],
    ) -> Result<Added, Refused>
        ensures added { AddsFiles (W.state world.old).known self.now.dialogue.now.setting loaded.old
            (map string_bytes names.now) loaded.new result }
        ensures asked { Asks (change (W.state world.old) (W.state world.new))
            (AsksNames (map string_bytes names.now)) }
    {
        let mut inputs = open_files(alloc, world, names)?;
        add(self.rt, alloc, self.dialogue.setting, loaded, &mut inputs)
    }

    /// Opens files and folds their segments behind what was folded.
    fn fold<W: World>(
        &self,
        alloc: Global,
        world: &mut W,
        folded: &mut Folded,
        names: &[String],
    ) -> Result<Added, Refused>
        ensures folded { FoldsFiles (W.state world.old).known self.now.dialogue.now.setting
            folded.old (map string_bytes names.now) folded.new result }
        ensures asked { Asks (change (W.state world.old) (W.state world.new))
            (AsksNames (map string_bytes names.now)) }
    {
        let mut inputs = open_files(alloc, world, names)?;
        fold(self.rt, alloc, self.dialogue.setting, folded, &mut inputs)
    }
}
