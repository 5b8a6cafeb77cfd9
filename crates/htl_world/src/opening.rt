//! Opens the inputs of a run, and reads its table of symbols.

ghost use Rattle.std.specs.Prelude.{◌≡◌, map, option_copied, option_map, string_bytes};
ghost use Rattle.htl_world.specs.Openings.{AreOpened, IsTableRead, OpensAll, OpensInputsOf};
ghost use Rattle.htl_world.specs.Openings.{OpensNamed};
ghost use Rattle.htl_world.specs.Rounds.{unopened};
ghost use Rattle.htl_world.specs.Worlds.{change};

use crate::world::{OpenFault, World};
use htl_inputs::RunFault;
use std::alloc::Global;

/// Opens the files, or standard input where there is none, and then reads the table of symbols.
/// `inputs` has then what was opened.
pub fn open_all<W: World>(
    alloc: Global,
    world: &mut W,
    names: &[String],
    symbols: Option<&String>,
    inputs: &mut Vec<W::Input>,
) -> Result<Option<Vec<u8>>, RunFault>
    ensures { OpensAll (change (W.state world.old) (W.state world.new)) names.now
        (option_copied symbols.entry) (map W.Input.state inputs.new.items) result }
{
    open_inputs(alloc, world, names, inputs)?;
    read_table(world, symbols)
}

/// Opens the files, and no standard input where there is none, and then reads the table of symbols.
/// `inputs` has then what was opened.
pub fn open_named<W: World>(
    alloc: Global,
    world: &mut W,
    names: &[String],
    symbols: Option<&String>,
    inputs: &mut Vec<W::Input>,
) -> Result<Option<Vec<u8>>, RunFault>
    ensures { OpensNamed (change (W.state world.old) (W.state world.new)) names.now
        (option_copied symbols.entry) (map W.Input.state inputs.new.items) result }
{
    inputs.clear();
    *inputs = open_files(alloc, world, names)?;
    read_table(world, symbols)
}

/// Opens the files of the names in order, or standard input where there is none. The first that is
/// refused is reported. `inputs` has then what was opened, and nothing of what it had.
pub fn open_inputs<W: World>(
    alloc: Global,
    world: &mut W,
    names: &[String],
    inputs: &mut Vec<W::Input>,
) -> Result<(), RunFault>
    ensures { OpensInputsOf (change (W.state world.old) (W.state world.new)) names.now
        (map W.Input.state inputs.new.items) result }
{
    inputs.clear();
    if names.is_empty() {
        inputs.push(world.standard_input())?;
        return Ok(());
    }
    *inputs = open_files(alloc, world, names)?;
    Ok(())
}

/// Opens the files of the names in order. The first that is refused is reported.
pub fn open_files<W: World>(
    alloc: Global,
    world: &mut W,
    names: &[String],
) -> Result<Vec<W::Input>, RunFault>
    ensures { AreOpened W.Input.state (change (W.state world.old) (W.state world.new))
        (map string_bytes names.now) result }
{
    let mut inputs = Vec::new(alloc);
    for (place, name) in names.iter().enumerate() {
        match world.open(name) {
            Ok(input) => inputs.push(input)?,
            Err(why) => return Err(unopened(place as u64, why)),
        }
    }
    Ok(inputs)
}

/// What is reported of an input that could not be opened.
fn unopened(place: u64, why: OpenFault) -> RunFault
    ensures { result ≡ unopened place why }
{
    match why {
        OpenFault::Refused => RunFault::Read { input: place },
        OpenFault::NoMemory => RunFault::Memory,
    }
}

/// Reads the table of symbols, if one is named.
fn read_table<W: World>(world: &mut W, name: Option<&String>) -> Result<Option<Vec<u8>>, RunFault>
    ensures { IsTableRead (change (W.state world.old) (W.state world.new))
        (option_copied name.entry) result }
{
    let Some(name) = name else {
        return Ok(None);
    };
    match world.read(name) {
        Ok(bytes) => Ok(Some(bytes)),
        Err(OpenFault::NoMemory) => Err(RunFault::Memory),
        Err(OpenFault::Refused) => Err(RunFault::SymbolsRead),
    }
}

/// The bytes of the table of symbols, as a slice.
pub fn as_bytes(table: &Option<Vec<u8>>) -> Option<&[u8]>
    ensures { option_copied result ≡ option_map (λ v. v.items) table.now }
{
    match table {
        Some(bytes) => Some(bytes.as_slice()),
        None => None,
    }
}
