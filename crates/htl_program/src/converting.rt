//! The runs that print the segments of files as text, make segments of texts, and fold segments to a
//! state, in a world.

ghost use Rattle.std.specs.Prelude.{◌≡◌, ℕ, false, map};
ghost use Rattle.htl_convert.specs.Dumps.{IsDumpedFrom};
ghost use Rattle.htl_convert.specs.Encodings.{IsEncodedFrom};
ghost use Rattle.htl_main.specs.StateRuns.{IsFoldedFrom};
ghost use Rattle.htl_world.specs.Worlds.{IsAbsentAt, change};
ghost use Rattle.htl_program.specs.Messages.{alone};
ghost use Rattle.htl_program.specs.Outcomes.{IsConverted};

use htl_command::{InputForm, Setting};
use htl_convert::{dump_from, encode_from};
use htl_device::Sink;
use htl_inputs::{CutInputs, RunFault};
use htl_main::{Added, Refused, fold_from};
use htl_world::{World, open_inputs};
use std::alloc::Global;
use std::thread::Threads;

/// Prints the segments of the files as text, or those of standard input where no file is named.
/// Returns the inputs that end within a segment, if that is allowed.
///
/// `inputs` has then what was opened, as far as it was read.
pub fn dump<W: World, O: Sink>(
    alloc: Global,
    world: &mut W,
    form: InputForm,
    files: &[String],
    inputs: &mut Vec<W::Input>,
    out: &mut O,
) -> Result<Option<CutInputs>, RunFault>
    requires { (O.state out.old).failed ≡ false }
    ensures dumped { IsConverted (λ fault. fault) (IsDumpedFrom form)
        (change (W.state world.old) (W.state world.new)) (map W.Input.state inputs.new.items)
        files.now (O.state out.old) (O.state out.new) result }
    ensures untouched { (place : ℕ) → IsAbsentAt (W.state world.old).known files.now place
        → out.new ≡ out.old }
{
    open_inputs(alloc, world, files, inputs)?;
    dump_from(alloc, form, inputs, out)
}

/// Writes the segments that the texts of the files encode, or the text of standard input where no file
/// is named.
///
/// `inputs` has then what was opened, as far as it was read.
pub fn encode<W: World, O: Sink>(
    alloc: Global,
    world: &mut W,
    hex: bool,
    files: &[String],
    inputs: &mut Vec<W::Input>,
    out: &mut O,
) -> Result<(), RunFault>
    requires { (O.state out.old).failed ≡ false }
    ensures { IsConverted (λ fault. fault) (IsEncodedFrom hex)
        (change (W.state world.old) (W.state world.new)) (map W.Input.state inputs.new.items)
        files.now (O.state out.old) (O.state out.new) result }
{
    open_inputs(alloc, world, files, inputs)?;
    encode_from(alloc, hex, inputs, out)
}

/// Folds the segments of the files, or those of standard input where no file is named, and writes the
/// state that this gives. Returns what the inputs added up to.
///
/// `inputs` has then what was opened, as far as it was read.
pub fn fold<Rt: Threads + Sync, W: World, O: Sink>(
    rt: &Rt,
    alloc: Global,
    world: &mut W,
    setting: Setting,
    files: &[String],
    inputs: &mut Vec<W::Input>,
    out: &mut O,
) -> Result<Added, Refused>
    requires { (O.state out.old).failed ≡ false }
    ensures { IsConverted alone (IsFoldedFrom setting)
        (change (W.state world.old) (W.state world.new)) (map W.Input.state inputs.new.items)
        files.now (O.state out.old) (O.state out.new) result }
{
    open_inputs(alloc, world, files, inputs)?;
    fold_from(rt, alloc, setting, inputs, out)
}
