//! The run that folds sources and writes the state of what was folded.

ghost use Rattle.std.specs.Prelude.{◌≡◌, false, map};
ghost use Rattle.htl_device.specs.States.{AreOpen};
ghost use Rattle.htl_main.specs.StateRuns.{IsFoldedFrom};

use crate::folding::{Folded, load_folded, state_bytes};
use crate::loading::Added;
use crate::refused::Refused;
use htl_command::Setting;
use htl_device::{Parted, Sink};
use htl_inputs::write_lines;
use std::alloc::Global;
use std::thread::Threads;

/// Reads all sources, folds their segments, and writes the state of what was folded, as bytes in the
/// format HLA1.
///
/// Faults of the sources are those of a dialogue that begins over them. Nothing is written before
/// all bytes of the state are made; after a failed write some first part of them went out.
pub fn fold_from<Rt: Threads + Sync, R: Parted, W: Sink>(
    rt: &Rt,
    alloc: Global,
    setting: Setting,
    inputs: &mut [R],
    out: &mut W,
) -> Result<Added, Refused>
    requires ready { AreOpen (map R.state inputs.old) }
    requires out { (W.state out.old).failed ≡ false }
    ensures { IsFoldedFrom setting (map R.state inputs.old) (map R.state inputs.new)
        (W.state out.old) (W.state out.new) result }
{
    let (folded, added) = load_folded(rt, alloc, setting, Folded::none(alloc), inputs, None)?;
    let bytes = state_bytes(alloc, &folded)?;
    write_lines(out, &bytes)?;
    Ok(added)
}
