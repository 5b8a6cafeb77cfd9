//! The run over sources, which are read as it goes on.

ghost use Rattle.std.specs.Prelude.{◌≡◌, false, map};
ghost use Rattle.std.specs.Option.{option_copied};
ghost use Rattle.htl_device.specs.States.{AreOpen};
ghost use Rattle.htl_main.specs.Runs.{IsRun};

use crate::completed::Completed;
use crate::loading::load;
use crate::printing::print_answer;
use crate::refused::Refused;
use htl_command::Job;
use htl_device::{Parted, Sink};
use std::alloc::Global;
use std::thread::Threads;

/// Reads all sources, makes their case, and writes the answer, as `run` does for bytes in memory.
/// Each source is read to its end.
///
/// A fault of a source ends the run: bytes are decoded as they come, and nothing is read after the
/// read that showed the fault. A text in hexadecimal is gathered first, and nothing is read after the
/// read that gave its first foreign byte. Several workers begin with parts of a source that has some,
/// and one worker reads what they left. They report the fault that one worker reports.
pub fn run_from<Rt: Threads + Sync, R: Parted, W: Sink>(
    rt: &Rt,
    alloc: Global,
    job: &Job,
    inputs: &mut [R],
    symbols: Option<&[u8]>,
    out: &mut W,
) -> Result<Completed, Refused>
    requires ready { AreOpen (map R.state inputs.old) }
    requires out { (W.state out.old).failed ≡ false }
    ensures { IsRun job.now (option_copied symbols.entry) (map R.state inputs.old)
        (map R.state inputs.new) (W.state out.old) (W.state out.new) result }
{
    let loaded = load(rt, alloc, job.setting, job.until, inputs, symbols)?;
    let completed = print_answer(rt, alloc, job, &loaded, out)?;
    Ok(completed)
}
