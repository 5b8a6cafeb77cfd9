//! A question over saved states: it is answered as a dialogue that begins with these states and files
//! replies to it.

ghost use Rattle.std.specs.Prelude.{◌≡◌, false, map};
ghost use Rattle.std.specs.Option.{option_copied};
ghost use Rattle.htl_command.specs.Needs.{needs_events};
ghost use Rattle.htl_device.specs.States.{AreOpen};
ghost use Rattle.htl_main.specs.Printed.{WorkersFit};
ghost use Rattle.htl_world.specs.Worlds.{change};
ghost use Rattle.htl_ask.specs.Loads.{AnswersOpened, PrintsBegun};
ghost use Rattle.htl_ask.specs.OverStates.{IsAnsweredOverStates};

use crate::kept::{Begun, begin};
use crate::restoring::restored;
use htl_command::{Job, Run};
use htl_device::Sink;
use htl_inputs::write_lines;
use htl_main::{Between, Completed, Refused, RunFault};
use htl_world::{World, as_bytes, open_named};
use std::alloc::Global;
use std::thread::Threads;

/// Answers a question from the saved states, the files and the table of symbols that its command
/// names. The states are merged in their order, the segments of the files are folded behind them, and
/// the answer is the one over what was folded. Where no file is named none is read: standard input
/// never is.
///
/// The first file that can't be opened is reported, or else the table, or else the first state that is
/// refused. Nothing of a file is read before all states are merged.
///
/// Afterwards `inputs` has what was opened, as far as it was read.
pub fn answer_over_states<Rt: Threads + Sync, W: World, O: Sink>(
    rt: &Rt,
    alloc: Global,
    world: &mut W,
    run: &Run,
    inputs: &mut Vec<W::Input>,
    out: &mut O,
) -> Result<Completed, Refused>
    requires asked { needs_events run.now.job ≡ false }
    requires out { (O.state out.old).failed ≡ false }
    ensures { IsAnsweredOverStates (change (W.state world.old) (W.state world.new))
        (map W.Input.state inputs.new.items) run.now (O.state out.old) (O.state out.new) result }
{
    match open_named(alloc, world, &run.files, run.symbols.as_ref(), inputs) {
        Ok(table) => {
            let symbols = as_bytes(&table);
            answer_opened(rt, alloc, world, run, inputs, symbols, out)
        }
        Err(fault) => Err(Refused {
            fault,
            between: Between::Nothing,
        }),
    }
}

/// Reads the states and the opened inputs, and prints the answer.
fn answer_opened<Rt: Threads + Sync, W: World, O: Sink>(
    rt: &Rt,
    alloc: Global,
    world: &mut W,
    run: &Run,
    inputs: &mut Vec<W::Input>,
    symbols: Option<&[u8]>,
    out: &mut O,
) -> Result<Completed, Refused>
    requires ready { AreOpen (map W.Input.state inputs.old.items) }
    requires asked { needs_events run.now.job ≡ false }
    requires out { (O.state out.old).failed ≡ false }
    ensures { AnswersOpened (W.state world.old).known
        (change (W.state world.old) (W.state world.new)) run.now (option_copied symbols.entry)
        (map W.Input.state inputs.old.items) (map W.Input.state inputs.new.items)
        (O.state out.old) (O.state out.new) result }
{
    let folded = restored(alloc, world, run.job.setting, &run.states)?;
    let begun = begin(rt, alloc, Some(folded), run.job.setting, inputs, symbols)?;
    let completed = print_begun(rt, alloc, &run.job, &begun, out)?;
    Ok(completed)
}

/// Prints the answer to a job over what was read, and says what is reported beside it.
fn print_begun<Rt: Threads + Sync, O: Sink>(
    rt: &Rt,
    alloc: Global,
    job: &Job,
    begun: &Begun,
    out: &mut O,
) -> Result<Completed, RunFault>
    requires workers { WorkersFit job.now.setting.workers }
    requires asked { needs_events job.now ≡ false }
    requires out { (O.state out.old).failed ≡ false }
    ensures { PrintsBegun begun.now job.now (O.state out.old) (O.state out.new) result }
{
    let text = begun.kept.answer(rt, alloc, job.setting, job)?;
    write_lines(out, &text.lines)?;
    Ok(Completed {
        coverage: begun.coverage,
        cut: begun.cut,
        absence: None,
        remarks: text.remarks,
    })
}
