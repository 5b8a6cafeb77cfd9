//! Answers a question in a world: over saved states, or else over files, which it opens, runs and reads
//! again if it has to.

ghost use Rattle.std.specs.Prelude.{◌≡◌, ◌≢◌, [], false, map};
ghost use Rattle.std.specs.Prelude.{option_copied, string_bytes, true};
ghost use Rattle.htl_command.specs.Needs.{needs_events};
ghost use Rattle.htl_world.specs.Rounds.{CanBeReadAgain};
ghost use Rattle.htl_world.specs.Worlds.{change};
ghost use Rattle.htl_program.specs.Outcomes.{EndsQuestion, IsAnswered};
ghost use Rattle.htl_program.specs.Runs.{IsRunAgain};

use htl_ask::answer_over_states;
use htl_command::Run;
use htl_device::Sink;
use htl_main::{Completed, Lacking, Refused, Unpicked, pick_from, run_from};
use htl_world::{World, as_bytes, open_all, open_inputs};
use std::alloc::Global;
use std::thread::Threads;

/// Answers a question over the saved states and the files that its command names, where it names a
/// state, and else over its files, or over standard input if it names none.
///
/// Afterwards `inputs` has what was opened, as far as it was read.
pub(crate) fn answer_question<Rt: Threads + Sync, W: World, O: Sink>(
    rt: &Rt,
    alloc: Global,
    world: &mut W,
    run: &Run,
    inputs: &mut Vec<W::Input>,
    out: &mut O,
) -> Result<Completed, Refused>
    requires asked { run.now.states.items ≢ [] → needs_events run.now.job ≡ false }
    requires out { (O.state out.old).failed ≡ false }
    ensures { EndsQuestion (change (W.state world.old) (W.state world.new))
        (map W.Input.state inputs.new.items) run.now (O.state out.old) (O.state out.new) result }
{
    if run.states.is_empty() {
        answer(rt, alloc, world, run, inputs, out)
    } else {
        answer_over_states(rt, alloc, world, run, inputs, out)
    }
}

/// Answers a question from the files and the table of symbols that its command names, or from
/// standard input if it names no file.
///
/// The first file that can't be opened is reported, or else the table. Of inputs that can be read
/// again only the events that the question asks about are kept: should these not tell the outcome,
/// the inputs are opened once more and more of them is kept.
///
/// Afterwards `inputs` has what was opened, as far as it was read.
pub fn answer<Rt: Threads + Sync, W: World, O: Sink>(
    rt: &Rt,
    alloc: Global,
    world: &mut W,
    run: &Run,
    inputs: &mut Vec<W::Input>,
    out: &mut O,
) -> Result<Completed, Refused>
    requires { (O.state out.old).failed ≡ false }
    ensures { IsAnswered (change (W.state world.old) (W.state world.new))
        (map W.Input.state inputs.new.items) run.now (O.state out.old) (O.state out.new) result }
{
    let table = open_all(alloc, world, &run.files, run.symbols.as_ref(), inputs)?;
    let symbols = as_bytes(&table);
    if !can_pick(world, run) {
        return run_from(rt, alloc, &run.job, inputs, symbols, out);
    }
    let needed = run.job.question.interest();
    match pick_from(rt, alloc, &run.job, needed, inputs, symbols, out) {
        Ok(completed) => Ok(completed),
        Err(Unpicked::Refused(fault)) => Err(Refused::from(fault)),
        Err(Unpicked::Lacking(Lacking::Process)) => {
            pick_again(rt, alloc, world, run, symbols, inputs, out)
        }
        Err(Unpicked::Lacking(Lacking::Segments)) => {
            run_again(rt, alloc, world, run, symbols, inputs, out)
        }
    }
}

/// Opens the inputs once more, and answers what is asked from all that it is about. If this doesn't
/// tell the outcome, whole segments do.
fn pick_again<Rt: Threads + Sync, W: World, O: Sink>(
    rt: &Rt,
    alloc: Global,
    world: &mut W,
    run: &Run,
    symbols: Option<&[u8]>,
    inputs: &mut Vec<W::Input>,
    out: &mut O,
) -> Result<Completed, Refused>
    requires out { (O.state out.old).failed ≡ false }
    requires bytes { run.now.job.setting.form.hex ≡ false }
    ensures { IsRunAgain 2 (change (W.state world.old) (W.state world.new))
        (map W.Input.state inputs.new.items) run.now (option_copied symbols.entry) (O.state out.old)
        (O.state out.new) result }
{
    open_inputs(alloc, world, &run.files, inputs)?;
    let widest = run.job.question.widest_interest();
    match pick_from(rt, alloc, &run.job, widest, inputs, symbols, out) {
        Ok(completed) => Ok(completed),
        Err(Unpicked::Refused(fault)) => Err(Refused::from(fault)),
        Err(Unpicked::Lacking(_)) => run_again(rt, alloc, world, run, symbols, inputs, out),
    }
}

/// Opens the inputs once more, and answers what is asked from whole segments.
fn run_again<Rt: Threads + Sync, W: World, O: Sink>(
    rt: &Rt,
    alloc: Global,
    world: &mut W,
    run: &Run,
    symbols: Option<&[u8]>,
    inputs: &mut Vec<W::Input>,
    out: &mut O,
) -> Result<Completed, Refused>
    requires { (O.state out.old).failed ≡ false }
    ensures { IsRunAgain 1 (change (W.state world.old) (W.state world.new))
        (map W.Input.state inputs.new.items) run.now (option_copied symbols.entry) (O.state out.old)
        (O.state out.new) result }
{
    open_inputs(alloc, world, &run.files, inputs)?;
    run_from(rt, alloc, &run.job, inputs, symbols, out)
}

/// Whether a first reading may keep only what the question asks about: if its inputs are bytes that can
/// be read again.
fn can_pick<W: World>(world: &W, run: &Run) -> bool
    ensures { result ≡ true → (run.now.job.setting.form.hex ≡ false)
        × CanBeReadAgain (W.state world.now).known (map string_bytes run.now.files.items) }
{
    !run.job.setting.form.hex && can_be_read_again(world, &run.files)
}

/// Whether all inputs can be read again: the files, or standard input where there is none.
fn can_be_read_again<W: World>(world: &W, files: &[String]) -> bool
    ensures { result ≡ true
        → CanBeReadAgain (W.state world.now).known (map string_bytes files.now) }
{
    if files.is_empty() {
        return world.standard_can_be_read_again();
    }
    for name in files {
        if !world.can_be_read_again(name) {
            return false;
        }
    }
    true
}
