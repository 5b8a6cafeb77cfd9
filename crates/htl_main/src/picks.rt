//! The run of a question, which keeps only the events that the question asks about.
//!
//! `picking.rt` picks them from the sources, and `answers.rt` answers from them.

mod answers;
mod picking;

ghost use Rattle.std.specs.Prelude.{◌≡◌, false, map};
ghost use Rattle.std.specs.Option.{option_copied};
ghost use Rattle.htl_device.specs.States.{AreOpen};
ghost use Rattle.htl_question.specs.Questions.{Serves};
ghost use Rattle.htl_main.specs.Runs.{IsPicked};

use crate::completed::Completed;
use crate::picks::answers::answered_of_picks;
use crate::picks::picking::pick_all;
use crate::printing::check_workers;
use htl_case::PickedCase;
use htl_command::Job;
use htl_device::{Parted, Sink};
use htl_event::Interest;
use htl_inputs::{RunFault, write_lines};
use std::alloc::Global;
use std::thread::Threads;

/// What a run of picks lacks to tell its outcome. It wrote nothing, and its inputs have to be read
/// again.
#[derive(Clone, Copy, Debug, PartialEq, Eq)]
pub enum Lacking {
    /// All events of the process (`Question::widest_interest`): none that counts tells of its open
    /// handles.
    Process,
    /// Whole segments (`run_from`): a key comes twice, so that contents have to be compared, or the
    /// segments don't form a case.
    Segments,
}

/// Why a run of picks printed no answer.
#[derive(Clone, Copy, Debug, PartialEq, Eq)]
pub enum Unpicked {
    /// What was picked doesn't tell the outcome.
    Lacking(Lacking),
    /// The run is refused, as `run_from` is.
    Refused(RunFault),
}

impl From<RunFault> for Unpicked {
    ghost use Rattle.std.specs.Prelude.{◌≡◌};
    ghost use Rattle.htl_main.specs.declared.picks.Unpicked.TheVariants.{Refused};

    ghost from_gives = { λ fault unpicked. unpicked ≡ Refused fault };

    fn from(fault: RunFault) -> Unpicked {
        Unpicked::Refused(fault)
    }
}

/// The same as `run_from`, but it keeps no segments. It makes only the events that are of this
/// interest: those that the question needs (`Question::interest`), or all of what it is about
/// (`Question::widest_interest`).
///
/// Where these don't tell the outcome, it writes nothing and returns what it lacks.
pub fn pick_from<Rt: Threads + Sync, R: Parted, W: Sink>(
    rt: &Rt,
    alloc: Global,
    job: &Job,
    interest: Interest,
    inputs: &mut [R],
    symbols: Option<&[u8]>,
    out: &mut W,
) -> Result<Completed, Unpicked>
    requires ready { AreOpen (map R.state inputs.old) }
    requires out { (W.state out.old).failed ≡ false }
    requires bytes { job.now.setting.form.hex ≡ false }
    requires serves { Serves job.now.question interest }
    ensures { IsPicked interest job.now (option_copied symbols.entry) (map R.state inputs.old)
        (map R.state inputs.new) (W.state out.old) (W.state out.new) result }
{
    check_workers(job.setting.workers)?;
    let all = pick_all(
        rt,
        alloc,
        job.setting.form,
        interest,
        job.setting.workers,
        inputs,
    )?;
    let Some(case) = PickedCase::of(all.picks) else {
        return Err(Unpicked::Lacking(Lacking::Segments));
    };
    let answered = answered_of_picks(rt, alloc, job, interest, case, &all.cuts, symbols)?;
    let Some((lines, completed)) = answered else {
        return Err(Unpicked::Lacking(Lacking::Process));
    };
    write_lines(out, &lines)?;
    Ok(completed)
}
