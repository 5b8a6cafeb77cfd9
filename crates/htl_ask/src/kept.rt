//! What a dialogue keeps of the segments that were read.

ghost use Rattle.std.specs.Prelude.{◌≡◌, None, map};
ghost use Rattle.std.specs.Option.{option_copied};
ghost use Rattle.htl_device.specs.States.{AreOpen};
ghost use Rattle.htl_ask.specs.Loads.{is_state, KeepsAs};

use htl_command::{Job, Setting};
use htl_device::Parted;
use htl_main::{
    Absence, AnswerText, Coverage, CutInputs, Folded, Loaded, Refused, RunFault, absence_of,
    answer_text, folded_text, load, load_folded,
};
use std::alloc::Global;
use std::thread::Threads;

/// What a dialogue keeps of the segments that were read.
#[derive(Drop)]
pub(crate) enum Kept {
    /// The segments themselves.
    Case(Loaded),
    /// What was folded of them, without events.
    State(Folded),
}

impl Kept {
    ghost use Rattle.std.specs.Prelude.{◌≡◌, ◌≢◌, Err, false, true};
    ghost use Rattle.htl_command.specs.Needs.{needs_events};
    ghost use Rattle.htl_main.specs.Printed.{WorkersFit};
    ghost use Rattle.htl_ask.specs.Loads.{HasAbsenceIn, HasOutcomeIn, is_state};

    /// Whether the events are forgotten.
    pub fn forgets(&self) -> bool
        ensures { result ≡ is_state self.now }
    {
        matches!(self, Kept::State(_))
    }

    /// The answer to a job, as a run prints it, or why it isn't answered. Where a complete trace is
    /// asked for, what was folded isn't answered from while a segment is missing.
    pub fn answer(
        &self,
        rt: &(impl Threads + Sync),
        alloc: Global,
        setting: Setting,
        job: &Job,
    ) -> Result<AnswerText, RunFault>
        requires workers { WorkersFit setting.workers }
        requires asks { is_state self.now ≡ true → needs_events job.now ≡ false }
        ensures { result ≢ Err RunFault.Memory
            → HasOutcomeIn setting.complete self.now job.now result }
    {
        match self {
            Kept::Case(loaded) => Ok(answer_text(rt, alloc, setting.workers, job, loaded)?),
            Kept::State(folded) => folded_text(rt, alloc, setting, job, folded),
        }
    }

    /// Why nothing can be found of what the job's question is about, if nothing can. What was
    /// folded can't tell.
    pub fn absence(&self, job: &Job) -> Option<Absence>
        ensures { HasAbsenceIn self.now job.now result }
    {
        match self {
            Kept::Case(loaded) => absence_of(job, loaded),
            Kept::State(_) => None,
        }
    }
}

/// What a dialogue has before its first question.
#[derive(Drop)]
pub(crate) struct Begun {
    pub kept: Kept,
    /// How much of their trace the segments have.
    pub coverage: Coverage,
    /// The inputs that ended within a segment.
    pub cut: Option<CutInputs>,
}

/// Reads all inputs, and folds their segments behind what was folded before, or keeps them where
/// nothing is folded.
pub(crate) fn begin<Rt: Threads + Sync, R: Parted>(
    rt: &Rt,
    alloc: Global,
    before: Option<Folded>,
    setting: Setting,
    inputs: &mut [R],
    symbols: Option<&[u8]>,
) -> Result<Begun, Refused>
    requires { AreOpen (map R.state inputs.old) }
    ensures { KeepsAs before setting (option_copied symbols.entry) (map R.state inputs.old)
        (map R.state inputs.new) result }
{
    match before {
        Some(folded) => {
            let (folded, added) = load_folded(rt, alloc, setting, folded, inputs, symbols)?;
            Ok(Begun {
                kept: Kept::State(folded),
                coverage: added.coverage,
                cut: added.cut,
            })
        }
        None => {
            let loaded = load(rt, alloc, setting, None, inputs, symbols)?;
            let coverage = loaded.coverage;
            let cut = loaded.cut;
            Ok(Begun {
                kept: Kept::Case(loaded),
                coverage,
                cut,
            })
        }
    }
}
