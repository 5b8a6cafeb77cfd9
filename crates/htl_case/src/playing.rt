//! Playing a list of steps: the analysts that it leads to.

ghost use Rattle.std.specs.Prelude.{◌≡◌, ◌≢◌, ◌<◌, ℕ, length, slice_get};
ghost use Rattle.std.specs.Prelude.{IfOk, IfErr, OnOk};
ghost use Rattle.htl_analyst.specs.States.{State};
ghost use Rattle.htl_analyst.specs.Right.{IsRight};
ghost use Rattle.htl_analyst.specs.Steps.{new_state, IsMerge};
ghost use Rattle.htl_case.specs.Cases.{IsCase};
ghost use Rattle.htl_case.specs.Plays.{IsFaulty, NoneIsFaulty, IsPlayRefusal};
ghost use Rattle.htl_case.specs.Histories.{IsNew, IsTake, AreRight, HaveReached, HaveHistories};
ghost use Rattle.htl_case.specs.Changes.{IsStep, IsTriedStep};

use crate::case::Case;
use crate::fault::PlayFault;
use crate::step::Step;
use htl_analyst::{Analyst, AnalystFault, MergeFault, TakeFault};
use std::alloc::Global;

/// New analysts of the case's trace, after these steps. The steps are checked before any is done.
pub fn play(
    alloc: Global,
    case: &Case,
    analysts: u32,
    steps: &[Step],
) -> Result<Vec<Analyst<Global>>, PlayFault>
    ensures count { IfOk result (λ played. length played.items ≡ analysts) }
    ensures right { IfOk result (λ played. AreRight case.now played.items) }
    ensures keys { IfOk result (λ played. HaveReached case.now steps.now played.items) }

    // So what the headline says holds of them.
    ensures histories { IfOk result (λ played. HaveHistories case.now steps.now played.items) }

    ensures accepted { OnOk result (NoneIsFaulty analysts (length case.now.segments) steps.now) }
    ensures refused { IfErr result (IsPlayRefusal analysts (length case.now.segments) steps.now) }
    ensures exact { (fault : PlayFault) → fault ≢ PlayFault.NoMemory
        → IsPlayRefusal analysts (length case.now.segments) steps.now fault → result ≡ Err fault }
{
    check_steps(analysts, case.segments().len(), steps)?;
    let mut played = new_analysts(alloc, case, analysts)?;
    for step in steps {
        do_step(&mut played, case, *step)?;
    }
    Ok(played)
}

/// As `play`, where no step is faulty. A compaction that is refused is a step like any other: the
/// analyst goes on as it was left.
pub(crate) fn analysts_after(
    alloc: Global,
    case: &Case,
    analysts: u32,
    steps: &[Step],
) -> Result<Vec<Analyst<Global>>, PlayFault>
    requires case { IsCase case.now }
    requires there { NoneIsFaulty analysts (length case.now.segments) steps.now }
    ensures count { IfOk result (λ after. length after.items ≡ analysts) }
    ensures right { IfOk result (λ after. AreRight case.now after.items) }
    ensures keys { IfOk result (λ after. HaveReached case.now steps.now after.items) }
    ensures err { IfErr result (λ fault. fault ≡ PlayFault.NoMemory) }
{
    let mut after = new_analysts(alloc, case, analysts)?;
    for step in steps {
        try_step(&mut after, case, *step)?;
    }
    Ok(after)
}

/// The first step that names an analyst or a segment that isn't there.
pub(crate) fn check_steps(analysts: u32, segments: usize, steps: &[Step]) -> Result<(), PlayFault>
    ensures ok { OnOk result (NoneIsFaulty analysts segments steps.now) }
    ensures err { IfErr result (IsPlayRefusal analysts segments steps.now) }
    ensures cause { IfErr result (λ fault. fault ≢ PlayFault.NoMemory) }
{
    for (place, step) in steps.iter().enumerate() {
        if step.names_no_analyst(analysts) {
            return Err(PlayFault::NoAnalyst(place as u64));
        }
        if step.names_no_segment(segments) {
            return Err(PlayFault::NoSegment(place as u64));
        }
    }
    Ok(())
}

/// Analysts of the case's trace that have taken no segment.
fn new_analysts(
    alloc: Global,
    case: &Case,
    analysts: u32,
) -> Result<Vec<Analyst<Global>>, PlayFault>
    requires { IsCase case.now }
    ensures count { IfOk result (λ new. length new.items ≡ analysts) }
    ensures new { IfOk result (λ new. (i : ℕ) (a : State) → slice_get new.items i ≡ Some a
        → IsNew case.now a) }
    ensures err { IfErr result (λ fault. fault ≡ PlayFault.NoMemory) }
{
    let mut new = Vec::with_capacity(alloc, analysts as usize)?;
    for _ in 0..analysts {
        new.push(new_analyst(alloc, case)?)?;
    }
    Ok(new)
}

/// An analyst that has taken no segment. A case has 1 to 256 processors, so only memory can be refused.
fn new_analyst(alloc: Global, case: &Case) -> Result<Analyst<Global>, PlayFault>
    requires { IsCase case.now }
    ensures ok { IfOk result (λ a. a ≡ new_state case.now.id case.now.processors) }
    ensures err { IfErr result (λ fault. fault ≡ PlayFault.NoMemory) }
{
    match Analyst::new(alloc, case.trace_id(), case.processors()) {
        Ok(analyst) => Ok(analyst),
        Err(AnalystFault::NoMemory) => Err(PlayFault::NoMemory),
        Err(AnalystFault::Processors) => unreachable!(),
    }
}

/// Does the step. It names analysts and a segment that are there, so only memory can be refused.
fn do_step(analysts: &mut [Analyst<Global>], case: &Case, step: Step) -> Result<(), PlayFault>
    requires there { IsFaulty (length analysts.old) (length case.now.segments) step → ⊥ }
    requires right { AreRight case.now analysts.old }
    ensures ok { OnOk result (IsStep case.now step analysts.old analysts.new) }
    ensures err { IfErr result (λ fault. fault ≡ PlayFault.NoMemory) }
{
    match step {
        Step::Take { analyst, segment } => {
            take(&mut analysts[analyst as usize], case, segment as usize)
        }
        Step::Merge { target, source } => {
            let copy = analysts[source as usize].copy()?;
            absorb(&mut analysts[target as usize], copy, case)
        }
        Step::Compact { analyst } => Ok(analysts[analyst as usize].compact()?),
    }
}

/// Does the step, and keeps a refused compaction as far as it came.
fn try_step(analysts: &mut [Analyst<Global>], case: &Case, step: Step) -> Result<(), PlayFault>
    requires there { IsFaulty (length analysts.old) (length case.now.segments) step → ⊥ }
    requires right { AreRight case.now analysts.old }
    ensures ok { OnOk result (IsTriedStep case.now step analysts.old analysts.new) }
    ensures err { IfErr result (λ fault. fault ≡ PlayFault.NoMemory) }
{
    match step {
        Step::Compact { analyst } => {
            let _refused = analysts[analyst as usize].compact();
            Ok(())
        }
        Step::Take { .. } | Step::Merge { .. } => do_step(analysts, case, step),
    }
}

/// Takes the case's segment at a place.
fn take(analyst: &mut Analyst<Global>, case: &Case, place: usize) -> Result<(), PlayFault>
    requires there { place < length case.now.segments }
    requires right { IsRight analyst.old case.now }
    ensures ok { OnOk result (IsTake case.now place analyst.old analyst.new) }
    ensures err { IfErr result (λ fault. fault ≡ PlayFault.NoMemory) }
{
    let segment = case.segments()[place].copy()?;
    match analyst.take(segment) {
        Ok(_) => Ok(()),
        Err((TakeFault::NoMemory, _)) => Err(PlayFault::NoMemory),
        // The segment is one of the trace that the analyst is right about.
        Err(_) => unreachable!(),
    }
}

/// Merges another analyst of the case into the target.
fn absorb(
    target: &mut Analyst<Global>,
    other: Analyst<Global>,
    case: &Case,
) -> Result<(), PlayFault>
    requires right { IsRight target.old case.now }
    requires other { IsRight other case.now }
    ensures ok { OnOk result (IsMerge target.old other target.new) }
    ensures err { IfErr result (λ fault. fault ≡ PlayFault.NoMemory) }
{
    match target.absorb(other) {
        Ok(()) => Ok(()),
        Err((MergeFault::NoMemory, _)) => Err(PlayFault::NoMemory),
        // Both analysts are right about one trace.
        Err(_) => unreachable!(),
    }
}
