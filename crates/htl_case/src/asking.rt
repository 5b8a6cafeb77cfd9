//! Asking an analyst a question: any analyst, or one that a list of steps leads to.

ghost use Rattle.std.specs.Prelude.{◌≡◌, ◌≢◌, ◌<◌, length, IfOk, IfErr, OnOk};
ghost use Rattle.std.specs.Option.{option_copied};
ghost use Rattle.htl_event.specs.Tallies.{tally};
ghost use Rattle.htl_segment.specs.Traces.{Trace};
ghost use Rattle.htl_analyst.specs.Right.{IsRight};
ghost use Rattle.htl_analyst.specs.TakenEvents.{taken_events};
ghost use Rattle.htl_case.specs.Plays.{NoneIsFaulty, IsAnswerRefusal};
ghost use Rattle.htl_case.specs.Reached.{reached};
ghost use Rattle.htl_case.specs.Answers.{IsAnswer};
ghost use Rattle.htl_case.specs.Questions.{AnalystAnswers};

use crate::case::Case;
use crate::fault::PlayFault;
use crate::playing::{analysts_after, check_steps};
use crate::question::{AnalystAnswer, AnalystQuestion};
use crate::step::Step;
use htl_analyst::Analyst;
use htl_event::{Count, NoMemory, SharedEvent, Slot, Stack};
use std::alloc::{Allocator, Global};

/// The answer of an analyst after these steps. Each of the analysts begins with no segment.
///
/// It is the definition's value over exactly the events of the segments that reached the analyst,
/// whatever the steps were. A step that names an analyst or a segment that isn't there is refused
/// before any step is done. A compaction that is refused is a step like any other; where memory is
/// refused elsewhere, out of memory is reported.
pub fn answer_after(
    alloc: Global,
    case: &Case,
    analysts: u32,
    steps: &[Step],
    analyst: u32,
    question: &AnalystQuestion,
) -> Result<AnalystAnswer, PlayFault>
    ensures answer { IfOk result (λ answer.
        IsAnswer case.now (reached case.now steps.now analyst) question.now answer) }
    ensures accepted { OnOk result
        (NoneIsFaulty analysts (length case.now.segments) steps.now × (analyst < analysts)) }
    ensures refused { IfErr result
        (IsAnswerRefusal analysts (length case.now.segments) steps.now analyst) }
    ensures exact { (fault : PlayFault) → fault ≢ PlayFault.NoMemory
        → IsAnswerRefusal analysts (length case.now.segments) steps.now analyst fault
        → result ≡ Err fault }
{
    check_steps(analysts, case.segments().len(), steps)?;
    if analyst >= analysts {
        return Err(PlayFault::NoAnalyst(steps.len() as u64));
    }
    let after = analysts_after(alloc, case, analysts, steps)?;
    Ok(ask(alloc, &after[analyst as usize], question)?)
}

/// The analyst's answer to the question.
pub fn ask<A: Allocator + Clone>(
    alloc: Global,
    analyst: &Analyst<A>,
    question: &AnalystQuestion,
) -> Result<AnalystAnswer, NoMemory>
    ensures { IfOk result (λ answer. AnalystAnswers analyst.now question.now answer) }
{
    Ok(match question {
        AnalystQuestion::Has { processor, number } => {
            AnalystAnswer::Has(analyst.has(*processor, *number))
        }
        AnalystQuestion::Taken => AnalystAnswer::Taken(analyst.taken()),
        AnalystQuestion::Events => AnalystAnswer::Events(analyst.events()),
        AnalystQuestion::Gaps => AnalystAnswer::Gaps(analyst.gaps(alloc)?),
        AnalystQuestion::Latest { process, handle } => {
            AnalystAnswer::Latest(copied(analyst.latest(*process, *handle))?)
        }
        AnalystQuestion::Mark { process } => AnalystAnswer::Mark(analyst.mark(*process)),
        AnalystQuestion::Outstanding { process } => {
            AnalystAnswer::Outstanding(analyst.outstanding(alloc, *process)?)
        }
        AnalystQuestion::Diff { process, since } => {
            AnalystAnswer::Diff(analyst.diff(alloc, *process, *since)?)
        }
        AnalystQuestion::Leaks { process } => {
            AnalystAnswer::Leaks(analyst.leaks(alloc, *process)?)
        }
        AnalystQuestion::Bad { process } => AnalystAnswer::Bad(analyst.bad(alloc, *process)?),
        AnalystQuestion::Tags { object } => AnalystAnswer::Tags(analyst.tags(alloc, *object)?),
        AnalystQuestion::Stacks { object, tag } => {
            AnalystAnswer::Stacks(analyst.stacks(alloc, *object, *tag)?)
        }
        AnalystQuestion::Tally { slot, stack } => {
            AnalystAnswer::Tally(count_of(analyst, *slot, stack)?)
        }
        AnalystQuestion::Under { path, slot } => {
            AnalystAnswer::Under(analyst.under(path, *slot))
        }
        AnalystQuestion::Processes => AnalystAnswer::Processes(analyst.processes(alloc)?),
        AnalystQuestion::Objects => {
            let objects = analyst.objects(alloc)?;
            AnalystAnswer::Objects {
                number: objects.number,
                unbalanced: objects.unbalanced,
            }
        }
    })
}

/// An equal event, which shares the stack.
fn copied(event: Option<&SharedEvent>) -> Result<Option<SharedEvent>, NoMemory>
    ensures { IfOk result (λ copy. copy ≡ option_copied event.entry) }
{
    match event {
        None => Ok(None),
        Some(event) => Ok(Some(event.copy()?)),
    }
}

/// How often the slot came with exactly this stack.
fn count_of<A: Allocator + Clone>(
    analyst: &Analyst<A>,
    slot: Slot,
    stack: &Stack,
) -> Result<Count, NoMemory>
    ensures { IfOk result (λ count. (T : Trace) → IsRight analyst.now T
        → count ≡ tally (taken_events T analyst.now) slot stack.now) }
{
    let tree = analyst.whole_tree()?;
    Ok(tree.at(slot, stack))
}
