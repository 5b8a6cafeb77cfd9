//! Answers over what was folded.

ghost use Rattle.std.specs.Prelude.{◌≡◌, ◌≢◌, [], IfErr, IfOk, List, None, OnOk, Some, false, true};
ghost use Rattle.htl_command.specs.Needs.{needs_events};
ghost use Rattle.htl_question.specs.Questions.{is_of_events};
ghost use Rattle.htl_segment.specs.Content.{Content};
ghost use Rattle.htl_segment.specs.Traces.{Trace};
ghost use Rattle.htl_evidence.specs.Bases.{IsAnswer};
ghost use Rattle.htl_main.specs.Asked.{IsUnasked};
ghost use Rattle.htl_main.specs.Completeness.{IsComplete};
ghost use Rattle.htl_main.specs.Folding.{AreFolded, IsAskedOver, IsCollectionOf};
ghost use Rattle.htl_main.specs.Printed.{IsText, WorkersFit};
ghost use Rattle.htl_main.specs.Remarks.{RemarksOver};

use crate::coverage::Missed;
use crate::folding::Folded;
use crate::printing::{AnswerText, lines};
use crate::remarks::remarks_on;
use htl_analyst::Analyst;
use htl_command::{Job, Setting};
use htl_event::NoMemory;
use htl_evidence::{Folds, answer};
use htl_inputs::RunFault;
use htl_question::{Answer, Question};
use std::alloc::Global;
use std::thread::Threads;

/// Answers the job's question from what was folded, with the lines that a run over all segments
/// taken so far prints. Before the first segment there are no lines. The setting counts here, and
/// not the job's own, which a line of a dialogue can't give: where it asks for a complete trace,
/// nothing is answered while a segment is missing, and the least missing key is reported.
pub fn folded_text(
    rt: &(impl Threads + Sync),
    alloc: Global,
    setting: Setting,
    job: &Job,
    folded: &Folded,
) -> Result<AnswerText, RunFault>
    requires workers { WorkersFit setting.workers }
    requires asked { needs_events job.now ≡ false }
    ensures text { IfOk result (λ text. (segments : List Content) (T : Trace)
        → AreFolded folded.now.analyst segments → IsAskedOver job.now.question segments T
        → IsText T folded.now.symbols job.now text.lines.items) }
    ensures remarks { IfOk result (λ text. (segments : List Content) (T : Trace)
        → AreFolded folded.now.analyst segments → IsAskedOver job.now.question segments T
        → RemarksOver T folded.now.symbols job.now text.remarks) }
    ensures none { folded.now.analyst ≡ None → IfOk result (λ text. text.lines.items ≡ []) }
    ensures whole { OnOk result (setting.complete ≡ true → (segments : List Content) (T : Trace)
        → AreFolded folded.now.analyst segments → segments ≢ [] → IsCollectionOf segments T
        → IsComplete T []) }
    ensures err { IfErr result (IsUnasked setting.complete folded.now.analyst) }
{
    let Some(analyst) = &folded.analyst else {
        return Ok(AnswerText::none(alloc));
    };
    check_complete(alloc, setting.complete, analyst)?;
    let answer = answer_of_folds(rt, alloc, setting.workers, job.question, analyst)?;
    let lines = lines(alloc, job, None, &answer, &folded.symbols)?;
    Ok(AnswerText {
        lines,
        remarks: remarks_on(job, &answer, &folded.symbols),
    })
}

/// Where a complete trace is asked for, reports the least key that is missing of what an analyst
/// took, if one is.
fn check_complete(alloc: Global, complete: bool, analyst: &Analyst<Global>) -> Result<(), RunFault>
    ensures ok { OnOk result (complete ≡ true → (segments : List Content) (T : Trace)
        → AreFolded (Some analyst.now) segments → IsCollectionOf segments T → IsComplete T []) }
    ensures err { IfErr result (IsUnasked complete (Some analyst.now)) }
{
    if !complete {
        return Ok(());
    }
    let missed = Missed::of_analyst(alloc, analyst)?;
    match missed.least(&[]) {
        Some((processor, number)) => Err(RunFault::Incomplete { processor, number }),
        None => Ok(()),
    }
}

/// The answer of an analyst to a question that needs no events.
#[tactic(auto, using(htl_segment::proofs::Threads::segment_sync))]
fn answer_of_folds<Rt: Threads + Sync>(
    rt: &Rt,
    alloc: Global,
    workers: u32,
    question: Question,
    analyst: &Analyst<Global>,
) -> Result<Answer, NoMemory>
    requires { is_of_events question ≡ false }
    ensures { IfOk result (λ answer. (segments : List Content) (T : Trace)
        → AreFolded (Some analyst.now) segments → IsAskedOver question segments T
        → IsAnswer T None question answer) }
{
    let evidence = Folds { analyst };
    answer(rt, alloc, workers, &evidence, question)
}
