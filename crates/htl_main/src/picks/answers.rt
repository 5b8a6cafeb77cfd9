//! The answer over what was picked from a case.

ghost use Rattle.std.specs.Prelude.{◌≡◌, ◌&&◌, ℕ, List, Option, IfErr, IfNone, IfOk, IfSome, not};
ghost use Rattle.std.specs.Option.{option_copied};
ghost use Rattle.htl_event.specs.Moments.{counted_events};
ghost use Rattle.htl_segment.specs.Content.{Content};
ghost use Rattle.htl_segment.specs.Traces.{all_events};
ghost use Rattle.htl_question.specs.Questions.{Serves};
ghost use Rattle.htl_inputs.specs.CutInputs.{decoding};
ghost use Rattle.htl_main.specs.Causes.{IsCauseAfter};
ghost use Rattle.htl_main.specs.Moments.{IsNamedMoment};
ghost use Rattle.htl_main.specs.Picked.{TellsOfNoHandle};
ghost use Rattle.htl_main.specs.Picking.{EndsAnswer, IsPickedAsOf, IsPickedFor, ReportsOf};
ghost use Rattle.htl_main.specs.Picking.{is_of_open_handles};
ghost use Rattle.htl_main.specs.Printed.{AreAnswerLines};
ghost use Rattle.htl_main.specs.Subjects.{has_subject};

use crate::completed::{Completed, absence_by, is_subject_in};
use crate::coverage::Missed;
use crate::printing::{check_absence, check_gaps, lines, read_symbols};
use crate::remarks::remarks_on;
use htl_case::PickedCase;
use htl_command::Job;
use htl_event::Interest;
use htl_evidence::{Picks, answer};
use htl_inputs::{CutEnd, RunFault, cut_inputs};
use std::alloc::Global;
use std::thread::Threads;

/// The lines of the answer to the job's question over what was picked of a case, and what is
/// reported beside them. A case with a gap is refused where the job asks for a complete one. There
/// is no answer if only open handles are asked about, and nothing tells of them.
pub(crate) fn answered_of_picks(
    rt: &(impl Threads + Sync),
    alloc: Global,
    job: &Job,
    interest: Interest,
    mut case: PickedCase,
    cuts: &[CutEnd],
    symbols: Option<&[u8]>,
) -> Result<Option<(Vec<u8>, Completed)>, RunFault>
    requires { Serves job.now.question interest }
    ensures ok { IfOk result (λ answered. IfSome answered (λ of. (segments : List Content)
        → IsPickedFor interest case segments
        → AreAnswerLines (decoding segments cuts.now) (option_copied symbols.entry) job.now
        of.0.items)) }
    ensures reports { IfOk result (λ answered. IfSome answered (λ of. (segments : List Content)
        → IsPickedFor interest case segments
        → ReportsOf segments (option_copied symbols.entry) job.now cuts.now of.1)) }
    ensures none { IfOk result (λ answered. IfNone answered ((segments : List Content)
        → IsPickedFor interest case segments → TellsOfNoHandle interest segments job.now)) }
    ensures err { IfErr result (λ fault. (segments : List Content)
        → IsPickedFor interest case segments
        → IsCauseAfter (decoding segments cuts.now) (option_copied symbols.entry) job.now fault) }
    ensures after { IfErr result EndsAnswer }
{
    let missed = Missed::of_picks(alloc, &case)?;
    check_gaps(job.setting.complete, job.until, &missed, cuts)?;
    let symbols = read_symbols(alloc, symbols)?;
    let coverage = missed.coverage();
    let until = coverage.moment(job.until);
    case.keep_until(until);
    let Some(has_subject) = subject_of_picks(job, interest, &case) else {
        return Ok(None);
    };
    let absence = absence_by(has_subject, job.question, until, case.span());
    check_absence(job, absence)?;
    let evidence = Picks::new(alloc, &case, until);
    let answer = answer(rt, alloc, job.setting.workers, &evidence, job.question)?;
    let lines = lines(alloc, job, until, &answer, &symbols)?;
    let completed = Completed {
        coverage,
        cut: cut_inputs(cuts),
        absence,
        remarks: remarks_on(job, &answer, &symbols),
    };
    Ok(Some((lines, completed)))
}

/// Whether what the question asks about is among what was picked of a case, up to a moment. None
/// tells that it isn't, and that it might be among more of the case.
fn subject_of_picks(job: &Job, interest: Interest, case: &PickedCase) -> Option<bool>
    requires { Serves job.now.question interest }
    ensures some { IfSome result (λ is_there. (until : Option ℕ) (segments : List Content)
        (is : IsPickedAsOf interest until case.now segments) → IsNamedMoment is.trace job.now.until until
        → is_there ≡ has_subject job.now.question
        (counted_events until (all_events is.trace.segments))) }
    ensures none { IfNone result ((until : Option ℕ) (segments : List Content)
        (is : IsPickedAsOf interest until case.now segments) → IsNamedMoment is.trace job.now.until until
        → TellsOfNoHandle interest segments job.now) }
{
    let has_subject = is_subject_in(job.question, case.lists());
    if falls_short(interest, has_subject) {
        return None;
    }
    Some(has_subject)
}

/// Whether nothing that was picked is about the question's subject, and more of the case might be.
fn falls_short(interest: Interest, has_subject: bool) -> bool
    ensures { result ≡ (not has_subject && is_of_open_handles interest) }
{
    !has_subject && matches!(interest, Interest::OpenHandles(_))
}
