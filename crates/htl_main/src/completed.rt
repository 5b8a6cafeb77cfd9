//! What a run reports beside the answer that it printed.

ghost use Rattle.std.specs.Prelude.{◌≡◌, ◌||◌, List, nat_lt};
ghost use Rattle.std.specs.List.{list_any};
ghost use Rattle.htl_event.specs.Events.{Event};
ghost use Rattle.htl_event.specs.Moments.{counted_events};
ghost use Rattle.htl_case.specs.Spans.{IsSpan};
ghost use Rattle.htl_question.specs.Questions.{is_of_all_handles, subject_of};
ghost use Rattle.htl_question.specs.Subjects.{is_about};
ghost use Rattle.htl_main.specs.Coverages.{IsCoverage};
ghost use Rattle.htl_main.specs.Subjects.{HasAbsence, absence_by, is_before, is_below_last};
ghost use Rattle.htl_main.specs.Subjects.{since_of};

use crate::coverage::Coverage;
use crate::loading::Loaded;
use crate::remarks::Remarks;
use htl_command::Job;
use htl_event::{EventList, SharedEvent, Span, Until};
use htl_inputs::CutInputs;
use htl_question::{Question, Since, Subject};
use htl_segment::Segment;

/// What a run that ended well reports beside its answer.
#[derive(Clone, Copy, Debug, PartialEq, Eq)]
pub struct Completed {
    /// How much of its trace the case has.
    pub coverage: Coverage,
    /// The inputs that ended within a segment.
    pub cut: Option<CutInputs>,
    /// Why nothing can be found of what was asked about, if nothing can.
    pub absence: Option<Absence>,
    /// What is told of the answer beside its lines.
    pub remarks: Remarks,
}

/// Why nothing can be found of what a question is about. A number may be mistyped.
#[derive(Clone, Copy, Debug, PartialEq, Eq)]
pub enum Absence {
    /// The question's subject has no event that counts: its process has none of any kind; its
    /// object, its tag of the object, or its tag of any object no reference or dereference; its
    /// handle no open, close or bad reference. A summary and a balance are about all events. Sites
    /// are about the open handles of all processes, which are there also where there is none.
    Subject,
    /// The sequence since which is asked isn't below the last one of the trace, or isn't below the
    /// moment: no event that counts comes later.
    Later,
}

/// Why nothing can be found of what the job's question is about, if nothing can. It looks at events
/// up to the first of the question's subject.
pub fn absence_of(job: &Job, loaded: &Loaded) -> Option<Absence>
    ensures { IsCoverage loaded.now.case loaded.now.coverage
        → HasAbsence loaded.now.case job.now result }
{
    let until = loaded.moment(job.until);
    let has_subject = has_subject(job.question, until, loaded.case.segments());
    absence_by(has_subject, job.question, until, loaded.case.span())
}

/// Why nothing can be found of what a question is about, by whether its subject has an event that
/// counts, and by the span of all events.
pub(crate) fn absence_by(
    has_subject: bool,
    question: Question,
    until: Option<u64>,
    span: Option<Span>,
) -> Option<Absence>
    ensures { (events : List Event) → IsSpan events span
        → result ≡ absence_by has_subject question until events }
{
    if !has_subject {
        return Some(Absence::Subject);
    }
    match since_of(question) {
        Some(since) if !is_below_last(until, span, since) => Some(Absence::Later),
        _ => None,
    }
}

/// The sequence after which the question asks, where it is given as a number.
pub fn since_of(question: Question) -> Option<u64>
    ensures { result ≡ since_of question }
{
    match question.since() {
        Some(Since::Sequence(since)) => Some(since),
        _ => None,
    }
}

/// Whether the sequence is below the last of the span, and below the moment where one is given.
fn is_below_last(until: Option<u64>, span: Option<Span>, sequence: u64) -> bool
    ensures { (events : List Event) → IsSpan events span
        → result ≡ is_below_last until events sequence }
{
    is_before(until, sequence) && has_later(span, sequence)
}

/// Whether the span goes on after the sequence.
fn has_later(span: Option<Span>, sequence: u64) -> bool
    ensures { (events : List Event) → IsSpan events span
        → result ≡ list_any (λ e. nat_lt sequence e.sequence) events }
{
    match span {
        Some(span) => sequence < span.last,
        None => false,
    }
}

/// Whether the sequence is below the moment, as each is where none is given.
fn is_before(until: Option<u64>, sequence: u64) -> bool
    ensures { result ≡ is_before until sequence }
{
    match until {
        Some(moment) => sequence < moment,
        None => true,
    }
}

/// Whether what the question asks about is among the events of the segments, up to a moment.
fn has_subject(question: Question, until: Option<u64>, segments: &[Segment]) -> bool
    ensures { result ≡ (is_of_all_handles question || list_any
        (λ s. list_any (is_about (subject_of question)) (counted_events until s.events))
        segments.now) }
{
    question.is_of_all_handles() || any_about(question.subject(), until, segments)
}

/// Whether a segment has an event of the subject, up to a moment.
fn any_about(subject: Option<Subject>, until: Option<u64>, segments: &[Segment]) -> bool
    ensures { result ≡ list_any
        (λ s. list_any (is_about subject) (counted_events until s.events)) segments.now }
{
    segments
        .iter()
        .any(|segment| has_event_until(subject, until, segment))
}

/// Whether the segment has an event of the subject, up to a moment.
fn has_event_until(subject: Option<Subject>, until: Option<u64>, segment: &Segment) -> bool
    ensures { result ≡ list_any (is_about subject) (counted_events until segment.now.events) }
{
    has_event_about(subject, Until::new(segment.events(), until).events())
}

/// Whether what the question asks about is among the events of the lists.
pub(crate) fn is_subject_in<E: EventList>(question: Question, lists: &[E]) -> bool
    ensures { result ≡ (is_of_all_handles question || list_any
        (λ list. list_any (is_about (subject_of question)) (E.events_of list)) lists.now) }
{
    question.is_of_all_handles() || any_list_about(question.subject(), lists)
}

/// Whether one of the lists has an event of the subject.
fn any_list_about<E: EventList>(subject: Option<Subject>, lists: &[E]) -> bool
    ensures { result
        ≡ list_any (λ list. list_any (is_about subject) (E.events_of list)) lists.now }
{
    lists.iter().any(|list| has_event_in(subject, list))
}

/// Whether the list has an event of the subject.
fn has_event_in<E: EventList>(subject: Option<Subject>, list: &E) -> bool
    ensures { result ≡ list_any (is_about subject) (E.events_of list.now) }
{
    has_event_about(subject, list.events())
}

/// Whether one of the events is of the subject.
fn has_event_about(subject: Option<Subject>, events: &[SharedEvent]) -> bool
    ensures { result ≡ list_any (is_about subject) events.now }
{
    events.iter().any(|event| is_about(subject, event))
}

/// Whether the event is of the subject, as all are where there is none.
fn is_about(subject: Option<Subject>, event: &SharedEvent) -> bool
    ensures { result ≡ is_about subject event.now }
{
    match subject {
        Some(subject) => subject.has(event),
        None => true,
    }
}
