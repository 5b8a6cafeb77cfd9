//! The answer to a question.

ghost use Rattle.std.specs.Prelude.{◌≡◌, ◌<◌, ◌^◌, ◌∷◌, [], ℕ, List, Option, IfOk, None, flat_map};
ghost use Rattle.std.specs.Prelude.{map, true};
ghost use Rattle.htl_event.specs.Events.{Event};
ghost use Rattle.htl_segment.specs.Traces.{Trace};
ghost use Rattle.htl_answers.specs.Parts.{AreEventsOf, size_of_all};
ghost use Rattle.htl_question.specs.Answers.{AreRows, IsSince, IsSinceIfGiven, process_of};
ghost use Rattle.htl_question.specs.Bases.{basis};
ghost use Rattle.htl_question.specs.Questions.{asks_since, is_of_events};
ghost use Rattle.htl_question.specs.Rows.{listed};
ghost use Rattle.htl_question.specs.declared.question.Question.TheVariants as questions;
ghost use Rattle.htl_evidence.specs.Bases.{IsAnswer, IsExtentOf, IsSpanUntil};
ghost use Rattle.htl_evidence.specs.Kept.{TellsBy, unfolded};
ghost use Rattle.htl_evidence.specs.Outlines.{extent_of};

use crate::evidence::Evidence;
use crate::extent::Extent;
use htl_answers::{Part, bad, diff, growth, leaks, mark, outstanding, stacks, tags};
use htl_case::events_of_handle;
use htl_event::{NoMemory, Span};
use htl_question::{Answer, Question, Rows, Since, Totals};
use htl_summary::{Objects, Summary, TagBalances, sites, summarize, tag_balances, tag_stacks};
use std::alloc::Global;
use std::thread::Threads;

/// The answer to a question from what is kept of a trace. Nothing is folded for it.
pub fn answer<Rt: Threads + Sync, E: Evidence>(
    rt: &Rt,
    alloc: Global,
    workers: u32,
    evidence: &E,
    question: Question,
) -> Result<Answer, NoMemory>
where
    E::Part: Sync,
    <E::Part as Part>::Held: Sync,
    requires { is_of_events question ≡ true → E.keeps_events ≡ true }
    ensures { IfOk result (λ answer. (T : Trace) (until : Option ℕ)
        → E.tells evidence.now question T until → IsAnswer T until question answer) }
{
    let given = Given {
        events: evidence.events()?,
        span: span(evidence, question),
        extent: extent(alloc, evidence, question)?,
    };
    let since = since(evidence.parts(), question);
    Ok(Answer {
        question,
        since,
        rows: rows(rt, alloc, workers, evidence, given, question, since)?,
    })
}

/// What rows are made of beside the events themselves.
#[derive(Drop)]
struct Given {
    /// How many events there are.
    events: u64,
    /// The moments that a growth is about.
    span: Option<Span>,
    /// How much there is of the trace, which a summary says.
    extent: Extent,
}

/// The moments that a growth is about, none for any other question.
fn span<E: Evidence>(evidence: &E, question: Question) -> Option<Span>
    requires { is_of_events question ≡ true → E.keeps_events ≡ true }
    ensures { (process points : ℕ) (T : Trace) (until : Option ℕ)
        → question ≡ questions.Growth process points → E.tells evidence.now question T until
        → IsSpanUntil T until result }
{
    match question {
        Question::Growth { .. } => evidence.span(),
        _ => None,
    }
}

/// How much there is of the trace, if a summary is asked for.
fn extent<E: Evidence>(alloc: Global, evidence: &E, question: Question) -> Result<Extent, NoMemory>
    ensures { IfOk result (λ extent. (T : Trace) (until : Option ℕ)
        → question ≡ questions.Summary → E.tells evidence.now question T until
        → IsExtentOf T (extent_of extent)) }
{
    match question {
        Question::Summary => evidence.extent(alloc),
        _ => Ok(Extent::nothing(alloc)),
    }
}

/// The sequence after which handles count, where the question says since when, and there is one.
fn since<P: Part>(parts: &[P], question: Question) -> Option<u64>
    ensures { (own : List Event) → AreEventsOf (map P.contents parts.now) own
        → IsSinceIfGiven own (process_of question) (asks_since question) result }
{
    match question {
        Question::Diff { process, since } => Some(sequence_of(parts, process, since)),
        Question::Leaks {
            process,
            since: Some(since),
            ..
        } => Some(sequence_of(parts, process, since)),
        Question::Sites {
            since: Some(Since::Sequence(sequence)),
            ..
        } => Some(sequence),
        _ => None,
    }
}

/// The given sequence, or that of the process's last snapshot.
fn sequence_of<P: Part>(parts: &[P], process: u32, since: Since) -> u64
    ensures { (own : List Event) → AreEventsOf (map P.contents parts.now) own
        → IsSince own process since result }
{
    match since {
        Since::Sequence(sequence) => sequence,
        Since::Snapshot => mark(parts, process),
    }
}

/// The rows of the answer, where handles count after a sequence.
fn rows<Rt: Threads + Sync, E: Evidence>(
    rt: &Rt,
    alloc: Global,
    workers: u32,
    evidence: &E,
    given: Given,
    question: Question,
    since: Option<u64>,
) -> Result<Rows, NoMemory>
where
    E::Part: Sync,
    <E::Part as Part>::Held: Sync,
    requires few { size_of_all (E.kept evidence.now).parts < 2 ^ 64 }
    requires counted { given.events ≡ (E.kept evidence.now).number }
    requires events { is_of_events question ≡ true → E.keeps_events ≡ true }
    ensures { IfOk result (λ rows. (T : Trace) (until : Option ℕ) (own : List Event)
        → TellsBy E.keeps_events (E.kept evidence.now) question T until own
        → AreRows (basis own given.span (extent_of given.extent)) question since (listed rows)) }
{
    let parts = evidence.parts();
    Ok(match question {
        Question::Summary => summary(rt, alloc, workers, evidence, given)?,
        Question::Outstanding { process } => Rows::Opens(outstanding(alloc, parts, process)?),
        Question::Diff { process, .. } => {
            Rows::Opens(diff(alloc, parts, process, since.unwrap_or(0))?)
        }
        Question::Tags { object } => Rows::Tags(tags(alloc, parts, object)?),
        Question::Bad { process } => Rows::Bad(bad(alloc, parts, process)?),
        Question::Leaks {
            process,
            at_least,
            ..
        } => Rows::Leaks(leaks(alloc, parts, process, since, u64::from(at_least))?),
        Question::Sites {
            since: asked,
            at_least,
        } => Rows::Sites(sites(alloc, &alloc, parts, asked, u64::from(at_least))?),
        Question::Stacks { object, tag } => Rows::Stacks(stacks(alloc, parts, object, tag)?),
        Question::Balance { all } => {
            let TagBalances { objects, tags } = tag_balances(alloc, parts, all)?;
            Rows::Balances { objects, tags }
        }
        Question::TagStacks { tag } => Rows::TagStacks(tag_stacks(alloc, &alloc, parts, tag)?),
        Question::Trace { process, handle } => {
            Rows::Listing(events_of_handle(alloc, one_by_one(parts), process, handle)?)
        }
        Question::Growth { process, points } => {
            Rows::Points(growth(alloc, one_by_one(parts), process, given.span, points)?)
        }
    })
}

/// The lists of the events that the one part holds.
fn one_by_one<P: Part>(parts: &[P]) -> &[P::Held]
    ensures { (own : List Event) → map P.contents parts.now ≡ unfolded own ∷ []
        → flat_map P.Held.events_of result.now ≡ own }
{
    match parts.first() {
        Some(part) => part.held(),
        None => &[],
    }
}

/// The rows of a summary.
fn summary<Rt: Threads + Sync, E: Evidence>(
    rt: &Rt,
    alloc: Global,
    workers: u32,
    evidence: &E,
    given: Given,
) -> Result<Rows, NoMemory>
where
    E::Part: Sync,
    <E::Part as Part>::Held: Sync,
    requires few { size_of_all (E.kept evidence.now).parts < 2 ^ 64 }
    requires counted { given.events ≡ (E.kept evidence.now).number }
    ensures { IfOk result (λ rows. (T : Trace) (until : Option ℕ) (own : List Event)
        → TellsBy E.keeps_events (E.kept evidence.now) questions.Summary T until own
        → AreRows (basis own given.span (extent_of given.extent)) questions.Summary None
        (listed rows)) }
{
    let Summary { objects, processes } = summarize(rt, alloc, workers, evidence.parts())?;
    let Objects { number, unbalanced } = objects;
    let Given { events, extent, .. } = given;
    let Extent {
        processors,
        segments,
        gaps,
        complete_to,
        ..
    } = extent;
    Ok(Rows::Summary {
        totals: Totals {
            processors,
            segments,
            events,
            complete_to,
            objects: number,
        },
        gaps,
        processes,
        objects: unbalanced,
    })
}
