//! The first line of each answer.

ghost use Rattle.std.specs.Prelude.{◌≡◌, [], OnOk};
ghost use Rattle.htl_json.specs.Heads.{head, numbers_fields, question_fields, since_fields};
ghost use Rattle.htl_json.specs.Heads.{subject_fields, summary_head, totals_fields, word_field};
ghost use Rattle.htl_json.specs.Writing.{AddsFields, AddsLine};

use crate::lines::Lines;
use crate::members::{Member, write_members};
use htl_event::base;
use htl_question::{Answer, Question, Subject, Totals};
use std::alloc::AllocError;

/// Writes the first line of an answer of so many rows. Balances are over so many objects.
pub(crate) fn write_head(
    lines: &mut Lines,
    answer: &Answer,
    objects: Option<u64>,
    until: Option<u64>,
    count: usize,
) -> Result<(), AllocError>
    requires { lines.old.writer.tokens ≡ [] }
    ensures { OnOk result (AddsLine lines.old lines.new
        (head answer.now.question answer.now.since objects until count)) }
{
    lines.begin_object()?;
    write_question(lines, answer.question, answer.since)?;
    write_numbers(lines, objects, until, count)?;
    lines.end_line()
}

/// Writes the first line of a summary, with the numbers of its gaps, processes and objects.
pub(crate) fn write_summary_head(
    lines: &mut Lines,
    answer: &Answer,
    until: Option<u64>,
    totals: &Totals,
    gaps: usize,
    processes: usize,
    unbalanced: usize,
) -> Result<(), AllocError>
    requires { lines.old.writer.tokens ≡ [] }
    ensures { OnOk result (AddsLine lines.old lines.new (summary_head answer.now.question
        answer.now.since until totals.now gaps processes unbalanced)) }
{
    lines.begin_object()?;
    write_question(lines, answer.question, answer.since)?;
    write_totals(lines, totals, gaps, processes, unbalanced)?;
    lines.optional("until", until)?;
    lines.end_line()
}

/// Writes what was asked: the word of the question, what it is about, and since when handles count,
/// where it says that.
fn write_question(
    lines: &mut Lines,
    question: Question,
    since: Option<u64>,
) -> Result<(), AllocError>
    ensures { OnOk result (AddsFields lines.old lines.new (question_fields question since)) }
{
    write_word(lines, question)?;
    write_subject(lines, question.subject())?;
    write_since(lines, question, since)
}

#[tactic(auto, unfolding(crate::specs::Heads::word_field))]
fn write_word(lines: &mut Lines, question: Question) -> Result<(), AllocError>
    ensures { OnOk result (AddsFields lines.old lines.new (word_field question)) }
{
    lines.text("answer", question.word())
}

#[tactic(auto, unfolding(crate::specs::Heads::subject_fields, crate::specs::Records::tag_fields))]
fn write_subject(lines: &mut Lines, subject: Option<Subject>) -> Result<(), AllocError>
    ensures { OnOk result (AddsFields lines.old lines.new (subject_fields subject)) }
{
    match subject {
        None => Ok(()),
        Some(Subject::Process(process)) => lines.number("process", process as u64),
        Some(Subject::Object(object)) => lines.address("object", object),
        Some(Subject::Tag { object, tag }) => {
            write_members(
                lines,
                &[Member::Address("object", object), Member::Tag(tag)],
            )
        }
        Some(Subject::TagOfAll(tag)) => lines.tag(tag),
        Some(Subject::Handle { process, handle }) => write_members(
            lines,
            &[
                Member::Number("process", process as u64),
                Member::Handle("handle", base(handle)),
            ],
        ),
    }
}

#[tactic(auto, unfolding(crate::specs::Heads::since_fields))]
fn write_since(lines: &mut Lines, question: Question, since: Option<u64>) -> Result<(), AllocError>
    ensures { OnOk result (AddsFields lines.old lines.new (since_fields question since)) }
{
    if question.is_since_snapshots() {
        lines.text("since", "snapshot")
    } else {
        lines.optional("since", since)
    }
}

#[tactic(auto, unfolding(crate::specs::Heads::numbers_fields))]
fn write_numbers(
    lines: &mut Lines,
    objects: Option<u64>,
    until: Option<u64>,
    count: usize,
) -> Result<(), AllocError>
    ensures { OnOk result
        (AddsFields lines.old lines.new (numbers_fields objects until count)) }
{
    write_members(
        lines,
        &[
            Member::Optional("objects", objects),
            Member::Optional("until", until),
            Member::Number("count", count as u64),
        ],
    )
}

#[tactic(auto, unfolding(crate::specs::Heads::totals_fields))]
fn write_totals(
    lines: &mut Lines,
    totals: &Totals,
    gaps: usize,
    processes: usize,
    unbalanced: usize,
) -> Result<(), AllocError>
    ensures { OnOk result (AddsFields lines.old lines.new
        (totals_fields totals.now gaps processes unbalanced)) }
{
    write_members(
        lines,
        &[
            Member::Number("processors", totals.processors as u64),
            Member::Number("segments", totals.segments),
            Member::Number("events", totals.events),
            Member::Number("complete_to", totals.complete_to),
            Member::Number("gaps", gaps as u64),
            Member::Number("processes", processes as u64),
            Member::Number("objects", totals.objects),
            Member::Number("unbalanced", unbalanced as u64),
        ],
    )
}
