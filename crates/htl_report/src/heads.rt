//! The first line of an answer up to its numbers.

ghost use Rattle.std.specs.Prelude.{◌≡◌, ◌++◌, OnOk, string_bytes};
ghost use Rattle.htl_report.specs.Heads.{handle_part, head_part, process_part, sequence_part};
ghost use Rattle.htl_report.specs.Heads.{since_part, subject_part, tag_part};

use crate::parts::{write_object, write_tag};
use htl_event::base;
use htl_question::{Question, Subject};
use std::alloc::AllocError;

/// Writes the word of the question, what it is about, and since when handles count, where the
/// question says it.
pub(crate) fn write_head(
    out: &mut String,
    question: Question,
    since: Option<u64>,
) -> Result<(), AllocError>
    ensures { OnOk result (string_bytes out.new
        ≡ string_bytes out.old ++ head_part question since) }
{
    out.push_str(question.word())?;
    write_subject(out, question.subject())?;
    write_since(out, question, since)
}

fn write_subject(out: &mut String, subject: Option<Subject>) -> Result<(), AllocError>
    ensures { OnOk result (string_bytes out.new
        ≡ string_bytes out.old ++ subject_part subject) }
{
    match subject {
        None => Ok(()),
        Some(Subject::Process(process)) => write_process(out, process),
        Some(Subject::Object(object)) => write_object(out, object),
        Some(Subject::Tag { object, tag }) => {
            write_object(out, object)?;
            write_tag_part(out, &tag)
        }
        Some(Subject::TagOfAll(tag)) => write_tag_part(out, &tag),
        Some(Subject::Handle { process, handle }) => {
            write_process(out, process)?;
            write_handle(out, handle)
        }
    }
}

#[tactic(auto, unfolding(crate::specs::Heads::process_part))]
fn write_process(out: &mut String, process: u32) -> Result<(), AllocError>
    ensures { OnOk result (string_bytes out.new
        ≡ string_bytes out.old ++ process_part process) }
{
    write!(out, " process={process}")
}

fn write_tag_part(out: &mut String, tag: &[u8]) -> Result<(), AllocError>
    ensures { OnOk result (string_bytes out.new
        ≡ string_bytes out.old ++ tag_part tag.now) }
{
    out.push_str(" tag=")?;
    write_tag(out, tag)
}

#[tactic(auto, unfolding(crate::specs::Heads::handle_part))]
fn write_handle(out: &mut String, handle: u32) -> Result<(), AllocError>
    ensures { OnOk result (string_bytes out.new
        ≡ string_bytes out.old ++ handle_part handle) }
{
    let base = base(handle);
    write!(out, " handle=0x{base:x}")
}

fn write_since(out: &mut String, question: Question, since: Option<u64>) -> Result<(), AllocError>
    ensures { OnOk result (string_bytes out.new
        ≡ string_bytes out.old ++ since_part question since) }
{
    if question.is_since_snapshots() {
        out.push_str(" since=snapshot")
    } else {
        write_sequence(out, since)
    }
}

#[tactic(auto, unfolding(crate::specs::Heads::sequence_part))]
fn write_sequence(out: &mut String, since: Option<u64>) -> Result<(), AllocError>
    ensures { OnOk result (string_bytes out.new
        ≡ string_bytes out.old ++ sequence_part since) }
{
    match since {
        Some(since) => write!(out, " since={since}"),
        None => Ok(()),
    }
}
