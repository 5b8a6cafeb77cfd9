//! Rows of events: outstanding handles and differences, listings, and bad references.

ghost use Rattle.std.specs.Prelude.{◌≡◌, ◌++◌, OnOk, Some, codes, string_bytes};
ghost use Rattle.htl_event.specs.Slots.{base_of};
ghost use Rattle.htl_event.specs.Words.{word_of};
ghost use Rattle.htl_report.specs.Rows.{bad_line, event_line};

use crate::rows::Form;
use htl_event::{SharedEvent, SharedStack, base};
use std::alloc::AllocError;

/// Handles, each by the event that opened it.
pub(crate) struct Opens;

impl Form for Opens {
    type Row = SharedEvent;

    ghost line_of = { λ event. event_line (codes "OPEN") (base_of event.handle) event };

    ghost stack_of = { λ event. Some event.stack };

    const STACKS_REPEAT: bool = true;

    fn write_line(out: &mut String, event: &SharedEvent) -> Result<(), AllocError> {
        write_event(out, "OPEN", base(event.handle), event)
    }

    fn stack(event: &SharedEvent) -> Option<&SharedStack> {
        Some(&event.stack)
    }
}

/// Events, each by its word, with its handle as written.
pub(crate) struct Listing;

impl Form for Listing {
    type Row = SharedEvent;

    ghost line_of = { λ event. event_line (word_of event.kind) event.handle event };

    ghost stack_of = { λ event. Some event.stack };

    const STACKS_REPEAT: bool = true;

    fn write_line(out: &mut String, event: &SharedEvent) -> Result<(), AllocError> {
        write_event(out, event.kind.word(), event.handle, event)
    }

    fn stack(event: &SharedEvent) -> Option<&SharedStack> {
        Some(&event.stack)
    }
}

/// Handles as written, each with how often a stack named it.
pub(crate) struct Bad;

impl Form for Bad {
    type Row = (u32, SharedStack, u64);

    ghost line_of = { λ row. bad_line row.0 row.2 };

    ghost stack_of = { λ row. Some row.1 };

    const STACKS_REPEAT: bool = true;

    fn write_line(out: &mut String, row: &(u32, SharedStack, u64)) -> Result<(), AllocError> {
        write_bad(out, row.0, row.2)
    }

    fn stack(row: &(u32, SharedStack, u64)) -> Option<&SharedStack> {
        Some(&row.1)
    }
}

#[tactic(auto, unfolding(crate::specs::Rows::event_line))]
fn write_event(
    out: &mut String,
    word: &str,
    handle: u32,
    event: &SharedEvent,
) -> Result<(), AllocError>
    ensures { OnOk result (string_bytes out.new
        ≡ string_bytes out.old ++ event_line word.now handle event.now) }
{
    let sequence = event.sequence;
    let thread = event.thread;
    writeln!(
        out,
        "{word} handle=0x{handle:x} seq={sequence} thread={thread}"
    )
}

#[tactic(auto, unfolding(crate::specs::Rows::bad_line))]
fn write_bad(out: &mut String, handle: u32, times: u64) -> Result<(), AllocError>
    ensures { OnOk result (string_bytes out.new
        ≡ string_bytes out.old ++ bad_line handle times) }
{
    writeln!(out, "BAD REF handle=0x{handle:x} times={times}")
}
