//! Rows of events: outstanding handles and differences, listings, and bad references.

ghost use Rattle.htl_json.specs.Rows.{bad_reference, listed, opened};

use crate::lines::Lines;
use crate::members::Member;
use crate::rows::{Form, write_stack_line};
use htl_event::{SharedEvent, SharedStack, base};
use htl_symbols::Symbols;
use std::alloc::AllocError;

/// Handles, each by the event that opened it.
pub(crate) struct Opens;

impl Form for Opens {
    type Row = SharedEvent;

    ghost value_of = { opened };

    fn write(lines: &mut Lines, symbols: &Symbols, event: &SharedEvent) -> Result<(), AllocError> {
        write_event(lines, symbols, "OPEN", base(event.handle), event)
    }
}

/// Events, each by its word, with its handle as written.
pub(crate) struct Listing;

impl Form for Listing {
    type Row = SharedEvent;

    ghost value_of = { listed };

    fn write(lines: &mut Lines, symbols: &Symbols, event: &SharedEvent) -> Result<(), AllocError> {
        write_event(lines, symbols, event.kind.word(), event.handle, event)
    }
}

/// Handles as written, each with how often a stack named it.
pub(crate) struct Bad;

impl Form for Bad {
    type Row = (u32, SharedStack, u64);

    ghost value_of = { bad_reference };

    #[tactic(auto, unfolding(crate::specs::Rows::bad_fields))]
    fn write(
        lines: &mut Lines,
        symbols: &Symbols,
        row: &(u32, SharedStack, u64),
    ) -> Result<(), AllocError> {
        let members = [
            Member::Text("event", "BAD REF"),
            Member::Handle("handle", row.0),
            Member::Number("times", row.2),
        ];
        write_stack_line(lines, symbols, &members, &row.1)
    }
}

ghost use Rattle.std.specs.Prelude.{◌≡◌, [], OnOk};
ghost use Rattle.htl_json.specs.Rows.{event_row};
ghost use Rattle.htl_json.specs.Writing.{AddsLine};

/// Writes an event, by this word and this handle, and its stack.
#[tactic(auto, unfolding(crate::specs::Rows::event_fields))]
fn write_event(
    lines: &mut Lines,
    symbols: &Symbols,
    word: &str,
    handle: u32,
    event: &SharedEvent,
) -> Result<(), AllocError>
    requires { lines.old.writer.tokens ≡ [] }
    ensures { OnOk result
        (AddsLine lines.old lines.new (event_row symbols.now word.now handle event.now)) }
{
    let members = [
        Member::Text("event", word),
        Member::Handle("handle", handle),
        Member::Number("sequence", event.sequence),
        Member::Number("thread", event.thread as u64),
    ];
    write_stack_line(lines, symbols, &members, &event.stack)
}
