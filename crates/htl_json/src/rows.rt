//! The lines of rows, of whatever form.

ghost use Rattle.std.specs.Prelude.{◌≡◌, ◌++◌, [], OnOk, flat_map};
ghost use Rattle.htl_json.specs.Frames.{stack_fields};
ghost use Rattle.htl_json.specs.Records.{record_of};
ghost use Rattle.htl_json.specs.Writing.{AddsLine, AddsLines, member_fields};

use crate::frames::write_stack;
use crate::lines::Lines;
use crate::members::{Member, write_members};
use htl_event::SharedStack;
use htl_symbols::Symbols;
use std::alloc::AllocError;

/// A form of row, which says what the line of a row has.
pub(crate) trait Form {
    ghost use Rattle.std.specs.Prelude.{◌≡◌, [], List, OnOk};
    ghost use Rattle.json.specs.Json.{Json};
    ghost use Rattle.htl_json.specs.Writing.{AddsLine};
    ghost use Rattle.htl_symbols.specs.Ranges.{Range};

    type Row;

    ghost value_of: { List Range → Self.Row → Json };

    /// Writes the row's line.
    fn write(lines: &mut Lines, symbols: &Symbols, row: &Self::Row) -> Result<(), AllocError>
        requires { lines.old.writer.tokens ≡ [] }
        ensures { OnOk result
            (AddsLine lines.old lines.new (value_of symbols.now row.now)) };
}

/// Writes a line for each row.
pub(crate) fn write_rows<F: Form>(
    lines: &mut Lines,
    symbols: &Symbols,
    rows: &[F::Row],
) -> Result<(), AllocError>
    requires { lines.old.writer.tokens ≡ [] }
    ensures { OnOk result
        (AddsLines (F.value_of symbols.now) lines.old lines.new rows.now) }
{
    for row in rows {
        F::write(lines, symbols, row)?;
    }
    Ok(())
}

/// Writes a line of these members.
pub(crate) fn write_line(lines: &mut Lines, members: &[Member<'_>]) -> Result<(), AllocError>
    requires { lines.old.writer.tokens ≡ [] }
    ensures { OnOk result (AddsLine lines.old lines.new
        (record_of (flat_map member_fields members.now))) }
{
    lines.begin_object()?;
    write_members(lines, members)?;
    lines.end_line()
}

/// Writes a line of these members and a stack.
pub(crate) fn write_stack_line(
    lines: &mut Lines,
    symbols: &Symbols,
    members: &[Member<'_>],
    stack: &SharedStack,
) -> Result<(), AllocError>
    requires { lines.old.writer.tokens ≡ [] }
    ensures { OnOk result (AddsLine lines.old lines.new (record_of
        (flat_map member_fields members.now ++ stack_fields symbols.now stack.now))) }
{
    lines.begin_object()?;
    write_members(lines, members)?;
    write_stack(lines, symbols, stack)?;
    lines.end_line()
}
