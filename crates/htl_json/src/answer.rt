//! The lines of an answer.

ghost use Rattle.std.specs.Prelude.{◌≡◌, [], All, IfOk, OnOk, flat_map};
ghost use Rattle.htl_json.specs.Lines.{IsReadBack, json_line, list_values, summary_values};
ghost use Rattle.htl_json.specs.Lines.{values_of, values_with};
ghost use Rattle.htl_json.specs.Writing.{AddsValues};
ghost use Rattle.htl_question.specs.Rows.{listed};

use crate::counts::{Balances, Leaks, Points, Sites, Stacks, TagStacks, Tags};
use crate::events::{Bad, Listing, Opens};
use crate::heads::{write_head, write_summary_head};
use crate::lines::Lines;
use crate::rows::{Form, write_rows};
use crate::summary::{Gaps, Objects, Processes};
use htl_event::{NoMemory, ObjectRow, ProcessRow};
use htl_question::{Answer, Rows, Totals};
use htl_report::first_rows;
use htl_symbols::Symbols;
use htl_taken::Gap;
use std::alloc::{AllocError, Global};

/// The lines of an answer as JSON, each an object and a line feed. The first line has the fields of
/// the text's first line under the same `until`. Then there is one for each row that the text
/// prints under the same `top`, in the same order.
pub fn json_lines(
    alloc: Global,
    answer: &Answer,
    symbols: &Symbols,
    until: Option<u64>,
    top: Option<u32>,
) -> Result<Vec<u8>, NoMemory>
    ensures text { IfOk result (λ bytes. bytes.items
        ≡ flat_map json_line (values_of symbols.now until top answer.now)) }
    ensures read_back { IfOk result
        (λ _. All IsReadBack (values_of symbols.now until top answer.now)) }
{
    let mut lines = Lines::new(alloc);
    write_answer(&mut lines, answer, symbols, until, top)?;
    Ok(lines.into_bytes())
}

fn write_answer(
    lines: &mut Lines,
    answer: &Answer,
    symbols: &Symbols,
    until: Option<u64>,
    top: Option<u32>,
) -> Result<(), AllocError>
    requires { lines.old.writer.tokens ≡ [] }
    ensures { OnOk result
        (AddsValues lines.old lines.new (values_of symbols.now until top answer.now)) }
{
    write_values(lines, answer, &answer.rows, symbols, until, top)
}

fn write_values(
    lines: &mut Lines,
    answer: &Answer,
    rows: &Rows,
    symbols: &Symbols,
    until: Option<u64>,
    top: Option<u32>,
) -> Result<(), AllocError>
    requires { lines.old.writer.tokens ≡ [] }
    ensures { OnOk result (AddsValues lines.old lines.new
        (values_with symbols.now until top answer.now (listed rows.now))) }
{
    match rows {
        Rows::Opens(rows) => write_list::<Opens>(lines, answer, None, symbols, until, top, rows),
        Rows::Listing(rows) => write_list::<Listing>(
            lines, answer, None, symbols, until, top, rows,
        ),
        Rows::Tags(rows) => write_list::<Tags>(lines, answer, None, symbols, until, top, rows),
        Rows::Bad(rows) => write_list::<Bad>(lines, answer, None, symbols, until, top, rows),
        Rows::Leaks(rows) => write_list::<Leaks>(lines, answer, None, symbols, until, top, rows),
        Rows::Sites(rows) => write_list::<Sites>(lines, answer, None, symbols, until, top, rows),
        Rows::Stacks(rows) => write_list::<Stacks>(lines, answer, None, symbols, until, top, rows),
        Rows::Balances { objects, tags } => {
            write_list::<Balances>(lines, answer, Some(*objects), symbols, until, top, tags)
        }
        Rows::TagStacks(rows) => {
            write_list::<TagStacks>(lines, answer, None, symbols, until, top, rows)
        }
        Rows::Points(rows) => write_list::<Points>(lines, answer, None, symbols, until, top, rows),
        Rows::Summary {
            totals,
            gaps,
            processes,
            objects,
        } => write_summary(
            lines, answer, symbols, until, top, totals, gaps, processes, objects,
        ),
    }
}

/// Writes the first line, which counts all rows, and the lines of the rows that are printed.
fn write_list<F: Form>(
    lines: &mut Lines,
    answer: &Answer,
    objects: Option<u64>,
    symbols: &Symbols,
    until: Option<u64>,
    top: Option<u32>,
    rows: &[F::Row],
) -> Result<(), AllocError>
    requires { lines.old.writer.tokens ≡ [] }
    ensures { OnOk result (AddsValues lines.old lines.new
        (list_values (F.value_of symbols.now) objects answer.now until top rows.now)) }
{
    write_head(lines, answer, objects, until, rows.len())?;
    write_rows::<F>(lines, symbols, first_rows(top, rows))
}

fn write_summary(
    lines: &mut Lines,
    answer: &Answer,
    symbols: &Symbols,
    until: Option<u64>,
    top: Option<u32>,
    totals: &Totals,
    gaps: &[Gap],
    processes: &[ProcessRow],
    objects: &[ObjectRow],
) -> Result<(), AllocError>
    requires { lines.old.writer.tokens ≡ [] }
    ensures { OnOk result (AddsValues lines.old lines.new
        (summary_values answer.now until top totals.now gaps.now processes.now objects.now)) }
{
    write_summary_head(
        lines,
        answer,
        until,
        totals,
        gaps.len(),
        processes.len(),
        objects.len(),
    )?;
    write_rows::<Gaps>(lines, symbols, gaps)?;
    write_rows::<Processes>(lines, symbols, first_rows(top, processes))?;
    write_rows::<Objects>(lines, symbols, first_rows(top, objects))
}
