//! The text of an answer, and whether it shows addresses without a name for any.

ghost use Rattle.std.specs.Prelude.{◌≡◌, ◌++◌, IfOk, OnOk, string_bytes};
ghost use Rattle.htl_question.specs.Rows.{listed};
ghost use Rattle.htl_report.specs.Names.{none_named, shown_addresses};
ghost use Rattle.htl_report.specs.Rows.{with_stack};
ghost use Rattle.htl_report.specs.Texts.{list_text, rows_text, text_of};

use crate::counts::{Balances, Leaks, Points, Sites, Stacks, TagStacks, Tags, write_objects};
use crate::events::{Bad, Listing, Opens};
use crate::heads::write_head;
use crate::names::have_no_name;
use crate::parts::write_count;
use crate::rows::{Form, first_rows, write_rows};
use crate::summary::write_summary;
use htl_event::NoMemory;
use htl_question::{Answer, Rows};
use htl_symbols::Symbols;
use std::alloc::{AllocError, Global};

/// The lines of an answer, each ended by a line feed, with the addresses of its stacks by name
/// where the symbols have them. Names are printed as they are.
///
/// Where `until` is given, the first line says that events count up to this moment.
///
/// Where `top` is given, at most the first `top` rows are printed; of a summary this many processes
/// and this many objects, and all gaps. The first line counts all rows.
pub fn text(
    alloc: Global,
    answer: &Answer,
    symbols: &Symbols,
    until: Option<u64>,
    top: Option<u32>,
) -> Result<Vec<u8>, NoMemory>
    ensures { IfOk result (λ bytes. bytes.items ≡ text_of symbols.now until top answer.now) }
{
    let mut out = String::new(alloc);
    write_head(&mut out, answer.question, answer.since)?;
    write_answer(alloc, &mut out, &answer.rows, symbols, until, top)?;
    Ok(out.into_bytes())
}

/// Whether the rows of the answer that are printed, at most `top`, have addresses, and the symbols
/// have a name for none of these.
pub fn shows_no_name(answer: &Answer, symbols: &Symbols, top: Option<u32>) -> bool
    ensures { result ≡ none_named symbols.now (shown_addresses top answer.now.rows) }
{
    match &answer.rows {
        Rows::Opens(rows) => have_no_name::<Opens>(first_rows(top, rows), symbols),
        Rows::Listing(rows) => have_no_name::<Listing>(first_rows(top, rows), symbols),
        Rows::Bad(rows) => have_no_name::<Bad>(first_rows(top, rows), symbols),
        Rows::Leaks(rows) => have_no_name::<Leaks>(first_rows(top, rows), symbols),
        Rows::Sites(rows) => have_no_name::<Sites>(first_rows(top, rows), symbols),
        Rows::Stacks(rows) => have_no_name::<Stacks>(first_rows(top, rows), symbols),
        Rows::TagStacks(rows) => have_no_name::<TagStacks>(first_rows(top, rows), symbols),
        Rows::Tags(_) | Rows::Balances { .. } | Rows::Points(_) | Rows::Summary { .. } => false,
    }
}

/// Writes the numbers of the first line, and the lines of the rows.
fn write_answer(
    alloc: Global,
    out: &mut String,
    rows: &Rows,
    symbols: &Symbols,
    until: Option<u64>,
    top: Option<u32>,
) -> Result<(), AllocError>
    ensures { OnOk result (string_bytes out.new
        ≡ string_bytes out.old ++ rows_text symbols.now until top (listed rows.now)) }
{
    match rows {
        Rows::Opens(rows) => write_list::<Opens>(alloc, out, symbols, until, top, rows),
        Rows::Listing(rows) => write_list::<Listing>(alloc, out, symbols, until, top, rows),
        Rows::Tags(rows) => write_list::<Tags>(alloc, out, symbols, until, top, rows),
        Rows::Bad(rows) => write_list::<Bad>(alloc, out, symbols, until, top, rows),
        Rows::Leaks(rows) => write_list::<Leaks>(alloc, out, symbols, until, top, rows),
        Rows::Sites(rows) => write_list::<Sites>(alloc, out, symbols, until, top, rows),
        Rows::Stacks(rows) => write_list::<Stacks>(alloc, out, symbols, until, top, rows),
        Rows::Balances { objects, tags } => {
            write_objects(out, *objects)?;
            write_list::<Balances>(alloc, out, symbols, until, top, tags)
        }
        Rows::TagStacks(rows) => write_list::<TagStacks>(alloc, out, symbols, until, top, rows),
        Rows::Points(rows) => write_list::<Points>(alloc, out, symbols, until, top, rows),
        Rows::Summary {
            totals,
            gaps,
            processes,
            objects,
        } => write_summary(
            alloc, out, symbols, until, top, totals, gaps, processes, objects,
        ),
    }
}

/// Writes the end of the first line, which counts all rows, and the lines of those that are printed.
fn write_list<F: Form>(
    alloc: Global,
    out: &mut String,
    symbols: &Symbols,
    until: Option<u64>,
    top: Option<u32>,
    rows: &[F::Row],
) -> Result<(), AllocError>
    ensures { OnOk result (string_bytes out.new ≡ string_bytes out.old ++ list_text
        (λ row. with_stack symbols.now (F.line_of row) (F.stack_of row)) until top rows.now) }
{
    write_count(out, until, rows.len())?;
    write_rows::<F>(alloc, out, symbols, first_rows(top, rows))
}
