//! Summaries: everything that leaks, and the segments that are missing.

ghost use Rattle.std.specs.Prelude.{◌≡◌, ◌++◌, None, OnOk, string_bytes};
ghost use Rattle.htl_report.specs.Summaries.{absent_line, between_line, events_part};
ghost use Rattle.htl_report.specs.Summaries.{gap_line, handles_part, lines_part, moments_part};
ghost use Rattle.htl_report.specs.Summaries.{object_line, process_line, summary_head};
ghost use Rattle.htl_report.specs.Summaries.{summary_text, tags_part, totals_part};

use crate::parts::{write_object, write_until};
use crate::rows::{Form, first_rows, write_rows};
use htl_event::{ObjectRow, ProcessRow, SharedStack};
use htl_question::Totals;
use htl_symbols::Symbols;
use htl_taken::Gap;
use std::alloc::{AllocError, Global};

#[tactic(auto, unfolding(crate::specs::Summaries::summary_text))]
pub(crate) fn write_summary(
    alloc: Global,
    out: &mut String,
    symbols: &Symbols,
    until: Option<u64>,
    top: Option<u32>,
    totals: &Totals,
    gaps: &[Gap],
    processes: &[ProcessRow],
    objects: &[ObjectRow],
) -> Result<(), AllocError>
    ensures { OnOk result (string_bytes out.new
        ≡ string_bytes out.old
        ++ summary_text until top totals.now gaps.now processes.now objects.now) }
{
    write_head(
        out,
        until,
        totals,
        gaps.len(),
        processes.len(),
        objects.len(),
    )?;
    write_rows::<Gaps>(alloc, out, symbols, gaps)?;
    write_rows::<Processes>(alloc, out, symbols, first_rows(top, processes))?;
    write_rows::<Objects>(alloc, out, symbols, first_rows(top, objects))
}

fn write_head(
    out: &mut String,
    until: Option<u64>,
    totals: &Totals,
    gaps: usize,
    processes: usize,
    unbalanced: usize,
) -> Result<(), AllocError>
    ensures { OnOk result (string_bytes out.new
        ≡ string_bytes out.old ++ summary_head until totals.now gaps processes unbalanced) }
{
    write_totals(out, totals)?;
    write_lines(out, gaps, processes, totals.objects, unbalanced)?;
    write_until(out, until)?;
    out.push('\n')
}

#[tactic(auto, unfolding(crate::specs::Summaries::totals_part))]
fn write_totals(out: &mut String, totals: &Totals) -> Result<(), AllocError>
    ensures { OnOk result (string_bytes out.new
        ≡ string_bytes out.old ++ totals_part totals.now) }
{
    let Totals {
        processors,
        segments,
        events,
        complete_to,
        ..
    } = *totals;
    write!(
        out,
        " processors={processors} segments={segments} events={events} complete_to={complete_to}"
    )
}

#[tactic(auto, unfolding(crate::specs::Summaries::lines_part))]
fn write_lines(
    out: &mut String,
    gaps: usize,
    processes: usize,
    objects: u64,
    unbalanced: usize,
) -> Result<(), AllocError>
    ensures { OnOk result (string_bytes out.new
        ≡ string_bytes out.old ++ lines_part gaps processes objects unbalanced) }
{
    write!(
        out,
        " gaps={gaps} processes={processes} objects={objects} unbalanced={unbalanced}"
    )
}

/// Segments that are missing.
struct Gaps;

impl Form for Gaps {
    type Row = Gap;

    ghost line_of = { gap_line };

    ghost stack_of = { λ row. None };

    fn write_line(out: &mut String, gap: &Gap) -> Result<(), AllocError> {
        match *gap {
            Gap::Between {
                processor,
                from,
                to,
            } => write_between(out, processor, from, to),
            Gap::Absent { processor } => write_absent(out, processor),
        }
    }

    fn stack(_gap: &Gap) -> Option<&SharedStack> {
        None
    }
}

#[tactic(auto, unfolding(crate::specs::Summaries::between_line))]
fn write_between(out: &mut String, processor: u16, from: u32, to: u32) -> Result<(), AllocError>
    ensures { OnOk result (string_bytes out.new
        ≡ string_bytes out.old ++ between_line processor from to) }
{
    writeln!(out, "GAP processor={processor} from={from} to={to}")
}

#[tactic(auto, unfolding(crate::specs::Summaries::absent_line))]
fn write_absent(out: &mut String, processor: u16) -> Result<(), AllocError>
    ensures { OnOk result (string_bytes out.new
        ≡ string_bytes out.old ++ absent_line processor) }
{
    writeln!(out, "GAP processor={processor} from=0")
}

/// Processes, each with its counts and its moments.
struct Processes;

impl Form for Processes {
    type Row = ProcessRow;

    ghost line_of = { process_line };

    ghost stack_of = { λ row. None };

    fn write_line(out: &mut String, row: &ProcessRow) -> Result<(), AllocError> {
        write_handles(out, row)?;
        write_events(out, row)?;
        write_moments(out, row)
    }

    fn stack(_row: &ProcessRow) -> Option<&SharedStack> {
        None
    }
}

#[tactic(auto, unfolding(crate::specs::Summaries::handles_part))]
fn write_handles(out: &mut String, row: &ProcessRow) -> Result<(), AllocError>
    ensures { OnOk result (string_bytes out.new
        ≡ string_bytes out.old ++ handles_part row.now) }
{
    let ProcessRow {
        process,
        outstanding,
        ..
    } = *row;
    write!(out, "PROCESS process={process} outstanding={outstanding}")
}

#[tactic(auto, unfolding(crate::specs::Summaries::events_part))]
fn write_events(out: &mut String, row: &ProcessRow) -> Result<(), AllocError>
    ensures { OnOk result (string_bytes out.new
        ≡ string_bytes out.old ++ events_part row.now) }
{
    let ProcessRow {
        opens,
        closes,
        bad,
        ..
    } = *row;
    write!(out, " opens={opens} closes={closes} bad={bad}")
}

#[tactic(auto, unfolding(crate::specs::Summaries::moments_part))]
fn write_moments(out: &mut String, row: &ProcessRow) -> Result<(), AllocError>
    ensures { OnOk result (string_bytes out.new
        ≡ string_bytes out.old ++ moments_part row.now) }
{
    let ProcessRow { mark, exit, .. } = *row;
    writeln!(out, " mark={mark} exit={exit}")
}

/// Objects with an unbalanced tag.
struct Objects;

impl Form for Objects {
    type Row = ObjectRow;

    ghost line_of = { object_line };

    ghost stack_of = { λ row. None };

    fn write_line(out: &mut String, row: &ObjectRow) -> Result<(), AllocError> {
        out.push_str("OBJECT")?;
        write_object(out, row.object)?;
        write_object_tags(out, row)
    }

    fn stack(_row: &ObjectRow) -> Option<&SharedStack> {
        None
    }
}

#[tactic(auto, unfolding(crate::specs::Summaries::tags_part))]
fn write_object_tags(out: &mut String, row: &ObjectRow) -> Result<(), AllocError>
    ensures { OnOk result (string_bytes out.new
        ≡ string_bytes out.old ++ tags_part row.now) }
{
    let ObjectRow {
        tags,
        unbalanced,
        refs,
        derefs,
        ..
    } = *row;
    writeln!(
        out,
        " tags={tags} unbalanced={unbalanced} refs={refs} derefs={derefs}"
    )
}
