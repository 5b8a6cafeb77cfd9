//! The analyst whose state rows tell.

ghost use Rattle.std.specs.Prelude.{◌≡◌, ◌<◌, map, IfOk, IfErr};
ghost use Rattle.htl_analyst.specs.Right.{IsState};
ghost use Rattle.htl_analyst.specs.Restored.{fold_of, RestoreRefused};
ghost use Rattle.htl_state.specs.WellFormed.{WellFormed};
ghost use Rattle.htl_saved.specs.Restored.{fold_told, folds_told, state_told};
ghost use Rattle.htl_saved.specs.Restored.{IsFoldable, AreFoldable};

use crate::bounds::check_bounds;
use crate::from_rows::{counts_of_rows, events_of_rows, greatest_of, latest_of, tree_of};
use crate::holding::take_held;
use htl_analyst::{Analyst, FoldedPart, RestoreFault};
use htl_event::{NoMemory, SharedStack};
use htl_state::{PartRows, StateRows};
use std::alloc::Global;

/// The analyst whose state the rows tell. Stacks and held segments stay shared with them.
///
/// Rows may keep all rules of the format and still tell no state: a processor may have more counts or
/// events than the segments below its front can have. This is tried before memory is asked for.
pub fn analyst_of(alloc: Global, rows: &StateRows) -> Result<Analyst<Global>, RestoreFault>
    requires { WellFormed rows.now }
    ensures state { IfOk result (λ a. (a ≡ state_told rows.now) × IsState a) }
    ensures refused { IfErr result (λ fault. RestoreRefused (folds_told rows.now) fault) }
{
    check_bounds(&rows.parts)?;
    let folds = folded_parts(alloc, &rows.stacks, &rows.parts)?;
    let mut analyst = Analyst::of_parts(alloc, rows.trace_id, folds)?;
    take_held(&mut analyst, &rows.parts)?;
    Ok(analyst)
}

/// What was folded of each processor.
fn folded_parts(
    alloc: Global,
    table: &[SharedStack],
    parts: &[PartRows],
) -> Result<Vec<FoldedPart<Global>>, NoMemory>
    requires { AreFoldable table.now parts.now }
    ensures { IfOk result (λ folds. map fold_of folds.items ≡ map (fold_told table.now) parts.now) }
{
    let mut folds = Vec::with_capacity(alloc, parts.len())?;
    for part in parts {
        folds.push(folded_part(alloc, table, part)?)?;
    }
    Ok(folds)
}

/// What was folded of one processor.
fn folded_part(
    alloc: Global,
    table: &[SharedStack],
    part: &PartRows,
) -> Result<FoldedPart<Global>, NoMemory>
    requires { IsFoldable table.now part.now }
    ensures { IfOk result (λ fold. fold_of fold ≡ fold_told table.now part.now) }
{
    let counts = counts_of_rows(alloc, table, &part.counts)?;
    let tree = tree_of(alloc, &counts)?;
    let events = events_of_rows(alloc, table, &part.latest)?;
    Ok(FoldedPart {
        front: part.front,
        tree,
        latest: latest_of(events),
        marks: greatest_of(alloc, &part.marks)?,
        exits: greatest_of(alloc, &part.exits)?,
        last_sequence: part.last_sequence,
        events: part.events,
    })
}
