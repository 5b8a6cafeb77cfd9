//! The rows of what an analyst keeps of each processor.

ghost use Rattle.std.specs.Prelude.{◌≡◌, ◌<◌, ℕ, length, IfOk};
ghost use Rattle.std.specs.List.{flat_map};
ghost use Rattle.htl_taken.specs.Numbers.{front_at};
ghost use Rattle.htl_analyst.specs.States.{part_at, folded_at};
ghost use Rattle.htl_saved.specs.AnalystRows.{stacks_of, part_rows, rows_at, HasTables};
ghost use Rattle.htl_saved.specs.Tables.{IsOrdered, HasAll};

use crate::counts::count_rows;
use crate::latest::latest_rows;
use htl_analyst::{Analyst, Part};
use htl_answers as answers;
use htl_event::{NoMemory, SharedStack};
use htl_segment::copies;
use htl_state::PartRows;
use std::alloc::{Allocator, Global};

/// The rows of each processor. The table has all stacks.
pub(crate) fn all_parts<A: Allocator + Clone>(
    alloc: Global,
    table: &[SharedStack],
    analyst: &Analyst<A>,
) -> Result<Vec<PartRows>, NoMemory>
    requires ordered { IsOrdered table.now }
    requires here { HasAll table.now (flat_map stacks_of analyst.now.parts) }
    ensures len { IfOk result (λ parts. length parts.items ≡ analyst.now.processors) }
    ensures each { IfOk result (λ parts. (p : ℕ) → p < analyst.now.processors
        → rows_at parts.items p ≡ part_rows table.now (front_at analyst.now.taken p)
        (part_at analyst.now.parts p)) }
    ensures tables { IfOk result (λ _. (p : ℕ) → p < analyst.now.processors
        → HasTables (folded_at analyst.now.parts p)) }
{
    let kept = analyst.parts();
    let mut parts = Vec::new(alloc);
    for processor in 0..analyst.processors() {
        let part = &kept[usize::from(processor)];
        parts.push(rows_of_part(alloc, table, analyst, processor, part)?)?;
    }
    Ok(parts)
}

/// The rows of one processor, of which the analyst keeps this part.
fn rows_of_part<A: Allocator + Clone>(
    alloc: Global,
    table: &[SharedStack],
    analyst: &Analyst<A>,
    processor: u16,
    part: &Part<A>,
) -> Result<PartRows, NoMemory>
    requires ordered { IsOrdered table.now }
    requires here { HasAll table.now (stacks_of part.now) }
    requires kept { part.now ≡ part_at analyst.now.parts processor }
    ensures rows { IfOk result (λ rows. rows ≡ part_rows table.now
        (front_at analyst.now.taken processor) part.now) }
    ensures tables { IfOk result (λ _. HasTables part.now.folded) }
{
    let tree = answers::Part::tree(part);
    // For the proof: what every tree is, is known with its total.
    let _total = tree.total();
    let counts = count_rows(alloc, table, tree)?;
    let latest = latest_rows(alloc, table, answers::Part::latest(part).rows())?;
    Ok(PartRows {
        front: analyst.front(processor),
        last_sequence: analyst.last_folded(processor),
        events: part.number_folded(),
        counts,
        latest,
        marks: Vec::from_slice(alloc, answers::Part::marks(part).rows())?,
        exits: Vec::from_slice(alloc, answers::Part::exits(part).rows())?,
        held: copies(alloc, part.held())?,
    })
}
