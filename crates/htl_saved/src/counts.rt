//! Counts: the rows of a tree.

ghost use Rattle.std.specs.Prelude.{◌≡◌, map, IfOk};
ghost use Rattle.htl_tree.specs.Trees.{by_stack};
ghost use Rattle.htl_saved.specs.Tables.{IsOrdered, HasAll, count_row};

use crate::place::place_of;
use crate::tally::counts_of;
use htl_event::{Count, NoMemory, SharedStack, Slot};
use htl_state::CountRow;
use htl_tree::StackTree;
use std::alloc::{Allocator, Global};

/// The rows of the tree's counts. The table has their stacks.
pub(crate) fn count_rows<A: Allocator>(
    alloc: Global,
    table: &[SharedStack],
    tree: &StackTree<A>,
) -> Result<Vec<CountRow>, NoMemory>
    requires ordered { IsOrdered table.now }
    requires here { HasAll table.now (map (λ row. row.0.0) tree.now) }
    ensures { IfOk result (λ rows. rows.items ≡ map (count_row table.now) tree.now) }
{
    let counts = counts_of(alloc, tree)?;
    rows_of_counts(alloc, table, &counts)
}

fn rows_of_counts(
    alloc: Global,
    table: &[SharedStack],
    counts: &[((Slot, SharedStack), Count)],
) -> Result<Vec<CountRow>, NoMemory>
    requires ordered { IsOrdered table.now }
    requires here { HasAll table.now (map (λ row. row.0.1) counts.now) }
    ensures { IfOk result (λ rows. rows.items
        ≡ map (λ row. count_row table.now (by_stack row)) counts.now) }
{
    let mut rows = Vec::with_capacity(alloc, counts.len())?;
    for ((slot, stack), count) in counts {
        rows.push(CountRow {
            stack: place_of(table, stack),
            slot: *slot,
            count: *count,
        })?;
    }
    Ok(rows)
}
