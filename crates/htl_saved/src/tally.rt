//! The counts of a tree.

ghost use Rattle.std.specs.Prelude.{◌≡◌, map, IfOk};
ghost use Rattle.htl_tree.specs.Trees.{by_stack};

use htl_event::{Count, NoMemory, SharedStack, Slot};
use htl_tree::{Slots, StackTree};
use std::alloc::{Allocator, Global};

/// All counts of the tree, by stack and then by slot.
pub(crate) fn counts_of<A: Allocator>(
    alloc: Global,
    tree: &StackTree<A>,
) -> Result<Vec<((Slot, SharedStack), Count)>, NoMemory>
    ensures { IfOk result (λ counts. map by_stack counts.items ≡ tree.now) }
{
    // For the proof: what every tree is, is known with its total.
    let _total = tree.total();
    let counts = tree.rows_of(alloc, Slots::All)?;
    Ok(counts)
}
