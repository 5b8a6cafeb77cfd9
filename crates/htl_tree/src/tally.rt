//! Makes a tree of the rows that it lists, or tells that no tree has them.

ghost use Rattle.std.specs.Prelude.{◌≡◌, ◌<◌, ◌≤◌, ◌^◌, ◌↔◌};
ghost use Rattle.std.specs.Prelude.{map, None, IsTrue, IfSome, IfOk};
ghost use Rattle.std.specs.List.{list_all, sum_by};
ghost use Rattle.std.specs.Ordering.{is_lt};
ghost use Rattle.htl_event.specs.Members.{IsRising};
ghost use Rattle.htl_event.specs.Tallies.{total_of};
ghost use Rattle.htl_tree.specs.Trees.{key_cmp, by_stack, total_count};
ghost use Rattle.htl_tree.specs.Trees.{AllShort, ByStackAndSlot, IsTally};
ghost use Rattle.htl_tree.specs.Nodes.{tree_of, IsNormalRoot};
ghost use Rattle.htl_tree.specs.Rows.{entries_of};
ghost use Rattle.htl_tree.specs.Removed.{is_some_count};
ghost use Rattle.htl_tree.specs.declared.tally.TallyFault.TheVariants as faults;

use crate::building::add_sorted_rows;
use crate::node::Node;
use crate::removing::counts_something;
use crate::row::Row;
use htl_event::{Count, NoMemory, SharedStack, Slot};
use std::alloc::Allocator;

/// Why no tree is made of rows.
#[derive(Clone, Copy, Debug, PartialEq, Eq)]
pub enum TallyFault {
    /// No tree lists these rows: they don't strictly rise by stack and then by slot, a count is zero,
    /// or the sum of all counts exceeds a `u64`.
    NoTally,
    NoMemory,
}

impl From<NoMemory> for TallyFault {
    ghost from_gives = { λ _ fault. fault ≡ faults.NoMemory };

    fn from(_refused: NoMemory) -> TallyFault {
        TallyFault::NoMemory
    }
}

/// The sum of all counts, if there is a tree of the rows.
pub fn total_of_tally(rows: &[((Slot, SharedStack), Count)]) -> Option<u64>
    ensures some { IfSome result (λ total.
        IsTally rows.now × (total ≡ total_count (map by_stack rows.now))) }
    ensures none { result ≡ None → IsTally rows.now → ⊥ }
{
    if !are_in_order(rows) || !all_count(rows) {
        return None;
    }
    total_of_rows(rows)
}

/// Whether the rows strictly rise by stack and then by slot.
fn are_in_order(rows: &[((Slot, SharedStack), Count)]) -> bool
    ensures { IsTrue result ↔ IsRising ByStackAndSlot rows.now }
{
    rows.is_sorted_by(|row, next| comes_before(row, next))
}

/// Whether the row comes before the other, by stack and then by slot.
fn comes_before(row: &((Slot, SharedStack), Count), other: &((Slot, SharedStack), Count)) -> bool
    ensures { result
        ≡ is_lt (key_cmp (row.now.0.1, row.now.0.0) (other.now.0.1, other.now.0.0)) }
{
    let ((slot, stack), _) = row;
    let ((other_slot, other_stack), _) = other;
    stack.cmp(other_stack).then(slot.cmp(other_slot)).is_lt()
}

/// Whether no count is zero.
fn all_count(rows: &[((Slot, SharedStack), Count)]) -> bool
    ensures { result ≡ list_all (λ row. is_some_count row.1) rows.now }
{
    rows.iter().all(|row| counts_something(row.1))
}

/// The sum of all counts, or none where it exceeds a `u64`.
fn total_of_rows(rows: &[((Slot, SharedStack), Count)]) -> Option<u64>
    ensures some { IfSome result (λ total.
        (total ≡ sum_by (λ row. total_of row.1) rows.now) × (total < 2 ^ 64)) }
    ensures none { result ≡ None → 2 ^ 64 ≤ sum_by (λ row. total_of row.1) rows.now }
{
    let mut total = 0u64;
    for (_, count) in rows {
        total = total.checked_add(count.plus)?.checked_add(count.minus)?;
    }
    Some(total)
}

/// The root of the tree that lists these rows.
pub fn root_of_tally<A: Allocator + Clone>(
    alloc: &A,
    rows: &[((Slot, SharedStack), Count)],
) -> Result<Option<Node<A>>, NoMemory>
    requires { IsTally rows.now }
    ensures { IfOk result (λ root.
        IsNormalRoot root × (tree_of root ≡ map by_stack rows.now)) }
{
    let rows = rows_of_counts(alloc.clone()?, rows)?;
    let mut root = None;
    add_sorted_rows(&mut root, alloc, &rows)?;
    Ok(root)
}

/// The same rows, without memory of their own for stacks. All have one fingerprint, so those of one
/// stack are one group.
fn rows_of_counts<'a, A: Allocator>(
    alloc: A,
    counts: &'a [((Slot, SharedStack), Count)],
) -> Result<Vec<Row<'a>, A>, NoMemory>
    ensures entries { IfOk result (λ rows. entries_of rows.items ≡ map by_stack counts.now) }
    ensures short { IfOk result (λ rows. AllShort (entries_of rows.items)) }
{
    let mut rows = Vec::with_capacity(alloc, counts.len())?;
    for ((slot, stack), count) in counts {
        rows.push(Row {
            fingerprint: 0,
            stack: stack.frames(),
            slot: *slot,
            count: *count,
        })?;
    }
    Ok(rows)
}
