//! Adds rows to a tree. The rows are gathered by stack, and each stack is put into the tree by one
//! descent.

ghost use Rattle.std.specs.Prelude.{◌≡◌, ℕ, List, ◌+◌, ◌<◌, ◌≤◌, ◌^◌};
ghost use Rattle.std.specs.Prelude.{length, take, true, IfOk, MatchResult};
ghost use Rattle.std.specs.Borrow.{Bor};
ghost use Rattle.std.specs.List.{flat_map, AllByRecursion};
ghost use Rattle.htl_event.specs.declared.slot.Slot.{Slot};
ghost use Rattle.htl_event.specs.Tallies.{total_of};
ghost use Rattle.htl_tree.specs.Trees.{count_at, total_count};
ghost use Rattle.htl_tree.specs.declared.row.Row.{Row};
ghost use Rattle.htl_tree.specs.Nodes.{tree_of, IsNormalRoot};
ghost use Rattle.htl_tree.specs.Rows.{entries_of, sum_at, AreRows, AreShort, IsGroup, WithRows};

use crate::node::Node;
use crate::removing::remove_groups;
use crate::row::Row;
use crate::sorting::sort_rows;
use htl_event::NoMemory;
use std::alloc::Allocator;
use std::cmp::Ordering;

/// Adds what the rows count to the tree. Where memory is refused, the tree stays the same. Rows of
/// one stack come together by their fingerprints, and stacks are compared once for each of these
/// groups.
pub fn add_rows_to_root<A: Allocator + Clone>(
    root: &mut Option<Node<A>>,
    alloc: &A,
    rows: &mut Vec<Row<'_>, A>,
    total: u64,
) -> Result<(), NoMemory>
    requires normal { IsNormalRoot root.old }
    requires rows { AreRows rows.old.items total }
    requires fits { total_count (tree_of root.old) + total < 2 ^ 64 }
    ensures { MatchResult result
        (λ _. IsNormalRoot root.new
        × WithRows (tree_of root.new) (tree_of root.old) rows.old.items)
        (λ _. IsNormalRoot root.new × (tree_of root.new ≡ tree_of root.old)) }
{
    sort_rows(rows);
    let mut groups = groups_of(alloc.clone()?, rows)?;
    groups.sort_unstable_by(|a, b| by_stack(a, b));
    add_groups(root, alloc, &groups)
}

/// Adds what the rows count to the tree, those of one stack that are neighbours by one descent. Where
/// memory is refused, the tree stays the same.
pub fn add_sorted_rows<A: Allocator + Clone>(
    root: &mut Option<Node<A>>,
    alloc: &A,
    rows: &[Row<'_>],
) -> Result<(), NoMemory>
    requires normal { IsNormalRoot root.old }
    requires rows { AreShort rows.now }
    requires fits { total_count (tree_of root.old) + total_count (entries_of rows.now) < 2 ^ 64 }
    ensures { MatchResult result
        (λ _. IsNormalRoot root.new × WithRows (tree_of root.new) (tree_of root.old) rows.now)
        (λ _. IsNormalRoot root.new × (tree_of root.new ≡ tree_of root.old)) }
{
    let groups = groups_of(alloc.clone()?, rows)?;
    add_groups(root, alloc, &groups)
}

/// Puts groups in stack order. Groups of one stack are in the order of their first slots.
fn by_stack(a: &[Row<'_>], b: &[Row<'_>]) -> Ordering {
    match (a.first(), b.first()) {
        (Some(a), Some(b)) => match a.stack.iter().rev().cmp(b.stack.iter().rev()) {
            Ordering::Equal => a.slot.cmp(&b.slot),
            order => order,
        },
        _ => Ordering::Equal,
    }
}

/// The rows in groups. Each group has neighbours with the same stack.
fn groups_of<'a, 'b, A: Allocator>(
    alloc: A,
    rows: &'b [Row<'a>],
) -> Result<Vec<&'b [Row<'a>], A>, NoMemory>
    ensures all { IfOk result (λ groups.
        flat_map (λ (group : Bor (List Row)). group.now) groups.items ≡ rows.now) }
    ensures groups { IfOk result (λ groups.
        AllByRecursion (λ (group : Bor (List Row)). IsGroup group.now) groups.items) }
{
    let mut groups = Vec::new(alloc);
    let mut start = 0;
    while start < rows.len() {
        let rest = &rows[start..];
        let len = alike(rest);
        groups.push(&rest[..len])?;
        start += len;
    }
    Ok(groups)
}

/// The number of rows at the start that have the stack of the first.
fn alike(rows: &[Row<'_>]) -> usize
    requires { 0 < length rows.now }
    ensures some { 0 < result }
    ensures within { result ≤ length rows.now }
    ensures group { IsGroup (take result rows.now) }
{
    let mut len = 1;
    while len < rows.len() && have_one_stack(&rows[0], &rows[len]) {
        len += 1;
    }
    len
}

/// Whether two rows have the same stack and the same fingerprint. Stacks with different fingerprints
/// needn't be fetched from memory.
fn have_one_stack(one: &Row<'_>, other: &Row<'_>) -> bool
    ensures { result ≡ true → other.now.stack.now ≡ one.now.stack.now }
{
    one.fingerprint == other.fingerprint && other.stack == one.stack
}

/// Adds the counts of all groups. Where memory is refused, those that were added are taken out
/// again.
fn add_groups<A: Allocator + Clone>(
    root: &mut Option<Node<A>>,
    alloc: &A,
    groups: &[&[Row<'_>]],
) -> Result<(), NoMemory>
    requires normal { IsNormalRoot root.old }
    requires groups { AllByRecursion (λ (group : Bor (List Row)). IsGroup group.now) groups.now }
    requires rows { AllByRecursion (λ (group : Bor (List Row)). AreShort group.now) groups.now }
    requires fits { (slot : Slot) (stack : List ℕ)
        → total_of (count_at (tree_of root.old) slot stack) + total_of (sum_at
        (entries_of (flat_map (λ (group : Bor (List Row)). group.now) groups.now)) slot stack)
        < 2 ^ 64 }
    ensures { MatchResult result
        (λ _. IsNormalRoot root.new × WithRows (tree_of root.new) (tree_of root.old)
        (flat_map (λ (group : Bor (List Row)). group.now) groups.now))
        (λ _. IsNormalRoot root.new × (tree_of root.new ≡ tree_of root.old)) }
{
    for (place, group) in groups.iter().enumerate() {
        if let Err(refused) = add_group(root, alloc, group) {
            remove_groups(root, &groups[..place]);
            return Err(refused);
        }
    }
    Ok(())
}

/// Adds the counts of the rows of one stack. Where memory is refused, the tree stays the same.
fn add_group<A: Allocator + Clone>(
    root: &mut Option<Node<A>>,
    alloc: &A,
    group: &[Row<'_>],
) -> Result<(), NoMemory>
    requires normal { IsNormalRoot root.old }
    requires group { IsGroup group.now }
    requires rows { AreShort group.now }
    requires fits { (slot : Slot) (stack : List ℕ)
        → total_of (count_at (tree_of root.old) slot stack)
        + total_of (sum_at (entries_of group.now) slot stack) < 2 ^ 64 }
    ensures { MatchResult result
        (λ _. IsNormalRoot root.new
        × WithRows (tree_of root.new) (tree_of root.old) group.now)
        (λ _. IsNormalRoot root.new × (tree_of root.new ≡ tree_of root.old)) }
{
    let stack = group[0].stack;
    if let Some(root) = root {
        return root.add_rows(stack, group);
    }
    let leaf = Node::leaf_of_rows(alloc, stack, group)?;
    *root = Some(leaf);
    Ok(())
}
