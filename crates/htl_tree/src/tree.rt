//! The tree and its public calls.

use crate::building::add_rows_to_root;
use crate::counting::Counting;
use crate::listing::without_slot;
use crate::node::{Node, ZERO};
use crate::root::{
    add_to_root, copy_root, list_root_counts, list_root_rows, list_root_slots, plus_roots,
    same_roots, under_root,
};
use crate::slot_sums::{add_up, sort_by_slot};
use crate::slots::Slots;
use crate::tally::{TallyFault, root_of_tally, total_of_tally};
use htl_event::{Count, EventList, NoMemory, SharedStack, Sign, Slot, Stack};
use std::alloc::{Allocator, Global};
use std::marker::Model;

/// A stack tree: it counts how often each slot came with each stack. It may have any allocator.
#[derive(Drop)]
pub struct StackTree<A: Allocator> {
    alloc: A,
    total: u64,
    root: Option<Node<A>>,
}

impl<A: Allocator> Model for StackTree<A> {
    ghost use Rattle.htl_tree.specs.Trees.{Tree};
    ghost use Rattle.htl_tree.specs.Nodes.{tree_of, IsRoot};

    ghost Value = { Tree };

    ghost view = { λ t. tree_of t.root };

    ghost invariant = { λ t. IsRoot t.root t.total };
}

impl<A: Allocator> StackTree<A> {
    ghost use Rattle.std.specs.Prelude.{◌≡◌, ℕ, List, ◌++◌, ◌+◌, ◌<◌, ◌≤◌, ◌^◌, []};
    ghost use Rattle.std.specs.Prelude.{◌↔◌, length, map, IsTrue, Err, IfOk, OnOk, OnErr};
    ghost use Rattle.htl_tree.specs.Trees.{count_at, count_under, total_count};
    ghost use Rattle.htl_tree.specs.Trees.{with_one, IsTree, IsSameTally};
    ghost use Rattle.htl_tree.specs.Trees.{IsSumTally, HasTally, ListsRows, ListsRowsOf};
    ghost use Rattle.htl_tree.specs.Trees.{ListsSums, ListsSlots, by_stack, IsTally};
    ghost use Rattle.std.specs.List.{flat_map};
    ghost use Rattle.htl_event.specs.Events.{Event};
    ghost use Rattle.htl_event.specs.Tallies.{plus_count, tally, under};

    /// An empty tree. It takes no memory before the first count.
    pub fn new(alloc: A) -> Self
        ensures { result ≡ [] }
    {
        StackTree {
            alloc,
            total: 0,
            root: None,
        }
    }

    /// The tally of the events of all lists, whatever their order.
    pub fn of<R: EventList>(alloc: A, lists: &[R]) -> Result<Self, NoMemory>
    where
        A: Clone,
        requires { length (flat_map R.events_of lists.now) < 2 ^ 64 }
        ensures tally { IfOk result (λ tree. HasTally tree (flat_map R.events_of lists.now)) }
        ensures total { IfOk result (λ tree.
            total_count tree ≤ length (flat_map R.events_of lists.now)) }
    {
        let mut tree = StackTree::new(alloc);
        tree.count(lists)?;
        Ok(tree)
    }

    /// The tree that lists these rows, as `rows_of` does for all slots. Each stack is put into it by
    /// one descent.
    pub fn of_rows(alloc: A, rows: &[((Slot, SharedStack), Count)]) -> Result<Self, TallyFault>
    where
        A: Clone,
        ensures tree { IfOk result (λ tree.
            IsTally rows.now × (tree ≡ map by_stack rows.now)) }
        ensures no_tally { (result ≡ Err TallyFault.NoTally) ↔ (IsTally rows.now → ⊥) }
    {
        let Some(total) = total_of_tally(rows) else {
            return Err(TallyFault::NoTally);
        };
        let root = root_of_tally(&alloc, rows)?;
        Ok(StackTree { alloc, total, root })
    }

    /// Counts the events of all lists too, whatever their order. Where memory is refused, what was
    /// counted of them is taken out again.
    pub fn count<R: EventList>(&mut self, lists: &[R]) -> Result<(), NoMemory>
    where
        A: Clone,
        requires { total_count self.old + length (flat_map R.events_of lists.now) < 2 ^ 64 }
        ensures counts { OnOk result ((slot : Slot) (stack : List ℕ) → count_at self.new slot stack
            ≡ plus_count (count_at self.old slot stack)
            (tally (flat_map R.events_of lists.now) slot stack)) }
        // What was the tally of some events is that of all of them.
        ensures tally { OnOk result ((events : List Event) → HasTally self.old events
            → HasTally self.new (events ++ flat_map R.events_of lists.now)) }
        ensures total { OnOk result (total_count self.new
            ≤ total_count self.old + length (flat_map R.events_of lists.now)) }
        ensures err { OnErr result (self.new ≡ self.old) }
    {
        let (mut rows, total) = Counting::of(&self.alloc, lists)?.into_rows();
        add_rows_to_root(&mut self.root, &self.alloc, &mut rows, total)?;
        self.total += total;
        Ok(())
    }

    /// The sum of all counts.
    pub fn total(&self) -> u64
        ensures value { result ≡ total_count self.now }
        ensures tree { IsTree self.now }
    {
        self.total
    }

    /// Whether the sum of all counts would stay a `u64` with this many more.
    pub fn fits(&self, more: u64) -> bool
        ensures { IsTrue result ↔ (total_count self.now + more < 2 ^ 64) }
    {
        self.total.checked_add(more).is_some()
    }

    /// How often the slot came with exactly this stack.
    pub fn at(&self, slot: Slot, stack: &Stack) -> Count
        ensures { result ≡ count_at self.now slot stack.now }
    {
        match &self.root {
            None => ZERO,
            Some(root) => root.top().at(slot, stack.frames()),
        }
    }

    /// How often the slot came with a stack that begins with the path, read from the outermost
    /// frame.
    pub fn under(&self, path: &[u64], slot: Slot) -> Count
        ensures value { result ≡ count_under self.now path.now slot }
        // It is the prefix tally of any events that the tree is the tally of.
        ensures events { (events : List Event) → HasTally self.now events
            → result ≡ under events path.now slot }
    {
        under_root(&self.root, path, slot)
    }

    /// Whether both trees count the same. Equal tallies have one tree.
    pub fn same(&self, other: &Self) -> bool
        ensures tally { IsTrue result ↔ IsSameTally self.now other.now }
        ensures equal { IsTrue result ↔ (self.now ≡ other.now) }
    {
        same_roots(&self.root, &other.root)
    }

    /// An equal tree, under a clone of this one's allocator.
    pub fn copy(&self) -> Result<Self, NoMemory>
    where
        A: Clone,
        ensures { IfOk result (λ copy. copy ≡ self.now) }
    {
        let root = copy_root(&self.root, &self.alloc)?;
        Ok(StackTree {
            alloc: self.alloc.clone()?,
            total: self.total,
            root,
        })
    }

    /// The tree that counts what both trees count, under a clone of this one's allocator. It is
    /// made in one pass over both.
    pub fn plus(&self, other: &Self) -> Result<Self, NoMemory>
    where
        A: Clone,
        requires { total_count self.now + total_count other.now < 2 ^ 64 }
        ensures tally { IfOk result (λ sum. IsSumTally sum self.now other.now) }
        ensures total { IfOk result (λ sum.
            total_count sum ≡ total_count self.now + total_count other.now) }
    {
        let root = plus_roots(&self.root, &other.root, &self.alloc)?;
        Ok(StackTree {
            alloc: self.alloc.clone()?,
            total: self.total + other.total,
            root,
        })
    }

    /// Counts the slot with the stack once more. A branch that is missing is built apart, and attached
    /// once it is whole.
    pub fn add(&mut self, slot: Slot, sign: Sign, stack: &Stack) -> Result<(), NoMemory>
    where
        A: Clone,
        requires { total_count self.old + 1 < 2 ^ 64 }
        ensures ok { OnOk result (self.new ≡ with_one self.old slot sign stack.now) }
        ensures err { OnErr result (self.new ≡ self.old) }
        ensures total { OnOk result (total_count self.new ≡ total_count self.old + 1) }
    {
        add_to_root(&mut self.root, &self.alloc, slot, sign, stack.frames())?;
        self.total += 1;
        Ok(())
    }

    /// The slot's counts that aren't zero, in stack order.
    pub fn rows(&self, alloc: Global, slot: Slot) -> Result<Vec<(SharedStack, Count)>, NoMemory>
        ensures { IfOk result (λ rows. ListsRows self.now slot rows.items) }
    {
        let rows = list_root_rows(&self.root, alloc, Slots::One(slot))?;
        without_slot(alloc, &rows)
    }

    /// The counts of these slots that aren't zero, by stack and then by slot. They are found by one
    /// walk over the tree.
    pub fn rows_of(
        &self,
        alloc: Global,
        slots: Slots,
    ) -> Result<Vec<((Slot, SharedStack), Count)>, NoMemory>
        ensures { IfOk result (λ rows. ListsRowsOf self.now slots rows.items) }
    {
        list_root_rows(&self.root, alloc, slots)
    }

    /// How often each of these slots came, with whatever stack, in slot order. The sums are found
    /// by one walk over the tree, which makes no stack.
    pub fn sums_of(&self, alloc: Global, slots: Slots) -> Result<Vec<(Slot, Count)>, NoMemory>
        ensures sums { IfOk result (λ sums. ListsSums self.now slots sums.items) }
        ensures tree { IsTree self.now }
    {
        let mut counts = list_root_counts(&self.root, alloc, slots)?;
        sort_by_slot(&mut counts);
        add_up(&alloc, &counts)
    }

    /// Each slot with a count that isn't zero, once, in slot order.
    pub fn slots(&self, alloc: Global) -> Result<Vec<Slot>, NoMemory>
        ensures { IfOk result (λ slots. ListsSlots self.now slots.items) }
    {
        list_root_slots(&self.root, alloc)
    }
}
