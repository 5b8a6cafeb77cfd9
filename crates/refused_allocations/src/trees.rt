//! Calls on stack trees.

use allocation_trials::{Equal, Refusal, Trials, answered, both};
use htl_event::{Count, SharedEvent, SharedStack, Sign, Slot, number_of_events};
use htl_samples::{SMALL, shared_events, stack};
use htl_segment::Segment;
use htl_tree::{Slots, StackTree};
use std::alloc::Global;
use std::slice;

type Tree = StackTree<Global>;

/// A tree, and events that aren't counted in it yet.
type Counting = (Tree, Equal<Vec<SharedEvent>>);

/// An object and a tag of the generated trace.
const OBJECT: u64 = 0x1010;

const SLOT: Slot = Slot::Tagged {
    object: OBJECT,
    tag: *b"Lky8",
};

pub fn try_all(trials: &mut Trials<'_, HostRuntime>) {
    try_trees(trials);
    try_lists(trials);
}

fn try_trees(trials: &mut Trials<'_, HostRuntime>) {
    trials.reads("StackTree::of", segments, tree_of);
    trials.changes("StackTree::add, the first", empty_tree, add);
    trials.changes("StackTree::add, a branch", tree, add);
    trials.changes("StackTree::count", counting, count);
    trials.reads("StackTree::plus", two_trees, sum);
    trials.reads("StackTree::copy", tree, copy);
}

fn try_lists(trials: &mut Trials<'_, HostRuntime>) {
    trials.reads("StackTree::rows", tree, rows);
    trials.reads("StackTree::rows_of", tree, rows_of);
    trials.reads("StackTree::sums_of", tree, sums_of);
    trials.reads("StackTree::slots", tree, slots);
}

fn segments(alloc: Global) -> Result<Vec<Segment>, Refusal> {
    answered(SMALL.segments(alloc))
}

fn empty_tree(alloc: Global) -> Result<Tree, Refusal> {
    Ok(StackTree::new(alloc))
}

fn tree(alloc: Global) -> Result<Tree, Refusal> {
    tree_of(alloc, &segments(alloc)?)
}

/// A tree of some of its stacks and one of all.
fn two_trees(alloc: Global) -> Result<(Tree, Tree), Refusal> {
    let mut segments = segments(alloc)?;
    segments.truncate(2);
    both(tree_of(alloc, &segments), tree(alloc))
}

fn tree_of(alloc: Global, segments: &Vec<Segment>) -> Result<Tree, Refusal> {
    if number_of_events(segments).is_none() {
        return Err(Refusal::Other);
    }
    answered(StackTree::of(alloc, segments))
}

fn add(_alloc: Global, tree: &mut Tree) -> Result<Equal<()>, Refusal> {
    if !tree.fits(1) {
        return Err(Refusal::Other);
    }
    Equal::of(tree.add(SLOT, Sign::Plus, &stack(&[0x70, 0x60, 0x50])))
}

/// Events of a stack, of one that branches off it, and of one that begins with it.
fn counting(alloc: Global) -> Result<Counting, Refusal> {
    let lines = "O 997 0x44 [0x30 0x20 0x10], C 998 0x44 [0x40 0x20 0x10], \
        O 999 0x44 [0x50 0x30 0x20 0x10]";
    both(tree(alloc), Equal::of(shared_events(alloc, lines)))
}

fn count(_alloc: Global, (tree, events): &mut Counting) -> Result<Equal<()>, Refusal> {
    let lists = slice::from_ref(&events.0);
    match number_of_events(lists) {
        Some(more) if tree.fits(more as u64) => Equal::of(tree.count(lists)),
        _ => Err(Refusal::Other),
    }
}

fn sum(_alloc: Global, (one, two): &(Tree, Tree)) -> Result<Tree, Refusal> {
    if !one.fits(two.total()) {
        return Err(Refusal::Other);
    }
    answered(one.plus(two))
}

fn copy(_alloc: Global, tree: &Tree) -> Result<Tree, Refusal> {
    answered(tree.copy())
}

fn rows(alloc: Global, tree: &Tree) -> Result<Equal<Vec<(SharedStack, Count)>>, Refusal> {
    Equal::of(tree.rows(alloc, SLOT))
}

fn rows_of(
    alloc: Global,
    tree: &Tree,
) -> Result<Equal<Vec<((Slot, SharedStack), Count)>>, Refusal> {
    Equal::of(tree.rows_of(alloc, Slots::OfObject(OBJECT)))
}

fn sums_of(alloc: Global, tree: &Tree) -> Result<Equal<Vec<(Slot, Count)>>, Refusal> {
    Equal::of(tree.sums_of(alloc, Slots::OfObject(OBJECT)))
}

fn slots(alloc: Global, tree: &Tree) -> Result<Equal<Vec<Slot>>, Refusal> {
    Equal::of(tree.slots(alloc))
}
