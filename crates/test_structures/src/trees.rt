//! A worked tree, under two allocators.

use crate::heaps::heap;
use crate::rows::{assert_counted, assert_is, assert_list, assert_row};
use htl_event::{Count, Sign, Slot};
use htl_samples::stack;
use htl_tree::StackTree;
use std::alloc::{Allocator, Global};
use std::process::Abort;

const SLOT: Slot = Slot::Tagged {
    object: 0x1000,
    tag: *b"Lky8",
};

const X: &[u64] = &[0x30, 0x20, 0x10];

const Y: &[u64] = &[0x40, 0x20, 0x10];

const ONCE: Count = Count { plus: 1, minus: 0 };

/// What a tree counts of the slot: a sign and the frames of a stack.
type Counted = (Sign, &'static [u64]);

const AT_X: Counted = (Sign::Plus, X);

const AT_Y: Counted = (Sign::Plus, Y);

const AT_NONE: Counted = (Sign::Minus, &[]);

const THREE: &[Counted] = &[AT_X, AT_Y, AT_NONE];

/// The tree of these, counted in this order.
fn tree<A: Allocator + Clone>(rt: &impl Abort, alloc: A, counted: &[Counted]) -> StackTree<A> {
    let mut tree = StackTree::new(alloc);
    for (sign, frames) in counted {
        assert!(rt; tree.fits(1));
        tree.add(SLOT, *sign, &stack(frames))
            .expect(rt, "the memory");
    }
    tree
}

/// The sum of the trees.
fn plus<A: Allocator + Clone>(
    rt: &impl Abort,
    one: &StackTree<A>,
    other: &StackTree<A>,
) -> StackTree<A> {
    assert!(rt; one.fits(other.total()));
    one.plus(other).expect(rt, "the memory")
}

/// Paths from the outermost frame, and how often the slot came with a stack under each.
const UNDER: &[(&[u64], Count)] = &[
    (&[], Count { plus: 2, minus: 1 }),
    (&[0x10, 0x20], Count { plus: 2, minus: 0 }),
    (&[0x10, 0x20, 0x40], ONCE),
    (&[0x20], Count { plus: 0, minus: 0 }),
];

/// How often the slot came with a stack.
fn at<A: Allocator>(tree: &StackTree<A>, frames: &[u64]) -> Count {
    tree.at(SLOT, &stack(frames))
}

/// What the tree of the three says of paths and of stacks.
fn has_shared_outer_frames<A: Allocator>(rt: &impl Abort, three: &StackTree<A>) {
    for (path, count) in UNDER {
        assert_row(rt, *path, three.under(path, SLOT), *count);
    }
    assert_is(rt, at(three, X), ONCE);
    assert_is(rt, at(three, &X[1..]), Count { plus: 0, minus: 0 });
    assert_is(rt, three.total(), 3);
}

const ROWS: &[(&[u64], Count)] = &[(&[], Count { plus: 0, minus: 1 }), (X, ONCE), (Y, ONCE)];

/// What the tree of the three lists.
fn has_rows<A: Allocator>(rt: &impl Abort, alloc: Global, three: &StackTree<A>) {
    assert_counted(rt, three.rows(alloc, SLOT), ROWS);
    assert_list(rt, three.slots(alloc), &[SLOT]);
}

/// The tree counts what the tree of the three does, twice.
fn is_doubled<A: Allocator>(rt: &impl Abort, three: &StackTree<A>) {
    assert_is(rt, at(three, X), Count { plus: 2, minus: 0 });
    assert_is(rt, three.total(), 6);
}

/// The copy is the same, and the sum of both is doubled.
fn adds_to_its_copy<A: Allocator + Clone>(rt: &impl Abort, three: &StackTree<A>) {
    let copy = three.copy().expect(rt, "the memory");
    assert_is(rt, copy.same(three), true);
    is_doubled(rt, &plus(rt, three, &copy));
}

/// Orders, and whether the tree is that of the three.
const ORDERS: &[(&[Counted], bool)] = &[
    (&[AT_NONE, AT_Y, AT_X], true),
    (&[AT_Y, AT_X, AT_NONE], true),
    (&[AT_X, AT_Y], false),
];

/// The tree of the three, in any order.
fn shared_outer_frames<A: Allocator + Clone + Copy>(rt: &impl Abort, alloc: Global, own: A) {
    let three = tree(rt, own, THREE);
    has_shared_outer_frames(rt, &three);
    has_rows(rt, alloc, &three);
    adds_to_its_copy(rt, &three);
    for (order, same) in ORDERS {
        assert_is(rt, tree(rt, own, order).same(&three), *same);
    }
}

#[test]
fn shared_outer_frames_under_two_allocators(rt: HostRuntime) {
    shared_outer_frames(&rt, rt.alloc(), rt.alloc());
    shared_outer_frames(&rt, rt.alloc(), &heap(&rt, rt.alloc(), 65536));
}
