//! Answers that count, before and after what was taken is folded.

use crate::analysts::{compact, taken};
use crate::rows::{assert_frames, assert_is, assert_list, assert_row, assert_tree};
use htl_analyst::Analyst;
use htl_event::{Count, NoMemory, SharedStack, Sign, Slot};
use htl_samples::{TRACE, stack};
use htl_tree::StackTree;
use std::alloc::Global;
use std::process::Abort;

/// The object and the tag of most lines.
const OBJECT: u64 = 0x1000;

const TAG: [u8; 4] = *b"Lky8";

const SLOT: Slot = Slot::Tagged {
    object: OBJECT,
    tag: TAG,
};

/// Two stacks that share their outer frames, and an empty one.
const X: &[u64] = &[0x30, 0x20, 0x10];

const Y: &[u64] = &[0x40, 0x20, 0x10];

const E: &[u64] = &[];

const SHARED_FRAMES: &[&str] = &[
    "0/0: R 1 0x1000 Lky8 [0x30 0x20 0x10], \
    R 2 0x1000 Lky8 [0x40 0x20 0x10], D 3 0x1000 Lky8",
];

/// What the shared frames come to in a tree.
const COUNTED: &[(Sign, &[u64])] = &[(Sign::Minus, E), (Sign::Plus, Y), (Sign::Plus, X)];

/// Paths from the outermost frame, and how often the slot came with a stack under each.
const UNDER: &[(&[u64], Count)] = &[
    (&[], Count { plus: 2, minus: 1 }),
    (&[0x10, 0x20], Count { plus: 2, minus: 0 }),
    (&[0x10, 0x20, 0x40], Count { plus: 1, minus: 0 }),
    (&[0x20], Count { plus: 0, minus: 0 }),
];

const STACKS: &[(&[u64], Count)] = &[
    (E, Count { plus: 0, minus: 1 }),
    (X, Count { plus: 1, minus: 0 }),
    (Y, Count { plus: 1, minus: 0 }),
];

/// The tree of the shared frames, counted by hand.
fn counted(rt: &impl Abort, alloc: Global) -> StackTree<Global> {
    let mut tree = StackTree::new(alloc);
    for (sign, frames) in COUNTED {
        assert!(rt; tree.fits(1));
        tree.add(SLOT, *sign, &stack(frames))
            .expect(rt, "the memory");
    }
    tree
}

/// What an analyst of the shared frames counts.
fn are_counted(rt: &impl Abort, alloc: Global, analyst: &Analyst<Global>) {
    for (path, count) in UNDER {
        assert_row(rt, *path, analyst.under(path, SLOT), *count);
    }
    assert_tree(rt, analyst.whole_tree(), &counted(rt, alloc));
    assert_frames(rt, analyst.stacks(alloc, OBJECT, TAG), STACKS);
}

#[test]
fn shared_outer_frames(rt: HostRuntime) {
    let mut analyst = taken(&rt, rt.alloc(), TRACE, SHARED_FRAMES);
    are_counted(&rt, rt.alloc(), &analyst);
    compact(&rt, &mut analyst);
    are_counted(&rt, rt.alloc(), &analyst);
}

const TAGGED: &[&str] = &[
    "0/0: R 1 0xffffa00000001000 Lky8, R 2 0xffffa00000001000 Lky8, \
    D 3 0xffffa00000001000 Lky8, R 4 0xffffa00000001000 Dflt, D 5 0xffffa00000001000 Dflt, \
    D 6 0xffffa00000001000 0x01414243",
];

const TAGS: &[([u8; 4], Count)] = &[
    ([1, 0x41, 0x42, 0x43], Count { plus: 0, minus: 1 }),
    (*b"Dflt", Count { plus: 1, minus: 1 }),
    (TAG, Count { plus: 2, minus: 1 }),
];

/// The tags of the object, and of one without any.
fn has_tags(rt: &impl Abort, alloc: Global, analyst: &Analyst<Global>) {
    assert_list(rt, analyst.tags(alloc, 0xffff_a000_0000_1000), TAGS);
    assert_list(rt, analyst.tags(alloc, 0x2000), &[]);
}

#[test]
fn tags_of_an_object(rt: HostRuntime) {
    let mut analyst = taken(&rt, rt.alloc(), TRACE, TAGGED);
    has_tags(&rt, rt.alloc(), &analyst);
    compact(&rt, &mut analyst);
    has_tags(&rt, rt.alloc(), &analyst);
}

const LEAKING: &[&str] = &[
    "0/0: O 1 0x44 [0x50 0x20], O 2 0x48 [0x30 0x40], O 3 0x4c [0x60], \
    O 4 0x50 [0x60], B 5 0x7 [0x10], B 6 0x7 [0x10], B 7 0x0",
];

const LEAKS: &[(&[u64], u64)] = &[(&[0x60], 2), (&[0x50, 0x20], 1), (&[0x30, 0x40], 1)];

/// Handles that weren't open, the stacks that used them, and how often.
const BAD: &[(u32, &[u64], u64)] = &[(0x0, &[], 1), (0x7, &[0x10], 2)];

/// The rows were made, and are the bad references.
fn are_bad(rt: &impl Abort, made: Result<Vec<(u32, SharedStack, u64)>, NoMemory>) {
    let rows = made.expect(rt, "the memory");
    have_bad(rt, &rows);
}

fn have_bad(rt: &impl Abort, rows: &[(u32, SharedStack, u64)]) {
    assert_is(rt, rows.len(), BAD.len());
    let mut rows = rows.iter();
    for wanted in BAD {
        let row = rows.next().expect(rt, "a row");
        assert_is(rt, (row.0, row.2), (wanted.0, wanted.2));
        assert_is(rt, row.1.frames(), wanted.1);
    }
}

/// What leaks, and which handles weren't open.
fn are_leaks_and_bad(rt: &impl Abort, alloc: Global, analyst: &Analyst<Global>) {
    assert_frames(rt, analyst.leaks(alloc, 4), LEAKS);
    are_bad(rt, analyst.bad(alloc, 4));
}

#[test]
fn leaking_stacks_and_bad_references(rt: HostRuntime) {
    let mut analyst = taken(&rt, rt.alloc(), TRACE, LEAKING);
    are_leaks_and_bad(&rt, rt.alloc(), &analyst);
    compact(&rt, &mut analyst);
    are_leaks_and_bad(&rt, rt.alloc(), &analyst);
}
