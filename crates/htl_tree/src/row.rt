//! Rows: counts of events before a tree is made of them.

use htl_event::{Count, Slot};

/// How often a slot came with a stack. Several rows may count one slot and stack.
#[derive(Drop)]
pub struct Row<'a> {
    /// A hint: equal stacks mostly have equal fingerprints, and different stacks mostly don't.
    pub fingerprint: u64,
    pub stack: &'a [u64],
    pub slot: Slot,
    pub count: Count,
}
