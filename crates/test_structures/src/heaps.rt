//! Heaps of a size.

use linked_list_allocator::LocalHeap;
use std::alloc::Global;
use std::process::Abort;

/// A heap of so many bytes.
pub fn heap(rt: &impl Abort, alloc: Global, size: usize) -> LocalHeap {
    LocalHeap::new(alloc, size).expect(rt, "the memory")
}
