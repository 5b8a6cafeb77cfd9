//! Hints: where the sort key of a handle may be. A hint that is wrong or lost costs one more key.

use crate::sort_key::SortKey;
use htl_event::{SharedEvent, base};
use htl_sorted::Hints;
use std::alloc::{AllocError, Allocator};

/// The number of cells that may have the hint of one handle.
pub(crate) const WAYS: usize = 8;

/// The most cells: they take 16 MiB, and two million handles fill half of them.
const MAX_CELLS: usize = 1 << 22;

/// A place that no key has.
const NOWHERE: usize = usize::MAX;

/// The number of events that are looked up together.
const BLOCK: usize = 32;

/// Odd constants for multiplicative hashing.
const PROCESS_FACTOR: u64 = 0x9e37_79b9_7f4a_7c15;

const BASE_FACTOR: u64 = 0xc2b2_ae3d_27d4_eb4f;

/// Hints where the keys of handles are. Where two handles have the same cells, and these are full,
/// the later hint stays.
#[derive(Drop)]
pub(crate) struct KeyHints<A: Allocator> {
    hints: Hints<A>,
    /// The places where the keys for a block of events are likely to be.
    block: [usize; BLOCK],
}

impl<A: Allocator> KeyHints<A> {
    /// No hint yet, and a cell for each of this many events, up to `MAX_CELLS`.
    pub fn new(alloc: A, events: usize) -> Result<KeyHints<A>, AllocError> {
        Ok(KeyHints {
            hints: Hints::new(alloc, events.min(MAX_CELLS))?,
            block: [NOWHERE; BLOCK],
        })
    }

    /// The first cell of a handle.
    pub fn first_cell(&self, process: u32, base: u32) -> usize {
        let mixed = u64::from(process).wrapping_mul(PROCESS_FACTOR)
            ^ u64::from(base).wrapping_mul(BASE_FACTOR);
        ((mixed >> 32).wrapping_mul(self.hints.cells() as u64) >> 32) as usize
    }

    /// The place in the cell. An empty cell gives one that no key has.
    pub fn place(&self, cell: usize) -> usize {
        self.hints.place(cell)
    }

    /// The place of the key that is likely to be of the handle of the event at this index.
    ///
    /// The events are asked for one after the other, and looked up a block at a time.
    pub fn likely_place(
        &mut self,
        keys: &[SortKey],
        events: &[SharedEvent],
        index: usize,
    ) -> usize {
        let within = index % BLOCK;
        if within == 0 {
            self.look(keys, events, index);
        }
        self.block[within]
    }

    /// Looks up the events of the block that begins at this index: first their cells, then the places
    /// in these, and then the keys there. So the memory of many is fetched at once. A list may have
    /// fewer events than a block.
    fn look(&mut self, keys: &[SortKey], events: &[SharedEvent], index: usize) {
        for (offset, event) in events.iter().skip(index).take(BLOCK).enumerate() {
            self.block[offset] = self.first_cell(event.process, base(event.handle));
        }
        for offset in 0..events.len().saturating_sub(index).min(BLOCK) {
            self.block[offset] = self.hints.place(self.block[offset]);
        }
        for (offset, event) in events.iter().skip(index).take(BLOCK).enumerate() {
            let place = self.block[offset];
            self.block[offset] = match keys.get(place) {
                Some(key) if is_likely(key, event) => place,
                _ => NOWHERE,
            };
        }
    }

    /// Puts the place of a key into the cell.
    pub fn put(&mut self, cell: usize, place: usize) {
        self.hints.put(cell, place);
    }
}

fn is_likely(key: &SortKey, event: &SharedEvent) -> bool {
    (key.base == base(event.handle)) & (key.process == event.process)
}
