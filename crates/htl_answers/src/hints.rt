//! Hints: where the row of a key may be. A hint that was overwritten costs one more row.

use htl_event::NoMemory;
use htl_sorted::Hints;
use std::alloc::Global;

/// Hints where the rows of keys are.
#[derive(Drop)]
pub(crate) struct RowHints {
    hints: Hints<Global>,
}

/// The most cells: 4 MiB, which the processor's cache still has near.
const MAX_CELLS: usize = 0x10_0000;

impl RowHints {
    /// No hint yet. The number of cells is a power of two, and no more than there are events.
    pub fn new(alloc: Global, events: usize) -> Result<RowHints, NoMemory> {
        let len = (events.min(MAX_CELLS) / 2 + 1).next_power_of_two();
        Ok(RowHints {
            hints: Hints::new(alloc, len)?,
        })
    }

    /// The cell for this hash.
    pub fn cell(&self, hash: u64) -> usize {
        let mixed = hash.wrapping_mul(0xd6e8_feb8_6659_fd93);
        (mixed >> 40) as usize & self.hints.cells().wrapping_sub(1)
    }

    /// The place that was put into the cell last.
    pub fn place(&self, cell: usize) -> usize {
        self.hints.place(cell)
    }

    /// Puts the place of a row into the cell.
    pub fn put(&mut self, cell: usize, place: usize) {
        self.hints.put(cell, place);
    }
}
