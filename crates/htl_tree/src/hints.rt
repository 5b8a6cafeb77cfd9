//! Hints: where the row of a slot and a stack may be. A hint that was overwritten costs one more row.

use crate::row::Row;
use htl_event::{NoMemory, SharedEvent, Slot};
use htl_sorted::Hints;
use std::alloc::Allocator;

/// The number of events that are looked up together.
const BLOCK: usize = 32;

/// Hints where the rows of events are.
#[derive(Drop)]
pub struct RowHints<A: Allocator> {
    hints: Hints<A>,
    /// The places where the rows of a block of events are likely to be.
    block: [usize; BLOCK],
}

/// The most cells: with more, a look at one takes longer than one more row now and then.
const MAX_CELLS: usize = 0x10_0000;

/// A place that no row has.
const NOWHERE: usize = usize::MAX;

impl<A: Allocator> RowHints<A> {
    /// No hint yet. The number of cells is a power of two, and no more than there are events, but at
    /// least one.
    pub fn new(alloc: A, events: usize) -> Result<Self, NoMemory> {
        let len = (events.min(MAX_CELLS) / 2 + 1).next_power_of_two();
        Ok(RowHints {
            hints: Hints::new(alloc, len)?,
            block: [NOWHERE; BLOCK],
        })
    }

    /// The cell for a stack with this fingerprint and the slot.
    pub fn cell(&self, fingerprint: u64, slot: Slot) -> usize {
        let mixed = (fingerprint ^ slot.fingerprint()).wrapping_mul(0xd6e8_feb8_6659_fd93);
        (mixed >> 40) as usize & self.hints.cells().wrapping_sub(1)
    }

    /// The place of the row that is likely to count the event at this index.
    ///
    /// The events are asked for one after the other, and looked up a block at a time.
    pub fn likely_row(&mut self, rows: &[Row<'_>], events: &[SharedEvent], index: usize) -> usize {
        let within = index % BLOCK;
        if within == 0 {
            self.look(rows, events, index);
        }
        self.block[within]
    }

    /// Looks up the events of the block that begins at this index: first their cells, then the places
    /// in these, and then the rows there. So the memory of many is fetched at once.
    fn look(&mut self, rows: &[Row<'_>], events: &[SharedEvent], index: usize) {
        for (offset, event) in events.iter().skip(index).take(BLOCK).enumerate() {
            self.block[offset] = match event.slot() {
                Some((slot, _)) => self.cell(event.stack.fingerprint(), slot),
                None => NOWHERE,
            };
        }
        for offset in 0..BLOCK {
            self.block[offset] = self.hints.place(self.block[offset]);
        }
        for (offset, event) in events.iter().skip(index).take(BLOCK).enumerate() {
            let place = self.block[offset];
            self.block[offset] = match rows.get(place) {
                Some(row) if is_likely(row, event) => place,
                _ => NOWHERE,
            };
        }
    }

    /// Puts the place of a row into the cell.
    pub fn put(&mut self, cell: usize, place: usize) {
        self.hints.put(cell, place);
    }
}

/// Whether the row has a count and the event's fingerprint. Both are always read, since both are
/// needed next.
fn is_likely(row: &Row<'_>, event: &SharedEvent) -> bool {
    (row.fingerprint == event.stack.fingerprint()) & (row.count.plus | row.count.minus != 0)
}
