//! Hints: the places of rows, by numbers made of the rows' keys.

use std::alloc::{AllocError, Allocator};

/// A fixed number of cells. A cell remembers the place that was put into it last.
///
/// Nothing is promised of hints, so whoever takes one compares what is at that place. A hint that
/// was overwritten costs time, and never changes an answer.
#[derive(Drop)]
pub struct Hints<A: Allocator> {
    /// One more than the place, or 0 where there is none.
    cells: Vec<u32, A>,
}

impl<A: Allocator> Hints<A> {
    /// This many empty cells.
    pub fn new(alloc: A, cells: usize) -> Result<Hints<A>, AllocError> {
        Ok(Hints {
            cells: vec![in alloc; 0u32; cells]?,
        })
    }

    /// The number of cells.
    pub fn cells(&self) -> usize {
        self.cells.len()
    }

    /// The place that was put into the cell last. An empty cell, or none, gives a place that no list
    /// has.
    pub fn place(&self, cell: usize) -> usize {
        match self.cells.get(cell) {
            Some(number) => (*number as usize).wrapping_sub(1),
            None => usize::MAX,
        }
    }

    /// Puts the place into the cell.
    pub fn put(&mut self, cell: usize, place: usize) {
        if let Some(number) = self.cells.get_mut(cell) {
            *number = u32::try_from(place.wrapping_add(1)).unwrap_or(0);
        }
    }
}
