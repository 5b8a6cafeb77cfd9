//! The stack cache: stacks that were met lately.
ghost use Rattle.std.specs.Prelude.{◌≡◌, ◌≤◌, ◌<◌, ◌^◌, ◌*◌, ◌/◌, length, IsTrue, IfOk};
ghost use Rattle.htl_segment.specs.Numbers.{numbers};

use crate::encoding::push_frames;
use crate::fields::u64_at;
use crate::fingerprints::fingerprint_of;
use htl_event::{MAX_FRAMES, NoMemory, SharedStack};
use std::alloc::Global;
use std::mem;

/// The number of cells that a cache begins with.
const FEWEST_CELLS: usize = 64;

/// The greatest number of cells.
const MOST_CELLS: usize = 1 << 18;

/// The factor by which a cache grows.
const GROWTH: usize = 4;

/// One stack, with its fingerprint at hand.
#[derive(Debug, Drop)]
struct Cell {
    fingerprint: u64,
    stack: Option<SharedStack>,
}

/// Stacks that were met lately, so that equal ones share their memory.
///
/// A cache saves memory and time, and changes no answer: the stack that it gives has the addresses
/// that were asked for. The fingerprint of a stack leads to two cells side by side. Where both have
/// other stacks, the older of these is forgotten. A cache begins small and grows with the number of
/// stacks that it met. Where it is refused memory, it stays as small as it is.
#[derive(Debug, Drop)]
pub struct StackCache {
    cells: Vec<Cell>,
    /// The number of stacks that were added since the cache grew.
    met: usize,
    most_cells: usize,
    /// What `look_at` saw. It is kept so that no compiler leaves the looks out.
    seen: u64,
}

impl StackCache {
    ghost use Rattle.std.specs.Prelude.{◌≡◌, ◌≤◌, ◌*◌, ◌/◌, length, IfOk, IfSome};
    ghost use Rattle.htl_segment.specs.Numbers.{numbers};

    /// A cache without a stack. It takes no memory before the first one.
    pub fn new(alloc: Global) -> StackCache {
        StackCache::with_most(alloc, MOST_CELLS)
    }

    /// A cache that grows to this many cells at most.
    pub(crate) fn with_most(alloc: Global, most_cells: usize) -> StackCache {
        StackCache {
            cells: Vec::new(alloc),
            met: 0,
            most_cells,
            seen: 0,
        }
    }

    /// The stack of these addresses.
    pub fn of_addresses(
        &mut self,
        alloc: Global,
        addresses: &[u64],
    ) -> Result<SharedStack, NoMemory>
        requires { length addresses.now ≤ MAX_FRAMES }
        ensures { IfOk result (λ stack. stack ≡ addresses.now) }
    {
        // A stack is found by the bytes that a record has of it.
        let mut frames = Vec::with_capacity(alloc, 8 * addresses.len())?;
        push_frames(&mut frames, addresses)?;
        self.of_bytes(alloc, fingerprint_of(&frames), &frames)
    }

    /// The stack of these addresses, eight bytes each, which has this fingerprint.
    pub(crate) fn of_bytes(
        &mut self,
        alloc: Global,
        fingerprint: u64,
        frames: &[u8],
    ) -> Result<SharedStack, NoMemory>
        requires { length frames.now ≤ 8 * MAX_FRAMES }
        ensures { IfOk result (λ stack.
            stack ≡ numbers 0 (length frames.now / 8) frames.now) }
    {
        if let Some(known) = self.find(fingerprint, frames) {
            return Ok(known.copy()?);
        }
        let stack = SharedStack::of(alloc, addresses(alloc, frames)?, fingerprint)?;
        self.keep(alloc, fingerprint, stack.copy()?);
        Ok(stack)
    }

    /// Looks at the stacks of these fingerprints all at once, so that their memory is near when
    /// they are shared.
    pub(crate) fn look_at(&mut self, fingerprints: &[u64]) {
        let mut seen = 0;
        for fingerprint in fingerprints {
            if let Some(stack) = self.stack_of(*fingerprint) {
                let frames = stack.frames();
                seen ^= frames.first().copied().unwrap_or(0);
                seen ^= frames.last().copied().unwrap_or(0);
            }
        }
        self.seen ^= seen;
    }

    /// A stack of the cache that has this fingerprint.
    fn stack_of(&self, fingerprint: u64) -> Option<&SharedStack> {
        let place = self.place_of(fingerprint);
        match self.stack_at(place, fingerprint) {
            Some(stack) => Some(stack),
            None => self.stack_at(place ^ 1, fingerprint),
        }
    }

    fn stack_at(&self, place: usize, fingerprint: u64) -> Option<&SharedStack> {
        match self.cells.get(place) {
            Some(cell) if cell.fingerprint == fingerprint => cell.stack.as_ref(),
            _ => None,
        }
    }

    fn find(&self, fingerprint: u64, frames: &[u8]) -> Option<&SharedStack>
        ensures { IfSome result (λ stack.
            stack.now ≡ numbers 0 (length frames.now / 8) frames.now) }
    {
        match self.stack_of(fingerprint) {
            Some(stack) if is_of(stack.frames(), frames) => Some(stack),
            _ => None,
        }
    }

    /// The first of the two cells of a fingerprint.
    fn place_of(&self, fingerprint: u64) -> usize {
        (fingerprint >> 20) as usize & self.cells.len().wrapping_sub(1) & !1
    }

    /// Puts a stack into the first of its cells, and the stack that was there into the second.
    fn keep(&mut self, alloc: Global, fingerprint: u64, stack: SharedStack) {
        self.met = self.met.saturating_add(1);
        if self.met > self.cells.len() / 2 && self.cells.len() < self.most_cells {
            self.grow(alloc);
        }
        self.put(Cell {
            fingerprint,
            stack: Some(stack),
        });
    }

    fn put(&mut self, cell: Cell) {
        let place = self.place_of(cell.fingerprint);
        if place < self.cells.len().saturating_sub(1) {
            self.cells.swap(place, place + 1);
            self.cells[place] = cell;
        }
    }

    /// Makes room for more stacks, unless memory is refused.
    fn grow(&mut self, alloc: Global) {
        let count = self
            .cells
            .len()
            .saturating_mul(GROWTH)
            .max(FEWEST_CELLS)
            .min(self.most_cells);
        if let Ok(cells) = empty_cells(alloc, count) {
            let known = mem::replace(&mut self.cells, cells);
            self.met = 0;
            for cell in known {
                if cell.stack.is_some() {
                    self.put(cell);
                }
            }
        }
    }
}

fn empty_cells(alloc: Global, count: usize) -> Result<Vec<Cell>, NoMemory> {
    let mut cells = Vec::with_capacity(alloc, count)?;
    for _ in 0..count {
        cells.push(Cell {
            fingerprint: 0,
            stack: None,
        })?;
    }
    Ok(cells)
}

fn is_of(known: &[u64], frames: &[u8]) -> bool
    ensures { IsTrue result → known.now ≡ numbers 0 (length frames.now / 8) frames.now }
{
    if known.len() != frames.len() / 8 {
        return false;
    }
    for place in 0..known.len() {
        if known[place] != u64_at(frames, 8 * place) {
            return false;
        }
    }
    true
}

fn addresses(alloc: Global, frames: &[u8]) -> Result<Vec<u64>, NoMemory>
    requires { length frames.now ≤ 8 * MAX_FRAMES }
    ensures value { IfOk result (λ v. v.items ≡ numbers 0 (length frames.now / 8) frames.now) }
    ensures few { IfOk result (λ v. length v.items ≤ MAX_FRAMES) }
{
    let mut addresses = Vec::with_capacity(alloc, frames.len() / 8)?;
    for place in 0..frames.len() / 8 {
        addresses.push(u64_at(frames, 8 * place))?;
    }
    Ok(addresses)
}
