//! Sets of taken segments. A segment is named by its processor and its number there.
//!
//! For each processor all numbers below a *front* are taken, and *loose* numbers at or above it.
//!
//! Files, in reading order: `taken.rt` (the set over all processors), `number_set.rt` (one
//! processor's front and loose numbers), `sorted_numbers.rt` (rising lists of numbers), `gap.rt`
//! and `missing.rt` (the gaps of a set), `laws.rt` (the laws of sets).
//!
//! `specs/` defines these numbers and the keys that they stand for (`Numbers`, over the rising lists
//! of `Rising`), the gaps that they leave (`Gaps`), and the laws of sets of them (`Laws`).
#![tactic(auto)]

mod gap;
pub mod laws;
mod missing;
mod number_set;
mod sorted_numbers;
mod taken;

pub use gap::Gap;
pub use taken::Taken;

/// The greatest front. Segment numbers are below it.
pub const MAX_FRONT: u32 = u32::MAX;
