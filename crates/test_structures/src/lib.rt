//! Tests of the crates that keep trees, tables and sets of segments: worked rows.
//!
//! Each file tests the crate of its name by what that crate makes public. They stand here, over
//! proved crates, so that no crate is proved a second time with its tests. `rows` has what they
//! assert of each row, `lines` the events of lines, and `heaps` a heap that isn't the global one.
#![tactic(auto)]

#[cfg(test)]
mod heaps;
#[cfg(test)]
mod lines;
#[cfg(test)]
mod rows;
#[cfg(test)]
mod tables;
#[cfg(test)]
mod taken;
#[cfg(test)]
mod trees;
