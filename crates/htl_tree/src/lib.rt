//! A counted stack tree: how often each slot came with each call stack.
//!
//! A tree is its tally (`specs/Trees.antt`): the counts that aren't zero, in the order of their
//! stacks and slots. Equal tallies have one tree, so `StackTree::same` walks two trees side by
//! side.
//!
//! Files, in reading order: `tree.rt` (the public type), `slots.rt` (the slots that are asked for),
//! `root.rt` (the same calls on an optional root), `node.rt` (a node, which keeps all frames up to
//! the next fork, and adding), `filters.rt` (the slots that may be counted from a node on, as one
//! number), `cursor.rt` (a position in the tree, where each step is one frame, and look-up),
//! `order.rt` (the order of the two lists of a node). Many events are counted by rows that hints
//! find and one descent for each stack: `counting.rt`, `hints.rt`, `row.rt`, `sorting.rt` (rows of
//! one fingerprint brought together), `building.rt`, `filling.rt`, `removing.rt` (where memory is
//! refused). Then `sums.rt` (copy and plus), `compare.rt` (equality), `prefix.rt` (the prefix
//! tally), `listing.rt` and `slot_sums.rt` (lists of counts, and their sums by slot), `tally.rt` (the
//! tree of a list of counts), `laws.rt` (the canonical form, what a slot's rows and their sum are, and
//! that all rows make their tree).
//!
//! `specs/Trees` and `specs/HasSlot` have the words of public contracts, the other files of `specs/`
//! those of private ones.
#![tactic(auto)]

mod building;
mod compare;
mod counting;
mod cursor;
mod filling;
mod filters;
mod hints;
pub mod laws;
mod listing;
mod node;
mod order;
mod prefix;
mod removing;
mod root;
mod row;
mod slot_sums;
mod slots;
mod sorting;
mod sums;
mod tally;
mod tree;

pub use slots::Slots;
pub use tally::TallyFault;
pub use tree::StackTree;
