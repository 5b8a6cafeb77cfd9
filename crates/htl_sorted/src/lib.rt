//! Lists in the order of their keys: search by halves, the merge of two lists in one pass, and hints
//! where a row may be.
//!
//! A list in order has each key once. Its contracts speak of its entries, the keys with their
//! values, in the words `find` and `put` of std's `FinMap.Entries`.
//!
//! Files: `searching.rt` finds the place of a key, `merging.rt` makes one list of two, and
//! `hints.rt` remembers where rows are.
#![tactic(auto)]

mod hints;
mod merging;
mod searching;

pub use hints::Hints;
pub use merging::{Joined, merge};
pub use searching::{Keyed, search};
