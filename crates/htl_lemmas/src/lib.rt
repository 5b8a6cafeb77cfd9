//! Lemmas on lists, tests, orders and padded numbers, for the proofs of all crates. There is no code.
//!
//! In `proofs/`, `Members` is on what is a member of a list, `Tests` on tests that are true together
//! and on what a comparison answers, `Padding` on numbers of a fixed width, and `Lists` on fronts of
//! lists and ranges of numbers.
#![tactic(auto)]
