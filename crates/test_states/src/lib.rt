//! Tests of the format of states: a worked state, and each fault; and of the rows of an analyst. They
//! stand here, over proved crates, so that these aren't proved a second time with their tests.
#![tactic(auto)]

#[cfg(test)]
mod saved;
#[cfg(test)]
mod states;
