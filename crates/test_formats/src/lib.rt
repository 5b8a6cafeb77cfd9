//! Tests of the crates that read and write bytes and texts: segments, samples, symbol tables, texts
//! and JSON of answers, devices and the command line.
//!
//! Each file tests the crate of its name by what that crate makes public: outside vectors, printed
//! texts and faults. They stand here, over proved crates, so that no crate is proved a second time
//! with its tests. `rows` has what tests of a table assert of each row.
#![tactic(auto)]

#[cfg(test)]
mod command;
#[cfg(test)]
mod devices;
#[cfg(test)]
mod json;
#[cfg(test)]
mod parts;
#[cfg(test)]
mod reading;
#[cfg(test)]
mod reports;
#[cfg(test)]
mod rows;
#[cfg(test)]
mod samples;
#[cfg(test)]
mod segments;
#[cfg(test)]
mod symbols;
#[cfg(test)]
mod texts;
