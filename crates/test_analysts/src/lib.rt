//! Tests of analysts: what the crates of an analysis come to together.
//!
//! Analysts that took the segments of a few lines answer what was worked out by hand: `handles` and
//! `counting` have the questions, `merging` what analysts take over from one another, `moments` up
//! to when nothing is missing, `summary` what leaks at all, and `refusals` what is refused. `rows`
//! has what they assert of each row, `analysts` makes analysts of lines, and `heaps` has a heap that
//! refuses memory.
#![tactic(auto)]

#[cfg(test)]
mod analysts;
#[cfg(test)]
mod counting;
#[cfg(test)]
mod handles;
#[cfg(test)]
mod heaps;
#[cfg(test)]
mod merging;
#[cfg(test)]
mod moments;
#[cfg(test)]
mod refusals;
#[cfg(test)]
mod rows;
#[cfg(test)]
mod summary;
