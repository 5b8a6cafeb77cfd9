//! Answers as JSON, one value on each line.
//!
//! `specs/Lines` defines the values and their order; `json_lines` writes their texts. Each is
//! written as its row is met, a token at a time, so no value is ever held.
//!
//! Files, in reading order: `answer.rt` (the lines of an answer); `heads.rt` (its first line);
//! `rows.rt` (a line for each row, of whatever form); the forms, in `events.rt`, `counts.rt` and
//! `summary.rt`; what their lines have: `members.rt` and, of stacks, `frames.rt`; how a line is
//! written: `lines.rt`; and that a line is of one value, and a value of one row (`laws.rt`).
#![tactic(auto)]

mod answer;
mod counts;
mod events;
mod frames;
mod heads;
pub mod laws;
mod lines;
mod members;
mod rows;
mod summary;

pub use answer::json_lines;
