//! States of an analyst as bytes in the format HLA1: from plain rows and back.
//!
//! `encode` writes rows, and `decode` accepts exactly the bytes of rows that are well-formed and
//! gives these rows. Of other bytes it reports the first rule that they break. What rows mean is for
//! who makes them of an analyst, and an analyst of them.
//!
//! Files, in reading order: `rows.rt` (a state as rows), `checksum.rt` (the sum of bytes),
//! `fault.rt`, `row.rt` (lists of any kind of row), `stack_row.rt`, `count_row.rt`, `latest_row.rt`,
//! `moment_row.rt` and `held_row.rt` (the kinds), `encoding.rt`, `decoding.rt`, `laws.rt`. Numbers
//! and kinds are in bytes as in segments, so `htl_segment` reads and writes them.
//!
//! `specs/Lib` names the definitions in the order in which they are read.
#![tactic(auto)]

mod checksum;
mod count_row;
mod decoding;
mod encoding;
mod fault;
mod held_row;
mod latest_row;
pub mod laws;
mod moment_row;
mod row;
mod rows;
mod stack_row;

pub use decoding::decode;
pub use encoding::encode;
pub use fault::{Fault, StateError};
pub use rows::{CountRow, LatestRow, PartRows, StateRows};
