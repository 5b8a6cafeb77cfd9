//! An analyst's state as rows: what the format HLA1 stores of it, and the analyst that rows tell.
//!
//! `rows_of` makes the rows, in which the places of one table stand for stacks, and `save` their
//! bytes. Rows of one state are equal, so with the laws of `htl_state` a state has one spelling; and
//! equal rows are of states that are the same. `analyst_of` makes the analyst whose state rows tell,
//! and `load` that of bytes: of what was saved, the same state.
//!
//! Files, in reading order: `rows.rt` and `saving.rt` (the calls), `fault.rt` (why they are refused),
//! `table.rt` with `stacks.rt` and `tally.rt` (the table of all stacks), `place.rt` (where a stack
//! is), `parts.rt`, `counts.rt` and `latest.rt` (the rows of a processor); `restoring.rt` and
//! `loading.rt` (the calls of the way back), `bounds.rt` (whether rows are of a state), `from_rows.rt`
//! (the tree and the tables of a processor), `holding.rt` (its held segments); `laws.rt`.
//!
//! `specs/Tables` says what a table is and where a stack has its place, `specs/AnalystRows` which rows
//! an analyst has, `specs/Restored` which state rows tell, `specs/Loads` what bytes are loaded as,
//! `specs/Laws` what follows.
#![tactic(auto)]

mod bounds;
mod counts;
mod fault;
mod from_rows;
mod holding;
mod latest;
pub mod laws;
mod loading;
mod parts;
mod place;
mod restoring;
mod rows;
mod saving;
mod stacks;
mod table;
mod tally;

pub use fault::{LoadFault, SaveFault};
pub use loading::load;
pub use restoring::analyst_of;
pub use rows::rows_of;
pub use saving::save;
