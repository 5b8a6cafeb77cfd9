//! Tables that keep the greatest sequence of each key: the latest open or close of a handle, the
//! latest snapshot of a process and its last exit.
//!
//! Files, in reading order: `latest.rt` and `greatest.rt` (the tables), `joining.rt` and
//! `placing.rt` (a join that was prepared, and how its rows are placed), `by_handle.rt` and
//! `by_process.rt` (the two kinds of row), `order.rt` (whether rows are in order), `of_process.rt`
//! (the rows of one process), `candidates.rt`, `hints.rt` and `sort_key.rt` (the events of a list
//! that may be the latest of their handles), `laws.rt` (what follows from the contracts).
//!
//! `specs/` defines what a table has at a key (`Latest`, `Greatest`), the order of its rows (`Keys`),
//! which rows are a table's (`Tables`) and what noting one more event keeps (`Laws`). htl_event's
//! `Handles` defines the latest event, the mark and the last exit of a set of events.
#![tactic(auto)]

mod by_handle;
mod by_process;
mod candidates;
mod greatest;
mod hints;
mod joining;
mod latest;
pub mod laws;
mod of_process;
mod order;
mod placing;
mod sort_key;

pub use greatest::{EventKind, Exits, Greatest, Marks, ProcessExits, Snapshots};
pub use joining::Joining;
pub use latest::Latest;
