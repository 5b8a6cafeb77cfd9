//! Answers to questions over several parts: what each part folded, and the lists of events that it
//! still holds.
//!
//! `specs/Parts` says which events parts stand for. Each answer is that of htl_event's definitions
//! over these events, whatever was folded and whatever is held. Handles are answered from the
//! tables' rows of one process. Counts are answered from rows: the parts' trees list rows of the slots
//! that are asked for, and the held events are counted in rows that hints find. The rows of all parts
//! are sorted, and those of one key added up, so no tree is made.
//!
//! How many handles were open as of several moments is answered over lists of events, since folded
//! events are no longer there one by one. The events are read once. What opened and closed handles is
//! sorted, so each open has its end beside it, and a moment takes two searches in sorted sequences.
//!
//! Files, in reading order: `part.rt` (what the answers are made of), `held.rt` and `handles.rt`
//! (answers over held events, and those that take no memory), `open.rt` (outstanding handles and
//! differences), `counts.rt` (the prefix tally), `counted_by.rt`, `hints.rt`, `adding.rt` and
//! `slot_counts.rt` (the rows of the slots that are asked for), `ordering.rt` (rows in order),
//! `leaking.rt`, `tagging.rt` and `bad_references.rt` (the answers made of these), `sums.rt` (how
//! often each slot came), `whole.rt` (the one tree of all parts), `lives.rt` (when handles were
//! opened and ceased to be open), `growing.rt` (how many were open as of moments).
#![tactic(auto)]

mod adding;
mod bad_references;
mod counted_by;
mod counts;
mod growing;
mod handles;
mod held;
mod hints;
mod leaking;
mod lives;
mod open;
mod ordering;
mod part;
mod slot_counts;
mod sums;
mod tagging;
mod whole;

pub use bad_references::bad;
pub use counts::under;
pub use growing::growth;
pub use handles::{latest, mark};
pub use leaking::leaks;
pub use open::{diff, outstanding};
pub use ordering::put_in_order;
pub use part::Part;
pub use sums::slot_sums;
pub use tagging::{stacks, tags};
pub use whole::whole_tree;
