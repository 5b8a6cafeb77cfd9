//! Analysts: states that take the segments of a trace in any order, forget what they have folded
//! into counts and tables, and exchange what they know.
//!
//! Every answer of an analyst is the definition's over exactly the events of the segments that it
//! took, for every trace that its state is right about; taking, merging and compacting keep it
//! right. Where two events may share a sequence, this holds of counts, marks and latest events;
//! answers about outstanding handles ask that the sequences differ, which no call can test. `laws`
//! has what follows: merge is commutative, associative and idempotent and gives the least state
//! above both, and analysts that took the same segments are the same once compacted.
//!
//! Files, in reading order: `analyst.rt` (the state and what it shows), `part.rt` and `folded.rt`
//! (what is kept of one processor), `taking.rt`, `merging.rt` with `union.rt` (all that two have
//! taken), and `compacting.rt` (the steps), `restoring.rt` (an analyst made again of its folds),
//! `fault.rt` (what they answer), `answers.rt` and `summary.rt` (the answers over the parts of all
//! processors), `laws.rt`.
//!
//! `specs/` is read in this order: `States`, `Keys` and `TakenEvents` (a state as a value),
//! `Right` (when it is right about a trace), `Steps` and `Refusals` (what calls make of it, and
//! why they are refused), `TakenAll` (when it has taken the segments of a list and no others),
//! `Moments` (up to which moment nothing is missing), `Restored` (the state of folds, and what a
//! state is made again of), `Same` and `Laws`. In `proofs/`, `Takes`, `Merges`, `Folds`, `Compacts`
//! and `Workers` show that each step keeps a state right, `Counted` how many segments are taken
//! after it, `TakenAll` which ones, `Determined`, `MergeLaws` and `Restores` the laws, `KeyEvents`
//! and `Answered` that the events of the taken keys are those of the parts, `EventNumbers` that
//! their number is, and `Falling` what is complete.
#![tactic(auto)]

mod analyst;
mod answers;
mod compacting;
mod fault;
mod folded;
pub mod laws;
mod merging;
mod part;
mod restoring;
mod summary;
mod taking;
mod union;

pub use analyst::Analyst;
pub use fault::{AnalystFault, MergeFault, RestoreFault, TakeFault, Took};
pub use part::Part;
pub use restoring::FoldedPart;

/// The most processors that a trace has.
pub const MAX_PROCESSORS: u16 = 256;
