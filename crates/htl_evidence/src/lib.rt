//! Answers to questions from what is kept of a trace, in whichever way it is kept.
//!
//! `specs/Bases` says over what a question is asked about a trace, and which answer it has;
//! `specs/Kept` when what is kept tells it; `specs/Told` what each way of keeping tells.
//!
//! Files, in reading order: `evidence.rt` (what a question is answered from), `answering.rt` (the
//! answer), `as_of.rt`, `picks.rt` and `folds.rt` (the three ways of keeping: whole segments, picked
//! events, and what an analyst folded), `unfolded.rt` (events as a part of which nothing was folded),
//! `indexed.rt`, `owner.rt`, `columns.rt` and `one.rt` (a case of which many questions are asked: how
//! the events of a process, object or handle are found in it), `extent.rt` and `outlines.rt` (how much
//! there is of a trace, by the outlines of its segments).
#![tactic(auto)]

mod answering;
mod as_of;
mod columns;
mod evidence;
mod extent;
mod folds;
mod indexed;
mod one;
mod outlines;
mod owner;
mod picks;
mod unfolded;

pub use answering::answer;
pub use as_of::AsOf;
pub use evidence::Evidence;
pub use extent::Extent;
pub use folds::Folds;
pub use indexed::Indexed;
pub use one::One;
pub use owner::Owner;
pub use picks::Picks;
pub use unfolded::Unfolded;
