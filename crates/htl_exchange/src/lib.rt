//! Exchanges, for programs that call this library; no command uses them: analysts in threads, which
//! share the runs of a case through one queue.
//!
//! A run is all segments of one processor. The queue holds parcels: runs of the case, and states
//! that desks posted. Each desk has an analyst of its own, which no other thread sees. Whatever
//! the desks do, the parcels and what the desks have got make up the case: this is the rule of the
//! exchange, under which the queue stands. So `close` and `survey` give the standing state of the
//! whole case, in every schedule of the threads.
//!
//! Files, in reading order: `exchange.rt`, `parcel.rt` and `pass.rt` (the queue, what travels in
//! it, what a pass knows), `rule.rt` (the rule and the steps that keep it), `start.rt` (from the
//! first push to the seated desks), `desk.rt` and `taking.rt` (a desk, and how it takes in what it
//! popped), `closing.rt` (to the last pop), `gate.rt` and `surveying.rt` (workers over an
//! exchange, of a case that is lent or given up, and what each passes before a turn), `fault.rt`.
//!
//! `specs/` is read in this order: `Runs` (sets of runs), `Parcels` (what the queue holds), `Rule`
//! (what always stands), `Moves` (the five atomic steps), `Desks` (what a desk keeps), `Collects`
//! (what `collect` and `post` answer), `Laws` (what follows of surveys); `Filling` serves private
//! clauses alone. In `proofs/`, `Sets` and `Passes` compute with sets of runs, `Keeping` shows that
//! each step keeps the rule, `Following` that a desk follows it, `Takings` that a run is taken in,
//! `Fillings` that the queue is filled, `DeskLists` is on lists of desks, `Sends` shows that a desk
//! may move to another thread, and `Wholes` that whole standing states are the same.
#![tactic(auto)]

mod closing;
mod desk;
mod exchange;
mod fault;
mod gate;
pub mod laws;
mod parcel;
mod pass;
mod rule;
mod start;
mod surveying;
mod taking;

pub use desk::{Collected, Desk, Posted};
pub use exchange::Exchange;
pub use fault::{CloseFault, StartFault, SurveyFault, Why};
pub use gate::{Free, Gate};
pub use surveying::{survey, survey_owned};

/// The most desks that an exchange has.
pub const MAX_DESKS: u32 = 8;
