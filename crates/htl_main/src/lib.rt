//! The run: from the bytes of inputs to the printed answer.
//!
//! The program calls `pick_from`, which reads the sources of a question and keeps only what the
//! question asks about. Where only whole segments tell what comes of the sources, or where these
//! can't be read again, it calls `run_from`, which keeps whole segments. `run` does the same over
//! bytes in memory. Conversions (`dump` and `encode`) are calls of `htl_convert`.
//!
//! `run_from` loads its sources, answers and writes. Where many questions come, a caller does the
//! same: `load` reads the sources once, and `answer_text` answers each question.
//!
//! What a caller needs beside these comes from crates below, and is handed out here too: the command
//! line (`parse`, `Job`, `Question`), sources and sinks, and why a run ends (`RunFault`).
//!
//! Files and folders, in reading order: `streaming.rt` (the run over sources), `loading.rt` with
//! `loading/` (what is loaded before a question is answered: the case of all segments, also with
//! more sources; or the two segments that a fault is about), `printing.rt` (the run over bytes in
//! memory, and the steps of all runs), `origin.rt` (where these two segments came from),
//! `coverage.rt` (what a case misses of its trace), `completed.rt` (what a run reports beside its
//! answer), `remarks.rt` (what is told of it beside its lines), `picks.rt` with `picks/` (the run
//! that keeps only what its question asks about), `folding.rt` with `folding/` (sources that are
//! read and forgotten, and answers over what was folded, whose state is made and merged in
//! `states.rt` and written in `writing.rt`), `refused.rt` (a fault and the two segments it is
//! about), `laws.rt` (a run has one outcome, inputs have one coverage, runs and analysts give the
//! same answers and summaries, the segments of a case are the first of their keys, and there are
//! analysts of every history), `folding_laws.rt` (which segments are taken isn't told by when they
//! are folded).
//!
//! The segments of the inputs, their faults, and how sources are read stand in `htl_inputs`. From
//! there `specs/` goes on, in the order of `specs/Lib`: `Completeness` (whether segments are
//! missing, and which is the least), `Moments` (the moment up to which events count), `Coverages`
//! (how much of its trace a case has), `Subjects` (whether anything can be found of what was asked
//! about), `Printed` (the lines of an answer, or the first fault in the order of a run), `Remarks`
//! (what is told of the answer beside its lines), `Causes` (why a run ends, also for out of memory
//! or by a failing device), `Origins` (which two segments a fault is about), `Loading` (what is
//! loaded before a question is answered), `Adding` (what more sources add to it), `Folding` (what a
//! reading that forgets folds of its sources), `Asked` (why that isn't asked), `Picked` (what a run
//! that keeps only what its question asks about reports, and when only whole segments tell),
//! `SavedStates` (of which segments a state is, and what comes of merging it), `StateRuns` (how a
//! run ends that writes the state of its sources), `Analysts` (what an analyst answers of a
//! summary) and `Histories` (that an analyst can go through any history).
#![tactic(auto)]

mod completed;
mod coverage;
mod folding;
pub mod folding_laws;
pub mod laws;
mod loading;
mod origin;
mod picks;
mod printing;
mod refused;
mod remarks;
mod streaming;

pub use completed::{Absence, Completed, absence_of, since_of};
pub use coverage::Coverage;
pub use folding::{Folded, fold, fold_from, folded_text, load_folded, merge_state, state_bytes};
pub use htl_command::{Job, ParseFault, parse};
pub use htl_device::{Reading, Sink, Source, Writing};
pub use htl_event::Interest;
pub use htl_inputs::{CutEnd, CutInputs, RunFault};
pub use htl_question::Question;
pub use loading::{Added, Loaded, add, load};
pub use origin::{Between, Origin};
pub use picks::{Lacking, Unpicked, pick_from};
pub use printing::{AnswerText, answer_text, run};
pub use refused::Refused;
pub use remarks::Remarks;
pub use streaming::run_from;
