//! Cases: all segments of one trace in hand, the listing of a handle's events, and analysts that a
//! list of steps leads to.
//!
//! `Case::of` accepts a list of segments exactly where, equal repeats dropped, it is a trace whose
//! sequences rise along each processor; of another list it reports the first rule that it breaks.
//! `PickedCase::of` tells the same of what was picked of segments for a question, unless only whole
//! segments tell. `answer_after` does a list of takes, merges and
//! compactions over a case, and asks one of the analysts: its answer is the definition's over
//! exactly the segments that reached it. `play` hands out the analysts. `laws` has the headline,
//! which says the same of every trace, the laws of merge, when an answer as of a moment is final,
//! and that an analyst's answers are those over the case of the segments that it took.
//!
//! Files, in reading order: `case.rt` (a case), `fault.rt` (why a list is refused), `picked.rt` (a
//! case of which only what is asked about is in hand), `growing.rt` (a case with more segments),
//! `ordering.rt`, `sequences.rt`, `outlines.rt`
//! and `rising.rt` (the tests that make a list of segments a case), `spans.rt` (the first and the
//! last sequence), `listing.rt` (the events of a handle in lists), `step.rt` and `question.rt` (steps,
//! questions and answers), `asking.rt` (an analyst's answer after steps), `playing.rt` (lists of
//! steps), `laws.rt`.
//!
//! `specs/` is read in this order: `Cases` (what a case is), `Faults` (the rules that a list of
//! segments may break), `Picked` (what is picked of a case), `Spans` (the first and the last
//! sequence), `Complete` (up to which moment no segment is missing); `Plays` (why steps aren't
//! played), `Reached` (which keys a list of steps brings to an analyst) and `Answers` (the answers
//! to its questions), which are all that `answer_after` says; `Questions`, `Histories` and
//! `Headline`, which speak of states; `Final` (when an answer is final) and `TakenCases` (what an
//! analyst answers that took the segments of a case). `Ordered`, `Outlined`, `Listed` and `Changes`
//! serve private clauses alone. In `proofs/`, `KeyOrder` shows what a sort by key leaves, `Repeats`
//! what is left without equal repeats, `Twice` which sequences come twice, `MoreSegments` that none does
//! among more segments, `Scanned` where they
//! fall, `Outcomes` that a list is one case or breaks one rule first, `Outlined` which keys come
//! twice, `Moved` what stays where elements change places, `Counted` which events there are until a
//! moment, `SpanLaws` what their span is, `Pickings` what was picked of segments, `Stepped` what a
//! step leaves of each analyst, `Histories` what a history does, `Determined` that a question has
//! one answer, `Headlines` the headline, `Mergeable` that any two analysts have a merge,
//! `FinalAnswers` which answers are final, and `TakenCases` which are those over a case.
#![tactic(auto)]

mod asking;
mod case;
mod fault;
mod growing;
pub mod laws;
mod listing;
mod ordering;
mod outlines;
mod picked;
mod playing;
mod question;
mod rising;
mod sequences;
mod spans;
mod step;

pub use asking::{answer_after, ask};
pub use case::Case;
pub use fault::{CaseFault, PlayFault};
pub use listing::events_of_handle;
pub use picked::PickedCase;
pub use playing::play;
pub use question::{AnalystAnswer, AnalystQuestion};
pub use step::Step;
