//! What can be asked of a trace, and answers.
//!
//! `specs/Questions` says of each question its word, what it is about, and which events its answer
//! needs; `specs/Bases` over what it is asked; `specs/Rows` what an answer says, and `specs/Answers`
//! which one is right. The rows are found by `htl_answers` and `htl_summary`.
//!
//! Files, in reading order: `question.rt` (the questions), `subject.rt` (what they are about),
//! `answer.rt` (their answers), `laws.rt` (a question has one answer, and which events tell it).
#![tactic(auto)]

mod answer;
pub mod laws;
mod question;
mod subject;

pub use answer::{Answer, Rows, Totals};
pub use htl_event::Since;
pub use question::Question;
pub use subject::Subject;
