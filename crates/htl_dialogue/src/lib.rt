//! Dialogues: questions that come line by line, each of which gets its reply before the next is
//! read. The crates above give the answers. `specs/Dialogues` says what a dialogue is, whoever
//! answers.
//!
//! Files, in reading order: `line.rt` and `reading.rt` (the lines of a source, as they come),
//! `splitting.rt` (the arguments of a line), `sorting.rt` (what they are for), `naming.rt` (the
//! process that they name), `files.rt` (the files that they name), `saying.rt` (what a line says),
//! `merged.rt` (the reply to a state that was merged), `note.rt` and `speaker.rt` (what is heard beside
//! the replies, and by whom), `dialogue.rt` (how a dialogue went, and why it ends early), `laws.rt`
//! (the bound of a line).
//!
//! In `proofs/`, `Conversing` and `Stopping` show how far a dialogue has come, line by line, and
//! `Simulated` that what is said of one who answers is said of another whose states follow.
#![tactic(auto)]

mod dialogue;
mod files;
pub mod laws;
mod line;
mod merged;
mod naming;
mod note;
mod reading;
mod saying;
mod sorting;
mod speaker;
mod splitting;

pub use dialogue::{Conversed, DialogueFault};
pub use line::{Line, MAX_LINE_LEN};
pub use merged::Merged;
pub use note::{Note, Opening};
pub use reading::{NextLine, ReadAhead, next_line};
pub use saying::{Said, read_line};
pub use speaker::Speaker;
pub use splitting::{ArgumentFault, arguments};
