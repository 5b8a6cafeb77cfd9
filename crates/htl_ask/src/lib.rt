//! Dialogues in a world: saved states and files are read once, and each line gets its reply, as by a
//! run over all that was read so far. A line may name more files to read, or a saved state to merge or
//! to write.
//!
//! A question over saved states is answered so too: as a dialogue that begins with these states and
//! files replies to it.
//!
//! What a dialogue is, whoever answers, stands in `htl_dialogue`: lines, what they say, and replies.
//! Here the answers come from what is kept of the files, all segments or what was folded of them.
//!
//! Files, in reading order: `conversing.rt` (a dialogue, from the names that it begins with to its
//! end), `ask_fault.rt` (why it ends before its lines do), `over_states.rt` (a question over saved
//! states), `restoring.rt` (the saved states that either begins with), `dialogue.rt` (the replies to
//! the lines), `files.rt` (the files that a line names), `states.rt` (the saved states that a line
//! names), `kept.rt` (what is kept of them).
//!
//! `specs/` is read in the order of `specs/Lib`: `Asking` (who answers from what was read),
//! `Beginnings` (what was read before the first line), `LineRounds` (which names the states and the
//! lines ask for), `Outcomes` (what comes of a dialogue), `OverStates` (what comes of a question over
//! saved states), `Loads` (the same of what is kept).
#![tactic(auto)]

mod ask_fault;
mod conversing;
mod dialogue;
mod files;
mod kept;
mod over_states;
mod restoring;
mod states;

pub use ask_fault::AskFault;
pub use conversing::converse;
pub use files::Files;
pub use htl_dialogue::{Note, Opening, Speaker};
pub use over_states::answer_over_states;
