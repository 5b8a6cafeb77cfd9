//! The program over a world: from what its arguments ask for to its end.
//!
//! What it opens, it asks of a `World` (`htl_world`), and the functions here are proved for every
//! world. A dialogue is a call of `htl_ask`, and so is a question over saved states.
//!
//! `program` does what the arguments of a command line ask for. Files and folders, in reading order:
//! `commands.rt`, `printing.rt` (texts that need no input), `performing.rt` (runs of commands, and
//! what a person hears of them), `console.rt` (where the program writes and speaks), `output.rt`
//! (where answers go), `saying.rt` with `saying/` (what is said of how a run ended, and to whom),
//! `ending.rt` (the statuses), `inputs.rt` (what was opened), `answering.rt` (a question, from the
//! names that it is asked of to its end), `converting.rt` (`dump`, `encode` and `fold`),
//! `explained.rt` with `explained/` (what a fault means).
#![tactic(auto)]

mod answering;
mod commands;
mod console;
mod converting;
mod ending;
mod explained;
mod inputs;
mod output;
mod performing;
mod printing;
mod saying;

pub use answering::answer;
pub use commands::program;
pub use console::Console;
pub use converting::{dump, encode, fold};
pub use explained::{FREE_MEMORY, GIVE_MISSING, NamedPart, SubjectText, advice, form_wrong, wrong};
pub use inputs::Inputs;
pub use output::Output;
pub use printing::refuse;
pub use saying::{Lack, Message, Person};
