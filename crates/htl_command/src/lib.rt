//! The command line of `hleak`: from the arguments after the program's name to what they ask for.
//!
//! `specs/Commands` is the table of the commands, with a row for each question, and `specs/Options`
//! that of their options. `specs/Values` has one rule for each kind of value, `specs/Printed` says
//! which texts are faults as they are printed, and `specs/Requests` what arguments ask for. `parse`
//! gives just that, and refuses exactly the other arguments. How arguments are taken apart is
//! `clap`'s matter: `specs/Entries` says what it is given.
//!
//! Files, in reading order: `question.rt` (what is asked, and how), `code.rt` (the codes of faults),
//! `printed.rt` (faults as they are printed), `names.rt` (options, by name), `table.rt` (the commands,
//! with a row for each question), `builder.rt` (the commands as `clap` gets them), `command.rt`
//! (`parse`), `line.rt` (a question of a dialogue), `matching.rt` and `entries.rt` (what `clap` finds),
//! `reading.rt` (what that asks for), `options.rt` and `values.rt` (the values of options), `no_job.rt`,
//! `fault.rt`, `words.rt`, `tip.rt` and `help.rt` (what a person reads).
#![tactic(auto)]

mod builder;
mod code;
mod command;
mod entries;
mod fault;
mod help;
mod line;
mod matching;
mod names;
mod no_job;
mod options;
mod printed;
mod question;
mod reading;
mod table;
mod tip;
mod values;
mod words;

pub use code::Code;
pub use command::{Command, CommandLine, Dialogue, Run, parse};
pub use fault::ParseFault;
pub use htl_question::{Question, Since};
pub use line::{parse_process, parse_question, takes_process};
pub use printed::{Parts, PrintedFault};
pub use question::{Format, InputForm, Job, Moment, Setting};
