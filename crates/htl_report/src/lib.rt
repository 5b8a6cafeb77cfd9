//! The printed texts of answers.
//!
//! `specs/Texts` says what is printed: a first line, whose parts `specs/Heads` has, and the lines of
//! the rows by their form. `text` writes just that, into one buffer.
//!
//! Files, in reading order: `answer.rt` (the text of an answer, and whether it shows addresses
//! without a name for any); `heads.rt` (what its first line says of the question); `rows.rt` (the
//! lines of each row, of whatever form, and the number of rows); the forms, in `events.rt`,
//! `counts.rt` and `summary.rt`; what several forms print: `address.rt`, `printed.rt` (stacks that
//! were written before), `parts.rt`; `names.rt` (whether rows have an address, and one with a name);
//! and the leaking stacks once more, for flame graph programs (`flame_graph.rt`).
#![tactic(auto)]

mod address;
mod answer;
mod counts;
mod events;
mod flame_graph;
mod heads;
mod names;
mod parts;
mod printed;
mod rows;
mod summary;

pub use address::write_address;
pub use answer::{shows_no_name, text};
pub use flame_graph::folded;
pub use parts::{shown_byte, write_tag};
pub use rows::first_rows;
