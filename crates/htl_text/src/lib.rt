//! The text form of segments, which people can read, write and compare: a line for each segment,
//! a line for each of its events, and a line for each frame of the event's stack.
//!
//! `dump` prints a segment; `encode` reads a text of segments and gives their bytes. What was
//! dumped is encoded to the same bytes, and what was encoded is dumped to the same segments.
//!
//! `specs/Lib` names the definitions in reading order: the items that lines write, the text of a
//! segment (`Texts`), the fields of a line (`Fields`), the item of a line (`Lines`), and the segments
//! that a whole text encodes, or else its first fault (`Encoded`).
//!
//! Files, in reading order: `item.rt` (what a line says), `dumping.rt` (segments to text),
//! `field.rt`, `words.rt`, `values.rt` and `lines.rt` (from a line to its item), `fault.rt`,
//! `draft.rt` (a segment whose lines are being read), `encoding.rt` (a text to bytes), `places.rt`
//! (the lines of events), `laws.rt` (a text is read in one way, dumped text as the segments that it
//! was made of, and the line of an event has it).
#![tactic(auto)]

mod draft;
mod dumping;
mod encoding;
mod fault;
mod field;
mod item;
pub mod laws;
mod lines;
mod places;
mod values;
mod words;

pub use dumping::dump;
pub use encoding::encode;
pub use fault::{FormFault, LineFault, TextFault};
pub use field::Field;
pub use places::event_line;
