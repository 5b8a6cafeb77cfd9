//! The segments that a source gives, by one worker or by several.
//!
//! One worker reads into a block in which it checks the segments, and a keeper takes them from there.
//! The keeper is only borrowed, so after a fault it has the segments before it. If a source can be read
//! from several places at once, several workers read a part of its bytes each, with a keeper of its
//! own, and what the keepers took goes over to the first one in order. A part begins where a segment
//! seems to. Then the source skips these bytes, and one worker reads on. Whatever is wrong with a part,
//! its bytes or its place, the source stays where it was, and so each fault is what one worker reports.
//!
//! A source that ends within a segment gives the whole segments before it, and says where that is. The
//! crates above decide whether they refuse such an end.
//!
//! Files, in reading order: `fault.rt` (why a reading ends before its source does), `outcome.rt` (what
//! comes of one that doesn't), `reading.rt` (a source to its end), `block.rt` (the bytes that a read
//! puts behind those that are held), `gathered.rt` (reading on by one worker), `parts.rt` (several
//! workers), `ends.rt` (where their parts end), `rounds.rt` (several workers, some bytes at a time),
//! `pairs.rt` (the bytes that digits write), `digits.rt` (a text in hexadecimal).
//!
//! `specs/Sources` says what is left at the end, what is reported and how far a source is read, and
//! `specs/Taking` what a keeper took of it. In `proofs/`, `TakenLaws` shows which segments reads give,
//! `FaultLaws` which faults are reported, `KeptLaws` which segments a keeper has after one, `ReadLaws`
//! that how a source is read doesn't depend on the value that is returned, `PartLaws` that the parts of
//! several workers give the segments of all bytes, `SkipLaws` and `RoundLaws` that their rounds do,
//! `TailLaws` how many other readers are asked for, `PairsLaws` which bytes the digits of a text write
//! that comes piece by piece, and `DigitsLaws` that those of a source are read so.
#![tactic(auto)]

mod block;
mod digits;
mod ends;
mod fault;
mod gathered;
mod outcome;
mod pairs;
mod parts;
mod reading;
mod rounds;

pub use digits::{DigitsFault, read_digits};
pub use fault::SourceFault;
pub use outcome::{Bundle, EarlyEnd, SegmentName, early_end};
pub use reading::{gather_bundle, read_bundle, take_source};
pub use rounds::SegmentKeeper;
