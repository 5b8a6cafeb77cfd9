//! Conversions: `dump_from` writes the segments of sources as text, and `encode_from` writes the
//! segments of texts as bytes. The commands `dump` and `encode` call them. Neither needs a case,
//! and neither answers a question.
//!
//! Files, in reading order: `dumping.rt` and `encoding.rt`.
//!
//! `specs/` is read in the order of `specs/Lib`: `Dumps` and `Encodings` (what is written, and why
//! a conversion ends), `Dumping` (how far the dump of an input came).
#![tactic(auto)]

mod dumping;
mod encoding;

pub use dumping::dump_from;
pub use encoding::encode_from;
