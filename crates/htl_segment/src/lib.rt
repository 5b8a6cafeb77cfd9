//! Segments of a trace as bytes in the format HLS1, one by one, in bundles, and in pieces; and
//! what a trace of segments is.
//!
//! `decode` accepts exactly the encodings and gives the encoded segment; of other bytes it reports
//! the first rule that they break. `laws` has what follows for readers and writers of the format.
//!
//! Files, in reading order: `version.rt` and `kinds.rt` (the limits of both versions, the codes of
//! kinds), `fields.rt` (numbers in bytes), `header.rt` and `record.rt` (the fields and their
//! rules), `fault.rt`, `records.rt` and `segment_bytes.rt` (records and a checked segment, read in
//! place), `stack_cache.rt`, `fingerprints.rt` and `sharing.rt` (stacks that were met lately, so
//! that equal ones are kept once), `segment.rt`, `decoding.rt`, `encoding.rt` and `building.rt` (a
//! segment in memory, from bytes, to bytes, from its parts), `rising.rt` (the greatest sequence of
//! segments), `keeper.rt` (what takes segments as they are read), `bundle.rt`, `splitter.rt` and
//! `feeding.rt` (segments one after another, whole and in pieces), `outline.rt`, `seen.rt`,
//! `repeated.rt` and `picks.rt` (what a question needs of them), `hexadecimal.rt`, `laws.rt`.
//!
//! `specs/Lib` names the definitions in the order in which they are read. In `proofs/`,
//! `RecordLaws`, `HeaderLaws` and `SegmentLaws` show both directions between bytes and segments,
//! and `BundleLaws` and `PiecesLaws` what follows for bundles; `Traces` has the events of key
//! sets, and `Threads` shows that segments may cross threads.
#![tactic(auto)]

mod building;
mod bundle;
mod decoding;
mod encoding;
mod fault;
mod feeding;
mod fields;
mod fingerprints;
mod header;
mod hexadecimal;
mod keeper;
mod kinds;
pub mod laws;
mod outline;
mod picks;
mod record;
mod records;
mod repeated;
mod rising;
mod seen;
mod segment;
mod segment_bytes;
mod sharing;
mod splitter;
mod stack_cache;
mod version;

pub use bundle::{cut_off, decode_bundle, split};
pub use decoding::decode;
pub use encoding::encode;
pub use fault::Fault;
pub use fields::{push_u16, push_u32, push_u64, u16_at, u32_at, u64_at};
pub use header::whole_len;
pub use hexadecimal::{HexFault, from_hex, is_digit};
pub use keeper::{JoiningKeeper, Keeper, Segments};
pub use kinds::code_of;
pub use outline::Outline;
pub use picks::Picks;
pub use record::Record;
pub use records::Records;
pub use repeated::first_repeated;
pub use rising::greatest_sequence;
pub use seen::Seen;
pub use segment::{Segment, copies};
pub use segment_bytes::SegmentBytes;
pub use splitter::{Splitter, decode_pieces};
pub use stack_cache::StackCache;
pub use version::{Limits, Version};
