//! The inputs of a run: which segments they encode, how their sources are read, and why a run ends.
//!
//! Runs (`htl_main`) and conversions (`htl_convert`) call this crate. `read_all` gives the segments
//! of sources, and `decode_all` those of bytes in memory. A caller that keeps none of them, or not
//! all, reads each source by a call of `htl_reading`, and has its end accepted or refused here
//! (`check_end`). Each ends with the same faults.
//!
//! Files, in reading order: `fault.rt` (why a run ends: the faults, their lines and statuses),
//! `cuts.rt` (which inputs end within a segment), `decoded.rt` (the segments of inputs, and which
//! input each is of), `inputs.rt` and `sources.rt` (the segments of inputs in memory and of
//! sources), `output.rt` (what is written).
//!
//! `specs/` is read in the order of `specs/Lib`: `Inputs` (which segments the inputs encode, and
//! which input is refused first), `CutInputs` (which of them end within a segment), `Sources` (what
//! is reported of a source that is read), `Readings` (how any run reads its sources, in one
//! record), `Statuses` (the exit statuses).
#![tactic(auto)]

mod cuts;
mod decoded;
mod fault;
mod inputs;
mod output;
mod sources;

pub use cuts::{Accepted, CutEnd, CutInputs, accept, add_end, check_end, cut_inputs};
pub use decoded::{Decoded, InputSpan, span_at};
pub use fault::RunFault;
pub use inputs::decode_all;
pub use output::write_lines;
pub use sources::read_all;
