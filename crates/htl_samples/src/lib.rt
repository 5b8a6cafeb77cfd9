//! Samples for tests and measurements: events and segments from lines as `0/1: O 1 0x44, C 2
//! 0x44`, and generated traces of any size.
//!
//! Files, in reading order: `addresses.rt` makes stacks, `line.rt` reads events, `trace.rt` makes
//! segments of them, `random.rt` generates whole traces, and `fault.rt` says why there is no
//! sample.
#![tactic(auto)]

mod addresses;
mod fault;
mod line;
mod random;
mod trace;

pub use addresses::{shared_stack, stack};
pub use fault::SampleFault;
pub use line::{event, events, shared_events};
pub use random::{RandomTrace, SMALL};
pub use trace::{TRACE, Trace};
