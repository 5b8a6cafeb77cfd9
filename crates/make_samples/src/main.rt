//! Writes a generated trace of any size to standard output, as a bundle of segments.
//!
//! `make_samples MEGABYTES STACKS HANDLES PROCESSORS` writes a trace of about that size, to measure
//! with: each segment is made, written and let go, so it takes little memory whatever the size. Two
//! more numbers say how many processes there are, and how many events a segment has.
//!
//! Files, in reading order: `sizes.rt` has the sizes of traces, `writing.rt` writes them, and
//! `fault.rt` says why a trace was not written.
#![tactic(auto)]

mod fault;
mod sizes;
mod writing;

use anyhow::{Result, bail};
use htl_device::Writing;
use sizes::{MOST_EVENTS, PROCESSES};
use std::{env, io};

const USAGE: &str = "make_samples MEGABYTES STACKS HANDLES PROCESSORS [PROCESSES EVENTS]";

fn main(rt: HostRuntime) -> Result<()> {
    let alloc = rt.alloc();
    let words: Vec<String> = env::args(&rt)?.skip(1).collect(alloc)?;
    let [megabytes, stacks, handles, processors, shape @ ..] = words.as_slice() else {
        bail!("{USAGE}");
    };
    let (processes, events) = match shape {
        [] => (PROCESSES, MOST_EVENTS),
        [processes, events] => (processes.parse()?, events.parse()?),
        _ => bail!("{USAGE}"),
    };
    let generated = sizes::generated(
        megabytes.parse()?,
        stacks.parse()?,
        handles.parse()?,
        processors.parse()?,
        processes,
        events,
    );
    let mut out = Writing::new(io::writer(&rt));
    writing::write_generated(alloc, &generated, &mut out)?;
    Ok(())
}
