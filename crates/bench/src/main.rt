//! How fast the crates are, and how much memory they need.
//!
//! `bench segments 4096` makes one measurement at one size: `measurement` has the words, and each
//! file beside it says what its size counts. With no words each is made at a small size, which the
//! gate compares with what was printed before: what a step went through goes to standard output,
//! how long it took to standard error.
#![tactic(auto)]

mod analysts;
mod cases;
mod measurement;
mod reports;
mod segments;
mod stopwatch;
mod surveys;
mod tables;
mod trees;

use anyhow::{Context, Result};
use measurement::Measurement;
use std::env;
use std::sync::Wait;
use std::thread::Threads;
use stopwatch::Stopwatch;

fn measure<R: Threads + Wait + Sync>(
    rt: &HostRuntime,
    threads: &R,
    measurement: Measurement,
    size: u32,
) -> Result<()> {
    println!(rt; "{} {size}", measurement.word())?;
    let mut watch = Stopwatch::start(rt)?;
    match measurement {
        Measurement::Segments => segments::measure(&mut watch, size),
        Measurement::Trees => trees::measure(&mut watch, size),
        Measurement::Tables => tables::measure(&mut watch, size),
        Measurement::Analysts => analysts::measure(&mut watch, size),
        Measurement::Cases => cases::measure(&mut watch, size),
        Measurement::Surveys => surveys::measure(&mut watch, threads, size),
        Measurement::Reports => reports::measure(&mut watch, size),
    }?;
    watch.finish()
}

fn main(rt: HostRuntime) -> Result<()> {
    let mut words = env::args(&rt)?.skip(1);
    let Some(word) = words.next() else {
        for measurement in Measurement::ALL {
            measure(&rt, &rt, *measurement, measurement.small_size())?;
        }
        return Ok(());
    };
    let measurement = Measurement::of(&word).context("no measurement has this name")?;
    let size = match words.next() {
        Some(size) => size
            .parse::<u32>()
            .ok()
            .context("the size is no number below 2^32")?,
        None => measurement.small_size(),
    };
    measure(&rt, &rt, measurement, size)
}
