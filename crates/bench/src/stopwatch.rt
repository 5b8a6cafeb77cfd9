//! What a measurement prints: what each step went through, and the time that it took.

use anyhow::Result;
use std::alloc::Global;
use std::error::Error;
use std::fmt::Display;
use std::io;
use std::time::Instant;

/// Times one step after the other.
///
/// What a step went through goes to standard output, which is the same in each run, and how long it
/// took to standard error. Where a list can't be made, or a line can't be printed, the next step
/// follows all the same, and `finish` reports the first fault.
#[derive(Drop)]
pub struct Stopwatch<'a> {
    pub rt: &'a HostRuntime,
    started: Instant,
    outcome: Result<()>,
}

impl<'a> Stopwatch<'a> {
    /// Begins the first step.
    pub fn start(rt: &'a HostRuntime) -> io::Result<Stopwatch<'a>> {
        let started = Instant::now(rt)?;
        Ok(Stopwatch {
            rt,
            started,
            outcome: Ok(()),
        })
    }

    /// The memory that all that is measured is made in.
    pub fn alloc(&self) -> Global {
        self.rt.alloc()
    }

    /// Begins a step anew, so that what came before it isn't timed.
    pub fn restart(&mut self) {
        match Instant::now(self.rt) {
            Ok(now) => self.started = now,
            Err(fault) => self.fail(fault),
        }
    }

    /// Ends a step that went through so many bytes, events or the like, and begins the next one. A
    /// byte a microsecond is a megabyte a second.
    pub fn lap(&mut self, step: &str, count: u64) {
        if let Err(fault) = self.print_lap(step, count) {
            self.fail(fault);
        }
        self.restart();
    }

    fn print_lap(&self, step: &str, count: u64) -> io::Result<()> {
        let microseconds = self.started.elapsed(self.rt)?.as_micros().max(1);
        let speed = u128::from(count) / microseconds;
        println!(self.rt; "{step}: {count}")?;
        eprintln!(self.rt; "{step}: {microseconds} us, {speed} a microsecond")
    }

    /// Ends a step that made this list, if it could, and begins the next one when it is gone.
    pub fn lap_list<T: Drop, E: Error>(&mut self, step: &str, made: Result<Vec<T>, E>) {
        match made {
            Ok(list) => self.lap(step, list.len() as u64),
            Err(fault) => self.fail(fault),
        }
        self.restart();
    }

    /// Prints what isn't timed.
    pub fn print<T: Display + Copy>(&mut self, name: &str, value: T) {
        if let Err(fault) = println!(self.rt; "{name}: {value}") {
            self.fail(fault);
        }
    }

    /// Prints what differs from run to run.
    pub fn remark(&mut self, name: &str, value: u64) {
        if let Err(fault) = eprintln!(self.rt; "{name}: {value}") {
            self.fail(fault);
        }
    }

    fn fail<E: Error>(&mut self, fault: E) {
        if self.outcome.is_ok() {
            self.outcome = Err(fault.into());
        }
    }

    /// The first fault of a step, if there was one.
    pub fn finish(self) -> Result<()> {
        self.outcome
    }
}
