//! How much of the inputs was read, for a person at a terminal.
//!
//! Nothing is shown of reading that ends within a second. After that a line on standard error says
//! how much was read, and of how much where each input is a file. It is written over from time to
//! time and goes away when the last input has ended, or before a fault is said. A line that can't be
//! written is left out.
//!
//! The width of the terminal can't be asked for here, so the line is short enough for narrow ones:
//! it has at most `WIDTH` characters, and as many blanks are written over it.

ghost use Rattle.std.specs.Prelude.{◌≡◌, ◌+◌, ◌-◌, ◌*◌, ◌^◌, ◌<◌, ◌≤◌, ◌↔◌, None, Some};
ghost use Rattle.std.specs.Prelude.{IsTrue, IfSome, IfNone, min};
ghost use Rattle.std.specs.Duration.{as_nanos};

use std::cell::Cell;
use std::time::{Duration, Instant};
use std::{fmt, io};

/// How long reading lasts before it is shown, in seconds.
const PATIENCE: u64 = 1;

/// How long the line stands before it is written over, in milliseconds.
const PERIOD: u64 = 200;

/// How many characters the line has at most: those of `read 999.9 of 999.9 MB`.
const WIDTH: usize = 22;

/// How much of the inputs was read. Times are counted from when the `Progress` was made.
#[derive(Clone, Copy)]
struct Meter {
    /// When reading began.
    began: Duration,
    /// The bytes that were read.
    read: u64,
    /// The bytes of all inputs, where they are known.
    total: Option<u64>,
    /// How many inputs have not ended.
    inputs: u64,
    /// When the line that is shown was written.
    shown: Option<Duration>,
}

impl Meter {
    /// No input yet, and nothing read at this time.
    fn new(began: Duration) -> Meter
        ensures began { result.began ≡ began }
        ensures read { result.read ≡ 0 }
        ensures total { result.total ≡ Some 0 }
        ensures inputs { result.inputs ≡ 0 }
        ensures shown { result.shown ≡ None }
    {
        Meter {
            began,
            read: 0,
            total: Some(0),
            inputs: 0,
            shown: None,
        }
    }

    /// One more input, with its number of bytes where that is known.
    fn open(&mut self, len: Option<u64>)
        ensures inputs { self.new.inputs ≡ min (self.old.inputs + 1) (2 ^ 64 - 1) }
        ensures unknown { IfNone len (self.new.total ≡ None) }
        ensures still_unknown { IfNone self.old.total (self.new.total ≡ None) }
        ensures known { IfSome self.old.total (λ total. IfSome len (λ more.
            total + more < 2 ^ 64 → self.new.total ≡ Some (total + more))) }
        ensures kept { (self.new.read ≡ self.old.read) × (self.new.shown ≡ self.old.shown)
            × (self.new.began ≡ self.old.began) }
    {
        self.inputs = self.inputs.saturating_add(1);
        self.total = match (self.total, len) {
            (Some(total), Some(len)) => total.checked_add(len),
            _ => None,
        };
    }

    /// Counts bytes that were read of an input.
    fn count(&mut self, bytes: u64)
        ensures { self.new ≡ record self.old { read = min (self.old.read + bytes) (2 ^ 64 - 1) } }
    {
        self.read = self.read.saturating_add(bytes);
    }

    /// Notes that an input has ended.
    fn end(&mut self)
        ensures inputs { self.new.inputs ≡ self.old.inputs - 1 }
        ensures kept { (self.new.read ≡ self.old.read) × (self.new.total ≡ self.old.total)
            × (self.new.shown ≡ self.old.shown) × (self.new.began ≡ self.old.began) }
    {
        self.inputs = self.inputs.saturating_sub(1);
    }

    /// Whether the line is to be written at this time.
    fn is_due(&self, now: Duration) -> bool
        ensures first { IfNone self.now.shown (IsTrue result
            ↔ (PATIENCE * 1_000_000_000 ≤ as_nanos now - as_nanos self.now.began)) }
        ensures again { IfSome self.now.shown (λ at. IsTrue result
            ↔ (PERIOD * 1_000_000 ≤ as_nanos now - as_nanos at)) }
    {
        match self.shown {
            None => now.saturating_sub(self.began) >= Duration::from_secs(PATIENCE),
            Some(at) => now.saturating_sub(at) >= Duration::from_millis(PERIOD),
        }
    }
}

impl fmt::Display for Meter {
    fn fmt<W: fmt::Write>(&self, f: &mut fmt::Formatter<W>) -> fmt::Result {
        let unit = Unit::for_bytes(self.total.unwrap_or(0).max(self.read));
        let read = unit.amount(self.read);
        match self.total {
            Some(total) => write!(f, "read {read} of {} {unit}", unit.amount(total)),
            None => write!(f, "read {read} {unit}"),
        }
    }
}

/// In what a number of bytes is shown.
#[derive(Clone, Copy)]
enum Unit {
    Megabyte,
    Gigabyte,
    Terabyte,
    Petabyte,
    Exabyte,
}

impl Unit {
    /// The smallest unit in which the amount is below 1,000. Every number of 64 bits is below 1,000
    /// exabytes.
    fn for_bytes(bytes: u64) -> Unit {
        match bytes / 1_000_000_000 {
            0 => Unit::Megabyte,
            1..=999 => Unit::Gigabyte,
            1_000..=999_999 => Unit::Terabyte,
            1_000_000..=999_999_999 => Unit::Petabyte,
            _ => Unit::Exabyte,
        }
    }

    /// The number of bytes in this unit.
    fn amount(self, bytes: u64) -> Amount {
        let tenths = match self {
            Unit::Megabyte => bytes / 100_000,
            Unit::Gigabyte => bytes / 100_000_000,
            Unit::Terabyte => bytes / 100_000_000_000,
            Unit::Petabyte => bytes / 100_000_000_000_000,
            Unit::Exabyte => bytes / 100_000_000_000_000_000,
        };
        Amount { tenths }
    }
}

impl fmt::Display for Unit {
    fn fmt<W: fmt::Write>(&self, f: &mut fmt::Formatter<W>) -> fmt::Result {
        f.write_str(match self {
            Unit::Megabyte => "MB",
            Unit::Gigabyte => "GB",
            Unit::Terabyte => "TB",
            Unit::Petabyte => "PB",
            Unit::Exabyte => "EB",
        })
    }
}

/// A number with one digit after its point, which prints in five characters where it is less than
/// 1,000.
#[derive(Clone, Copy)]
struct Amount {
    tenths: u64,
}

impl fmt::Display for Amount {
    fn fmt<W: fmt::Write>(&self, f: &mut fmt::Formatter<W>) -> fmt::Result {
        write!(f, "{:>3}.{}", self.tenths / 10, self.tenths % 10)
    }
}

/// Shows how much of the inputs was read.
#[derive(Drop)]
pub struct Progress {
    rt: HostRuntime,
    /// When the meter was made.
    began: Instant,
    meter: Cell<Meter>,
    is_hidden: Cell<bool>,
}

impl Progress {
    /// A meter of no inputs so far.
    pub fn begin(rt: HostRuntime) -> io::Result<Progress> {
        let began = Instant::now(&rt)?;
        Ok(Progress {
            rt,
            began,
            meter: Cell::new(Meter::new(Duration::ZERO)),
            is_hidden: Cell::new(false),
        })
    }

    /// Shows nothing from now on.
    pub fn hide(&self) {
        self.is_hidden.set(true);
    }

    /// One more input will be read, with its number of bytes where that is known. Where all others
    /// have ended, or there is none, reading begins anew.
    pub fn open(&self, len: Option<u64>) {
        let mut meter = self.meter.get();
        if meter.inputs == 0 {
            meter = Meter::new(self.began.elapsed(&self.rt).unwrap_or(meter.began));
        }
        meter.open(len);
        self.meter.set(meter);
    }

    /// Counts bytes that were read of an input.
    pub fn count(&self, bytes: u64) {
        let mut meter = self.meter.get();
        meter.count(bytes);
        if let Ok(now) = self.began.elapsed(&self.rt) {
            if !self.is_hidden.get() && meter.is_due(now) {
                let _ = eprint!(self.rt; "\r{meter}");
                meter.shown = Some(now);
            }
        }
        self.meter.set(meter);
    }

    /// An input has ended, or could not be read on.
    pub fn end(&self) {
        let mut meter = self.meter.get();
        meter.end();
        self.meter.set(meter);
        if meter.inputs == 0 {
            self.clear();
        }
    }

    /// Reading ended before its inputs did. The line is cleared, and what is read next begins anew.
    pub fn stop(&self) {
        self.clear();
        let mut meter = self.meter.get();
        meter.inputs = 0;
        self.meter.set(meter);
    }

    /// Clears the line.
    pub fn clear(&self) {
        let mut meter = self.meter.get();
        if meter.shown.is_some() {
            let _ = eprint!(self.rt; "\r{:WIDTH$}\r", "");
            meter.shown = None;
            self.meter.set(meter);
        }
    }
}
