//! Events from lines.

use crate::SampleFault;
use htl_event::{Event, Kind, NoMemory, SharedEvent, Stack};
use htl_segment::StackCache;
use std::alloc::Global;
use std::str::SplitWhitespace;

/// The event that a line writes: a letter for its kind, its sequence, what its kind asks for, and
/// frames in brackets, the innermost first.
///
/// | Line | Event |
/// |---|---|
/// | `O 1 0x44 [0x10 0x20]` | an open of that handle, with a stack |
/// | `C 2 0x44` | a close |
/// | `B 3 0x7` | a bad reference |
/// | `S 4` | a snapshot |
/// | `R 5 0x1000 Lky8` | a reference of that object under that tag |
/// | `D 6 0x1000 Lky8` | a dereference |
/// | `exit 7` | a process exit |
///
/// It is of process 4 and thread 12, or of another process where `process=5` stands after the
/// fields.
pub fn event(line: &str) -> Result<Event, SampleFault> {
    let (fields, frames) = line.split_once('[').unwrap_or((line, "]"));
    let mut words = fields.split_whitespace();
    let kind = kind_of(next(&mut words)?)?;
    let mut event = Event {
        sequence: number(next(&mut words)?)?,
        kind,
        process: 4,
        thread: 12,
        handle: 0,
        object: 0,
        tag: [0; 4],
        stack: stack_of(frames.trim().strip_suffix(']').ok_or(SampleFault::Line)?)?,
    };
    match kind {
        Kind::Opened | Kind::Closed | Kind::BadRef => event.handle = narrow(next(&mut words)?)?,
        Kind::Ref | Kind::Deref => {
            event.object = number(next(&mut words)?)?;
            event.tag = tag_of(next(&mut words)?)?;
        }
        Kind::Snapshot | Kind::Exited => {}
    }
    if let Some(word) = words.next() {
        event.process = narrow(word.strip_prefix("process=").ok_or(SampleFault::Line)?)?;
    }
    match words.next() {
        None => Ok(event),
        Some(_) => Err(SampleFault::Line),
    }
}

fn next<'a>(words: &mut SplitWhitespace<'a>) -> Result<&'a str, SampleFault> {
    words.next().ok_or(SampleFault::Line)
}

/// The events of a text, with commas between them. No text has none.
pub fn events(alloc: Global, lines: &str) -> Result<Vec<Event>, SampleFault> {
    let mut events = Vec::new(alloc);
    if lines.trim().is_empty() {
        return Ok(events);
    }
    for line in lines.split(',') {
        events.push(event(line)?)?;
    }
    Ok(events)
}

/// The same events with shared stacks. They may stand in any order, as no segment's do.
pub fn shared_events(alloc: Global, lines: &str) -> Result<Vec<SharedEvent>, SampleFault> {
    let events = events(alloc, lines)?;
    let mut cache = StackCache::new(alloc);
    let mut shared = Vec::with_capacity(alloc, events.len())?;
    for event in &events {
        shared.push(share(alloc, &mut cache, event)?)?;
    }
    Ok(shared)
}

fn share(alloc: Global, cache: &mut StackCache, event: &Event) -> Result<SharedEvent, NoMemory> {
    let stack = cache.of_addresses(alloc, event.stack.frames())?;
    Ok(event.with_stack(stack))
}

fn kind_of(word: &str) -> Result<Kind, SampleFault> {
    match word {
        "O" => Ok(Kind::Opened),
        "C" => Ok(Kind::Closed),
        "B" => Ok(Kind::BadRef),
        "S" => Ok(Kind::Snapshot),
        "R" => Ok(Kind::Ref),
        "D" => Ok(Kind::Deref),
        "exit" => Ok(Kind::Exited),
        _ => Err(SampleFault::Line),
    }
}

fn stack_of(words: &str) -> Result<Stack, SampleFault> {
    let mut stack = Stack::new();
    for word in words.split_whitespace() {
        if !stack.push(number(word)?) {
            return Err(SampleFault::Line);
        }
    }
    Ok(stack)
}

/// Four bytes are a tag, and `0x` and eight digits are its bytes in display order.
fn tag_of(word: &str) -> Result<[u8; 4], SampleFault> {
    if let [a, b, c, d] = word.as_bytes() {
        return Ok([*a, *b, *c, *d]);
    }
    Ok(narrow(word)?.to_be_bytes())
}

pub(crate) fn narrow(word: &str) -> Result<u32, SampleFault> {
    u32::try_from(number(word)?).map_err(|_| SampleFault::Line)
}

/// A number in decimal digits, or in hexadecimal ones after `0x`.
pub(crate) fn number(word: &str) -> Result<u64, SampleFault> {
    let parsed = match word.strip_prefix("0x") {
        Some(digits) => u64::from_str_radix(digits, 16),
        None => word.parse::<u64>(),
    };
    parsed.map_err(|_| SampleFault::Line)
}
