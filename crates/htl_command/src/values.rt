//! The values of options, read from their texts. Each kind of value has one rule.
ghost use Rattle.std.specs.Prelude.{◌≡◌};
ghost use Rattle.htl_command.specs.Values.{count_in, handle_in, moment_in, number_in, object_in};
ghost use Rattle.htl_command.specs.Values.{points_in, process_in, sequence_in, since_in, tag_in};
ghost use Rattle.htl_command.specs.Values.{workers_in};

use crate::question::Moment;
use htl_numbers::{decimal, hexadecimal};
use htl_question::Since;

/// How many threads can be asked for at most.
const MOST_WORKERS: u32 = 8;

/// At how many moments open handles are counted: at least, and at most.
const LEAST_POINTS: u32 = 2;

const MOST_POINTS: u32 = 1000;

pub(crate) fn process(text: &str) -> Option<u32>
    ensures { result ≡ process_in text.now }
{
    let number = decimal(text.as_bytes(), u64::from(u32::MAX))?;
    Some(number as u32)
}

pub(crate) fn sequence(text: &str) -> Option<u64>
    ensures { result ≡ sequence_in text.now }
{
    decimal(text.as_bytes(), u64::MAX)
}

/// Since when handles count.
#[tactic(auto, unfolding(crate::specs::Values::since_in))]
pub(crate) fn since(text: &str) -> Option<Since>
    ensures { result ≡ since_in text.now }
{
    if text == "snapshot" {
        return Some(Since::Snapshot);
    }
    match sequence(text) {
        Some(sequence) => Some(Since::Sequence(sequence)),
        None => None,
    }
}

/// Up to when events count.
#[tactic(auto, unfolding(crate::specs::Values::moment_in))]
pub(crate) fn moment(text: &str) -> Option<Moment>
    ensures { result ≡ moment_in text.now }
{
    if text == "complete" {
        return Some(Moment::Complete);
    }
    match sequence(text) {
        Some(sequence) => Some(Moment::Sequence(sequence)),
        None => None,
    }
}

pub(crate) fn object(text: &str) -> Option<u64>
    ensures { result ≡ object_in text.now }
{
    hexadecimal(text.as_bytes(), u64::MAX)
}

pub(crate) fn handle(text: &str) -> Option<u32>
    ensures { result ≡ handle_in text.now }
{
    let number = hexadecimal(text.as_bytes(), u64::from(u32::MAX))?;
    Some(number as u32)
}

/// A tag's bytes, in the order in which they are shown.
#[tactic(auto, unfolding(crate::specs::Values::tag_in))]
pub(crate) fn tag(text: &str) -> Option<[u8; 4]>
    ensures { result ≡ tag_in text.now }
{
    let bytes = text.as_bytes();
    if let Ok(tag) = <[u8; 4]>::try_from(bytes) {
        return Some(tag);
    }
    if bytes.len() == 10 && bytes.starts_with(b"0x") {
        let in_order = hexadecimal(bytes, u64::from(u32::MAX))?;
        return Some((in_order as u32).to_be_bytes());
    }
    None
}

pub(crate) fn workers(text: &str) -> Option<u32>
    ensures { result ≡ workers_in text.now }
{
    number(text, 1, MOST_WORKERS)
}

/// How many rows are printed at most, or how many handles a stack has at least.
pub(crate) fn count(text: &str) -> Option<u32>
    ensures { result ≡ count_in text.now }
{
    number(text, 1, u32::MAX)
}

/// At how many moments open handles are counted.
pub(crate) fn points(text: &str) -> Option<u32>
    ensures { result ≡ points_in text.now }
{
    number(text, LEAST_POINTS, MOST_POINTS)
}

fn number(text: &str, least: u32, most: u32) -> Option<u32>
    ensures { result ≡ number_in least most text.now }
{
    let number = decimal(text.as_bytes(), u64::from(most))? as u32;
    if number < least { None } else { Some(number) }
}
