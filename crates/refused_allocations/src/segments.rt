//! Calls on segments and on their bytes.

use allocation_trials::{Equal, Refusal, Same, Trials, answered};
use htl_event::Event;
use htl_samples::{SMALL, TRACE};
use htl_segment::{
    Fault, Segment, Splitter, decode, decode_bundle, decode_pieces, encode, from_hex,
};
use std::alloc::Global;
use std::mem;

pub fn try_all(trials: &mut Trials<'_, HostRuntime>) {
    trials.reads("decode", encoding, decoded);
    trials.reads("decode_bundle", bundle, decoded_bundle);
    trials.reads("decode_pieces", bundle, decoded_pieces);
    trials.reads("from_hex", digits, bytes_of_digits);
    trials.reads("encode", segment, encoded);
    trials.changes("feed", half_fed, feed);
    trials.changes("build", events, build);
    trials.changes("build2", events, build2);
}

fn segment(alloc: Global) -> Result<Segment, Refusal> {
    answered(SMALL.segment(alloc, 0, 1))
}

fn encoding(alloc: Global) -> Result<Vec<u8>, Refusal> {
    answered(encode(alloc, &segment(alloc)?))
}

fn bundle(alloc: Global) -> Result<Vec<u8>, Refusal> {
    answered(SMALL.bundle(alloc))
}

fn digits(alloc: Global) -> Result<String, Refusal> {
    answered(String::from_str(alloc, "48 4c 53 31\n01 00"))
}

fn decoded(alloc: Global, bytes: &Vec<u8>) -> Result<Segment, Refusal> {
    let (segment, _) = decode(alloc, bytes)?;
    Ok(segment)
}

fn decoded_bundle(alloc: Global, bytes: &Vec<u8>) -> Result<Vec<Segment>, Refusal> {
    answered(decode_bundle(alloc, bytes))
}

/// The bundle's segments, of which the second is in both pieces.
fn decoded_pieces(alloc: Global, bytes: &Vec<u8>) -> Result<Vec<Segment>, Refusal> {
    let (front, back) = bytes.split_at(FIRST_PIECE.min(bytes.len()));
    answered(decode_pieces(alloc, &[front, back]))
}

fn bytes_of_digits(alloc: Global, text: &String) -> Result<Equal<Vec<u8>>, Refusal> {
    Equal::of(from_hex(alloc, text.as_bytes()))
}

fn encoded(alloc: Global, segment: &Segment) -> Result<Equal<Vec<u8>>, Refusal> {
    Equal::of(encode(alloc, segment))
}

/// A splitter that was fed the first bytes of a bundle, and the others.
#[derive(Drop)]
struct Feeding {
    splitter: Splitter,
    rest: Vec<u8>,
}

impl Same for Feeding {
    ghost use Rattle.std.specs.Prelude.{◌≡◌};

    ghost IsSame = { λ one two.
        (one.splitter.fed ≡ two.splitter.fed) × (one.rest.items ≡ two.rest.items) };

    fn same(&self, other: &Feeding) -> bool {
        self.splitter.same(&other.splitter) && self.rest == other.rest
    }
}

/// The first piece ends in the records of the second segment.
const FIRST_PIECE: usize = 4000;

fn half_fed(alloc: Global) -> Result<Feeding, Refusal> {
    let mut rest = bundle(alloc)?;
    let mut splitter = Splitter::new(alloc);
    let piece: Vec<u8> = rest.drain(..FIRST_PIECE.min(rest.len())).collect(alloc)?;
    splitter.feed(alloc, &piece)?;
    Ok(Feeding { splitter, rest })
}

fn feed(alloc: Global, feeding: &mut Feeding) -> Result<Vec<Segment>, Refusal> {
    if feeding
        .splitter
        .fed()
        .checked_add(feeding.rest.len() as u64)
        .is_none()
    {
        return Err(Refusal::Other);
    }
    answered(feeding.splitter.feed(alloc, &feeding.rest))
}

fn events(alloc: Global) -> Result<Equal<Vec<Event>>, Refusal> {
    let mut events = Vec::new(alloc);
    for place in 0..SMALL.events {
        events.push(SMALL.event(0, 1, place))?;
    }
    events.retain(|event| event.kind != htl_event::Kind::Exited);
    Ok(Equal(events))
}

fn build(alloc: Global, events: &mut Equal<Vec<Event>>) -> Result<Segment, Refusal> {
    let given = mem::replace(&mut events.0, Vec::new(alloc));
    handed_back(events, Segment::build(alloc, TRACE.id, 1, 0, 1, given))
}

fn build2(alloc: Global, events: &mut Equal<Vec<Event>>) -> Result<Segment, Refusal> {
    let given = mem::replace(&mut events.0, Vec::new(alloc));
    handed_back(events, Segment::build2(alloc, TRACE.id, 1, 0, 1, given))
}

/// Puts the events that a refusal hands back where they were taken from.
fn handed_back(
    events: &mut Equal<Vec<Event>>,
    built: Result<Segment, (Fault, Vec<Event>)>,
) -> Result<Segment, Refusal> {
    match built {
        Ok(segment) => Ok(segment),
        Err((fault, given)) => {
            events.0 = given;
            Err(Refusal::from(fault))
        }
    }
}
