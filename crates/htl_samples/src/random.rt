//! Generated traces of any size.

use crate::SampleFault;
use crate::trace::TRACE;
use htl_event::{Event, Kind, MAX_FRAMES, Stack};
use htl_segment::{Segment, encode};
use std::alloc::Global;

/// What events are drawn from: each kind as often as it stands here.
const KINDS: [Kind; 16] = [
    Kind::Opened,
    Kind::Opened,
    Kind::Opened,
    Kind::Opened,
    Kind::Opened,
    Kind::Closed,
    Kind::Closed,
    Kind::Closed,
    Kind::Closed,
    Kind::BadRef,
    Kind::Ref,
    Kind::Ref,
    Kind::Deref,
    Kind::Deref,
    Kind::Snapshot,
    Kind::Exited,
];

const TAGS: [[u8; 4]; 3] = [*b"Dflt", *b"Lky8", [1, 0x41, 0x42, 0x43]];

/// A generated trace in version 2.
///
/// Each event follows from the seed and its place alone, so segments can be made in any order.
/// Sequences are distinct and rise along each processor, and those of the processors lie between
/// one another.
#[derive(Clone, Copy, Debug, PartialEq, Eq)]
pub struct RandomTrace {
    pub seed: u64,
    pub processors: u16,
    /// How many segments each processor has.
    pub segments: u32,
    /// How many events each segment has, at most 4,096.
    pub events: u32,
    pub processes: u32,
    /// How many base handles each process has, and how many objects there are.
    pub handles: u32,
    /// How many stacks there are. They share their outer frames.
    pub stacks: u32,
    /// How many frames a stack has at least.
    pub least_frames: u32,
    /// How many frames a stack has at most.
    pub most_frames: u32,
}

/// A trace for tests: two processors with three segments each, and several events of each handle
/// and stack.
pub const SMALL: RandomTrace = RandomTrace {
    seed: 1,
    processors: 2,
    segments: 3,
    events: 40,
    processes: 3,
    handles: 8,
    stacks: 12,
    least_frames: 0,
    most_frames: 4,
};

impl RandomTrace {
    ghost use Rattle.std.specs.Prelude.{◌≡◌, IfOk};
    ghost use Rattle.htl_samples.specs.Samples.{IsOfTrace};

    /// The event at a place of a segment.
    pub fn event(&self, processor: u16, number: u32, place: u32) -> Event {
        let sequence = self.sequence(processor, number, place);
        let mut dice = Dice::new(self.seed, sequence);
        let kind = KINDS[dice.below(KINDS.len() as u32) as usize];
        let mut event = Event {
            sequence,
            kind,
            process: dice.below(self.processes).wrapping_mul(4).wrapping_add(4),
            thread: dice.below(64),
            handle: 0,
            object: 0,
            tag: [0; 4],
            stack: self.stack(dice.below(self.stacks)),
        };
        let entry = dice.below(self.handles);
        match kind {
            Kind::Opened | Kind::Closed => {
                event.handle = entry.wrapping_mul(4).wrapping_add(4 + dice.below(4));
            }
            Kind::BadRef => event.handle = entry,
            Kind::Ref | Kind::Deref => {
                event.object = 0x1000 + 0x10 * u64::from(entry);
                event.tag = TAGS[dice.below(TAGS.len() as u32) as usize];
            }
            Kind::Snapshot | Kind::Exited => {}
        }
        event
    }

    /// A segment of a processor.
    pub fn segment(
        &self,
        alloc: Global,
        processor: u16,
        number: u32,
    ) -> Result<Segment, SampleFault>
        ensures trace { IfOk result
            (IsOfTrace (record TRACE { processors = self.now.processors })) }
        ensures key { IfOk result (λ s. (s.processor ≡ processor) × (s.number ≡ number)) }
    {
        let mut events = Vec::with_capacity(alloc, self.events as usize)?;
        for place in 0..self.events {
            events.push(self.event(processor, number, place))?;
        }
        Ok(Segment::build2(alloc, TRACE.id, self.processors, processor, number, events)?)
    }

    /// All segments: the first of each processor, then the second of each, and so on.
    pub fn segments(&self, alloc: Global) -> Result<Vec<Segment>, SampleFault> {
        let mut segments = Vec::new(alloc);
        for number in 0..self.segments {
            for processor in 0..self.processors {
                segments.push(self.segment(alloc, processor, number)?)?;
            }
        }
        Ok(segments)
    }

    /// The bytes of all segments, in the same order.
    pub fn bundle(&self, alloc: Global) -> Result<Vec<u8>, SampleFault> {
        let mut bytes = Vec::new(alloc);
        for number in 0..self.segments {
            for processor in 0..self.processors {
                bytes.extend_from_slice(&encode(alloc, &self.segment(alloc, processor, number)?)?)?;
            }
        }
        Ok(bytes)
    }

    /// Processors take turns.
    fn sequence(&self, processor: u16, number: u32, place: u32) -> u64 {
        let turn = u64::from(number) * u64::from(self.events) + u64::from(place);
        turn.wrapping_mul(u64::from(self.processors))
            .wrapping_add(u64::from(processor))
            .wrapping_add(1)
    }

    fn stack(&self, number: u32) -> Stack {
        let mut dice = Dice::new(self.seed, u64::from(number));
        let spread = self.most_frames.saturating_sub(self.least_frames);
        let depth = self
            .least_frames
            .saturating_add(dice.below(spread.saturating_add(1)))
            .min(MAX_FRAMES as u32);
        let mut stack = Stack::new();
        for frame in (0..depth).rev() {
            stack.push(address(number, frame));
        }
        stack
    }
}

/// The address of a stack at so many frames from the outermost. Four stacks in a row have other
/// outermost frames, 16 other next ones, and so on.
fn address(stack: u32, frame: u32) -> u64 {
    let branches = 4u32.saturating_pow(frame.saturating_add(1));
    mix(u64::from(stack % branches.max(1)) << 6 | u64::from(frame))
}

/// Numbers that follow from a seed.
#[derive(Drop)]
struct Dice(u64);

impl Dice {
    ghost use Rattle.std.specs.Prelude.{◌<◌};

    fn new(seed: u64, place: u64) -> Dice {
        Dice(mix(seed ^ mix(place)))
    }

    /// A number below `bound`, or 0.
    fn below(&mut self, bound: u32) -> u32
        ensures { 0 < bound → result < bound }
    {
        self.0 = self.0.wrapping_add(0x9e37_79b9_7f4a_7c15);
        (mix(self.0) >> 32) as u32 % bound.max(1)
    }
}

/// Sebastiano Vigna's SplitMix64 step: unlike numbers for like ones.
fn mix(number: u64) -> u64 {
    let first = (number ^ (number >> 30)).wrapping_mul(0xbf58_476d_1ce4_e5b9);
    let second = (first ^ (first >> 27)).wrapping_mul(0x94d0_49bb_1331_11eb);
    second ^ (second >> 31)
}
