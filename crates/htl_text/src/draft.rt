//! Drafts: segments whose lines are being read.
ghost use Rattle.std.specs.Prelude.{◌≡◌, None, Some, MatchOption, MatchResult};
ghost use Rattle.htl_segment.specs.Building.{build_fault};
ghost use Rattle.htl_segment.specs.Content.{Fits};
ghost use Rattle.htl_text.specs.Encoded.{content_of, draft, draft_fault, IsSegmentOf};
ghost use Rattle.htl_text.specs.Steps.{overfull_fault, refused_of};

use crate::fault::{LineFault, TextFault};
use crate::item::Head;
use htl_event::{Event, Stack};
use htl_segment::{Fault, Segment, Version};
use std::alloc::{AllocError, Global};
use std::marker::Model;

/// A segment whose lines are being read. At its end it is tested whether the format can encode it.
#[derive(Drop)]
pub(crate) struct Draft {
    /// The line at which the segment begins.
    line: u64,
    head: Head,
    /// All events but the last one.
    events: Vec<Event>,
    /// The last event, which frames may follow.
    event: Option<Event>,
    /// The place of the first event that has more frames than a stack holds.
    overfull: Option<u64>,
}

impl Model for Draft {
    ghost use Rattle.htl_text.specs.Steps.{DraftLines, draft_lines};

    ghost Value = { DraftLines };

    ghost view = { λ d. draft_lines d.line d.head d.events.items d.event d.overfull };
}

impl Draft {
    ghost use Rattle.std.specs.Prelude.{◌≡◌, true, false, Ok, Err, OnOk, MatchOption, MatchResult};
    ghost use Rattle.htl_text.specs.Steps.{begun, settled, with_event, with_frame_of};
    ghost use Rattle.htl_text.specs.Steps.{closed_with, Reports, IsBuilt};

    /// A draft without events, which begins at this line.
    pub fn new(alloc: Global, line: u64, head: Head) -> Draft
        ensures { result ≡ begun line head }
    {
        Draft {
            line,
            head,
            events: Vec::new(alloc),
            event: None,
            overfull: None,
        }
    }

    /// Begins an event.
    pub fn add_event(&mut self, event: Event<()>) -> Result<(), AllocError>
        ensures { OnOk result (self.new ≡ with_event event self.old) }
    {
        self.settle()?;
        self.event = Some(event.with_stack(Stack::new()));
        Ok(())
    }

    /// Puts the last event after the others.
    fn settle(&mut self) -> Result<(), AllocError>
        ensures { OnOk result (self.new ≡ settled self.old) }
    {
        if let Some(event) = self.event.take() {
            self.events.push(event)?;
        }
        Ok(())
    }

    /// Adds a frame to the last event, or answers false where there is no event.
    pub fn add_frame(&mut self, address: u64) -> bool
        ensures { MatchOption self.old.event
            (result ≡ false)
            (λ event. (result ≡ true) × (self.new ≡ with_frame_of address self.old event)) }
    {
        let place = self.events.len() as u64;
        match &mut self.event {
            Some(event) => {
                if !event.stack.push(address) {
                    self.overfull = Some(self.overfull.unwrap_or(place));
                }
                true
            }
            None => false,
        }
    }

    /// Writes the bytes of the segment after `out`, if the format can encode it.
    pub fn encode(mut self, alloc: Global, out: &mut Vec<u8>) -> Result<(), TextFault>
        ensures { MatchResult result
            (λ _. closed_with out.old.items (Some self) ≡ Ok out.new.items)
            (λ fault. Reports (closed_with out.old.items (Some self)) fault) }
    {
        self.settle()?;
        let segment = self.build(alloc)?;
        let bytes = htl_segment::encode(alloc, &segment)?;
        out.extend_from_slice(bytes.as_slice())?;
        Ok(())
    }

    /// The segment of all events but the last one.
    fn build(self, alloc: Global) -> Result<Segment, TextFault>
        ensures { IsBuilt self result }
    {
        let line = self.line;
        let overfull = self.overfull;
        match build(alloc, self.head, self.events) {
            Ok(segment) => match overfull {
                Some(place) => Err(TextFault::Line(line, LineFault::Segment(Fault::Frames(place)))),
                None => Ok(segment),
            },
            Err(fault) => Err(refused(line, overfull, fault)),
        }
    }
}

/// The segment of a header and its events, or its first fault.
fn build(alloc: Global, head: Head, events: Vec<Event>) -> Result<Segment, Fault>
    ensures { MatchResult result
        (λ segment. (draft_fault (draft head events.items) ≡ None)
        × IsSegmentOf (draft head events.items) segment)
        (λ fault. MatchOption (draft_fault (draft head events.items))
        (fault ≡ Fault.NoMemory)
        (λ first. fault ≡ first)) }
{
    match Version::from_number(head.version) {
        Some(version) => build_as(alloc, version, head, events),
        None => Err(Fault::Version),
    }
}

#[tactic(auto, using(htl_segment::proofs::BuildingLaws::parts_pass))]
fn build_as(
    alloc: Global,
    version: Version,
    head: Head,
    events: Vec<Event>,
) -> Result<Segment, Fault>
    ensures { MatchResult result
        (λ segment. (build_fault (content_of version (draft head events.items)) ≡ None)
        × (segment ≡ content_of version (draft head events.items))
        × Fits segment)
        (λ fault. MatchOption (build_fault (content_of version (draft head events.items)))
        (fault ≡ Fault.NoMemory)
        (λ first. fault ≡ first)) }
{
    let built = Segment::build_as(
        alloc,
        version,
        head.trace_id,
        head.processors,
        head.processor,
        head.number,
        events,
    );
    match built {
        Ok(segment) => Ok(segment),
        Err((fault, _)) => Err(fault),
    }
}

/// The reported fault of a segment that begins at the line, and whose first event with too many frames
/// is at the place.
fn refused(line: u64, overfull: Option<u64>, fault: Fault) -> TextFault
    ensures { result ≡ refused_of line overfull fault }
{
    match (overfull, fault) {
        (Some(place), fault) => {
            TextFault::Line(line, LineFault::Segment(overfull_fault(place, fault)))
        }
        (None, Fault::NoMemory) => TextFault::NoMemory,
        (None, fault) => TextFault::Line(line, LineFault::Segment(fault)),
    }
}

/// The first fault of a segment whose event at this place has too many frames, made of the fault that
/// the segment has without these frames.
fn overfull_fault(place: u64, fault: Fault) -> Fault
    ensures { result ≡ overfull_fault place (Some fault) }
{
    match fault {
        Fault::NoMemory => Fault::Frames(place),
        Fault::Sequence(at) if at > place => Fault::Frames(place),
        Fault::Kind(at) if at > place => Fault::Frames(place),
        Fault::Frames(at) if at > place => Fault::Frames(place),
        Fault::Field(at) if at >= place => Fault::Frames(place),
        fault => fault,
    }
}
