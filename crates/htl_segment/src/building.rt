//! Building: a segment made of its parts.
ghost use Rattle.std.specs.Prelude.{◌≡◌, ℕ, All, None, Some, IfOk, OnOk, MatchResult};
ghost use Rattle.std.specs.Arc.{arc_value};
ghost use Rattle.htl_event.specs.Ranges.{InRange};
ghost use Rattle.htl_segment.specs.Content.{content};
ghost use Rattle.htl_segment.specs.Building.{event_fault, events_fault, build_fault};

use crate::fault::Fault;
use crate::header::{MAX_EVENTS, MAX_NUMBER};
use crate::kinds::code_of;
use crate::record::fields_fit;
use crate::segment::Segment;
use crate::stack_cache::StackCache;
use crate::version::Version;
use htl_event::{Event, NoMemory, SharedEvent};
use std::alloc::Global;
use std::sync::Arc;

impl Segment {
    ghost use Rattle.htl_segment.specs.declared.version.Version.TheVariants.{V1, V2};
    ghost use Rattle.htl_segment.specs.Content.{content};
    ghost use Rattle.htl_segment.specs.Building.{Builds};

    /// A version 1 segment of these parts, or their first fault. The processors are tested first, then
    /// the processor, the number, and that there are at most 4,096 events. Then each event is tested:
    /// its sequence, its kind, its frames and its other fields. `NoMemory` comes last. Every refusal
    /// hands the events back.
    pub fn build(
        alloc: Global,
        trace_id: u64,
        processors: u16,
        processor: u16,
        number: u32,
        events: Vec<Event>,
    ) -> Result<Segment, (Fault, Vec<Event>)>
        ensures { Builds (content V1 trace_id processors processor number events.items)
            events result }
    {
        Segment::build_as(
            alloc,
            Version::V1,
            trace_id,
            processors,
            processor,
            number,
            events,
        )
    }

    /// A version 2 segment of these parts, or their first fault: in the same order, by the limits of
    /// that version. Every refusal hands the events back.
    pub fn build2(
        alloc: Global,
        trace_id: u64,
        processors: u16,
        processor: u16,
        number: u32,
        events: Vec<Event>,
    ) -> Result<Segment, (Fault, Vec<Event>)>
        ensures { Builds (content V2 trace_id processors processor number events.items)
            events result }
    {
        Segment::build_as(
            alloc,
            Version::V2,
            trace_id,
            processors,
            processor,
            number,
            events,
        )
    }

    /// A segment of this version, of these parts, or their first fault: as `build` and `build2`.
    pub fn build_as(
        alloc: Global,
        version: Version,
        trace_id: u64,
        processors: u16,
        processor: u16,
        number: u32,
        events: Vec<Event>,
    ) -> Result<Segment, (Fault, Vec<Event>)>
        ensures { Builds (content version trace_id processors processor number events.items)
            events result }
    {
        match check_parts(version, processors, processor, number, &events) {
            Ok(()) => match share(alloc, &events) {
                Ok(shared) => Ok(Segment::new(
                    version, trace_id, processors, processor, number, shared,
                )),
                Err(NoMemory) => Err((Fault::NoMemory, events)),
            },
            Err(fault) => Err((fault, events)),
        }
    }
}

/// The same events, with stacks that can be shared.
fn share(alloc: Global, events: &[Event]) -> Result<Arc<Vec<SharedEvent>>, NoMemory>
    ensures { IfOk result (λ shared. (arc_value shared).items ≡ events.now) }
{
    let mut cache = StackCache::new(alloc);
    let mut shared = Vec::with_capacity(alloc, events.len())?;
    for event in events {
        let stack = cache.of_addresses(alloc, event.stack.frames())?;
        shared.push(event.with_stack(stack))?;
    }
    Ok(Arc::new(alloc, shared)?)
}

/// Tests the parts of a segment, in the order of the faults.
#[tactic(auto, unfolding(crate::specs::Building::build_fault))]
fn check_parts(
    version: Version,
    processors: u16,
    processor: u16,
    number: u32,
    events: &[Event],
) -> Result<(), Fault>
    ensures fault { (trace_id : ℕ) →
        let parts = content version trace_id processors processor number events.now in
        MatchResult result
        (λ _. build_fault parts ≡ None)
        (λ fault. build_fault parts ≡ Some fault) }
    ensures in_range { OnOk result (All InRange events.now) }
{
    if processors == 0 || processors > version.limits().processors {
        return Err(Fault::Processors);
    }
    if processor >= processors {
        return Err(Fault::Processor);
    }
    if number > MAX_NUMBER {
        return Err(Fault::Number);
    }
    if events.len() > MAX_EVENTS as usize {
        return Err(Fault::Count);
    }
    check_events(version, events)
}

fn check_events(version: Version, events: &[Event]) -> Result<(), Fault>
    ensures fault { MatchResult result
        (λ _. events_fault version 0 0 events.now ≡ None)
        (λ fault. events_fault version 0 0 events.now ≡ Some fault) }
    ensures in_range { OnOk result (All InRange events.now) }
{
    let mut last = 0;
    for (place, event) in events.iter().enumerate() {
        check_event(version, place as u64, last, event)?;
        last = event.sequence;
    }
    Ok(())
}

#[tactic(auto, unfolding(crate::specs::Building::event_fault))]
fn check_event(version: Version, place: u64, last: u64, event: &Event) -> Result<(), Fault>
    ensures fault { MatchResult result
        (λ _. event_fault version place last event.now ≡ None)
        (λ fault. event_fault version place last event.now ≡ Some fault) }
    ensures in_range { InRange event.now }
{
    event.in_range();
    if event.sequence <= last {
        return Err(Fault::Sequence(place));
    }
    let limits = version.limits();
    if code_of(event.kind) > limits.kinds {
        return Err(Fault::Kind(place));
    }
    if event.stack.frames().len() > limits.frames as usize {
        return Err(Fault::Frames(place));
    }
    if !fields_fit(event.kind, event.handle, event.object, event.tag) {
        return Err(Fault::Field(place));
    }
    Ok(())
}
