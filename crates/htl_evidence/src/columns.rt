//! A byte of each event, by which the events of one process, object or handle are found: a question
//! looks at these bytes, and at little more than its own events.

ghost use Rattle.std.specs.Prelude.{◌≡◌, ◌++◌, ◌∷◌, [], List, false, filter, flat_map, IfOk, OnOk};
ghost use Rattle.std.specs.Prelude.{◌↔◌, IfSome, IsTrue};
ghost use Rattle.std.specs.Vec.Iter.{into_iter_items, into_iter_len};
ghost use Rattle.htl_event.specs.Events.{Event};
ghost use Rattle.htl_segment.specs.Content.{Content};
ghost use Rattle.htl_case.specs.Faults.{key_of};
ghost use Rattle.htl_evidence.specs.Columns.{AreAmong, AreColumnsOf, AreLeft, HaveColumns};
ghost use Rattle.htl_evidence.specs.Columns.{byte_of, bytes_for, is_counted, is_counted_own};

use crate::one::One;
use crate::owner::Owner;
use htl_event::{EventList, NoMemory, SharedEvent, base};
use htl_segment::Segment;
use std::alloc::Global;
use std::vec;

/// A byte for the process of each event of a list, one for its object, and one for its base handle.
#[derive(Drop)]
pub(crate) struct Columns {
    pub processes: Vec<u8>,
    pub objects: Vec<u8>,
    pub handles: Vec<u8>,
}

impl Columns {
    /// The columns of the events.
    fn of(alloc: Global, events: &[SharedEvent]) -> Result<Columns, NoMemory>
        ensures { IfOk result (AreColumnsOf events.now) }
    {
        let mut processes = Vec::with_capacity(alloc, events.len())?;
        let mut objects = Vec::with_capacity(alloc, events.len())?;
        let mut handles = Vec::with_capacity(alloc, events.len())?;
        for event in events {
            processes.push(byte_of(u64::from(event.process)))?;
            objects.push(byte_of(event.object))?;
            handles.push(byte_of(u64::from(base(event.handle))))?;
        }
        Ok(Columns {
            processes,
            objects,
            handles,
        })
    }

    /// The bytes in which the events of the process, object or handle are looked for.
    fn bytes_for(&self, owner: Owner) -> &[u8]
        ensures { (events : List Event) → AreColumnsOf events self.now
            → result.now ≡ bytes_for owner events }
    {
        match owner {
            Owner::Process(_) => &self.processes,
            Owner::Object(_) => &self.objects,
            Owner::Handle { .. } => &self.handles,
        }
    }

    /// Adds those of the events that count and are of the process, object or handle.
    pub fn push_own<'a>(
        &self,
        lists: &mut Vec<One<'a>>,
        events: &'a [SharedEvent],
        owner: Owner,
        until: Option<u64>,
    ) -> Result<(), NoMemory>
        requires { AreColumnsOf events.now self.now }
        ensures { OnOk result (flat_map ⟦<One<'a> as EventList>⟧.events_of lists.new.items
            ≡ flat_map ⟦<One<'a> as EventList>⟧.events_of lists.old.items
            ++ filter (is_counted_own owner until) events.now) }
    {
        let byte = byte_of(owner.number());
        for (place, candidate) in self.bytes_for(owner).iter().enumerate() {
            push_if_own(lists, &events[place], *candidate == byte, owner, until)?;
        }
        Ok(())
    }
}

/// Adds the event if it counts and is of the process, object or handle. Where it can't be, it isn't
/// looked at.
fn push_if_own<'a>(
    lists: &mut Vec<One<'a>>,
    event: &'a SharedEvent,
    can_be: bool,
    owner: Owner,
    until: Option<u64>,
) -> Result<(), NoMemory>
    requires { can_be ≡ false → is_counted_own owner until event.now ≡ false }
    ensures { OnOk result (flat_map ⟦<One<'a> as EventList>⟧.events_of lists.new.items
        ≡ flat_map ⟦<One<'a> as EventList>⟧.events_of lists.old.items
        ++ filter (is_counted_own owner until) (event.now ∷ [])) }
{
    if can_be && is_counted(until, event) && owner.has(event) {
        lists.push(One { event })?;
    }
    Ok(())
}

/// The columns of each segment.
pub(crate) fn columns_of(alloc: Global, segments: &[Segment]) -> Result<Vec<Columns>, NoMemory>
    ensures { IfOk result (λ all. HaveColumns segments.now all.items) }
{
    let mut all = Vec::with_capacity(alloc, segments.len())?;
    for segment in segments {
        all.push(Columns::of(alloc, segment.events())?)?;
    }
    Ok(all)
}

/// The columns of each segment. Those of earlier segments, which are among these, are taken over.
pub(crate) fn columns_after(
    alloc: Global,
    earlier: &[Segment],
    columns: Vec<Columns>,
    segments: &[Segment],
) -> Result<Vec<Columns>, NoMemory>
    requires have { HaveColumns earlier.now columns.items }
    requires among { AreAmong earlier.now segments.now }
    ensures { IfOk result (λ all. HaveColumns segments.now all.items) }
{
    let mut rest = Earlier {
        segments: earlier,
        columns: columns.into_iter(),
    };
    let mut all = Vec::with_capacity(alloc, segments.len())?;
    for segment in segments {
        let columns = match rest.take(segment) {
            Some(columns) => columns,
            None => Columns::of(alloc, segment.events())?,
        };
        all.push(columns)?;
    }
    Ok(all)
}

/// The earlier segments whose columns weren't taken over yet, and these columns.
#[derive(Drop)]
struct Earlier<'a> {
    segments: &'a [Segment],
    columns: vec::IntoIter<Columns>,
}

impl<'a> Earlier<'a> {
    /// Takes out the columns of the first of the earlier segments, if it is this one.
    fn take(&mut self, segment: &Segment) -> Option<Columns>
        requires { AreLeft self.old.segments.now (into_iter_items self.old.columns)
            (into_iter_len self.old.columns) }
        ensures left { AreLeft self.new.segments.now (into_iter_items self.new.columns)
            (into_iter_len self.new.columns) }
        ensures among { (later : List Content)
            → AreAmong self.old.segments.now (segment.now ∷ later)
            → AreAmong self.new.segments.now later }
        ensures value { IfSome result (λ columns. (later : List Content)
            → AreAmong self.old.segments.now (segment.now ∷ later)
            → AreColumnsOf segment.now.events columns) }
    {
        let (first, rest) = self.segments.split_first()?;
        if !have_one_key(first, segment) {
            return None;
        }
        let columns = self.columns.next()?;
        self.segments = rest;
        Some(columns)
    }
}

fn have_one_key(one: &Segment, other: &Segment) -> bool
    ensures { IsTrue result ↔ (key_of one.now ≡ key_of other.now) }
{
    (one.processor(), one.number()) == (other.processor(), other.number())
}

/// The byte of a process, an object or a base handle. Numbers at even distances have different bytes,
/// as 251 is a prime.
fn byte_of(number: u64) -> u8
    ensures { result ≡ byte_of number }
{
    (number % 251) as u8
}

/// Whether the event counts as of the moment, or as each does where none is given.
fn is_counted(until: Option<u64>, event: &SharedEvent) -> bool
    ensures { result ≡ is_counted until event.now }
{
    match until {
        Some(moment) => event.sequence <= moment,
        None => true,
    }
}
