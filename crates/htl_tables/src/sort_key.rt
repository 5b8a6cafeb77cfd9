//! Sort keys: small keys of events, which are sorted in place of the events to find the latest event
//! of each handle.

ghost use Rattle.std.specs.Prelude.{◌≡◌, ◌≤◌, length, drop, true, IfOk};
ghost use Rattle.htl_event.specs.Handles.{opens_or_closes};
ghost use Rattle.htl_tables.specs.declared.sort_key.SortKey.{SortKey};
ghost use Rattle.htl_tables.specs.OfProcess.{touches};
ghost use Rattle.htl_tables.specs.SortKeys.{AreKeysIn, AreEventsOfKeys};

use htl_event::{EventList, NoMemory, SharedEvent, base};
use std::alloc::{AllocError, Allocator};
use std::cmp::Reverse;

/// The sort key of an event that opens or closes a handle. Keys are in the order of their handles.
/// For one handle the latest event comes first, and for one sequence the first of the list.
#[derive(Clone, Copy, PartialEq, Eq, PartialOrd, Ord)]
pub(crate) struct SortKey {
    pub process: u32,
    pub base: u32,
    pub sequence: Reverse<u64>,
    /// The place of the event's list.
    pub list: u32,
    /// The event's place in its list.
    pub index: u32,
}

impl SortKey {
    ghost use Rattle.std.specs.Prelude.{◌≡◌, ◌↔◌, IsTrue};
    ghost use Rattle.htl_event.specs.Events.{Event};
    ghost use Rattle.htl_tables.specs.SortKeys.{StandsAt, sort_key_of};

    /// The key of an event that stands at `index` in the list at the place `list`.
    pub fn of(event: &SharedEvent, list: u32, index: u32) -> SortKey
        ensures { result ≡ sort_key_of event.now list index }
    {
        SortKey {
            process: event.process,
            base: base(event.handle),
            sequence: Reverse(event.sequence),
            list,
            index,
        }
    }

    /// Whether both keys are of one process and one base handle.
    pub fn is_of_handle_of(&self, other: &SortKey) -> bool
        ensures { IsTrue result
            ↔ ((self.now.process ≡ other.now.process) × (self.now.base ≡ other.now.base)) }
    {
        self.process == other.process && self.base == other.base
    }

    /// The event with this key.
    pub fn event<'a, R: EventList>(&self, lists: &'a [R]) -> &'a SharedEvent
        requires { (e : Event) × StandsAt R.events_of lists.now self.now.list self.now.index e }
        ensures { StandsAt R.events_of lists.now self.now.list self.now.index result.now }
    {
        &lists[self.list as usize].events()[self.index as usize]
    }
}

/// The place as a `u32`, which takes half the memory in a sort key. A greater place is refused as
/// out of memory: the events before it alone would take hundreds of gigabytes.
pub(crate) fn place_of(index: usize) -> Result<u32, AllocError>
    ensures { IfOk result (λ place. place ≡ index) }
{
    u32::try_from(index).map_err(|_| AllocError)
}

/// The number of handles that the keys have.
pub(crate) fn handles_in(keys: &[SortKey]) -> usize
    ensures { result ≤ length keys.now }
{
    keys.chunk_by(|one, next| one.is_of_handle_of(next)).count()
}

/// The events of the keys. All are read before one is used, so that the memory of many is fetched at
/// once.
pub(crate) fn events_of<'a, R: EventList, A: Allocator>(
    alloc: A,
    keys: &[SortKey],
    lists: &'a [R],
    chosen: Option<u32>,
) -> Result<Vec<&'a SharedEvent, A>, NoMemory>
    requires { AreKeysIn R.events_of lists.now (touches chosen) keys.now }
    ensures each { IfOk result (λ events.
        AreEventsOfKeys R.events_of lists.now keys.now events.items) }
    ensures all { IfOk result (λ events. length events.items ≡ length keys.now) }
{
    let mut events = Vec::with_capacity(alloc, keys.len())?;
    for key in keys {
        let event = key.event(lists);
        if may_open_or_close(event) {
            events.push(event)?;
        }
    }
    Ok(events)
}

/// Drops the first keys, and gives back the memory that the others don't need.
pub(crate) fn drop_first<A: Allocator>(keys: &mut Vec<SortKey, A>, count: usize)
    requires { count ≤ length keys.old.items }
    ensures { keys.new.items ≡ drop count keys.old.items }
{
    let _ = keys.drain(..count);
    keys.shrink_to_fit();
}

/// True of each event that opens or closes a handle, and of some others. Both ends of the event are
/// read, since both are needed next.
fn may_open_or_close(event: &SharedEvent) -> bool
    ensures { opens_or_closes event.now.kind ≡ true → result ≡ true }
{
    event.kind.opens_or_closes() | (event.tag != [0; 4])
}
