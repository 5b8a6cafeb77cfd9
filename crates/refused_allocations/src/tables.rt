//! Calls on the tables of latest events, snapshot marks and process exits.

use allocation_trials::{Equal, Refusal, Trials, answered, both};
use htl_event::SharedEvent;
use htl_samples::{SMALL, shared_events};
use htl_segment::Segment;
use htl_tables::{EventKind, Greatest, Latest, ProcessExits, Snapshots};
use std::alloc::Global;

const PROCESS: u32 = 4;

type Handles = Latest<Global>;

type Moments<K> = Greatest<K, Global>;

/// A table, and events that aren't noted in it yet.
type Noting<T> = (T, Equal<Vec<SharedEvent>>);

pub fn try_all(trials: &mut Trials<'_, HostRuntime>) {
    try_latest(trials);
    try_marks(trials);
    try_exits(trials);
}

fn try_latest(trials: &mut Trials<'_, HostRuntime>) {
    trials.reads("Latest::of", segments, latest_of);
    trials.reads("Latest::of_process", segments, latest_of_process);
    trials.changes("Latest::note", noting_handles, note_handle);
    trials.reads("Latest::join", two_latest, join_handles);
    trials.reads("Latest::join_process", two_latest, join_process);
    trials.reads("Latest::prepare", two_latest, join_in_place);
    trials.reads("Latest::copy", latest, copy_handles);
}

fn try_marks(trials: &mut Trials<'_, HostRuntime>) {
    trials.reads("Marks::of", segments, moments_of::<Snapshots>);
    trials.changes("Marks::note", noting_moments::<Snapshots>, note_moment);
    trials.reads("Marks::join", two_moments::<Snapshots>, join_moments);
    trials.reads("Marks::copy", moments::<Snapshots>, copy_moments);
}

fn try_exits(trials: &mut Trials<'_, HostRuntime>) {
    trials.reads("Exits::of", segments, moments_of::<ProcessExits>);
    trials.changes("Exits::note", noting_moments::<ProcessExits>, note_moment);
    trials.reads("Exits::join", two_moments::<ProcessExits>, join_moments);
    trials.reads("Exits::copy", moments::<ProcessExits>, copy_moments);
}

fn segments(alloc: Global) -> Result<Vec<Segment>, Refusal> {
    answered(SMALL.segments(alloc))
}

fn first_segments(alloc: Global) -> Result<Vec<Segment>, Refusal> {
    let mut segments = segments(alloc)?;
    segments.truncate(1);
    Ok(segments)
}

/// An event that opens a handle, a snapshot and an exit, of a process with none of these.
fn new_events(alloc: Global) -> Result<Equal<Vec<SharedEvent>>, Refusal> {
    let lines = "O 997 0x44 process=400 [0x10 0x20], S 998 process=400, exit 999 process=400";
    Equal::of(shared_events(alloc, lines))
}

fn latest_of(alloc: Global, segments: &Vec<Segment>) -> Result<Handles, Refusal> {
    answered(Latest::of(alloc, segments))
}

fn latest_of_process(alloc: Global, segments: &Vec<Segment>) -> Result<Handles, Refusal> {
    answered(Latest::of_process(alloc, segments, PROCESS))
}

/// The marks or the exits of the segments.
fn moments_of<K: EventKind>(alloc: Global, segments: &Vec<Segment>) -> Result<Moments<K>, Refusal> {
    answered(Greatest::of(alloc, segments))
}

fn latest(alloc: Global) -> Result<Handles, Refusal> {
    latest_of(alloc, &segments(alloc)?)
}

fn moments<K: EventKind>(alloc: Global) -> Result<Moments<K>, Refusal> {
    moments_of(alloc, &segments(alloc)?)
}

fn two_latest(alloc: Global) -> Result<(Handles, Handles), Refusal> {
    both(latest_of(alloc, &first_segments(alloc)?), latest(alloc))
}

fn two_moments<K: EventKind>(alloc: Global) -> Result<(Moments<K>, Moments<K>), Refusal> {
    both(moments_of(alloc, &first_segments(alloc)?), moments(alloc))
}

/// A table with no room for one more: a copy of another one.
fn noting_handles(alloc: Global) -> Result<Noting<Handles>, Refusal> {
    both(latest(alloc)?.copy(), new_events(alloc))
}

fn noting_moments<K: EventKind>(alloc: Global) -> Result<Noting<Moments<K>>, Refusal> {
    both(moments(alloc)?.copy(), new_events(alloc))
}

fn note_handle(
    _alloc: Global,
    (table, events): &mut Noting<Handles>,
) -> Result<Equal<()>, Refusal> {
    for event in &events.0 {
        table.note(event)?;
    }
    Ok(Equal(()))
}

fn note_moment<K: EventKind>(
    _alloc: Global,
    (table, events): &mut Noting<Moments<K>>,
) -> Result<Equal<()>, Refusal> {
    for event in &events.0 {
        table.note(event)?;
    }
    Ok(Equal(()))
}

fn join_handles(_alloc: Global, (one, two): &(Handles, Handles)) -> Result<Handles, Refusal> {
    answered(one.join(two))
}

/// Joins a copy of the first table.
fn join_process(_alloc: Global, (one, two): &(Handles, Handles)) -> Result<Handles, Refusal> {
    answered(one.copy()?.join_process(two, PROCESS))
}

/// Joins copies of the tables, in the memory of the first copy.
fn join_in_place(_alloc: Global, (one, two): &(Handles, Handles)) -> Result<Handles, Refusal> {
    match one.copy()?.prepare(two.copy()?) {
        Ok(joining) => Ok(joining.join()),
        Err(_) => Err(Refusal::Memory),
    }
}

fn join_moments<K: EventKind>(
    _alloc: Global,
    (one, two): &(Moments<K>, Moments<K>),
) -> Result<Moments<K>, Refusal> {
    answered(one.join(two))
}

fn copy_handles(_alloc: Global, table: &Handles) -> Result<Handles, Refusal> {
    answered(table.copy())
}

fn copy_moments<K: EventKind>(_alloc: Global, table: &Moments<K>) -> Result<Moments<K>, Refusal> {
    answered(table.copy())
}
