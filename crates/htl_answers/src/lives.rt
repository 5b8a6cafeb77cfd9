//! Lives of handles: when handles of a process were opened, and when they ceased to be open.
//!
//! A handle that was opened is open until the next open or close of its base handle, or until the
//! next exit of its process, whichever comes first.

ghost use Rattle.std.specs.Prelude.{◌≡◌, ◌++◌, [], ◌∷◌, ℕ, flat_map, IfOk, OnOk};
ghost use Rattle.std.specs.List.{filter_map};
ghost use Rattle.std.specs.List.Sorted.{IsNonDecreasing};
ghost use Rattle.htl_event.specs.Handles.{HaveOwnSequences};
ghost use Rattle.htl_event.specs.Moments.{events_until};
ghost use Rattle.htl_event.specs.Summaries.{HasOutstanding};
ghost use Rattle.htl_answers.specs.Lives.{changes_of, exits_of, start_of};
ghost use Rattle.htl_answers.specs.Lives.{next_of, earlier_of, first_after, end_of, ends_of};
ghost use Rattle.htl_answers.specs.Lives.{number_to, number_at, AreInOrder};

use crate::ordering::put_in_order;
use htl_event::{EventList, Kind, NoMemory, SharedEvent, base};
use std::alloc::Global;

/// The sequences at which handles of a process were opened, and those at which they ceased to be
/// open. Each list is in order.
#[derive(Drop)]
pub(crate) struct Lives {
    pub starts: Vec<u64>,
    pub ends: Vec<u64>,
}

/// An open or a close of a base handle. Changes are in the order of their handles, and those of one
/// handle in the order of their sequences.
#[derive(Clone, Copy, PartialEq, Eq, PartialOrd, Ord)]
struct Change {
    base: u32,
    sequence: u64,
    opens: bool,
}

/// The opens and closes of a process, and the sequences of its exits.
#[derive(Drop)]
struct Turns {
    changes: Vec<Change>,
    exits: Vec<u64>,
}

/// The lives of the handles of the process.
pub(crate) fn lives_of<E: EventList>(
    alloc: Global,
    lists: &[E],
    process: u32,
) -> Result<Lives, NoMemory>
    ensures ordered { IfOk result (λ lives. AreInOrder lives.starts.items lives.ends.items) }
    ensures number { IfOk result (λ lives. HaveOwnSequences (flat_map E.events_of lists.now)
        → (moment : ℕ)
        → HasOutstanding (events_until moment (flat_map E.events_of lists.now)) process
        (number_at lives.starts.items lives.ends.items moment)) }
{
    let mut turns = turns_of(alloc, lists, process)?;
    put_in_order(&mut turns.changes);
    turns.exits.sort_unstable();
    let mut starts = starts_of(alloc, &turns.changes)?;
    starts.sort_unstable();
    let mut ends = ends_of(alloc, &turns.changes, &turns.exits)?;
    ends.sort_unstable();
    Ok(Lives { starts, ends })
}

/// The number of handles that were open as of the moment: those opened up to it, less those that
/// had ceased to be open.
pub(crate) fn number_at(lives: &Lives, moment: u64) -> u64
    requires { AreInOrder lives.now.starts.items lives.now.ends.items }
    ensures { result ≡ number_at lives.now.starts.items lives.now.ends.items moment }
{
    let started = number_to(&lives.starts, moment);
    let ended = number_to(&lives.ends, moment);
    (started - ended) as u64
}

/// How many of the sequences come no later than the moment.
fn number_to(sequences: &[u64], moment: u64) -> usize
    requires { IsNonDecreasing sequences.now }
    ensures { result ≡ number_to sequences.now moment }
{
    sequences.partition_point(|sequence| *sequence <= moment)
}

/// What the events of the lists did with handles of the process.
fn turns_of<E: EventList>(alloc: Global, lists: &[E], process: u32) -> Result<Turns, NoMemory>
    ensures changes { IfOk result (λ turns.
        turns.changes.items ≡ changes_of process (flat_map E.events_of lists.now)) }
    ensures exits { IfOk result (λ turns.
        turns.exits.items ≡ exits_of process (flat_map E.events_of lists.now)) }
{
    let mut turns = Turns {
        changes: Vec::new(alloc),
        exits: Vec::new(alloc),
    };
    for list in lists {
        note_all(&mut turns, list.events(), process)?;
    }
    Ok(turns)
}

/// Notes what the events did with handles of the process.
fn note_all(turns: &mut Turns, events: &[SharedEvent], process: u32) -> Result<(), NoMemory>
    ensures changes { OnOk result (turns.new.changes.items
        ≡ turns.old.changes.items ++ changes_of process events.now) }
    ensures exits { OnOk result (turns.new.exits.items
        ≡ turns.old.exits.items ++ exits_of process events.now) }
{
    for event in events {
        note(turns, event, process)?;
    }
    Ok(())
}

/// Notes what the event did with handles of the process.
fn note(turns: &mut Turns, event: &SharedEvent, process: u32) -> Result<(), NoMemory>
    ensures changes { OnOk result (turns.new.changes.items
        ≡ turns.old.changes.items ++ changes_of process (event.now ∷ [])) }
    ensures exits { OnOk result (turns.new.exits.items
        ≡ turns.old.exits.items ++ exits_of process (event.now ∷ [])) }
{
    if event.process != process {
        return Ok(());
    }
    if event.kind.opens_or_closes() {
        turns.changes.push(Change {
            base: base(event.handle),
            sequence: event.sequence,
            opens: event.kind == Kind::Opened,
        })?;
    } else if event.kind == Kind::Exited {
        turns.exits.push(event.sequence)?;
    }
    Ok(())
}

/// When the handles were opened.
fn starts_of(alloc: Global, changes: &[Change]) -> Result<Vec<u64>, NoMemory>
    ensures { IfOk result (λ starts. starts.items ≡ filter_map start_of changes.now) }
{
    let mut starts = Vec::new(alloc);
    for change in changes {
        if let Some(start) = start_of(change) {
            starts.push(start)?;
        }
    }
    Ok(starts)
}

/// When a handle was opened, if the change did it. A handle that was opened at sequence 0 doesn't
/// count, since it has to be opened after the last exit, which is 0 where there is none.
fn start_of(change: &Change) -> Option<u64>
    ensures { result ≡ start_of change.now }
{
    if change.opens && change.sequence > 0 {
        Some(change.sequence)
    } else {
        None
    }
}

/// When the handles ceased to be open, of those that did. The changes are in order.
fn ends_of(alloc: Global, changes: &[Change], exits: &[u64]) -> Result<Vec<u64>, NoMemory>
    requires { IsNonDecreasing exits.now }
    ensures { IfOk result (λ ends. ends.items ≡ ends_of exits.now changes.now) }
{
    let mut ends = Vec::new(alloc);
    for index in 0..changes.len() {
        if let Some(end) = end_of(&changes[index], &changes[index + 1..], exits) {
            ends.push(end)?;
        }
    }
    Ok(ends)
}

/// When the handle that the change opened ceased to be open, if it did. The later changes are those
/// that come after it in order.
fn end_of(change: &Change, later: &[Change], exits: &[u64]) -> Option<u64>
    requires { IsNonDecreasing exits.now }
    ensures { result ≡ end_of exits.now change.now later.now }
{
    let start = start_of(change)?;
    earlier_of(next_of(change, later), first_after(exits, start))
}

/// When the same handle was opened or closed next.
fn next_of(change: &Change, later: &[Change]) -> Option<u64>
    ensures { result ≡ next_of change.now later.now }
{
    match later.first() {
        Some(next) if next.base == change.base => Some(next.sequence),
        _ => None,
    }
}

/// The first of the exits after the moment.
fn first_after(exits: &[u64], moment: u64) -> Option<u64>
    requires { IsNonDecreasing exits.now }
    ensures { result ≡ first_after exits.now moment }
{
    exits.get(number_to(exits, moment)).copied()
}

/// The earlier of two moments, of which each may be none.
fn earlier_of(one: Option<u64>, other: Option<u64>) -> Option<u64>
    ensures { result ≡ earlier_of one other }
{
    match (one, other) {
        (None, _) => other,
        (Some(_), None) => one,
        (Some(first), Some(second)) => Some(first.min(second)),
    }
}
