//! Laws of tables. Each function's contract is the law. Two of them make the table that they are
//! about, and the others do nothing when they run.

ghost use Rattle.std.specs.Prelude.{ℕ, List, IfOk, Contains, flat_map};
ghost use Rattle.htl_event.specs.Events.{Event};
ghost use Rattle.htl_event.specs.Handles.{IsMark, IsLastExit};
ghost use Rattle.htl_tables.specs.Greatest.{sequence_at};
ghost use Rattle.htl_tables.specs.Laws.{KeepsLatest, KeepsGreatest};

use crate::greatest::{Exits, Marks};
use htl_event::{EventList, NoMemory};
use std::alloc::Allocator;

/// `Latest::note` turns the latest events of a list into those of the list with the noted event.
pub fn noting_keeps_the_latest()
    ensures { (events : List Event) (e : Event) → KeepsLatest events e }
{}

/// `Greatest::note` turns the greatest sequences of a list into those of the list with the noted
/// event.
pub fn noting_keeps_the_greatest()
    ensures { (events : List Event) (e : Event) → KeepsGreatest events e }
{}

/// `Marks::of` gives the snapshot marks of the lists' events.
pub fn marks_are_snapshot_marks<A: Allocator + Clone, R: EventList>(
    alloc: A,
    lists: &[R],
) -> Result<Marks<A>, NoMemory>
    ensures { IfOk result (λ marks. (process : ℕ)
        → IsMark (Contains (flat_map R.events_of lists.now)) process (sequence_at marks process)) }
{
    Marks::of(alloc, lists)
}

/// `Exits::of` gives the last exits among the lists' events.
pub fn exits_are_last_exits<A: Allocator + Clone, R: EventList>(
    alloc: A,
    lists: &[R],
) -> Result<Exits<A>, NoMemory>
    ensures { IfOk result (λ exits. (process : ℕ)
        → IsLastExit (Contains (flat_map R.events_of lists.now)) process
        (sequence_at exits process)) }
{
    Exits::of(alloc, lists)
}
