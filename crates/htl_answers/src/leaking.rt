//! Leaks: the stacks that opened outstanding handles.

ghost use Rattle.std.specs.Prelude.{◌≡◌, List, Contains, filter, map, IfOk};
ghost use Rattle.htl_event.specs.Events.{Event};
ghost use Rattle.htl_event.specs.Handles.{HaveOwnSequences};
ghost use Rattle.htl_event.specs.Tallies.{IsLeaksSince, AreOpenSince};
ghost use Rattle.htl_answers.specs.Parts.{AreEventsOf};
ghost use Rattle.htl_answers.specs.Leaks.{opens_many, counted_first, stack_before_number};

use crate::counted_by::BySlotAndStack;
use crate::open::{diff, outstanding};
use crate::ordering::put_in_order;
use crate::part::Part;
use crate::slot_counts::counts_of_events;
use htl_event::{Count, NoMemory, SharedEvent, SharedStack, Slot};
use htl_tree::Slots;
use std::alloc::Global;
use std::cmp::Reverse;

/// The stacks that opened outstanding handles of the process, each with their number, the greatest
/// number first and then in stack order. Where a moment is given, only handles that were opened
/// after it count. Stacks with fewer than `at_least` of them are left out.
pub fn leaks<P: Part>(
    alloc: Global,
    parts: &[P],
    process: u32,
    since: Option<u64>,
    at_least: u64,
) -> Result<Vec<(SharedStack, u64)>, NoMemory>
    ensures { IfOk result (λ rows. (events : List Event)
        → AreEventsOf (map P.contents parts.now) events
        → HaveOwnSequences events
        → IsLeaksSince (Contains events) process since at_least rows.items) }
{
    let opens = open_since(alloc, parts, process, since)?;
    let slots = Slots::One(Slot::Handles { process });
    let counts = counts_of_events::<BySlotAndStack>(alloc, &opens, slots)?;
    let mut leaks = number_first(alloc, &counts, at_least)?;
    put_in_order(&mut leaks);
    stack_first(alloc, &leaks)
}

/// The outstanding handles of the process, or those of them that were opened after a moment, where
/// one is given.
fn open_since<P: Part>(
    alloc: Global,
    parts: &[P],
    process: u32,
    since: Option<u64>,
) -> Result<Vec<SharedEvent>, NoMemory>
    ensures { IfOk result (λ rows. (events : List Event)
        → AreEventsOf (map P.contents parts.now) events
        → HaveOwnSequences events
        → AreOpenSince (Contains events) process since rows.items) }
{
    match since {
        None => outstanding(alloc, parts, process),
        Some(moment) => diff(alloc, parts, process, moment),
    }
}

/// The rows with `at_least` opens or more. The number of opens comes first, reversed, so that a
/// sort puts the greatest first.
fn number_first(
    alloc: Global,
    counts: &[((Slot, SharedStack), Count)],
    at_least: u64,
) -> Result<Vec<(Reverse<u64>, SharedStack)>, NoMemory>
    ensures { IfOk result (λ rows.
        rows.items ≡ map counted_first (filter (opens_many at_least) counts.now)) }
{
    let mut rows = Vec::new(alloc);
    for ((_, stack), count) in counts {
        if count.plus >= at_least {
            rows.push((Reverse(count.plus), stack.copy()?))?;
        }
    }
    Ok(rows)
}

/// The rows with the stack first.
fn stack_first(
    alloc: Global,
    leaks: &[(Reverse<u64>, SharedStack)],
) -> Result<Vec<(SharedStack, u64)>, NoMemory>
    ensures { IfOk result (λ rows. rows.items ≡ map stack_before_number leaks.now) }
{
    let mut rows = Vec::with_capacity(alloc, leaks.len())?;
    for (number, stack) in leaks {
        rows.push((stack.copy()?, number.0))?;
    }
    Ok(rows)
}
