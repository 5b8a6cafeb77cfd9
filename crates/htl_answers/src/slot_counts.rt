//! Counts of the slots that are asked for, over all parts or over a list of events.

ghost use Rattle.std.specs.Prelude.{◌≡◌, ◌+◌, ◌≤◌, ◌<◌, ◌^◌, [], ◌∷◌, ◌++◌, List, length, map};
ghost use Rattle.std.specs.Prelude.{flat_map, true, false, IfOk, OnOk};
ghost use Rattle.htl_event.specs.Events.{Event};
ghost use Rattle.htl_event.specs.Members.{IsRising};
ghost use Rattle.htl_event.specs.Slots.{slot_of};
ghost use Rattle.htl_answers.specs.Parts.{AreEventsOf, size_of_all};
ghost use Rattle.htl_answers.specs.Rows.{count_of, total_in, rows_of, if_asked};
ghost use Rattle.htl_answers.specs.Rows.{ByKey, EachPositive, CountAlike, AreSums};
ghost use Rattle.htl_answers.specs.Counts.{one_count};

use crate::adding::add_up;
use crate::counted_by::CountedBy;
use crate::counts::{one, sum_of};
use crate::hints::RowHints;
use crate::part::Part;
use htl_event::{
    Count, EventList, NoMemory, SharedEvent, SharedStack, Sign, Slot, number_of_events,
};
use htl_tree::Slots;
use std::alloc::Global;

/// How often these slots came, over all parts, in the order of the keys. The trees of the parts list
/// what was folded, and the held events are counted one by one, so no tree is made.
pub(crate) fn counts_of_slots<L: CountedBy, P: Part>(
    alloc: Global,
    parts: &[P],
    slots: Slots,
) -> Result<Vec<(L::Key, Count)>, NoMemory>
    requires { size_of_all (map P.contents parts.now) < 2 ^ 64 }
    ensures rising { IfOk result (λ sums. IsRising (ByKey L.Key.cmp) sums.items) }
    ensures counts { IfOk result (λ sums. (events : List Event)
        → AreEventsOf (map P.contents parts.now) events → (k : L.Key)
        → count_of L.Key.cmp k sums.items ≡ count_of L.Key.cmp k (rows_of L.key_of slots events)) }
    ensures positive { IfOk result (λ sums. EachPositive sums.items) }
    ensures total { IfOk result (λ sums.
        total_in sums.items ≤ size_of_all (map P.contents parts.now)) }
{
    let mut rows = rows_of_parts::<L, P>(alloc, parts, slots)?;
    add_up::<L>(&mut rows);
    Ok(rows)
}

/// The rows of these slots, part by part. The events that a part holds are counted in as few rows as
/// hints find.
fn rows_of_parts<L: CountedBy, P: Part>(
    alloc: Global,
    parts: &[P],
    slots: Slots,
) -> Result<Vec<(L::Key, Count)>, NoMemory>
    requires { size_of_all (map P.contents parts.now) < 2 ^ 64 }
    ensures counts { IfOk result (λ rows. (events : List Event)
        → AreEventsOf (map P.contents parts.now) events → (k : L.Key)
        → count_of L.Key.cmp k rows.items ≡ count_of L.Key.cmp k (rows_of L.key_of slots events)) }
    ensures positive { IfOk result (λ rows. EachPositive rows.items) }
    ensures total { IfOk result (λ rows.
        total_in rows.items ≤ size_of_all (map P.contents parts.now)) }
{
    let mut rows = Vec::new(alloc);
    let mut hints = RowHints::new(alloc, number_held(parts))?;
    for part in parts {
        let mut folded = L::counts_in(alloc, part.tree(), slots)?;
        rows.append(&mut folded)?;
        count_held::<L, P::Held>(&mut rows, &mut hints, part.held(), slots)?;
    }
    Ok(rows)
}

/// About how many events the parts hold.
fn number_held<P: Part>(parts: &[P]) -> usize {
    let mut number = 0usize;
    for part in parts {
        number = number.saturating_add(number_of_events(part.held()).unwrap_or(usize::MAX));
    }
    number
}

/// How often these slots came among these events, in the order of the keys.
pub(crate) fn counts_of_events<L: CountedBy>(
    alloc: Global,
    events: &[SharedEvent],
    slots: Slots,
) -> Result<Vec<(L::Key, Count)>, NoMemory>
    requires { length events.now < 2 ^ 64 }
    ensures { IfOk result (λ sums.
        AreSums L.Key.cmp (rows_of L.key_of slots events.now) sums.items) }
{
    let mut rows = Vec::new(alloc);
    let mut hints = RowHints::new(alloc, events.len())?;
    count_events::<L>(&mut rows, &mut hints, events, slots)?;
    add_up::<L>(&mut rows);
    Ok(rows)
}

/// Counts the events of these lists whose slots are asked for.
fn count_held<L: CountedBy, E: EventList>(
    rows: &mut Vec<(L::Key, Count)>,
    hints: &mut RowHints,
    lists: &[E],
    slots: Slots,
) -> Result<(), NoMemory>
    requires { total_in rows.old.items + length (flat_map E.events_of lists.now) < 2 ^ 64 }
    ensures { OnOk result (CountAlike L.Key.cmp
        (rows.old.items ++ rows_of L.key_of slots (flat_map E.events_of lists.now))
        rows.new.items) }
{
    for list in lists {
        count_events::<L>(rows, hints, list.events(), slots)?;
    }
    Ok(())
}

/// Counts the events whose slots are asked for.
fn count_events<L: CountedBy>(
    rows: &mut Vec<(L::Key, Count)>,
    hints: &mut RowHints,
    events: &[SharedEvent],
    slots: Slots,
) -> Result<(), NoMemory>
    requires { total_in rows.old.items + length events.now < 2 ^ 64 }
    ensures { OnOk result (CountAlike L.Key.cmp
        (rows.old.items ++ rows_of L.key_of slots events.now) rows.new.items) }
{
    for event in events {
        if let Some((slot, sign)) = if_asked(event, slots) {
            count::<L>(rows, hints, slot, &event.stack, sign)?;
        }
    }
    Ok(())
}

/// Counts the slot with the stack once more: in the row of its key, where a hint has one, or else in a
/// new row.
fn count<L: CountedBy>(
    rows: &mut Vec<(L::Key, Count)>,
    hints: &mut RowHints,
    slot: Slot,
    stack: &SharedStack,
    sign: Sign,
) -> Result<(), NoMemory>
    requires { total_in rows.old.items + 1 < 2 ^ 64 }
    ensures { OnOk result (CountAlike L.Key.cmp
        (rows.old.items ++ (L.key_of slot stack.now, one_count sign) ∷ []) rows.new.items) }
{
    let cell = hints.cell(L::hash(slot, stack));
    if count_in_row::<L>(rows, hints.place(cell), slot, stack, sign) {
        return Ok(());
    }
    hints.put(cell, rows.len());
    rows.push((L::key(slot, stack)?, one(sign)))?;
    Ok(())
}

/// Counts once more in the row at this place, if that has this key.
fn count_in_row<L: CountedBy>(
    rows: &mut [(L::Key, Count)],
    place: usize,
    slot: Slot,
    stack: &SharedStack,
    sign: Sign,
) -> bool
    requires { total_in rows.old + 1 < 2 ^ 64 }
    ensures counted { result ≡ true → CountAlike L.Key.cmp
        (rows.old ++ (L.key_of slot stack.now, one_count sign) ∷ []) rows.new }
    ensures kept { result ≡ false → rows.new ≡ rows.old }
{
    if place >= rows.len() || !L::is_key(&rows[place].0, slot, stack) {
        return false;
    }
    let sum = sum_of(rows[place].1, one(sign));
    rows[place].1 = sum;
    true
}

/// The slot and the sign of the event, if its slot is asked for.
fn if_asked(event: &SharedEvent, slots: Slots) -> Option<(Slot, Sign)>
    ensures { result ≡ if_asked slots (slot_of event.now) }
{
    let (slot, sign) = event.slot()?;
    if slots.contains(slot) {
        Some((slot, sign))
    } else {
        None
    }
}
