//! Counts events in rows. Hints find the row that counts an event's slot and stack.

ghost use Rattle.std.specs.Prelude.{◌≡◌, List, ◌+◌, ◌<◌, ◌≤◌, ◌^◌, [], ◌∷◌, ◌++◌};
ghost use Rattle.std.specs.Prelude.{length, true, false, IfOk, OnOk};
ghost use Rattle.std.specs.List.{flat_map};
ghost use Rattle.htl_event.specs.Events.{Event};
ghost use Rattle.htl_tree.specs.Trees.{total_count};
ghost use Rattle.htl_tree.specs.Rows.{entries_of, AreRows, HaveTally, IsOneMore};

use crate::hints::RowHints;
use crate::node::{ZERO, add_one};
use crate::row::Row;
use htl_event::{EventList, NoMemory, SharedEvent, Sign, Slot, number_of_events};
use std::alloc::Allocator;

/// Rows that count events, and the number of these events.
#[derive(Drop)]
pub struct Counting<'a, A: Allocator> {
    pub rows: Vec<Row<'a>, A>,
    pub total: u64,
    hints: RowHints<A>,
}

impl<'a, A: Allocator> Counting<'a, A> {
    /// Counts the events of all lists.
    pub fn of<R: EventList>(alloc: &A, lists: &'a [R]) -> Result<Self, NoMemory>
    where
        A: Clone,
        requires { length (flat_map R.events_of lists.now) < 2 ^ 64 }
        ensures rows { IfOk result (λ counting. AreRows counting.rows.items counting.total) }
        ensures tally { IfOk result (λ counting.
            HaveTally counting.rows.items (flat_map R.events_of lists.now)) }
        ensures total { IfOk result (λ counting.
            counting.total ≤ length (flat_map R.events_of lists.now)) }
    {
        let mut counting = Counting::new(alloc, number_of_events(lists).unwrap_or(0))?;
        for list in lists {
            counting.count_all(list.events())?;
        }
        Ok(counting)
    }

    /// No row yet, and hints for this many events.
    fn new(alloc: &A, events: usize) -> Result<Self, NoMemory>
    where
        A: Clone,
        ensures rows { IfOk result (λ counting. AreRows counting.rows.items counting.total) }
        ensures none { IfOk result (λ counting. HaveTally counting.rows.items []) }
        ensures total { IfOk result (λ counting. counting.total ≡ 0) }
    {
        let hints = RowHints::new(alloc.clone()?, events)?;
        Ok(Counting {
            rows: Vec::new(alloc.clone()?),
            total: 0,
            hints,
        })
    }

    /// Counts these events.
    fn count_all(&mut self, events: &'a [SharedEvent]) -> Result<(), NoMemory>
        requires rows { AreRows self.old.rows.items self.old.total }
        requires room { self.old.total + length events.now < 2 ^ 64 }
        ensures rows { OnOk result (AreRows self.new.rows.items self.new.total) }
        ensures tally { OnOk result ((before : List Event) → HaveTally self.old.rows.items before
            → HaveTally self.new.rows.items (before ++ events.now)) }
        ensures total { OnOk result (self.new.total ≤ self.old.total + length events.now) }
    {
        for (index, event) in events.iter().enumerate() {
            let place = self.hints.likely_row(&self.rows, events, index);
            self.count(event, place)?;
        }
        Ok(())
    }

    /// The rows, and the number of events that they count.
    pub fn into_rows(self) -> (Vec<Row<'a>, A>, u64)
        ensures rows { result.0 ≡ self.entry.rows }
        ensures total { result.1 ≡ self.entry.total }
    {
        (self.rows, self.total)
    }

    /// Counts one more event, whose row is likely to be at this place. An event without a slot changes
    /// nothing.
    fn count(&mut self, event: &'a SharedEvent, place: usize) -> Result<(), NoMemory>
        requires rows { AreRows self.old.rows.items self.old.total }
        requires room { self.old.total + 1 < 2 ^ 64 }
        ensures rows { OnOk result (AreRows self.new.rows.items self.new.total) }
        ensures tally { OnOk result ((before : List Event) → HaveTally self.old.rows.items before
            → HaveTally self.new.rows.items (before ++ event.now ∷ [])) }
        ensures total { OnOk result (self.new.total ≤ self.old.total + 1) }
    {
        match event.slot() {
            None => Ok(()),
            Some((slot, sign)) => {
                let fingerprint = event.stack.fingerprint();
                let stack = event.stack.frames();
                count_in_rows(
                    &mut self.rows,
                    &mut self.hints,
                    place,
                    fingerprint,
                    stack,
                    slot,
                    sign,
                )?;
                self.total += 1;
                Ok(())
            }
        }
    }
}

/// Counts the slot with the stack once more: in the row at this place, where it counts these two, or
/// else in a new row.
fn count_in_rows<'a, A: Allocator>(
    rows: &mut Vec<Row<'a>, A>,
    hints: &mut RowHints<A>,
    place: usize,
    fingerprint: u64,
    stack: &'a [u64],
    slot: Slot,
    sign: Sign,
) -> Result<(), NoMemory>
    requires { total_count (entries_of rows.old.items) + 1 < 2 ^ 64 }
    ensures { OnOk result (IsOneMore stack.now slot sign rows.old.items rows.new.items) }
{
    if count_in_row(rows, place, fingerprint, stack, slot, sign) {
        return Ok(());
    }
    let row = Row {
        fingerprint,
        stack,
        slot,
        count: add_one(ZERO, sign),
    };
    let end = rows.len();
    rows.push(row)?;
    hints.put(hints.cell(fingerprint, slot), end);
    Ok(())
}

/// Counts once more in the row at this place, if that counts this slot with this stack.
fn count_in_row(
    rows: &mut [Row<'_>],
    place: usize,
    fingerprint: u64,
    stack: &[u64],
    slot: Slot,
    sign: Sign,
) -> bool
    requires { total_count (entries_of rows.old) + 1 < 2 ^ 64 }
    ensures counted { result ≡ true → IsOneMore stack.now slot sign rows.old rows.new }
    ensures kept { result ≡ false → rows.new ≡ rows.old }
{
    if place >= rows.len() || !counts(&rows[place], fingerprint, stack, slot) {
        return false;
    }
    let count = add_one(rows[place].count, sign);
    rows[place].count = count;
    true
}

/// Whether the row counts this slot with this stack.
fn counts(row: &Row<'_>, fingerprint: u64, stack: &[u64], slot: Slot) -> bool
    ensures stack { result ≡ true → row.now.stack.now ≡ stack.now }
    ensures slot { result ≡ true → row.now.slot ≡ slot }
{
    row.fingerprint == fingerprint && row.slot == slot && row.stack == stack
}
