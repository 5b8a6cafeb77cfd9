//! The rows of two tables become one in the older table's vector, from the last row on.

ghost use Rattle.std.specs.Prelude.{◌≡◌, ◌≤◌, ◌++◌, length, take, OnOk, OnErr};
ghost use Rattle.htl_sorted.specs.Entries.{IsSorted};
ghost use Rattle.htl_tables.specs.Keys.{key_cmp, keyed};
ghost use Rattle.htl_tables.specs.Placing.{missing};

use crate::by_handle::ByHandle;
use htl_event::SharedEvent;
use htl_sorted::Keyed;
use std::alloc::{AllocError, Allocator};
use std::cmp::Ordering;

/// The rows of two tables on their way to become one.
///
/// The older rows that haven't moved come first, and behind them are free places. The rows at the
/// end are in place: no other row will come between or behind them.
#[derive(Drop)]
pub(crate) struct Placing<A: Allocator> {
    rows: Vec<SharedEvent, A>,
    /// The number of older rows that haven't moved.
    older: usize,
    /// Where the rows that are in place begin.
    end: usize,
}

impl<A: Allocator> Placing<A> {
    ghost use Rattle.std.specs.Prelude.{◌≡◌, ◌≢◌, ℕ, ◌<◌, ◌≤◌, ◌++◌, [], ◌∷◌};
    ghost use Rattle.std.specs.Prelude.{List, Option, length, take};
    ghost use Rattle.std.specs.declared.cmp.Ordering.TheVariants.{Equal, Greater};
    ghost use Rattle.htl_event.specs.Events.{Event};
    ghost use Rattle.htl_tables.specs.Keys.{key_of};
    ghost use Rattle.htl_tables.specs.Placing.{compare_last, IsUnderWay};

    /// Nothing is in place yet: behind the older rows all places are free.
    pub fn new(rows: Vec<SharedEvent, A>, older: usize) -> Placing<A>
        ensures rows { result.rows ≡ rows }
        ensures older { result.older ≡ older }
        ensures end { result.end ≡ length rows.items }
    {
        let end = rows.len();
        Placing { rows, older, end }
    }

    /// Puts the older rows with a greater key in place.
    pub fn move_above(&mut self, key: (u32, u32))
        requires older { self.old.older ≤ self.old.end }
        requires end { self.old.end ≤ length self.old.rows.items }
        ensures kept { (target : ℕ → ℕ → Option Event) (left : List Event) (e : Event) → key_of e ≡ key
            → IsUnderWay target (left ++ e ∷ []) self.old.rows.items self.old.older self.old.end
            → IsUnderWay target (left ++ e ∷ []) self.new.rows.items self.new.older self.new.end }
        ensures none { compare_last (take self.new.older self.new.rows.items) key ≢ Greater }
        ensures older { self.new.older ≤ self.new.end }
        ensures end { self.new.end ≤ length self.new.rows.items }
    {
        while self.compare_last(key) == Ordering::Greater {
            self.older -= 1;
            self.end -= 1;
            self.rows.swap(self.older, self.end);
        }
    }

    /// Puts the event in place. No older row that hasn't moved may have a greater key. If the last
    /// of them has the same key, the later of both stays, or the older row where their sequences are
    /// equal.
    pub fn place(&mut self, event: SharedEvent)
        requires older { self.old.older ≤ self.old.end }
        requires end { self.old.end ≤ length self.old.rows.items }
        requires none_above { compare_last (take self.old.older self.old.rows.items) (key_of event)
            ≢ Greater }
        requires room { compare_last (take self.old.older self.old.rows.items) (key_of event) ≢ Equal
            → self.old.older < self.old.end }
        ensures { (target : ℕ → ℕ → Option Event) (left : List Event)
            → IsUnderWay target (left ++ event ∷ []) self.old.rows.items self.old.older self.old.end
            → IsUnderWay target left self.new.rows.items self.new.older self.new.end }
    {
        let compared = self.compare_last(ByHandle::key(&event));
        self.end -= 1;
        if compared == Ordering::Equal {
            self.older -= 1;
            self.rows.swap(self.older, self.end);
            if self.rows[self.end].sequence < event.sequence {
                self.rows[self.end] = event;
            }
        } else {
            self.rows[self.end] = event;
        }
    }

    /// How the key of the last older row that hasn't moved compares with this key. Where there is
    /// no such row, the answer is Less.
    fn compare_last(&self, key: (u32, u32)) -> Ordering
        requires { self.now.older ≤ length self.now.rows.items }
        ensures { result ≡ compare_last (take self.now.older self.now.rows.items) key }
    {
        if self.older == 0 {
            return Ordering::Less;
        }
        ByHandle::key(&self.rows[self.older - 1]).cmp(&key)
    }

    /// All rows, once none is left to be placed.
    pub fn into_rows(self) -> Vec<SharedEvent, A>
        ensures { result ≡ self.rows }
    {
        self.rows
    }
}

/// The number of newer rows for whose handles there is no older row, by one walk over both lists.
pub(crate) fn missing(older: &[SharedEvent], newer: &[SharedEvent]) -> usize
    requires older { IsSorted key_cmp (keyed older.now) }
    requires newer { IsSorted key_cmp (keyed newer.now) }
    ensures { result ≡ missing older.now newer.now }
{
    let mut older_left = older;
    let mut newer_left = newer;
    let mut count = 0;
    while let (Some((row, rows)), Some((event, events))) = (
        older_left.split_last(),
        newer_left.split_last(),
    ) {
        match ByHandle::key(row).cmp(&ByHandle::key(event)) {
            Ordering::Greater => {
                older_left = rows;
            }
            Ordering::Equal => {
                older_left = rows;
                newer_left = events;
            }
            Ordering::Less => {
                newer_left = events;
                count += 1;
            }
        }
    }
    count + newer_left.len()
}

/// Puts copies of more rows behind those that are there. Where this is refused, some may be there
/// already, behind all rows that were there before.
pub(crate) fn append_copies<A: Allocator>(
    rows: &mut Vec<SharedEvent, A>,
    more: &[SharedEvent],
) -> Result<(), AllocError>
    ensures ok { OnOk result (rows.new.items ≡ rows.old.items ++ more.now) }
    ensures err { OnErr result (take (length rows.old.items) rows.new.items ≡ rows.old.items) }
{
    rows.reserve_exact(more.len())?;
    for row in more {
        rows.push(row.copy()?)?;
    }
    Ok(())
}
