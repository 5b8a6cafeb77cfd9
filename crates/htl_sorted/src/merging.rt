//! The merge of two lists in order.

ghost use Rattle.std.specs.Prelude.{◌≡◌, ◌+◌, ◌++◌, Some, IfOk, OnOk};
ghost use Rattle.std.specs.FinMap.Entries.{find};
ghost use Rattle.htl_sorted.specs.Entries.{IsSorted, entries, joined_at};

use crate::searching::Keyed;
use std::alloc::{AllocError, Allocator};
use std::cmp::Ordering;

/// Rows that can be merged: two rows of one key become one row.
pub trait Joined: Keyed<Row: Drop> {
    ghost can_join: { Self.Value → Self.Value → Type 0 };

    ghost joined: { Self.Value → Self.Value → Self.Value };

    fn copy(row: &Self::Row) -> Result<Self::Row, AllocError>
        ensures { IfOk result (λ copy. copy ≡ row.now) };

    /// One row made of two that have the same key.
    fn join(left: &Self::Row, right: &Self::Row) -> Result<Self::Row, AllocError>
        requires same_key { Self.key_of left.now ≡ Self.key_of right.now }
        requires fits { can_join (Self.value_of left.now) (Self.value_of right.now) }
        ensures key { IfOk result (λ row. Self.key_of row ≡ Self.key_of left.now) }
        ensures value { IfOk result (λ row. Self.value_of row
            ≡ joined (Self.value_of left.now) (Self.value_of right.now)) };
}

/// The rows of both lists in the order of their keys, one row for each key.
pub fn merge<L: Joined, A: Allocator>(
    alloc: A,
    left: &[L::Row],
    right: &[L::Row],
) -> Result<Vec<L::Row, A>, AllocError>
    requires left { IsSorted L.Key.cmp (entries L.key_of L.value_of left.now) }
    requires right { IsSorted L.Key.cmp (entries L.key_of L.value_of right.now) }
    requires fits { (k : L.Key) (x y : L.Value)
        → find L.Key.cmp k (entries L.key_of L.value_of left.now) ≡ Some x
        → find L.Key.cmp k (entries L.key_of L.value_of right.now) ≡ Some y
        → L.can_join x y }
    ensures sorted { IfOk result (λ rows.
        IsSorted L.Key.cmp (entries L.key_of L.value_of rows.items)) }
    ensures values { IfOk result (λ rows. (k : L.Key)
        → find L.Key.cmp k (entries L.key_of L.value_of rows.items)
        ≡ joined_at L.joined (find L.Key.cmp k (entries L.key_of L.value_of left.now))
        (find L.Key.cmp k (entries L.key_of L.value_of right.now))) }
{
    // Two rows of one key leave room over, which is given back at the end. To count such keys first
    // would be one more walk over both lists.
    let most = left.len().saturating_add(right.len());
    let mut rows = Vec::with_capacity(alloc, room_for(most))?;
    let mut i = 0;
    let mut j = 0;
    while i < left.len() && j < right.len() {
        let (x, y) = (&left[i], &right[j]);
        match L::key(x).cmp(&L::key(y)) {
            Ordering::Less => {
                rows.push(L::copy(x)?)?;
                i += 1;
            }
            Ordering::Greater => {
                rows.push(L::copy(y)?)?;
                j += 1;
            }
            Ordering::Equal => {
                rows.push(L::join(x, y)?)?;
                i += 1;
                j += 1;
            }
        }
    }
    append::<L, A>(&mut rows, &left[i..])?;
    append::<L, A>(&mut rows, &right[j..])?;
    rows.shrink_to(room_for(rows.len()));
    Ok(rows)
}

/// The room for a list of this length: at most a quarter more. So a list that grows a little at a
/// time takes blocks of few sizes, and those that it gives back serve others.
fn room_for(len: usize) -> usize {
    let step = 1 << len.max(1).ilog2().saturating_sub(2);
    len.saturating_add(step - 1) / step * step
}

fn append<L: Joined, A: Allocator>(
    rows: &mut Vec<L::Row, A>,
    more: &[L::Row],
) -> Result<(), AllocError>
    ensures { OnOk result (rows.new.items ≡ rows.old.items ++ more.now) }
{
    for row in more {
        rows.push(L::copy(row)?)?;
    }
    Ok(())
}
