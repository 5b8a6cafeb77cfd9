//! Rows that are made of the sums of slots, and added up for each process and each object.

ghost use Rattle.std.specs.Prelude.{◌≡◌, ◌<◌, ℕ, Option, Some, IfOk, IfSome, IfNone};
ghost use Rattle.std.specs.Prelude.{length, false, true};
ghost use Rattle.std.specs.List.{filter_map};
ghost use Rattle.std.specs.Ordering.{nat_cmp};
ghost use Rattle.std.specs.FinMap.Entries.{find};
ghost use Rattle.htl_event.specs.declared.slot.Slot.{Slot};
ghost use Rattle.htl_event.specs.declared.slot.Count.{Count};
ghost use Rattle.htl_sorted.specs.Entries.{IsSorted, joined_at};
ghost use Rattle.htl_summary.specs.Totals.{by_owner, one_at, AreAddedUp, CanAddUp};

use htl_event::{Count, NoMemory, Slot};
use htl_sorted::{Joined, Keyed, merge};
use std::alloc::{AllocError, Global};
use std::cmp::Ordering;
use std::marker::PhantomData;

/// A row of a process or of an object, its owner. Rows of one owner are added up.
pub(crate) trait OwnedRow: Copy + Drop {
    ghost owner_of: { Self → ℕ };

    ghost can_join: { Self → Self → Type 0 };

    ghost joined: { Self → Self → Self };

    ghost row_of_sum: { Slot → Count → Option Self };

    fn owner(&self) -> u64
        ensures { result ≡ owner_of self.now };

    /// One row made of two of the same owner.
    fn plus(&self, other: &Self) -> Self
        requires { can_join self.now other.now }
        ensures owner { owner_of result ≡ owner_of self.now }
        ensures value { result ≡ joined self.now other.now };

    /// The row of a slot that came this often, if the slot has one.
    fn from_sum(slot: Slot, count: Count) -> Option<Self>
        ensures { result ≡ row_of_sum slot count };
}

/// The rows of all owners, by owner, from the sums of slots. Where one pass can't make them, the rows
/// of both halves of the sums are merged.
pub(crate) fn rows_by_owner<R: OwnedRow>(
    alloc: Global,
    sums: &[(Slot, Count)],
) -> Result<Vec<R>, NoMemory>
    requires associative { (x y z : R) → R.joined (R.joined x y) z ≡ R.joined x (R.joined y z) }
    requires fits { CanAddUp R.owner_of R.joined R.can_join
        (filter_map (λ (sum : Slot × Count). R.row_of_sum sum.0 sum.1) sums.now) }
    ensures { IfOk result (λ rows. AreAddedUp R.owner_of R.joined
        (filter_map (λ (sum : Slot × Count). R.row_of_sum sum.0 sum.1) sums.now) rows.items) }
{
    if let Some(rows) = rows_in_order::<R>(alloc, sums)? {
        return Ok(rows);
    }
    let (front, back) = sums.split_at(sums.len() / 2);
    let left = rows_by_owner::<R>(alloc, front)?;
    let right = rows_by_owner::<R>(alloc, back)?;
    let rows = merge::<ByOwner<R>, Global>(alloc, &left, &right)?;
    Ok(rows)
}

/// The same in one pass, or none where an owner is less than the one before. Sums in the order of
/// slots have their owners in order for long stretches.
fn rows_in_order<R: OwnedRow>(
    alloc: Global,
    sums: &[(Slot, Count)],
) -> Result<Option<Vec<R>>, NoMemory>
    requires associative { (x y z : R) → R.joined (R.joined x y) z ≡ R.joined x (R.joined y z) }
    requires fits { CanAddUp R.owner_of R.joined R.can_join
        (filter_map (λ (sum : Slot × Count). R.row_of_sum sum.0 sum.1) sums.now) }
    ensures some { IfOk result (λ made. IfSome made (λ rows. AreAddedUp R.owner_of R.joined
        (filter_map (λ (sum : Slot × Count). R.row_of_sum sum.0 sum.1) sums.now) rows.items)) }
    ensures none { IfOk result (λ made. IfNone made (1 < length sums.now)) }
{
    let mut rows = Vec::new(alloc);
    for (slot, count) in sums {
        if let Some(row) = R::from_sum(*slot, *count) {
            if !add_row(&mut rows, row)? {
                return Ok(None);
            }
        }
    }
    Ok(Some(rows))
}

/// Joins a row to the last one, if that has its owner, or puts it after one of a lesser owner. Where
/// the last row has a greater owner, it answers false.
fn add_row<R: OwnedRow>(rows: &mut Vec<R>, row: R) -> Result<bool, NoMemory>
    requires sorted { IsSorted nat_cmp (by_owner R.owner_of rows.old.items) }
    requires fits { (x : R)
        → find nat_cmp (R.owner_of row) (by_owner R.owner_of rows.old.items) ≡ Some x
        → R.can_join x row }
    ensures sorted { IfOk result (λ is_added. is_added ≡ true
        → IsSorted nat_cmp (by_owner R.owner_of rows.new.items)) }
    ensures values { IfOk result (λ is_added. is_added ≡ true → (owner : ℕ)
        → find nat_cmp owner (by_owner R.owner_of rows.new.items)
        ≡ joined_at R.joined (find nat_cmp owner (by_owner R.owner_of rows.old.items))
        (one_at R.owner_of owner row)) }
    ensures some { IfOk result (λ is_added. is_added ≡ false → 0 < length rows.old.items) }
{
    let Some(last) = rows.last() else {
        rows.push(row)?;
        return Ok(true);
    };
    match last.owner().cmp(&row.owner()) {
        Ordering::Less => rows.push(row)?,
        Ordering::Equal => {
            let sum = last.plus(&row);
            let place = rows.len() - 1;
            rows[place] = sum;
        }
        Ordering::Greater => return Ok(false),
    }
    Ok(true)
}

/// Rows by their owners.
struct ByOwner<R>(PhantomData<R>);

impl<R: OwnedRow> Keyed for ByOwner<R> {
    ghost use Rattle.std.specs.FinMap.{nat_cmp-IsAntisymmetric};

    type Row = R;

    type Key = u64;

    type Value = R;

    ghost key_of = { R.owner_of };

    ghost value_of = { λ row. row };

    ghost proper = { nat_cmp-IsAntisymmetric };

    fn key(row: &R) -> u64 {
        row.owner()
    }
}

impl<R: OwnedRow> Joined for ByOwner<R> {
    ghost can_join = { R.can_join };

    ghost joined = { R.joined };

    fn copy(row: &R) -> Result<R, AllocError> {
        Ok(*row)
    }

    fn join(left: &R, right: &R) -> Result<R, AllocError> {
        Ok(left.plus(right))
    }
}
