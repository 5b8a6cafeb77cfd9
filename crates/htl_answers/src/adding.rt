//! Adds up the rows of each key.

ghost use Rattle.std.specs.Prelude.{◌<◌, ◌^◌};
ghost use Rattle.std.specs.List.Sorted.{IsPermutation, IsSortedByKey};
ghost use Rattle.htl_event.specs.declared.slot.Count.{Count};
ghost use Rattle.htl_answers.specs.Rows.{total_in, AreSums, IsAdded};

use crate::counted_by::CountedBy;
use htl_event::Count;

/// Sorts the rows by their keys, and makes those of each key one row.
pub(crate) fn add_up<L: CountedBy>(rows: &mut Vec<(L::Key, Count)>)
    requires { total_in rows.old.items < 2 ^ 64 }
    ensures { AreSums L.Key.cmp rows.old.items rows.new.items }
{
    sort_by_key::<L>(rows);
    rows.dedup_by(|row, sum| is_added::<L>(row, sum));
}

fn sort_by_key<L: CountedBy>(rows: &mut Vec<(L::Key, Count)>)
    ensures moved { IsPermutation rows.old.items rows.new.items }
    ensures sorted { IsSortedByKey (λ (row : L.Key × Count). row.0) L.Key.cmp rows.new.items }
{
    rows.sort_unstable_by(|one, other| one.0.cmp(&other.0));
}

/// Adds the row to the sum, if that has its key.
fn is_added<L: CountedBy>(row: &(L::Key, Count), sum: &mut (L::Key, Count)) -> bool
    ensures { IsAdded L.Key.cmp row.now sum.old result sum.new }
{
    if row.0.cmp(&sum.0).is_ne() {
        return false;
    }
    sum.1 = Count {
        plus: sum.1.plus.saturating_add(row.1.plus),
        minus: sum.1.minus.saturating_add(row.1.minus),
    };
    true
}
