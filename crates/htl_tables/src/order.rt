//! Whether rows are in the order of their keys.

ghost use Rattle.std.specs.Prelude.{◌↔◌, IsTrue};
ghost use Rattle.htl_sorted.specs.Entries.{IsSorted, entries};

use htl_sorted::Keyed;
use std::cmp::Ordering;

/// Whether the key of each row is above that of the row before it.
pub(crate) fn are_in_order<L: Keyed>(rows: &[L::Row]) -> bool
    ensures { IsTrue result ↔ IsSorted L.Key.cmp (entries L.key_of L.value_of rows.now) }
{
    for place in 1..rows.len() {
        let before = L::key(&rows[place - 1]);
        if before.cmp(&L::key(&rows[place])) != Ordering::Less {
            return false;
        }
    }
    true
}
