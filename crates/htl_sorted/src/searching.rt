//! The search for a key in a list in order: where it is, or where it would go.

ghost use Rattle.std.specs.Prelude.{◌≡◌, IfOk, IfErr};
ghost use Rattle.std.specs.declared.cmp.Ordering.TheVariants.{Equal};
ghost use Rattle.htl_sorted.specs.Entries.{IsSorted, IsPlace, IsGap, entries};

use std::cmp::Ordering;

/// Rows that have a key each.
pub trait Keyed {
    type Row;

    type Key: Ord + Copy;
    /// The rest of a row beside its key. Only contracts name it.
    type Value;

    ghost key_of: { Self.Row → Self.Key };

    ghost value_of: { Self.Row → Self.Value };

    fn key(row: &Self::Row) -> Self::Key
        ensures { result ≡ key_of row.now };

    /// Keys that tie are equal.
    ghost proper: { (x y : Self.Key) → Self.Key.cmp x y ≡ Equal → x ≡ y };
}

/// The place of the key's row, or else the place where such a row would go. A key at or above the
/// last one needs no search, so rows that come in order are added fast.
pub fn search<L: Keyed>(rows: &[L::Row], key: L::Key) -> Result<usize, usize>
    requires { IsSorted L.Key.cmp (entries L.key_of L.value_of rows.now) }
    ensures found { IfOk result (IsPlace L.Key.cmp (entries L.key_of L.value_of rows.now) key) }
    ensures absent { IfErr result (IsGap L.Key.cmp (entries L.key_of L.value_of rows.now) key) }
{
    let Some(last) = rows.last() else {
        return Err(0);
    };
    match L::key(last).cmp(&key) {
        Ordering::Less => Err(rows.len()),
        Ordering::Equal => Ok(rows.len() - 1),
        Ordering::Greater => by_halves::<L>(rows, key),
    }
}

fn by_halves<L: Keyed>(rows: &[L::Row], key: L::Key) -> Result<usize, usize>
    requires { IsSorted L.Key.cmp (entries L.key_of L.value_of rows.now) }
    ensures found { IfOk result (IsPlace L.Key.cmp (entries L.key_of L.value_of rows.now) key) }
    ensures absent { IfErr result (IsGap L.Key.cmp (entries L.key_of L.value_of rows.now) key) }
{
    rows.binary_search_by_key(&key, |row| L::key(row))
}
