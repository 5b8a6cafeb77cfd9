//! Rows of lists: how a list of any kind of row is read and written.
ghost use Rattle.std.specs.Prelude.{◌≡◌, ◌≤◌, ◌++◌, [], drop, length, OnOk, Ok, MatchResult};
ghost use Rattle.std.specs.Option.{option_copied};
ghost use Rattle.htl_state.specs.Format.{list_bytes};
ghost use Rattle.std.specs.List.{flat_map};
ghost use Rattle.htl_state.specs.Reading.{IsRefusal, follows, next_in, rows_in, list_in};

use crate::fault::{Fault, Refused};
use crate::rows::Setting;
use htl_event::NoMemory;
use htl_segment::{push_u64, u64_at};
use std::alloc::Global;

/// A row that was read and the bytes after it, if there was one.
pub(crate) type RowRead<'a, R> = Result<Option<(R, &'a [u8])>, NoMemory>;

/// A row of a list, which comes after the row before it.
pub(crate) trait Row: Drop {
    ghost use Rattle.std.specs.Prelude.{◌≡◌, ◌++◌, Some, None, IfOk, OnOk, MatchOption};
    ghost use Rattle.std.specs.Prelude.{◌<◌};
    ghost use Rattle.htl_state.specs.Reading.{RowFormat};

    ghost format: { RowFormat Self };

    /// The fewest bytes that a row has.
    fn least() -> usize
        ensures value { result ≡ format.least }
        ensures some { 0 < result };

    /// The fault of a row that is refused.
    fn fault() -> Fault
        ensures { result ≡ format.fault };

    /// The row at the front of the bytes, and the bytes after it, if they begin with one that fits.
    fn read<'a>(alloc: Global, setting: Setting, bytes: &'a [u8]) -> RowRead<'a, Self>
        ensures { IfOk result (λ found. MatchOption found
            (format.read setting bytes.now ≡ None)
            (λ read. format.read setting bytes.now ≡ Some (read.0, read.1.now))) };

    /// Whether the row comes before another one.
    fn is_before(&self, next: &Self) -> bool
        ensures { result ≡ format.is_before self.now next.now };

    /// Writes the row behind the bytes.
    fn write(&self, alloc: Global, out: &mut Vec<u8>) -> Result<(), NoMemory>
        ensures { OnOk result (out.new.items ≡ out.old.items ++ format.bytes self.now) };
}

/// The list at the front of the bytes, and the bytes after it. Memory is asked for only where as
/// many bytes are left as its rows take at least.
pub(crate) fn read_list<'a, R: Row>(
    alloc: Global,
    setting: Setting,
    bytes: &'a [u8],
) -> Result<(Vec<R>, &'a [u8]), Refused>
    ensures { MatchResult result
        (λ read. list_in R.format setting bytes.now ≡ Ok (read.0.items, read.1.now))
        (λ refused. IsRefusal refused (list_in R.format setting bytes.now)) }
{
    if bytes.len() < 8 {
        return Err(Refused::at(Fault::List, bytes));
    }
    let count = u64_at(bytes, 0);
    let rest = behind(bytes, 8);
    if ((rest.len() / R::least()) as u64) < count {
        return Err(Refused::at(Fault::List, bytes));
    }
    read_rows::<R>(alloc, setting, count as usize, rest)
}

/// This many rows at the front of the bytes.
fn read_rows<'a, R: Row>(
    alloc: Global,
    setting: Setting,
    count: usize,
    bytes: &'a [u8],
) -> Result<(Vec<R>, &'a [u8]), Refused>
    ensures { MatchResult result
        (λ read. rows_in R.format setting count [] bytes.now ≡ Ok (read.0.items, read.1.now))
        (λ refused. IsRefusal refused (rows_in R.format setting count [] bytes.now)) }
{
    let mut rows = Vec::with_capacity(alloc, count)?;
    let mut rest = bytes;
    for _place in 0..count {
        let (row, after) = read_next::<R>(alloc, setting, rows.last(), rest)?;
        rows.push(row)?;
        rest = after;
    }
    Ok((rows, rest))
}

/// The row at the front of the bytes, which comes after the last one.
fn read_next<'a, R: Row>(
    alloc: Global,
    setting: Setting,
    last: Option<&R>,
    bytes: &'a [u8],
) -> Result<(R, &'a [u8]), Refused>
    ensures { MatchResult result
        (λ read. next_in R.format setting (option_copied last.entry) bytes.now
        ≡ Ok (read.0, read.1.now))
        (λ refused. IsRefusal refused
        (next_in R.format setting (option_copied last.entry) bytes.now)) }
{
    let Some((row, rest)) = R::read(alloc, setting, bytes)? else {
        return Err(Refused::at(R::fault(), bytes));
    };
    if !comes_after(last, &row) {
        return Err(Refused::at(R::fault(), bytes));
    }
    Ok((row, rest))
}

/// Whether the row comes after the last one, if there is one.
fn comes_after<R: Row>(last: Option<&R>, row: &R) -> bool
    ensures { result ≡ follows R.format.is_before (option_copied last.entry) row.now }
{
    match last {
        Some(last) => last.is_before(row),
        None => true,
    }
}

/// Writes the list behind the bytes.
#[tactic(auto, unfolding(crate::specs::Format::list_bytes))]
pub(crate) fn write_list<R: Row>(
    alloc: Global,
    out: &mut Vec<u8>,
    rows: &[R],
) -> Result<(), NoMemory>
    ensures { OnOk result (out.new.items ≡ out.old.items ++ list_bytes R.format.bytes rows.now) }
{
    push_u64(out, rows.len() as u64)?;
    write_rows(alloc, out, rows)?;
    Ok(())
}

fn write_rows<R: Row>(alloc: Global, out: &mut Vec<u8>, rows: &[R]) -> Result<(), NoMemory>
    ensures { OnOk result (out.new.items ≡ out.old.items ++ flat_map R.format.bytes rows.now) }
{
    for row in rows {
        row.write(alloc, out)?;
    }
    Ok(())
}

/// The bytes from a place on.
pub(crate) fn behind(bytes: &[u8], place: usize) -> &[u8]
    requires { place ≤ length bytes.now }
    ensures { result.now ≡ drop place bytes.now }
{
    &bytes[place..]
}
