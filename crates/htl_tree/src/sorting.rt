//! Brings rows of equal fingerprints together. The rows are put into buckets first, which takes one
//! step for each, and then the few rows of each bucket are sorted.

ghost use Rattle.std.specs.Prelude.{◌<◌, length};
ghost use Rattle.std.specs.List.Sorted.{IsPermutation};

use crate::row::Row;
use std::alloc::Allocator;
use std::cmp::Ordering;

/// The number of buckets. Of a million rows each bucket has few enough to be sorted in the
/// processor's nearest memory.
const BUCKETS: usize = 1024;

/// Sorts the rows by fingerprint, in some order of these, and then by slot.
pub fn sort_rows<A: Allocator>(rows: &mut Vec<Row<'_>, A>)
    ensures { IsPermutation rows.old.items rows.new.items }
{
    sort_slice(rows);
}

fn sort_slice(rows: &mut [Row<'_>])
    ensures { IsPermutation rows.old rows.new }
{
    let ends = ends_of_buckets(numbers_in_buckets(rows));
    put_in_buckets(rows, &ends);
    sort_buckets(rows, &ends);
}

/// The bucket of a row. Rows with one fingerprint have one bucket.
fn bucket_of(row: &Row<'_>) -> usize
    ensures { result < BUCKETS }
{
    (row.fingerprint.wrapping_mul(0xd6e8_feb8_6659_fd93) >> 54) as usize % BUCKETS
}

/// The number of rows that each bucket gets.
fn numbers_in_buckets(rows: &[Row<'_>]) -> [usize; BUCKETS] {
    let mut numbers = [0usize; BUCKETS];
    for row in rows {
        let bucket = bucket_of(row);
        numbers[bucket] = numbers[bucket].wrapping_add(1);
    }
    numbers
}

/// The end of each bucket, given the numbers of their rows.
fn ends_of_buckets(numbers: [usize; BUCKETS]) -> [usize; BUCKETS] {
    let mut ends = numbers;
    for bucket in 1..BUCKETS {
        ends[bucket] = ends[bucket].wrapping_add(ends[bucket - 1]);
    }
    ends
}

/// The start of each bucket.
fn starts_of_buckets(ends: &[usize; BUCKETS]) -> [usize; BUCKETS] {
    let mut starts = [0usize; BUCKETS];
    for bucket in 0..BUCKETS {
        starts[bucket] = start_of(ends, bucket);
    }
    starts
}

/// The start of a bucket: the end of the one before it.
fn start_of(ends: &[usize; BUCKETS], bucket: usize) -> usize {
    match bucket.checked_sub(1).and_then(|before| ends.get(before)) {
        Some(end) => *end,
        None => 0,
    }
}

/// Puts each row into its bucket. A step either swaps a row into its own, or goes on to the next
/// bucket.
fn put_in_buckets(rows: &mut [Row<'_>], ends: &[usize; BUCKETS])
    ensures { IsPermutation rows.old rows.new }
{
    let mut starts = starts_of_buckets(ends);
    let mut bucket = 0;
    for _ in 0..rows.len().saturating_add(BUCKETS) {
        if bucket >= BUCKETS {
            return;
        }
        let place = starts[bucket];
        if place >= ends[bucket] || place >= rows.len() {
            bucket += 1;
        } else {
            put_in_bucket(rows, &mut starts, place);
        }
    }
}

/// Swaps the row at this place into its bucket, which starts after it from then on.
fn put_in_bucket(rows: &mut [Row<'_>], starts: &mut [usize; BUCKETS], place: usize)
    requires { place < length rows.old }
    ensures { IsPermutation rows.old rows.new }
{
    let bucket = bucket_of(&rows[place]);
    let there = starts[bucket];
    starts[bucket] = there.wrapping_add(1);
    if there < rows.len() {
        rows.swap(place, there);
    }
}

/// Sorts the rows of each bucket.
fn sort_buckets(rows: &mut [Row<'_>], ends: &[usize; BUCKETS])
    ensures { IsPermutation rows.old rows.new }
{
    for bucket in 0..BUCKETS {
        sort_part(rows, start_of(ends, bucket), ends[bucket]);
    }
}

/// Sorts the rows from one place up to another, if there are any.
fn sort_part(rows: &mut [Row<'_>], start: usize, end: usize)
    ensures { IsPermutation rows.old rows.new }
{
    if start <= end && end <= rows.len() {
        rows[start..end].sort_unstable_by(|a, b| by_fingerprint(a, b));
    }
}

fn by_fingerprint(a: &Row<'_>, b: &Row<'_>) -> Ordering {
    match a.fingerprint.cmp(&b.fingerprint) {
        Ordering::Equal => a.slot.cmp(&b.slot),
        order => order,
    }
}
