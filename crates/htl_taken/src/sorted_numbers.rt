//! Rising lists of numbers.

ghost use Rattle.std.specs.Prelude.{◌≡◌, ◌≤◌, ◌<◌, ◌+◌, ℕ, ◌++◌, ◌↔◌, drop, length, IsTrue};
ghost use Rattle.std.specs.Prelude.{IfOk, IfErr, OnOk, MatchResult, Contains, slice_index};
ghost use Rattle.htl_taken.specs.Rising.{Rises, gap_of, reach_from};
ghost use Rattle.htl_taken.specs.Merging.{without_head, merged};

use crate::MAX_FRONT;
use htl_event::NoMemory;
use std::alloc::Allocator;

/// The place of a number in a rising list, or else the place where it would go. A number above all
/// others needs no search.
pub(crate) fn position_of(numbers: &[u32], number: u32) -> Result<usize, usize>
    requires { Rises 0 MAX_FRONT numbers.now }
    ensures found { IfOk result (λ i. (i < length numbers.now)
        × (slice_index numbers.now i ≡ number)) }
    ensures absent { IfErr result (λ gap. (gap ≤ length numbers.now)
        × (Contains numbers.now number → ⊥)) }
    ensures position { MatchResult result
        (λ i. i ≡ gap_of number numbers.now)
        (λ i. i ≡ gap_of number numbers.now) }
{
    match numbers.last() {
        Some(last) if number <= *last => numbers.binary_search(&number),
        _ => Err(numbers.len()),
    }
}

/// The numbers of a rising list from `least` on.
#[tactic(auto, using(crate::proofs::Rising::gap_within))]
pub(crate) fn skip_below(numbers: &[u32], least: u32) -> &[u32]
    requires { Rises 0 MAX_FRONT numbers.now }
    ensures { result.now ≡ drop (gap_of least numbers.now) numbers.now }
{
    let start = match position_of(numbers, least) {
        Ok(place) | Err(place) => place,
    };
    &numbers[start..]
}

/// The first number from `start` on that a rising list, which has none below `start`, doesn't have.
#[tactic(auto, using(crate::proofs::Rising::next_below))]
pub(crate) fn reach_over(numbers: &[u32], start: u32) -> u32
    requires { Rises start MAX_FRONT numbers.now }
    ensures value { result ≡ reach_from start numbers.now }
    ensures ahead { start ≤ result }
    ensures within { result ≤ start + length numbers.now }
{
    let mut reach = start;
    for number in numbers {
        if *number != reach {
            return reach;
        }
        reach += 1;
    }
    reach
}

/// Whether each number of one rising list is in the other.
pub(crate) fn is_within(numbers: &[u32], all: &[u32]) -> bool
    requires numbers { Rises 0 MAX_FRONT numbers.now }
    requires all { Rises 0 MAX_FRONT all.now }
    ensures { IsTrue result ↔ ((n : ℕ) → Contains numbers.now n → Contains all.now n) }
{
    let mut left = numbers;
    for number in all {
        left = after_head(left, *number);
    }
    left.is_empty()
}

/// The numbers without the first, where that is `head`, or else all numbers.
fn after_head(numbers: &[u32], head: u32) -> &[u32]
    ensures { result.now ≡ without_head head numbers.now }
{
    match numbers.split_first() {
        Some((first, rest)) if *first == head => rest,
        _ => numbers,
    }
}

/// Puts the numbers of two rising lists at the end of `target`, in order and each once.
#[tactic(auto, using(crate::proofs::Merging::merged_over))]
pub(crate) fn merge_into<A: Allocator>(
    target: &mut Vec<u32, A>,
    one: &[u32],
    other: &[u32],
) -> Result<(), NoMemory>
    ensures { OnOk result (target.new.items ≡ target.old.items ++ merged one.now other.now) }
{
    let mut left = one;
    let mut right = other;
    while let (Some(l), Some(r)) = (left.first(), right.first()) {
        target.push(*l.min(r))?;
        if l <= r {
            left = &left[1..];
        }
        if r <= l {
            right = &right[1..];
        }
    }
    target.extend_from_slice(left)?;
    target.extend_from_slice(right)?;
    Ok(())
}
