//! The taken numbers of one processor.

ghost use Rattle.htl_taken.specs.Rising.{Rises};
ghost use Rattle.htl_taken.specs.RisingProp.{Rises-prop};
ghost use Rattle.htl_taken.specs.declared.TheConstants.{MAX_FRONT};

use crate::sorted_numbers::{is_within, merge_into, position_of, reach_over, skip_below};
use htl_event::NoMemory;
use std::alloc::Allocator;

/// The taken numbers of one processor: all numbers below the front, and loose ones at or above it.
#[derive(Drop)]
pub(crate) struct NumberSet<A: Allocator> {
    pub front: u32,
    pub loose: Vec<u32, A>,
    ghost proper: { Rises front MAX_FRONT loose.items } by { Rises-prop front MAX_FRONT loose.items },
}

impl<A: Allocator> NumberSet<A> {
    ghost use Rattle.std.specs.Prelude.{◌≡◌, ◌≤◌, ◌<◌, ◌+◌, ◌↔◌, ℕ, length};
    ghost use Rattle.std.specs.Prelude.{IsTrue, IsFalse, IfOk, IfErr, OnErr};
    ghost use Rattle.std.specs.Prelude.{MatchResult, Contains, slice_index, if◌then◌else◌};
    ghost use Rattle.htl_taken.specs.Rising.{gap_of};
    ghost use Rattle.htl_taken.specs.Numbers.{IsUnion, size_of, reach_of};
    ghost use Rattle.htl_taken.specs.Numbers.{with_loose, settled, no_numbers, all_below};
    ghost use Rattle.htl_taken.specs.NumberSets.{Has};
    ghost use Rattle.htl_taken.specs.NumberSets.{numbers_of};

    /// A set of no numbers.
    pub fn new(alloc: A) -> NumberSet<A>
        ensures { numbers_of result ≡ no_numbers }
    {
        NumberSet {
            front: 0,
            loose: Vec::new(alloc),
        }
    }

    /// All numbers below the front, and no loose one.
    pub fn below(alloc: A, front: u32) -> NumberSet<A>
        ensures { numbers_of result ≡ all_below front }
    {
        NumberSet {
            front,
            loose: Vec::new(alloc),
        }
    }

    /// The place of a number among the loose ones, or else the place where it would go.
    pub fn search(&self, number: u32) -> Result<usize, usize>
        ensures found { IfOk result (λ i. (i < length self.now.loose.items)
            × (slice_index self.now.loose.items i ≡ number)) }
        ensures absent { IfErr result (λ gap. (gap ≤ length self.now.loose.items)
            × (Contains self.now.loose.items number → ⊥)) }
        ensures position { MatchResult result
            (λ i. i ≡ gap_of number self.now.loose.items)
            (λ i. i ≡ gap_of number self.now.loose.items) }
    {
        position_of(&self.loose, number)
    }

    /// Whether the number is taken.
    pub fn has(&self, number: u32) -> bool
        ensures { IsTrue result ↔ Has (numbers_of self.now) number }
    {
        number < self.front || self.search(number).is_ok()
    }

    /// The number of taken numbers.
    pub fn len(&self) -> u64
        ensures size { result ≡ size_of (numbers_of self.now) }
        ensures fits { result ≤ MAX_FRONT }
    {
        u64::from(self.front) + self.loose.len() as u64
    }

    /// The least number that isn't taken.
    pub fn reach(&self) -> u32
        ensures value { result ≡ reach_of (numbers_of self.now) }
        ensures ahead { self.now.front ≤ result }
        ensures within { result ≤ self.now.front + length self.now.loose.items }
    {
        reach_over(&self.loose, self.front)
    }

    /// Takes a number, and says whether it is new.
    pub fn insert(&mut self, number: u32) -> Result<bool, NoMemory>
        requires { number < MAX_FRONT }
        ensures known { IfOk result (λ fresh. IsFalse fresh ↔ Has (numbers_of self.old) number) }
        ensures ok { IfOk result (λ fresh. numbers_of self.new
            ≡ (if fresh then with_loose (numbers_of self.old) number else numbers_of self.old)) }
        ensures err { OnErr result (numbers_of self.new ≡ numbers_of self.old) }
    {
        if number < self.front {
            return Ok(false);
        }
        match self.search(number) {
            Ok(_) => Ok(false),
            Err(gap) => {
                self.loose.insert(gap, number)?;
                Ok(true)
            }
        }
    }

    /// Moves the front to the reach, and drops the loose numbers below it.
    pub fn settle(&mut self)
        ensures { numbers_of self.new ≡ settled (numbers_of self.old) }
    {
        let reach = self.reach();
        self.loose.drain(..(reach - self.front) as usize);
        self.front = reach;
    }

    /// Whether each number of the other set is in this one.
    pub fn covers(&self, other: &NumberSet<A>) -> bool
        ensures { IsTrue result
            ↔ ((n : ℕ) → Has (numbers_of other.now) n → Has (numbers_of self.now) n) }
    {
        other.front <= self.reach() && is_within(skip_below(&other.loose, self.front), &self.loose)
    }

    /// Whether both have one front and the same loose numbers. Where these differ, the sets may
    /// still have the same numbers, unless both are settled.
    pub fn same(&self, other: &NumberSet<A>) -> bool
        ensures { IsTrue result ↔ (numbers_of self.now ≡ numbers_of other.now) }
    {
        self.front == other.front && self.loose.as_slice() == other.loose.as_slice()
    }
}

impl<A: Allocator + Clone> NumberSet<A> {
    ghost use Rattle.std.specs.Prelude.{◌≡◌, IfOk};
    ghost use Rattle.htl_taken.specs.Numbers.{IsUnion};
    ghost use Rattle.htl_taken.specs.NumberSets.{numbers_of};

    /// An equal set, under a clone of this one's allocator.
    pub fn copy(&self) -> Result<NumberSet<A>, NoMemory>
        ensures { IfOk result (λ numbers. numbers_of numbers ≡ numbers_of self.now) }
    {
        let alloc = self.loose.allocator().clone()?;
        Ok(NumberSet {
            front: self.front,
            loose: Vec::from_slice(alloc, &self.loose)?,
        })
    }

    /// The union of both sets: the greater front, and the loose numbers of both at or above it.
    pub fn union(&self, other: &NumberSet<A>) -> Result<NumberSet<A>, NoMemory>
        ensures { IfOk result (λ numbers.
            IsUnion (numbers_of self.now) (numbers_of other.now) (numbers_of numbers)) }
    {
        let front = self.front.max(other.front);
        let mut loose = Vec::new(self.loose.allocator().clone()?);
        merge_into(
            &mut loose,
            skip_below(&self.loose, front),
            skip_below(&other.loose, front),
        )?;
        Ok(NumberSet { front, loose })
    }
}
