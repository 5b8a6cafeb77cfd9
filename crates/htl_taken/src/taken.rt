//! Sets of taken segments.

use crate::MAX_FRONT;
use crate::number_set::NumberSet;
use htl_event::NoMemory;
use std::alloc::Allocator;
use std::marker::Model;

/// A set of segments, each named by its processor and its number there.
///
/// Of each processor all numbers below a front are taken, and loose ones at or above it.
#[derive(Drop)]
pub struct Taken<A: Allocator> {
    sets: Vec<NumberSet<A>, A>,
}

impl<A: Allocator> Model for Taken<A> {
    ghost use Rattle.std.specs.Prelude.{List, ◌<◌, ◌^◌, map, length};
    ghost use Rattle.htl_taken.specs.Numbers.{Numbers};

    ghost Value = { List Numbers };

    ghost use Rattle.htl_taken.specs.NumberSets.{numbers_of};

    ghost view = { λ t. map numbers_of t.sets.items };

    ghost invariant = { λ t. length t.sets.items < 2 ^ 16 };
}

impl<A: Allocator> Taken<A> {
    ghost use Rattle.std.specs.Prelude.{◌≡◌, ◌≤◌, ◌<◌, ◌↔◌, ◌==◌, ◌&&◌, ◌||◌, ℕ};
    ghost use Rattle.std.specs.Prelude.{true, false, length, sum_by, not, IsTrue};
    ghost use Rattle.std.specs.Prelude.{IfOk, IfErr, OnOk, OnErr, MatchResult, Contains};
    ghost use Rattle.std.specs.Prelude.{slice_index, slice_set, if◌then◌else◌};
    ghost use Rattle.htl_taken.specs.Rising.{gap_of};
    ghost use Rattle.htl_taken.specs.Numbers.{numbers_at, front_at, loose_at, has_key, IsProper};
    ghost use Rattle.htl_taken.specs.Numbers.{size_of, reach_of, with_loose, settled};
    ghost use Rattle.htl_taken.specs.NumberSets.{numbers_of, Has};

    /// The number of processors.
    pub fn processors(&self) -> u16
        ensures len { result ≡ length self.now }
        ensures proper { (p : ℕ) → IsProper (numbers_at self.now p) }
    {
        self.sets.len() as u16
    }

    /// Whether the segment was taken. No segment of a processor that isn't there was.
    pub fn has(&self, processor: u16, number: u32) -> bool
        ensures { result ≡ has_key self.now processor number }
    {
        match self.sets.get(usize::from(processor)) {
            Some(numbers) => numbers.has(number),
            None => false,
        }
    }

    /// The processor's front: all numbers below it are taken. It is 0 for a processor that isn't
    /// there.
    pub fn front(&self, processor: u16) -> u32
        ensures value { result ≡ front_at self.now processor }
        ensures proper { IsProper (numbers_at self.now processor) }
    {
        match self.sets.get(usize::from(processor)) {
            Some(numbers) => numbers.front,
            None => 0,
        }
    }

    /// The processor's loose numbers in rising order: those that are taken, at or above the front.
    /// A processor that isn't there has none.
    pub fn loose(&self, processor: u16) -> &[u32]
        ensures value { result.now ≡ loose_at self.now processor }
        ensures proper { IsProper (numbers_at self.now processor) }
    {
        match self.sets.get(usize::from(processor)) {
            Some(numbers) => &numbers.loose,
            None => &[],
        }
    }

    /// The place of a number among the processor's loose ones, or else the place where it would go.
    pub fn search(&self, processor: u16, number: u32) -> Result<usize, usize>
        ensures found { IfOk result (λ i. (i < length (loose_at self.now processor))
            × (slice_index (loose_at self.now processor) i ≡ number)) }
        ensures absent { IfErr result (λ gap. (gap ≤ length (loose_at self.now processor))
            × (Contains (loose_at self.now processor) number → ⊥)) }
        ensures position { MatchResult result
            (λ i. i ≡ gap_of number (loose_at self.now processor))
            (λ gap. gap ≡ gap_of number (loose_at self.now processor)) }
    {
        match self.sets.get(usize::from(processor)) {
            Some(numbers) => numbers.search(number),
            None => Err(0),
        }
    }

    /// The number of segments.
    pub fn len(&self) -> u64
        ensures { result ≡ sum_by size_of self.now }
    {
        let mut len = 0;
        for numbers in &self.sets {
            len += numbers.len();
        }
        len
    }

    /// Whether no segment was taken.
    pub fn is_empty(&self) -> bool
        ensures { IsTrue result ↔ (sum_by size_of self.now ≡ 0) }
    {
        self.len() == 0
    }

    /// The least number of the processor that isn't taken. It is 0 for a processor that isn't
    /// there.
    pub fn reach(&self, processor: u16) -> u32
        ensures value { result ≡ reach_of (numbers_at self.now processor) }
        ensures ahead { front_at self.now processor ≤ result }
        ensures absent { has_key self.now processor result ≡ false }
        ensures least { (n : ℕ) → n < result → has_key self.now processor n ≡ true }
    {
        match self.sets.get(usize::from(processor)) {
            Some(numbers) => numbers.reach(),
            None => 0,
        }
    }

    /// Whether each segment of the other set is in this one. Either may have more processors.
    pub fn covers(&self, other: &Taken<A>) -> bool
        ensures { IsTrue result
            ↔ ((p n : ℕ) → has_key other.now p n ≡ true → has_key self.now p n ≡ true) }
    {
        for (processor, numbers) in other.sets.iter().enumerate() {
            if !self.covers_set(processor, numbers) {
                return false;
            }
        }
        true
    }

    fn covers_set(&self, processor: usize, numbers: &NumberSet<A>) -> bool
        ensures { IsTrue result
            ↔ ((n : ℕ) → Has (numbers_of numbers.now) n → Has (numbers_at self.now processor) n) }
    {
        match self.sets.get(processor) {
            Some(own) => own.covers(numbers),
            None => numbers.len() == 0,
        }
    }

    /// Whether both sets have the same fronts and the same loose numbers. Whether they have the
    /// same segments is `covers` both ways; of settled sets the two are one question.
    pub fn same(&self, other: &Taken<A>) -> bool
        ensures { IsTrue result ↔ (self.now ≡ other.now) }
    {
        if self.sets.len() != other.sets.len() {
            return false;
        }
        for (processor, numbers) in self.sets.iter().enumerate() {
            if !numbers.same(&other.sets[processor]) {
                return false;
            }
        }
        true
    }

    /// Takes a segment, and says whether it is new. The number of a new one becomes loose, also
    /// where it is the front.
    pub fn insert(&mut self, processor: u16, number: u32) -> Result<bool, NoMemory>
        requires processor { processor < length self.old }
        requires number { number < MAX_FRONT }
        ensures fresh { IfOk result (λ fresh. fresh ≡ not (has_key self.old processor number)) }
        ensures ok { IfOk result (λ fresh. self.new ≡ (if fresh
            then slice_set self.old processor (with_loose (numbers_at self.old processor) number)
            else self.old)) }
        ensures keys { OnOk result ((p n : ℕ) → has_key self.new p n
            ≡ (has_key self.old p n || (p == processor && n == number))) }
        ensures err { OnErr result (self.new ≡ self.old) }
    {
        let numbers = &mut self.sets[usize::from(processor)];
        numbers.insert(number)
    }

    /// Moves the processor's front to its reach and keeps the loose numbers at or above it. The
    /// segments stay the same. It changes nothing for a processor that isn't there.
    pub fn settle(&mut self, processor: u16)
        ensures value { self.new
            ≡ slice_set self.old processor (settled (numbers_at self.old processor)) }
        ensures keys { (p n : ℕ) → has_key self.new p n ≡ has_key self.old p n }
    {
        if let Some(numbers) = self.sets.get_mut(usize::from(processor)) {
            numbers.settle();
        }
    }
}

impl<A: Allocator + Clone> Taken<A> {
    ghost use Rattle.std.specs.Prelude.{◌≡◌, ◌<◌, ◌^◌, ◌||◌, ℕ, false, length, map, replicate, IfOk};
    ghost use Rattle.htl_taken.specs.Numbers.{numbers_at, no_numbers, all_below, has_key, IsUnion};

    /// An empty set, for this many processors.
    pub fn new(alloc: A, processors: u16) -> Result<Taken<A>, NoMemory>
        ensures { IfOk result (λ t. t ≡ replicate processors no_numbers) }
    {
        let mut sets = Vec::with_capacity(alloc.clone()?, usize::from(processors))?;
        for _ in 0..processors {
            sets.push(NumberSet::new(alloc.clone()?))?;
        }
        Ok(Taken { sets })
    }

    /// The set in which each processor has taken all numbers below its front, and no loose one: a
    /// processor for each front, in order.
    pub fn of_fronts(alloc: A, fronts: &[u32]) -> Result<Taken<A>, NoMemory>
        requires { length fronts.now < 2 ^ 16 }
        ensures { IfOk result (λ t. t ≡ map all_below fronts.now) }
    {
        let mut sets = Vec::with_capacity(alloc.clone()?, fronts.len())?;
        for front in fronts {
            sets.push(NumberSet::below(alloc.clone()?, *front))?;
        }
        Ok(Taken { sets })
    }

    /// An equal set, under clones of this one's allocator.
    pub fn copy(&self) -> Result<Taken<A>, NoMemory>
        ensures { IfOk result (λ t. t ≡ self.now) }
    {
        let alloc = self.sets.allocator().clone()?;
        let mut sets = Vec::with_capacity(alloc, self.sets.len())?;
        for numbers in &self.sets {
            sets.push(numbers.copy()?)?;
        }
        Ok(Taken { sets })
    }

    /// The segments of both sets, under clones of this one's allocator: for each processor the
    /// greater front, and the loose numbers of both at or above it.
    pub fn union(&self, other: &Taken<A>) -> Result<Taken<A>, NoMemory>
        requires { length self.now ≡ length other.now }
        ensures len { IfOk result (λ t. length t ≡ length self.now) }
        ensures each { IfOk result (λ t. (p : ℕ)
            → IsUnion (numbers_at self.now p) (numbers_at other.now p) (numbers_at t p)) }
        ensures keys { IfOk result (λ t. (p n : ℕ)
            → has_key t p n ≡ (has_key self.now p n || has_key other.now p n)) }
    {
        let alloc = self.sets.allocator().clone()?;
        let mut sets = Vec::with_capacity(alloc, self.sets.len())?;
        for (processor, numbers) in self.sets.iter().enumerate() {
            sets.push(numbers.union(&other.sets[processor])?)?;
        }
        Ok(Taken { sets })
    }
}
