//! The set of sequences that were seen, and whether one came twice.

ghost use Rattle.std.specs.Prelude.{◌≡◌, ◌+◌, ◌<◌, ◌≤◌, ◌++◌, ◌∷◌, ℕ, List, [], IfOk, IsTrue};
ghost use Rattle.std.specs.Prelude.{OnOk, vec_len, true, false, length};
ghost use Rattle.std.specs.List.{list_any};
ghost use Rattle.std.specs.List.Sorted.{IsNonDecreasing, IsPermutation};
ghost use Rattle.htl_segment.specs.Repeated.{times};
ghost use Rattle.htl_segment.specs.Seen.{is_marked, mark_count};

use crate::repeated::first_repeated;
use htl_event::NoMemory;
use std::alloc::Global;

/// The most marks for each sequence that was seen. A mark takes one byte, and a sequence that is
/// listed takes eight.
const MARKS_PER_SEQUENCE: usize = 8;

/// The most marks while few sequences were seen.
const MARKS_AT_FIRST: usize = 1 << 20;

/// The sequences that were seen. A sequence has a mark at its place. One whose mark would lie too far
/// beyond the others is listed instead.
#[derive(Debug, Drop)]
pub struct Seen {
    /// For each sequence, at its place, whether it has a mark.
    marks: Vec<bool>,
    /// The sequences whose marks would have lain too far out when they came.
    apart: Vec<u64>,
    /// The number of sequences that were seen.
    count: usize,
    /// Whether a sequence is known to have come twice. Then nothing more is noted.
    comes_twice: bool,
}

impl Seen {
    ghost use Rattle.std.specs.Prelude.{◌≡◌, ◌+◌, ◌≤◌, ◌++◌, ◌∷◌, ℕ, List, [], OnOk, true, false};
    ghost use Rattle.htl_segment.specs.Repeated.{times};
    ghost use Rattle.htl_segment.specs.Seen.{Saw, mark_count};

    /// A set in which no sequence was seen yet.
    pub fn new(alloc: Global) -> Seen
        ensures { Saw result [] }
    {
        Seen {
            marks: Vec::new(alloc),
            apart: Vec::new(alloc),
            count: 0,
            comes_twice: false,
        }
    }

    /// Notes one more sequence.
    pub fn note(&mut self, sequence: u64) -> Result<(), NoMemory>
        ensures { (numbers : List ℕ) → Saw self.old numbers
            → OnOk result (Saw self.new (numbers ++ sequence ∷ [])) }
    {
        if self.comes_twice {
            return Ok(());
        }
        self.count = self.count.saturating_add(1);
        let place = sequence as usize;
        if !make_room(&mut self.marks, place, self.count)? {
            self.apart.push(sequence)?;
        } else if self.marks[place] {
            self.comes_twice = true;
        } else {
            self.marks[place] = true;
        }
        Ok(())
    }

    /// Takes over the sequences of another set, which is empty then.
    pub fn append(&mut self, other: &mut Seen) -> Result<(), NoMemory>
        ensures seen { (numbers more : List ℕ) → Saw self.old numbers → Saw other.old more
            → OnOk result (Saw self.new (numbers ++ more)) }
        ensures emptied { OnOk result (Saw other.new []) }
    {
        if other.comes_twice {
            self.comes_twice = true;
        } else {
            let count = self.count.saturating_add(other.count);
            self.note_all(&other.apart)?;
            self.note_marks(&other.marks)?;
            self.count = count;
        }
        other.clear();
        Ok(())
    }

    fn note_all(&mut self, sequences: &[u64]) -> Result<(), NoMemory>
        ensures { (numbers : List ℕ) → Saw self.old numbers
            → OnOk result (Saw self.new (numbers ++ sequences.now)) }
    {
        for sequence in sequences {
            self.note(*sequence)?;
        }
        Ok(())
    }

    /// Notes each sequence that has a mark in this list.
    fn note_marks(&mut self, marks: &[bool]) -> Result<(), NoMemory>
        ensures { (numbers all : List ℕ) → Saw self.old numbers
            → ((n : ℕ) → times n all ≡ times n numbers + mark_count marks.now n)
            → OnOk result (Saw self.new all) }
    {
        reach(&mut self.marks, marks.len())?;
        if unite(&mut self.marks, marks) {
            self.comes_twice = true;
        }
        Ok(())
    }

    fn clear(&mut self)
        ensures { Saw self.new [] }
    {
        self.marks.clear();
        self.apart.clear();
        self.count = 0;
        self.comes_twice = false;
    }

    /// Whether one of the sequences came twice.
    pub fn comes_twice(mut self) -> bool
        ensures once { (numbers : List ℕ) → Saw self numbers → result ≡ false
            → (n : ℕ) → times n numbers ≤ 1 }
        ensures twice { (numbers : List ℕ) → Saw self numbers → result ≡ true
            → (n : ℕ) × (2 ≤ times n numbers) }
    {
        if self.comes_twice {
            return true;
        }
        sort(&mut self.apart);
        if first_repeated(&self.apart).is_some() {
            return true;
        }
        any_marked(&self.marks, &self.apart)
    }
}

fn sort(numbers: &mut Vec<u64>)
    ensures moved { IsPermutation numbers.old.items numbers.new.items }
    ensures sorted { IsNonDecreasing numbers.new.items }
{
    numbers.sort_unstable();
}

/// Makes room for marks at all places below a length.
fn reach(marks: &mut Vec<bool>, len: usize) -> Result<(), NoMemory>
    ensures kept { (n : ℕ) → is_marked marks.new.items n ≡ is_marked marks.old.items n }
    ensures room { OnOk result (len ≤ vec_len marks.new) }
{
    if marks.len() < len {
        marks.resize(len, false)?;
    }
    Ok(())
}

/// Adds marks, and tells whether a place had one already. One pass without a branch does it.
fn unite(marks: &mut [bool], more: &[bool]) -> bool
    requires { length more.now ≤ length marks.old }
    ensures twice { result ≡ true
        → (n : ℕ) × (mark_count marks.old n ≡ 1) × (mark_count more.now n ≡ 1) }
    ensures once { result ≡ false → (n : ℕ)
        → mark_count marks.new n ≡ mark_count marks.old n + mark_count more.now n }
{
    let mut is_twice = false;
    for place in 0..more.len() {
        is_twice |= marks[place] & more[place];
        marks[place] |= more[place];
    }
    is_twice
}

/// Whether one of these sequences has a mark.
fn any_marked(marks: &[bool], sequences: &[u64]) -> bool
    ensures { result ≡ list_any (is_marked marks.now) sequences.now }
{
    sequences.iter().any(|sequence| has_mark(marks, *sequence))
}

fn has_mark(marks: &[bool], sequence: u64) -> bool
    ensures { result ≡ is_marked marks.now sequence }
{
    marks.get(sequence as usize).copied().unwrap_or(false)
}

/// Makes room for a mark, unless there would be too many for `count` sequences.
fn make_room(marks: &mut Vec<bool>, place: usize, count: usize) -> Result<bool, NoMemory>
    ensures kept { (n : ℕ) → is_marked marks.new.items n ≡ is_marked marks.old.items n }
    ensures room { IfOk result (λ fits. IsTrue fits → place < vec_len marks.new) }
{
    if place < marks.len() {
        return Ok(true);
    }
    grow(marks, place, count)
}

/// Makes room for a mark that has none yet.
fn grow(marks: &mut Vec<bool>, place: usize, count: usize) -> Result<bool, NoMemory>
    requires { vec_len marks.old ≤ place }
    ensures kept { (n : ℕ) → is_marked marks.new.items n ≡ is_marked marks.old.items n }
    ensures room { IfOk result (λ fits. IsTrue fits → place < vec_len marks.new) }
{
    let most = count.saturating_mul(MARKS_PER_SEQUENCE).max(MARKS_AT_FIRST);
    if place >= most {
        return Ok(false);
    }
    let len = marks.len().saturating_mul(2).min(most).max(place + 1);
    marks.resize(len, false)?;
    Ok(true)
}
