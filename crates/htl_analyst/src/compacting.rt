//! Compaction: it folds the segments that follow the fronts without a gap.
ghost use Rattle.std.specs.Prelude.{◌≡◌, ◌≤◌, ◌<◌, ℕ, length, drop, slice_set};
ghost use Rattle.htl_taken.specs.Numbers.{numbers_at};
ghost use Rattle.htl_analyst.specs.States.{part_at};
ghost use Rattle.htl_analyst.specs.StepParts.{CanFold, IsWorked, run_at, moved};

use crate::analyst::Analyst;
use crate::part::Part;
use htl_event::NoMemory;
use htl_segment::Segment;
use htl_taken::Taken;
use std::alloc::{Allocator, Global};
use std::thread::{Threads, for_each_mut};

impl<A: Allocator + Clone> Analyst<A> {
    ghost use Rattle.std.specs.Prelude.{◌≡◌, ◌<◌, OnOk, OnErr};
    ghost use Rattle.htl_analyst.specs.Compactions.{Compacts};
    ghost use Rattle.htl_analyst.specs.StepParts.{IsCompactedAt};

    /// Moves every front to the least number that wasn't taken. The held segments below it are
    /// folded and dropped. After out of memory some fronts may have moved, and the keys are as
    /// before.
    pub fn compact(&mut self) -> Result<(), NoMemory>
        ensures { Compacts self.old self.new result }
    {
        for processor in 0..self.processors {
            self.fold(processor)?;
        }
        Ok(())
    }

    /// Folds the run of one processor.
    fn fold(&mut self, processor: u16) -> Result<(), NoMemory>
        requires { processor < self.old.processors }
        ensures ok { OnOk result (IsCompactedAt self.old self.new processor) }
        ensures err { OnErr result (self.new ≡ self.old) }
    {
        let front = self.taken.front(processor);
        let run = (self.taken.reach(processor) - front) as usize;
        if run == 0 {
            return Ok(());
        }
        self.parts[usize::from(processor)].fold(run)?;
        self.taken.settle(processor);
        Ok(())
    }
}

impl Analyst<Global> {
    ghost use Rattle.htl_analyst.specs.Compactions.{Compacts};
    ghost use Rattle.htl_analyst.specs.Right.{IsState};
    ghost use Rattle.htl_analyst.specs.StepParts.{IsFurther};

    /// The same as `compact`, by this many workers, each of which folds the runs of some
    /// processors. Where threads are refused, or a worker finds no memory, one worker does what is
    /// left.
    pub fn compact_by<T: Threads + Sync>(&mut self, rt: &T, workers: u32) -> Result<(), NoMemory>
        ensures { Compacts self.old self.new result }
    {
        self.fold_by(rt, workers);
        self.compact()
    }

    /// Folds the runs of the processors by this many workers, as far as these find memory. With one
    /// worker, or one processor, it leaves all to `compact`.
    fn fold_by<T: Threads + Sync>(&mut self, rt: &T, workers: u32)
        ensures further { IsFurther self.old self.new }
        ensures state { IsState self.old }
    {
        if workers < 2 || self.processors < 2 {
            return;
        }
        fold_parts(rt, workers as usize, &self.taken, &mut self.parts);
        move_fronts(&mut self.taken, &self.parts, self.processors);
    }
}

/// Folds the runs of the parts by this many workers, each of which has some parts. A part for whose
/// run there is no memory stays as it was. No front moves.
fn fold_parts<T: Threads + Sync>(
    rt: &T,
    workers: usize,
    taken: &Taken<Global>,
    parts: &mut [Part<Global>],
)
    requires some { 0 < workers }
    requires few { length parts.old ≤ 256 }
    requires can { (p : ℕ) → p < length parts.old
        → CanFold (run_at (numbers_at taken.now p)) (part_at parts.old p) }
    ensures { (p : ℕ) → p < length parts.old
        → IsWorked (numbers_at taken.now p) (part_at parts.old p) (part_at parts.new p) }
{
    let fold = |place: usize, part: &mut Part<Global>|
        requires { (place < 256) × CanFold (run_at (numbers_at taken.now place)) part.old }
        ensures { IsWorked (numbers_at taken.entry.now place) part.old part.new }
    { fold_part(taken, place as u16, part) };
    for_each_mut(rt, parts, workers, &fold);
}

/// Folds the run of one processor in its part, where there is memory for it.
fn fold_part(taken: &Taken<Global>, processor: u16, part: &mut Part<Global>)
    requires { CanFold (run_at (numbers_at taken.now processor)) part.old }
    ensures { IsWorked (numbers_at taken.now processor) part.old part.new }
{
    let front = taken.front(processor);
    let run = (taken.reach(processor) - front) as usize;
    if run == 0 {
        return;
    }
    // A part for whose run there is no memory is left to `compact`.
    let _ = part.fold(run);
}

/// Moves the fronts over the runs that were folded.
fn move_fronts(taken: &mut Taken<Global>, parts: &[Part<Global>], processors: u16)
    requires { processors ≤ length parts.now }
    ensures len { length taken.new ≡ length taken.old }
    ensures each { (p : ℕ) → p < processors → p < length taken.old → numbers_at taken.new p
        ≡ moved (numbers_at taken.old p) (part_at parts.now p) }
{
    for processor in 0..processors {
        move_front(taken, &parts[usize::from(processor)], processor);
    }
}

/// Moves the front of one processor if its run was folded: then fewer segments are held than
/// numbers are loose.
fn move_front(taken: &mut Taken<Global>, part: &Part<Global>, processor: u16)
    ensures { taken.new ≡ slice_set taken.old processor
        (moved (numbers_at taken.old processor) part.now) }
{
    if part.held().len() < taken.loose(processor).len() {
        taken.settle(processor);
    }
}

impl<A: Allocator + Clone> Part<A> {
    ghost use Rattle.std.specs.Prelude.{◌≡◌, OnOk, OnErr};
    ghost use Rattle.htl_analyst.specs.StepParts.{CanFold, IsRunFolded};

    /// Folds the first held segments, and drops them. Where memory is refused, the part stays as it
    /// was.
    fn fold(&mut self, run: usize) -> Result<(), NoMemory>
        requires { CanFold run self.old }
        ensures ok { OnOk result (IsRunFolded run self.old self.new) }
        ensures err { OnErr result (self.new ≡ self.old) }
    {
        let alloc = self.held.allocator().clone()?;
        self.folded.fold(alloc, &self.held[..run])?;
        drop_front(&mut self.held, run);
        Ok(())
    }
}

/// Drops the first segments.
fn drop_front<A: Allocator>(held: &mut Vec<Segment, A>, run: usize)
    requires { run ≤ length held.old.items }
    ensures { held.new.items ≡ drop run held.old.items }
{
    let _ = held.drain(..run);
}
