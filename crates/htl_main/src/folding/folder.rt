//! The folder, which gives segments to an analyst and has it fold and forget them.

ghost use Rattle.std.specs.Prelude.{◌≡◌, ◌≢◌, ◌∷◌, [], IfOk, List, OnOk, is_some, true};
ghost use Rattle.htl_analyst.specs.TakenAll.{HasTakenAll};
ghost use Rattle.htl_segment.specs.Content.{Content, Fits};
ghost use Rattle.htl_segment.specs.Keepers.{Took};
ghost use Rattle.htl_main.specs.Folders.{Keeps, TookFit, folds_of};
ghost use Rattle.htl_main.specs.Folding.{AreRising};

use crate::folding::falling::first_to_fall;
use htl_analyst::{Analyst, TakeFault};
use htl_answers::Part;
use htl_case::CaseFault;
use htl_event::NoMemory;
use htl_reading::SegmentKeeper;
use htl_segment::{Keeper, Segment, SegmentBytes, StackCache};
use std::alloc::Global;
use std::thread::Threads;

/// Fold once this many events and segments are held. One more read may come on top, or one more
/// round of several workers, or a whole text in hexadecimal. An event takes 48 bytes and its stack,
/// which equal stacks share.
const FEW_HELD: u64 = 1 << 20;

/// Takes segments into an analyst, up to the first that is unfit, and has it fold what it holds.
#[derive(Drop)]
pub(crate) struct Folder {
    /// Recently met stacks, so that equal ones share memory.
    cache: StackCache,
    /// How many events and segments were given since the last fold.
    since_fold: u64,
    /// The analyst, where a segment was taken.
    pub analyst: Option<Analyst<Global>>,
    /// How many segments were taken. It stays at the greatest `u64` once it is there.
    pub segments: u64,
    /// Why the next segment wasn't taken, if one was unfit. None is taken after it.
    pub unfit: Option<CaseFault>,
}

impl Folder {
    ghost use Rattle.std.specs.Prelude.{◌≡◌, ◌<◌, ◌++◌, ◌∷◌, [], List, None, OnErr, OnOk, Option};
    ghost use Rattle.htl_analyst.specs.States.{State};
    ghost use Rattle.htl_segment.specs.Content.{Content};
    ghost use Rattle.htl_main.specs.Folders.{Folds, IsBegun};
    ghost use Rattle.htl_main.specs.Folding.{IsFoldedFar};

    /// A folder that goes on with an analyst.
    pub fn new(alloc: Global, analyst: Option<Analyst<Global>>) -> Folder
        ensures { IsBegun analyst result }
    {
        Folder {
            cache: StackCache::new(alloc),
            since_fold: 0,
            analyst,
            segments: 0,
            unfit: None,
        }
    }

    /// Takes the next segment, or finds that it is unfit.
    fn take_next(&mut self, alloc: Global, segment: Segment) -> Result<(), NoMemory>
        requires { self.old.unfit ≡ None }
        ensures { (first : Option State) (given : List Content)
            → Folds first self.old.analyst self.old.unfit self.old.segments given
            → OnOk result (Folds first self.new.analyst self.new.unfit self.new.segments
            (given ++ segment ∷ [])) }
    {
        let more = 1 + segment.events().len() as u64;
        let Some(analyst) = &mut self.analyst else {
            self.analyst = Some(begun_by(alloc, segment)?);
            self.segments = 1;
            self.since_fold = more;
            return Ok(());
        };
        self.unfit = take(analyst, segment, self.segments)?;
        if self.unfit.is_some() {
            return Ok(());
        }
        self.segments = self.segments.saturating_add(1);
        self.since_fold = self.since_fold.saturating_add(more);
        Ok(())
    }

    /// Folds with this number of workers if `most_held` events and segments or more were given since
    /// the last fold.
    pub fn fold_if_full(&mut self, rt: &(impl Threads + Sync), workers: u32) -> Result<(), NoMemory>
        ensures { OnOk result (Took folds_of self.old self.new []) }
    {
        if self.since_fold < most_held(&self.analyst) {
            return Ok(());
        }
        self.fold_by(rt, workers)
    }

    /// Folds all held segments that can be folded, with this number of workers. It asks for memory
    /// only where a segment was taken.
    pub fn fold_by(&mut self, rt: &(impl Threads + Sync), workers: u32) -> Result<(), NoMemory>
        ensures kept { (first : Option State) (given : List Content)
            → Folds first self.old.analyst self.old.unfit self.old.segments given
            → Folds first self.new.analyst self.new.unfit self.new.segments given }
        ensures far { (first : Option State) (given : List Content)
            → Folds first self.old.analyst self.old.unfit self.old.segments given
            → IsFoldedFar first → OnOk result (IsFoldedFar self.new.analyst) }
        ensures some { OnErr result (0 < self.old.segments) }
        ensures same { (self.new.unfit ≡ self.old.unfit) × (self.new.segments ≡ self.old.segments) }
    {
        if self.segments == 0 {
            return Ok(());
        }
        self.since_fold = 0;
        match &mut self.analyst {
            Some(analyst) => analyst.compact_by(rt, workers),
            None => Ok(()),
        }
    }
}

impl Keeper for Folder {
    ghost use Rattle.htl_main.specs.Folders.{folds_of};

    ghost gathers = { folds_of };

    fn take(&mut self, alloc: Global, found: &SegmentBytes<'_>) -> Result<(), NoMemory> {
        let segment = found.to_segment_with(alloc, &mut self.cache)?;
        self.take_segment(alloc, segment)
    }
}

impl SegmentKeeper for Folder {
    fn take_segment(&mut self, alloc: Global, segment: Segment) -> Result<(), NoMemory> {
        if self.unfit.is_some() {
            return Ok(());
        }
        self.take_next(alloc, segment)
    }
}

/// The number of events and segments that starts a fold: half as many as there are handles whose
/// latest events are kept, since each fold goes over these once, and over the counts of all stacks
/// that come, but at least `FEW_HELD`.
fn most_held(analyst: &Option<Analyst<Global>>) -> u64 {
    let mut latest = 0u64;
    if let Some(analyst) = analyst {
        for part in analyst.parts() {
            latest = latest.saturating_add(part.latest().rows().len() as u64);
        }
    }
    (latest / 2).max(FEW_HELD)
}

/// A new analyst that has taken this segment.
fn begun_by(alloc: Global, segment: Segment) -> Result<Analyst<Global>, NoMemory>
    requires { Fits segment }
    ensures { IfOk result (HasTakenAll (segment ∷ [])) }
{
    let Ok(mut analyst) = Analyst::new(alloc, segment.trace_id(), segment.processors()) else {
        return Err(NoMemory);
    };
    match analyst.take(segment) {
        Ok(_) => Ok(analyst),
        Err(_) => Err(NoMemory),
    }
}

/// Has an analyst take a segment, or says why the segment is unfit. `place` is the number of
/// segments before it.
fn take(
    analyst: &mut Analyst<Global>,
    segment: Segment,
    place: u64,
) -> Result<Option<CaseFault>, NoMemory>
    requires { Fits segment }
    ensures taken { (segments : List Content) → segments ≢ [] → HasTakenAll segments analyst.old
        → AreRising segments
        → IfOk result (TookFit segments segment place analyst.old analyst.new) }
    ensures keeps { OnOk result (Keeps analyst.old analyst.new) }
    ensures same { IfOk result (λ unfit. is_some unfit ≡ true → analyst.new ≡ analyst.old) }
{
    let processor = segment.processor();
    if let Some(number) = first_to_fall(analyst, &segment) {
        return Ok(Some(CaseFault::Falling(processor, number)));
    }
    match analyst.take(segment) {
        Ok(_) => Ok(None),
        Err((TakeFault::OtherTrace, _)) => Ok(Some(CaseFault::OtherTrace(place))),
        Err((TakeFault::OtherProcessors, _)) => Ok(Some(CaseFault::OtherProcessors(place))),
        Err((TakeFault::Conflict(processor, number), _)) => {
            Ok(Some(CaseFault::TwoContents(processor, number)))
        }
        Err((TakeFault::NoMemory, _)) => Err(NoMemory),
    }
}
