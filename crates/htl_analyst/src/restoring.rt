//! An analyst of the folds of its processors: the way back from a state that was saved.

use crate::MAX_PROCESSORS;
use crate::analyst::Analyst;
use crate::fault::RestoreFault;
use crate::folded::Folded;
use crate::part::Part;
use htl_event::NoMemory;
use htl_tables::{Exits, Latest, Marks};
use htl_taken::Taken;
use htl_tree::StackTree;
use std::alloc::Allocator;

/// The most events of a segment.
const MAX_EVENTS: u64 = 4096;

/// What is left of the segments of one processor below its front.
#[derive(Drop)]
pub struct FoldedPart<A: Allocator> {
    /// The segments with numbers below it were folded.
    pub front: u32,
    /// The counts of their events, by stack.
    pub tree: StackTree<A>,
    /// The latest open or close of each handle.
    pub latest: Latest<A>,
    /// The snapshot mark of each process.
    pub marks: Marks<A>,
    /// The last exit of each process.
    pub exits: Exits<A>,
    /// The greatest sequence, or 0 where they have no event.
    pub last_sequence: u64,
    /// The number of their events.
    pub events: u64,
}

impl<A: Allocator + Clone> Analyst<A> {
    ghost use Rattle.std.specs.Prelude.{◌≡◌, map, IfOk, IfErr, OnOk};
    ghost use Rattle.htl_analyst.specs.Restored.{fold_of, of_folds, CanRestore, RestoreRefused};
    ghost use Rattle.htl_analyst.specs.Right.{IsState};

    /// The analyst that has folded this of each processor, and holds nothing. Segments that were
    /// held are taken after it.
    pub fn of_parts(
        alloc: A,
        trace_id: u64,
        parts: Vec<FoldedPart<A>>,
    ) -> Result<Analyst<A>, RestoreFault>
        ensures state { IfOk result (λ a. a ≡ of_folds trace_id (map fold_of parts.items)) }
        // What every analyst's state is, so that callers have it too.
        ensures is_state { IfOk result (λ a. IsState a) }
        ensures accepted { OnOk result (CanRestore (map fold_of parts.items)) }
        ensures refused { IfErr result (λ fault.
            RestoreRefused (map fold_of parts.items) fault) }
    {
        check_parts(&parts)?;
        let analyst = Analyst::of_bounded(alloc, trace_id, parts)?;
        Ok(analyst)
    }

    /// The analyst of parts that were checked.
    fn of_bounded(
        alloc: A,
        trace_id: u64,
        parts: Vec<FoldedPart<A>>,
    ) -> Result<Analyst<A>, NoMemory>
        requires { CanRestore (map fold_of parts.items) }
        ensures state { IfOk result (λ a. a ≡ of_folds trace_id (map fold_of parts.items)) }
        ensures is_state { IfOk result (λ a. IsState a) }
    {
        let fronts = fronts_of(alloc.clone()?, &parts)?;
        let taken = Taken::of_fronts(alloc.clone()?, &fronts)?;
        let processors = taken.processors();
        let kept = parts_of(alloc, parts)?;
        Ok(Analyst {
            trace_id,
            processors,
            taken,
            parts: kept,
        })
    }
}

impl<A: Allocator> FoldedPart<A> {
    ghost use Rattle.std.specs.Prelude.{◌≡◌, IfErr, OnOk};
    ghost use Rattle.htl_analyst.specs.Restored.{fold_of, IsBounded, IsOver};

    /// Whether the segments below the front can have so many counts and events.
    fn check(&self, processor: u16) -> Result<(), RestoreFault>
        ensures bounded { OnOk result (IsBounded (fold_of self.now)) }
        ensures over { IfErr result (λ fault. IsOver (fold_of self.now) processor fault) }
    {
        let most = MAX_EVENTS * u64::from(self.front);
        if self.tree.total() > most {
            return Err(RestoreFault::Counts(processor));
        }
        if self.events > most {
            return Err(RestoreFault::Events(processor));
        }
        Ok(())
    }
}

ghost use Rattle.std.specs.Prelude.{◌≡◌, ◌≤◌, ◌<◌, ◌⊎◌, map, IfOk, IfErr, OnOk};
ghost use Rattle.htl_analyst.specs.Restored.{fold_of, front_of, part_of};
ghost use Rattle.htl_analyst.specs.Restored.{CanRestore, RestoreRefused};
ghost use Rattle.htl_analyst.specs.declared.fault.RestoreFault.TheVariants as faults;

/// Whether there is an analyst of the parts.
fn check_parts<A: Allocator>(parts: &[FoldedPart<A>]) -> Result<(), RestoreFault>
    ensures accepted { OnOk result (CanRestore (map fold_of parts.now)) }
    ensures refused { IfErr result (λ fault. RestoreRefused (map fold_of parts.now) fault) }
{
    check_number(parts.len())?;
    for (processor, part) in parts.iter().enumerate() {
        part.check(processor as u16)?;
    }
    Ok(())
}

/// Whether a trace may have so many processors.
fn check_number(processors: usize) -> Result<(), RestoreFault>
    ensures ok { OnOk result ((0 < processors) × (processors ≤ 256)) }
    ensures err { IfErr result (λ fault. (fault ≡ faults.Processors)
        × ((processors ≡ 0) ⊎ (256 < processors))) }
{
    if processors == 0 || processors > usize::from(MAX_PROCESSORS) {
        return Err(RestoreFault::Processors);
    }
    Ok(())
}

/// The front of each part.
fn fronts_of<A: Allocator + Clone>(
    alloc: A,
    parts: &[FoldedPart<A>],
) -> Result<Vec<u32, A>, NoMemory>
    ensures { IfOk result (λ fronts. fronts.items ≡ map front_of parts.now) }
{
    let mut fronts = Vec::with_capacity(alloc, parts.len())?;
    for part in parts {
        fronts.push(part.front)?;
    }
    Ok(fronts)
}

/// Parts that hold nothing, and have folded this.
fn parts_of<A: Allocator + Clone>(
    alloc: A,
    folds: Vec<FoldedPart<A>>,
) -> Result<Vec<Part<A>, A>, NoMemory>
    ensures { IfOk result (λ parts. parts.items ≡ map part_of folds.items) }
{
    let mut parts = Vec::with_capacity(alloc.clone()?, folds.len())?;
    for fold in folds {
        parts.push(Part::of_fold(alloc.clone()?, fold))?;
    }
    Ok(parts)
}

impl<A: Allocator> Part<A> {
    ghost use Rattle.std.specs.Prelude.{◌≡◌};
    ghost use Rattle.htl_analyst.specs.Restored.{part_of};

    /// A part that holds nothing, and has folded this.
    fn of_fold(alloc: A, fold: FoldedPart<A>) -> Part<A>
        ensures { result ≡ part_of fold }
    {
        Part {
            held: Vec::new(alloc),
            folded: Folded {
                tree: fold.tree,
                latest: fold.latest,
                marks: fold.marks,
                exits: fold.exits,
                last_sequence: fold.last_sequence,
                events: fold.events,
            },
        }
    }
}
