//! The summary of the taken segments: processes, objects and gaps.
use crate::analyst::Analyst;
use htl_event::{NoMemory, ProcessRow};
use htl_summary::Objects;
use htl_taken::Gap;
use std::alloc::{Allocator, Global};

impl<A: Allocator> Analyst<A> {
    ghost use Rattle.std.specs.Prelude.{IfOk};
    ghost use Rattle.htl_taken.specs.Gaps.{IsGaps};
    ghost use Rattle.htl_analyst.specs.Keys.{HasTaken};

    /// The gaps, by processor: each longest unbroken run of numbers that weren't taken, below one that
    /// was. Of a processor none of whose segments was taken, that is stated instead.
    pub fn gaps(&self, alloc: Global) -> Result<Vec<Gap>, NoMemory>
        ensures { IfOk result (λ gaps. IsGaps (HasTaken self.now) self.now.processors gaps.items) }
    {
        let gaps = self.taken.gaps(alloc)?;
        Ok(gaps)
    }
}

impl<A: Allocator + Clone> Analyst<A> {
    ghost use Rattle.std.specs.Prelude.{IfOk};
    ghost use Rattle.htl_event.specs.Summaries.{IsProcesses, IsUnbalanced, IsNumberOfObjects};
    ghost use Rattle.htl_segment.specs.Traces.{Trace, IsTrace};
    ghost use Rattle.htl_analyst.specs.Right.{IsRight};
    ghost use Rattle.htl_analyst.specs.TakenEvents.{taken_events};

    /// Each process with an open, a close or a bad reference, the most outstanding handles first
    /// and then by process.
    pub fn processes(&self, alloc: Global) -> Result<Vec<ProcessRow>, NoMemory>
        ensures { IfOk result (λ rows. (T : Trace) → IsTrace T → IsRight self.now T
            → IsProcesses (taken_events T self.now) rows.items) }
    {
        let rows = htl_summary::processes(alloc, self.parts.allocator(), &self.parts)?;
        Ok(rows)
    }

    /// The number of objects that were referenced or dereferenced, and the objects with an unbalanced
    /// tag, those with the most unbalanced tags first and then by object.
    pub fn objects(&self, alloc: Global) -> Result<Objects, NoMemory>
        ensures number { IfOk result (λ objects. (T : Trace) → IsRight self.now T
            → IsNumberOfObjects (taken_events T self.now) objects.number) }
        ensures unbalanced { IfOk result (λ objects. (T : Trace) → IsRight self.now T
            → IsUnbalanced (taken_events T self.now) objects.unbalanced.items) }
    {
        let objects = htl_summary::balances(alloc, &self.parts)?;
        Ok(objects)
    }
}
