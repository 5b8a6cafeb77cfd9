//! The gaps of taken segments.

ghost use Rattle.std.specs.Prelude.{◌≡◌, ◌++◌, OnOk};
ghost use Rattle.htl_taken.specs.Rising.{Rises};
ghost use Rattle.htl_taken.specs.GapLists.{gaps_from, gaps_of};

use crate::MAX_FRONT;
use crate::gap::Gap;
use crate::taken::Taken;
use htl_event::NoMemory;
use std::alloc::{Allocator, Global};

impl<A: Allocator> Taken<A> {
    ghost use Rattle.std.specs.Prelude.{◌≡◌, true, length, IfOk};
    ghost use Rattle.htl_taken.specs.Numbers.{has_key};
    ghost use Rattle.htl_taken.specs.Gaps.{IsGaps};

    /// The gaps of all processors, by processor and then by number: each longest unbroken run of
    /// missing numbers below one that was taken, and each processor of which none was.
    pub fn gaps(&self, alloc: Global) -> Result<Vec<Gap>, NoMemory>
        ensures { IfOk result (λ gaps.
            IsGaps (λ p n. has_key self.now p n ≡ true) (length self.now) gaps.items) }
    {
        let mut gaps = Vec::new(alloc);
        for processor in 0..self.processors() {
            add_gaps(
                &mut gaps,
                processor,
                self.front(processor),
                self.loose(processor),
            )?;
        }
        Ok(gaps)
    }
}

/// Adds the gaps of a processor.
fn add_gaps(gaps: &mut Vec<Gap>, processor: u16, front: u32, loose: &[u32]) -> Result<(), NoMemory>
    requires { Rises front MAX_FRONT loose.now }
    ensures { OnOk result (gaps.new.items ≡ gaps.old.items ++ gaps_of processor front loose.now) }
{
    if front == 0 && loose.is_empty() {
        gaps.push(Gap::Absent { processor })?;
        return Ok(());
    }
    add_runs(gaps, processor, front, loose)
}

/// Adds the runs of missing numbers before each of the loose ones.
#[tactic(auto, using(crate::proofs::Rising::next_below))]
fn add_runs(gaps: &mut Vec<Gap>, processor: u16, front: u32, loose: &[u32]) -> Result<(), NoMemory>
    requires { Rises front MAX_FRONT loose.now }
    ensures { OnOk result (gaps.new.items ≡ gaps.old.items ++ gaps_from processor front loose.now) }
{
    let mut least = front;
    for number in loose {
        if least < *number {
            let to = *number - 1;
            gaps.push(Gap::Between {
                processor,
                from: least,
                to,
            })?;
        }
        least = *number + 1;
    }
    Ok(())
}
