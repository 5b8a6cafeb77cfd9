//! Merging: an analyst takes over what another one knows.
ghost use Rattle.std.specs.Prelude.{◌≡◌, ℕ, ◌<◌, ◌≤◌, length, nat_lt, if◌then◌else◌};
ghost use Rattle.htl_taken.specs.Numbers.{front_at};
ghost use Rattle.htl_analyst.specs.States.{part, part_at, held_at, folded_at};

use crate::analyst::Analyst;
use crate::fault::MergeFault;
use crate::part::Part;
use htl_event::NoMemory;
use htl_taken::Taken;
use std::alloc::Allocator;

impl<A: Allocator + Clone> Analyst<A> {
    ghost use Rattle.std.specs.Prelude.{◌≡◌, ◌<◌, IfOk, IfErr};
    ghost use Rattle.htl_taken.specs.Numbers.{front_at};
    ghost use Rattle.htl_analyst.specs.States.{folded_at};
    ghost use Rattle.htl_analyst.specs.Calls.{Merges, without_return};
    ghost use Rattle.htl_analyst.specs.StepParts.{AreGreaterOf};

    /// Takes in all that the other analyst has taken. What that one has folded further is copied,
    /// and the segments that it holds are shared. All allocations come before the first change.
    pub fn merge(&mut self, other: &Analyst<A>) -> Result<(), MergeFault>
        ensures { Merges self.old other.now self.new result }
    {
        let (taken, mut incoming) = self.union_of(other)?;
        let mut theirs = self.greater_of(other)?;
        unite(
            &mut self.parts,
            &mut theirs,
            &mut incoming,
            &self.taken,
            &other.taken,
            self.processors,
        );
        self.taken = taken;
        self.parts = incoming;
        Ok(())
    }

    /// Takes in all that the other analyst has taken, as `merge` does. What that one has folded is
    /// moved. A refusal hands the other back.
    pub fn absorb(&mut self, other: Analyst<A>) -> Result<(), (MergeFault, Analyst<A>)>
        ensures merges { Merges self.old other self.new (without_return result) }
        ensures back { IfErr result (λ e. e.1 ≡ other) }
    {
        match self.union_of(&other) {
            Err(fault) => Err((fault, other)),
            Ok((taken, mut incoming)) => {
                let their_taken = other.taken;
                let mut theirs = other.parts;
                unite(
                    &mut self.parts,
                    &mut theirs,
                    &mut incoming,
                    &self.taken,
                    &their_taken,
                    self.processors,
                );
                self.taken = taken;
                self.parts = incoming;
                Ok(())
            }
        }
    }

    /// Parts with copies of what the other has folded where its front is greater.
    fn greater_of(&self, other: &Analyst<A>) -> Result<Vec<Part<A>, A>, NoMemory>
        requires { self.now.processors ≡ other.now.processors }
        ensures { IfOk result (λ parts.
            AreGreaterOf self.now other.now parts.items self.now.processors) }
    {
        let alloc = self.parts.allocator().clone()?;
        let mut parts = Vec::with_capacity(alloc, self.parts.len())?;
        for processor in 0..self.processors {
            parts.push(self.greater_at(other, processor)?)?;
        }
        Ok(parts)
    }

    /// A part of one processor with a copy of what the other has folded, if the other's front is
    /// greater.
    fn greater_at(&self, other: &Analyst<A>, processor: u16) -> Result<Part<A>, NoMemory>
        requires here { processor < self.now.processors }
        requires there { processor < other.now.processors }
        ensures { IfOk result (λ part.
            front_at self.now.taken processor < front_at other.now.taken processor
            → part.folded ≡ folded_at other.now.parts processor) }
    {
        let alloc = self.parts.allocator().clone()?;
        if self.front(processor) < other.front(processor) {
            let folded = other.part(processor).folded().copy()?;
            return Ok(Part {
                held: Vec::new(alloc),
                folded,
            });
        }
        let part = Part::new(alloc)?;
        Ok(part)
    }
}

/// Puts what was folded of each processor into the incoming parts: theirs where their front is
/// greater.
fn unite<A: Allocator>(
    own: &mut Vec<Part<A>, A>,
    theirs: &mut Vec<Part<A>, A>,
    incoming: &mut Vec<Part<A>, A>,
    own_taken: &Taken<A>,
    their_taken: &Taken<A>,
    processors: u16,
)
    requires own { processors ≤ length own.old.items }
    requires theirs { processors ≤ length theirs.old.items }
    requires incoming { processors ≤ length incoming.old.items }
    ensures len { length incoming.new.items ≡ length incoming.old.items }
    ensures parts { (p : ℕ) → p < processors → part_at incoming.new.items p
        ≡ part (held_at incoming.old.items p)
        (if nat_lt (front_at own_taken.now p) (front_at their_taken.now p)
        then folded_at theirs.old.items p else folded_at own.old.items p) }
{
    for processor in 0..processors {
        let place = usize::from(processor);
        unite_at(
            &mut own[place],
            &mut theirs[place],
            &mut incoming[place],
            own_taken.front(processor) < their_taken.front(processor),
        );
    }
}

/// Moves what one side has folded into the incoming part. That side gets what the part had folded.
fn unite_at<A: Allocator>(
    own: &mut Part<A>,
    theirs: &mut Part<A>,
    incoming: &mut Part<A>,
    theirs_is_greater: bool,
)
    ensures { incoming.new ≡ part incoming.old.held
        (if theirs_is_greater then theirs.old.folded else own.old.folded) }
{
    if theirs_is_greater {
        incoming.swap_folded(theirs);
    } else {
        incoming.swap_folded(own);
    }
}
