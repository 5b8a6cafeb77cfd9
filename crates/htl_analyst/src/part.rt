//! Parts: what an analyst keeps of one processor.
use crate::folded::{Folded, events_in};
use htl_event::NoMemory;
use htl_segment::{Segment, copies};
use std::alloc::Allocator;
use std::marker::Model;
use std::mem;

/// The segments that wait for others with lower numbers, and the fold of all segments below the
/// front. It is a `htl_answers::Part`: questions are answered over the parts of all processors.
#[derive(Drop)]
pub struct Part<A: Allocator> {
    pub(crate) held: Vec<Segment, A>,
    pub(crate) folded: Folded<A>,
}

impl<A: Allocator> Model for Part<A> {
    ghost use Rattle.htl_analyst.specs.States.{Part, part};

    ghost Value = { Part };

    ghost view = { λ k. part k.held.items k.folded };
}

impl<A: Allocator> Part<A> {
    ghost use Rattle.std.specs.Prelude.{◌≡◌, ◌↔◌, ◌<◌, ◌^◌, IsTrue};
    ghost use Rattle.htl_analyst.specs.States.{part};
    ghost use Rattle.htl_analyst.specs.TakenEvents.{events_kept};
    ghost use Rattle.htl_analyst.specs.Same.{IsSamePart};

    /// The held segments, in rising order of their numbers.
    pub fn held(&self) -> &[Segment]
        ensures { result.now ≡ self.now.held }
    {
        self.held.as_slice()
    }

    /// The number of events that were folded: those of the segments below the front.
    pub fn number_folded(&self) -> u64
        ensures { result ≡ self.now.folded.events }
    {
        self.folded.events()
    }

    /// The fold of the segments below the front.
    pub(crate) fn folded(&self) -> &Folded<A>
        ensures { result.now ≡ self.now.folded }
    {
        &self.folded
    }

    /// The number of events that were folded, and of those that are held.
    pub(crate) fn events(&self) -> u64
        requires { events_kept self.now < 2 ^ 64 }
        ensures { result ≡ events_kept self.now }
    {
        self.folded.events() + events_in(&self.held)
    }

    /// Exchanges the folds of two parts. Each keeps its held segments.
    pub(crate) fn swap_folded(&mut self, other: &mut Part<A>)
        ensures own { self.new ≡ part self.old.held other.old.folded }
        ensures others { other.new ≡ part other.old.held self.old.folded }
    {
        mem::swap(&mut self.folded, &mut other.folded);
    }

    /// Whether both hold the same segments and have folded the same.
    pub(crate) fn same(&self, other: &Part<A>) -> bool
        ensures { IsTrue result ↔ IsSamePart self.now other.now }
    {
        if !are_same(self.held(), other.held()) {
            return false;
        }
        self.folded.same(&other.folded)
    }
}

impl<A: Allocator + Clone> Part<A> {
    ghost use Rattle.std.specs.Prelude.{◌≡◌, IfOk};
    ghost use Rattle.htl_analyst.specs.States.{no_part};

    /// An empty part.
    pub(crate) fn new(alloc: A) -> Result<Part<A>, NoMemory>
        ensures { IfOk result (λ part. part ≡ no_part) }
    {
        Ok(Part {
            held: Vec::new(alloc.clone()?),
            folded: Folded::new(alloc)?,
        })
    }

    /// An equal part, under clones of the allocator. The held segments are shared.
    pub(crate) fn copy(&self) -> Result<Part<A>, NoMemory>
        ensures { IfOk result (λ copy. copy ≡ self.now) }
    {
        Ok(Part {
            held: copies(self.held.allocator().clone()?, &self.held)?,
            folded: self.folded.copy()?,
        })
    }
}

ghost use Rattle.std.specs.Prelude.{◌≡◌, ◌↔◌, IsTrue};

/// Whether the lists have the same segments.
fn are_same(segments: &[Segment], others: &[Segment]) -> bool
    ensures { IsTrue result ↔ (segments.now ≡ others.now) }
{
    if segments.len() != others.len() {
        return false;
    }
    for (place, segment) in segments.iter().enumerate() {
        if !segment.same(&others[place]) {
            return false;
        }
    }
    true
}
