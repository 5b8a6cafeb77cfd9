//! The fold of one processor's segments: what is left of their events.

use htl_event::{NoMemory, number_of_events};
use htl_segment::{Segment, greatest_sequence};
use htl_tables::{Exits, Latest, Marks};
use htl_tree::StackTree;
use std::alloc::Allocator;
use std::marker::Model;
use std::mem;

/// Counts by stack, the latest event of each handle, the mark and the last exit of each process,
/// the greatest sequence, and the number of events.
#[derive(Drop)]
pub(crate) struct Folded<A: Allocator> {
    pub(crate) tree: StackTree<A>,
    pub(crate) latest: Latest<A>,
    pub(crate) marks: Marks<A>,
    pub(crate) exits: Exits<A>,
    pub(crate) last_sequence: u64,
    pub(crate) events: u64,
}

impl<A: Allocator> Model for Folded<A> {
    ghost use Rattle.htl_analyst.specs.States.{Folded, folded};

    ghost Value = { Folded };

    ghost view = { λ f. folded f.tree f.latest f.marks f.exits f.last_sequence f.events };
}

impl<A: Allocator> Folded<A> {
    ghost use Rattle.std.specs.Prelude.{◌≡◌, ◌↔◌, IsTrue};
    ghost use Rattle.htl_analyst.specs.Same.{IsSameFolded};

    /// The counts of the folded events, by stack.
    pub fn tree(&self) -> &StackTree<A>
        ensures { result.now ≡ self.now.tree }
    {
        &self.tree
    }

    /// The latest folded open or close of each handle.
    pub fn latest(&self) -> &Latest<A>
        ensures { result.now ≡ self.now.latest }
    {
        &self.latest
    }

    /// The snapshot mark of each process, of the folded events.
    pub fn marks(&self) -> &Marks<A>
        ensures { result.now ≡ self.now.marks }
    {
        &self.marks
    }

    /// The last exit of each process, of the folded events.
    pub fn exits(&self) -> &Exits<A>
        ensures { result.now ≡ self.now.exits }
    {
        &self.exits
    }

    /// The greatest folded sequence, or 0 where no event was folded.
    pub fn last_sequence(&self) -> u64
        ensures { result ≡ self.now.last_sequence }
    {
        self.last_sequence
    }

    /// The number of folded events.
    pub fn events(&self) -> u64
        ensures { result ≡ self.now.events }
    {
        self.events
    }

    /// Whether both have the same counts, tables and sequence.
    pub fn same(&self, other: &Folded<A>) -> bool
        ensures { IsTrue result ↔ IsSameFolded self.now other.now }
    {
        if self.last_sequence != other.last_sequence {
            return false;
        }
        if self.events != other.events {
            return false;
        }
        if !self.tree.same(&other.tree) {
            return false;
        }
        if !self.latest.same(&other.latest) {
            return false;
        }
        if !self.marks.same(&other.marks) {
            return false;
        }
        self.exits.same(&other.exits)
    }
}

impl<A: Allocator + Clone> Folded<A> {
    ghost use Rattle.std.specs.Prelude.{◌≡◌, ◌++◌, ◌<◌, ◌+◌, ◌^◌, ℕ, List, length};
    ghost use Rattle.std.specs.Prelude.{IfOk, OnOk, OnErr};
    ghost use Rattle.htl_event.specs.Events.{Event};
    ghost use Rattle.htl_segment.specs.Traces.{all_events};
    ghost use Rattle.htl_tree.specs.Trees.{total_count};
    ghost use Rattle.htl_analyst.specs.States.{no_folded};
    ghost use Rattle.htl_analyst.specs.Right.{IsFolded, IsWithin};

    /// A fold of no events.
    pub fn new(alloc: A) -> Result<Folded<A>, NoMemory>
        ensures { IfOk result (λ f. f ≡ no_folded) }
    {
        Ok(Folded {
            tree: StackTree::new(alloc.clone()?),
            latest: Latest::new(alloc.clone()?),
            marks: Marks::new(alloc.clone()?),
            exits: Exits::new(alloc),
            last_sequence: 0,
            events: 0,
        })
    }

    /// Folds the segments' events too. Where memory is refused, the fold stays as it was. The tree
    /// counts them last: nothing can be refused after that.
    pub fn fold(&mut self, alloc: A, segments: &[Segment]) -> Result<(), NoMemory>
        requires counts { total_count self.old.tree + length (all_events segments.now) < 2 ^ 64 }
        requires events { self.old.events + length (all_events segments.now) < 2 ^ 64 }
        ensures folded { OnOk result ((events : List Event) → IsFolded self.old events
            → IsFolded self.new (events ++ all_events segments.now)) }
        ensures bounded { OnOk result ((most : ℕ) → IsWithin most self.old
            → IsWithin (most + length (all_events segments.now)) self.new) }
        ensures err { OnErr result (self.new ≡ self.old) }
    {
        let newer = Latest::of(alloc.clone()?, segments)?;
        let marks = self.marks.join(&Marks::of(alloc.clone()?, segments)?)?;
        let exits = self.exits.join(&Exits::of(alloc.clone()?, segments)?)?;
        let older = mem::replace(&mut self.latest, Latest::new(alloc));
        let joining = match older.prepare(newer) {
            Ok(joining) => joining,
            Err(latest) => {
                self.latest = latest;
                return Err(NoMemory);
            }
        };
        if let Err(refused) = self.tree.count(segments) {
            self.latest = joining.back();
            return Err(refused);
        }
        self.latest = joining.join();
        self.marks = marks;
        self.exits = exits;
        self.last_sequence = self.last_sequence.max(greatest_sequence(segments));
        self.events += events_in(segments);
        Ok(())
    }

    /// An equal value, under clones of the allocator.
    pub fn copy(&self) -> Result<Folded<A>, NoMemory>
        ensures { IfOk result (λ copy. copy ≡ self.now) }
    {
        Ok(Folded {
            tree: self.tree.copy()?,
            latest: self.latest.copy()?,
            marks: self.marks.copy()?,
            exits: self.exits.copy()?,
            last_sequence: self.last_sequence,
            events: self.events,
        })
    }
}

ghost use Rattle.std.specs.Prelude.{◌≡◌, ◌<◌, ◌^◌, length};
ghost use Rattle.htl_segment.specs.Traces.{all_events};

/// The number of the segments' events.
pub(crate) fn events_in(segments: &[Segment]) -> u64
    requires { length (all_events segments.now) < 2 ^ 64 }
    ensures { result ≡ length (all_events segments.now) }
{
    match number_of_events(segments) {
        Some(events) => events as u64,
        None => unreachable!(),
    }
}
