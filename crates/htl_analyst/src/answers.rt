//! Answers: those of `htl_answers` over the parts of all processors. They are the definitions'
//! answers over the events of the taken keys.
use crate::analyst::Analyst;
use crate::part::Part;
use htl_answers as answers;
use htl_event::{Count, NoMemory, SharedEvent, SharedStack, Slot};
use htl_segment::Segment;
use htl_tables::{Exits, Latest, Marks};
use htl_tree::StackTree;
use std::alloc::{Allocator, Global};

impl<A: Allocator + Clone> answers::Part for Part<A> {
    ghost use Rattle.htl_analyst.specs.TakenEvents.{contents_of};

    type Held = Segment;

    type Alloc = A;

    ghost contents = { contents_of };

    fn tree(&self) -> &StackTree<A> {
        self.folded().tree()
    }

    fn latest(&self) -> &Latest<A> {
        self.folded().latest()
    }

    fn marks(&self) -> &Marks<A> {
        self.folded().marks()
    }

    fn exits(&self) -> &Exits<A> {
        self.folded().exits()
    }

    fn held(&self) -> &[Segment] {
        Part::held(self)
    }
}

impl<A: Allocator + Clone> Analyst<A> {
    ghost use Rattle.std.specs.Prelude.{◌≡◌, Contains, IfOk};
    ghost use Rattle.std.specs.Option.{option_copied};
    ghost use Rattle.htl_event.specs.Slots.{base_of};
    ghost use Rattle.htl_event.specs.Handles.{LatestIs, IsMark, IsOutstanding, IsDiff};
    ghost use Rattle.htl_event.specs.Tallies.{under, IsTags, IsBad, IsLeaks, IsStacks};
    ghost use Rattle.htl_tree.specs.Trees.{HasTally};
    ghost use Rattle.htl_segment.specs.Traces.{Trace, IsTrace};
    ghost use Rattle.htl_analyst.specs.Right.{IsRight};
    ghost use Rattle.htl_analyst.specs.TakenEvents.{taken_events};

    /// The latest open or close of the handle's base in the process.
    pub fn latest(&self, process: u32, handle: u32) -> Option<&SharedEvent>
        ensures { (T : Trace) → IsRight self.now T
            → LatestIs (Contains (taken_events T self.now)) process (base_of handle)
            (option_copied result) }
    {
        answers::latest(&self.parts, process, handle)
    }

    /// The mark of the process: the sequence of its latest snapshot, or 0 where it has none.
    pub fn mark(&self, process: u32) -> u64
        ensures { (T : Trace) → IsRight self.now T
            → IsMark (Contains (taken_events T self.now)) process result }
    {
        answers::mark(&self.parts, process)
    }

    /// How often the slot came with a stack that begins with the path, read from the outermost
    /// frame.
    pub fn under(&self, path: &[u64], slot: Slot) -> Count
        ensures { (T : Trace) → IsRight self.now T
            → result ≡ under (taken_events T self.now) path.now slot }
    {
        answers::under(&self.parts, path, slot)
    }

    /// The outstanding handles of the process: the events that opened them, by base handle.
    pub fn outstanding(&self, alloc: Global, process: u32) -> Result<Vec<SharedEvent>, NoMemory>
        ensures { IfOk result (λ rows. (T : Trace) → IsTrace T → IsRight self.now T
            → IsOutstanding (Contains (taken_events T self.now)) process rows.items) }
    {
        let rows = answers::outstanding(alloc, &self.parts, process)?;
        Ok(rows)
    }

    /// The outstanding handles of the process that were opened after a moment.
    pub fn diff(
        &self,
        alloc: Global,
        process: u32,
        since: u64,
    ) -> Result<Vec<SharedEvent>, NoMemory>
        ensures { IfOk result (λ rows. (T : Trace) → IsTrace T → IsRight self.now T
            → IsDiff (Contains (taken_events T self.now)) process since rows.items) }
    {
        let rows = answers::diff(alloc, &self.parts, process, since)?;
        Ok(rows)
    }

    /// Each tag with a reference or a dereference of the object, with their numbers, by the tag's
    /// bytes.
    pub fn tags(&self, alloc: Global, object: u64) -> Result<Vec<([u8; 4], Count)>, NoMemory>
        ensures { IfOk result (λ rows. (T : Trace) → IsRight self.now T
            → IsTags (taken_events T self.now) object rows.items) }
    {
        let rows = answers::tags(alloc, &self.parts, object)?;
        Ok(rows)
    }

    /// Each handle as written and each stack with a bad reference of the process, and how often it
    /// came, by handle and then in stack order.
    pub fn bad(&self, alloc: Global, process: u32) -> Result<Vec<(u32, SharedStack, u64)>, NoMemory>
        ensures { IfOk result (λ rows. (T : Trace) → IsRight self.now T
            → IsBad (taken_events T self.now) process rows.items) }
    {
        let rows = answers::bad(alloc, &self.parts, process)?;
        Ok(rows)
    }

    /// The stacks that opened outstanding handles of the process, each with their number, the
    /// greatest number first and then in stack order.
    pub fn leaks(&self, alloc: Global, process: u32) -> Result<Vec<(SharedStack, u64)>, NoMemory>
        ensures { IfOk result (λ rows. (T : Trace) → IsTrace T → IsRight self.now T
            → IsLeaks (Contains (taken_events T self.now)) process rows.items) }
    {
        let rows = answers::leaks(alloc, &self.parts, process, None, 1)?;
        Ok(rows)
    }

    /// The stacks with a reference or a dereference of the object under the tag, each with its
    /// tally, in stack order.
    pub fn stacks(
        &self,
        alloc: Global,
        object: u64,
        tag: [u8; 4],
    ) -> Result<Vec<(SharedStack, Count)>, NoMemory>
        ensures { IfOk result (λ rows. (T : Trace) → IsRight self.now T
            → IsStacks (taken_events T self.now) object tag rows.items) }
    {
        let rows = answers::stacks(alloc, &self.parts, object, tag)?;
        Ok(rows)
    }

    /// How often each slot came with each stack, under a clone of the allocator.
    pub fn whole_tree(&self) -> Result<StackTree<A>, NoMemory>
        ensures { IfOk result (λ tree. (T : Trace) → IsRight self.now T
            → HasTally tree (taken_events T self.now)) }
    {
        let tree = answers::whole_tree(self.parts.allocator(), &self.parts)?;
        Ok(tree)
    }
}
