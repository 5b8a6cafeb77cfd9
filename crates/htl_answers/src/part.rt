//! Parts: the answers are made of them.

ghost use Rattle.std.specs.Prelude.{◌≡◌, flat_map};

use htl_event::EventList;
use htl_tables::{Exits, Latest, Marks};
use htl_tree::StackTree;
use std::alloc::Allocator;

/// A part of what is known: tables and a tree of the events that were folded, and the lists of events
/// that were not folded yet.
pub trait Part {
    ghost use Rattle.htl_answers.specs.Parts.{Contents};

    /// A list of events that were not folded yet.
    type Held: EventList;

    /// What gives the tables and the tree their memory.
    type Alloc: Allocator + Clone;

    ghost contents: { Self → Contents };

    /// How often each slot came with each stack, among the folded events.
    fn tree(&self) -> &StackTree<Self::Alloc>
        ensures { result.now ≡ (contents self.now).tree };

    /// The latest folded event of each handle.
    fn latest(&self) -> &Latest<Self::Alloc>
        ensures { result.now ≡ (contents self.now).latest };

    /// The mark of each process, of the folded events.
    fn marks(&self) -> &Marks<Self::Alloc>
        ensures { result.now ≡ (contents self.now).marks };

    /// The last exit of each process, of the folded events.
    fn exits(&self) -> &Exits<Self::Alloc>
        ensures { result.now ≡ (contents self.now).exits };

    /// The lists that were not folded yet.
    fn held(&self) -> &[Self::Held]
        ensures { flat_map Self.Held.events_of result.now ≡ (contents self.now).held };
}
