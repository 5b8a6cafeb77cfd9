//! Events that weren't folded, as a part from which `htl_answers` answers.

use htl_answers::Part;
use htl_event::{EventList, NoMemory, number_of_events};
use htl_tables::{Exits, Latest, Marks};
use htl_tree::StackTree;
use std::alloc::Global;

/// Lists of events that stay where they lie, beside an empty tree and empty tables.
#[derive(Drop)]
pub struct Unfolded<'a, E> {
    tree: StackTree<Global>,
    latest: Latest<Global>,
    marks: Marks<Global>,
    exits: Exits<Global>,
    held: &'a [E],
}

impl<'a, E: EventList> Unfolded<'a, E> {
    ghost use Rattle.std.specs.Prelude.{◌≡◌, ◌<◌, ◌^◌, flat_map, length, IfOk, OnOk};
    ghost use Rattle.htl_evidence.specs.Kept.{unfolded};

    /// A part of these lists. It allocates nothing.
    pub(crate) fn new(alloc: Global, held: &'a [E]) -> Unfolded<'a, E>
        ensures { ⟦<Unfolded<'a, E> as Part>⟧.contents result
            ≡ unfolded (flat_map E.events_of held.now) }
    {
        Unfolded {
            tree: StackTree::new(alloc),
            latest: Latest::new(alloc),
            marks: Marks::new(alloc),
            exits: Exits::new(alloc),
            held,
        }
    }

    /// How many events there are. More than a `u64` can count would fit in no memory.
    pub(crate) fn number(&self) -> Result<u64, NoMemory>
        ensures value { IfOk result (λ number. number
            ≡ length (⟦<Unfolded<'a, E> as Part>⟧.contents self.now).held) }
        ensures few { OnOk result
            (length (⟦<Unfolded<'a, E> as Part>⟧.contents self.now).held < 2 ^ 64) }
    {
        match number_of_events(self.held) {
            Some(number) => Ok(number as u64),
            None => Err(NoMemory),
        }
    }
}

impl<'a, E: EventList> Part for Unfolded<'a, E> {
    ghost use Rattle.std.specs.Prelude.{flat_map};
    ghost use Rattle.htl_evidence.specs.Kept.{contents_of};

    type Held = E;

    type Alloc = Global;

    ghost contents = { λ part. contents_of part.tree part.latest part.marks part.exits
        (flat_map E.events_of part.held.now) };

    fn tree(&self) -> &StackTree<Global> {
        &self.tree
    }

    fn latest(&self) -> &Latest<Global> {
        &self.latest
    }

    fn marks(&self) -> &Marks<Global> {
        &self.marks
    }

    fn exits(&self) -> &Exits<Global> {
        &self.exits
    }

    fn held(&self) -> &[E] {
        self.held
    }
}
