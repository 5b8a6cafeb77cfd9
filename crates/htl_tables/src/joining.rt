//! A join of two tables in two steps: first its memory is asked for, and then nothing can be
//! refused.

use crate::by_handle::ByHandle;
use crate::latest::Latest;
use crate::placing::Placing;
use htl_event::SharedEvent;
use htl_sorted::Keyed;
use std::alloc::Allocator;
use std::marker::Model;

/// A table that is about to be joined with a newer one. All memory that this takes is there.
#[derive(Drop)]
pub struct Joining<A: Allocator> {
    /// The rows of the older table. Behind them is a place for each newer row whose handle none of
    /// them has. Until the join any event stands there.
    rows: Vec<SharedEvent, A>,
    /// The number of rows of the older table.
    count: usize,
    /// The rows of the newer table.
    newer: Vec<SharedEvent, A>,
}

impl<A: Allocator> Model for Joining<A> {
    ghost use Rattle.std.specs.Prelude.{take};
    ghost use Rattle.htl_tables.specs.Latest.{Joining, joining};
    ghost use Rattle.htl_tables.specs.Placing.{HasRoom};

    ghost Value = { Joining };

    ghost view = { λ j. joining (take j.count j.rows.items) j.newer.items };

    ghost invariant = { λ j. HasRoom j.rows.items j.count j.newer.items };
}

impl<A: Allocator> Joining<A> {
    ghost use Rattle.std.specs.Prelude.{◌≡◌, ℕ, take};
    ghost use Rattle.htl_event.specs.Handles.{later};
    ghost use Rattle.htl_tables.specs.Latest.{event_at};
    ghost use Rattle.htl_tables.specs.Placing.{HasRoom};

    /// The first of the rows are those of the older table, as many as `count` says. Behind them is a
    /// place for each of the newer table's rows whose handle they lack.
    pub(crate) fn new(
        rows: Vec<SharedEvent, A>,
        count: usize,
        newer: Vec<SharedEvent, A>,
    ) -> Joining<A>
        requires { HasRoom rows.items count newer.items }
        ensures older { result.older ≡ take count rows.items }
        ensures newer { result.newer ≡ newer.items }
    {
        Joining { rows, count, newer }
    }

    /// The table of both: each handle has the later of its events, or that of the older table where
    /// their sequences are equal.
    pub fn join(self) -> Latest<A>
        ensures { (process base : ℕ) → event_at result process base
            ≡ later (event_at self.older process base) (event_at self.newer process base) }
    {
        let mut placing = Placing::new(self.rows, self.count);
        let mut newer = self.newer;
        while let Some(event) = newer.pop() {
            placing.move_above(ByHandle::key(&event));
            placing.place(event);
        }
        Latest {
            rows: placing.into_rows(),
        }
    }

    /// The older table as it was.
    pub fn back(self) -> Latest<A>
        ensures { result ≡ self.older }
    {
        let mut rows = self.rows;
        rows.truncate(self.count);
        Latest { rows }
    }
}
