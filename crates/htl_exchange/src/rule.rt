//! The rule under which the queue stands, and the steps that keep it.

use crate::parcel::Parcel;
use crate::pass::Known;
use crossbeam_queue::RuledArrayQueue;
use crossbeam_queue::protocol::{Join, Lesson, Outcome, Protocol, Split};

/// The rule: the parcels and what the passes have got make up the case.
pub struct Shares;

impl Protocol<Parcel, Known> for Shares {
    ghost use Rattle.htl_exchange.specs.Rule.{MakesUp, blank};

    ghost holds = { MakesUp };

    ghost first = { blank };
}

/// The step that fills the queue: it pushes a run.
pub struct Fills;

impl Outcome<Parcel, Known> for Fills {
    ghost use Rattle.htl_exchange.specs.Moves.{Filled};

    ghost then = { Filled };
}

impl Lesson<Parcel, Known> for Fills {
    ghost use Rattle.htl_exchange.specs.Moves.{CountsPushes};

    ghost fact = { CountsPushes };
}

/// The step that pushes a posted state.
pub struct Posts;

impl Outcome<Parcel, Known> for Posts {
    ghost use Rattle.htl_exchange.specs.Moves.{Pushed};

    ghost then = { Pushed };
}

impl Lesson<Parcel, Known> for Posts {
    ghost use Rattle.std.specs.Prelude.{⊤};

    ghost fact = { λ v items. ⊤ };
}

/// The step that pops a parcel.
pub struct Takes;

impl Outcome<Parcel, Known> for Takes {
    ghost use Rattle.htl_exchange.specs.Moves.{Popped};

    ghost then = { Popped };
}

impl Lesson<Parcel, Known> for Takes {
    ghost use Rattle.htl_exchange.specs.Moves.{KnowsRest};

    ghost fact = { KnowsRest };
}

/// How shares of the right to know the whole are split and joined.
pub struct Parts;

impl Split<Known> for Parts {
    ghost use Rattle.htl_exchange.specs.Moves.{split, part};

    ghost left = { split };

    ghost right = { part };
}

impl Join<Known> for Parts {
    ghost use Rattle.htl_exchange.specs.Moves.{joined, spent};

    ghost both = { joined };

    ghost spent = { spent };
}

/// The queue that the desks share.
pub(crate) type ParcelQueue = RuledArrayQueue<Parcel, Known, Shares>;
