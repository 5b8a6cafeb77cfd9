//! Parcels: what the queue of an exchange holds, and what a desk has in hand.

use crate::desk::Collected;
use htl_analyst::Analyst;
use htl_case::Case;
use htl_segment::Segment;
use std::alloc::Global;
use std::snapshot::Snapshot;

/// What desks pass on to each other: segments of one processor, those of the highest numbers first,
/// or a posted state.
#[derive(Drop)]
pub enum Parcel {
    /// The segments, and their case. The case serves contracts alone, and takes no memory.
    Run(Vec<Segment>, Snapshot<Case>),
    State(Analyst<Global>),
}

impl Parcel {
    ghost use Rattle.std.specs.Prelude.{◌≡◌};
    ghost use Rattle.htl_exchange.specs.Parcels.{named};

    /// The answer of `collect` where it took in this parcel.
    pub(crate) fn name(&self) -> Collected
        ensures { result ≡ named self.now }
    {
        match self {
            Parcel::Run(_, _) => Collected::Run,
            Parcel::State(_) => Collected::State,
        }
    }
}
