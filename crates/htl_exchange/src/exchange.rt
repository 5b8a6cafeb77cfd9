//! An exchange: the queue that the desks share.

use crate::rule::ParcelQueue;
use htl_case::Case;
use std::marker::Model;
use std::snapshot::Snapshot;

/// The runs of a case, and the states that desks posted, in one queue that the desks share.
#[derive(Drop)]
pub struct Exchange {
    pub(crate) queue: ParcelQueue,
    /// The case. It serves contracts alone, and takes no memory.
    pub(crate) case: Snapshot<Case>,
    /// The number of desks that are out.
    pub(crate) desks: u32,
}

impl Model for Exchange {
    ghost use Rattle.crossbeam_queue.specs.Passes.{ruled_capacity};
    ghost use Rattle.htl_exchange.specs.Desks.{ExchangeValue, exchange_value};

    ghost Value = { ExchangeValue };

    ghost view = { λ e. exchange_value e.queue.table.shared.table_id e.case.value
        (ruled_capacity e.queue) e.desks };
}
