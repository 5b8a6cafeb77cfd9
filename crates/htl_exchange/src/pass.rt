//! Passes: what a desk knows under the rule of its exchange. It exists in contracts alone.

use crate::desk::Collected;
use crate::parcel::Parcel;
use crossbeam_queue::Pass;
use htl_case::Case;
use std::collections::LinkedList;

/// A pop or a push, with the runs of its parcel. No value of it is made.
pub enum Move {
    Pop(Collected, LinkedList<bool>),
    Push(LinkedList<bool>),
}

/// The case, the pass's parts of the right to know the whole, the runs that its desk has got, what
/// was done with it, and how many parcels were pushed with it and the passes that it took in. No
/// value of it is made.
pub struct Known {
    pub trace: Case,
    pub parts: u64,
    pub got: LinkedList<bool>,
    pub log: LinkedList<Move>,
    pub pushes: u64,
}

/// The pass of one desk, which takes no memory.
pub(crate) type DeskPass = Pass<Parcel, Known>;
