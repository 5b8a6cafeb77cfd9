//! Gates: they tell the caller of `survey` of each turn of the workers.

use htl_analyst::Analyst;
use std::alloc::Global;

/// A gate. Each worker calls it before each of its turns, in the worker's thread. A turn is one
/// `collect`.
pub trait Gate {
    /// Workers are counted from 0, and a worker's turns from 1. The analyst is the worker's own.
    fn before(&self, worker: u32, turn: u32, analyst: &Analyst<Global>);
}

/// The gate that does nothing.
#[derive(Clone, Copy, Debug)]
pub struct Free;

impl Gate for Free {
    fn before(&self, _worker: u32, _turn: u32, _analyst: &Analyst<Global>) {}
}
