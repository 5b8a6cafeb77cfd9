//! Calls that save the state of an analyst as bytes, and load it.

use crate::analysts::analyst;
use allocation_trials::{Equal, Refusal, Trials, answered};
use htl_analyst::Analyst;
use htl_saved::{load, save};
use std::alloc::Global;

pub fn try_all(trials: &mut Trials<'_, HostRuntime>) {
    trials.reads("save", analyst, saved);
    trials.reads("load", state, loaded);
}

fn saved(alloc: Global, analyst: &Analyst<Global>) -> Result<Equal<Vec<u8>>, Refusal> {
    Equal::of(save(alloc, analyst))
}

/// The bytes of an analyst that was compacted: the format has held segments above the front alone.
fn state(alloc: Global) -> Result<Vec<u8>, Refusal> {
    let mut analyst = analyst(alloc)?;
    analyst.compact()?;
    answered(save(alloc, &analyst))
}

fn loaded(alloc: Global, bytes: &Vec<u8>) -> Result<Analyst<Global>, Refusal> {
    answered(load(alloc, bytes))
}
