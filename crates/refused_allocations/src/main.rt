//! Refuses the allocations of each call that takes memory. `allocation_trials` says what is tried.
//!
//! First come the calls on what an analyst's state is made of: segments, trees, tables and sets;
//! and then those on analysts, their states as bytes, cases and exchanges, and runs and foldings
//! over bytes. Each file of calls begins with their table. The calls of which the program is made
//! are tried as whole runs of it (`.ci/refused-allocations`).
#![tactic(auto)]

mod analysts;
mod cases;
mod desks;
mod folds;
mod runs;
mod segments;
mod sets;
mod states;
mod tables;
mod trees;

use allocation_trials::Trials;

fn main(rt: HostRuntime) -> anyhow::Result<()> {
    let mut trials = Trials::new(&rt);
    segments::try_all(&mut trials);
    trees::try_all(&mut trials);
    tables::try_all(&mut trials);
    sets::try_all(&mut trials);
    analysts::try_all(&rt, &mut trials);
    states::try_all(&mut trials);
    cases::try_all(&mut trials);
    desks::try_all(&rt, &mut trials);
    runs::try_all(&rt, &mut trials);
    folds::try_all(&rt, &mut trials);
    trials.finish()
}
