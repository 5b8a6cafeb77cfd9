//! Calls on sets of taken segments.

use allocation_trials::{Equal, Refusal, Trials, answered, both};
use htl_taken::Taken;
use std::alloc::Global;

type Set = Taken<Global>;

const PROCESSORS: u16 = 3;

pub fn try_all(trials: &mut Trials<'_, HostRuntime>) {
    trials.reads("Taken::new", processors, new);
    trials.changes("Taken::insert", set, insert);
    trials.reads("Taken::union", two_sets, union);
    trials.reads("Taken::copy", set, copy);
}

fn processors(_alloc: Global) -> Result<u16, Refusal> {
    Ok(PROCESSORS)
}

fn new(alloc: Global, processors: &u16) -> Result<Set, Refusal> {
    answered(Taken::new(alloc, *processors))
}

/// A set of the segments of these processors and numbers.
fn set_of(alloc: Global, keys: &[(u16, u32)]) -> Result<Set, Refusal> {
    let mut set = Taken::new(alloc, PROCESSORS)?;
    for (processor, number) in keys {
        insert_key(&mut set, *processor, *number)?;
    }
    Ok(set)
}

fn insert_key(set: &mut Set, processor: u16, number: u32) -> Result<bool, Refusal> {
    if processor >= set.processors() || number == u32::MAX {
        return Err(Refusal::Other);
    }
    answered(set.insert(processor, number))
}

/// Processor 1 has no room for one more loose number: the set is a copy.
fn set(alloc: Global) -> Result<Set, Refusal> {
    let mut set = set_of(alloc, &[(0, 0), (0, 1), (0, 3), (1, 4), (1, 7), (2, 2)])?.copy()?;
    set.settle(0);
    Ok(set)
}

fn two_sets(alloc: Global) -> Result<(Set, Set), Refusal> {
    both(set(alloc), set_of(alloc, &[(0, 2), (1, 0), (1, 7), (2, 5)]))
}

fn insert(_alloc: Global, set: &mut Set) -> Result<Equal<bool>, Refusal> {
    Equal::of(insert_key(set, 1, 5))
}

fn union(_alloc: Global, (one, two): &(Set, Set)) -> Result<Set, Refusal> {
    if one.processors() != two.processors() {
        return Err(Refusal::Other);
    }
    answered(one.union(two))
}

fn copy(_alloc: Global, set: &Set) -> Result<Set, Refusal> {
    answered(set.copy())
}
