//! Calls on an analyst, and its answers.

use allocation_trials::{Equal, Refusal, Same, Trials, answered, both};
use htl_analyst::{Analyst, Took};
use htl_event::{Count, NoMemory, ObjectRow, ProcessRow, SharedEvent, SharedStack, Slot};
use htl_samples::{SMALL, TRACE};
use htl_segment::Segment;
use htl_taken::Gap;
use htl_tree::StackTree;
use std::alloc::Global;
use std::thread::Threads;

type Own = Analyst<Global>;

/// A process, an object and a tag of the generated trace, which `answers` come to.
const PROCESS: u32 = 4;

const OBJECT: u64 = 0x1010;

const TAG: [u8; 4] = *b"Lky8";

/// The segments that the analyst took, by processor and number: it folded the first of both
/// processors and holds two, so that an answer needs both.
const FOLDED: [(u16, u32); 2] = [(0, 0), (1, 0)];

const HELD: [(u16, u32); 2] = [(0, 1), (1, 2)];

/// Those that another analyst took.
const FOLDED_BY_OTHER: [(u16, u32); 2] = [(1, 0), (1, 1)];

const HELD_BY_OTHER: [(u16, u32); 2] = [(0, 1), (0, 2)];

pub fn try_all<R: Threads + Sync>(rt: &R, trials: &mut Trials<'_, HostRuntime>) {
    try_steps(trials);
    trials.changes(
        "compact_by two workers",
        unfolded,
        |_, folding: &mut Folding| compact_by(rt, folding),
    );
    try_answers(trials);
    try_summary(trials);
}

fn try_steps(trials: &mut Trials<'_, HostRuntime>) {
    trials.reads("Analyst::new", processors, new);
    trials.changes("take", taking, take);
    trials.changes("merge", two_analysts, merge);
    trials.changes("absorb", absorbing, absorb);
    trials.changes("compact", unfolded, compact);
    trials.reads("Analyst::copy", analyst, copy);
}

fn try_answers(trials: &mut Trials<'_, HostRuntime>) {
    trials.reads("outstanding", analyst, outstanding);
    trials.reads("diff", analyst, diff);
    trials.reads("tags", analyst, tags);
    trials.reads("bad", analyst, bad);
    trials.reads("leaks", analyst, leaks);
    trials.reads("stacks", analyst, stacks);
    trials.reads("whole_tree", analyst, whole_tree);
}

fn try_summary(trials: &mut Trials<'_, HostRuntime>) {
    trials.reads("processes", analyst, processes);
    trials.reads("objects", analyst, objects);
    trials.reads("gaps", analyst, gaps);
}

fn processors(_alloc: Global) -> Result<u16, Refusal> {
    Ok(SMALL.processors)
}

fn new(alloc: Global, processors: &u16) -> Result<Own, Refusal> {
    answered(Analyst::new(alloc, TRACE.id, *processors))
}

fn take_all(alloc: Global, analyst: &mut Own, keys: &[(u16, u32)]) -> Result<(), Refusal> {
    for (processor, number) in keys {
        take_new(analyst, SMALL.segment(alloc, *processor, *number)?)?;
    }
    Ok(())
}

fn take_new(analyst: &mut Own, segment: Segment) -> Result<(), Refusal> {
    match analyst.take(segment) {
        Ok(_) => Ok(()),
        Err((fault, _)) => Err(Refusal::from(fault)),
    }
}

/// An analyst that folded some segments and holds others.
fn analyst_of(alloc: Global, folded: &[(u16, u32)], held: &[(u16, u32)]) -> Result<Own, Refusal> {
    let mut analyst = new(alloc, &SMALL.processors)?;
    take_all(alloc, &mut analyst, folded)?;
    analyst.compact()?;
    take_all(alloc, &mut analyst, held)?;
    Ok(analyst)
}

pub fn analyst(alloc: Global) -> Result<Own, Refusal> {
    analyst_of(alloc, &FOLDED, &HELD)
}

fn other(alloc: Global) -> Result<Own, Refusal> {
    analyst_of(alloc, &FOLDED_BY_OTHER, &HELD_BY_OTHER)
}

/// An analyst, and a segment that it hasn't taken. It is a copy, so it has no room for one more.
fn taking(alloc: Global) -> Result<(Own, Option<Segment>), Refusal> {
    both(analyst(alloc)?.copy(), SMALL.segment(alloc, 0, 2).map(Some))
}

fn take(
    _alloc: Global,
    (analyst, segment): &mut (Own, Option<Segment>),
) -> Result<Equal<Took>, Refusal> {
    let given = segment.take().ok_or(Refusal::Other)?;
    match analyst.take(given) {
        Ok(took) => Ok(Equal(took)),
        Err((fault, given)) => {
            *segment = Some(given);
            Err(Refusal::from(fault))
        }
    }
}

fn two_analysts(alloc: Global) -> Result<(Own, Own), Refusal> {
    both(analyst(alloc), other(alloc))
}

fn merge(_alloc: Global, (analyst, other): &mut (Own, Own)) -> Result<Equal<()>, Refusal> {
    Equal::of(analyst.merge(other))
}

fn absorbing(alloc: Global) -> Result<(Own, Option<Own>), Refusal> {
    both(analyst(alloc), other(alloc).map(Some))
}

fn absorb(_alloc: Global, (analyst, other): &mut (Own, Option<Own>)) -> Result<Equal<()>, Refusal> {
    let given = other.take().ok_or(Refusal::Other)?;
    match analyst.absorb(given) {
        Ok(()) => Ok(Equal(())),
        Err((fault, given)) => {
            *other = Some(given);
            Err(Refusal::from(fault))
        }
    }
}

/// An analyst that is compacted. Where memory is refused some fronts may have moved, and every
/// answer is as before.
#[derive(Drop)]
struct Folding {
    analyst: Own,
    alloc: Global,
}

impl Same for Folding {
    ghost use Rattle.htl_analyst.specs.Same.{IsSame as IsSameState};

    ghost IsSame = { λ one two. IsSameState one.analyst two.analyst };

    fn same(&self, other: &Folding) -> bool {
        self.analyst.same(&other.analyst)
    }

    fn is_kept(&self, before: &Folding) -> bool {
        agree(self.alloc, &self.analyst, &before.analyst)
    }
}

/// Segments that fold into what is folded already, on both processors.
fn unfolded(alloc: Global) -> Result<Folding, Refusal> {
    let analyst = analyst_of(alloc, &FOLDED, &[(0, 1), (0, 2), (1, 1)])?;
    Ok(Folding { analyst, alloc })
}

fn compact(_alloc: Global, folding: &mut Folding) -> Result<Equal<()>, Refusal> {
    Equal::of(folding.analyst.compact())
}

fn compact_by<R: Threads + Sync>(rt: &R, folding: &mut Folding) -> Result<Equal<()>, Refusal> {
    Equal::of(folding.analyst.compact_by(rt, 2))
}

fn copy(_alloc: Global, analyst: &Own) -> Result<Own, Refusal> {
    answered(analyst.copy())
}

fn outstanding(alloc: Global, analyst: &Own) -> Result<Equal<Vec<SharedEvent>>, Refusal> {
    Equal::of(analyst.outstanding(alloc, PROCESS))
}

fn diff(alloc: Global, analyst: &Own) -> Result<Equal<Vec<SharedEvent>>, Refusal> {
    Equal::of(analyst.diff(alloc, PROCESS, 30))
}

fn tags(alloc: Global, analyst: &Own) -> Result<Equal<Vec<([u8; 4], Count)>>, Refusal> {
    Equal::of(analyst.tags(alloc, OBJECT))
}

fn bad(alloc: Global, analyst: &Own) -> Result<Equal<Vec<(u32, SharedStack, u64)>>, Refusal> {
    Equal::of(analyst.bad(alloc, PROCESS))
}

fn leaks(alloc: Global, analyst: &Own) -> Result<Equal<Vec<(SharedStack, u64)>>, Refusal> {
    Equal::of(analyst.leaks(alloc, PROCESS))
}

fn stacks(alloc: Global, analyst: &Own) -> Result<Equal<Vec<(SharedStack, Count)>>, Refusal> {
    Equal::of(analyst.stacks(alloc, OBJECT, TAG))
}

fn whole_tree(_alloc: Global, analyst: &Own) -> Result<StackTree<Global>, Refusal> {
    answered(analyst.whole_tree())
}

fn processes(alloc: Global, analyst: &Own) -> Result<Equal<Vec<ProcessRow>>, Refusal> {
    Equal::of(analyst.processes(alloc))
}

fn objects(alloc: Global, analyst: &Own) -> Result<Equal<(u64, Vec<ObjectRow>)>, Refusal> {
    Equal::of(number_and_rows(alloc, analyst))
}

/// How many objects there are, and the rows of those that are unbalanced.
fn number_and_rows(alloc: Global, analyst: &Own) -> Result<(u64, Vec<ObjectRow>), NoMemory> {
    let objects = analyst.objects(alloc)?;
    Ok((objects.number, objects.unbalanced))
}

fn gaps(alloc: Global, analyst: &Own) -> Result<Equal<Vec<Gap>>, Refusal> {
    Equal::of(analyst.gaps(alloc))
}

/// Whether two analysts took the same segments of the generated trace and have the same answers,
/// whatever each folded. An answer that there is no memory for is like no other.
pub fn agree(alloc: Global, one: &Own, two: &Own) -> bool {
    agree_on_keys(one, two)
        && agree_without_memory(one, two)
        && agree_on_handles(alloc, one, two)
        && agree_on_counts(alloc, one, two)
        && agree_on_summaries(alloc, one, two)
        && have_same_trees(one, two).unwrap_or(false)
}

fn agree_on_keys(one: &Own, two: &Own) -> bool {
    one.taken() == two.taken()
        && (0..SMALL.processors).all(|processor| {
            (0..SMALL.segments).all(|number| one.has(processor, number)
                == two.has(processor, number))
        })
}

fn agree_without_memory(one: &Own, two: &Own) -> bool {
    let slot = Slot::Handles { process: PROCESS };
    one.mark(PROCESS) == two.mark(PROCESS)
        && one.under(&[], slot) == two.under(&[], slot)
        && (0..64).all(|handle| one.latest(PROCESS, handle) == two.latest(PROCESS, handle))
}

/// Whether both are there and equal.
fn are_equal<T: PartialEq + Drop>(one: Result<T, NoMemory>, two: Result<T, NoMemory>) -> bool {
    one.is_ok() && one == two
}

fn agree_on_handles(alloc: Global, one: &Own, two: &Own) -> bool {
    are_equal(
        one.outstanding(alloc, PROCESS),
        two.outstanding(alloc, PROCESS),
    ) && are_equal(one.diff(alloc, PROCESS, 30), two.diff(alloc, PROCESS, 30))
        && are_equal(one.leaks(alloc, PROCESS), two.leaks(alloc, PROCESS))
}

fn agree_on_counts(alloc: Global, one: &Own, two: &Own) -> bool {
    are_equal(one.tags(alloc, OBJECT), two.tags(alloc, OBJECT))
        && are_equal(one.bad(alloc, PROCESS), two.bad(alloc, PROCESS))
        && are_equal(
            one.stacks(alloc, OBJECT, TAG),
            two.stacks(alloc, OBJECT, TAG),
        )
}

fn agree_on_summaries(alloc: Global, one: &Own, two: &Own) -> bool {
    are_equal(one.processes(alloc), two.processes(alloc))
        && are_equal(number_and_rows(alloc, one), number_and_rows(alloc, two))
        && are_equal(one.gaps(alloc), two.gaps(alloc))
}

fn have_same_trees(one: &Own, two: &Own) -> Result<bool, NoMemory> {
    let tree = one.whole_tree()?;
    Ok(tree.same(&two.whole_tree()?))
}
