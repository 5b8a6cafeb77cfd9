//! Sources that lie in memory, whose segments are folded, and the state of what was folded. The program
//! folds those of its files.

use allocation_trials::{Equal, Refusal, Same, Trials};
use htl_analyst::Analyst;
use htl_command::{InputForm, Setting};
use htl_device::Reading;
use htl_main::{Coverage, Folded, fold, load_folded, merge_state, state_bytes};
use htl_samples::SMALL;
use htl_segment::encode;
use std::alloc::Global;
use std::thread::Threads;

/// The segments that were folded before, by processor and number: one of them is held.
const BEFORE: [(u16, u32); 3] = [(0, 0), (1, 0), (1, 2)];

/// What is tried of `fold`: by how many workers, behind what was folded before, or behind nothing.
const FOLDS: &[(&str, u32, bool)] = &[
    ("fold by one worker", 1, true),
    ("fold by two workers", 2, true),
    ("fold of the first segments", 1, false),
];

/// What is tried of `merge_state`: into what was folded before, or into nothing.
const MERGES: &[(&str, bool)] = &[
    ("merge_state", true),
    ("merge_state of the first segments", false),
];

pub fn try_all<R: Threads + Sync>(rt: &R, trials: &mut Trials<'_, HostRuntime>) {
    trials.reads(
        "load_folded",
        before,
        |alloc, bytes: &Vec<u8>| analyst_of(rt, alloc, bytes),
    );
    for (name, workers, follows) in FOLDS {
        trials.changes(
            name,
            |alloc| unfolded(rt, alloc, *follows),
            |alloc, folding: &mut Folding| folded(rt, alloc, *workers, folding),
        );
    }
    trials.reads(
        "state_bytes",
        |alloc| begun(rt, alloc, &before(alloc)?),
        |alloc, folded: &Folded| Equal::of(state_bytes(alloc, folded)),
    );
    for (name, follows) in MERGES {
        trials.changes(name, |alloc| unmerged(rt, alloc, *follows), merged);
    }
}

fn setting(workers: u32) -> Setting {
    Setting {
        form: InputForm {
            hex: false,
            partial: false,
        },
        workers,
        complete: false,
    }
}

/// The bytes of the segments that are folded before.
fn before(alloc: Global) -> Result<Vec<u8>, Refusal> {
    let mut bytes = Vec::new(alloc);
    for (processor, number) in BEFORE {
        let segment = SMALL.segment(alloc, processor, number)?;
        bytes.extend_from_slice(&encode(alloc, &segment)?)?;
    }
    Ok(bytes)
}

/// What is folded of a first source.
fn begun<R: Threads + Sync>(rt: &R, alloc: Global, bytes: &[u8]) -> Result<Folded, Refusal> {
    let mut sources = [Reading::new(bytes)];
    let (folded, _) = load_folded(
        rt,
        alloc,
        setting(1),
        Folded::none(alloc),
        &mut sources,
        None,
    )?;
    Ok(folded)
}

fn analyst_of<R: Threads + Sync>(
    rt: &R,
    alloc: Global,
    bytes: &[u8],
) -> Result<Option<Analyst<Global>>, Refusal> {
    let folded = begun(rt, alloc, bytes)?;
    Ok(folded.analyst)
}

/// What was folded, and the bytes of a source that is folded behind it, or of a state that is merged
/// into it. Where memory is refused some of its segments may have been taken, and nothing that was
/// taken before is lost.
#[derive(Drop)]
struct Folding {
    folded: Folded,
    bytes: Vec<u8>,
}

impl Folding {
    /// Whether this segment was taken.
    fn has(&self, processor: u16, number: u32) -> bool {
        match &self.folded.analyst {
            Some(analyst) => analyst.has(processor, number),
            None => false,
        }
    }

    /// Whether each segment was taken that the other one took.
    fn has_all_of(&self, other: &Folding) -> bool {
        (0..SMALL.processors).all(|processor| {
            (0..SMALL.segments).all(|number| self.has(processor, number)
                || !other.has(processor, number))
        })
    }
}

impl Same for Folding {
    ghost IsSame = { λ one two.
        ⟦<Option<Analyst<Global>> as Same>⟧.IsSame one.folded.analyst two.folded.analyst };

    fn same(&self, other: &Folding) -> bool {
        self.folded.analyst.same(&other.folded.analyst)
    }

    fn is_kept(&self, before: &Folding) -> bool {
        self.has_all_of(before)
    }
}

/// A source of all segments of the trace, behind what was folded before, or behind nothing.
fn unfolded<R: Threads + Sync>(rt: &R, alloc: Global, follows: bool) -> Result<Folding, Refusal> {
    Ok(Folding {
        folded: earlier(rt, alloc, follows)?,
        bytes: SMALL.bundle(alloc)?,
    })
}

/// What was folded before, or nothing.
fn earlier<R: Threads + Sync>(rt: &R, alloc: Global, follows: bool) -> Result<Folded, Refusal> {
    if !follows {
        return Ok(Folded::none(alloc));
    }
    begun(rt, alloc, &before(alloc)?)
}

/// How many segments the source has, and how much of the trace is there. How many are new isn't
/// compared: after a refusal some of them aren't.
fn folded<R: Threads + Sync>(
    rt: &R,
    alloc: Global,
    workers: u32,
    folding: &mut Folding,
) -> Result<Equal<(u64, Coverage)>, Refusal> {
    let mut sources = [Reading::new(folding.bytes.as_slice())];
    let added = fold(
        rt,
        alloc,
        setting(workers),
        &mut folding.folded,
        &mut sources,
    )?;
    Ok(Equal((added.segments, added.coverage)))
}

/// The state of all segments of the trace, behind what was folded before, or behind nothing.
fn unmerged<R: Threads + Sync>(rt: &R, alloc: Global, follows: bool) -> Result<Folding, Refusal> {
    let all = begun(rt, alloc, &SMALL.bundle(alloc)?)?;
    Ok(Folding {
        folded: earlier(rt, alloc, follows)?,
        bytes: state_bytes(alloc, &all)?,
    })
}

/// How many segments the state has, and how much of the trace is there.
fn merged(alloc: Global, folding: &mut Folding) -> Result<Equal<(u64, Coverage)>, Refusal> {
    let added = merge_state(alloc, setting(1), &mut folding.folded, &folding.bytes)?;
    Ok(Equal((added.segments, added.coverage)))
}
