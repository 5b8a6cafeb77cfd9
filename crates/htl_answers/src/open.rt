//! Outstanding handles: they were opened and are still open.

ghost use Rattle.std.specs.Prelude.{◌≡◌, ◌++◌, List, Contains, IfOk, map, filter};
ghost use Rattle.htl_event.specs.Events.{Event};
ghost use Rattle.htl_event.specs.Handles.{IsOutstanding, IsDiff, HaveOwnSequences};
ghost use Rattle.htl_answers.specs.Parts.{AreEventsOf};
ghost use Rattle.htl_answers.specs.Open.{AreLatestOf, is_opened_after};

use crate::handles::last_exit;
use crate::part::Part;
use htl_event::{Kind, NoMemory, SharedEvent};
use htl_tables::Latest;
use std::alloc::Global;

/// The outstanding handles of the process: the events that opened them, by base handle.
pub fn outstanding<P: Part>(
    alloc: Global,
    parts: &[P],
    process: u32,
) -> Result<Vec<SharedEvent>, NoMemory>
    ensures { IfOk result (λ rows. (events : List Event)
        → AreEventsOf (map P.contents parts.now) events
        → HaveOwnSequences events → IsOutstanding (Contains events) process rows.items) }
{
    diff(alloc, parts, process, 0)
}

/// The outstanding handles of the process that were opened after a moment: the events that opened
/// them, by base handle.
pub fn diff<P: Part>(
    alloc: Global,
    parts: &[P],
    process: u32,
    since: u64,
) -> Result<Vec<SharedEvent>, NoMemory>
    ensures { IfOk result (λ rows. (events : List Event)
        → AreEventsOf (map P.contents parts.now) events
        → HaveOwnSequences events → IsDiff (Contains events) process since rows.items) }
{
    let exit = last_exit(parts, process);
    let latest = latest_of_process(alloc, parts, process)?;
    opened_after(alloc, latest.rows_of(process), since.max(exit))
}

/// The latest open or close of each base handle of the process. The tables of parts are joined in
/// pairs.
fn latest_of_process<P: Part>(
    alloc: Global,
    parts: &[P],
    process: u32,
) -> Result<Latest<Global>, NoMemory>
    ensures { IfOk result (λ latest. (events : List Event)
        → AreEventsOf (map P.contents parts.now) events
        → AreLatestOf events process latest) }
{
    if parts.len() < 2 {
        return match parts.first() {
            None => Ok(Latest::new(alloc)),
            Some(part) => latest_of_part(alloc, part, process),
        };
    }
    let (front, back) = parts.split_at(parts.len() / 2);
    let left = latest_of_process(alloc, front, process)?;
    let right = latest_of_process(alloc, back, process)?;
    left.join_process(&right, process)
}

/// The latest open or close of each base handle of the process in one part: among its held events and
/// its folded ones.
fn latest_of_part<P: Part>(
    alloc: Global,
    part: &P,
    process: u32,
) -> Result<Latest<Global>, NoMemory>
    ensures { IfOk result (λ latest. (folded : List Event)
        → AreLatestOf folded process (P.contents part.now).latest
        → AreLatestOf (folded ++ (P.contents part.now).held) process latest) }
{
    let held = Latest::of_process(alloc, part.held(), process)?;
    held.join_process(part.latest(), process)
}

/// Copies of the opens that came after a moment.
fn opened_after(
    alloc: Global,
    latest: &[SharedEvent],
    moment: u64,
) -> Result<Vec<SharedEvent>, NoMemory>
    ensures { IfOk result (λ rows. rows.items ≡ filter (is_opened_after moment) latest.now) }
{
    let mut rows = Vec::new(alloc);
    for event in latest {
        if is_opened_after(event, moment) {
            rows.push(event.copy()?)?;
        }
    }
    Ok(rows)
}

/// Whether the event is an open that came after a moment.
fn is_opened_after(event: &SharedEvent, moment: u64) -> bool
    ensures { result ≡ is_opened_after moment event.now }
{
    event.kind == Kind::Opened && event.sequence > moment
}
