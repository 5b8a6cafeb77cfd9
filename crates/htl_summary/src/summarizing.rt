//! The processes and the objects of a summary, from slots that are counted once for both.

ghost use Rattle.std.specs.Prelude.{◌<◌, ◌^◌, List, map, IfOk};
ghost use Rattle.htl_event.specs.Events.{Event};
ghost use Rattle.htl_event.specs.Handles.{HaveOwnSequences};
ghost use Rattle.htl_event.specs.Summaries.{IsNumberOfObjects, IsProcesses, IsUnbalanced};
ghost use Rattle.htl_answers.specs.Parts.{AreEventsOf, AreTablesOf, size_of_all};
ghost use Rattle.htl_summary.specs.Counted.{AreCounted};

use crate::by_object::{Objects, balances_of_slots};
use crate::by_process::{processes_of, usages_of_slots};
use crate::tables::{Tables, tables_of};
use crate::usage::Usage;
use htl_answers::{Part, slot_sums};
use htl_event::{Count, NoMemory, ProcessRow, Slot};
use std::alloc::Global;
use std::thread::{Threads, join};

/// The objects and the processes of a summary.
#[derive(Drop)]
pub struct Summary {
    pub objects: Objects,
    /// The rows of processes, the most outstanding handles first and then by process.
    pub processes: Vec<ProcessRow>,
}

/// The answers of `balances` and `processes`, in less time than both calls take, and for every number
/// of workers. The tables are dropped before objects take memory.
pub fn summarize<T: Threads + Sync, P: Part<Alloc = Global> + Sync>(
    rt: &T,
    alloc: Global,
    workers: u32,
    parts: &[P],
) -> Result<Summary, NoMemory>
where
    P::Held: Sync,
    requires { size_of_all (map P.contents parts.now) < 2 ^ 64 }
    ensures number { IfOk result (λ summary. (events : List Event)
        → AreEventsOf (map P.contents parts.now) events
        → IsNumberOfObjects events summary.objects.number) }
    ensures unbalanced { IfOk result (λ summary. (events : List Event)
        → AreEventsOf (map P.contents parts.now) events
        → IsUnbalanced events summary.objects.unbalanced.items) }
    ensures processes { IfOk result (λ summary. (events : List Event)
        → AreEventsOf (map P.contents parts.now) events
        → HaveOwnSequences events → IsProcesses events summary.processes.items) }
{
    let (counted, tables) = counted_and_tables(rt, alloc, workers, parts)?;
    let processes = processes_of(alloc, &counted.used, &tables)?;
    drop(tables);
    let objects = balances_of_slots(alloc, &counted.sums)?;
    Ok(Summary { objects, processes })
}

/// How often each slot came, and what each process did with handles.
#[derive(Drop)]
struct Counted {
    sums: Vec<(Slot, Count)>,
    used: Vec<Usage>,
}

/// What was counted, and the tables of the parts. Where there are several workers, one counts while
/// another makes the tables.
fn counted_and_tables<T: Threads + Sync, P: Part<Alloc = Global> + Sync>(
    rt: &T,
    alloc: Global,
    workers: u32,
    parts: &[P],
) -> Result<(Counted, Tables<Global>), NoMemory>
where
    P::Held: Sync,
    requires { size_of_all (map P.contents parts.now) < 2 ^ 64 }
    ensures counted { IfOk result (λ both.
        AreCounted (map P.contents parts.now) both.0.sums.items both.0.used.items) }
    ensures tables { IfOk result (λ both. (events : List Event)
        → AreEventsOf (map P.contents parts.now) events
        → AreTablesOf events both.1.latest both.1.marks both.1.exits) }
{
    if workers < 2 {
        return Ok((count(alloc, parts)?, tables_of(&alloc, parts)?));
    }
    let (counted, tables) = join(rt, || count(alloc, parts), || tables_of(&alloc, parts));
    Ok((counted?, tables?))
}

/// Counts the slots of all parts.
fn count<P: Part>(alloc: Global, parts: &[P]) -> Result<Counted, NoMemory>
    requires { size_of_all (map P.contents parts.now) < 2 ^ 64 }
    ensures { IfOk result (λ counted.
        AreCounted (map P.contents parts.now) counted.sums.items counted.used.items) }
{
    let sums = slot_sums(alloc, parts)?;
    let used = usages_of_slots(alloc, &sums)?;
    Ok(Counted { sums, used })
}
