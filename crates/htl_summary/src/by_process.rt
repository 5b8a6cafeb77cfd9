//! Processes, and what they did with handles.

ghost use Rattle.std.specs.Prelude.{◌≡◌, ◌<◌, ◌^◌, List};
ghost use Rattle.std.specs.Prelude.{filter, length, map, IfOk};
ghost use Rattle.std.specs.List.{sum_by};
ghost use Rattle.std.specs.Ordering.{nat_cmp};
ghost use Rattle.htl_event.specs.Events.{Event};
ghost use Rattle.htl_event.specs.declared.slot.Slot.{Slot};
ghost use Rattle.htl_event.specs.declared.slot.Count.{Count};
ghost use Rattle.htl_event.specs.Tallies.{total_of};
ghost use Rattle.htl_event.specs.Handles.{HaveOwnSequences};
ghost use Rattle.htl_event.specs.Summaries.{IsProcesses};
ghost use Rattle.htl_answers.specs.Parts.{AreEventsOf, AreTablesOf, size_of_all};
ghost use Rattle.htl_answers.specs.Open.{is_opened_after};
ghost use Rattle.htl_answers.specs.Sums.{ListsSlotSums};
ghost use Rattle.htl_sorted.specs.Entries.{IsSorted};
ghost use Rattle.htl_summary.specs.Counted.{AreUsages};
ghost use Rattle.htl_summary.specs.Totals.{by_owner};
ghost use Rattle.htl_summary.specs.Rows.{IsRowOf, AreRowsOf};

use crate::ranking::{Ranked, put_most_first};
use crate::rows::rows_by_owner;
use crate::tables::{Tables, tables_of};
use crate::usage::Usage;
use htl_answers::{Part, slot_sums};
use htl_event::{Count, Kind, NoMemory, ProcessRow, SharedEvent, Slot};
use std::alloc::{Allocator, Global};

/// Each process with an open, a close or a bad reference, the most outstanding handles first and
/// then by process. The tables of all parts are joined under `table_alloc`.
pub fn processes<P: Part>(
    alloc: Global,
    table_alloc: &P::Alloc,
    parts: &[P],
) -> Result<Vec<ProcessRow>, NoMemory>
    requires { size_of_all (map P.contents parts.now) < 2 ^ 64 }
    ensures { IfOk result (λ rows. (events : List Event)
        → AreEventsOf (map P.contents parts.now) events
        → HaveOwnSequences events → IsProcesses events rows.items) }
{
    let sums = slot_sums(alloc, parts)?;
    let used = usages_of_slots(alloc, &sums)?;
    let tables = tables_of(table_alloc, parts)?;
    processes_of(alloc, &used, &tables)
}

/// What each process did with handles, by process, from the sums of slots.
pub(crate) fn usages_of_slots(alloc: Global, sums: &[(Slot, Count)]) -> Result<Vec<Usage>, NoMemory>
    requires { sum_by (λ sum. total_of sum.1) sums.now < 2 ^ 64 }
    ensures { IfOk result (λ used. AreUsages sums.now used.items) }
{
    rows_by_owner::<Usage>(alloc, sums)
}

/// As `processes`, from what each process did with handles, and from the tables of the parts.
pub(crate) fn processes_of<A: Allocator>(
    alloc: Global,
    used: &[Usage],
    tables: &Tables<A>,
) -> Result<Vec<ProcessRow>, NoMemory>
    requires { IsSorted nat_cmp (by_owner (λ (usage : Usage). usage.process) used.now) }
    ensures { IfOk result (λ rows. (events : List Event) (sums : List (Slot × Count))
        → AreUsages sums used.now → ListsSlotSums events sums
        → AreTablesOf events tables.now.latest tables.now.marks tables.now.exits
        → HaveOwnSequences events → IsProcesses events rows.items) }
{
    let mut rows = process_rows(alloc, used, tables)?;
    put_most_first(&mut rows);
    Ok(rows)
}

/// The row of each process.
fn process_rows<A: Allocator>(
    alloc: Global,
    used: &[Usage],
    tables: &Tables<A>,
) -> Result<Vec<ProcessRow>, NoMemory>
    ensures owners { IfOk result (λ rows. map (λ (row : ProcessRow). row.process) rows.items
        ≡ map (λ (usage : Usage). usage.process) used.now) }
    ensures rows { IfOk result (λ rows. (events : List Event) → HaveOwnSequences events
        → AreTablesOf events tables.now.latest tables.now.marks tables.now.exits
        → AreRowsOf events used.now rows.items) }
{
    let mut rows = Vec::with_capacity(alloc, used.len())?;
    for usage in used {
        rows.push(process_row(*usage, tables))?;
    }
    Ok(rows)
}

/// The row of a process.
fn process_row<A: Allocator>(usage: Usage, tables: &Tables<A>) -> ProcessRow
    ensures owner { result.process ≡ usage.process }
    ensures row { (events : List Event) → HaveOwnSequences events
        → AreTablesOf events tables.now.latest tables.now.marks tables.now.exits
        → IsRowOf events usage result }
{
    let exit = tables.exits.get(usage.process);
    let latest = tables.latest.rows_of(usage.process);
    ProcessRow {
        process: usage.process,
        outstanding: opened_after(latest, exit),
        opens: usage.opens,
        closes: usage.closes,
        bad: usage.bad,
        mark: tables.marks.get(usage.process),
        exit,
    }
}

/// The number of opens among the events that came after a moment.
fn opened_after(latest: &[SharedEvent], moment: u64) -> u64
    ensures { result ≡ length (filter (is_opened_after moment) latest.now) }
{
    let mut opens = 0;
    for event in latest {
        if event.kind == Kind::Opened && event.sequence > moment {
            opens += 1;
        }
    }
    opens
}

impl Ranked for ProcessRow {
    ghost use Rattle.std.specs.FinMap.{nat_cmp-IsAntisymmetric};

    type Key = u32;

    ghost number_of = { λ row. row.outstanding };

    ghost key_of = { λ row. row.process };

    ghost proper = { nat_cmp-IsAntisymmetric };

    fn number(&self) -> u64 {
        self.outstanding
    }

    fn key(&self) -> &u32 {
        &self.process
    }
}
