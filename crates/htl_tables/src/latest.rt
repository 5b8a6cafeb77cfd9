//! The latest open or close of each handle.

use crate::by_handle::ByHandle;
use crate::candidates::candidates_in;
use crate::joining::Joining;
use crate::of_process::of_process;
use crate::order::are_in_order;
use crate::placing::{append_copies, missing};
use crate::sort_key::{SortKey, drop_first, events_of, handles_in};
use htl_event::{EventList, NoMemory, SharedEvent, base};
use htl_sorted::{merge, search};
use std::alloc::Allocator;
use std::marker::Model;

/// The number of events that are read together.
const BLOCK: usize = 32;

/// The latest open or close of each base handle of each process.
#[derive(Drop)]
pub struct Latest<A: Allocator> {
    pub(crate) rows: Vec<SharedEvent, A>,
}

impl<A: Allocator> Model for Latest<A> {
    ghost use Rattle.std.specs.Prelude.{List};
    ghost use Rattle.htl_event.specs.Events.{Event};
    ghost use Rattle.htl_sorted.specs.Entries.{IsSorted};
    ghost use Rattle.htl_tables.specs.Keys.{key_cmp, keyed};

    ghost Value = { List Event };

    ghost view = { λ t. t.rows.items };

    ghost invariant = { λ t. IsSorted key_cmp (keyed t.rows.items) };
}

impl<A: Allocator> Latest<A> {
    ghost use Rattle.std.specs.Prelude.{◌≡◌, ◌≢◌, ◌==◌, ◌↔◌, ℕ, [], filter};
    ghost use Rattle.std.specs.Prelude.{IfOk, IfErr, IsNone, OnOk, OnErr, IsTrue};
    ghost use Rattle.htl_event.specs.Handles.{ByBase};
    ghost use Rattle.std.specs.Option.{option_copied};
    ghost use Rattle.htl_event.specs.Slots.{base_of};
    ghost use Rattle.htl_event.specs.Members.{Lists};
    ghost use Rattle.htl_tables.specs.Keys.{ByKey};
    ghost use Rattle.htl_tables.specs.Latest.{event_at, with_event, HasEvent, HasEventOf};
    ghost use Rattle.htl_tables.specs.Tables.{IsEventTable};

    /// An empty table. It takes no memory.
    pub fn new(alloc: A) -> Latest<A>
        ensures { result ≡ [] }
    {
        Latest {
            rows: Vec::new(alloc),
        }
    }

    /// The table of these rows. Rows that aren't in order by process and base handle, or of which two
    /// have one process and base handle, are no table's and come back. It takes no memory.
    pub fn of_rows(rows: Vec<SharedEvent, A>) -> Result<Latest<A>, Vec<SharedEvent, A>>
        ensures ok { IfOk result (λ t. IsEventTable rows.items × (t ≡ rows.items)) }
        ensures err { IfErr result (λ back. (IsEventTable rows.items → ⊥) × (back ≡ rows)) }
    {
        if are_in_order::<ByHandle>(&rows) {
            Ok(Latest { rows })
        } else {
            Err(rows)
        }
    }

    /// Puts the event into the row of its handle, if it opens or closes one, and the row has no event
    /// with this or a greater sequence. An event of base handle 0, which no segment has, gets a row
    /// like any other.
    pub fn note(&mut self, event: &SharedEvent) -> Result<(), NoMemory>
        ensures ok { OnOk result ((process base : ℕ) → event_at self.new process base
            ≡ with_event process base (event_at self.old process base) event.now) }
        ensures err { OnErr result (self.new ≡ self.old) }
    {
        if !event.kind.opens_or_closes() {
            return Ok(());
        }
        match search::<ByHandle>(&self.rows, (event.process, base(event.handle))) {
            Ok(place) => {
                if self.rows[place].sequence < event.sequence {
                    self.rows[place] = event.copy()?;
                }
            }
            Err(gap) => {
                self.rows.insert(gap, event.copy()?)?;
            }
        }
        Ok(())
    }

    /// The latest event of the handle's base in the process. Base 0 names no entry of a handle table,
    /// so it has no event, whatever was noted.
    pub fn get(&self, process: u32, handle: u32) -> Option<&SharedEvent>
        ensures value { base_of handle ≢ 0
            → option_copied result ≡ event_at self.now process (base_of handle) }
        ensures zero { base_of handle ≡ 0 → IsNone result }
    {
        let base = base(handle);
        if base == 0 {
            return None;
        }
        match search::<ByHandle>(&self.rows, (process, base)) {
            Ok(place) => Some(&self.rows[place]),
            Err(_) => None,
        }
    }

    /// All events by process and base handle.
    pub fn rows(&self) -> &[SharedEvent]
        ensures value { result.now ≡ self.now }
        ensures listed { Lists ByKey (HasEvent self.now) result.now }
    {
        self.rows.as_slice()
    }

    /// The events of one process by base handle.
    pub fn rows_of(&self, process: u32) -> &[SharedEvent]
        ensures value { result.now ≡ filter (λ e. e.process == process) self.now }
        ensures listed { Lists ByBase (HasEventOf self.now process) result.now }
    {
        of_process(&self.rows, process)
    }

    /// Whether both tables have the same event for each handle. Then they are equal.
    pub fn same(&self, other: &Latest<A>) -> bool
        ensures events { IsTrue result ↔ ((process base : ℕ)
            → event_at self.now process base ≡ event_at other.now process base) }
        ensures equal { IsTrue result ↔ (self.now ≡ other.now) }
    {
        self.rows() == other.rows()
    }

    /// Gets all memory that a join with the other table takes. Where it is refused, this table comes
    /// back.
    pub fn prepare(self, newer: Latest<A>) -> Result<Joining<A>, Latest<A>>
        ensures ok { IfOk result (λ joining. (joining.older ≡ self) × (joining.newer ≡ newer)) }
        ensures err { IfErr result (λ table. table ≡ self) }
    {
        let mut rows = self.rows;
        let count = rows.len();
        let places = missing(&rows, &newer.rows);
        match append_copies(&mut rows, &newer.rows[..places]) {
            Ok(()) => Ok(Joining::new(rows, count, newer.rows)),
            Err(_) => {
                rows.truncate(count);
                Err(Latest { rows })
            }
        }
    }
}

impl<A: Allocator + Clone> Latest<A> {
    ghost use Rattle.std.specs.Prelude.{◌≡◌, ◌≢◌, ◌==◌, ◌<◌, ℕ, [], None, Ok, OnOk, IfOk, Contains};
    ghost use Rattle.std.specs.Prelude.{filter, flat_map, fold, length, map, IsSorted};
    ghost use Rattle.htl_event.specs.Handles.{LatestIs, later};
    ghost use Rattle.htl_tables.specs.Latest.{event_at, noted, with_event};
    ghost use Rattle.htl_tables.specs.OfProcess.{noted_of, touches};
    ghost use Rattle.htl_tables.specs.SortKeys.{sort_key_cmp, AreCandidates, AreKeysIn};
    ghost use Rattle.htl_tables.specs.FirstKeys.{HaveFirstKeys, NotesKeys};

    /// The later event of both tables for each handle, this table's where their sequences are
    /// equal, under a clone of this table's allocator.
    pub fn join(&self, other: &Latest<A>) -> Result<Latest<A>, NoMemory>
        ensures { IfOk result (λ t. (process base : ℕ) → event_at t process base
            ≡ later (event_at self.now process base) (event_at other.now process base)) }
    {
        let alloc = self.rows.allocator().clone()?;
        Ok(Latest {
            rows: merge::<ByHandle, A>(alloc, &self.rows, &other.rows)?,
        })
    }

    /// This table joined with the rows that the other has of one process: each of its handles gets the
    /// later event of both, or this table's where their sequences are equal. Where the other has no
    /// such row, it takes no memory.
    pub fn join_process<B: Allocator>(
        self,
        other: &Latest<B>,
        process: u32,
    ) -> Result<Latest<A>, NoMemory>
        ensures joined { IfOk result (λ t. (base : ℕ) → event_at t process base
            ≡ later (event_at self process base) (event_at other.now process base)) }
        ensures others { IfOk result (λ t. (owner base : ℕ) → owner ≢ process
            → event_at t owner base ≡ event_at self owner base) }
        ensures nothing { filter (λ e. e.process == process) other.now ≡ []
            → result ≡ Ok self }
    {
        let rows = of_process(&other.rows, process);
        if rows.is_empty() {
            return Ok(self);
        }
        let alloc = self.rows.allocator().clone()?;
        Ok(Latest {
            rows: merge::<ByHandle, A>(alloc, &self.rows, rows)?,
        })
    }

    /// An equal table, under a clone of this one's allocator.
    pub fn copy(&self) -> Result<Latest<A>, NoMemory>
        ensures { IfOk result (λ t. t ≡ self.now) }
    {
        let alloc = self.rows.allocator().clone()?;
        let mut rows = Vec::with_capacity(alloc, self.rows.len())?;
        for row in &self.rows {
            rows.push(row.copy()?)?;
        }
        Ok(Latest { rows })
    }

    /// The latest event of each handle among those of the lists, in any order. Of events with one
    /// sequence the first stays, as if the events were noted one after the other, list by list.
    pub fn of<R: EventList>(alloc: A, lists: &[R]) -> Result<Latest<A>, NoMemory>
        ensures noted { IfOk result (λ t. (process base : ℕ)
            → event_at t process base ≡ noted (flat_map R.events_of lists.now) process base) }
        ensures latest { IfOk result (λ t. (process base : ℕ)
            → LatestIs (Contains (flat_map R.events_of lists.now)) process base
            (event_at t process base)) }
    {
        Latest::of_chosen(alloc, lists, None)
    }

    /// As `of`, but of one process alone: the table has no event of another.
    pub fn of_process<R: EventList>(
        alloc: A,
        lists: &[R],
        process: u32,
    ) -> Result<Latest<A>, NoMemory>
        ensures noted { IfOk result (λ t. (base : ℕ)
            → event_at t process base ≡ noted (flat_map R.events_of lists.now) process base) }
        ensures latest { IfOk result (λ t. (base : ℕ)
            → LatestIs (Contains (flat_map R.events_of lists.now)) process base
            (event_at t process base)) }
        ensures others { IfOk result (λ t. (other base : ℕ) → other ≢ process
            → event_at t other base ≡ None) }
    {
        Latest::of_chosen(alloc, lists, Some(process))
    }

    fn of_chosen<R: EventList>(
        alloc: A,
        lists: &[R],
        chosen: Option<u32>,
    ) -> Result<Latest<A>, NoMemory>
        ensures { IfOk result (λ t. (process base : ℕ) → event_at t process base
            ≡ noted_of chosen (flat_map R.events_of lists.now) process base) }
    {
        let keys = candidates_in(alloc.clone()?, lists, chosen)?;
        let mut latest = Latest {
            rows: Vec::with_capacity(alloc, handles_in(&keys))?,
        };
        latest.note_all(keys, lists, chosen)?;
        Ok(latest)
    }

    /// Notes the events of these sort keys, half of those that are left at a time. Each half is dropped
    /// once it is noted, so that its memory is free while the rows take more.
    fn note_all<R: EventList>(
        &mut self,
        keys: Vec<SortKey, A>,
        lists: &[R],
        chosen: Option<u32>,
    ) -> Result<(), NoMemory>
        requires keys { AreCandidates R.events_of lists.now (touches chosen) keys.items }
        requires sorted { IsSorted sort_key_cmp keys.items }
        requires none { self.old ≡ [] }
        ensures { OnOk result (HaveFirstKeys R.events_of lists.now (touches chosen) keys.items
            (length keys.items) self.new) }
    {
        let mut rest = keys;
        while !rest.is_empty() {
            let half = rest.len().div_ceil(2);
            self.note_keys(&rest[..half], lists, chosen)?;
            drop_first(&mut rest, half);
        }
        Ok(())
    }

    /// Notes the events of these sort keys. Those of a block of keys are read together.
    fn note_keys<R: EventList>(
        &mut self,
        keys: &[SortKey],
        lists: &[R],
        chosen: Option<u32>,
    ) -> Result<(), NoMemory>
        requires { AreKeysIn R.events_of lists.now (touches chosen) keys.now }
        ensures { OnOk result (NotesKeys R.events_of lists.now (touches chosen) keys.now
            self.old self.new) }
    {
        for block in keys.chunks(BLOCK) {
            let alloc = self.rows.allocator().clone()?;
            let events = events_of(alloc, block, lists, chosen)?;
            self.note_each(&events)?;
        }
        Ok(())
    }

    /// Notes the events, one after the other.
    fn note_each(&mut self, events: &[&SharedEvent]) -> Result<(), NoMemory>
        ensures { OnOk result ((process base : ℕ) → event_at self.new process base
            ≡ fold (with_event process base) (event_at self.old process base)
            (map (λ e. e.now) events.now)) }
    {
        for event in events {
            self.note(event)?;
        }
        Ok(())
    }
}
