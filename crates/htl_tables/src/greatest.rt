//! The greatest sequence of one kind of event for each process: snapshot marks and last exits.

ghost use Rattle.std.specs.Prelude.{◌≡◌, ◌↔◌, ◌<◌, ◌⊎◌, ℕ, IsTrue, IfOk, OnOk, Contains, flat_map};
ghost use Rattle.std.specs.Prelude.{nat_lt};
ghost use Rattle.std.specs.List.{list_all};
ghost use Rattle.htl_tables.specs.Moments.{IsMoment};

use crate::by_process::ByProcess;
use crate::order::are_in_order;
use htl_event::{EventList, Kind, NoMemory, SharedEvent};
use htl_sorted::{merge, search};
use std::alloc::Allocator;
use std::marker::{Model, PhantomData};

/// The kind of event whose greatest sequences a table keeps.
pub trait EventKind {
    ghost use Rattle.std.specs.Prelude.{◌≡◌};
    ghost use Rattle.htl_event.specs.declared.kind.Kind.{Kind};

    ghost kind: { Kind };

    fn kind() -> Kind
        ensures { result ≡ kind };
}

/// Snapshots, which mark a starting state.
pub struct Snapshots;

impl EventKind for Snapshots {
    ghost use Rattle.htl_event.specs.declared.kind.Kind.TheVariants.{Snapshot};

    ghost kind = { Snapshot };

    fn kind() -> Kind {
        Kind::Snapshot
    }
}

/// Process exits, which close all handles of their process.
pub struct ProcessExits;

impl EventKind for ProcessExits {
    ghost use Rattle.htl_event.specs.declared.kind.Kind.TheVariants.{Exited};

    ghost kind = { Exited };

    fn kind() -> Kind {
        Kind::Exited
    }
}

/// The mark of each process: the greatest sequence of its snapshots.
pub type Marks<A> = Greatest<Snapshots, A>;

/// The last exit of each process: the greatest sequence of its exits.
pub type Exits<A> = Greatest<ProcessExits, A>;

/// The greatest sequence of one kind of event for each process.
#[derive(Drop)]
pub struct Greatest<K, A: Allocator> {
    rows: Vec<(u32, u64), A>,
    kind: PhantomData<K>,
}

impl<K, A: Allocator> Model for Greatest<K, A> {
    ghost use Rattle.std.specs.Prelude.{ℕ, List};
    ghost use Rattle.htl_tables.specs.Tables.{IsSequenceTable};

    ghost Value = { List (ℕ × ℕ) };

    ghost view = { λ t. t.rows.items };

    ghost invariant = { λ t. IsSequenceTable t.rows.items };
}

impl<K: EventKind, A: Allocator> Greatest<K, A> {
    ghost use Rattle.std.specs.Prelude.{◌≡◌, ◌≢◌, ◌↔◌, ◌<◌, ℕ, [], max};
    ghost use Rattle.std.specs.Prelude.{IfOk, IfErr, OnOk, OnErr, IsTrue};
    ghost use Rattle.htl_event.specs.Members.{Lists};
    ghost use Rattle.htl_event.specs.Handles.{IsOf};
    ghost use Rattle.htl_tables.specs.Greatest.{sequence_at, HasLowerProcess, HasSequence};
    ghost use Rattle.htl_tables.specs.Tables.{IsSequenceTable};

    /// An empty table. It takes no memory.
    pub fn new(alloc: A) -> Greatest<K, A>
        ensures { result ≡ [] }
    {
        Greatest {
            rows: Vec::new(alloc),
            kind: PhantomData,
        }
    }

    /// The table of these rows, each a process and its sequence. Rows that aren't in order by process,
    /// of which two have one process, or one has the sequence 0, are no table's and come back. It
    /// takes no memory.
    pub fn of_rows(rows: Vec<(u32, u64), A>) -> Result<Greatest<K, A>, Vec<(u32, u64), A>>
        ensures ok { IfOk result (λ t. IsSequenceTable rows.items × (t ≡ rows.items)) }
        ensures err { IfErr result (λ back. (IsSequenceTable rows.items → ⊥) × (back ≡ rows)) }
    {
        if are_in_order::<ByProcess>(&rows) && are_positive(&rows) {
            Ok(Greatest {
                rows,
                kind: PhantomData,
            })
        } else {
            Err(rows)
        }
    }

    /// The greatest sequence that was noted for the process, or 0 where none was.
    pub fn get(&self, process: u32) -> u64
        ensures { result ≡ sequence_at self.now process }
    {
        match search::<ByProcess>(&self.rows, process) {
            Ok(place) => self.rows[place].1,
            Err(_) => 0,
        }
    }

    /// Raises the process's sequence to the event's, where that is of the table's kind. A sequence
    /// of 0, which no event of a segment has, makes no row, so that "no row" and 0 are one answer.
    pub fn note(&mut self, event: &SharedEvent) -> Result<(), NoMemory>
        ensures noted { OnOk result (event.now.kind ≡ K.kind
            → sequence_at self.new event.now.process
            ≡ max (sequence_at self.old event.now.process) event.now.sequence) }
        ensures others { OnOk result ((process : ℕ) → (IsOf K.kind process event.now → ⊥)
            → sequence_at self.new process ≡ sequence_at self.old process) }
        ensures err { OnErr result (self.new ≡ self.old) }
    {
        if !has_row::<K>(event) {
            return Ok(());
        }
        self.raise(event.process, event.sequence)
    }

    fn raise(&mut self, process: u32, sequence: u64) -> Result<(), NoMemory>
        requires { 0 < sequence }
        ensures raised { OnOk result (sequence_at self.new process
            ≡ max (sequence_at self.old process) sequence) }
        ensures others { OnOk result ((other : ℕ) → other ≢ process
            → sequence_at self.new other ≡ sequence_at self.old other) }
        ensures err { OnErr result (self.new ≡ self.old) }
    {
        match search::<ByProcess>(&self.rows, process) {
            Ok(place) => {
                let row = &mut self.rows[place];
                row.1 = row.1.max(sequence);
            }
            Err(gap) => {
                self.rows.insert(gap, (process, sequence))?;
            }
        }
        Ok(())
    }

    /// Each process for which a sequence was noted, in order, with the greatest one.
    pub fn rows(&self) -> &[(u32, u64)]
        ensures value { result.now ≡ self.now }
        ensures listed { Lists HasLowerProcess (HasSequence self.now) result.now }
    {
        self.rows.as_slice()
    }

    /// Whether both tables have the same sequence for each process. Then they are equal.
    pub fn same(&self, other: &Greatest<K, A>) -> bool
        ensures sequences { IsTrue result ↔ ((process : ℕ)
            → sequence_at self.now process ≡ sequence_at other.now process) }
        ensures equal { IsTrue result ↔ (self.now ≡ other.now) }
    {
        self.rows() == other.rows()
    }
}

impl<K: EventKind, A: Allocator + Clone> Greatest<K, A> {
    ghost use Rattle.std.specs.Prelude.{◌≡◌, ℕ, max, IfOk, Contains, flat_map};
    ghost use Rattle.htl_event.specs.Handles.{IsGreatestSequence, IsOf};
    ghost use Rattle.htl_tables.specs.Greatest.{sequence_at};

    /// The greater sequence of both tables for each process, under a clone of this table's
    /// allocator.
    pub fn join(&self, other: &Greatest<K, A>) -> Result<Greatest<K, A>, NoMemory>
        ensures { IfOk result (λ t. (process : ℕ) → sequence_at t process
            ≡ max (sequence_at self.now process) (sequence_at other.now process)) }
    {
        let alloc = self.rows.allocator().clone()?;
        Ok(Greatest {
            rows: merge::<ByProcess, A>(alloc, &self.rows, &other.rows)?,
            kind: PhantomData,
        })
    }

    /// An equal table, under a clone of this one's allocator.
    pub fn copy(&self) -> Result<Greatest<K, A>, NoMemory>
        ensures { IfOk result (λ t. t ≡ self.now) }
    {
        let alloc = self.rows.allocator().clone()?;
        Ok(Greatest {
            rows: Vec::from_slice(alloc, &self.rows)?,
            kind: PhantomData,
        })
    }

    /// The greatest sequence of each process among the events of the lists, in any order.
    pub fn of<R: EventList>(alloc: A, lists: &[R]) -> Result<Greatest<K, A>, NoMemory>
        ensures { IfOk result (λ t. (process : ℕ) → IsGreatestSequence
            (λ e. Contains (flat_map R.events_of lists.now) e × IsOf K.kind process e)
            (sequence_at t process)) }
    {
        let moments = moments_in::<K, R, A>(alloc.clone()?, lists)?;
        let mut greatest = Greatest::new(alloc);
        for (process, sequence) in &moments {
            greatest.raise(*process, *sequence)?;
        }
        Ok(greatest)
    }
}

/// Whether each sequence is above 0.
fn are_positive(rows: &[(u32, u64)]) -> bool
    ensures { result ≡ list_all (λ row. nat_lt 0 row.1) rows.now }
{
    rows.iter().all(|row| row.1 > 0)
}

/// Whether a table of this kind has a row for the event's process once the event was noted. No
/// event of a segment has the sequence 0.
fn has_row<K: EventKind>(event: &SharedEvent) -> bool
    ensures { IsTrue result ↔ ((event.now.kind ≡ K.kind) × (0 < event.now.sequence)) }
{
    event.kind == K::kind() && event.sequence > 0
}

/// The process and the sequence of each event of the kind, by process and then by sequence.
fn moments_in<K: EventKind, R: EventList, A: Allocator>(
    alloc: A,
    lists: &[R],
) -> Result<Vec<(u32, u64), A>, NoMemory>
    ensures { IfOk result (λ moments. (row : ℕ × ℕ) → Contains moments.items row
        ↔ IsMoment (Contains (flat_map R.events_of lists.now)) K.kind row) }
{
    let mut moments = Vec::new(alloc);
    for list in lists {
        gather::<K, A>(&mut moments, list.events())?;
    }
    moments.sort_unstable();
    Ok(moments)
}

/// Adds the process and the sequence of each event of the kind.
fn gather<K: EventKind, A: Allocator>(
    moments: &mut Vec<(u32, u64), A>,
    events: &[SharedEvent],
) -> Result<(), NoMemory>
    ensures { OnOk result ((row : ℕ × ℕ) → Contains moments.new.items row
        ↔ (Contains moments.old.items row ⊎ IsMoment (Contains events.now) K.kind row)) }
{
    for event in events {
        if has_row::<K>(event) {
            moments.push((event.process, event.sequence))?;
        }
    }
    Ok(())
}
