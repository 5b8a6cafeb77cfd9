//! The tables of all parts as one table of each kind.

ghost use Rattle.std.specs.Prelude.{◌≡◌, List, [], ◌++◌, true, map, flat_map, IfOk};
ghost use Rattle.htl_event.specs.Events.{Event};
ghost use Rattle.htl_answers.specs.Parts.{AreEventsOf, AreTablesOf, IsFoldOf};

use htl_answers::Part;
use htl_event::{EventList, NoMemory};
use htl_tables::{Exits, Latest, Marks};
use std::alloc::Allocator;

/// The latest event of each handle, the mark and the last exit of each process.
#[derive(Drop)]
pub(crate) struct Tables<A: Allocator> {
    pub latest: Latest<A>,
    pub marks: Marks<A>,
    pub exits: Exits<A>,
}

/// The tables of all parts. They are joined in pairs, and the results in pairs again.
pub(crate) fn tables_of<P: Part>(
    alloc: &P::Alloc,
    parts: &[P],
) -> Result<Tables<P::Alloc>, NoMemory>
    ensures { IfOk result (λ tables. (events : List Event)
        → AreEventsOf (map P.contents parts.now) events
        → AreTablesOf events tables.latest tables.marks tables.exits) }
{
    if parts.len() < 2 {
        return match parts.first() {
            None => no_tables(alloc),
            Some(part) => tables_of_part(alloc, part),
        };
    }
    let (front, back) = parts.split_at(parts.len() / 2);
    let left = tables_of(alloc, front)?;
    let right = tables_of(alloc, back)?;
    joined(&left, &right)
}

/// The tables of no events.
fn no_tables<A: Allocator + Clone>(alloc: &A) -> Result<Tables<A>, NoMemory>
    ensures { IfOk result (λ tables. AreTablesOf [] tables.latest tables.marks tables.exits) }
{
    Ok(Tables {
        latest: Latest::new(alloc.clone()?),
        marks: Marks::new(alloc.clone()?),
        exits: Exits::new(alloc.clone()?),
    })
}

/// The tables of one part, over its folded and its held events.
fn tables_of_part<P: Part>(alloc: &P::Alloc, part: &P) -> Result<Tables<P::Alloc>, NoMemory>
    ensures { IfOk result (λ tables. (folded : List Event) → IsFoldOf (P.contents part.now) folded
        → AreTablesOf (folded ++ (P.contents part.now).held)
        tables.latest tables.marks tables.exits) }
{
    let held = tables_of_lists(alloc, part.held())?;
    if has_no_tables(part) {
        return Ok(held);
    }
    Ok(Tables {
        latest: part.latest().join(&held.latest)?,
        marks: part.marks().join(&held.marks)?,
        exits: part.exits().join(&held.exits)?,
    })
}

/// Whether the tables of a part are empty, as they are before it has folded anything.
fn has_no_tables<P: Part>(part: &P) -> bool
    ensures { result ≡ true → ((P.contents part.now).latest ≡ [])
        × ((P.contents part.now).marks ≡ []) × ((P.contents part.now).exits ≡ []) }
{
    part.latest().rows().is_empty()
        && part.marks().rows().is_empty()
        && part.exits().rows().is_empty()
}

/// The tables of the events of the lists. The latest events, which take the most memory, are found
/// last, so that they aren't there while the other tables are made.
fn tables_of_lists<A: Allocator + Clone, E: EventList>(
    alloc: &A,
    lists: &[E],
) -> Result<Tables<A>, NoMemory>
    ensures { IfOk result (λ tables. AreTablesOf (flat_map E.events_of lists.now)
        tables.latest tables.marks tables.exits) }
{
    Ok(Tables {
        marks: Marks::of(alloc.clone()?, lists)?,
        exits: Exits::of(alloc.clone()?, lists)?,
        latest: Latest::of(alloc.clone()?, lists)?,
    })
}

/// The tables of the events of both tables.
fn joined<A: Allocator + Clone>(left: &Tables<A>, right: &Tables<A>) -> Result<Tables<A>, NoMemory>
    ensures { IfOk result (λ tables. (events more : List Event)
        → AreTablesOf events left.now.latest left.now.marks left.now.exits
        → AreTablesOf more right.now.latest right.now.marks right.now.exits
        → AreTablesOf (events ++ more) tables.latest tables.marks tables.exits) }
{
    Ok(Tables {
        latest: left.latest.join(&right.latest)?,
        marks: left.marks.join(&right.marks)?,
        exits: left.exits.join(&right.exits)?,
    })
}
