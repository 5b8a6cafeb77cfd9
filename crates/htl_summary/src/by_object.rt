//! Objects, and whether their references balance.

ghost use Rattle.std.specs.Prelude.{◌≡◌, ◌<◌, ◌^◌, List, Contains};
ghost use Rattle.std.specs.Prelude.{length, map, IfOk};
ghost use Rattle.std.specs.List.{sum_by};
ghost use Rattle.htl_event.specs.Events.{Event};
ghost use Rattle.htl_event.specs.declared.slot.Slot.{Slot};
ghost use Rattle.htl_event.specs.declared.slot.Count.{Count};
ghost use Rattle.htl_event.specs.Tallies.{total_of, IsPositive};
ghost use Rattle.htl_event.specs.Summaries.{IsUnbalanced, IsNumberOfObjects};
ghost use Rattle.htl_answers.specs.Parts.{AreEventsOf, size_of_all};
ghost use Rattle.htl_answers.specs.Sums.{ListsSlotSums};

use crate::ranking::{Ranked, keep_counted, put_most_first};
use crate::rows::rows_by_owner;
use htl_answers::{Part, slot_sums};
use htl_event::{Count, NoMemory, ObjectRow, Slot};
use std::alloc::Global;

/// The objects of a summary.
#[derive(Drop)]
pub struct Objects {
    /// The number of objects with an event.
    pub number: u64,
    /// The rows of objects with an unbalanced tag, those with the most unbalanced tags first, and then
    /// by object.
    pub unbalanced: Vec<ObjectRow>,
}

/// The objects that were referenced or dereferenced, and whether their tags balance.
pub fn balances<P: Part>(alloc: Global, parts: &[P]) -> Result<Objects, NoMemory>
    requires { size_of_all (map P.contents parts.now) < 2 ^ 64 }
    ensures number { IfOk result (λ objects. (events : List Event)
        → AreEventsOf (map P.contents parts.now) events
        → IsNumberOfObjects events objects.number) }
    ensures unbalanced { IfOk result (λ objects. (events : List Event)
        → AreEventsOf (map P.contents parts.now) events
        → IsUnbalanced events objects.unbalanced.items) }
{
    let sums = slot_sums(alloc, parts)?;
    balances_of_slots(alloc, &sums)
}

/// As `balances`, of the objects of these slots.
pub(crate) fn balances_of_slots(alloc: Global, sums: &[(Slot, Count)]) -> Result<Objects, NoMemory>
    requires positive { (sum : Slot × Count) → Contains sums.now sum → IsPositive sum.1 }
    requires fits { sum_by (λ sum. total_of sum.1) sums.now < 2 ^ 64 }
    ensures number { IfOk result (λ objects. (events : List Event)
        → ListsSlotSums events sums.now → IsNumberOfObjects events objects.number) }
    ensures unbalanced { IfOk result (λ objects. (events : List Event)
        → ListsSlotSums events sums.now → IsUnbalanced events objects.unbalanced.items) }
{
    let mut rows = rows_by_owner::<ObjectRow>(alloc, sums)?;
    let number = number_of(&rows);
    keep_counted(&mut rows);
    put_most_first(&mut rows);
    Ok(Objects {
        number,
        unbalanced: rows,
    })
}

fn number_of(rows: &[ObjectRow]) -> u64
    ensures { result ≡ length rows.now }
{
    rows.len() as u64
}

impl Ranked for ObjectRow {
    ghost use Rattle.std.specs.FinMap.{nat_cmp-IsAntisymmetric};

    type Key = u64;

    ghost number_of = { λ row. row.unbalanced };

    ghost key_of = { λ row. row.object };

    ghost proper = { nat_cmp-IsAntisymmetric };

    fn number(&self) -> u64 {
        self.unbalanced
    }

    fn key(&self) -> &u64 {
        &self.object
    }
}
