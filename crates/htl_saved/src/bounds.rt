//! Whether the counts and the events of rows are within what segments have.

ghost use Rattle.std.specs.Prelude.{◌↔◌, ◌≤◌, ◌<◌, ℕ, List, length, map, IsTrue, IfErr, OnOk};
ghost use Rattle.std.specs.List.{sum_by};
ghost use Rattle.htl_event.specs.Tallies.{total_of};
ghost use Rattle.htl_analyst.specs.Restored.{CanRestore, IsBounded, IsOver, RestoreRefused};
ghost use Rattle.htl_saved.specs.Restored.{fold_told};

use htl_analyst::RestoreFault;
use htl_state::{CountRow, PartRows};

/// The most events of a segment.
const MAX_EVENTS: u64 = 4096;

/// Whether there is an analyst of the parts, whatever their stacks are.
pub(crate) fn check_bounds(parts: &[PartRows]) -> Result<(), RestoreFault>
    requires some { 0 < length parts.now }
    requires few { length parts.now ≤ 256 }
    ensures accepted { OnOk result ((table : List (List ℕ))
        → CanRestore (map (fold_told table) parts.now)) }
    ensures refused { IfErr result (λ fault. (table : List (List ℕ))
        → RestoreRefused (map (fold_told table) parts.now) fault) }
{
    for (processor, part) in parts.iter().enumerate() {
        check_part(processor as u16, part)?;
    }
    Ok(())
}

fn check_part(processor: u16, part: &PartRows) -> Result<(), RestoreFault>
    ensures bounded { OnOk result ((table : List (List ℕ)) → IsBounded (fold_told table part.now)) }
    ensures over { IfErr result (λ fault. (table : List (List ℕ))
        → IsOver (fold_told table part.now) processor fault) }
{
    let most = MAX_EVENTS * u64::from(part.front);
    if !add_up_to(&part.counts, most) {
        return Err(RestoreFault::Counts(processor));
    }
    if part.events > most {
        return Err(RestoreFault::Events(processor));
    }
    Ok(())
}

/// Whether the counts add up to this number at most.
fn add_up_to(counts: &[CountRow], most: u64) -> bool
    ensures { IsTrue result ↔ (sum_by (λ row. total_of row.count) counts.now ≤ most) }
{
    let mut left = most;
    for row in counts {
        let count = row.count;
        if count.plus > left || count.minus > left - count.plus {
            return false;
        }
        left = left - count.plus - count.minus;
    }
    true
}
