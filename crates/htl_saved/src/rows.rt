//! The rows of an analyst.

ghost use Rattle.std.specs.Prelude.{◌≡◌, ◌<◌, ◌≤◌, ◌^◌, length, Err, IfOk};
ghost use Rattle.htl_state.specs.Rows.{State};
ghost use Rattle.htl_saved.specs.AnalystRows.{AreRowsOf, IsKept};

use crate::fault::SaveFault;
use crate::parts::all_parts;
use crate::table::table_of;
use htl_analyst::Analyst;
use htl_state::StateRows;
use std::alloc::{Allocator, Global};

/// The most stacks that a table may have: a row names a place by 32 bits.
const MAX_STACKS: u64 = 1 << 32;

/// The rows of the analyst. Stacks and held segments stay shared with it.
///
/// It takes a time of about n log n for n counts and latest events. `SaveFault::Stacks` comes before
/// any row is made.
pub fn rows_of<A: Allocator + Clone>(
    alloc: Global,
    analyst: &Analyst<A>,
) -> Result<StateRows, SaveFault>
    ensures rows { IfOk result (λ rows. AreRowsOf analyst.now rows) }
    ensures few { IfOk result (λ rows. length rows.stacks ≤ 2 ^ 32) }
    ensures kept { IfOk result (λ _. IsKept analyst.now) }
    // The analyst has more stacks than rows can name.
    ensures many { result ≡ Err SaveFault.Stacks → (rows : State)
        → AreRowsOf analyst.now rows → 2 ^ 32 < length rows.stacks }
{
    let stacks = table_of(alloc, analyst.parts())?;
    if stacks.len() as u64 > MAX_STACKS {
        return Err(SaveFault::Stacks);
    }
    let parts = all_parts(alloc, &stacks, analyst)?;
    Ok(StateRows {
        trace_id: analyst.trace_id(),
        stacks,
        parts,
    })
}
