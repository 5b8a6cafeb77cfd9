//! An analyst as bytes.

ghost use Rattle.std.specs.Prelude.{◌≡◌, ◌<◌, ◌^◌, length, Err, IfOk};
ghost use Rattle.htl_state.specs.Rows.{State};
ghost use Rattle.htl_saved.specs.AnalystRows.{AreRowsOf, IsKept, IsSaved};

use crate::fault::SaveFault;
use crate::rows::rows_of;
use htl_analyst::Analyst;
use htl_state::encode;
use std::alloc::{Allocator, Global};

/// The state of the analyst as bytes in the format HLA1. The rows are dropped once they are written.
///
/// Compact the analyst before. Where it isn't, it may hold a segment at its front, and `load` refuses
/// such bytes.
pub fn save<A: Allocator + Clone>(alloc: Global, analyst: &Analyst<A>) -> Result<Vec<u8>, SaveFault>
    ensures saved { IfOk result (λ bytes. IsSaved analyst.now bytes.items) }
    ensures kept { IfOk result (λ _. IsKept analyst.now) }
    // The analyst has more stacks than rows can name.
    ensures many { result ≡ Err SaveFault.Stacks → (rows : State)
        → AreRowsOf analyst.now rows → 2 ^ 32 < length rows.stacks }
{
    let rows = rows_of(alloc, analyst)?;
    let bytes = encode(alloc, &rows)?;
    Ok(bytes)
}
