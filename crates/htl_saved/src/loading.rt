//! The analyst whose state bytes are.

ghost use Rattle.std.specs.Prelude.{◌≡◌, IfOk, IfErr};
ghost use Rattle.htl_analyst.specs.States.{State as Analysts};
ghost use Rattle.htl_state.specs.Rows.{State};
ghost use Rattle.htl_state.specs.WellFormed.{Spells};
ghost use Rattle.htl_saved.specs.AnalystRows.{AreRowsOf};
ghost use Rattle.htl_saved.specs.Laws.{IsPlainState};
ghost use Rattle.htl_saved.specs.Loads.{IsLoaded, LoadRefused};

use crate::fault::LoadFault;
use crate::restoring::analyst_of;
use htl_analyst::Analyst;
use htl_state::decode;
use std::alloc::Global;

/// The analyst whose state the bytes are, in the format HLA1. The rows are dropped once it is made.
pub fn load(alloc: Global, bytes: &[u8]) -> Result<Analyst<Global>, LoadFault>
    ensures loaded { IfOk result (λ a. IsLoaded bytes.now a) }
    // What was saved of an analyst is loaded as the same.
    ensures saved { (before : Analysts) (rows : State) → IsPlainState before
        → AreRowsOf before rows → Spells bytes.now rows → IfOk result (λ a. a ≡ before) }
    ensures refused { IfErr result (λ fault. LoadRefused bytes.now fault) }
{
    let rows = decode(alloc, bytes)?;
    let analyst = analyst_of(alloc, &rows)?;
    Ok(analyst)
}
