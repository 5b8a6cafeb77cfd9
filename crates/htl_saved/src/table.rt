//! The table of stacks: those of all counts and of all latest events, each once.

ghost use Rattle.std.specs.Prelude.{◌≡◌, ◌++◌, IfOk, OnOk};
ghost use Rattle.htl_saved.specs.AnalystRows.{IsTable, stacks_of};

use crate::stacks::{push_counted, push_latest, put_in_order};
use crate::tally::counts_of;
use htl_analyst::Part;
use htl_answers as answers;
use htl_event::{NoMemory, SharedStack};
use std::alloc::{Allocator, Global};

/// All stacks of the parts in stack order, each once.
pub(crate) fn table_of<A: Allocator + Clone>(
    alloc: Global,
    parts: &[Part<A>],
) -> Result<Vec<SharedStack>, NoMemory>
    ensures { IfOk result (λ table. IsTable parts.now table.items) }
{
    let mut stacks = Vec::new(alloc);
    for part in parts {
        push_stacks(alloc, &mut stacks, part)?;
    }
    put_in_order(&mut stacks);
    Ok(stacks)
}

/// Adds the stacks of the part, each as often as a count or a latest event has it.
fn push_stacks<A: Allocator + Clone>(
    alloc: Global,
    stacks: &mut Vec<SharedStack>,
    part: &Part<A>,
) -> Result<(), NoMemory>
    ensures { OnOk result (stacks.new.items ≡ stacks.old.items ++ stacks_of part.now) }
{
    let counts = counts_of(alloc, answers::Part::tree(part))?;
    push_counted(stacks, &counts)?;
    push_latest(stacks, answers::Part::latest(part).rows())?;
    Ok(())
}
