//! Lists of stacks: gathered, and put in order.

ghost use Rattle.std.specs.Prelude.{◌≡◌, ◌↔◌, ◌++◌, ℕ, List, map, Contains, OnOk};
ghost use Rattle.htl_event.specs.Members.{IsRising};
ghost use Rattle.htl_saved.specs.Tables.{InStackOrder};

use htl_event::{Count, NoMemory, SharedEvent, SharedStack, Slot};

/// Adds the stack of each count.
pub(crate) fn push_counted(
    stacks: &mut Vec<SharedStack>,
    counts: &[((Slot, SharedStack), Count)],
) -> Result<(), NoMemory>
    ensures { OnOk result (stacks.new.items
        ≡ stacks.old.items ++ map (λ row. row.0.1) counts.now) }
{
    for ((_, stack), _) in counts {
        stacks.push(stack.copy()?)?;
    }
    Ok(())
}

/// Adds the stack of each event.
pub(crate) fn push_latest(
    stacks: &mut Vec<SharedStack>,
    latest: &[SharedEvent],
) -> Result<(), NoMemory>
    ensures { OnOk result (stacks.new.items ≡ stacks.old.items ++ map (λ e. e.stack) latest.now) }
{
    for event in latest {
        stacks.push(event.stack.copy()?)?;
    }
    Ok(())
}

/// Puts the stacks in order, each once.
pub(crate) fn put_in_order(stacks: &mut Vec<SharedStack>)
    ensures rising { IsRising InStackOrder stacks.new.items }
    ensures members { (stack : List ℕ)
        → Contains stacks.new.items stack ↔ Contains stacks.old.items stack }
{
    stacks.sort_unstable();
    stacks.dedup();
}
