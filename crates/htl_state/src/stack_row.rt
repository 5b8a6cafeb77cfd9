//! The table of stacks: its rows.
ghost use Rattle.std.specs.Prelude.{◌≡◌, ◌≤◌, ◌+◌, ◌*◌, ◌++◌, length, IfOk, OnOk};
ghost use Rattle.std.specs.List.{flat_map};
ghost use Rattle.htl_segment.specs.Numbers.{numbers, bytes_of};

use crate::fault::Fault;
use crate::row::{Row, RowRead};
use crate::rows::Setting;
use htl_event::{MAX_FRAMES, NoMemory, SharedStack};
use htl_segment::{push_u64, u64_at};
use std::alloc::{AllocError, Global};
use std::cmp::Ordering;

impl Row for SharedStack {
    ghost use Rattle.htl_state.specs.Reading.{stacks};

    ghost format = { stacks };

    fn least() -> usize {
        1
    }

    fn fault() -> Fault {
        Fault::Stack
    }

    #[tactic(auto, unfolding(crate::specs::Reading::stack_in))]
    fn read<'a>(alloc: Global, _setting: Setting, bytes: &'a [u8]) -> RowRead<'a, SharedStack> {
        if bytes.len() < 1 {
            return Ok(None);
        }
        let depth = bytes[0] as usize;
        if depth > MAX_FRAMES || bytes.len() < 1 + 8 * depth {
            return Ok(None);
        }
        let stack = SharedStack::of(alloc, addresses(alloc, depth, bytes)?, 0)?;
        Ok(Some((stack, &bytes[1 + 8 * depth..])))
    }

    fn is_before(&self, next: &SharedStack) -> bool {
        self.cmp(next) == Ordering::Less
    }

    #[tactic(auto, unfolding(crate::specs::Format::stack_bytes))]
    fn write(&self, _alloc: Global, out: &mut Vec<u8>) -> Result<(), NoMemory> {
        let frames = self.frames();
        out.push(frames.len() as u8)?;
        push_addresses(out, frames)?;
        Ok(())
    }
}

/// The addresses behind the first byte.
fn addresses(alloc: Global, depth: usize, bytes: &[u8]) -> Result<Vec<u64>, NoMemory>
    requires few { depth ≤ MAX_FRAMES }
    requires inside { 1 + 8 * depth ≤ length bytes.now }
    ensures value { IfOk result (λ v. v.items ≡ numbers 1 depth bytes.now) }
    ensures few { IfOk result (λ v. length v.items ≤ MAX_FRAMES) }
{
    let mut addresses = Vec::with_capacity(alloc, depth)?;
    for place in 0..depth {
        addresses.push(u64_at(bytes, 1 + 8 * place))?;
    }
    Ok(addresses)
}

fn push_addresses(out: &mut Vec<u8>, addresses: &[u64]) -> Result<(), AllocError>
    ensures { OnOk result (out.new.items ≡ out.old.items ++ flat_map (bytes_of 8) addresses.now) }
{
    for address in addresses {
        push_u64(out, *address)?;
    }
    Ok(())
}
