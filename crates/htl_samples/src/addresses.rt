//! Stacks of given addresses.

ghost use Rattle.std.specs.Prelude.{◌≡◌, IfOk};

use crate::SampleFault;
use htl_event::{MAX_FRAMES, SharedStack, Stack};
use htl_segment::StackCache;
use std::alloc::Global;

/// A stack of these addresses, the innermost call first. Those after the 64th are left out.
pub fn stack(frames: &[u64]) -> Stack {
    let mut stack = Stack::new();
    for frame in frames {
        stack.push(*frame);
    }
    stack
}

/// A shared stack of these addresses, the innermost call first. More than 64 are refused.
pub fn shared_stack(alloc: Global, frames: &[u64]) -> Result<SharedStack, SampleFault>
    ensures { IfOk result (λ stack. stack ≡ frames.now) }
{
    if frames.len() > MAX_FRAMES {
        return Err(SampleFault::Line);
    }
    Ok(StackCache::new(alloc).of_addresses(alloc, frames)?)
}
