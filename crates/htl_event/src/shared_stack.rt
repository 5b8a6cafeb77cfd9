//! Call stacks that several events share.

use crate::memory::NoMemory;
use crate::stack::{MAX_FRAMES, from_outermost};
use std::alloc::{AllocError, Global};
use std::cmp::Ordering;
use std::marker::Model;
use std::sync::Arc;

/// The memory that all copies of one stack share.
#[derive(Debug, Drop)]
struct Frames {
    fingerprint: u64,
    addresses: Vec<u64>,
}

/// A call stack whose memory is shared between its copies.
///
/// It is the list of its addresses, and compares as `Stack` does.
#[derive(Debug, Drop)]
pub struct SharedStack {
    frames: Arc<Frames>,
}

impl Model for SharedStack {
    ghost use Rattle.std.specs.Prelude.{ℕ, List, length, ◌≤◌};
    ghost use Rattle.std.specs.Arc.{arc_value};

    ghost Value = { List ℕ };

    ghost view = { λ s. (arc_value s.frames).addresses.items };

    ghost invariant = { λ s. length (arc_value s.frames).addresses.items ≤ 64 };
}

impl SharedStack {
    ghost use Rattle.std.specs.Prelude.{◌≡◌, ◌≤◌, length, IfOk};

    /// A stack of these addresses, the innermost call first. The fingerprint is a hint by which a
    /// table finds equal stacks sooner: it is no part of the stack's value, and no answer depends on
    /// it.
    pub fn of(alloc: Global, addresses: Vec<u64>, fingerprint: u64) -> Result<SharedStack, NoMemory>
        requires { length addresses.items ≤ MAX_FRAMES }
        ensures { IfOk result (λ stack. stack ≡ addresses.items) }
    {
        let frames = Frames {
            fingerprint,
            addresses,
        };
        Ok(SharedStack {
            frames: Arc::new(alloc, frames)?,
        })
    }

    /// The addresses, the innermost call first.
    pub fn frames(&self) -> &[u64]
        ensures value { result.now ≡ self.now }
        ensures fits { length result.now ≤ MAX_FRAMES }
    {
        self.frames.addresses.as_slice()
    }

    /// The hint that the stack was made with. Equal stacks may have different fingerprints, and
    /// different stacks the same one.
    pub fn fingerprint(&self) -> u64 {
        self.frames.fingerprint
    }

    /// An equal stack, in the same memory. It refuses only where the memory has as many owners as
    /// can be counted.
    pub fn copy(&self) -> Result<SharedStack, AllocError>
        ensures { IfOk result (λ copy. copy ≡ self.now) }
    {
        Ok(SharedStack {
            frames: Arc::try_clone(&self.frames)?,
        })
    }
}

impl PartialEq for SharedStack {
    ghost use Rattle.std.specs.Prelude.{nat_eq};
    ghost use Rattle.std.specs.Cmp.Lexicographic.{pointwise};
    ghost use Rattle.std.specs.Cmp.Rules.{comparing};
    ghost use Rattle.std.proofs.Common.{rules};

    ghost eq = { pointwise nat_eq };

    ghost laws = { Prim.search (comparing, rules) };

    fn eq(&self, other: &SharedStack) -> bool {
        self.frames() == other.frames()
    }
}

impl Eq for SharedStack {
    ghost use Rattle.std.specs.Cmp.Rules.{comparing};
    ghost use Rattle.std.proofs.Common.{rules};

    ghost laws = { Prim.search (comparing, rules) };
}

impl PartialOrd for SharedStack {
    ghost use Rattle.std.specs.Ordering.{as_partial_cmp};
    ghost use Rattle.htl_event.specs.OrderLaws.{stack_order};
    ghost use Rattle.htl_event.specs.Stacks.{stack_cmp};

    ghost partial_cmp = { as_partial_cmp stack_cmp };

    ghost laws = { stack_order };

    fn partial_cmp(&self, other: &SharedStack) -> Option<Ordering> {
        Some(self.cmp(other))
    }
}

impl Ord for SharedStack {
    ghost use Rattle.htl_event.specs.OrderLaws.{stack_total, stack_ties};
    ghost use Rattle.htl_event.specs.Stacks.{stack_cmp};
    ghost use Rattle.std.specs.Cmp.Rules.{comparing};
    ghost use Rattle.std.proofs.Common.{rules};

    ghost cmp = { stack_cmp };

    ghost total = { stack_total };

    ghost matches_partial_cmp = { Prim.search (comparing, rules) };

    ghost matches_eq = { stack_ties };

    fn cmp(&self, other: &SharedStack) -> Ordering {
        from_outermost(self.frames(), other.frames())
    }
}
