//! Call stacks that lie in their events.

ghost use Rattle.std.specs.Prelude.{◌≡◌, ◌≤◌, ◌<◌, [], ◌∷◌, ◌++◌};
ghost use Rattle.std.specs.Prelude.{length, nat_lt, if◌then◌else◌};
ghost use Rattle.htl_event.specs.Stacks.{stack_cmp};

use arrayvec::ArrayVec;
use std::cmp::Ordering;
use std::marker::Model;

/// The greatest number of addresses that a stack has.
pub const MAX_FRAMES: usize = 64;

/// The return addresses of one call stack, the innermost call first.
///
/// Stacks compare by their addresses from the outermost call inwards, a proper prefix first.
#[derive(Debug, Drop)]
pub struct Stack {
    frames: ArrayVec<u64, MAX_FRAMES>,
}

impl Model for Stack {
    ghost use Rattle.std.specs.Prelude.{ℕ, List, length, ◌≤◌};

    ghost Value = { List ℕ };

    ghost view = { λ s. s.frames.items };

    ghost invariant = { λ s. length s.frames.items ≤ 64 };
}

impl Stack {
    /// A stack with no address.
    pub fn new() -> Stack
        ensures { result ≡ [] }
    {
        Stack {
            frames: ArrayVec::new(),
        }
    }

    /// Adds an outer call, or answers false and leaves the stack as it is where it is full.
    pub fn push(&mut self, address: u64) -> bool
        ensures room { result ≡ nat_lt (length self.old) MAX_FRAMES }
        ensures items { self.new ≡ (if result then self.old ++ address ∷ [] else self.old) }
    {
        self.frames.try_push(address).is_ok()
    }

    /// The addresses, the innermost call first.
    pub fn frames(&self) -> &[u64]
        ensures value { result.now ≡ self.now }
        ensures fits { length result.now ≤ MAX_FRAMES }
    {
        self.frames.as_slice()
    }

    /// An equal stack. It takes no memory.
    pub fn copy(&self) -> Stack
        ensures { result ≡ self.now }
    {
        let mut frames = ArrayVec::new();
        for frame in self.frames() {
            frames.push(*frame);
        }
        Stack { frames }
    }
}

impl PartialEq for Stack {
    ghost use Rattle.std.specs.Prelude.{nat_eq};
    ghost use Rattle.std.specs.Cmp.Lexicographic.{pointwise};
    ghost use Rattle.std.specs.Cmp.Rules.{comparing};
    ghost use Rattle.std.proofs.Common.{rules};

    ghost eq = { pointwise nat_eq };

    ghost laws = { Prim.search (comparing, rules) };

    fn eq(&self, other: &Stack) -> bool {
        self.frames() == other.frames()
    }
}

impl Eq for Stack {
    ghost use Rattle.std.specs.Cmp.Rules.{comparing};
    ghost use Rattle.std.proofs.Common.{rules};

    ghost laws = { Prim.search (comparing, rules) };
}

impl PartialOrd for Stack {
    ghost use Rattle.std.specs.Ordering.{as_partial_cmp};
    ghost use Rattle.htl_event.specs.OrderLaws.{stack_order};
    ghost use Rattle.htl_event.specs.Stacks.{stack_cmp};

    ghost partial_cmp = { as_partial_cmp stack_cmp };

    ghost laws = { stack_order };

    fn partial_cmp(&self, other: &Stack) -> Option<Ordering> {
        Some(self.cmp(other))
    }
}

impl Ord for Stack {
    ghost use Rattle.htl_event.specs.OrderLaws.{stack_total, stack_ties};
    ghost use Rattle.htl_event.specs.Stacks.{stack_cmp};
    ghost use Rattle.std.specs.Cmp.Rules.{comparing};
    ghost use Rattle.std.proofs.Common.{rules};

    ghost cmp = { stack_cmp };

    ghost total = { stack_total };

    ghost matches_partial_cmp = { Prim.search (comparing, rules) };

    ghost matches_eq = { stack_ties };

    fn cmp(&self, other: &Stack) -> Ordering {
        from_outermost(self.frames(), other.frames())
    }
}

/// Compares the addresses of two stacks from the outermost call inwards.
pub(crate) fn from_outermost(one: &[u64], other: &[u64]) -> Ordering
    ensures { result ≡ stack_cmp one.now other.now }
{
    one.iter().rev().cmp(other.iter().rev())
}
