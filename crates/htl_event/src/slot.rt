//! Slots: what events are counted under, and how often they came.

use std::cmp::Ordering;

/// What an event is counted under.
///
/// Slots stand in the order of the variants, and then of their fields.
#[derive(Clone, Copy, Debug, PartialEq, Eq)]
pub enum Slot {
    /// References and dereferences of an object under a tag.
    Tagged { object: u64, tag: [u8; 4] },
    /// Opens and closes of a process's handles.
    Handles { process: u32 },
    /// Bad references of a process to one handle value, as written.
    Bad { process: u32, handle: u32 },
}

impl Slot {
    /// A hint by which a table finds equal slots sooner: equal slots have one fingerprint, and few
    /// others have it too. No answer depends on it.
    pub fn fingerprint(self) -> u64 {
        let name = match self {
            Slot::Tagged { object, tag } => {
                object.rotate_left(32) ^ u64::from(u32::from_le_bytes(tag))
            }
            Slot::Handles { process } => u64::from(process),
            Slot::Bad { process, handle } => u64::from(process) << 32 ^ u64::from(handle),
        };
        name.wrapping_mul(0x9e37_79b9_7f4a_7c15)
    }
}

impl PartialOrd for Slot {
    ghost use Rattle.std.specs.Ordering.{as_partial_cmp};
    ghost use Rattle.htl_event.specs.SlotOrder.{slot_cmp};
    ghost use Rattle.htl_event.specs.OrderLaws.{slot_order};

    ghost partial_cmp = { as_partial_cmp slot_cmp };

    ghost laws = { slot_order };

    fn partial_cmp(&self, other: &Slot) -> Option<Ordering> {
        Some(self.cmp(other))
    }
}

impl Ord for Slot {
    ghost use Rattle.std.specs.Cmp.Rules.{comparing};
    ghost use Rattle.std.proofs.Common.{rules};
    ghost use Rattle.htl_event.specs.SlotOrder.{slot_cmp};
    ghost use Rattle.htl_event.specs.OrderLaws.{slot_total, slot_ties};

    ghost cmp = { slot_cmp };

    ghost total = { slot_total };

    ghost matches_partial_cmp = { Prim.search (comparing, rules) };

    ghost matches_eq = { slot_ties };

    fn cmp(&self, other: &Slot) -> Ordering {
        use Slot::{Bad, Handles, Tagged};
        match (self, other) {
            (Tagged { object: a, tag: s }, Tagged { object: b, tag: t }) => a.cmp(b).then(s.cmp(t)),
            (Handles { process: a }, Handles { process: b }) => a.cmp(b),
            (
                Bad {
                    process: a,
                    handle: g,
                },
                Bad {
                    process: b,
                    handle: h,
                },
            ) => a.cmp(b).then(g.cmp(h)),
            (Tagged { .. }, _) | (Handles { .. }, Bad { .. }) => Ordering::Less,
            (Handles { .. } | Bad { .. }, _) => Ordering::Greater,
        }
    }
}

/// The side of a count that an event adds to.
#[derive(Clone, Copy, Debug, PartialEq, Eq)]
pub enum Sign {
    /// An open, a bad reference or a reference.
    Plus,
    /// A close or a dereference.
    Minus,
}

/// How many events there were of each sign.
#[derive(Clone, Copy, Debug, PartialEq, Eq)]
pub struct Count {
    pub plus: u64,
    pub minus: u64,
}
