//! How often processes opened, closed and misused handles.

use crate::rows::OwnedRow;
use htl_event::{Count, Slot};

/// How often a process opened handles, closed them, and used handles that weren't open.
#[derive(Clone, Copy, Debug, PartialEq, Eq)]
pub(crate) struct Usage {
    pub process: u32,
    pub opens: u64,
    pub closes: u64,
    pub bad: u64,
}

impl OwnedRow for Usage {
    ghost use Rattle.htl_summary.specs.Usages.{FitUsages, both_usages, usage_of};

    ghost owner_of = { λ usage. usage.process };

    ghost can_join = { FitUsages };

    ghost joined = { both_usages };

    ghost row_of_sum = { usage_of };

    fn owner(&self) -> u64 {
        u64::from(self.process)
    }

    fn plus(&self, other: &Usage) -> Usage {
        Usage {
            process: self.process,
            opens: self.opens + other.opens,
            closes: self.closes + other.closes,
            bad: self.bad + other.bad,
        }
    }

    fn from_sum(slot: Slot, count: Count) -> Option<Usage> {
        match slot {
            Slot::Handles { process } => Some(Usage {
                process,
                opens: count.plus,
                closes: count.minus,
                bad: 0,
            }),
            Slot::Bad { process, .. } => Some(Usage {
                process,
                opens: 0,
                closes: 0,
                bad: count.plus,
            }),
            Slot::Tagged { .. } => None,
        }
    }
}
