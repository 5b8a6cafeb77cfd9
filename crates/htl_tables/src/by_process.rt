//! Rows of greatest sequences, by process.

use htl_sorted::{Joined, Keyed};
use std::alloc::AllocError;

/// Sequences by process. Of two for one process the greater stays.
pub(crate) struct ByProcess;

impl Keyed for ByProcess {
    ghost use Rattle.std.specs.FinMap.{nat_cmp-IsAntisymmetric};

    type Row = (u32, u64);

    type Key = u32;

    type Value = u64;

    ghost key_of = { λ row. row.0 };

    ghost value_of = { λ row. row.1 };

    ghost proper = { nat_cmp-IsAntisymmetric };

    fn key(row: &(u32, u64)) -> u32 {
        row.0
    }
}

impl Joined for ByProcess {
    ghost use Rattle.std.specs.Prelude.{max};

    ghost can_join = { λ x y. Unit {0} };

    ghost joined = { max };

    fn copy(row: &(u32, u64)) -> Result<(u32, u64), AllocError> {
        Ok(*row)
    }

    fn join(left: &(u32, u64), right: &(u32, u64)) -> Result<(u32, u64), AllocError> {
        Ok((left.0, left.1.max(right.1)))
    }
}
