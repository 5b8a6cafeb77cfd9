//! The bounds of reading. Each function's contract is the law; none does anything when it runs.

ghost use Rattle.std.specs.Prelude.{◌≡◌, ◌^◌};

use crate::{MAX_READ_LEN, MAX_READS};

/// At most 2^32 reads of one source give bytes.
pub fn reads_are_bounded()
    ensures { MAX_READS ≡ 2 ^ 32 }
{}

/// A read asks for at most 65,536 bytes.
pub fn a_read_is_bounded()
    ensures { MAX_READ_LEN ≡ 2 ^ 16 }
{}
