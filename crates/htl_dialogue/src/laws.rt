//! The bound of a line. Its function's contract is the law; it does nothing when it runs.

ghost use Rattle.std.specs.Prelude.{◌≡◌, ◌^◌};

use crate::MAX_LINE_LEN;

/// How many bytes a line has at most.
pub fn a_line_is_bounded()
    ensures { MAX_LINE_LEN ≡ 2 ^ 16 }
{}
