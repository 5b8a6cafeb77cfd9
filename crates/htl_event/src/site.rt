//! Call stacks that left handles open.

use crate::stack::Stack;

/// A stack that opened handles which are still open, in whatever process.
#[derive(Debug, PartialEq, Eq, Drop)]
pub struct Site<S = Stack> {
    /// The calls, the innermost first.
    pub stack: S,
    /// The number of these handles. A value that two processes have open is two handles.
    pub handles: u64,
    /// The number of processes that have one of them.
    pub processes: u64,
}
