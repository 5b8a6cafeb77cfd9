//! Since when handles count.

/// Since when handles count: those that were opened later.
#[derive(Clone, Copy, Debug, PartialEq, Eq)]
pub enum Since {
    /// The last snapshot of the process. Without one every handle counts.
    Snapshot,
    /// This sequence.
    Sequence(u64),
}
