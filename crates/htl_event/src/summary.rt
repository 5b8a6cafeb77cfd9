//! The rows of a summary.

/// A process that opened or closed a handle, or used one that wasn't open.
#[derive(Clone, Copy, Debug, PartialEq, Eq)]
pub struct ProcessRow {
    pub process: u32,
    /// The number of its handles that are outstanding.
    pub outstanding: u64,
    pub opens: u64,
    pub closes: u64,
    /// The number of bad references that it made.
    pub bad: u64,
    /// The sequence of its latest snapshot, 0 where there is none.
    pub mark: u64,
    /// The sequence of its last exit, 0 where there is none.
    pub exit: u64,
}

/// An object that was referenced or dereferenced.
#[derive(Clone, Copy, Debug, PartialEq, Eq)]
pub struct ObjectRow {
    pub object: u64,
    /// The number of tags that its events name.
    pub tags: u64,
    /// The number of these tags whose references and dereferences differ in number.
    pub unbalanced: u64,
    pub refs: u64,
    pub derefs: u64,
}
