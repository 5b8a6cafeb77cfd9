//! How much is told of a run, and in which manner its end is told.

/// Before whom a run begins.
#[derive(Clone, Copy)]
pub(crate) struct Audience {
    /// A person watches, who wants to read more than the lines of faults.
    pub is_watching: bool,
    /// Faults are to be explained and notes given: a person watches, or notes are asked for.
    pub wants_words: bool,
}

/// How the end of a run is told.
#[derive(Clone, Copy)]
pub(crate) struct Manner {
    /// A failed write goes unsaid: a person watches, and the output's reader has gone.
    pub is_quiet: bool,
    /// Faults are explained and notes are given.
    pub in_words: bool,
}
