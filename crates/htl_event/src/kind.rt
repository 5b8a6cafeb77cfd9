//! The kinds of events.

/// What an event records, in the words of the debugger's `!htrace` and `!obtrace`.
#[derive(Clone, Copy, Debug, PartialEq, Eq)]
pub enum Kind {
    /// A handle was opened: OPEN.
    Opened,
    /// A handle was closed: CLOSE.
    Closed,
    /// A call named a handle that was not open: BAD REF.
    BadRef,
    /// A snapshot marked a starting state for a difference.
    Snapshot,
    /// The reference counter of an object rose.
    Ref,
    /// The reference counter of an object fell.
    Deref,
    /// A process ended, which closed all its handles.
    Exited,
}

impl Kind {
    ghost use Rattle.std.specs.Prelude.{◌≡◌};
    ghost use Rattle.htl_event.specs.Handles.{opens_or_closes};
    ghost use Rattle.htl_event.specs.Interests.{names_object, tracks_handles};
    ghost use Rattle.htl_event.specs.Words.{word_of};

    /// Whether such an event opens or closes a handle.
    pub fn opens_or_closes(self) -> bool
        ensures { result ≡ opens_or_closes self }
    {
        matches!(self, Kind::Opened | Kind::Closed)
    }

    /// Whether such an event tells which handles are open: it opens or closes some, or marks a
    /// starting state.
    pub fn tracks_handles(self) -> bool
        ensures { result ≡ tracks_handles self }
    {
        matches!(
            self,
            Kind::Opened | Kind::Closed | Kind::Snapshot | Kind::Exited
        )
    }

    /// Whether such an event names an object: it is a reference or a dereference.
    pub fn names_object(self) -> bool
        ensures { result ≡ names_object self }
    {
        matches!(self, Kind::Ref | Kind::Deref)
    }

    /// The word that listings and texts have for such an event.
    pub fn word(self) -> &'static str
        ensures { result.now ≡ word_of self }
    {
        match self {
            Kind::Opened => "OPEN",
            Kind::Closed => "CLOSE",
            Kind::BadRef => "BAD REF",
            Kind::Snapshot => "SNAPSHOT",
            Kind::Ref => "REF",
            Kind::Deref => "DEREF",
            Kind::Exited => "EXIT",
        }
    }
}
