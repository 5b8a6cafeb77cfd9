//! The events that a question asks about.

use crate::kind::Kind;

/// The events that a question asks about, and whether it needs their stacks. Its answer depends on
/// nothing else.
#[derive(Clone, Copy, Debug, PartialEq, Eq)]
pub enum Interest {
    /// A process: the events that came in it.
    Process(u32),
    /// A base handle of a process: the process's events that name it.
    Handle { process: u32, base: u32 },
    /// The open handles of a process: its opens, closes, snapshots and exits. Only opens need their
    /// stacks.
    OpenHandles(u32),
    /// The open handles of all processes: opens, closes, snapshots and exits. Only opens need their
    /// stacks.
    AllHandles,
    /// An object: the events that name it.
    Object(u64),
    /// A tag: the references and dereferences under it, of whatever objects.
    Tag([u8; 4]),
    /// All events. A summary asks about them, and needs no stacks.
    AllEvents,
}

impl Interest {
    ghost use Rattle.std.specs.Prelude.{◌≡◌};
    ghost use Rattle.htl_event.specs.Interests.{needs_stack};

    /// Whether the question needs the stack of an event of this kind.
    pub fn needs_stack(self, kind: Kind) -> bool
        ensures { result ≡ needs_stack self kind }
    {
        match self {
            Interest::OpenHandles(_) | Interest::AllHandles => matches!(kind, Kind::Opened),
            Interest::Process(_)
            | Interest::Handle { .. }
            | Interest::Object(_)
            | Interest::Tag(_) => true,
            Interest::AllEvents => false,
        }
    }
}
