//! Whose events are looked at for a question.

ghost use Rattle.std.specs.Prelude.{◌≡◌};
ghost use Rattle.htl_evidence.specs.Told.{AreEnough, is_own, number_of};

use htl_event::{Interest, SharedEvent, base};
use htl_question::Question;

/// A process, an object, or a base handle of a process, of which events are.
#[derive(Clone, Copy, Debug, PartialEq, Eq)]
pub enum Owner {
    Process(u32),
    Object(u64),
    Handle { process: u32, base: u32 },
}

impl Owner {
    /// The process, object or handle whose events alone tell the answer, if it is worth while to find
    /// them among all. Those of a growth, which it needs one by one, are found as fast by going through
    /// all.
    pub(crate) fn of(question: Question) -> Option<Owner>
        ensures { AreEnough result question }
    {
        if let Question::Trace { process, handle } = question {
            return Some(Owner::Handle {
                process,
                base: base(handle),
            });
        }
        if question.is_of_events() {
            return None;
        }
        match question.widest_interest() {
            Interest::Process(process) => Some(Owner::Process(process)),
            Interest::Object(object) => Some(Owner::Object(object)),
            _ => None,
        }
    }

    /// The number of the process, the address of the object, or the base of the handle.
    pub(crate) fn number(self) -> u64
        ensures { result ≡ number_of self }
    {
        match self {
            Owner::Process(process) => u64::from(process),
            Owner::Object(object) => object,
            Owner::Handle { base, .. } => u64::from(base),
        }
    }

    /// Whether the event is of the process, object or handle.
    pub(crate) fn has(self, event: &SharedEvent) -> bool
        ensures { result ≡ is_own self event.now }
    {
        match self {
            Owner::Process(process) => event.process == process,
            Owner::Object(object) => event.object == object,
            Owner::Handle { process, base: own } => {
                event.process == process && base(event.handle) == own
            }
        }
    }
}
