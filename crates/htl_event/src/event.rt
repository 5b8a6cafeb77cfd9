//! One event of a trace, with a stack of its own or a shared one.

ghost use Rattle.std.specs.Prelude.{◌≡◌, ◌<◌, ◌^◌, length};
ghost use Rattle.std.specs.List.{AllByRecursion};

use crate::kind::Kind;
use crate::shared_stack::SharedStack;
use crate::slot::{Sign, Slot};
use crate::stack::Stack;
use std::alloc::AllocError;

/// One event of a trace.
///
/// An `Event` has a stack of its own and is for building. A `SharedEvent` shares its stack with all
/// events that have the same one. Both have one value, so every definition speaks of both.
#[derive(Debug, PartialEq, Eq, Drop)]
pub struct Event<S = Stack> {
    /// Its number in the order of the whole machine, in a segment above 0.
    pub sequence: u64,
    pub kind: Kind,
    pub process: u32,
    pub thread: u32,
    /// The handle as written, in a segment 0 for a kind that names none.
    pub handle: u32,
    /// The object's address, in a segment 0 for a kind that names none.
    pub object: u64,
    /// The tag in display order, in a segment zeros for a kind that names none.
    pub tag: [u8; 4],
    /// The calls that led to it, the innermost first.
    pub stack: S,
}

/// An event whose stack is shared: 48 bytes.
pub type SharedEvent = Event<SharedStack>;

impl<S> Event<S> {
    ghost use Rattle.std.specs.Prelude.{◌≡◌};
    ghost use Rattle.htl_event.specs.Events.{with_stack};
    ghost use Rattle.htl_event.specs.Slots.{slot_of};

    /// What this event is counted under, and on which side. Snapshots and process exits are counted
    /// nowhere.
    pub fn slot(&self) -> Option<(Slot, Sign)>
        ensures { result ≡ slot_of self.now }
    {
        let process = self.process;
        let tagged = Slot::Tagged {
            object: self.object,
            tag: self.tag,
        };
        match self.kind {
            Kind::Opened => Some((Slot::Handles { process }, Sign::Plus)),
            Kind::Closed => Some((Slot::Handles { process }, Sign::Minus)),
            Kind::BadRef => Some((
                Slot::Bad {
                    process,
                    handle: self.handle,
                },
                Sign::Plus,
            )),
            Kind::Snapshot | Kind::Exited => None,
            Kind::Ref => Some((tagged, Sign::Plus)),
            Kind::Deref => Some((tagged, Sign::Minus)),
        }
    }

    /// The same event with this stack in place of its own.
    pub fn with_stack<T>(&self, stack: T) -> Event<T>
        ensures { result ≡ with_stack stack self.now }
    {
        Event {
            sequence: self.sequence,
            kind: self.kind,
            process: self.process,
            thread: self.thread,
            handle: self.handle,
            object: self.object,
            tag: self.tag,
            stack,
        }
    }
}

impl Event {
    ghost use Rattle.std.specs.Prelude.{◌≡◌};
    ghost use Rattle.htl_event.specs.Ranges.{InRange};

    /// An equal event. It takes no memory.
    pub fn copy(&self) -> Event
        ensures { result ≡ self.now }
    {
        self.with_stack(self.stack.copy())
    }

    /// For proofs: what the types of the fields say of their numbers. It does nothing when it runs.
    pub fn in_range(&self)
        ensures { InRange self.now }
    {
        let _sequence = self.sequence;
        let _process = self.process;
        let _thread = self.thread;
        let _handle = self.handle;
        let _object = self.object;
        tag_len(self.tag);
        bytes_in_range(&self.tag);
        addresses_in_range(self.stack.frames());
    }
}

impl SharedEvent {
    ghost use Rattle.std.specs.Prelude.{◌≡◌, IfOk};

    /// An equal event that shares the stack. It takes no memory, and refuses only where the stack
    /// has as many owners as can be counted.
    pub fn copy(&self) -> Result<SharedEvent, AllocError>
        ensures { IfOk result (λ copy. copy ≡ self.now) }
    {
        Ok(self.with_stack(self.stack.copy()?))
    }
}

fn tag_len(tag: [u8; 4])
    ensures { length tag ≡ 4 }
{
    let _len = tag.len();
}

fn bytes_in_range(bytes: &[u8])
    ensures { AllByRecursion (λ b. b < 256) bytes.now }
{}

fn addresses_in_range(addresses: &[u64])
    ensures { AllByRecursion (λ a. a < 2 ^ 64) addresses.now }
{}
