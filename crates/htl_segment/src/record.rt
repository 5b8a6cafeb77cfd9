//! One record: its rules, and its fields, read in place.
ghost use Rattle.std.specs.Prelude.{◌≡◌, ◌≤◌, ◌*◌, ◌/◌, [], length, None, Some, MatchResult};
ghost use Rattle.htl_segment.specs.Numbers.{numbers};
ghost use Rattle.htl_segment.specs.Content.{fields_fit};
ghost use Rattle.htl_segment.specs.Faults.{record_fault};

use crate::fault::Fault;
use crate::fields::{u16_at, u32_at, u64_at};
use crate::stack_cache::StackCache;
use crate::version::Version;
use htl_event::{Event, Interest, Kind, MAX_FRAMES, NoMemory, SharedEvent, Stack, base};
use std::alloc::Global;

/// The length in bytes of a record that has no frame.
pub const RECORD_LEN: usize = 36;

/// An event in place: the fields of a record, and its frames in the bytes that it was read from.
#[derive(Clone, Copy, Debug)]
pub struct Record<'a> {
    pub sequence: u64,
    pub kind: Kind,
    pub process: u32,
    pub thread: u32,
    /// The handle as written.
    pub handle: u32,
    pub object: u64,
    /// The tag in display order.
    pub tag: [u8; 4],
    /// The addresses of the stack, eight bytes each, the lowest byte first, and the innermost call
    /// first.
    pub frames: &'a [u8],
    ghost few: { length frames.now ≤ 8 * 64 },
}

impl<'a> Record<'a> {
    ghost use Rattle.std.specs.Prelude.{◌≡◌};
    ghost use Rattle.htl_segment.specs.Reading.{event_in, after_record};
    ghost use Rattle.htl_segment.specs.Records.{event_of};
    ghost use Rattle.htl_segment.specs.InPlace.{HasRecord};

    /// The record at the front of `bytes`, and the bytes after it.
    #[tactic(auto, unfolding(crate::specs::Reading::event_in))]
    pub(crate) fn split(version: Version, bytes: &'a [u8]) -> (Record<'a>, &'a [u8])
        requires { HasRecord version bytes.now }
        ensures event { event_of result.0 ≡ event_in bytes.now }
        ensures rest { result.1.now ≡ after_record bytes.now }
    {
        let end = RECORD_LEN + 8 * bytes[9] as usize;
        let mut tag = [0; 4];
        tag.copy_from_slice(&bytes[32..36]);
        let Some(kind) = version.kind(bytes[8]) else {
            unreachable!()
        };
        let record = Record {
            sequence: u64_at(bytes, 0),
            kind,
            process: u32_at(bytes, 12),
            thread: u32_at(bytes, 16),
            handle: u32_at(bytes, 20),
            object: u64_at(bytes, 24),
            tag,
            frames: &bytes[RECORD_LEN..end],
        };
        (record, &bytes[end..])
    }

    /// The event that this record describes.
    pub fn event(&self) -> Event
        ensures { result ≡ event_of self.now }
    {
        let mut event = self.event_with(Stack::new());
        // A stack is large, so it is filled where it lies.
        push_frames(&mut event.stack, self.frames);
        event
    }
}

impl Record<'_> {
    ghost use Rattle.std.specs.Prelude.{◌≡◌, IfOk};
    ghost use Rattle.htl_event.specs.Events.{with_stack};
    ghost use Rattle.htl_event.specs.Interests.{as_needed, wants};
    ghost use Rattle.htl_segment.specs.Records.{event_of};

    /// Whether the question asks about this event.
    pub(crate) fn is_wanted(&self, interest: Interest) -> bool
        ensures { result ≡ wants interest (event_of self.now) }
    {
        match interest {
            Interest::Process(process) => self.process == process,
            Interest::Handle { process, base: own } => {
                self.process == process && base(self.handle) == own
            }
            Interest::OpenHandles(process) => {
                self.process == process && self.kind.tracks_handles()
            }
            Interest::AllHandles => self.kind.tracks_handles(),
            Interest::Object(object) => self.object == object,
            Interest::Tag(tag) => self.kind.names_object() && self.tag == tag,
            Interest::AllEvents => true,
        }
    }

    /// The record, without its frames if the question doesn't need them.
    pub(crate) fn as_needed(mut self, interest: Interest) -> Self
        ensures { event_of result ≡ as_needed interest (event_of self.entry) }
    {
        if interest.needs_stack(self.kind) {
            return self;
        }
        self.frames = &[];
        self
    }

    /// The event that this record describes, with a stack of the cache.
    pub(crate) fn shared(
        &self,
        alloc: Global,
        cache: &mut StackCache,
        fingerprint: u64,
    ) -> Result<SharedEvent, NoMemory>
        ensures { IfOk result (λ event. event ≡ event_of self.now) }
    {
        let stack = cache.of_bytes(alloc, fingerprint, self.frames)?;
        Ok(self.event_with(stack))
    }

    /// The event that this record describes, with this stack in place of its own.
    fn event_with<S>(&self, stack: S) -> Event<S>
        ensures { result ≡ with_stack stack (event_of self.now) }
    {
        Event {
            sequence: self.sequence,
            kind: self.kind,
            process: self.process,
            thread: self.thread,
            handle: self.handle,
            object: self.object,
            tag: self.tag,
            stack,
        }
    }
}

/// Tests the record at the front of `bytes`. It has this place in its segment, and the record before
/// it has the sequence `last`.
#[tactic(auto, unfolding(crate::specs::Faults::record_fault))]
pub fn check_record(version: Version, place: u64, last: u64, bytes: &[u8]) -> Result<(), Fault>
    ensures { MatchResult result
        (λ _. record_fault version place last bytes.now ≡ None)
        (λ fault. record_fault version place last bytes.now ≡ Some fault) }
{
    if bytes.len() < RECORD_LEN {
        return Err(Fault::RecordShort(place));
    }
    if u64_at(bytes, 0) <= last {
        return Err(Fault::Sequence(place));
    }
    let limits = version.limits();
    let Some(kind) = version.kind(bytes[8]) else {
        return Err(Fault::Kind(place));
    };
    let frames = bytes[9];
    if frames > limits.frames || bytes.len() - RECORD_LEN < 8 * frames as usize {
        return Err(Fault::Frames(place));
    }
    let mut tag = [0; 4];
    tag.copy_from_slice(&bytes[32..36]);
    if u16_at(bytes, 10) != 0 || !fields_fit(kind, u32_at(bytes, 20), u64_at(bytes, 24), tag) {
        return Err(Fault::Field(place));
    }
    Ok(())
}

/// Whether handle, object and tag are those that an event of this kind may have. Kinds come in no
/// order that a processor could foresee, so no branch depends on them.
pub fn fields_fit(kind: Kind, handle: u32, object: u64, tag: [u8; 4]) -> bool
    ensures { result ≡ fields_fit kind handle object tag }
{
    let opens_or_closes = kind.opens_or_closes();
    let names_object = kind.names_object();
    let handle_fits = (kind == Kind::BadRef)
        | (opens_or_closes & (base(handle) != 0))
        | (!opens_or_closes & (handle == 0));
    handle_fits & ((object != 0) == names_object) & (names_object | (tag == [0; 4]))
}

/// Fills an empty stack with these addresses, eight bytes each.
fn push_frames(stack: &mut Stack, frames: &[u8])
    requires empty { stack.old ≡ [] }
    requires few { length frames.now ≤ 8 * MAX_FRAMES }
    ensures { stack.new ≡ numbers 0 (length frames.now / 8) frames.now }
{
    for frame in 0..frames.len() / 8 {
        stack.push(u64_at(frames, 8 * frame));
    }
}
