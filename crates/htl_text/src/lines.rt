//! The item of a line, by its words.
ghost use Rattle.std.specs.Prelude.{◌≡◌, ◌∷◌, [], Ok, Some};
ghost use Rattle.htl_event.specs.declared.kind.Kind.TheVariants.{BadRef};
ghost use Rattle.htl_text.specs.declared.field.Field.TheVariants.{Handle, Number, Object};
ghost use Rattle.htl_text.specs.declared.field.Field.TheVariants.{Process, Processor, Processors};
ghost use Rattle.htl_text.specs.declared.field.Field.TheVariants.{Sequence, Tag, Thread};
ghost use Rattle.htl_text.specs.Fields.{no_values};
ghost use Rattle.htl_text.specs.Lines.{bad_form, event_form, frame_form, item_by, item_in};
ghost use Rattle.htl_text.specs.Lines.{ended, said_by, segment_form, values_in, words_of};

use crate::fault::FormFault;
use crate::field::Field;
use crate::item::{Head, Item};
use crate::values::{frame_value, number, value};
use crate::words::{first_word, is_word};
use htl_event::{Event, Kind};

const NO_TAG: [u8; 4] = [0; 4];

/// The item of a line that isn't skipped, if it has one of the forms.
#[tactic(auto, unfolding(crate::specs::Lines::item_in, crate::specs::Lines::form_of))]
pub(crate) fn item(line: &[u8]) -> Result<Item, FormFault>
    ensures { result ≡ item_in (words_of line.now) }
{
    match first_word(line) {
        Some((word, words)) => item_by_word(word, words),
        None => Err(FormFault::Words),
    }
}

/// The item of a line with this first word.
#[tactic(auto, unfolding(crate::specs::Lines::item_in, crate::specs::Lines::form_of))]
fn item_by_word(word: &[u8], words: &[u8]) -> Result<Item, FormFault>
    ensures { result ≡ item_in (word.now ∷ words_of words.now) }
{
    if is_word(word, b"segment") {
        segment(words)
    } else if is_word(word, b"OPEN") {
        handle_event(Kind::Opened, words)
    } else if is_word(word, b"CLOSE") {
        handle_event(Kind::Closed, words)
    } else if is_word(word, b"BAD") {
        bad_reference(words)
    } else if is_word(word, b"SNAPSHOT") {
        event(Kind::Snapshot, 0, 0, NO_TAG, words)
    } else if is_word(word, b"EXIT") {
        event(Kind::Exited, 0, 0, NO_TAG, words)
    } else if is_word(word, b"REF") {
        object_event(Kind::Ref, words)
    } else if is_word(word, b"DEREF") {
        object_event(Kind::Deref, words)
    } else if word.starts_with(b"0x") {
        frame(word, words)
    } else {
        Err(FormFault::Words)
    }
}

#[tactic(auto, unfolding(crate::specs::Lines::values_in))]
fn segment(words: &[u8]) -> Result<Item, FormFault>
    ensures { result ≡ item_by (Some (segment_form, words_of words.now)) }
{
    let (version, words) = number(words, Field::Version, 0xffff)?;
    let (trace_id, words) = value(words, Field::Trace)?;
    place(version as u16, trace_id, words)
}

/// A segment by its last words.
#[tactic(auto, unfolding(crate::specs::Lines::values_in))]
fn place(version: u16, trace_id: u64, words: &[u8]) -> Result<Item, FormFault>
    ensures { result ≡ said_by segment_form.says
        (values_in (Processors ∷ Processor ∷ Number ∷ []) (words_of words.now)
        (record no_values { version = version; trace = trace_id })) }
{
    let (processors, words) = number(words, Field::Processors, 0xffff)?;
    let (processor, words) = number(words, Field::Processor, 0xffff)?;
    let (number, words) = number(words, Field::Number, 0xffff_ffff)?;
    ended(
        words,
        Item::Segment(Head {
            version,
            trace_id,
            processors: processors as u16,
            processor: processor as u16,
            number: number as u32,
        }),
    )
}

fn bad_reference(words: &[u8]) -> Result<Item, FormFault>
    ensures { result ≡ item_by (bad_form (words_of words.now)) }
{
    match first_word(words) {
        Some((word, words)) if is_word(word, b"REF") => handle_event(Kind::BadRef, words),
        _ => Err(FormFault::Words),
    }
}

#[tactic(auto, unfolding(crate::specs::Lines::values_in))]
fn handle_event(kind: Kind, words: &[u8]) -> Result<Item, FormFault>
    ensures { result ≡ said_by (event_form kind).says
        (values_in (Handle ∷ Sequence ∷ Process ∷ Thread ∷ []) (words_of words.now) no_values) }
{
    let (handle, words) = value(words, Field::Handle)?;
    event(kind, handle, 0, NO_TAG, words)
}

#[tactic(auto, unfolding(crate::specs::Lines::values_in))]
fn object_event(kind: Kind, words: &[u8]) -> Result<Item, FormFault>
    ensures { result ≡ said_by (event_form kind).says
        (values_in (Object ∷ Tag ∷ Sequence ∷ Process ∷ Thread ∷ []) (words_of words.now) no_values) }
{
    let (object, words) = value(words, Field::Object)?;
    let (tag, words) = value(words, Field::Tag)?;
    event(kind, 0, object, tag, words)
}

/// An event by its last words.
#[tactic(auto, unfolding(crate::specs::Lines::values_in))]
fn event(
    kind: Kind,
    handle: u32,
    object: u64,
    tag: [u8; 4],
    words: &[u8],
) -> Result<Item, FormFault>
    ensures { result ≡ said_by (event_form kind).says
        (values_in (Sequence ∷ Process ∷ Thread ∷ []) (words_of words.now)
        (record no_values { handle = handle; object = object; tag = tag })) }
{
    let (sequence, words) = number(words, Field::Sequence, u64::MAX)?;
    let (process, words) = number(words, Field::Process, u64::from(u32::MAX))?;
    let (thread, words) = number(words, Field::Thread, u64::from(u32::MAX))?;
    ended(
        words,
        Item::Event(Event {
            sequence,
            kind,
            process: process as u32,
            thread: thread as u32,
            handle,
            object,
            tag,
            stack: (),
        }),
    )
}

#[tactic(auto, unfolding(crate::specs::Lines::values_in, crate::specs::Fields::bare_value))]
fn frame(word: &[u8], words: &[u8]) -> Result<Item, FormFault>
    ensures { result ≡ item_by (Some (frame_form, word.now ∷ words_of words.now)) }
{
    let address = frame_value(word).ok_or(FormFault::Field(Field::Frame))?;
    ended(words, Item::Frame(address))
}

/// The item, if no word follows.
fn ended(words: &[u8], item: Item) -> Result<Item, FormFault>
    ensures { result ≡ said_by (λ _. item) (ended (words_of words.now) no_values) }
{
    match first_word(words) {
        Some(_) => Err(FormFault::Words),
        None => Ok(item),
    }
}
