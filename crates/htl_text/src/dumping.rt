//! Dumping: the text of a segment.
ghost use Rattle.std.specs.Prelude.{◌≡◌, ◌+◌, ◌*◌, ◌/◌, ◌≤◌, ◌++◌, OnOk, flat_map, length};
ghost use Rattle.std.specs.Prelude.{string_bytes, true};
ghost use Rattle.std.specs.List.{list_all};
ghost use Rattle.htl_numbers.specs.Written.{padded};
ghost use Rattle.htl_segment.specs.Numbers.{number, numbers};
ghost use Rattle.htl_segment.specs.Records.{event_of};
ghost use Rattle.htl_text.specs.Items.{head_of};
ghost use Rattle.htl_text.specs.Texts.{event_line, event_text, frame_line, handle_part, head_line};
ghost use Rattle.htl_text.specs.Texts.{is_visible, object_part, origin, place_part, segment_text};
ghost use Rattle.htl_text.specs.Texts.{subject};
ghost use Rattle.htl_text.specs.Texts.{tag_text, version_part};

use crate::item::Head;
use byteorder::{ByteOrder, LittleEndian};
use htl_event::{Kind, NoMemory};
use htl_numbers::{hex_digits, write_hex_digits};
use htl_segment::{Record, Records, SegmentBytes};
use itoa::Buffer;
use std::alloc::{AllocError, Global};

/// Puts the lines of a segment behind the bytes of a buffer, each ended by a line feed. Where memory
/// is refused, a first part of them may stand there.
pub fn dump(alloc: Global, segment: &SegmentBytes<'_>, out: &mut Vec<u8>) -> Result<(), NoMemory>
    ensures { OnOk result (out.new.items ≡ out.old.items ++ segment_text segment.now) }
{
    let mut line = String::new(alloc);
    write_head(&mut line, head(segment))?;
    out.extend_from_slice(line.as_bytes())?;
    Ok(write_events(out, &mut line, segment.records())?)
}

fn head(segment: &SegmentBytes<'_>) -> Head
    ensures { result ≡ head_of segment.now }
{
    Head {
        version: segment.version(),
        trace_id: segment.trace_id(),
        processors: segment.processors(),
        processor: segment.processor(),
        number: segment.number(),
    }
}

#[tactic(auto, unfolding(crate::specs::Texts::head_line))]
fn write_head(out: &mut String, head: Head) -> Result<(), AllocError>
    ensures { OnOk result (string_bytes out.new ≡ string_bytes out.old ++ head_line head) }
{
    write_version(out, head.version)?;
    write_hex_digits(out, head.trace_id)?;
    write_place(out, head)
}

#[tactic(auto, unfolding(crate::specs::Texts::version_part))]
fn write_version(out: &mut String, version: u16) -> Result<(), AllocError>
    ensures { OnOk result (string_bytes out.new ≡ string_bytes out.old ++ version_part version) }
{
    write!(out, "segment version={version} trace=0x")
}

#[tactic(auto, unfolding(crate::specs::Texts::place_part))]
fn write_place(out: &mut String, head: Head) -> Result<(), AllocError>
    ensures { OnOk result (string_bytes out.new ≡ string_bytes out.old
        ++ place_part head.processors head.processor head.number) }
{
    writeln!(
        out,
        " processors={} processor={} number={}",
        head.processors, head.processor, head.number
    )
}

/// Puts the lines of events behind the bytes. `line` is room for one of them.
fn write_events(out: &mut Vec<u8>, line: &mut String, events: Records<'_>) -> Result<(), AllocError>
    ensures { OnOk result (out.new.items ≡ out.old.items ++ flat_map event_text events.entry) }
{
    for event in events {
        write_event(out, line, &event)?;
    }
    Ok(())
}

fn write_event(out: &mut Vec<u8>, line: &mut String, event: &Record<'_>) -> Result<(), AllocError>
    ensures { OnOk result (out.new.items ≡ out.old.items ++ event_text (event_of event.now)) }
{
    line.clear();
    write_event_line(line, event)?;
    out.extend_from_slice(line.as_bytes())?;
    write_frames(out, event.frames)
}

#[tactic(auto, unfolding(crate::specs::Texts::event_line))]
fn write_event_line(out: &mut String, event: &Record<'_>) -> Result<(), AllocError>
    ensures { OnOk result (string_bytes out.new
        ≡ string_bytes out.old ++ event_line (event_of event.now)) }
{
    out.push_str(event.kind.word())?;
    write_subject(out, event)?;
    write_origin(out, event)
}

/// Writes the fields of an event that its kind has.
fn write_subject(out: &mut String, event: &Record<'_>) -> Result<(), AllocError>
    ensures { OnOk result (string_bytes out.new ≡ string_bytes out.old
        ++ subject event.now.kind event.now.handle event.now.object event.now.tag) }
{
    match event.kind {
        Kind::Opened | Kind::Closed | Kind::BadRef => write_handle(out, event.handle),
        Kind::Snapshot | Kind::Exited => Ok(()),
        Kind::Ref | Kind::Deref => write_object(out, event.object, event.tag),
    }
}

#[tactic(auto, unfolding(crate::specs::Texts::handle_part))]
fn write_handle(out: &mut String, handle: u32) -> Result<(), AllocError>
    ensures { OnOk result (string_bytes out.new ≡ string_bytes out.old ++ handle_part handle) }
{
    write!(out, " handle=0x{handle:x}")
}

#[tactic(auto, unfolding(crate::specs::Texts::object_part))]
fn write_object(out: &mut String, object: u64, tag: [u8; 4]) -> Result<(), AllocError>
    ensures { OnOk result (string_bytes out.new
        ≡ string_bytes out.old ++ object_part object tag) }
{
    out.push_str(" object=0x")?;
    write_hex_digits(out, object)?;
    out.push_str(" tag=")?;
    write_tag(out, tag)
}

/// Writes a tag by its four bytes where all can be seen, or else in digits.
#[tactic(auto, unfolding(crate::specs::Texts::tag_text))]
fn write_tag(out: &mut String, tag: [u8; 4]) -> Result<(), AllocError>
    ensures { OnOk result (string_bytes out.new ≡ string_bytes out.old ++ tag_text tag) }
{
    if all_visible(&tag) {
        return write_visible(out, &tag);
    }
    out.push_str("0x")?;
    write_tag_digits(out, u32::from_be_bytes(tag))
}

/// Writes a number in eight hexadecimal digits.
#[tactic(auto, using(htl_lemmas::proofs::Padding::padded_to))]
fn write_tag_digits(out: &mut String, in_order: u32) -> Result<(), AllocError>
    ensures { OnOk result (string_bytes out.new ≡ string_bytes out.old ++ padded 8 in_order) }
{
    write!(out, "{in_order:08x}")
}

/// Whether all bytes are printable, and none is a blank.
pub(crate) fn all_visible(bytes: &[u8]) -> bool
    ensures { result ≡ list_all is_visible bytes.now }
{
    bytes.iter().all(|byte| (0x21..=0x7e).contains(byte))
}

fn write_visible(out: &mut String, bytes: &[u8]) -> Result<(), AllocError>
    requires { list_all is_visible bytes.now ≡ true }
    ensures { OnOk result (string_bytes out.new ≡ string_bytes out.old ++ bytes.now) }
{
    for byte in bytes {
        out.push(char::from(*byte))?;
    }
    Ok(())
}

#[tactic(auto, unfolding(crate::specs::Texts::origin))]
fn write_origin(out: &mut String, event: &Record<'_>) -> Result<(), AllocError>
    ensures { OnOk result (string_bytes out.new ≡ string_bytes out.old
        ++ origin event.now.sequence event.now.process event.now.thread) }
{
    let mut buffer = Buffer::new();
    out.push_str(" seq=")?;
    out.push_str(buffer.format(event.sequence))?;
    out.push_str(" process=")?;
    out.push_str(buffer.format(event.process))?;
    out.push_str(" thread=")?;
    out.push_str(buffer.format(event.thread))?;
    out.push('\n')
}

fn write_frames(out: &mut Vec<u8>, frames: &[u8]) -> Result<(), AllocError>
    ensures { OnOk result (out.new.items ≡ out.old.items
        ++ flat_map frame_line (numbers 0 (length frames.now / 8) frames.now)) }
{
    for place in 0..frames.len() / 8 {
        out.extend_from_slice(&frame_line(address_at(frames, 8 * place)))?;
    }
    Ok(())
}

/// The address in the eight bytes at a place, the lowest byte first.
#[tactic(auto, unfolding(htl_segment::specs::Numbers::number))]
fn address_at(frames: &[u8], place: usize) -> u64
    requires { place + 8 ≤ length frames.now }
    ensures { result ≡ number place 8 frames.now }
{
    LittleEndian::read_u64(&frames[place..])
}

#[tactic(auto, unfolding(crate::specs::Texts::frame_line))]
fn frame_line(address: u64) -> [u8; 21]
    ensures { result ≡ frame_line address }
{
    let mut line = *b"  0x0000000000000000\n";
    line[4..20].copy_from_slice(&hex_digits(address));
    line
}
