//! The lines of a text's events.
ghost use Rattle.std.specs.Prelude.{◌≡◌, slice_get};
ghost use Rattle.htl_text.specs.Encoded.{event_line, event_lines, record_of};
ghost use Rattle.htl_text.specs.Lines.{lines_of_text};

use crate::encoding::{split_line, without_mark};
use crate::fault::LineFault;
use crate::item::Item;
use crate::lines::item;
use htl_segment::Fault;

/// The line of the event that a fault of a text is about. The fault is reported at the line where the
/// event's segment begins. A fault that is about no event has no such line.
pub fn event_line(text: &[u8], line: u64, fault: LineFault) -> Option<u64>
    ensures { result ≡ event_line text.now line fault }
{
    match fault {
        LineFault::Segment(fault) => find_event(without_mark(text), line, record_of(fault)?),
        LineFault::Form(_) | LineFault::Order => None,
    }
}

/// The place of the record that a fault of a segment is about.
fn record_of(fault: Fault) -> Option<u64>
    ensures { result ≡ record_of fault }
{
    match fault {
        Fault::RecordShort(place)
        | Fault::Sequence(place)
        | Fault::Kind(place)
        | Fault::Frames(place)
        | Fault::Field(place) => Some(place),
        _ => None,
    }
}

/// The line of the event at this place of the segment that begins at a line.
fn find_event(text: &[u8], segment: u64, place: u64) -> Option<u64>
    ensures { result ≡ slice_get (event_lines segment 0 (lines_of_text text.now)) place }
{
    let mut rest = text;
    let mut number = 0;
    let mut left = place;
    while !rest.is_empty() {
        let (line, others) = split_line(rest);
        number += 1;
        if number > segment {
            match item(line) {
                Ok(Item::Event(_)) if left == 0 => return Some(number),
                Ok(Item::Event(_)) => left -= 1,
                Ok(Item::Segment(_)) => return None,
                Ok(Item::Frame(_)) => {}
                Err(_) => {}
            }
        }
        rest = others;
    }
    None
}
