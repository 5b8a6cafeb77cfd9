//! Decoding: the state that bytes are.
ghost use Rattle.std.specs.Prelude.{◌≡◌, ◌⊎◌, ◌≤◌, ◌+◌, ◌-◌, [], length, Ok, Err, None, Some};
ghost use Rattle.std.specs.Prelude.{IfOk, OnOk, MatchResult};
ghost use Rattle.htl_state.specs.Reading.{IsRefusal, lists_in, part_in, parts_in, body_in};
ghost use Rattle.htl_state.specs.Reading.{at, frame_fault, state_in};
ghost use Rattle.htl_state.specs.Rows.{State};
ghost use Rattle.htl_state.specs.WellFormed.{Spells};

use crate::checksum::checksum;
use crate::fault::{Fault, Refused, StateError};
use crate::row::{behind, read_list};
use crate::rows::{CountRow, LatestRow, PartRows, Setting, StateRows};
use htl_event::SharedStack;
use htl_segment::{Segment, u16_at, u32_at, u64_at};
use std::alloc::Global;

/// The length of the header in bytes.
const HEADER_LEN: usize = 24;

/// The length of the end in bytes.
const END_LEN: usize = 16;

/// The greatest number of processors.
const MAX_PROCESSORS: u64 = 256;

/// The length in bytes of the numbers at the front of a part.
const FRONT_LEN: usize = 20;

/// The state that the bytes are.
///
/// Where they are none, it reports the first rule that they break, and where the refused item begins:
/// the rules of the header and of the end, and then those of one list after the other, row by row.
/// Memory is asked for only where as many bytes are there as the rows take at least.
pub fn decode(alloc: Global, bytes: &[u8]) -> Result<StateRows, StateError>
    // What is read is spelled by the bytes.
    ensures found { IfOk result (λ rows. Spells bytes.now rows) }
    // What the bytes spell is read, unless memory runs out.
    ensures only { (s : State) → Spells bytes.now s
        → MatchResult result (λ rows. rows ≡ s) (λ error. error.fault ≡ Fault.NoMemory) }
    // The first fault is reported.
    ensures fault { MatchResult result
        (λ rows. state_in bytes.now ≡ Ok rows)
        (λ error. (error.fault ≡ Fault.NoMemory) ⊎ (state_in bytes.now ≡ Err error)) }
{
    read_state(alloc, bytes)
}

#[tactic(auto, unfolding(crate::specs::Reading::state_in))]
fn read_state(alloc: Global, bytes: &[u8]) -> Result<StateRows, StateError>
    ensures { MatchResult result
        (λ rows. state_in bytes.now ≡ Ok rows)
        (λ error. (error.fault ≡ Fault.NoMemory) ⊎ (state_in bytes.now ≡ Err error)) }
{
    check_frame(bytes)?;
    let end = bytes.len() - END_LEN;
    let (front, _end) = bytes.split_at(end);
    match read_body(
        alloc,
        u64_at(bytes, 8),
        u64_at(bytes, 16),
        behind(front, HEADER_LEN),
    ) {
        Ok(rows) => Ok(rows),
        Err(refused) => Err(StateError {
            fault: refused.fault,
            offset: offset_of(end, refused.left),
        }),
    }
}

/// The offset at which so many bytes are left before the end.
fn offset_of(end: usize, left: usize) -> u64
    ensures { result ≡ end - left }
{
    end.saturating_sub(left) as u64
}

/// Tests the header and the end.
#[tactic(auto, unfolding(crate::specs::Reading::frame_fault))]
fn check_frame(bytes: &[u8]) -> Result<(), StateError>
    ensures fault { MatchResult result
        (λ _. frame_fault bytes.now ≡ None)
        (λ error. frame_fault bytes.now ≡ Some error) }
    ensures long { OnOk result (HEADER_LEN + END_LEN ≤ length bytes.now) }
{
    if bytes.len() < HEADER_LEN + END_LEN {
        return Err(at(Fault::Short, 0));
    }
    if !bytes.starts_with(b"HLA1") {
        return Err(at(Fault::Magic, 0));
    }
    if u16_at(bytes, 4) != 1 {
        return Err(at(Fault::Version, 4));
    }
    if u16_at(bytes, 6) != 0 {
        return Err(at(Fault::Reserved, 6));
    }
    let processors = u64_at(bytes, 16);
    if processors == 0 || processors > MAX_PROCESSORS {
        return Err(at(Fault::Processors, 16));
    }
    let len = bytes.len();
    if u64_at(bytes, len - 16) != len as u64 {
        return Err(at(Fault::Length, len - 16));
    }
    if u64_at(bytes, len - 8) != checksum(&bytes[..len - 8]) {
        return Err(at(Fault::Checksum, len - 8));
    }
    Ok(())
}

fn at(fault: Fault, offset: usize) -> StateError
    ensures { Some result ≡ at fault offset }
{
    StateError {
        fault,
        offset: offset as u64,
    }
}

/// The table of stacks and the parts, which fill the bytes.
#[tactic(auto, unfolding(crate::specs::Reading::body_in))]
fn read_body(
    alloc: Global,
    trace_id: u64,
    processors: u64,
    bytes: &[u8],
) -> Result<StateRows, Refused>
    ensures { MatchResult result
        (λ rows. body_in trace_id processors bytes.now ≡ Ok (rows, []))
        (λ refused. IsRefusal refused (body_in trace_id processors bytes.now)) }
{
    let setting = Setting {
        trace_id,
        processors,
        processor: 0,
        front: 0,
        stacks: 0,
    };
    let (stacks, rest) = read_list::<SharedStack>(alloc, setting, bytes)?;
    let setting = Setting {
        stacks: stacks.len() as u64,
        ..setting
    };
    let (parts, rest) = read_parts(alloc, setting, rest)?;
    if !rest.is_empty() {
        return Err(Refused::at(Fault::Excess, rest));
    }
    Ok(StateRows {
        trace_id,
        stacks,
        parts,
    })
}

/// The parts of all processors.
fn read_parts(
    alloc: Global,
    setting: Setting,
    bytes: &[u8],
) -> Result<(Vec<PartRows>, &[u8]), Refused>
    ensures { MatchResult result
        (λ read. parts_in setting setting.processors 0 [] bytes.now
        ≡ Ok (read.0.items, read.1.now))
        (λ refused. IsRefusal refused (parts_in setting setting.processors 0 [] bytes.now)) }
{
    let mut parts = Vec::new(alloc);
    let mut rest = bytes;
    for processor in 0..setting.processors {
        let (part, after) = read_part(
            alloc,
            Setting {
                processor,
                front: 0,
                ..setting
            },
            rest,
        )?;
        parts.push(part)?;
        rest = after;
    }
    Ok((parts, rest))
}

/// The part at the front of the bytes.
#[tactic(auto, unfolding(crate::specs::Reading::part_in))]
fn read_part(alloc: Global, setting: Setting, bytes: &[u8]) -> Result<(PartRows, &[u8]), Refused>
    ensures { MatchResult result
        (λ read. part_in setting bytes.now ≡ Ok (read.0, read.1.now))
        (λ refused. IsRefusal refused (part_in setting bytes.now)) }
{
    if bytes.len() < FRONT_LEN {
        return Err(Refused::at(Fault::Part, bytes));
    }
    let front = u64::from(u32_at(bytes, 0));
    read_lists(alloc, Setting { front, ..setting }, bytes)
}

/// The numbers at the front of the bytes, and the lists behind them.
#[tactic(auto, unfolding(crate::specs::Reading::lists_in))]
fn read_lists(alloc: Global, setting: Setting, bytes: &[u8]) -> Result<(PartRows, &[u8]), Refused>
    requires { FRONT_LEN ≤ length bytes.now }
    ensures { MatchResult result
        (λ read. lists_in setting bytes.now ≡ Ok (read.0, read.1.now))
        (λ refused. IsRefusal refused (lists_in setting bytes.now)) }
{
    let (counts, rest) = read_list::<CountRow>(alloc, setting, behind(bytes, FRONT_LEN))?;
    let (latest, rest) = read_list::<LatestRow>(alloc, setting, rest)?;
    let (marks, rest) = read_list::<(u32, u64)>(alloc, setting, rest)?;
    let (exits, rest) = read_list::<(u32, u64)>(alloc, setting, rest)?;
    let (held, rest) = read_list::<Segment>(alloc, setting, rest)?;
    let part = PartRows {
        front: u32_at(bytes, 0),
        last_sequence: u64_at(bytes, 4),
        events: u64_at(bytes, 12),
        counts,
        latest,
        marks,
        exits,
        held,
    };
    Ok((part, rest))
}
