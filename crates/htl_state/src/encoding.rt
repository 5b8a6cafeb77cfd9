//! Encoding: the bytes of a state.
ghost use Rattle.std.specs.Prelude.{◌≡◌, ◌++◌, IfOk, OnOk};
ghost use Rattle.std.specs.List.{flat_map};
ghost use Rattle.htl_state.specs.Format.{front_bytes, part_bytes, header_bytes, body_bytes, sealed};
ghost use Rattle.htl_state.specs.Format.{spelling};

use crate::checksum::checksum;
use crate::row::write_list;
use crate::rows::{PartRows, StateRows};
use htl_event::NoMemory;
use htl_segment::{push_u16, push_u32, push_u64};
use std::alloc::{AllocError, Global};

/// The bytes of a state. Rows are written as they are: `decode` refuses those that are none of a state.
pub fn encode(alloc: Global, rows: &StateRows) -> Result<Vec<u8>, NoMemory>
    ensures { IfOk result (λ bytes. bytes.items ≡ spelling rows.now) }
{
    let mut out = Vec::new(alloc);
    push_body(alloc, &mut out, rows)?;
    seal(&mut out)?;
    Ok(out)
}

/// Writes the length of the whole and the checksum behind the bytes.
#[tactic(auto, unfolding(crate::specs::Format::sealed))]
fn seal(out: &mut Vec<u8>) -> Result<(), AllocError>
    ensures { OnOk result (out.new.items ≡ sealed out.old.items) }
{
    let len = out.len() as u64 + 16;
    push_u64(out, len)?;
    let sum = checksum(out);
    push_u64(out, sum)?;
    Ok(())
}

#[tactic(auto, unfolding(crate::specs::Format::body_bytes))]
fn push_body(alloc: Global, out: &mut Vec<u8>, rows: &StateRows) -> Result<(), NoMemory>
    ensures { OnOk result (out.new.items ≡ out.old.items ++ body_bytes rows.now) }
{
    push_header(out, rows)?;
    write_list(alloc, out, &rows.stacks)?;
    push_parts(alloc, out, &rows.parts)?;
    Ok(())
}

#[tactic(auto, unfolding(crate::specs::Format::header_bytes))]
fn push_header(out: &mut Vec<u8>, rows: &StateRows) -> Result<(), AllocError>
    ensures { OnOk result (out.new.items ≡ out.old.items ++ header_bytes rows.now) }
{
    out.extend_from_slice(b"HLA1")?;
    push_u16(out, 1)?;
    push_u16(out, 0)?;
    push_u64(out, rows.trace_id)?;
    push_u64(out, rows.parts.len() as u64)?;
    Ok(())
}

fn push_parts(alloc: Global, out: &mut Vec<u8>, parts: &[PartRows]) -> Result<(), NoMemory>
    ensures { OnOk result (out.new.items ≡ out.old.items ++ flat_map part_bytes parts.now) }
{
    for part in parts {
        push_part(alloc, out, part)?;
    }
    Ok(())
}

#[tactic(auto, unfolding(crate::specs::Format::part_bytes))]
fn push_part(alloc: Global, out: &mut Vec<u8>, part: &PartRows) -> Result<(), NoMemory>
    ensures { OnOk result (out.new.items ≡ out.old.items ++ part_bytes part.now) }
{
    push_front(out, part)?;
    write_list(alloc, out, &part.counts)?;
    write_list(alloc, out, &part.latest)?;
    write_list(alloc, out, &part.marks)?;
    write_list(alloc, out, &part.exits)?;
    write_list(alloc, out, &part.held)?;
    Ok(())
}

#[tactic(auto, unfolding(crate::specs::Format::front_bytes))]
fn push_front(out: &mut Vec<u8>, part: &PartRows) -> Result<(), AllocError>
    ensures { OnOk result (out.new.items ≡ out.old.items ++ front_bytes part.now) }
{
    push_u32(out, part.front)?;
    push_u64(out, part.last_sequence)?;
    push_u64(out, part.events)?;
    Ok(())
}
