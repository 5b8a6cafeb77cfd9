//! Counts: their rows.
ghost use Rattle.std.specs.Prelude.{◌≡◌, ◌≤◌, ◌++◌, ◌==◌, ◌||◌, ◌&&◌, nat_le, length, drop, Some};
ghost use Rattle.std.specs.Prelude.{OnOk};
ghost use Rattle.htl_segment.specs.Numbers.{number};
ghost use Rattle.htl_state.specs.Format.{slot_bytes};
ghost use Rattle.htl_state.specs.Reading.{count_of, slot_of};

use crate::fault::Fault;
use crate::row::{Row, RowRead, behind};
use crate::rows::{CountRow, Setting};
use htl_event::{Count, NoMemory, Slot};
use htl_segment::{push_u32, push_u64, u32_at, u64_at};
use std::alloc::{AllocError, Global};
use std::cmp::Ordering;

/// The length of a count in bytes.
const COUNT_LEN: usize = 36;

impl Row for CountRow {
    ghost use Rattle.htl_state.specs.Reading.{counts};

    ghost format = { counts };

    fn least() -> usize {
        COUNT_LEN
    }

    fn fault() -> Fault {
        Fault::Count
    }

    #[tactic(auto, unfolding(crate::specs::Reading::count_in))]
    fn read<'a>(_alloc: Global, setting: Setting, bytes: &'a [u8]) -> RowRead<'a, CountRow> {
        if bytes.len() < COUNT_LEN {
            return Ok(None);
        }
        if breaks_rule(setting, bytes) {
            return Ok(None);
        }
        let Some(slot) = slot_of(u32_at(bytes, 4), u64_at(bytes, 8), behind(bytes, 16)) else {
            return Ok(None);
        };
        Ok(Some((row_at(slot, bytes), behind(bytes, COUNT_LEN))))
    }

    fn is_before(&self, next: &CountRow) -> bool {
        self.stack < next.stack
            || (self.stack == next.stack && self.slot.cmp(&next.slot) == Ordering::Less)
    }

    #[tactic(auto, unfolding(crate::specs::Format::count_bytes))]
    fn write(&self, _alloc: Global, out: &mut Vec<u8>) -> Result<(), NoMemory> {
        push_u32(out, self.stack)?;
        push_slot(out, self.slot)?;
        push_u64(out, self.count.plus)?;
        push_u64(out, self.count.minus)?;
        Ok(())
    }
}

/// Whether the row at the front is of no stack of the table, or zero on both sides.
fn breaks_rule(setting: Setting, bytes: &[u8]) -> bool
    requires { COUNT_LEN ≤ length bytes.now }
    ensures { result ≡ (nat_le setting.stacks (number 0 4 bytes.now)
        || (number 20 8 bytes.now == 0 && number 28 8 bytes.now == 0)) }
{
    u64::from(u32_at(bytes, 0)) >= setting.stacks
        || (u64_at(bytes, 20) == 0 && u64_at(bytes, 28) == 0)
}

/// The row at the front, which has this slot.
fn row_at(slot: Slot, bytes: &[u8]) -> CountRow
    requires { COUNT_LEN ≤ length bytes.now }
    ensures { count_of bytes.now (Some slot) ≡ Some (result, drop 36 bytes.now) }
{
    CountRow {
        stack: u32_at(bytes, 0),
        slot,
        count: Count {
            plus: u64_at(bytes, 20),
            minus: u64_at(bytes, 28),
        },
    }
}

/// The slot of this kind and name, and of the four bytes at the front.
fn slot_of(kind: u32, name: u64, bytes: &[u8]) -> Option<Slot>
    requires { 4 ≤ length bytes.now }
    ensures { result ≡ slot_of kind name bytes.now }
{
    match kind {
        1 => {
            let mut tag = [0; 4];
            tag.copy_from_slice(&bytes[..4]);
            Some(Slot::Tagged { object: name, tag })
        }
        2 if name <= u32::MAX as u64 && u32_at(bytes, 0) == 0 => Some(Slot::Handles {
            process: name as u32,
        }),
        3 if name <= u32::MAX as u64 => Some(Slot::Bad {
            process: name as u32,
            handle: u32_at(bytes, 0),
        }),
        _ => None,
    }
}

fn push_slot(out: &mut Vec<u8>, slot: Slot) -> Result<(), AllocError>
    ensures { OnOk result (out.new.items ≡ out.old.items ++ slot_bytes slot) }
{
    match slot {
        Slot::Tagged { object, tag } => {
            push_u32(out, 1)?;
            push_u64(out, object)?;
            out.extend_from_slice(&tag)?;
        }
        Slot::Handles { process } => {
            push_u32(out, 2)?;
            push_u64(out, u64::from(process))?;
            push_u32(out, 0)?;
        }
        Slot::Bad { process, handle } => {
            push_u32(out, 3)?;
            push_u64(out, u64::from(process))?;
            push_u32(out, handle)?;
        }
    }
    Ok(())
}
