//! Latest events: their rows.
ghost use Rattle.std.specs.Prelude.{◌≡◌, ◌≤◌, ◌==◌, ◌||◌, nat_le, length, drop, Some};
ghost use Rattle.htl_event.specs.Slots.{base_of};
ghost use Rattle.htl_segment.specs.Numbers.{number};
ghost use Rattle.htl_state.specs.Reading.{kind_of, latest_of};

use crate::fault::Fault;
use crate::row::{Row, RowRead, behind};
use crate::rows::{LatestRow, Setting};
use htl_event::{Kind, NoMemory, base};
use htl_segment::{code_of, push_u32, push_u64, u32_at, u64_at};
use std::alloc::Global;

/// The length of a latest event in bytes.
const LATEST_LEN: usize = 28;

impl Row for LatestRow {
    ghost use Rattle.htl_state.specs.Reading.{latest};

    ghost format = { latest };

    fn least() -> usize {
        LATEST_LEN
    }

    fn fault() -> Fault {
        Fault::Latest
    }

    #[tactic(auto, unfolding(crate::specs::Reading::latest_in))]
    fn read<'a>(_alloc: Global, setting: Setting, bytes: &'a [u8]) -> RowRead<'a, LatestRow> {
        if bytes.len() < LATEST_LEN {
            return Ok(None);
        }
        if breaks_rule(setting, bytes) {
            return Ok(None);
        }
        let Some(kind) = kind_of(u32_at(bytes, 8)) else {
            return Ok(None);
        };
        Ok(Some((row_at(kind, bytes), behind(bytes, LATEST_LEN))))
    }

    fn is_before(&self, next: &LatestRow) -> bool {
        self.process < next.process
            || (self.process == next.process && base(self.handle) < base(next.handle))
    }

    #[tactic(auto, unfolding(crate::specs::Format::latest_bytes))]
    fn write(&self, _alloc: Global, out: &mut Vec<u8>) -> Result<(), NoMemory> {
        push_u64(out, self.sequence)?;
        push_u32(out, u32::from(code_of(self.kind)))?;
        push_u32(out, self.process)?;
        push_u32(out, self.thread)?;
        push_u32(out, self.handle)?;
        push_u32(out, self.stack)?;
        Ok(())
    }
}

/// Whether the row at the front has no sequence, no handle, or no stack of the table.
fn breaks_rule(setting: Setting, bytes: &[u8]) -> bool
    requires { LATEST_LEN ≤ length bytes.now }
    ensures { result ≡ (number 0 8 bytes.now == 0 || base_of (number 20 4 bytes.now) == 0
        || nat_le setting.stacks (number 24 4 bytes.now)) }
{
    u64_at(bytes, 0) == 0
        || base(u32_at(bytes, 20)) == 0
        || u64::from(u32_at(bytes, 24)) >= setting.stacks
}

/// The row at the front, which has this kind.
fn row_at(kind: Kind, bytes: &[u8]) -> LatestRow
    requires { LATEST_LEN ≤ length bytes.now }
    ensures { latest_of bytes.now (Some kind) ≡ Some (result, drop 28 bytes.now) }
{
    LatestRow {
        sequence: u64_at(bytes, 0),
        kind,
        process: u32_at(bytes, 12),
        thread: u32_at(bytes, 16),
        handle: u32_at(bytes, 20),
        stack: u32_at(bytes, 24),
    }
}

/// The kind of this code, if it opens or closes a handle.
fn kind_of(code: u32) -> Option<Kind>
    ensures { result ≡ kind_of code }
{
    match code {
        1 => Some(Kind::Opened),
        2 => Some(Kind::Closed),
        _ => None,
    }
}
