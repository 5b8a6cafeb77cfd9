//! Marks and exits: their rows, each a process and a sequence.

use crate::fault::Fault;
use crate::row::{Row, RowRead};
use crate::rows::Setting;
use htl_event::NoMemory;
use htl_segment::{push_u32, push_u64, u32_at, u64_at};
use std::alloc::Global;

/// The length of a mark or an exit in bytes.
const MOMENT_LEN: usize = 12;

impl Row for (u32, u64) {
    ghost use Rattle.htl_state.specs.Reading.{moments};

    ghost format = { moments };

    fn least() -> usize {
        MOMENT_LEN
    }

    fn fault() -> Fault {
        Fault::Moment
    }

    #[tactic(auto, unfolding(crate::specs::Reading::moment_in))]
    fn read<'a>(_alloc: Global, _setting: Setting, bytes: &'a [u8]) -> RowRead<'a, (u32, u64)> {
        if bytes.len() < MOMENT_LEN {
            return Ok(None);
        }
        let sequence = u64_at(bytes, 4);
        if sequence == 0 {
            return Ok(None);
        }
        Ok(Some(((u32_at(bytes, 0), sequence), &bytes[MOMENT_LEN..])))
    }

    fn is_before(&self, next: &(u32, u64)) -> bool {
        self.0 < next.0
    }

    #[tactic(auto, unfolding(crate::specs::Format::moment_bytes))]
    fn write(&self, _alloc: Global, out: &mut Vec<u8>) -> Result<(), NoMemory> {
        push_u32(out, self.0)?;
        push_u64(out, self.1)?;
        Ok(())
    }
}
