//! A line of a text.

use std::alloc::AllocError;

/// How many bytes a line has at most.
pub const MAX_LINE_LEN: usize = 65_536;

/// A line of at most `MAX_LINE_LEN` bytes, or that it was longer.
#[derive(Debug, PartialEq, Eq, Drop)]
pub enum Line {
    /// The bytes of a line.
    Whole(Vec<u8>),
    /// A line has more bytes.
    Long,
}

impl Line {
    ghost use Rattle.std.specs.Prelude.{ℕ, List, ◌++◌, OnOk};
    ghost use Rattle.htl_dialogue.specs.Reading.{IsLine};

    /// Adds bytes to the line.
    pub(crate) fn add(&mut self, piece: &[u8]) -> Result<(), AllocError>
        ensures { OnOk result ((bytes : List ℕ) → IsLine bytes self.old
            → IsLine (bytes ++ piece.now) self.new) }
    {
        match self {
            Line::Whole(bytes) if bytes.len() + piece.len() <= MAX_LINE_LEN => {
                bytes.extend_from_slice(piece)
            }
            _ => {
                *self = Line::Long;
                Ok(())
            }
        }
    }
}
