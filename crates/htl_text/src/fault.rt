//! Why a text encodes no segments.
ghost use Rattle.std.specs.Prelude.{◌≡◌};
ghost use Rattle.htl_text.specs.declared.fault.TextFault.TheVariants as faults;

use crate::field::Field;
use htl_event::NoMemory;
use htl_segment::Fault;
use thiserror::Error;

/// Why a line has none of the forms. The `Display` text is the fault's code.
#[derive(Clone, Copy, Debug, PartialEq, Eq, Error)]
pub enum FormFault {
    /// No form begins with the line's first words, or words follow its last field.
    #[error("E1")]
    Words,
    /// A form begins with the line's first words, and this is the first of its fields that isn't
    /// there, or whose value isn't one that fits.
    #[error("E1({0})")]
    Field(Field),
}

/// The fault of a line. The `Display` text is the fault's code.
#[derive(Clone, Copy, Debug, PartialEq, Eq, Error)]
pub enum LineFault {
    /// The line has none of the forms.
    #[error("{0}")]
    Form(FormFault),
    /// There is an event or a frame before any segment, or a frame before any event of its segment.
    #[error("E2")]
    Order,
    /// The format can't encode the segment that begins at the line.
    #[error("{0}")]
    Segment(Fault),
}

/// Why a text encodes no segments: its first fault, and the line at which it is reported.
#[derive(Clone, Copy, Debug, PartialEq, Eq, Error)]
pub enum TextFault {
    /// Lines are counted from 1.
    #[error("line {0}: {1}")]
    Line(u64, LineFault),
    /// An allocation was refused.
    #[error("out of memory")]
    NoMemory,
}

impl<R: Into<NoMemory>> From<R> for TextFault {
    ghost from_gives = { λ _ fault. fault ≡ faults.NoMemory };

    fn from(refused: R) -> TextFault {
        let NoMemory = refused.into();
        TextFault::NoMemory
    }
}
