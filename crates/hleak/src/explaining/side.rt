//! One of the two segments of a fault, named so that a person finds it.

ghost use Rattle.std.specs.Prelude.{◌≡◌};
ghost use Rattle.hleak.specs.Subjects.{input_name};
ghost use Rattle.hleak.specs.Sides.{processor_word, label_of};

use crate::explaining::task::Task;
use crate::shown::Shown;
use htl_case::CaseFault;
use htl_main::Origin;
use std::fmt;

/// What distinguishes one of a fault's two segments from the other.
#[derive(Clone, Copy, Debug, PartialEq, Eq)]
pub enum SegmentLabel {
    Trace(u64),
    Processors(u16),
    Key { processor: u16, number: u32 },
}

impl SegmentLabel {
    /// The label of the segment for this fault: its trace, its number of processors, or else its key.
    fn of(fault: CaseFault, origin: Origin) -> SegmentLabel
        ensures { result ≡ label_of fault origin }
    {
        match fault {
            CaseFault::OtherTrace(_) => SegmentLabel::Trace(origin.trace_id),
            CaseFault::OtherProcessors(_) => SegmentLabel::Processors(origin.processors),
            _ => SegmentLabel::Key {
                processor: origin.processor,
                number: origin.number,
            },
        }
    }
}

impl fmt::Display for SegmentLabel {
    ghost use Rattle.std.specs.Prelude.{Some};
    ghost use Rattle.hleak.specs.Sides.{label_text};

    ghost output = { λ label. Some (label_text label) };

    #[tactic(auto, using(htl_lemmas::proofs::Padding::padded_to))]
    fn fmt<W: fmt::Write>(&self, f: &mut fmt::Formatter<W>) -> fmt::Result {
        match *self {
            SegmentLabel::Trace(id) => write!(f, "trace 0x{id:016x}"),
            SegmentLabel::Processors(count) => write!(f, "{count} {}", processor_word(count)),
            SegmentLabel::Key { processor, number } => {
                write!(f, "processor {processor}, segment {number}")
            }
        }
    }
}

/// The word for this number of processors.
fn processor_word(count: u16) -> &'static str
    ensures { result.now ≡ processor_word count }
{
    if count == 1 {
        "processor"
    } else {
        "processors"
    }
}

/// A segment that a fault is about: its file, and what tells it from the other one.
#[derive(Clone, Copy)]
pub struct Side<'a> {
    file: &'a str,
    label: SegmentLabel,
}

impl<'a> Side<'a> {
    /// The segment from this origin, as the fault sees it.
    pub fn of(task: Task<'a>, fault: CaseFault, origin: Origin) -> Side<'a>
        ensures file { result.file.now ≡ input_name task.entry origin.input }
        ensures label { result.label ≡ label_of fault origin }
    {
        Side {
            file: task.input(origin.input),
            label: SegmentLabel::of(fault, origin),
        }
    }
}

impl fmt::Display for Side<'_> {
    ghost use Rattle.std.specs.Prelude.{Some};
    ghost use Rattle.hleak.specs.Sides.{side_text};

    ghost output = { λ side. Some (side_text side.file.now side.label) };

    fn fmt<W: fmt::Write>(&self, f: &mut fmt::Formatter<W>) -> fmt::Result {
        write!(f, "{} ({})", Shown::name(self.file), self.label)
    }
}
