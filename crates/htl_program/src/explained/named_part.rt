//! The part of the inputs that a fault names.

ghost use Rattle.std.specs.Prelude.{◌≡◌, option_map};
ghost use Rattle.htl_program.specs.Parts.{number_part, numbered_part, numbers_part, part_text};
ghost use Rattle.htl_program.specs.Words.{part_of, part_words};

use crate::explained::subject::SubjectText;
use crate::explained::words::part;
use htl_command::{Code, Parts, PrintedFault};
use htl_question::Subject;
use std::fmt;

/// The part of the inputs in which a fault finds something wrong. Records, rows and segments count
/// from 0.
#[derive(Clone, Copy)]
pub enum NamedPart {
    Record(u64),
    Byte(u64),
    Processor(u64),
    /// A segment by its place among those of all inputs.
    Segment(u64),
    /// A segment by its key.
    Key { processor: u64, number: u64 },
    Sequence(u64),
    Row(u64),
    /// A field of a line, by its name.
    Field(&'static str),
    /// What was asked about.
    Subject(Subject),
    /// The words for every fault of a code, with a placeholder such as `<row>` for each number.
    Unnumbered(&'static str),
    /// An input, by its place.
    Input(u64),
    /// A saved state, by its place among those that a dialogue begins with.
    State(u64),
    /// One or the other of this place, where it isn't known which.
    StateOrSegment(u64),
}

impl NamedPart {
    /// The part that a printed fault names. If only its code was printed, the words have
    /// placeholders.
    pub(crate) fn of(fault: PrintedFault) -> Option<NamedPart>
        ensures { option_map part_text result ≡ part_words fault.code fault.parts }
    {
        match NamedPart::numbered(fault) {
            Some(part) => Some(part),
            None => NamedPart::unnumbered(fault.code),
        }
    }

    /// What each fault of the code names, where it names a part.
    pub fn unnumbered(code: Code) -> Option<NamedPart>
        ensures { option_map part_text result ≡ part_of code }
    {
        match part(code) {
            Some(words) => Some(NamedPart::Unnumbered(words)),
            None => None,
        }
    }

    /// The part that has the fault's numbers, or its field.
    fn numbered(fault: PrintedFault) -> Option<NamedPart>
        ensures { result ≡ numbered_part fault.code fault.parts }
    {
        match fault.parts {
            Parts::Nothing => None,
            Parts::Number(number) => NamedPart::from_number(fault.code, number),
            Parts::Numbers(first, second) => NamedPart::from_numbers(fault.code, first, second),
            Parts::Field(name) => match fault.code {
                Code::E1 => Some(NamedPart::Field(name)),
                _ => None,
            },
        }
    }

    /// The part that has a number, where the faults of the code have one.
    fn from_number(code: Code, number: u64) -> Option<NamedPart>
        ensures { result ≡ number_part code number }
    {
        match code {
            Code::S11 | Code::S12 | Code::S13 | Code::S14 | Code::S15 => {
                Some(NamedPart::Record(number))
            }
            Code::H1 => Some(NamedPart::Byte(number)),
            Code::F17 => Some(NamedPart::Processor(number)),
            Code::C2 | Code::C3 => Some(NamedPart::Segment(number)),
            Code::C5 => Some(NamedPart::Sequence(number)),
            Code::C10 => Some(NamedPart::Input(number)),
            Code::Y2 | Code::Y3 | Code::Y4 | Code::Y5 | Code::Y6 => Some(NamedPart::Row(number)),
            _ => None,
        }
    }

    /// The part that has two numbers, where the faults of the code have two.
    fn from_numbers(code: Code, processor: u64, number: u64) -> Option<NamedPart>
        ensures { result ≡ numbers_part code processor number }
    {
        match code {
            Code::C4 | Code::C7 | Code::C8 => Some(NamedPart::Key { processor, number }),
            _ => None,
        }
    }
}

impl fmt::Display for NamedPart {
    ghost use Rattle.std.specs.Prelude.{Some};

    ghost output = { λ part. Some (part_text part) };

    fn fmt<W: fmt::Write>(&self, f: &mut fmt::Formatter<W>) -> fmt::Result {
        match *self {
            NamedPart::Record(record) => write!(f, "record {record}"),
            NamedPart::Byte(place) => write!(f, "byte {place}"),
            NamedPart::Processor(processor) => write!(f, "processor {processor}"),
            NamedPart::Segment(place) => write!(f, "segment {place} of all inputs"),
            NamedPart::Key { processor, number } => {
                write!(f, "segment {number} of processor {processor}")
            }
            NamedPart::Sequence(sequence) => write!(f, "sequence {sequence}"),
            NamedPart::Row(row) => write!(f, "row {row}"),
            NamedPart::Field(name) => write!(f, "the line's {name}"),
            NamedPart::Subject(subject) => write!(f, "{}", SubjectText { subject }),
            NamedPart::Unnumbered(words) => write!(f, "{words}"),
            NamedPart::Input(input) => write!(f, "input {input}"),
            NamedPart::State(place) => write!(f, "state {place}"),
            NamedPart::StateOrSegment(place) => {
                write!(f, "state {place} or segment {place} of all inputs")
            }
        }
    }
}
