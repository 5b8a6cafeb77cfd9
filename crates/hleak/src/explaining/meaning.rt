//! What a fault means, in words.

ghost use Rattle.std.specs.Prelude.{◌≡◌, None, Some};
ghost use Rattle.hleak.specs.Meanings.{absent_advice, absent_text, absent_wrong, case_text};
ghost use Rattle.hleak.specs.Meanings.{coded, form_text, hex_text};
ghost use Rattle.hleak.specs.Meanings.{line_text, missing_text, no_memory, said, segment_text};
ghost use Rattle.hleak.specs.Meanings.{state_text, symbols_text, text_of, too_many_stacks};
ghost use Rattle.hleak.specs.Meanings.{unbounded_text, unknown_cut_text, unread, unsaved, untaken};

use crate::explaining::task::Task;
use crate::reason::Reason;
use htl_case::CaseFault;
use htl_command::Code;
use htl_program::{GIVE_MISSING, NamedPart, advice, form_wrong, wrong};
use htl_question::Subject;
use htl_segment::{Fault, HexFault};
use htl_state::Fault as StateFault;
use htl_symbols::SymbolFault;
use htl_text::{FormFault, LineFault};
use std::fmt;

/// What is wrong with which part of the inputs, and what to do.
#[derive(Clone, Copy)]
pub struct Meaning {
    part: Option<NamedPart>,
    wrong: &'static str,
    advice: &'static str,
}

impl Meaning {
    /// What a fault without a code means.
    pub fn new(wrong: &'static str, advice: &'static str) -> Meaning
        ensures { text_of result ≡ said None wrong.now advice.now }
    {
        Meaning {
            part: None,
            wrong,
            advice,
        }
    }

    /// A file or standard input can't be opened or read, for this reason.
    pub fn unread(reason: Reason) -> Meaning
        ensures { text_of result ≡ unread reason }
    {
        match reason {
            Reason::NotThere => Meaning::new("there is no such file", "is its name right?"),
            Reason::NotAllowed => Meaning::new(
                "you aren't allowed to read it",
                "are its rights, and those of the folders above it, as they should be?",
            ),
            Reason::Folder => Meaning::new("it is a folder", "give the files in it"),
            Reason::TooManyOpen => Meaning::new(
                "too many files are open",
                "raise their limit (ulimit -n), or give fewer pipes at once",
            ),
            Reason::Unknown => Meaning::new(
                "it can't be opened or read",
                "is it a file, is it there, and may you read it?",
            ),
        }
    }

    /// Standard output failed.
    pub fn untaken() -> Meaning
        ensures { text_of result ≡ untaken }
    {
        Meaning::new(
            "it didn't take the whole answer",
            "is a disk full, or its reader gone?",
        )
    }

    /// A state can't be saved, for this reason.
    pub fn unsaved(reason: Reason) -> Meaning
        ensures { text_of result ≡ unsaved reason }
    {
        match reason {
            Reason::NotThere => Meaning::new("its folder isn't there", "is its name right?"),
            Reason::NotAllowed => Meaning::new(
                "you aren't allowed to write in its folder",
                "are the rights of its folder, and of those above it, as they should be?",
            ),
            Reason::Folder => Meaning::new("it is a folder", "give the name of a file in it"),
            Reason::TooManyOpen => Meaning::new(
                "too many files are open",
                "raise their limit (ulimit -n)",
            ),
            Reason::Unknown => Meaning::new("it can't be written", "is a disk full?"),
        }
    }

    /// What would be saved has too many stacks.
    pub fn too_many_stacks() -> Meaning
        ensures { text_of result ≡ too_many_stacks }
    {
        Meaning::new(
            "it would have more than 2^32 stacks",
            "save states of fewer segments",
        )
    }

    /// The system refused memory. All codes for this have the same words.
    pub fn no_memory() -> Meaning
        ensures { text_of result ≡ no_memory }
    {
        Meaning::from_code(Code::C6)
    }

    /// What a fault means that has this code, and names no part of the inputs.
    #[tactic(auto, unfolding(crate::specs::Meanings::coded))]
    fn from_code(code: Code) -> Meaning
        ensures { text_of result ≡ coded code None }
    {
        Meaning::new(wrong(code), advice(code))
    }

    /// What a fault means that has this code, and names this part of the inputs.
    #[tactic(auto, unfolding(crate::specs::Meanings::coded))]
    fn from_part(code: Code, part: NamedPart) -> Meaning
        ensures { text_of result ≡ coded code (Some part) }
    {
        Meaning {
            part: Some(part),
            wrong: wrong(code),
            advice: advice(code),
        }
    }

    /// What a fault of a segment means.
    pub fn from_segment(fault: Fault) -> Meaning
        ensures { text_of result ≡ segment_text fault }
    {
        match fault {
            Fault::Short => Meaning::from_code(Code::S1),
            Fault::Magic => Meaning::from_code(Code::S2),
            Fault::Version => Meaning::from_code(Code::S3),
            Fault::Processors => Meaning::from_code(Code::S4),
            Fault::Processor => Meaning::from_code(Code::S5),
            Fault::Reserved => Meaning::from_code(Code::S6),
            Fault::Number => Meaning::from_code(Code::S7),
            Fault::Count => Meaning::from_code(Code::S8),
            Fault::Length => Meaning::from_code(Code::S9),
            Fault::Cut => Meaning::from_code(Code::S10),
            Fault::RecordShort(record) => Meaning::from_part(Code::S11, NamedPart::Record(record)),
            Fault::Sequence(record) => Meaning::from_part(Code::S12, NamedPart::Record(record)),
            Fault::Kind(record) => Meaning::from_part(Code::S13, NamedPart::Record(record)),
            Fault::Frames(record) => Meaning::from_part(Code::S14, NamedPart::Record(record)),
            Fault::Field(record) => Meaning::from_part(Code::S15, NamedPart::Record(record)),
            Fault::Excess => Meaning::from_code(Code::S16),
            Fault::NoMemory => Meaning::from_code(Code::S17),
        }
    }

    /// What a fault of a text in hexadecimal means.
    pub fn from_hex(fault: HexFault) -> Meaning
        ensures { text_of result ≡ hex_text fault }
    {
        match fault {
            HexFault::BadDigit(place) => Meaning::from_part(Code::H1, NamedPart::Byte(place)),
            HexFault::Odd => Meaning::from_code(Code::H2),
            HexFault::NoMemory => Meaning::from_code(Code::H3),
        }
    }

    /// What a fault of a saved state means.
    pub fn from_state(fault: StateFault) -> Meaning
        ensures { text_of result ≡ state_text fault }
    {
        match fault {
            StateFault::Short => Meaning::from_code(Code::F1),
            StateFault::Magic => Meaning::from_code(Code::F2),
            StateFault::Version => Meaning::from_code(Code::F3),
            StateFault::Reserved => Meaning::from_code(Code::F4),
            StateFault::Processors => Meaning::from_code(Code::F5),
            StateFault::Length => Meaning::from_code(Code::F6),
            StateFault::Checksum => Meaning::from_code(Code::F7),
            StateFault::List => Meaning::from_code(Code::F8),
            StateFault::Stack => Meaning::from_code(Code::F9),
            StateFault::Part => Meaning::from_code(Code::F10),
            StateFault::Count => Meaning::from_code(Code::F11),
            StateFault::Latest => Meaning::from_code(Code::F12),
            StateFault::Moment => Meaning::from_code(Code::F13),
            StateFault::Held => Meaning::from_code(Code::F14),
            StateFault::Excess => Meaning::from_code(Code::F15),
            StateFault::NoMemory => Meaning::from_code(Code::F16),
        }
    }

    /// What it means that a saved state counts more of this processor than its segments can have.
    pub fn from_unbounded(processor: u16) -> Meaning
        ensures { text_of result ≡ unbounded_text processor }
    {
        Meaning::from_part(Code::F17, NamedPart::Processor(u64::from(processor)))
    }

    /// What a fault of a line of text means.
    pub fn from_line(fault: LineFault) -> Meaning
        ensures { text_of result ≡ line_text fault }
    {
        match fault {
            LineFault::Form(fault) => Meaning::from_form(fault),
            LineFault::Order => Meaning::from_code(Code::E2),
            LineFault::Segment(fault) => Meaning::from_segment(fault),
        }
    }

    /// What it means that a line has none of the forms.
    fn from_form(fault: FormFault) -> Meaning
        ensures { text_of result ≡ form_text fault }
    {
        let part = match fault {
            FormFault::Words => None,
            FormFault::Field(field) => Some(NamedPart::Field(field.name())),
        };
        Meaning {
            part,
            wrong: form_wrong(fault),
            advice: advice(Code::E1),
        }
    }

    /// What a fault of all segments means, which the task reads.
    pub fn from_case(task: Task, fault: CaseFault) -> Meaning
        ensures { text_of result ≡ case_text task.entry fault }
    {
        match fault {
            CaseFault::Empty => Meaning::from_code(Code::C1),
            CaseFault::OtherTrace(place) => Meaning::from_part(Code::C2, task.part_at(place)),
            CaseFault::OtherProcessors(place) => Meaning::from_part(Code::C3, task.part_at(place)),
            CaseFault::TwoContents(processor, number) => {
                Meaning::from_part(Code::C4, key(processor, number))
            }
            CaseFault::SequenceTwice(sequence) => {
                Meaning::from_part(Code::C5, NamedPart::Sequence(sequence))
            }
            CaseFault::NoMemory => Meaning::from_code(Code::C6),
            CaseFault::Falling(processor, number) => {
                Meaning::from_part(Code::C7, key(processor, number))
            }
        }
    }

    /// What it means that a case misses a segment, where a complete one is asked for. No moment can be
    /// asked for where events are forgotten.
    pub fn from_missing(forgets: bool, processor: u16, number: u32) -> Meaning
        ensures { text_of result ≡ missing_text forgets processor number }
    {
        let key = key(processor, number);
        if !forgets {
            return Meaning::from_part(Code::C8, key);
        }
        Meaning {
            part: Some(key),
            wrong: wrong(Code::C8),
            advice: GIVE_MISSING,
        }
    }

    /// What it means that this input is cut within a segment of which it isn't known which it is, where
    /// a complete case is asked for.
    pub fn from_unknown_cut(input: u64) -> Meaning
        ensures { text_of result ≡ unknown_cut_text input }
    {
        Meaning::from_part(Code::C10, NamedPart::Input(input))
    }

    /// What it means that nothing can be found of what was asked about, as of a moment if one was
    /// given, and since a sequence if one was.
    pub fn from_absent(subject: Option<Subject>, has_moment: bool, has_since: bool) -> Meaning
        ensures { text_of result ≡ absent_text subject has_moment has_since }
    {
        let part = match subject {
            Some(subject) => Some(NamedPart::Subject(subject)),
            None => NamedPart::unnumbered(Code::C9),
        };
        Meaning {
            part,
            wrong: absent_wrong(has_moment, has_since),
            advice: absent_advice(has_moment),
        }
    }

    /// What a fault of a symbol table means.
    pub fn from_symbols(fault: SymbolFault) -> Meaning
        ensures { text_of result ≡ symbols_text fault }
    {
        match fault {
            SymbolFault::Header => Meaning::from_code(Code::Y1),
            SymbolFault::Fields(row) => Meaning::from_part(Code::Y2, NamedPart::Row(row)),
            SymbolFault::Number(row) => Meaning::from_part(Code::Y3, NamedPart::Row(row)),
            SymbolFault::EmptyRange(row) => Meaning::from_part(Code::Y4, NamedPart::Row(row)),
            SymbolFault::Overlap(row) => Meaning::from_part(Code::Y5, NamedPart::Row(row)),
            SymbolFault::Csv(row) => Meaning::from_part(Code::Y6, NamedPart::Row(row)),
            SymbolFault::NoMemory => Meaning::from_code(Code::Y7),
        }
    }
}

/// Why nothing can be found of what was asked about, by what else was asked.
fn absent_wrong(has_moment: bool, has_since: bool) -> &'static str
    ensures { result.now ≡ absent_wrong has_moment has_since }
{
    match (has_moment, has_since) {
        (false, false) => "has no event in these inputs",
        (true, false) => "has no event in these inputs, or none up to --until",
        (false, true) => "has no event in these inputs, or no event is above --since",
        (true, true) => {
            "\
has no event in these inputs, or none up to --until, or no event that counts is above --since"
        }
    }
}

/// What to do then.
fn absent_advice(has_moment: bool) -> &'static str
    ensures { result.now ≡ absent_advice has_moment }
{
    if has_moment {
        "\
is each number right, and --until late enough? A mistyped number looks like one without a leak"
    } else {
        "is each number right? A mistyped number looks like one without a leak"
    }
}

/// A segment by its key.
fn key(processor: u16, number: u32) -> NamedPart
    ensures { result ≡ NamedPart.Key processor number }
{
    NamedPart::Key {
        processor: u64::from(processor),
        number: u64::from(number),
    }
}

impl fmt::Display for Meaning {
    ghost output = { λ meaning. Some (text_of meaning) };

    fn fmt<W: fmt::Write>(&self, f: &mut fmt::Formatter<W>) -> fmt::Result {
        let (wrong, advice) = (self.wrong, self.advice);
        match self.part {
            Some(part) => write!(f, "{part} {wrong}: {advice}"),
            None => write!(f, "{wrong}: {advice}"),
        }
    }
}
