//! The words on each code: what is wrong, and what to do about it. docs/FORMAT.md has the same words.
//!
//! "The segment" is the one at the offset in the fault's line. Records, rows and segments count
//! from 0. Where the faults of a code have numbers or a field of their own, the words begin with the
//! part of the inputs that these name: "record 3" is wrong, and what is wrong with it follows.

ghost use Rattle.std.specs.Prelude.{◌≡◌, option_copied};
ghost use Rattle.htl_program.specs.Words.{advice_of, form_wrong_of, part_of, wrong_of};

use htl_command::Code;
use htl_text::FormFault;

/// What to do if the bytes of a segment or of a state break a rule that every correct writer keeps.
const DAMAGED: &str = "was the file changed, or is its writer at fault?";

/// What to do where segments were not written as those of one trace.
const MIXED: &str = "are they of one trace? If so, its writer is at fault";

/// What to do where segments are not of one trace.
const ONE_TRACE: &str = "give the files of one trace";

/// What is wrong with a field of a line.
pub(crate) const BAD_VALUE: &str = "isn't there, or has no value that fits";

/// What to do where memory was refused.
pub const FREE_MEMORY: &str = "free some, or raise its limit";

/// What to do where a segment is missing and events are forgotten: then no moment before it can be
/// asked for.
pub const GIVE_MISSING: &str = "give what is missing, or leave out --complete";

/// The part of the inputs that the words on a code begin with, if they name one. A word in angle
/// brackets stands for a number of the fault.
pub fn part(code: Code) -> Option<&'static str>
    ensures { option_copied result ≡ part_of code }
{
    match code {
        Code::S11 | Code::S12 | Code::S13 | Code::S14 | Code::S15 => Some("record <i>"),
        Code::H1 => Some("byte <place>"),
        Code::F17 => Some("processor <processor>"),
        Code::C2 | Code::C3 => Some("segment <place> of all inputs"),
        Code::C4 | Code::C7 | Code::C8 => Some("segment <number> of processor <processor>"),
        Code::C5 => Some("sequence <sequence>"),
        Code::C9 => Some("what was asked about"),
        Code::C10 => Some("input <input>"),
        Code::Y2 | Code::Y3 | Code::Y4 | Code::Y5 | Code::Y6 => Some("row <row>"),
        _ => None,
    }
}

/// What is wrong, with the part where the words begin with one.
#[tactic(auto, unfolding(crate::specs::Words::wrong_of))]
pub fn wrong(code: Code) -> &'static str
    ensures { result.now ≡ wrong_of code }
{
    match code {
        Code::S1 => "fewer bytes are left than the 32 of a segment's header",
        Code::S2 => "a segment begins with HLS1 (48 4c 53 31), and these bytes do not",
        Code::S3 => "the segment's version is neither 1 nor 2",
        Code::S4 => "the segment's version allows no such number of processors",
        Code::S5 => "the segment's processor isn't below their number",
        Code::S6 | Code::F4 => "the header's reserved field isn't 0",
        Code::S7 => "no segment has the number 0xffffffff",
        Code::S8 => "a segment has at most 4096 records",
        Code::S9 => "the segment's version allows no such length of a segment",
        Code::S10 => "the file ends before its last segment does",
        Code::S11 => "is cut by the end of the segment's length",
        Code::S12 => "has sequence 0, or one not above that of the record before",
        Code::S13 => "is of no kind of the segment's version",
        Code::S14 => "has more frames than its version allows, or than fit in",
        Code::S15 => "has a reserved field, handle, object or tag that its kind doesn't allow",
        Code::S16 => "bytes are left in the segment after its last record",
        Code::S17 | Code::H3 | Code::F16 | Code::C6 | Code::Y7 => "the system refused memory",
        Code::H1 => "is no digit and no blank",
        Code::H2 => "the last byte has only one digit",
        Code::F1 => "fewer bytes are left than the 40 of a state's header and end",
        Code::F2 => "a state begins with HLA1 (48 4c 41 31), and these bytes do not",
        Code::F3 => "the state's version isn't 1",
        Code::F5 => "a state has 1 to 256 processors",
        Code::F6 => "the length at the state's end isn't that of its bytes",
        Code::F7 => "the checksum at the state's end isn't that of its bytes",
        Code::F8 => "fewer bytes are left than the rows of a list take",
        Code::F9 => "a stack is cut or too deep, or isn't above that before it",
        Code::F10 => "fewer bytes are left than the 20 at the front of a part",
        Code::F11 => {
            "\
a count is cut, of no stack or slot, 0 on both sides, or not above that before it"
        }
        Code::F12 => {
            "\
a latest event is cut, breaks a rule of its fields, is of no stack, or not above that before it"
        }
        Code::F13 => "a mark or an exit is cut, has sequence 0, or isn't above that before it",
        Code::F14 => {
            "\
a held segment has a fault, is of another trace or processor, or not above the front or that before \
it"
        }
        Code::F15 => "bytes are left after the state's last part",
        Code::F17 => "counts more than its segments can have",
        Code::C1 => "the inputs have no segments",
        Code::C2 => "is of another trace than those before it",
        Code::C3 => "has another number of processors than those before it",
        Code::C4 => "is there with two different contents",
        Code::C5 => "stands in two different segments",
        Code::C7 => "has a sequence that isn't above those of the processor's earlier segments",
        Code::C8 => "is missing",
        Code::C9 => {
            "\
has no event in these inputs, or none up to --until, or no event that counts is above --since"
        }
        Code::C10 => {
            "\
ends within a segment's header, or within a segment of another trace, so it isn't known which \
segment is missing"
        }
        Code::Y1 => "the first line isn't start,end,module,name",
        Code::Y2 => "hasn't four fields",
        Code::Y3 => "has a start or an end that is no number",
        Code::Y4 => "ends at or below its start",
        Code::Y5 => "has an address of an earlier row",
        Code::Y6 => "can't be read",
        Code::E1 => {
            "\
the line has none of the forms of the text, or the line's <field> isn't there, or has no value \
that fits"
        }
        Code::E2 =>
            "the line is an event or a frame before any segment, or a frame before any event",
    }
}

/// What is wrong with a line of text, with its field where the fault is about one. The words on E1
/// are those on either fault.
pub fn form_wrong(fault: FormFault) -> &'static str
    ensures { result.now ≡ form_wrong_of fault }
{
    match fault {
        FormFault::Words => "the line has none of the forms of the text",
        FormFault::Field(_) => BAD_VALUE,
    }
}

/// What to do.
#[tactic(auto, unfolding(crate::specs::Words::advice_of))]
pub fn advice(code: Code) -> &'static str
    ensures { result.now ≡ advice_of code }
{
    match code {
        Code::S1 => "is it a trace, and copied whole? With --partial its whole segments count",
        Code::S2 => {
            "\
is it a trace in bytes, and not digits (--hex), text (hleak encode) or a log (tools/from-htrace)?"
        }
        Code::S3 => "was it written for a newer hleak?",
        Code::F2 => "did fold or save write it? Segments are no state",
        Code::F3 => "was it saved by a newer hleak?",
        Code::S4
        | Code::S5
        | Code::S6
        | Code::S7
        | Code::S8
        | Code::S9
        | Code::S11
        | Code::S12
        | Code::S13
        | Code::S14
        | Code::S15
        | Code::S16 => DAMAGED,
        Code::F4
        | Code::F5
        | Code::F7
        | Code::F8
        | Code::F9
        | Code::F10
        | Code::F11
        | Code::F12
        | Code::F13
        | Code::F14
        | Code::F15
        | Code::F17 => DAMAGED,
        Code::S10 => "was it copied whole? With --partial its whole segments count",
        Code::H2 | Code::F1 | Code::F6 => "was it copied whole?",
        Code::S17 | Code::H3 | Code::F16 | Code::C6 | Code::Y7 => FREE_MEMORY,
        Code::H1 => "is it a trace in bytes (without --hex), or a text (hleak encode)?",
        Code::C1 => "are these the files of a trace?",
        Code::C2 | Code::C3 => ONE_TRACE,
        Code::C4 => "give the files of one trace, as they were written",
        Code::C5 | Code::C7 => MIXED,
        Code::C8 => {
            "\
give all files of the trace. Without --complete, summary lists the gaps and --until complete answers \
what is final"
        }
        Code::C9 => {
            "\
is each number right, and --until late enough? A mistyped number looks like one without a leak"
        }
        Code::C10 => "copy it whole, or leave out --complete",
        Code::Y1 => "is it a table of symbols?",
        Code::Y2 => "is a name with a comma in quotes, and is each quote ended?",
        Code::Y3 => "each is 1 to 16 hexadecimal digits, with or without 0x",
        Code::Y4 => "an end is the first address after the range",
        Code::Y5 => "are all rows of one moment?",
        Code::Y6 => "is the file in UTF-8?",
        Code::E1 => {
            "\
is it written as dump prints it? Segments go to dump, and a log through tools/from-htrace first"
        }
        Code::E2 => "is a line left out before it?",
    }
}
