//! What a question is about, as a person reads it.

use htl_event::base;
use htl_question::Subject;
use htl_report::shown_byte;
use std::fmt;

/// What a question is about, in words. A handle is shown without its low two bits.
#[derive(Clone, Copy)]
pub struct SubjectText {
    pub subject: Subject,
}

impl fmt::Display for SubjectText {
    ghost use Rattle.std.specs.Prelude.{Some};
    ghost use Rattle.htl_program.specs.AskedAbout.{subject_text};

    ghost output = { λ shown. Some (subject_text shown.subject) };

    #[tactic(auto, using(htl_lemmas::proofs::Padding::padded_to))]
    fn fmt<W: fmt::Write>(&self, f: &mut fmt::Formatter<W>) -> fmt::Result {
        match self.subject {
            Subject::Process(process) => write!(f, "process {process}"),
            Subject::Object(object) => write!(f, "object 0x{object:016x}"),
            Subject::Tag { object, tag } => {
                let tag = ShownTag { tag };
                write!(f, "tag {tag} of object 0x{object:016x}")
            }
            Subject::TagOfAll(tag) => {
                let tag = ShownTag { tag };
                write!(f, "tag {tag}")
            }
            Subject::Handle { process, handle } => {
                let base = base(handle);
                write!(f, "handle 0x{base:x} of process {process}")
            }
        }
    }
}

/// A tag as it is shown.
#[derive(Clone, Copy)]
struct ShownTag {
    tag: [u8; 4],
}

impl fmt::Display for ShownTag {
    ghost use Rattle.std.specs.Prelude.{Some};
    ghost use Rattle.htl_report.specs.Parts.{shown_tag};

    ghost output = { λ shown. Some (shown_tag shown.tag) };

    fn fmt<W: fmt::Write>(&self, f: &mut fmt::Formatter<W>) -> fmt::Result {
        let [first, second, third, fourth] = self.tag;
        let (first, second) = (shown_byte(first), shown_byte(second));
        let (third, fourth) = (shown_byte(third), shown_byte(fourth));
        write!(f, "{first}{second}{third}{fourth}")
    }
}
