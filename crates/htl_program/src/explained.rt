//! The text that `hleak explain` prints of a fault.
//!
//! `words.rt` says what each code means, `named_part.rt` which part of the inputs a fault names, and
//! `subject.rt` what a question is about.

mod named_part;
mod subject;
mod words;

ghost use Rattle.std.specs.Prelude.{◌≡◌};
ghost use Rattle.htl_program.specs.Words.{wrong_in};

use crate::explained::words::BAD_VALUE;
use htl_command::{Code, Parts, PrintedFault};
pub use named_part::NamedPart;
use std::fmt;
pub use subject::SubjectText;
pub use words::{FREE_MEMORY, GIVE_MISSING, advice, form_wrong, wrong};

/// A fault in words: one line with the fault and what is wrong, and one with what to do.
#[derive(Clone, Copy)]
pub struct Explained {
    pub fault: PrintedFault,
}

impl fmt::Display for Explained {
    ghost use Rattle.std.specs.Prelude.{Some};
    ghost use Rattle.htl_program.specs.Words.{explained};

    ghost output = { λ of. Some (explained of.fault) };

    #[tactic(auto, unfolding(crate::specs::Words::explained))]
    fn fmt<W: fmt::Write>(&self, f: &mut fmt::Formatter<W>) -> fmt::Result {
        let fault = self.fault;
        let (printed, wrong, advice) = (Printed { fault }, wrong_in(fault), advice(fault.code));
        match NamedPart::of(fault) {
            Some(part) => write!(f, "{printed}: {part} {wrong}\n{advice}\n"),
            None => write!(f, "{printed}: {wrong}\n{advice}\n"),
        }
    }
}

/// What is wrong, said of the part that the fault names, or else as a whole sentence.
fn wrong_in(fault: PrintedFault) -> &'static str
    ensures { result.now ≡ wrong_in fault.code fault.parts }
{
    match (fault.code, fault.parts) {
        (Code::E1, Parts::Field(_)) => BAD_VALUE,
        _ => wrong(fault.code),
    }
}

/// A fault as its line has it: its code, and what follows it in parentheses.
#[derive(Clone, Copy)]
struct Printed {
    fault: PrintedFault,
}

impl fmt::Display for Printed {
    ghost use Rattle.std.specs.Prelude.{Some};
    ghost use Rattle.htl_program.specs.Words.{printed_text};

    ghost output = { λ printed. Some (printed_text printed.fault) };

    fn fmt<W: fmt::Write>(&self, f: &mut fmt::Formatter<W>) -> fmt::Result {
        let code = self.fault.code.as_str();
        match self.fault.parts {
            Parts::Nothing => write!(f, "{code}"),
            Parts::Number(number) => write!(f, "{code}({number})"),
            Parts::Numbers(first, second) => write!(f, "{code}({first}, {second})"),
            Parts::Field(name) => write!(f, "{code}({name})"),
        }
    }
}
