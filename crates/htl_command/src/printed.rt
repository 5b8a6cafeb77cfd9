//! Faults as the program prints them.
ghost use Rattle.std.specs.Prelude.{◌≡◌, ◌∷◌, [], Contains, find, map};
ghost use Rattle.std.specs.Str.{bytes_eq};
ghost use Rattle.htl_command.specs.Printed.{AreInside, AreTwo, IsPrinted, behind_colon, field_names};
ghost use Rattle.htl_command.specs.Printed.{form_of};
ghost use Rattle.htl_command.specs.Steps.{AreFault, Finds, after_blank};

use crate::code::Code;
use crate::values::sequence;

/// A fault as the program prints it: its code, and what follows the code in parentheses.
#[derive(Clone, Copy, Debug, PartialEq, Eq)]
pub struct PrintedFault {
    pub code: Code,
    pub parts: Parts,
}

/// What follows the code of a fault, and says where it was found.
#[derive(Clone, Copy, Debug, PartialEq, Eq)]
pub enum Parts {
    /// The code stands alone.
    Nothing,
    /// A record, byte, processor, segment, sequence, input or row, as in `S12(1)`.
    Number(u64),
    /// A processor and the number of a segment, as in `C8(0, 2)`.
    Numbers(u64, u64),
    /// A field of a line of text, as in `E1(process)`.
    Field(&'static str),
}

/// What may follow a code in parentheses.
#[derive(Clone, Copy)]
pub(crate) enum Form {
    Nothing,
    Number,
    Numbers,
    Field,
}

/// The fields of the lines of a text.
const FIELDS: [&str; 12] = [
    "version",
    "trace",
    "processors",
    "processor",
    "number",
    "handle",
    "object",
    "tag",
    "seq",
    "process",
    "thread",
    "frame",
];

impl Form {
    /// What may follow this code.
    fn of(code: Code) -> Form
        ensures { result ≡ form_of code }
    {
        match code {
            Code::S11 | Code::S12 | Code::S13 | Code::S14 | Code::S15 => Form::Number,
            Code::H1 | Code::F17 | Code::C2 | Code::C3 | Code::C5 | Code::C10 => Form::Number,
            Code::Y2 | Code::Y3 | Code::Y4 | Code::Y5 | Code::Y6 => Form::Number,
            Code::C4 | Code::C7 | Code::C8 => Form::Numbers,
            Code::E1 => Form::Field,
            _ => Form::Nothing,
        }
    }
}

impl PrintedFault {
    /// The fault that is printed as this text or at the end of this line, with its code in either case,
    /// and with or without the blank between two numbers. Blanks may stand round it, and behind the
    /// code.
    pub(crate) fn from_text(text: &str) -> Option<PrintedFault>
        ensures { Finds (IsPrinted text.now) result }
    {
        let fault = behind_colon(text).trim();
        match fault.split_once('(') {
            None => PrintedFault::alone(fault),
            Some((name, tail)) => PrintedFault::with_parts(name, tail),
        }
    }

    fn alone(name: &str) -> Option<PrintedFault>
        ensures { Finds (AreFault name.now []) result }
    {
        let code = Code::from_name(name)?;
        Some(PrintedFault {
            code,
            parts: Parts::Nothing,
        })
    }

    /// The fault of a name and what follows its opening parenthesis.
    fn with_parts(name: &str, tail: &str) -> Option<PrintedFault>
        ensures { Finds (AreFault name.now (40 ∷ tail.now)) result }
    {
        let code = Code::from_name(name)?;
        let inner = tail.strip_suffix(')')?;
        let parts = parts_of(Form::of(code), inner)?;
        Some(PrintedFault { code, parts })
    }
}

/// What stands behind the last colon, or the whole text where there is none.
fn behind_colon(text: &str) -> &str
    ensures { result.now ≡ behind_colon text.entry.now }
{
    match text.rsplit_once(':') {
        Some((_, behind)) => behind,
        None => text,
    }
}

/// What stands in parentheses after a code of this form.
fn parts_of(form: Form, inner: &str) -> Option<Parts>
    ensures { Finds (λ parts. AreInside form parts inner.now) result }
{
    match form {
        Form::Nothing => None,
        Form::Number => Some(Parts::Number(sequence(inner)?)),
        Form::Numbers => {
            let (first, second) = two(inner)?;
            Some(Parts::Numbers(first, second))
        }
        Form::Field => Some(Parts::Field(field(inner)?)),
    }
}

fn two(inner: &str) -> Option<(u64, u64)>
    ensures { Finds (λ p. AreTwo p.0 p.1 inner.now) result }
{
    let (first, second) = inner.split_once(',')?;
    Some((sequence(first)?, sequence(after_blank(second))?))
}

/// The text without a blank at its start.
fn after_blank(text: &str) -> &str
    ensures { result.now ≡ after_blank text.entry.now }
{
    match text.strip_prefix(' ') {
        Some(rest) => rest,
        None => text,
    }
}

fn field(inner: &str) -> Option<&'static str>
    ensures { Finds (λ name. (name.now ≡ inner.now) × Contains field_names inner.now) result }
{
    known(&FIELDS, inner)
}

fn known(names: &[&'static str], inner: &str) -> Option<&'static str>
    ensures { Finds (λ name. (name.now ≡ inner.now)
        × Contains (map (λ name. name.now) names.now) inner.now) result }
{
    name_among(names, inner)
}

fn name_among(names: &[&'static str], inner: &str) -> Option<&'static str>
    ensures { result ≡ find (λ name. bytes_eq name.now inner.now) names.now }
{
    names.iter().copied().find(|name| *name == inner)
}
