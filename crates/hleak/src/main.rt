//! The program: answers one question over trace segments in files or from standard input, or over
//! saved states and files, or many over these, prints segments as text or makes them of text, folds
//! them into a state, or explains a code.
//!
//! What its arguments ask for is done by `htl_program`, for any world. Here is the world of the
//! machine (`machine.rt`): the files of its disk (`disk.rt`), which are opened once they are read
//! (`file.rt`, `input.rt`), also by several workers (`input_source.rt`), and replaced as a whole
//! (`replacing.rt`). And here is the person who
//! reads standard error (`terminal.rt`), also beside the replies of a dialogue (`listener.rt`).
//! `voice.rt` writes there, and `terminals.rt` says whether it is a terminal.
//!
//! Where standard error is a terminal, a person reads more: `progress.rt` shows how much was read,
//! `lacking.rt` says what a question lacks in the segments, `note.rt` that segments are missing, and
//! `explaining.rt` says a fault in words, with the reason that the system gives (`reason.rt`). All of
//! this but the progress is written elsewhere too, where notes are asked for. `shown.rt` keeps control
//! characters of names from the terminal.
#![tactic(auto)]

ghost use Rattle.std.specs.Prelude.{◌≡◌, ⊤, IfErr, IfOk, drop};
ghost use Rattle.htl_command.specs.Refusals.{IsUsageWith};
ghost use Rattle.hleak.specs.Arguments.{AreArguments};

mod disk;
mod explaining;
mod file;
mod input;
mod input_source;
mod lacking;
mod listener;
mod machine;
mod note;
mod progress;
mod reason;
mod replacing;
mod shown;
mod terminal;
mod terminals;
mod voice;

use htl_command::ParseFault;
use htl_main::Writing;
use htl_program::{Console, Inputs, program, refuse};
use listener::Listener;
use machine::Machine;
use progress::Progress;
use reason::LastRefusal;
use std::alloc::{AllocError, Global};
use std::process::ExitCode;
use std::{env, io};
use terminal::Terminal;
use terminals::Terminals;
use voice::Voice;

fn main(rt: HostRuntime) -> ExitCode {
    let terminals = Terminals::ask(rt);
    let progress = if terminals.errors {
        Progress::begin(rt).ok()
    } else {
        None
    };
    let progress = progress.as_ref();
    let refusal = LastRefusal::new();
    let voice = Voice {
        rt,
        progress,
        refusal: &refusal,
    };
    let mut world = Machine {
        disk: rt,
        voice,
        is_typed: terminals.input,
    };
    let mut console = Console {
        out: Writing::new(io::writer(&rt)),
        person: Terminal { voice, terminals },
    };
    let status = match arguments(&rt, terminals.input) {
        Ok(arguments) => program(
            &rt,
            rt.alloc(),
            &mut world,
            arguments,
            &mut Inputs::new(rt.alloc()),
            &mut console,
            &mut Listener::new(voice, terminals.has_typist()),
        ),
        Err(fault) => refuse(&fault, &mut console),
    };
    ExitCode::from(status)
}

/// The arguments after the program's name, or the one for the short help where there is none and
/// standard input is a terminal.
fn arguments(rt: &HostRuntime, is_typed: bool) -> Result<Vec<String>, ParseFault>
    ensures { IfErr result (IsUsageWith ⊤) }
{
    match env::args(rt) {
        Ok(words) => {
            let given = behind_name(words.collect(rt.alloc())?);
            Ok(or_help(rt.alloc(), given, is_typed)?)
        }
        Err(error) if error.kind() == io::ErrorKind::InvalidData => {
            Err(ParseFault::no_text(rt.alloc()))
        }
        Err(_) => Err(ParseFault::Memory),
    }
}

/// The words behind the first, which is the program's name.
fn behind_name(mut words: Vec<String>) -> Vec<String>
    ensures { result.items ≡ drop 1 words.items }
{
    if !words.is_empty() {
        words.remove(0);
    }
    words
}

/// The arguments, or the one for the short help where there is none and standard input is a terminal:
/// the stored run would wait for digits that are typed.
fn or_help(alloc: Global, mut given: Vec<String>, is_typed: bool) -> Result<Vec<String>, AllocError>
    ensures { IfOk result (λ arguments. AreArguments is_typed given.items arguments.items) }
{
    if given.is_empty() && is_typed {
        given.push(String::from_str(alloc, "-h")?)?;
    }
    Ok(given)
}
