//! Texts that the program prints: help, and what a fault means.

ghost use Rattle.std.specs.Prelude.{◌≡◌, false};
ghost use Rattle.htl_program.specs.Programs.{Explains, IsPrinted, Refuses, told};
ghost use Rattle.htl_program.specs.Words.{explained};

use crate::console::Console;
use crate::explained::Explained;
use crate::output::Output;
use crate::saying::{Message, Person, alone};
use htl_command::{ParseFault, PrintedFault};
use htl_device::write_whole;
use htl_main::RunFault;
use std::alloc::Global;

/// Ends the program if the arguments give no command. Help is written to the output; any other
/// fault is reported to the person, and keeps its status even if that fails.
pub fn refuse<O: Output, P: Person>(refused: &ParseFault, console: &mut Console<O, P>) -> u8
    requires { (O.state console.old.out).failed ≡ false }
    ensures { Refuses (P.is_watching console.old.person)
        (told O.state O.has_lost_reader P.heard console.old)
        (told O.state O.has_lost_reader P.heard console.new) refused.now result }
{
    match refused {
        ParseFault::Help(text) => print(text, console),
        ParseFault::Usage(_) | ParseFault::Memory => {
            console.person.hears(Message::Refusal(refused));
            refused.status()
        }
    }
}

/// Prints what the fault means.
pub(crate) fn do_explain<O: Output, P: Person>(
    alloc: Global,
    fault: PrintedFault,
    console: &mut Console<O, P>,
) -> u8
    requires { (O.state console.old.out).failed ≡ false }
    ensures { Explains (P.is_watching console.old.person)
        (told O.state O.has_lost_reader P.heard console.old)
        (told O.state O.has_lost_reader P.heard console.new) (explained fault) result }
{
    let explained = Explained { fault };
    match format!(in alloc; "{explained}") {
        Ok(text) => print(&text, console),
        Err(_) => {
            console
                .person
                .hears(Message::Fault(alone(RunFault::Memory)));
            RunFault::Memory.status()
        }
    }
}

/// Writes a text that was asked for, and reports a failed write, unless a person watches and the
/// output's reader has gone.
fn print<O: Output, P: Person>(text: &str, console: &mut Console<O, P>) -> u8
    requires { (O.state console.old.out).failed ≡ false }
    ensures { IsPrinted (P.is_watching console.old.person) text.now
        (told O.state O.has_lost_reader P.heard console.old)
        (told O.state O.has_lost_reader P.heard console.new) result }
{
    match write_whole(&mut console.out, text.as_bytes()) {
        Ok(()) => 0,
        Err(_) => {
            if !console.is_quiet(console.person.is_watching()) {
                console.person.hears(Message::Unwritten);
            }
            RunFault::Write.status()
        }
    }
}
