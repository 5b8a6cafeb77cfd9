//! What the program does: from its arguments, through the command that they give, to its status.

ghost use Rattle.std.specs.Prelude.{◌≡◌, false, map, string_bytes};
ghost use Rattle.htl_program.specs.Opened.{reach};
ghost use Rattle.htl_program.specs.Programs.{Obeys, spoken, told};

use crate::console::Console;
use crate::inputs::Inputs;
use crate::output::Output;
use crate::performing::{do_answer, do_converse, do_dump, do_encode, do_fold};
use crate::printing::{do_explain, refuse};
use crate::saying::Person;
use htl_ask::{Files, Speaker};
use htl_command::{Command, parse};
use htl_world::World;
use std::alloc::Global;
use std::thread::Threads;

/// Does what the arguments ask for, and says with which status the program ends.
pub fn program<Rt: Threads + Sync, W: World, O: Output, P: Person, S: Speaker>(
    rt: &Rt,
    alloc: Global,
    world: &mut W,
    arguments: Vec<String>,
    inputs: &mut Inputs<W::Input>,
    console: &mut Console<O, P>,
    speaker: &mut S,
) -> u8
    requires { (O.state console.old.out).failed ≡ false }
    ensures { Obeys (P.sees_output console.old.person) (P.is_watching console.old.person)
        (spoken S.told S.noted S.left S.counts speaker.old speaker.new)
        (reach W.Input.state (W.state world.old) (W.state world.new) inputs.old inputs.new)
        (told O.state O.has_lost_reader P.heard console.old)
        (told O.state O.has_lost_reader P.heard console.new)
        (map string_bytes arguments.items) result }
{
    let line = match parse(alloc, arguments) {
        Ok(line) => line,
        Err(fault) => return refuse(&fault, console),
    };
    match &line.command {
        Command::Question(run) => do_answer(rt, alloc, world, &line, run, inputs, console),
        Command::Explain(fault) => do_explain(alloc, *fault, console),
        Command::Dump { form, files } => {
            do_dump(alloc, world, &line, *form, files, inputs, console)
        }
        Command::Encode { hex, files } => {
            do_encode(alloc, world, &line, *hex, files, inputs, console)
        }
        Command::Fold { setting, files } => {
            do_fold(rt, alloc, world, &line, *setting, files, inputs, console)
        }
        Command::Ask(dialogue) => {
            let files = Files { rt, dialogue };
            do_converse(alloc, world, &files, &line, inputs, console, speaker)
        }
    }
}
