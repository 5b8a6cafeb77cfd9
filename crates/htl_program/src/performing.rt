//! Runs of commands over inputs, as a person meets them: that one begins, that it ended and how, and its
//! status.

ghost use Rattle.std.specs.Prelude.{◌≡◌, ◌≢◌, ◌&&◌, ◌||◌, [], false, not};
ghost use Rattle.htl_command.specs.Needs.{needs_events};
ghost use Rattle.htl_program.specs.Opened.{reach};
ghost use Rattle.htl_program.specs.Programs.{DoesAnswer, DoesConverse, DoesDump, DoesEncode};
ghost use Rattle.htl_program.specs.Programs.{DoesFold, OrRefuses, spoken, told};

use crate::answering::answer_question;
use crate::console::Console;
use crate::converting::{dump, encode, fold};
use crate::ending::{status_after, status_of_answer, status_of_conversion, status_of_fold};
use crate::inputs::Inputs;
use crate::output::Output;
use crate::printing::refuse;
use crate::saying::{Person, say_answer, say_dialogue, say_dump, say_encoding, say_folding};
use htl_ask::{Files, Speaker, converse};
use htl_command::{CommandLine, InputForm, ParseFault, Run, Setting};
use htl_device::Source;
use htl_world::World;
use std::alloc::Global;
use std::thread::Threads;

/// Answers the question.
pub(crate) fn do_answer<Rt: Threads + Sync, W: World, O: Output, P: Person>(
    rt: &Rt,
    alloc: Global,
    world: &mut W,
    line: &CommandLine,
    run: &Run,
    inputs: &mut Inputs<W::Input>,
    console: &mut Console<O, P>,
) -> u8
    requires asked { run.now.states.items ≢ [] → needs_events run.now.job ≡ false }
    requires out { (O.state console.old.out).failed ≡ false }
    ensures { DoesAnswer (P.is_watching console.old.person)
        (P.is_watching console.old.person || line.now.notes)
        (reach W.Input.state (W.state world.old) (W.state world.new) inputs.old inputs.new)
        (told O.state O.has_lost_reader P.heard console.old)
        (told O.state O.has_lost_reader P.heard console.new)
        line.now.command run.now result }
{
    let audience = console.begin(line);
    let ended = answer_question(rt, alloc, world, run, &mut inputs.files, &mut console.out);
    let manner = console.end(audience);
    say_answer(&line.command, run, manner, ended, &mut console.person);
    status_of_answer(run.job.exit_code, ended)
}

/// Prints segments as text.
pub(crate) fn do_dump<W: World, O: Output, P: Person>(
    alloc: Global,
    world: &mut W,
    line: &CommandLine,
    form: InputForm,
    files: &[String],
    inputs: &mut Inputs<W::Input>,
    console: &mut Console<O, P>,
) -> u8
    requires { (O.state console.old.out).failed ≡ false }
    ensures { DoesDump (P.is_watching console.old.person)
        (P.is_watching console.old.person || line.now.notes)
        (reach W.Input.state (W.state world.old) (W.state world.new) inputs.old inputs.new)
        (told O.state O.has_lost_reader P.heard console.old)
        (told O.state O.has_lost_reader P.heard console.new)
        line.now.command form files.now result }
{
    let audience = console.begin(line);
    let ended = dump(
        alloc,
        world,
        form,
        files,
        &mut inputs.files,
        &mut console.out,
    );
    let manner = console.end(audience);
    say_dump(&line.command, manner, ended, &mut console.person);
    status_of_conversion(ended)
}

/// Encodes texts as segments. It refuses to write their bytes to a terminal.
pub(crate) fn do_encode<W: World, O: Output, P: Person>(
    alloc: Global,
    world: &mut W,
    line: &CommandLine,
    hex: bool,
    files: &[String],
    inputs: &mut Inputs<W::Input>,
    console: &mut Console<O, P>,
) -> u8
    requires { (O.state console.old.out).failed ≡ false }
    ensures { let of = reach W.Input.state (W.state world.old) (W.state world.new) inputs.old
        inputs.new in
        let before = told O.state O.has_lost_reader P.heard console.old in
        let after = told O.state O.has_lost_reader P.heard console.new in
        OrRefuses (not hex && P.sees_output console.old.person) (P.is_watching console.old.person)
        of before after (DoesEncode (P.is_watching console.old.person)
        (P.is_watching console.old.person || line.now.notes) of before after line.now.command hex
        files.now) result }
{
    if !hex && console.person.sees_output() {
        return refuse(&ParseFault::bytes_at_terminal(alloc), console);
    }
    let audience = console.begin(line);
    let ended = encode(
        alloc,
        world,
        hex,
        files,
        &mut inputs.files,
        &mut console.out,
    );
    let manner = console.end(audience);
    say_encoding(&line.command, manner, ended, &mut console.person);
    status_of_conversion(ended)
}

/// Folds segments and writes their state. It refuses to write its bytes to a terminal.
pub(crate) fn do_fold<Rt: Threads + Sync, W: World, O: Output, P: Person>(
    rt: &Rt,
    alloc: Global,
    world: &mut W,
    line: &CommandLine,
    setting: Setting,
    files: &[String],
    inputs: &mut Inputs<W::Input>,
    console: &mut Console<O, P>,
) -> u8
    requires { (O.state console.old.out).failed ≡ false }
    ensures { let of = reach W.Input.state (W.state world.old) (W.state world.new) inputs.old
        inputs.new in
        let before = told O.state O.has_lost_reader P.heard console.old in
        let after = told O.state O.has_lost_reader P.heard console.new in
        OrRefuses (P.sees_output console.old.person) (P.is_watching console.old.person) of before
        after (DoesFold (P.is_watching console.old.person)
        (P.is_watching console.old.person || line.now.notes) of before after line.now.command
        setting files.now) result }
{
    if console.person.sees_output() {
        return refuse(&ParseFault::state_at_terminal(alloc), console);
    }
    let audience = console.begin(line);
    let ended = fold(
        rt,
        alloc,
        world,
        setting,
        files,
        &mut inputs.files,
        &mut console.out,
    );
    let manner = console.end(audience);
    say_folding(&line.command, manner, ended, &mut console.person);
    status_of_fold(ended)
}

/// Replies to the lines of standard input.
pub(crate) fn do_converse<Rt: Threads + Sync, W: World, O: Output, P: Person, S: Speaker>(
    alloc: Global,
    world: &mut W,
    files: &Files<Rt>,
    line: &CommandLine,
    inputs: &mut Inputs<W::Input>,
    console: &mut Console<O, P>,
    speaker: &mut S,
) -> u8
    requires { (O.state console.old.out).failed ≡ false }
    ensures { DoesConverse (P.is_watching console.old.person)
        (P.is_watching console.old.person || line.now.notes)
        (spoken S.told S.noted S.left S.counts speaker.old speaker.new)
        (reach W.Input.state (W.state world.old) (W.state world.new) inputs.old inputs.new)
        (told O.state O.has_lost_reader P.heard console.old)
        (told O.state O.has_lost_reader P.heard console.new)
        line.now.command files.now.dialogue.now result }
{
    let audience = console.begin(line);
    speaker.takes_notes(audience.wants_words);
    let mut questions = world.questions();
    let ended = converse(
        alloc,
        world,
        files,
        &mut inputs.files,
        &mut questions,
        &mut console.out,
        speaker,
    );
    speaker.leaves(questions.ended());
    inputs.questions = Some(questions);
    let manner = console.end(audience);
    say_dialogue(&line.command, manner, ended, &mut console.person);
    status_after(speaker.counts_wrong(), ended)
}
