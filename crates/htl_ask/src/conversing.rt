//! A dialogue in a world: states and files are read once, and each line of standard input gets its
//! reply.

ghost use Rattle.std.specs.Prelude.{◌≡◌, All, IfErr, OnOk, false, map, option_copied};
ghost use Rattle.std.specs.Prelude.{string_bytes};
ghost use Rattle.htl_device.specs.States.{AreOpen, IfKnown, IsOpen};
ghost use Rattle.htl_inputs.specs.Readings.{AskForReaders};
ghost use Rattle.htl_main.specs.Origins.{by_fault};
ghost use Rattle.htl_world.specs.Rounds.{Asks};
ghost use Rattle.htl_world.specs.Worlds.{WorldChange, change};
ghost use Rattle.htl_ask.specs.Asking.{IsSavedState, KnownStates, ReportsDevices};
ghost use Rattle.htl_ask.specs.Asking.{before_dialogue};
ghost use Rattle.htl_ask.specs.Beginnings.{IsBeginsBetween, ReadsBehind, forgets};
ghost use Rattle.htl_ask.specs.Outcomes.{EndsConversing, IsConversed, talk};
ghost use Rattle.htl_ask.specs.LineRounds.{AsksLater, ReadsStates};
ghost use Rattle.htl_ask.specs.Loads.{IsPartOf, RestoresBefore};

use crate::ask_fault::AskFault;
use crate::dialogue::converse_lines;
use crate::files::Files;
use crate::kept::{Begun, begin};
use crate::restoring::restored;
use htl_command::Dialogue;
use htl_device::{Sink, Source};
use htl_dialogue::{Conversed, Note, Opening, Speaker};
use htl_main::{Between, Folded, Refused};
use htl_world::{World, as_bytes, open_named};
use std::alloc::Global;
use std::thread::Threads;

/// Opens the named files and the table of symbols, reads and merges the saved states in their order,
/// and then replies to each line of the questions. The first file that can't be opened is reported,
/// or else the table, or else the first state that is refused, before a question is read. Nothing of
/// a file is read before all states are merged.
///
/// Afterwards `inputs` has what was opened, as far as it was read.
pub fn converse<Rt: Threads + Sync, W: World, Q: Source, O: Sink, S: Speaker>(
    alloc: Global,
    world: &mut W,
    files: &Files<Rt>,
    inputs: &mut Vec<W::Input>,
    questions: &mut Q,
    out: &mut O,
    speaker: &mut S,
) -> Result<Conversed, AskFault>
    requires questions { IsOpen (Q.state questions.old) }
    requires out { (O.state out.old).failed ≡ false }
    ensures conversed { IsConversed (change (W.state world.old) (W.state world.new))
        (map W.Input.state inputs.new.items) files.now.dialogue.now
        (talk (Q.state questions.old) (Q.state questions.new) (O.state out.old) (O.state out.new)
        S.told (S.wants_notes speaker.old) speaker.old speaker.new) result }
    ensures untouched { IfErr (before_dialogue result)
        (λ _. (questions.new ≡ questions.old) × (out.new ≡ out.old)
        × (speaker.new ≡ speaker.old)) }
{
    let of = files.dialogue;
    match open_named(alloc, world, &of.files, of.symbols.as_ref(), inputs) {
        Ok(table) => {
            let symbols = as_bytes(&table);
            ask_opened(
                alloc, world, files, inputs, symbols, questions, out, speaker,
            )
        }
        Err(fault) => Err(AskFault::Run(Refused {
            fault,
            between: Between::Nothing,
        })),
    }
}

/// Reads the states and the opened inputs, and replies to the lines.
fn ask_opened<Rt: Threads + Sync, W: World, Q: Source, O: Sink, S: Speaker>(
    alloc: Global,
    world: &mut W,
    files: &Files<Rt>,
    inputs: &mut Vec<W::Input>,
    symbols: Option<&[u8]>,
    questions: &mut Q,
    out: &mut O,
    speaker: &mut S,
) -> Result<Conversed, AskFault>
    requires ready { AreOpen (map W.Input.state inputs.old.items) }
    requires questions { IsOpen (Q.state questions.old) }
    requires out { (O.state out.old).failed ≡ false }
    ensures outcome { (whole : WorldChange)
        → IsPartOf (change (W.state world.old) (W.state world.new)) whole
        → IfKnown (map W.Input.state inputs.old.items) (λ texts.
        (states : KnownStates (W.state world.old).known.holds) → EndsConversing
        (W.state world.old).known states whole (map W.Input.state inputs.new.items)
        files.now.dialogue.now
        (talk (Q.state questions.old) (Q.state questions.new) (O.state out.old) (O.state out.new)
        S.told (S.wants_notes speaker.old) speaker.old speaker.new)
        texts (option_copied symbols.entry) result) }
    ensures devices { ReportsDevices (Q.state questions.old).remaining (Q.state questions.new)
        (O.state out.new).failed result }
    ensures between { IfKnown (map W.Input.state inputs.old.items) (λ texts.
        IfErr (before_dialogue result) (λ refused. IsBeginsBetween
        (forgets files.now.dialogue.now) files.now.dialogue.now.setting texts refused.fault
        refused.between)) }
    ensures states { OnOk (before_dialogue result) (All (IsSavedState (W.state world.old).known)
        (map string_bytes files.now.dialogue.now.states.items)) }
    ensures reading { (states : KnownStates (W.state world.old).known.holds) → ReadsBehind
        (W.state world.old).known states files.now.dialogue.now.setting.form.hex
        (map string_bytes files.now.dialogue.now.states.items)
        (map W.Input.state inputs.old.items) (map W.Input.state inputs.new.items)
        (by_fault (before_dialogue result)) }
    ensures readers { AskForReaders files.now.dialogue.now.setting.form.hex
        files.now.dialogue.now.setting.workers (map W.Input.state inputs.old.items)
        (map W.Input.state inputs.new.items) }
    ensures asked { Asks (change (W.state world.old) (W.state world.new)) (ReadsStates
        (map string_bytes files.now.dialogue.now.states.items) (by_fault (before_dialogue result))
        (AsksLater (forgets files.now.dialogue.now) (Q.state questions.old).remaining
        (before_dialogue result))) }
    ensures untouched { IfErr (before_dialogue result)
        (λ _. (questions.new ≡ questions.old) × (out.new ≡ out.old)
        × (speaker.new ≡ speaker.old)) }
{
    let before = folded_before(alloc, world, files.dialogue)?;
    let Begun {
        mut kept,
        coverage,
        cut,
    } = begin(
        files.rt,
        alloc,
        before,
        files.dialogue.setting,
        inputs,
        symbols,
    )?;
    let opening = Opening {
        coverage,
        cut,
        forgets: kept.forgets(),
    };
    speaker.hears(Note::Begins(&files.dialogue.files, opening));
    let conversed = converse_lines(
        alloc,
        world,
        files,
        &mut kept,
        symbols.is_some(),
        questions,
        out,
        speaker,
    )?;
    Ok(conversed)
}

/// What is folded of the states that a dialogue begins with, if it folds what is read.
fn folded_before<W: World>(
    alloc: Global,
    world: &mut W,
    dialogue: &Dialogue,
) -> Result<Option<Folded>, Refused>
    ensures { RestoresBefore (change (W.state world.old) (W.state world.new)) dialogue.now result }
{
    if !forgets(dialogue) {
        return Ok(None);
    }
    let folded = restored(alloc, world, dialogue.setting, &dialogue.states)?;
    Ok(Some(folded))
}

/// Whether what a dialogue reads is folded and forgotten.
fn forgets(dialogue: &Dialogue) -> bool
    ensures { result ≡ forgets dialogue.now }
{
    dialogue.folds || !dialogue.states.is_empty()
}
