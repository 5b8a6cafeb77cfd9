//! Saved states that lines of a dialogue name: they are merged or saved, and the lines get replies.

ghost use Rattle.std.specs.Prelude.{◌≡◌, Bool, IfErr, IfOk, OnOk, false, string_bytes, true};
ghost use Rattle.htl_dialogue.specs.Dialogues.{merging_reply, saving_reply};
ghost use Rattle.htl_dialogue.specs.Notes.{after_notes, first_fault, unsaved_note};
ghost use Rattle.htl_dialogue.specs.Replying.{IsRefusedReply, Replies};
ghost use Rattle.htl_dialogue.specs.declared.saying.Said.TheVariants as said;
ghost use Rattle.htl_main.specs.Folding.{IsHalfKnown};
ghost use Rattle.htl_world.specs.Rounds.{Asks};
ghost use Rattle.htl_world.specs.Worlds.{Known, WorldChange, change};
ghost use Rattle.htl_ask.specs.Loads.{IsPartOf, MergesFile, MergesFolded, WritesFile};
ghost use Rattle.htl_ask.specs.Loads.{answers_from, is_state};
ghost use Rattle.htl_ask.specs.LineRounds.{ReadsFor, ReadsOne, WritesOne};

use crate::dialogue::{fault_of, write};
use crate::files::Files;
use crate::kept::Kept;
use htl_case::CaseFault;
use htl_command::Setting;
use htl_device::Sink;
use htl_dialogue::{Conversed, DialogueFault, Merged, Note, Speaker};
use htl_event::NoMemory;
use htl_main::{Added, Between, Folded, Refused, RunFault, merge_state, state_bytes};
use htl_world::{OpenFault, World};
use std::alloc::{AllocError, Global};
use std::slice;
use std::thread::Threads;

/// Merges the state of a name, writes the reply, and tells the speaker of it.
pub(crate) fn reply_to_merge<Rt: Threads + Sync, W: World, O: Sink, S: Speaker>(
    alloc: Global,
    world: &mut W,
    files: &Files<Rt>,
    kept: &mut Kept,
    name: &String,
    out: &mut O,
    speaker: &mut S,
) -> Result<Conversed, DialogueFault>
    requires out { (O.state out.old).failed ≡ false }
    requires form { is_state kept.old ≡ true }
    ensures ok { (whole : WorldChange) (has_table : Bool)
        → IfOk result (Replies (answers_from (W.state world.old).known whole
        files.now.dialogue.now.setting (is_state kept.old) has_table) (S.wants_notes speaker.old)
        (said.Merges name.now) kept.old kept.new (O.state out.old).contents
        (O.state out.new).contents S.told speaker.old speaker.new) }
    ensures fine { OnOk result ((O.state out.new).failed ≡ false) }
    ensures err { (whole : WorldChange) (has_table : Bool)
        → IfErr result (IsRefusedReply (answers_from (W.state world.old).known whole
        files.now.dialogue.now.setting (is_state kept.old) has_table)
        (said.Merges name.now) kept.old (O.state out.old).contents (O.state out.new).contents
        (O.state out.new).failed S.told speaker.old speaker.new) }
    ensures same { S.wants_notes speaker.new ≡ S.wants_notes speaker.old }
    ensures form { OnOk result (is_state kept.new ≡ is_state kept.old) }
    ensures asked { Asks (change (W.state world.old) (W.state world.new))
        (ReadsOne (string_bytes name.now)) }
{
    let ended = files.merge(alloc, world, kept, name)?;
    let text = merging_reply(alloc, ended)?;
    speaker.hears(Note::Reads(slice::from_ref(name), ended));
    write(out, text.as_bytes())?;
    Ok(Conversed {
        has_wrong: false,
        first_fault: fault_of(ended),
    })
}

/// Saves what was folded under a name, writes the reply, and tells the speaker why it isn't saved.
pub(crate) fn reply_to_save<Rt: Threads + Sync, W: World, O: Sink, S: Speaker>(
    alloc: Global,
    world: &mut W,
    files: &Files<Rt>,
    kept: &Kept,
    name: &String,
    out: &mut O,
    speaker: &mut S,
) -> Result<Conversed, DialogueFault>
    requires out { (O.state out.old).failed ≡ false }
    requires form { is_state kept.now ≡ true }
    ensures ok { (known : Known) (whole : WorldChange) (has_table : Bool)
        → IsPartOf (change (W.state world.old) (W.state world.new)) whole
        → IfOk result (Replies (answers_from known whole
        files.now.dialogue.now.setting (is_state kept.now) has_table) (S.wants_notes speaker.old)
        (said.Saves name.now) kept.now kept.now (O.state out.old).contents
        (O.state out.new).contents S.told speaker.old speaker.new) }
    ensures fine { OnOk result ((O.state out.new).failed ≡ false) }
    ensures err { (known : Known) (whole : WorldChange) (has_table : Bool)
        → IsPartOf (change (W.state world.old) (W.state world.new)) whole
        → IfErr result (IsRefusedReply (answers_from known whole
        files.now.dialogue.now.setting (is_state kept.now) has_table) (said.Saves name.now)
        kept.now (O.state out.old).contents (O.state out.new).contents (O.state out.new).failed
        S.told speaker.old speaker.new) }
    ensures same { S.wants_notes speaker.new ≡ S.wants_notes speaker.old }
    ensures asked { Asks (change (W.state world.old) (W.state world.new))
        (WritesOne (string_bytes name.now)) }
{
    let ended = files.save(alloc, world, kept, name)?;
    let text = saving_reply(alloc, ended)?;
    let first_fault = tell_unsaved(ended, speaker);
    write(out, text.as_bytes())?;
    Ok(Conversed {
        has_wrong: false,
        first_fault,
    })
}

/// The reply to a line that merges a state.
fn merging_reply(alloc: Global, ended: Result<Added, Refused>) -> Result<String, AllocError>
    ensures { IfOk result (λ text. string_bytes text ≡ merging_reply ended) }
{
    match ended {
        Ok(added) => format!(in alloc; "{}\n\n", Merged { added }),
        Err(_) => String::from_str(alloc, "\n"),
    }
}

/// The reply to a line that saves what was folded.
fn saving_reply(alloc: Global, ended: Result<u64, RunFault>) -> Result<String, AllocError>
    ensures { IfOk result (λ text. string_bytes text ≡ saving_reply ended) }
{
    match ended {
        Ok(bytes) => format!(in alloc; "saved bytes={bytes}\n\n"),
        Err(_) => String::from_str(alloc, "\n"),
    }
}

/// Tells the speaker why a state isn't saved, if it isn't, and returns why.
fn tell_unsaved<S: Speaker>(ended: Result<u64, RunFault>, speaker: &mut S) -> Option<RunFault>
    ensures told { speaker.new ≡ after_notes S.told speaker.old (unsaved_note ended) }
    ensures same { S.wants_notes speaker.new ≡ S.wants_notes speaker.old }
    ensures fault { result ≡ first_fault (unsaved_note ended) }
{
    match ended {
        Ok(_) => None,
        Err(fault) => {
            speaker.hears(Note::Declines(fault));
            Some(fault)
        }
    }
}

impl<Rt: Threads + Sync> Files<'_, Rt> {
    /// Merges the state of a name into what was folded. A state that is refused changes nothing. If
    /// memory is refused, it isn't known what was merged. Then the dialogue ends.
    fn merge<W: World>(
        &self,
        alloc: Global,
        world: &mut W,
        kept: &mut Kept,
        name: &str,
    ) -> Result<Result<Added, Refused>, NoMemory>
        requires { is_state kept.old ≡ true }
        ensures merged { IfOk result (MergesFile (W.state world.old).known
            self.now.dialogue.now.setting kept.old name.now kept.new) }
        ensures asked { Asks (change (W.state world.old) (W.state world.new)) (ReadsOne name.now) }
    {
        let Kept::State(folded) = kept else {
            unreachable!()
        };
        match merge_named(alloc, world, self.dialogue.setting, folded, name) {
            Ok(added) => Ok(Ok(added)),
            Err(RunFault::Memory) => Err(NoMemory),
            Err(fault) => Ok(Err(half_known(fault))),
        }
    }

    /// Saves the state of what was folded under a name, and returns how many bytes it has.
    fn save<W: World>(
        &self,
        alloc: Global,
        world: &mut W,
        kept: &Kept,
        name: &str,
    ) -> Result<Result<u64, RunFault>, NoMemory>
        requires { is_state kept.now ≡ true }
        ensures saved { IfOk result (WritesFile (change (W.state world.old) (W.state world.new))
            kept.now name.now) }
        ensures asked { Asks (change (W.state world.old) (W.state world.new)) (WritesOne name.now) }
    {
        let Kept::State(folded) = kept else {
            unreachable!()
        };
        let bytes = match state_bytes(alloc, folded) {
            Ok(bytes) => bytes,
            Err(RunFault::Memory) => return Err(NoMemory),
            Err(fault) => return Ok(Err(fault)),
        };
        match world.write(name, &bytes) {
            Ok(()) => Ok(Ok(bytes.len() as u64)),
            Err(OpenFault::Refused) => Ok(Err(RunFault::StateWrite)),
            Err(OpenFault::NoMemory) => Err(NoMemory),
        }
    }
}

/// Reads the state of a name and merges it into what was folded.
pub(crate) fn merge_named<W: World>(
    alloc: Global,
    world: &mut W,
    setting: Setting,
    folded: &mut Folded,
    name: &str,
) -> Result<Added, RunFault>
    ensures merged { MergesFolded (W.state world.old).known setting folded.old name.now folded.new
        result }
    ensures asked { Asks (change (W.state world.old) (W.state world.new))
        (ReadsFor name.now result) }
{
    match world.read(name) {
        Ok(bytes) => merge_state(alloc, setting, folded, &bytes),
        Err(OpenFault::Refused) => Err(RunFault::StateRead { state: 0 }),
        Err(OpenFault::NoMemory) => Err(RunFault::Memory),
    }
}

/// A fault of a state. Where it is about two segments, these are forgotten.
pub(crate) fn half_known(fault: RunFault) -> Refused
    ensures fault { result.fault ≡ fault }
    ensures between { IsHalfKnown result.fault result.between }
{
    let between = match fault {
        RunFault::Case(CaseFault::Empty | CaseFault::NoMemory) => Between::Nothing,
        RunFault::Case(_) => Between::Unknown,
        _ => Between::Nothing,
    };
    Refused { fault, between }
}
