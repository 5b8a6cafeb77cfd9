//! A dialogue over what is kept: each line gets its reply, and what it names is read too, or written.

ghost use Rattle.std.specs.Prelude.{◌≡◌, ◌⊎◌, ℕ, List, Err, Some, false, true};
ghost use Rattle.std.specs.Prelude.{IfErr, IfOk, OnOk, string_bytes};
ghost use Rattle.std.specs.Io.KnownBytes.{Appends};
ghost use Rattle.htl_device.specs.Devices.{AppendsPrefix};
ghost use Rattle.htl_device.specs.States.{IsOpen};
ghost use Rattle.htl_command.specs.Needs.{needs_events};
ghost use Rattle.htl_dialogue.specs.Dialogues.{Converses, DialogueStops, Gets, is_end};
ghost use Rattle.htl_dialogue.specs.Dialogues.{reading_reply, using_reply};
ghost use Rattle.htl_dialogue.specs.Replying.{IsRefusedReply, Replies, Tells, fault_of};
ghost use Rattle.htl_dialogue.specs.Notes.{told_of};
ghost use Rattle.htl_dialogue.specs.Sayings.{saying};
ghost use Rattle.htl_main.specs.Printed.{WorkersFit};
ghost use Rattle.htl_world.specs.Rounds.{Asks};
ghost use Rattle.htl_world.specs.Worlds.{Known, WorldChange, change};
ghost use Rattle.htl_ask.specs.Asking.{AreEndless};
ghost use Rattle.htl_ask.specs.Loads.{HasAbsenceIn, IsOfForm, IsPartOf, answers_from, is_memory};
ghost use Rattle.htl_ask.specs.Loads.{is_state};
ghost use Rattle.htl_ask.specs.LineRounds.{DialogueAsks, LineAsks};

use crate::files::Files;
use crate::kept::Kept;
use crate::states::{reply_to_merge, reply_to_save};
use htl_command::Job;
use htl_device::{MAX_READS, Sink, Source, write_whole};
use htl_dialogue::{
    Conversed, DialogueFault, Note, ReadAhead, Said, Speaker, next_line, read_line,
};
use htl_main::{Added, AnswerText, Refused, Remarks, RunFault};
use htl_world::World;
use std::alloc::{AllocError, Global};
use std::thread::Threads;

/// Replies to each line of the source up to `quit` or its end, and returns how that went. A line
/// may name files to read, or a saved state to merge: later lines are answered from these too. Or it
/// names a file in which the state is saved. Or it says which process is used: later questions about
/// a process that name none are about this one. The speaker hears that a line is awaited, and before
/// the reply why the line is wrong, what its files or its state added, or why its question isn't
/// answered or the state isn't saved; after the reply to a question, what is told of that and of its
/// answer.
/// `has_table` says whether addresses are named by a table of symbols.
///
/// All lines that were read have their replies before more is read, and nothing is read once a line
/// ends the dialogue.
pub(crate) fn converse_lines<Rt: Threads + Sync, W: World, Q: Source, O: Sink, S: Speaker>(
    alloc: Global,
    world: &mut W,
    files: &Files<Rt>,
    kept: &mut Kept,
    has_table: bool,
    questions: &mut Q,
    out: &mut O,
    speaker: &mut S,
) -> Result<Conversed, DialogueFault>
    requires workers { WorkersFit files.now.dialogue.now.setting.workers }
    requires questions { IsOpen (Q.state questions.old) }
    requires out { (O.state out.old).failed ≡ false }
    // Each line gets its reply, and the speaker the notes on it.
    ensures ok { (whole : WorldChange)
        → IsPartOf (change (W.state world.old) (W.state world.new)) whole
        → (text : List ℕ) → (Q.state questions.old).remaining ≡ Some text → IfOk result
        (Converses (answers_from (W.state world.old).known whole
        files.now.dialogue.now.setting (is_state kept.old) has_table) (S.wants_notes speaker.old)
        kept.old text (Gets (O.state out.old).contents (O.state out.new).contents S.told speaker.old
        speaker.new)) }
    // After a fault, the lines before it have their replies; if a read failed, these are all that
    // were read.
    ensures stops { (whole : WorldChange)
        → IsPartOf (change (W.state world.old) (W.state world.new)) whole
        → (text : List ℕ) → (Q.state questions.old).remaining ≡ Some text → IfErr result
        (DialogueStops (answers_from (W.state world.old).known whole
        files.now.dialogue.now.setting (is_state kept.old) has_table) (S.wants_notes speaker.old)
        kept.old text (Q.state questions.new).remaining (Q.state questions.new).failed
        (Gets (O.state out.old).contents (O.state out.new).contents S.told speaker.old speaker.new)) }
    ensures fine { OnOk result (((Q.state questions.new).failed ≡ false)
        × ((O.state out.new).failed ≡ false)) }
    // What failed is reported, and nothing else is reported as failed.
    ensures read { (Q.state questions.new).failed ≡ true → result ≡ Err DialogueFault.Questions }
    ensures questions { result ≡ Err DialogueFault.Questions
        → ((Q.state questions.new).failed ≡ true)
        ⊎ AreEndless (Q.state questions.old).remaining (Q.state questions.new) }
    ensures write { (O.state out.new).failed ≡ true → result ≡ Err DialogueFault.Write }
    ensures failed { result ≡ Err DialogueFault.Write → (O.state out.new).failed ≡ true }
    ensures asked { Asks (change (W.state world.old) (W.state world.new))
        (DialogueAsks (is_state kept.old) (Q.state questions.old).remaining) }
{
    let mut held = ReadAhead::new(alloc)?;
    let mut conversed = Conversed::fine();
    let mut process = None;
    for _line in 0..MAX_READS {
        speaker.hears(Note::Awaits);
        let next = next_line(alloc, questions, &mut held)?;
        let said = read_line(alloc, &next.line, process, kept.forgets())?;
        if ends(&said) {
            return Ok(conversed);
        }
        let line = reply(alloc, world, files, kept, has_table, &said, out, speaker)?;
        conversed = conversed.then(line);
        process = said.used(process);
        if next.is_last {
            return Ok(conversed);
        }
    }
    Err(DialogueFault::Questions)
}

/// Whether what a line says ends the dialogue.
fn ends(said: &Said) -> bool
    ensures { result ≡ is_end (saying said.now) }
{
    matches!(said, Said::Quits)
}

/// Writes the reply to a line, and tells the speaker of it.
fn reply<Rt: Threads + Sync, W: World, O: Sink, S: Speaker>(
    alloc: Global,
    world: &mut W,
    files: &Files<Rt>,
    kept: &mut Kept,
    has_table: bool,
    said: &Said,
    out: &mut O,
    speaker: &mut S,
) -> Result<Conversed, DialogueFault>
    requires workers { WorkersFit files.now.dialogue.now.setting.workers }
    requires out { (O.state out.old).failed ≡ false }
    requires asks { IsOfForm (is_state kept.old) said.now }
    ensures ok { (whole : WorldChange)
        → IsPartOf (change (W.state world.old) (W.state world.new)) whole
        → IfOk result (Replies (answers_from (W.state world.old).known whole
        files.now.dialogue.now.setting (is_state kept.old) has_table) (S.wants_notes speaker.old)
        said.now kept.old kept.new (O.state out.old).contents (O.state out.new).contents S.told
        speaker.old speaker.new) }
    ensures fine { OnOk result ((O.state out.new).failed ≡ false) }
    ensures err { (whole : WorldChange)
        → IsPartOf (change (W.state world.old) (W.state world.new)) whole
        → IfErr result (IsRefusedReply (answers_from (W.state world.old).known whole
        files.now.dialogue.now.setting (is_state kept.old) has_table) said.now kept.old
        (O.state out.old).contents (O.state out.new).contents (O.state out.new).failed S.told
        speaker.old speaker.new) }
    ensures same { S.wants_notes speaker.new ≡ S.wants_notes speaker.old }
    ensures form { OnOk result (is_state kept.new ≡ is_state kept.old) }
    ensures asked { Asks (change (W.state world.old) (W.state world.new))
        (LineAsks (saying said.now)) }
{
    match said {
        Said::Nothing | Said::Quits => Ok(Conversed::fine()),
        Said::Wrong(fault) => {
            speaker.hears(Note::Refuses(fault));
            write(out, b"\n")?;
            Ok(Conversed {
                has_wrong: true,
                first_fault: None,
            })
        }
        Said::Asks(job) => reply_to(alloc, files, kept, has_table, job, out, speaker),
        Said::Reads(names) => {
            let ended = files.read(alloc, world, kept, names)?;
            let text = reading_reply(alloc, ended)?;
            speaker.hears(Note::Reads(names, ended));
            write(out, text.as_bytes())?;
            Ok(Conversed {
                has_wrong: false,
                first_fault: fault_of(ended),
            })
        }
        Said::Uses(process) => {
            let text = using_reply(alloc, *process)?;
            write(out, text.as_bytes())?;
            Ok(Conversed::fine())
        }
        Said::Merges(name) => reply_to_merge(alloc, world, files, kept, name, out, speaker),
        Said::Saves(name) => reply_to_save(alloc, world, files, kept, name, out, speaker),
    }
}

/// Writes the reply to a question, and tells the speaker why it isn't answered, or of its answer.
fn reply_to<Rt: Threads + Sync, O: Sink, S: Speaker>(
    alloc: Global,
    files: &Files<Rt>,
    kept: &Kept,
    has_table: bool,
    job: &Job,
    out: &mut O,
    speaker: &mut S,
) -> Result<Conversed, DialogueFault>
    requires workers { WorkersFit files.now.dialogue.now.setting.workers }
    requires out { (O.state out.old).failed ≡ false }
    requires asks { is_state kept.now ≡ true → needs_events job.now ≡ false }
    ensures ok { (world : Known) (whole : WorldChange) → IfOk result (Replies (answers_from world whole
        files.now.dialogue.now.setting (is_state kept.now) has_table) (S.wants_notes speaker.old)
        (Said.Asks job.now) kept.now kept.now (O.state out.old).contents (O.state out.new).contents
        S.told speaker.old speaker.new) }
    ensures fine { OnOk result ((O.state out.new).failed ≡ false) }
    ensures err { (world : Known) (whole : WorldChange)
        → IfErr result (IsRefusedReply (answers_from world whole
        files.now.dialogue.now.setting (is_state kept.now) has_table) (Said.Asks job.now) kept.now
        (O.state out.old).contents (O.state out.new).contents (O.state out.new).failed S.told
        speaker.old speaker.new) }
    ensures same { S.wants_notes speaker.new ≡ S.wants_notes speaker.old }
{
    match kept.answer(files.rt, alloc, files.dialogue.setting, job) {
        Ok(AnswerText { mut lines, remarks }) => {
            lines.push(b'\n')?;
            write(out, &lines)?;
            tell(kept, has_table, job, remarks, speaker);
            Ok(Conversed::fine())
        }
        Err(fault) => {
            if is_memory(fault) {
                return Err(DialogueFault::NoMemory);
            }
            speaker.hears(Note::Declines(fault));
            write(out, b"\n")?;
            Ok(Conversed {
                has_wrong: false,
                first_fault: Some(fault),
            })
        }
    }
}

/// Whether memory was refused.
fn is_memory(fault: RunFault) -> bool
    ensures { result ≡ is_memory fault }
{
    matches!(fault, RunFault::Memory)
}

/// The reply to a line that names files to read.
fn reading_reply(alloc: Global, ended: Result<Added, Refused>) -> Result<String, AllocError>
    ensures { IfOk result (λ text. string_bytes text ≡ reading_reply ended) }
{
    match ended {
        Ok(added) => format!(in alloc; "{added}\n\n"),
        Err(_) => String::from_str(alloc, "\n"),
    }
}

/// The reply to a line that uses a process, or none.
fn using_reply(alloc: Global, process: Option<u32>) -> Result<String, AllocError>
    ensures { IfOk result (λ text. string_bytes text ≡ using_reply process) }
{
    match process {
        Some(process) => format!(in alloc; "using process={process}\n\n"),
        None => String::from_str(alloc, "using process=none\n\n"),
    }
}

/// The fault that refused the files or the state, if they were refused.
pub(crate) fn fault_of(ended: Result<Added, Refused>) -> Option<RunFault>
    ensures { result ≡ fault_of ended }
{
    match ended {
        Ok(_) => None,
        Err(refused) => Some(refused.fault),
    }
}

/// Tells a speaker who wants to know it why nothing can be found of what the job's question is
/// about, and what is told of its answer.
fn tell<S: Speaker>(kept: &Kept, has_table: bool, job: &Job, remarks: Remarks, speaker: &mut S)
    ensures told { Tells has_table (HasAbsenceIn kept.now) remarks (S.wants_notes speaker.old)
        S.told speaker.old job.now speaker.new }
    ensures same { S.wants_notes speaker.new ≡ S.wants_notes speaker.old }
{
    if speaker.wants_notes() {
        let absence = kept.absence(job);
        speaker.hears(Note::Answered(job, absence, told_of(has_table, remarks)));
    }
}

/// What is told of an answer, whose addresses may have no name where there is no table of symbols.
fn told_of(has_table: bool, remarks: Remarks) -> Remarks
    ensures { result ≡ told_of has_table remarks }
{
    Remarks {
        is_unnamed: has_table && remarks.is_unnamed,
        ..remarks
    }
}

/// Writes a whole reply, or some first part of it where the sink fails.
pub(crate) fn write<O: Sink>(out: &mut O, reply: &[u8]) -> Result<(), DialogueFault>
    requires { (O.state out.old).failed ≡ false }
    ensures ok { OnOk result
        (Appends (O.state out.old).contents (O.state out.new).contents reply.now) }
    ensures fine { OnOk result ((O.state out.new).failed ≡ false) }
    ensures err { IfErr result (λ fault. (fault ≡ DialogueFault.Write)
        × ((O.state out.new).failed ≡ true)
        × AppendsPrefix (O.state out.old).contents (O.state out.new).contents reply.now) }
{
    match write_whole(out, reply) {
        Ok(()) => Ok(()),
        Err(_) => Err(DialogueFault::Write),
    }
}
