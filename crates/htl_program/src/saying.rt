//! What is said to a person of how a run ended.
//!
//! `person.rt` is who reads it, `message.rt` what there is to tell, with `lack.rt` of what a question
//! lacks, and `manner.rt` how it is told.

mod lack;
mod manner;
mod message;
mod person;

ghost use Rattle.std.specs.Prelude.{◌≡◌, ◌&&◌, is_some};
ghost use Rattle.htl_program.specs.Programs.{SaysAnswer, SaysConversion, SaysDialogue, SaysDump};
ghost use Rattle.htl_program.specs.Programs.{SaysFault, SaysFolding, is_stop_unsaid, is_unsaid};
ghost use Rattle.htl_program.specs.Messages.{HearsAll, alone as alone_of, cut_said, fault_said};
ghost use Rattle.htl_program.specs.Messages.{gaps_said, inputs_said, lack_said, notes_said};
ghost use Rattle.htl_program.specs.Messages.{stop_said, unnamed_said};

use htl_ask::AskFault;
use htl_command::{Command, Job, Moment, Run};
use htl_dialogue::{Conversed, DialogueFault};
use htl_main::{Added, Between, Completed, Coverage, CutInputs, Refused, RunFault};
pub use lack::Lack;
pub(crate) use manner::{Audience, Manner};
pub use message::Message;
pub use person::Person;

/// Says how the run of a question ended.
pub(crate) fn say_answer<P: Person>(
    command: &Command,
    run: &Run,
    manner: Manner,
    ended: Result<Completed, Refused>,
    person: &mut P,
)
    ensures { SaysAnswer manner.is_quiet manner.in_words command.now run.now ended
        (P.heard person.old) (P.heard person.new) }
{
    match ended {
        Ok(completed) => note(command, run, manner.in_words, completed, person),
        Err(refused) => report(command, manner, refused, person),
    }
}

/// Gives the notes on an answer, if they are wanted: what the question lacks, that the table of
/// symbols has none of the addresses, that missing segments may have events that count, and which
/// inputs were cut.
fn note<P: Person>(
    command: &Command,
    run: &Run,
    in_words: bool,
    completed: Completed,
    person: &mut P,
)
    ensures { HearsAll (P.heard person.old) (P.heard person.new)
        (notes_said in_words command.now run.now completed) }
{
    if !in_words {
        return;
    }
    note_lack(&run.job, completed, person);
    note_names(misses_names(run, completed), person);
    let (coverage, until, cut) = (completed.coverage, run.job.until, completed.cut);
    note_inputs(command, coverage, until, cut, person);
}

/// Says what the job's question lacks, if anything.
fn note_lack<P: Person>(job: &Job, completed: Completed, person: &mut P)
    ensures { HearsAll (P.heard person.old) (P.heard person.new) (lack_said job.now completed) }
{
    if let Some(lack) = Lack::of(job, completed.absence, completed.remarks) {
        person.hears(Message::Lack(lack));
    }
}

/// Whether a table of symbols was given that has none of the addresses which are shown.
fn misses_names(run: &Run, completed: Completed) -> bool
    ensures { result ≡ (is_some run.now.symbols && completed.remarks.is_unnamed) }
{
    run.symbols.is_some() && completed.remarks.is_unnamed
}

/// Says that the table of symbols has none of the addresses, if that is so.
fn note_names<P: Person>(is_unnamed: bool, person: &mut P)
    ensures { HearsAll (P.heard person.old) (P.heard person.new) (unnamed_said is_unnamed) }
{
    if is_unnamed {
        person.hears(Message::Unnamed);
    }
}

/// Says that segments of the inputs are missing, if they may have events that count, and which inputs
/// end within a segment.
fn note_inputs<P: Person>(
    command: &Command,
    coverage: Coverage,
    until: Option<Moment>,
    cut: Option<CutInputs>,
    person: &mut P,
)
    ensures { HearsAll (P.heard person.old) (P.heard person.new)
        (inputs_said command.now coverage until cut) }
{
    note_gaps(command, coverage, until, person);
    note_cut(command, cut, person);
}

/// Says that segments are missing, if they may have events that count.
fn note_gaps<P: Person>(
    command: &Command,
    coverage: Coverage,
    until: Option<Moment>,
    person: &mut P,
)
    ensures { HearsAll (P.heard person.old) (P.heard person.new)
        (gaps_said command.now coverage until) }
{
    if coverage.is_touched(until) {
        person.hears(Message::Gaps(command, coverage));
    }
}

/// Says which inputs end within a segment, where some do.
fn note_cut<P: Person>(command: &Command, cut: Option<CutInputs>, person: &mut P)
    ensures { HearsAll (P.heard person.old) (P.heard person.new) (cut_said command.now cut) }
{
    if let Some(inputs) = cut {
        person.hears(Message::Cut(command, inputs));
    }
}

/// Says how the printing of segments ended: where words are wanted, which inputs end within one.
pub(crate) fn say_dump<P: Person>(
    command: &Command,
    manner: Manner,
    ended: Result<Option<CutInputs>, RunFault>,
    person: &mut P,
)
    ensures { SaysDump manner.is_quiet manner.in_words command.now ended
        (P.heard person.old) (P.heard person.new) }
{
    match ended {
        Ok(cut) if manner.in_words => note_cut(command, cut, person),
        Ok(_) => {}
        Err(fault) => report(command, manner, alone(fault), person),
    }
}

/// Reports why segments could not be made, if they could not.
pub(crate) fn say_encoding<P: Person>(
    command: &Command,
    manner: Manner,
    ended: Result<(), RunFault>,
    person: &mut P,
)
    ensures { SaysConversion manner.is_quiet manner.in_words command.now ended
        (P.heard person.old) (P.heard person.new) }
{
    if let Err(fault) = ended {
        report(command, manner, alone(fault), person);
    }
}

/// Says how the folding of segments ended: where words are wanted, that some are missing and which
/// inputs end within one.
pub(crate) fn say_folding<P: Person>(
    command: &Command,
    manner: Manner,
    ended: Result<Added, Refused>,
    person: &mut P,
)
    ensures { SaysFolding manner.is_quiet manner.in_words command.now ended
        (P.heard person.old) (P.heard person.new) }
{
    match ended {
        Ok(added) if manner.in_words => {
            note_inputs(command, added.coverage, None, added.cut, person);
        }
        Ok(_) => {}
        Err(refused) => report(command, manner, refused, person),
    }
}

/// Says which fault ended the run of the command, and what it means where words are wanted. A failed
/// write goes unsaid where that is quiet.
pub(crate) fn report<P: Person>(command: &Command, manner: Manner, refused: Refused, person: &mut P)
    ensures { SaysFault manner.is_quiet manner.in_words command.now refused
        (P.heard person.old) (P.heard person.new) }
{
    if !is_unsaid(manner.is_quiet, refused.fault) {
        say_fault(command, manner.in_words, refused, person);
    }
}

/// Whether the fault goes unsaid, as a failed write does where that is quiet.
fn is_unsaid(is_quiet: bool, fault: RunFault) -> bool
    ensures { result ≡ is_unsaid is_quiet fault }
{
    match fault {
        RunFault::Write => is_quiet,
        _ => false,
    }
}

/// Says the line of the fault, and what it means where words are wanted.
fn say_fault<P: Person>(command: &Command, in_words: bool, refused: Refused, person: &mut P)
    ensures { HearsAll (P.heard person.old) (P.heard person.new)
        (fault_said in_words command.now refused) }
{
    person.hears(Message::Fault(refused));
    if in_words {
        person.hears(Message::Meaning(command, refused));
    }
}

/// A refusal by this fault, which names no two segments.
pub(crate) fn alone(fault: RunFault) -> Refused
    ensures { result ≡ alone_of fault }
{
    Refused {
        fault,
        between: Between::Nothing,
    }
}

/// Reports why a dialogue ended early, if it did.
pub(crate) fn say_dialogue<P: Person>(
    command: &Command,
    manner: Manner,
    ended: Result<Conversed, AskFault>,
    person: &mut P,
)
    ensures { SaysDialogue manner.is_quiet manner.in_words command.now ended
        (P.heard person.old) (P.heard person.new) }
{
    match ended {
        Ok(_) => {}
        Err(AskFault::Run(refused)) => report(command, manner, refused, person),
        Err(AskFault::Dialogue(fault)) => {
            if !is_stop_unsaid(manner.is_quiet, fault) {
                say_stop(manner.in_words, fault, person);
            }
        }
    }
}

/// The same of what stopped the replies of a dialogue.
fn is_stop_unsaid(is_quiet: bool, stopped: DialogueFault) -> bool
    ensures { result ≡ is_stop_unsaid is_quiet stopped }
{
    match stopped {
        DialogueFault::Write => is_quiet,
        _ => false,
    }
}

/// Says why the replies stopped, and what that means where words are wanted.
fn say_stop<P: Person>(in_words: bool, stopped: DialogueFault, person: &mut P)
    ensures { HearsAll (P.heard person.old) (P.heard person.new) (stop_said in_words stopped) }
{
    person.hears(Message::Stop(stopped));
    if in_words {
        person.hears(Message::StopMeaning(stopped));
    }
}
