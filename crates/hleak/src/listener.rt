//! What is read on standard error beside the replies of a dialogue.

ghost use Rattle.std.specs.Prelude.{◌≡◌, ◌||◌, false, not};
ghost use Rattle.hleak.specs.Heard.{gaps_read, is_refusal};

use crate::explaining::Task;
use crate::lacking::Lacking;
use crate::note::InputsNote;
use crate::voice::Voice;
use htl_ask::{Note, Opening, Speaker};
use htl_command::{Job, ParseFault};
use htl_main::{Absence, Added, Between, Coverage, CutInputs, Refused, Remarks, RunFault};
use htl_program::Lack;

/// Whoever reads standard error while a dialogue goes on.
#[derive(Drop)]
pub struct Listener<'p> {
    voice: Voice<'p>,
    /// Whether notes are wanted.
    wants_notes: bool,
    /// Whether the lines are typed at a terminal.
    is_typed: bool,
    /// Whether a line was refused. A line that asks for help doesn't count.
    has_refused: bool,
    /// Whether the symbols had none of the addresses of an answer, which is said once.
    has_missed_names: bool,
    /// Whether events are forgotten once they are read.
    forgets: bool,
    /// How many gaps there are in what was read. The first one is told.
    gaps: u64,
}

impl<'p> Listener<'p> {
    /// A listener who has heard nothing. Lines are typed at a terminal, or not.
    pub fn new(voice: Voice<'p>, is_typed: bool) -> Listener<'p>
        ensures wants { result.wants_notes ≡ false }
        ensures typed { result.is_typed ≡ is_typed }
        ensures refused { result.has_refused ≡ false }
        ensures names { result.has_missed_names ≡ false }
        ensures keeps { result.forgets ≡ false }
        ensures gaps { result.gaps ≡ 0 }
    {
        Listener {
            voice,
            wants_notes: false,
            is_typed,
            has_refused: false,
            has_missed_names: false,
            forgets: false,
            gaps: 0,
        }
    }

    /// Says that a line is awaited, where it is typed.
    fn prompt(&self) {
        if self.is_typed {
            let _ = eprint!(self.voice.rt; "hleak> ");
        }
    }

    /// Says where segments are missing, where notes are wanted, and which inputs are cut. It is kept in
    /// mind whether events are forgotten.
    fn begin(&mut self, files: &[String], opening: Opening)
        ensures { self.new ≡ record self.old {
          forgets = opening.forgets;
          gaps = opening.coverage.gaps;
        } }
    {
        self.forgets = opening.forgets;
        self.note_gaps(opening.coverage);
        self.note_cut(Task::Convert(files), opening.cut);
    }

    /// Says that segments are missing, where notes are wanted and none was missing before. The number
    /// of gaps is kept in mind.
    fn note_gaps(&mut self, coverage: Coverage)
        ensures { self.new ≡ record self.old { gaps = coverage.gaps } }
    {
        let note = InputsNote::on_gaps(self.gaps, coverage, self.forgets);
        if let (Some(note), true) = (note, self.wants_notes) {
            self.voice.say(note);
        }
        self.gaps = coverage.gaps;
    }

    /// Says which inputs end within a segment, where notes are wanted and some do.
    fn note_cut(&self, task: Task, inputs: Option<CutInputs>) {
        if let (Some(inputs), true) = (inputs, self.wants_notes) {
            self.voice.note_cut(task, inputs);
        }
    }

    /// Says that there is a gap since files were read, and which of them are cut; or why they are
    /// refused.
    fn end_reading(&mut self, files: &[String], ended: Result<Added, Refused>)
        ensures { self.new ≡ record self.old { gaps = gaps_read self.old.gaps ended } }
    {
        match ended {
            Ok(added) => {
                let forgets = self.forgets;
                self.note_gaps(added.coverage);
                self.note_cut(Task::Read { files, forgets }, added.cut);
            }
            Err(refused) => self.report(files, refused),
        }
    }

    /// Says why a question isn't answered.
    fn decline(&self, fault: RunFault) {
        let refused = Refused {
            fault,
            between: Between::Nothing,
        };
        self.report(&[], refused);
    }

    /// Says why files are refused, and what that means where notes are wanted. The line that shows
    /// how much was read goes away before.
    fn report(&self, files: &[String], refused: Refused) {
        if let Some(progress) = self.voice.progress {
            progress.stop();
        }
        self.voice.say(refused);
        if self.wants_notes {
            let forgets = self.forgets;
            self.voice.explain(Task::Read { files, forgets }, refused);
        }
    }

    /// Says why a line is wrong. It is kept in mind that one was refused, unless it asked for help.
    fn refuse(&mut self, fault: &ParseFault)
        ensures { self.new ≡ record self.old {
          has_refused = self.old.has_refused || is_refusal fault.now;
        } }
    {
        self.has_refused |= is_refusal(fault);
        self.voice.refuse(fault);
    }

    /// Says what a question lacks that was answered, and that the symbols have none of the addresses
    /// of its answer, which is kept in mind.
    fn note_answer(&mut self, job: &Job, absence: Option<Absence>, remarks: Remarks)
        ensures { self.new ≡ record self.old {
          has_missed_names = self.old.has_missed_names || remarks.is_unnamed;
        } }
    {
        if let Some(lack) = Lack::of(job, absence, remarks) {
            self.voice.say(Lacking { lack });
        }
        if remarks.is_unnamed && !self.has_missed_names {
            self.voice.say(InputsNote::Unnamed);
        }
        self.has_missed_names |= remarks.is_unnamed;
    }
}

/// Whether the fault is more than help that was asked for.
fn is_refusal(fault: &ParseFault) -> bool
    ensures { result ≡ is_refusal fault.now }
{
    !matches!(fault, ParseFault::Help(_))
}

impl Speaker for Listener<'_> {
    ghost use Rattle.hleak.specs.Heard.{counts_as_wrong, forgets_after, gaps_after, misses_names};

    // A line that was refused is kept in mind, an answer without names, whether events are forgotten and
    // how many gaps there are, and nothing else.
    ghost told = { λ s note. record s {
      has_refused = s.has_refused || counts_as_wrong note;
      has_missed_names = s.has_missed_names || misses_names note;
      forgets = forgets_after s.forgets note;
      gaps = gaps_after s.gaps note;
    } };

    ghost wants_notes = { λ s. s.wants_notes };

    // A person may ask for help.
    ghost counts = { λ s. not s.is_typed || s.has_refused };

    ghost noted = { λ s are_wanted. record s { wants_notes = are_wanted } };

    fn hears(&mut self, note: Note<&[String], &ParseFault, &Job>) {
        match note {
            Note::Begins(files, opening) => self.begin(files, opening),
            Note::Awaits => self.prompt(),
            Note::Refuses(fault) => self.refuse(fault),
            Note::Reads(files, ended) => self.end_reading(files, ended),
            Note::Declines(fault) => self.decline(fault),
            Note::Answered(job, absence, remarks) => self.note_answer(job, absence, remarks),
        }
    }

    fn wants_notes(&self) -> bool {
        self.wants_notes
    }

    fn takes_notes(&mut self, are_wanted: bool) {
        self.wants_notes = are_wanted;
    }

    fn counts_wrong(&self) -> bool {
        !self.is_typed || self.has_refused
    }

    /// A person who has typed the end of the lines gets a line of their own for what comes after.
    fn leaves(&mut self, has_ended: bool) {
        if has_ended && self.is_typed {
            self.voice.say("");
        }
    }
}
