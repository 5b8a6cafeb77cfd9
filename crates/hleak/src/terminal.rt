//! Who reads standard error: the line of a fault, and what is said beside it to a person at a
//! terminal, or to whoever asks for notes. `htl_program` decides which of it is said.

ghost use Rattle.std.specs.Prelude.{None};

use crate::explaining::{Stopped, Task};
use crate::lacking::Lacking;
use crate::note::InputsNote;
use crate::terminals::Terminals;
use crate::voice::Voice;
use htl_command::{Command, ParseFault};
use htl_dialogue::DialogueFault;
use htl_main::{Coverage, CutInputs, Refused, RunFault};
use htl_program::{Message, Person};

/// Who reads standard error, at a terminal or not.
#[derive(Clone, Copy)]
pub struct Terminal<'p> {
    pub voice: Voice<'p>,
    pub terminals: Terminals,
}

impl Terminal<'_> {
    /// Says that the program waits, where it does. The progress is hidden while the text of segments
    /// is written to a terminal.
    fn begin(self, command: &Command) {
        match command {
            Command::Question(run) if run.states.is_empty() && run.files.is_empty() => {
                self.await_typing("segments are")
            }
            Command::Dump { files, .. } if files.is_empty() => self.await_typing("segments are"),
            Command::Encode { files, .. } if files.is_empty() => self.await_typing("text is"),
            Command::Fold { files, .. } if files.is_empty() => self.await_typing("segments are"),
            _ => {}
        }
        if let (Some(progress), Command::Dump { .. }, true) = (
            self.voice.progress,
            command,
            self.terminals.output,
        ) {
            progress.hide();
        }
    }

    /// The line that shows how much was read goes away.
    fn end(self) {
        if let Some(progress) = self.voice.progress {
            progress.clear();
        }
    }

    /// Says what a fault of the command's run means.
    fn explain(self, command: &Command, refused: Refused) {
        if let Some(task) = Task::of(command) {
            self.voice.explain(task, refused);
        }
    }

    /// Says that segments are missing whose events what the command gives may lack.
    fn note_gaps(self, command: &Command, coverage: Coverage) {
        if let Some(task) = Task::of(command) {
            let forgets = task.forgets_events();
            self.voice.say(InputsNote::Gaps { coverage, forgets });
        }
    }

    /// Says which inputs of the command end within a segment.
    fn note_cut(self, command: &Command, inputs: CutInputs) {
        if let Some(task) = Task::of(command) {
            self.voice.note_cut(task, inputs);
        }
    }

    /// Says what it means that the replies of a dialogue stopped.
    fn explain_stop(self, stopped: DialogueFault) {
        self.voice.say(Stopped {
            fault: stopped,
            reason: self.voice.refusal.reason(),
        });
    }

    /// Says to a person at a terminal that the program waits for what is typed there.
    fn await_typing(self, what: &str) {
        if self.terminals.has_typist() {
            let _ = eprintln!(self.voice.rt;
                "hleak: no file is named: {what} expected at this terminal"
            );
        }
    }
}

impl Person for Terminal<'_> {
    ghost heard = { λ _. None };

    ghost sees_output = { λ terminal. terminal.terminals.output };

    ghost is_watching = { λ terminal. terminal.terminals.errors };

    fn sees_output(&self) -> bool {
        self.terminals.output
    }

    fn is_watching(&self) -> bool {
        self.terminals.errors
    }

    fn hears(&mut self, message: Message<&Command, &ParseFault>) {
        match message {
            Message::Begins(command) => self.begin(command),
            Message::Ends => self.end(),
            Message::Refusal(refused) => self.voice.refuse(refused),
            Message::Unwritten => self.voice.say(RunFault::Write),
            Message::Fault(refused) => self.voice.say(refused),
            Message::Meaning(command, refused) => self.explain(command, refused),
            Message::Lack(lack) => self.voice.say(Lacking { lack }),
            Message::Unnamed => self.voice.say(InputsNote::Unnamed),
            Message::Gaps(command, coverage) => self.note_gaps(command, coverage),
            Message::Cut(command, inputs) => self.note_cut(command, inputs),
            Message::Stop(stopped) => self.voice.say(stopped),
            Message::StopMeaning(stopped) => self.explain_stop(stopped),
        }
    }
}
