//! A world of memory: names, and the bytes that each holds.

ghost use Rattle.std.specs.Prelude.{◌≡◌, None, Some, false, find, is_none, option_copied};
ghost use Rattle.std.specs.Prelude.{option_map, true};
ghost use Rattle.std.specs.Str.{bytes_eq};

use htl_ask::{Note, Speaker};
use htl_command::{Command, Job, ParseFault};
use htl_dialogue::DialogueFault;
use htl_main::{Coverage, CutInputs, Reading, RunFault};
use htl_program::{Lack, Message, Person};
use htl_world::{OpenFault, World};
use std::alloc::Global;

/// A name, and the bytes that it holds.
#[derive(Drop)]
pub struct Named {
    pub name: &'static str,
    pub bytes: Vec<u8>,
}

/// Names, of which the first of each counts, and standard input. It keeps no log.
#[derive(Clone, Copy)]
pub struct Memory<'a> {
    pub alloc: Global,
    pub files: &'a [Named],
    pub standard: &'a [u8],
}

impl<'a> Memory<'a> {
    /// The first file of a name.
    fn named(&self, name: &str) -> Option<&'a Named>
        ensures { option_copied result
            ≡ find (λ file. bytes_eq file.name.now name.now) self.now.files.now }
    {
        self.files.iter().find(|file| file.name == name)
    }
}

impl<'a> World for Memory<'a> {
    type Input = Reading<&'a [u8]>;

    ghost state = { λ world. record {
      known = record {
        holds = λ name. option_map (λ file. file.bytes.items)
            (find (λ file. bytes_eq file.name.now name) world.files.now);
        is_absent = λ name. is_none (find (λ file. bytes_eq file.name.now name) world.files.now);
        can_be_read_again = λ name. true;
        standard = Some world.standard.now;
        standard_can_be_read_again = true;
      };
      asked = None;
    } };

    fn open(&mut self, name: &str) -> Result<Reading<&'a [u8]>, OpenFault> {
        match self.named(name) {
            Some(file) => Ok(Reading::new(file.bytes.as_slice())),
            None => Err(OpenFault::Refused),
        }
    }

    fn read(&mut self, name: &str) -> Result<Vec<u8>, OpenFault> {
        let Some(file) = self.named(name) else {
            return Err(OpenFault::Refused);
        };
        match Vec::from_slice(self.alloc, &file.bytes) {
            Ok(bytes) => Ok(bytes),
            Err(_) => Err(OpenFault::NoMemory),
        }
    }

    /// Each name holds what it held from the first.
    fn write(&mut self, _name: &str, _bytes: &[u8]) -> Result<(), OpenFault> {
        Err(OpenFault::Refused)
    }

    fn standard_input(&mut self) -> Reading<&'a [u8]> {
        Reading::new(self.standard)
    }

    fn questions(&mut self) -> Reading<&'a [u8]> {
        Reading::new(self.standard)
    }

    fn can_be_read_again(&self, _name: &str) -> bool {
        true
    }

    fn standard_can_be_read_again(&self) -> bool {
        true
    }
}

/// What was said last, and how many things were.
#[derive(Clone, Copy, Debug, PartialEq, Eq)]
pub enum Said {
    Nothing,
    Refusal,
    Unwritten,
    Fault(RunFault),
    Meaning(RunFault),
    Lack(Lack),
    Unnamed,
    Gaps(Coverage),
    Cut(CutInputs),
    Stop(DialogueFault),
    StopMeaning(DialogueFault),
}

impl Said {
    /// What is said by a message, but that a run begins or has ended.
    fn of(message: Message<&Command, &ParseFault>) -> Option<Said> {
        match message {
            Message::Begins(_) | Message::Ends => None,
            Message::Refusal(_) => Some(Said::Refusal),
            Message::Unwritten => Some(Said::Unwritten),
            Message::Fault(refused) => Some(Said::Fault(refused.fault)),
            Message::Meaning(_, refused) => Some(Said::Meaning(refused.fault)),
            Message::Lack(lack) => Some(Said::Lack(lack)),
            Message::Unnamed => Some(Said::Unnamed),
            Message::Gaps(_, coverage) => Some(Said::Gaps(coverage)),
            Message::Cut(_, inputs) => Some(Said::Cut(inputs)),
            Message::Stop(stopped) => Some(Said::Stop(stopped)),
            Message::StopMeaning(stopped) => Some(Said::StopMeaning(stopped)),
        }
    }
}

/// A person who doesn't watch, and remembers what was said.
#[derive(Clone, Copy)]
pub struct Witness {
    pub last: Said,
    pub count: u32,
    /// Whether standard output is a terminal.
    pub sees_output: bool,
}

impl Witness {
    pub fn new() -> Witness {
        Witness {
            last: Said::Nothing,
            count: 0,
            sees_output: false,
        }
    }
}

impl Person for Witness {
    ghost heard = { λ _. None };

    ghost sees_output = { λ witness. witness.sees_output };

    ghost is_watching = { λ _. false };

    fn sees_output(&self) -> bool {
        self.sees_output
    }

    fn is_watching(&self) -> bool {
        false
    }

    fn hears(&mut self, message: Message<&Command, &ParseFault>) {
        if let Some(said) = Said::of(message) {
            self.last = said;
            self.count = self.count.saturating_add(1);
        }
    }
}

/// Who types the lines of a dialogue, and hears nothing of it.
#[derive(Clone, Copy)]
pub struct Silent {
    pub wants_notes: bool,
}

impl Speaker for Silent {
    ghost use Rattle.std.specs.Prelude.{true};

    ghost told = { λ s note. s };

    ghost wants_notes = { λ s. s.wants_notes };

    ghost counts = { λ s. true };

    ghost noted = { λ s are_wanted. record s { wants_notes = are_wanted } };

    fn hears(&mut self, _note: Note<&[String], &ParseFault, &Job>) {}

    fn wants_notes(&self) -> bool {
        self.wants_notes
    }

    fn takes_notes(&mut self, are_wanted: bool) {
        self.wants_notes = are_wanted;
    }

    fn counts_wrong(&self) -> bool {
        true
    }

    fn leaves(&mut self, _has_ended: bool) {}
}
