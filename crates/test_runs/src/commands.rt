//! Each command's text over one trace.

use crate::printed::LEAKING;
use htl_command::{Question, Since};
use htl_main::{Completed, Coverage, Remarks};
use htl_samples::TRACE;
use htl_segment::encode;
use std::alloc::Global;
use std::process::Abort;

/// A trace in two inputs.
pub const INPUTS: [&str; 2] = [
    "0/0: O 1 0x44 [0x1004 0x20], S 2, O 3 0x48 [0x30]",
    "0/1: C 4 0x44, B 5 0x45 [0x30], R 6 0x1000 Lky8 [0x1004], D 7 0x1000 Dflt",
];

/// No segment of it is missing, it has events of what each command asks about, and each answer
/// finds something. The table has no address of some answers.
pub fn completed(command: &Command) -> Completed {
    Completed {
        coverage: Coverage {
            gaps: 0,
            complete_to: 7,
        },
        cut: None,
        absence: None,
        remarks: Remarks {
            has_finding: true,
            is_unmarked: false,
            is_unnamed: command.is_unnamed,
        },
    }
}

pub const SYMBOLS: &str = "start,end,module,name\n1000,1010,app,main\n";

/// The bytes of an input.
pub fn bytes_of(rt: &impl Abort, alloc: Global, line: &str) -> Vec<u8> {
    let segment = TRACE
        .segment(alloc, line)
        .expect(rt, "the line is a segment");
    encode(alloc, &segment).expect(rt, "the memory")
}

/// Digits of two letters for each byte.
pub fn digits_of(rt: &impl Abort, alloc: Global, bytes: &[u8]) -> Vec<u8> {
    let mut digits = Vec::new(alloc);
    for byte in bytes {
        for digit in [byte >> 4, byte & 15] {
            let letter = b"0123456789abcdef"[digit as usize];
            digits.push(letter).expect(rt, "the memory");
        }
    }
    digits
}

/// A question, and the text that answers it.
#[derive(Clone, Copy)]
pub struct Command {
    pub question: Question,
    pub text: &'static str,
    /// Whether it shows addresses, of which the table has none.
    pub is_unnamed: bool,
}

pub const COMMANDS: &[Command] = &[
    Command {
        question: Question::Summary,
        text: "\
summary processors=1 segments=2 events=7 complete_to=7 gaps=0 processes=1 objects=1 unbalanced=1
PROCESS process=4 outstanding=1 opens=2 closes=1 bad=1 mark=2 exit=0
OBJECT object=0x0000000000001000 tags=2 unbalanced=2 refs=1 derefs=1
",
        is_unnamed: false,
    },
    Command {
        question: Question::Outstanding { process: 4 },
        text: "\
outstanding process=4 count=1
OPEN handle=0x48 seq=3 thread=12
  0x0000000000000030
",
        is_unnamed: true,
    },
    Command {
        question: Question::Diff {
            process: 4,
            since: Since::Snapshot,
        },
        text: "\
diff process=4 since=2 count=1
OPEN handle=0x48 seq=3 thread=12
  0x0000000000000030
",
        is_unnamed: true,
    },
    Command {
        question: Question::Tags { object: 0x1000 },
        text: "\
tags object=0x0000000000001000 count=2
TAG Dflt refs=0 derefs=1 under=1
TAG Lky8 refs=1 derefs=0 over=1
",
        is_unnamed: false,
    },
    Command {
        question: Question::Bad { process: 4 },
        text: "\
bad process=4 count=1
BAD REF handle=0x45 times=1
  0x0000000000000030
",
        is_unnamed: true,
    },
    Command {
        question: LEAKING,
        text: "\
leaks process=4 count=1
LEAK handles=1
  0x0000000000000030
",
        is_unnamed: true,
    },
    Command {
        question: Question::Stacks {
            object: 0x1000,
            tag: *b"Lky8",
        },
        text: "\
stacks object=0x0000000000001000 tag=Lky8 count=1
STACK refs=1 derefs=0
  app!main+0x4
",
        is_unnamed: false,
    },
    Command {
        question: Question::Trace {
            process: 4,
            handle: 0x44,
        },
        text: "\
trace process=4 handle=0x44 count=3
BAD REF handle=0x45 seq=5 thread=12
  0x0000000000000030
CLOSE handle=0x44 seq=4 thread=12
OPEN handle=0x44 seq=1 thread=12
  app!main+0x4
  0x0000000000000020
",
        is_unnamed: false,
    },
];
