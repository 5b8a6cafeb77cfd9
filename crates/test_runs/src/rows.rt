//! Inputs with what is printed for them, and inputs that are refused.

use crate::printed::LEAKING;
use htl_command::{Question, Since};
use htl_main::{Completed, Coverage, Remarks};

/// The stored run: two opens and a close of process 4.
pub const STORED: &str = "\
484c5331010001000000000000000000070000000000000003000000 9c000000
0100000000000000 01 00 0000 04000000 0c000000 44000000 0000000000000000 00000000
0200000000000000 02 00 0000 04000000 0c000000 44000000 0000000000000000 00000000
0300000000000000 01 02 0000 04000000 0c000000 48000000 0000000000000000 00000000
1010000000000000 0020000000000000
";

pub const STORED_TEXT: &str = "\
outstanding process=4 count=1
OPEN handle=0x48 seq=3 thread=12
  0x0000000000001010
  0x0000000000002000
";

/// Of its one processor it has the first segment, with events of process 4. No table has names.
pub const STORED_COMPLETED: Completed = Completed {
    coverage: Coverage {
        gaps: 0,
        complete_to: 3,
    },
    cut: None,
    absence: None,
    remarks: Remarks {
        has_finding: true,
        is_unmarked: false,
        is_unnamed: true,
    },
};

/// A segment with no events.
const EMPTY: &str = "484c5331 0100 0100 0000 0000 00000000 0700000000000000 00000000 20000000";

/// Inputs by the lines of their segments, and the text of the answer.
pub struct Printed {
    pub name: &'static str,
    pub inputs: &'static [&'static str],
    pub question: Question,
    pub symbols: Option<&'static str>,
    pub text: &'static str,
}

const SNAPSHOTS: &str = "0/0: O 7 0x14, O 8 0x10, S 10, C 11 0x14, O 12 0x18, O 13 0x14";

const TAGS: &str = "0/0: R 1 0xffffa00000001000 Lky8, R 2 0xffffa00000001000 Lky8, \
D 3 0xffffa00000001000 Lky8, R 4 0xffffa00000001000 Dflt, D 5 0xffffa00000001000 Dflt, \
D 6 0xffffa00000001000 0x01414243";

const BRANCHES: &str = "0/0: R 1 0x1000 Lky8 [0x30 0x20 0x10], R 2 0x1000 Lky8 [0x40 0x20 0x10], \
D 3 0x1000 Lky8";

const LEAKS: &str = "0/0: O 1 0x44 [0x50 0x20], O 2 0x48 [0x30 0x40], O 3 0x4c [0x60], \
O 4 0x50 [0x60], B 5 0x7 [0x10], B 6 0x7 [0x10], B 7 0x0";

const LISTING: &str = "0/0: O 1 0x44 [0x10], B 2 0x45, C 3 0x46";

pub const SYMBOLS: &str = "\
start,end,module,name
0x1000,0x1020,ntdll,NtCreateFile
2000,2001,app,main
";

pub const PRINTED: &[Printed] = &[
    Printed {
        name: "an empty segment",
        inputs: &["0/0:"],
        question: Question::Outstanding { process: 4 },
        symbols: None,
        text: "outstanding process=4 count=0\n",
    },
    Printed {
        name: "the base handle is printed",
        inputs: &["0/0: O 1 0x46"],
        question: Question::Outstanding { process: 4 },
        symbols: None,
        text: "outstanding process=4 count=1\nOPEN handle=0x44 seq=1 thread=12\n",
    },
    Printed {
        name: "a close that comes before its open, in another input",
        inputs: &["0/1: C 9 0x44", "0/0: O 4 0x44"],
        question: Question::Outstanding { process: 4 },
        symbols: None,
        text: "outstanding process=4 count=0\n",
    },
    Printed {
        name: "a process exit",
        inputs: &["0/0: O 1 0x44", "0/1: exit 2"],
        question: Question::Outstanding { process: 4 },
        symbols: None,
        text: "outstanding process=4 count=0\n",
    },
    Printed {
        name: "a difference since the mark",
        inputs: &[SNAPSHOTS],
        question: Question::Diff {
            process: 4,
            since: Since::Snapshot,
        },
        symbols: None,
        text: "\
diff process=4 since=10 count=2
OPEN handle=0x14 seq=13 thread=12
OPEN handle=0x18 seq=12 thread=12
",
    },
    Printed {
        name: "a difference since a moment",
        inputs: &[SNAPSHOTS],
        question: Question::Diff {
            process: 4,
            since: Since::Sequence(13),
        },
        symbols: None,
        text: "diff process=4 since=13 count=0\n",
    },
    Printed {
        name: "tags over and under",
        inputs: &[TAGS],
        question: Question::Tags {
            object: 0xffff_a000_0000_1000,
        },
        symbols: None,
        text: "\
tags object=0xffffa00000001000 count=3
TAG .ABC refs=0 derefs=1 under=1
TAG Dflt refs=1 derefs=1 balanced
TAG Lky8 refs=2 derefs=1 over=1
",
    },
    Printed {
        name: "shared outer frames",
        inputs: &[BRANCHES],
        question: Question::Stacks {
            object: 0x1000,
            tag: *b"Lky8",
        },
        symbols: None,
        text: "\
stacks object=0x0000000000001000 tag=Lky8 count=3
STACK refs=0 derefs=1
STACK refs=1 derefs=0
  0x0000000000000030
  0x0000000000000020
  0x0000000000000010
STACK refs=1 derefs=0
  0x0000000000000040
  0x0000000000000020
  0x0000000000000010
",
    },
    Printed {
        name: "leaking stacks",
        inputs: &[LEAKS],
        question: LEAKING,
        symbols: None,
        text: "\
leaks process=4 count=3
LEAK handles=2
  0x0000000000000060
LEAK handles=1
  0x0000000000000050
  0x0000000000000020
LEAK handles=1
  0x0000000000000030
  0x0000000000000040
",
    },
    Printed {
        name: "bad references",
        inputs: &[LEAKS],
        question: Question::Bad { process: 4 },
        symbols: None,
        text: "\
bad process=4 count=2
BAD REF handle=0x0 times=1
BAD REF handle=0x7 times=2
  0x0000000000000010
",
    },
    Printed {
        name: "a handle's listing",
        inputs: &[LISTING],
        question: Question::Trace {
            process: 4,
            handle: 0x44,
        },
        symbols: None,
        text: "\
trace process=4 handle=0x44 count=3
CLOSE handle=0x46 seq=3 thread=12
BAD REF handle=0x45 seq=2 thread=12
OPEN handle=0x44 seq=1 thread=12
  0x0000000000000010
",
    },
    Printed {
        name: "a repeat",
        inputs: &["0/0: O 1 0x44", "0/0: O 1 0x44"],
        question: Question::Outstanding { process: 4 },
        symbols: None,
        text: "outstanding process=4 count=1\nOPEN handle=0x44 seq=1 thread=12\n",
    },
    Printed {
        name: "symbols",
        inputs: &["0/0: O 1 0x44 [0x1000 0x1010 0x101f 0x1020 0x2000]"],
        question: Question::Outstanding { process: 4 },
        symbols: Some(SYMBOLS),
        text: "\
outstanding process=4 count=1
OPEN handle=0x44 seq=1 thread=12
  ntdll!NtCreateFile
  ntdll!NtCreateFile+0x10
  ntdll!NtCreateFile+0x1f
  0x0000000000001020
  app!main
",
    },
];

/// Inputs in hexadecimal that are refused, the line on standard error, and the status.
pub struct Refused {
    pub workers: u32,
    pub inputs: &'static [&'static str],
    pub symbols: Option<&'static str>,
    pub line: &'static str,
    pub status: u8,
}

/// Each row but the first has a later fault after the one that is reported.
pub const REFUSED: &[Refused] = &[
    Refused {
        workers: 1,
        inputs: &[EMPTY],
        symbols: Some("start,end,module,name\n1,5,a,b\n8,9,c,d\n4,6,e,f\n"),
        line: "hleak: symbols: Y5(3)",
        status: 7,
    },
    Refused {
        workers: 0,
        inputs: &["4g"],
        symbols: Some(""),
        line: "hleak: workers must be 1 to 8",
        status: 2,
    },
    Refused {
        workers: 9,
        inputs: &["4g"],
        symbols: Some(""),
        line: "hleak: workers must be 1 to 8",
        status: 2,
    },
    Refused {
        workers: 1,
        inputs: &["4g", "484"],
        symbols: Some(""),
        line: "hleak: input 0: H1(1)",
        status: 3,
    },
    Refused {
        workers: 1,
        inputs: &[EMPTY, "48 4", "4g"],
        symbols: Some(""),
        line: "hleak: input 1: H2",
        status: 3,
    },
    Refused {
        workers: 1,
        inputs: &["48", "4g"],
        symbols: Some(""),
        line: "hleak: input 0, offset 0: S1",
        status: 3,
    },
    Refused {
        workers: 1,
        inputs: &[
            EMPTY,
            "\
484c5331 0100 0100 0000 0000 00000000 0700000000000000 00000000 20000000
484c5331 0300 0100 0000 0000 00000000 0700000000000000 00000000 20000000",
            "4g",
        ],
        symbols: Some(""),
        line: "hleak: input 1, offset 32: S3",
        status: 3,
    },
    Refused {
        workers: 1,
        inputs: &[
            "\
484c5331 0100 0100 0000 0000 00000000 0700000000000000 00000000 20000000
484c5331 0100 0200 0000 0000 01000000 0700000000000000 00000000 20000000",
        ],
        symbols: Some(""),
        line: "hleak: case: C3(1)",
        status: 4,
    },
    Refused {
        workers: 1,
        inputs: &[EMPTY],
        symbols: Some(""),
        line: "hleak: symbols: Y1",
        status: 7,
    },
];
