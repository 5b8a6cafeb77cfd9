//! The program over a world of memory, from its arguments to its status.

use crate::commands::{COMMANDS, INPUTS, SYMBOLS, bytes_of};
use crate::comparison::assert_row;
use crate::devices::Narrow;
use crate::texts::TEXTS;
use crate::worlds::{Memory, Named, Said, Silent, Witness};
use htl_main::{RunFault, Writing};
use htl_program::{Console, Inputs, Lack, program};
use htl_question::Subject;
use htl_state::Fault;
use std::alloc::Global;
use std::process::Abort;
use std::thread::Threads;

/// Words of a command line over the files `first`, `second`, `symbols`, `text` and `state`, and how the
/// program ends that is given them, with a sink that fails when it holds `most` bytes.
#[derive(Clone, Copy, Debug)]
struct Line {
    words: &'static [&'static str],
    /// What stands on standard input.
    input: &'static str,
    most: usize,
    status: u8,
    printed: &'static str,
    last: Said,
}

const LINE: Line = Line {
    words: &[],
    input: "",
    most: usize::MAX,
    status: 0,
    printed: "",
    last: Said::Nothing,
};

/// The files of the world, by their names. One has the bytes of a state.
fn files(rt: &impl Abort, alloc: Global, state: Vec<u8>) -> [Named; 5] {
    [
        Named {
            name: "first",
            bytes: bytes_of(rt, alloc, INPUTS[0]),
        },
        Named {
            name: "second",
            bytes: bytes_of(rt, alloc, INPUTS[1]),
        },
        Named {
            name: "symbols",
            bytes: copy_of(rt, alloc, SYMBOLS),
        },
        Named {
            name: "text",
            bytes: copy_of(rt, alloc, TEXTS[0]),
        },
        Named {
            name: "state",
            bytes: state,
        },
    ]
}

/// The bytes of a text.
fn copy_of(rt: &impl Abort, alloc: Global, text: &str) -> Vec<u8> {
    Vec::from_slice(alloc, text.as_bytes()).expect(rt, "the memory")
}

/// Whether the program ends so in a world without a state.
fn is_obeyed(rt: &(impl Threads + Sync + Abort), alloc: Global, line: &Line) {
    is_obeyed_with(rt, alloc, Vec::new(alloc), line);
}

/// Whether the program ends so in a world with this state. At most one thing is said.
fn is_obeyed_with(rt: &(impl Threads + Sync + Abort), alloc: Global, state: Vec<u8>, line: &Line) {
    let files = files(rt, alloc, state);
    let (status, written, witness) = ended(rt, alloc, &files, line);
    let found = (status, written.as_slice(), witness.last);
    let wanted = (line.status, line.printed.as_bytes(), line.last);
    assert_row(rt, *line, found, wanted);
    assert_eq!(rt; witness.count, u32::from(line.last != Said::Nothing));
}

/// The status with which the program ends in a world of these files, what it wrote, and who heard what
/// was said.
fn ended(
    rt: &(impl Threads + Sync + Abort),
    alloc: Global,
    files: &[Named],
    line: &Line,
) -> (u8, Vec<u8>, Witness) {
    let mut world = Memory {
        alloc,
        files,
        standard: line.input.as_bytes(),
    };
    let mut arguments = Vec::new(alloc);
    for word in line.words {
        let word = String::from_str(alloc, word).expect(rt, "the memory");
        arguments.push(word).expect(rt, "the memory");
    }
    let mut held = Narrow {
        held: Vec::new(alloc),
        piece: 65_536,
        most: line.most,
    };
    let mut console = Console {
        out: Writing::new(&mut held),
        person: Witness::new(),
    };
    let status = program(
        rt,
        alloc,
        &mut world,
        arguments,
        &mut Inputs::new(alloc),
        &mut console,
        &mut Silent { wants_notes: false },
    );
    let witness = console.person;
    (status, held.held, witness)
}

/// The state that the program makes of both inputs.
fn folded(rt: &(impl Threads + Sync + Abort), alloc: Global) -> Vec<u8> {
    folded_of(rt, alloc, &["fold", "second", "first"])
}

/// The state that the program makes on these words.
fn folded_of(
    rt: &(impl Threads + Sync + Abort),
    alloc: Global,
    words: &'static [&'static str],
) -> Vec<u8> {
    let line = Line { words, ..LINE };
    let (status, written, witness) = ended(rt, alloc, &files(rt, alloc, Vec::new(alloc)), &line);
    assert_eq!(rt; (status, witness.last), (0, Said::Nothing));
    written
}

#[test]
fn a_question_is_answered_over_its_files(rt: HostRuntime) {
    for (number, words) in [
        (
            1,
            &["outstanding", "--process", "4", "first", "second"] as &[&str],
        ),
        (
            6,
            &[
                "stacks",
                "--object",
                "0x1000",
                "--tag",
                "Lky8",
                "--symbols",
                "symbols",
                "second",
                "first",
            ],
        ),
    ] {
        let line = Line {
            words,
            printed: COMMANDS[number].text,
            ..LINE
        };
        is_obeyed(&rt, rt.alloc(), &line);
    }
}

#[test]
fn notes_say_that_a_process_has_no_event(rt: HostRuntime) {
    let line = Line {
        words: &["bad", "--process", "5", "--notes", "first", "second"],
        printed: "bad process=5 count=0\n",
        last: Said::Lack(Lack::Event {
            subject: Subject::Process(5),
            has_moment: false,
        }),
        ..LINE
    };
    is_obeyed(&rt, rt.alloc(), &line);
}

#[test]
fn the_first_file_that_is_absent_is_reported(rt: HostRuntime) {
    let line = Line {
        words: &["summary", "first", "none", "second", "none"],
        status: 5,
        last: Said::Fault(RunFault::Read { input: 1 }),
        ..LINE
    };
    is_obeyed(&rt, rt.alloc(), &line);
}

#[test]
fn a_table_of_symbols_that_is_absent_is_reported(rt: HostRuntime) {
    let line = Line {
        words: &["summary", "--symbols", "none", "first", "second"],
        status: 5,
        last: Said::Fault(RunFault::SymbolsRead),
        ..LINE
    };
    is_obeyed(&rt, rt.alloc(), &line);
}

#[test]
fn files_are_dumped_in_their_order(rt: HostRuntime) {
    let line = Line {
        words: &["dump", "first"],
        printed: TEXTS[0],
        ..LINE
    };
    is_obeyed(&rt, rt.alloc(), &line);
    let line = Line {
        words: &["dump", "second"],
        printed: TEXTS[1],
        ..LINE
    };
    is_obeyed(&rt, rt.alloc(), &line);
}

#[test]
fn a_code_is_explained(rt: HostRuntime) {
    let line = Line {
        words: &["explain", "S10"],
        printed: "\
S10: the file ends before its last segment does
was it copied whole? With --partial its whole segments count
",
        ..LINE
    };
    is_obeyed(&rt, rt.alloc(), &line);
}

#[test]
fn help_that_cannot_be_written_is_no_success(rt: HostRuntime) {
    let line = Line {
        words: &["--help"],
        most: 0,
        status: 5,
        last: Said::Unwritten,
        ..LINE
    };
    is_obeyed(&rt, rt.alloc(), &line);
}

#[test]
fn a_word_that_is_no_command_is_refused(rt: HostRuntime) {
    let line = Line {
        words: &["leek", "first"],
        status: 2,
        last: Said::Refusal,
        ..LINE
    };
    is_obeyed(&rt, rt.alloc(), &line);
}

#[test]
fn files_are_read_in_a_dialogue(rt: HostRuntime) {
    let line = Line {
        words: &["ask", "first"],
        input: "read second\nbad --process 4\nread absent\nread second text\nread second",
        status: 5,
        printed: "\
read segments=1 new=1 complete_to=7 gaps=0

bad process=4 count=1
BAD REF handle=0x45 times=1
  0x0000000000000030



read segments=1 new=0 complete_to=7 gaps=0

",
        ..LINE
    };
    is_obeyed(&rt, rt.alloc(), &line);
}

#[test]
fn states_need_a_dialogue_that_folds(rt: HostRuntime) {
    let line = Line {
        words: &["ask", "first", "second"],
        input: "\
merge state
save state
help merge
save --help
bad --process 5
",
        status: 2,
        printed: "\n\n\n\nbad process=5 count=0\n\n",
        ..LINE
    };
    is_obeyed(&rt, rt.alloc(), &line);
}

#[test]
fn what_is_no_state_is_not_merged(rt: HostRuntime) {
    let line = Line {
        words: &["ask", "--fold", "first", "second"],
        input: "\
merge first
merge absent
merge first second
bad --process 5
",
        status: 2,
        printed: "\n\n\nbad process=5 count=0\n\n",
        ..LINE
    };
    is_obeyed(&rt, rt.alloc(), &line);
}

#[test]
fn a_process_is_used_in_a_dialogue(rt: HostRuntime) {
    let line = Line {
        words: &["ask", "first", "second"],
        input: "\
use
use 4
bad
bad --process 5
use 5
use
bad --top 1
use five
use 4 5
bad
use none
bad
bad --process 4
help use
",
        status: 2,
        printed: "\
using process=none

using process=4

bad process=4 count=1
BAD REF handle=0x45 times=1
  0x0000000000000030

bad process=5 count=0

using process=5

using process=5

bad process=5 count=0



bad process=5 count=0

using process=none


bad process=4 count=1
BAD REF handle=0x45 times=1
  0x0000000000000030


",
        ..LINE
    };
    is_obeyed(&rt, rt.alloc(), &line);
}

#[test]
fn files_are_folded_in_a_dialogue(rt: HostRuntime) {
    let line = Line {
        words: &["ask", "--fold", "--symbols", "symbols", "first", "second"],
        input: "\
stacks --object 1000 --tag Lky8
trace --process 4 --handle 44
read second first
",
        status: 2,
        printed: "\
stacks object=0x0000000000001000 tag=Lky8 count=1
STACK refs=1 derefs=0
  app!main+0x4


read segments=2 new=0 complete_to=7 gaps=0

",
        ..LINE
    };
    is_obeyed(&rt, rt.alloc(), &line);
}

#[test]
fn a_dialogue_begins_with_a_state_that_was_folded(rt: HostRuntime) {
    let line = Line {
        words: &["ask", "--symbols", "symbols", "--state", "state"],
        input: "\
stacks --object 1000 --tag Lky8
bad --process 4
read first
",
        printed: "\
stacks object=0x0000000000001000 tag=Lky8 count=1
STACK refs=1 derefs=0
  app!main+0x4

bad process=4 count=1
BAD REF handle=0x45 times=1
  0x0000000000000030

read segments=1 new=0 complete_to=7 gaps=0

",
        ..LINE
    };
    is_obeyed_with(&rt, rt.alloc(), folded(&rt, rt.alloc()), &line);
}

#[test]
fn a_question_is_answered_over_a_state_alone(rt: HostRuntime) {
    let line = Line {
        words: &["leaks", "--process", "4", "--state", "state"],
        input: "what is no segment",
        printed: "\
leaks process=4 count=1
LEAK handles=1
  0x0000000000000030
",
        ..LINE
    };
    is_obeyed_with(&rt, rt.alloc(), folded(&rt, rt.alloc()), &line);
}

#[test]
fn a_question_is_answered_over_a_state_and_a_file(rt: HostRuntime) {
    let line = Line {
        words: &["summary", "--exit-code", "--state", "state", "second"],
        input: "what is no segment",
        status: 1,
        printed: "\
summary processors=1 segments=2 events=7 complete_to=7 gaps=0 processes=1 objects=1 unbalanced=1
PROCESS process=4 outstanding=1 opens=2 closes=1 bad=1 mark=2 exit=0
OBJECT object=0x0000000000001000 tags=2 unbalanced=2 refs=1 derefs=1
",
        ..LINE
    };
    let of_first = folded_of(&rt, rt.alloc(), &["fold", "first"]);
    is_obeyed_with(&rt, rt.alloc(), of_first, &line);
}

#[test]
fn no_dialogue_begins_with_what_is_no_state(rt: HostRuntime) {
    let line = Line {
        words: &["ask", "--state", "state", "--state", "second", "first"],
        input: "bad --process 4",
        status: 3,
        last: Said::Fault(RunFault::State {
            state: 1,
            offset: 0,
            fault: Fault::Magic,
        }),
        ..LINE
    };
    is_obeyed_with(&rt, rt.alloc(), folded(&rt, rt.alloc()), &line);
}
