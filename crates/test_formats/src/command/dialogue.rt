// What a person reads of the lines of a dialogue that are no question, and which questions take a
// process.

use super::texts::has_text;
use crate::rows::assert_row;
use htl_command::{ParseFault, parse_process, takes_process};

const READ: &str = "\
Read more segments

Usage: read <FILES>...

Arguments:
  <FILES>...  Trace segments; a name that begins with '-' follows '--'

The reply, as 'read segments=1 new=0 complete_to=9 gaps=0', counts the segments
of these files and the new ones; the rest is of all files. Later questions are
about all of them. After a fault none of these files counts; with --fold what
was read before the fault does.
";

const MERGE: &str = "\
Merge a saved state into what was read

Usage: merge <FILE>

Arguments:
  <FILE>  A state that 'save' or 'hleak fold' wrote; a name that begins with
          '-' follows '--'

The state has to be of the same trace. The reply, as
'merged segments=1 new=0 complete_to=9 gaps=0', counts the segments of the state
and the new ones; the rest is of all. Later questions are about all of them. A
state that is refused changes nothing. Only with --fold.
";

const SAVE: &str = "\
Save the state of what was read

Usage: save <FILE>

Arguments:
  <FILE>  Where the state is written; a name that begins with '-' follows '--'

The new file takes the place of an old one as a whole, also where the machine
stops in between. The reply, as 'saved bytes=4096', comes once it is on the
disk. 'merge' reads it, in this dialogue or another one, and so does --state of
'hleak ask' and of a question, as 'hleak leaks'. Only with --fold.
";

const USE: &str = "\
Use a process in questions that name none

Usage: use [N]

Arguments:
  [N]  The process: decimal, at most 4294967295, or 'none' to use none

From here on a question about a process is about this one, if its line has no
--process. The reply says which is used, as 'using process=4' or
'using process=none'. Without N it says so and changes nothing.
";

const QUIT: &str = "\
End the dialogue

Usage: quit

'exit' and 'q' end it too, and so does the end of the lines.
";

const NO_NAME: &str = "\
error: 'save' takes one file, and no option

  tip: a name that begins with '-' follows '--', as in 'save -- -a.hla'

For more information, try 'help save'.
";

const NO_FOLD: &str = "\
error: 'merge' and 'save' need '--fold', which keeps no events

For more information, try 'help'.
";

const MANY: &str = "\
error: 'use' takes one process, or 'none'

For more information, try 'help use'.
";

const NO_PROCESS: &str = "\
error: invalid value 'four' for 'use <N>'
  [expected: decimal digits, at most 4294967295, or none]

For more information, try 'help use'.
";

const HEXADECIMAL: &str = "\
error: invalid value '0x4b0' for 'use <N>'
  [expected: decimal digits, at most 4294967295, or none]

  tip: 0x4b0 is 1200

For more information, try 'help use'.
";

/// Words, and whether they are questions about a process.
const TAKERS: &[(&str, bool)] = &[
    ("summary", false),
    ("outstanding", true),
    ("diff", true),
    ("tags", false),
    ("bad", true),
    ("leaks", true),
    ("sites", false),
    ("stacks", false),
    ("balance", false),
    ("trace", true),
    ("growth", true),
    ("ask", false),
    ("dump", false),
    ("leak", false),
    ("Leaks", false),
    ("", false),
];

/// Texts, and the processes that they name.
const PROCESSES: &[(&str, Option<u32>)] = &[
    ("4", Some(4)),
    ("0004", Some(4)),
    ("0", Some(0)),
    ("4294967295", Some(u32::MAX)),
    ("4294967296", None),
    ("0x4", None),
    ("-4", None),
    ("+4", None),
    (" 4", None),
    ("", None),
    ("none", None),
];

#[test]
fn lines_that_are_no_question_have_help(rt: HostRuntime) {
    let alloc = rt.alloc();
    has_text(&rt, alloc, "read", &ParseFault::read_help(alloc), (0, READ));
    has_text(
        &rt,
        alloc,
        "merge",
        &ParseFault::merge_help(alloc),
        (0, MERGE),
    );
    has_text(&rt, alloc, "save", &ParseFault::save_help(alloc), (0, SAVE));
    has_text(&rt, alloc, "use", &ParseFault::use_help(alloc), (0, USE));
    has_text(&rt, alloc, "quit", &ParseFault::quit_help(alloc), (0, QUIT));
}

#[test]
fn what_is_no_process_is_named(rt: HostRuntime) {
    let alloc = rt.alloc();
    let many = ParseFault::many_processes(alloc);
    has_text(&rt, alloc, "use 4 5", &many, (2, MANY));
    let word = ParseFault::no_process(alloc, "four");
    has_text(&rt, alloc, "use four", &word, (2, NO_PROCESS));
    let digits = ParseFault::no_process(alloc, "0x4b0");
    has_text(&rt, alloc, "use 0x4b0", &digits, (2, HEXADECIMAL));
}

#[test]
fn states_have_one_name_and_a_dialogue_that_folds(rt: HostRuntime) {
    let alloc = rt.alloc();
    let name = ParseFault::no_name(alloc, "save");
    has_text(&rt, alloc, "save a b", &name, (2, NO_NAME));
    let fold = ParseFault::needs_fold(alloc);
    has_text(&rt, alloc, "merge a", &fold, (2, NO_FOLD));
}

#[test]
fn some_questions_take_a_process(rt: HostRuntime) {
    for (word, takes) in TAKERS {
        assert_row(&rt, *word, takes_process(word), *takes);
    }
}

#[test]
fn processes_are_decimal(rt: HostRuntime) {
    for (text, process) in PROCESSES {
        assert_row(&rt, *text, parse_process(text), *process);
    }
}
