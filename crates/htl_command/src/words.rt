//! What a person reads of the lines of a dialogue that are no question: help, and why one is wrong.
ghost use Rattle.std.specs.Prelude.{⊤};
ghost use Rattle.htl_command.specs.Helps.{IsHelp};
ghost use Rattle.htl_command.specs.Refusals.{IsUsageWith};

use crate::fault::{ParseFault, usage};
use crate::no_job::hexadecimal;
use std::alloc::Global;
use std::fmt;

/// What stands behind why a line that is to use a process is wrong.
const USE_TIP: &str = "\n\nFor more information, try 'help use'.";

const READ_HELP: &str = "\
Read more segments

Usage: read <FILES>...

Arguments:
  <FILES>...  Trace segments; a name that begins with '-' follows '--'

The reply, as 'read segments=1 new=0 complete_to=9 gaps=0', counts the segments
of these files and the new ones; the rest is of all files. Later questions are
about all of them. After a fault none of these files counts; with --fold what
was read before the fault does.
";

const MERGE_HELP: &str = "\
Merge a saved state into what was read

Usage: merge <FILE>

Arguments:
  <FILE>  A state that 'save' or 'hleak fold' wrote; a name that begins with
          '-' follows '--'

The state has to be of the same trace. The reply, as
'merged segments=1 new=0 complete_to=9 gaps=0', counts the segments of the state
and the new ones; the rest is of all. Later questions are about all of them. A
state that is refused changes nothing. Only with --fold.
";

const SAVE_HELP: &str = "\
Save the state of what was read

Usage: save <FILE>

Arguments:
  <FILE>  Where the state is written; a name that begins with '-' follows '--'

The new file takes the place of an old one as a whole, also where the machine
stops in between. The reply, as 'saved bytes=4096', comes once it is on the
disk. 'merge' reads it, in this dialogue or another one, and so does --state of
'hleak ask' and of a question, as 'hleak leaks'. Only with --fold.
";

const USE_HELP: &str = "\
Use a process in questions that name none

Usage: use [N]

Arguments:
  [N]  The process: decimal, at most 4294967295, or 'none' to use none

From here on a question about a process is about this one, if its line has no
--process. The reply says which is used, as 'using process=4' or
'using process=none'. Without N it says so and changes nothing.
";

const QUIT_HELP: &str = "\
End the dialogue

Usage: quit

'exit' and 'q' end it too, and so does the end of the lines.
";

impl ParseFault {
    /// The help of a line that reads files.
    pub fn read_help(alloc: Global) -> ParseFault
        ensures { IsHelp result }
    {
        help(alloc, READ_HELP)
    }

    /// The help of a line that merges a state.
    pub fn merge_help(alloc: Global) -> ParseFault
        ensures { IsHelp result }
    {
        help(alloc, MERGE_HELP)
    }

    /// The help of a line that saves the state.
    pub fn save_help(alloc: Global) -> ParseFault
        ensures { IsHelp result }
    {
        help(alloc, SAVE_HELP)
    }

    /// The help of a line that uses a process.
    pub fn use_help(alloc: Global) -> ParseFault
        ensures { IsHelp result }
    {
        help(alloc, USE_HELP)
    }

    /// The help of a line that ends the dialogue.
    pub fn quit_help(alloc: Global) -> ParseFault
        ensures { IsHelp result }
    {
        help(alloc, QUIT_HELP)
    }

    /// The fault of a line that begins with this word, takes the name of a file, and has none, or
    /// several, or an option.
    pub fn no_name(alloc: Global, word: &str) -> ParseFault
        ensures { IsUsageWith ⊤ result }
    {
        let why = format!(in alloc;
            "'{word}' takes one file, and no option\n\n  \
            tip: a name that begins with '-' follows '--', as in '{word} -- -a.hla'\n\n\
            For more information, try 'help {word}'."
        );
        match why {
            Ok(why) => usage(alloc, &why, ""),
            Err(_) => ParseFault::Memory,
        }
    }

    /// The fault of a line that is to use a process and has several arguments for it.
    pub fn many_processes(alloc: Global) -> ParseFault
        ensures { IsUsageWith ⊤ result }
    {
        usage(alloc, "'use' takes one process, or 'none'", USE_TIP)
    }

    /// The fault of a line that is to use a process, where this is given for one.
    pub fn no_process(alloc: Global, given: &str) -> ParseFault
        ensures { IsUsageWith ⊤ result }
    {
        match format!(in alloc; "{}", NoProcess { given }) {
            Ok(why) => usage(alloc, &why, USE_TIP),
            Err(_) => ParseFault::Memory,
        }
    }
}

/// What is no process, though a line is to use it.
#[derive(Clone, Copy)]
struct NoProcess<'a> {
    given: &'a str,
}

impl fmt::Display for NoProcess<'_> {
    fn fmt<W: fmt::Write>(&self, f: &mut fmt::Formatter<W>) -> fmt::Result {
        let given = self.given;
        write!(
            f,
            "invalid value '{given}' for 'use <N>'\n  \
            [expected: decimal digits, at most 4294967295, or none]"
        )?;
        match hexadecimal(given) {
            Some(number) => write!(f, "\n\n  tip: {given} is {number}"),
            None => Ok(()),
        }
    }
}

/// A text of help, unless memory is refused for it.
fn help(alloc: Global, text: &str) -> ParseFault
    ensures { IsHelp result }
{
    match String::from_str(alloc, text) {
        Ok(text) => ParseFault::Help(text),
        Err(_) => ParseFault::Memory,
    }
}
