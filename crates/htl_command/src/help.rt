//! What a person reads of the commands and their options: the texts of help.

use crate::builder::Place;
use crate::names::{CommandFlag, CommandOption};
use crate::table::CommandName;

pub(crate) const VERSION: &str = "0.1.0";

pub(crate) const ABOUT: &str = "\
Finds handles that were opened and never closed, and object references that
were never dropped, in trace segments. Its questions are those of the Windows
debugger's !htrace and !obtrace.";

pub(crate) const AFTER_HELP: &str = "\
Options of every question, from summary to growth:
      --until <N>       Only events up to this sequence count: decimal, at most
                        18446744073709551615, or 'complete' for complete_to,
                        up to which answers are final: 0 if a processor is idle
      --symbols <FILE>  Names for addresses: CSV of start,end,module,name
      --workers <N>     Use up to N threads: 1 to 8 [default: 1]
      --json            One JSON object a line, for other programs
      --complete        Refuse segments with a gap (C8). Without a gap the last
                        segments of a processor may still be missing
      --hex             The files hold hexadecimal digits, not bytes
      --partial         Behind its whole segments a file may have bytes that
                        begin as a segment does; they are left out
      --notes           Notes, and the file and the words of a fault, also where
                        standard error is no terminal
  [FILES]...            Trace segments; standard input where no file is given

Options of every question but trace and growth:
      --state <FILE>    The answer is over the segments of this state too, which
                        'save' or 'hleak fold' wrote, and standard input is not
                        read; may stand many times; not with --until

Exit status:
  0  done                        4  not one trace, or no event asked about
  1  found, with --exit-code     5  a read or a write failed
  2  wrong command line          6  out of memory
  3  not a segment or its text   7  not a symbol table

Examples:
  hleak summary cpu0.hls cpu1.hls
  hleak outstanding --process 4 cpu0.hls cpu1.hls
  hleak tags --object 0xffffa00000001000 --symbols names.csv cpu0.hls cpu1.hls

'hleak COMMAND --help' lists the options of a command. No argument at all stands
for 'hleak outstanding --process 4 --hex'.

tools/from-htrace and tools/from-obtrace turn logs of the debugger into text for
'hleak encode'.";

pub(crate) const DIALOGUE_ABOUT: &str = "A line is a question over the segments that were read.";

pub(crate) const DIALOGUE_USAGE: &str = "<COMMAND> [OPTIONS]";

pub(crate) const DIALOGUE_AFTER_HELP: &str = "\
Other lines:
  read FILE ..  Read more segments; a name that begins with '-' follows '--'
  merge FILE    Merge a saved state of the same trace, with --fold
  save FILE     Save the state of what was read, with --fold
  use N         Use process N in questions without --process; none to use none
  quit          End the dialogue, as exit and q do

Options of every question:
      --until <N>  Only events up to this sequence count: decimal, at most
                   18446744073709551615, or 'complete' for complete_to,
                   up to which answers are final: 0 if a processor is idle
      --json       One JSON object a line, for other programs

'COMMAND --help' lists the options of a question. 'help read', 'help merge',
'help save', 'help use' and 'help quit' say more of other lines. An argument
with blanks stands in double quotes.

With --fold no line asks for 'trace', 'growth' or '--until'.";

pub(crate) const FILES_HELP: &str = "Trace segments; standard input where no file is given";

pub(crate) const ROWS_HELP: &str = "At most N rows: decimal, 1 to 4294967295";

pub(crate) const ROWS_OF_EACH_HELP: &str = "At most N processes and N objects: 1 to 4294967295";

pub(crate) const HEX_TEXT_HELP: &str = "Write hexadecimal digits, not bytes";

pub(crate) const TEXTS_HELP: &str = "Texts of segments; standard input where no file is given";

pub(crate) const DIALOGUE_FILES_HELP: &str = "Trace segments; they may be left out with --state";

pub(crate) const STATE_HELP: &str = "\
The answer is over the segments of this state too, which
'save' or 'hleak fold' wrote, and standard input is not
read; may stand many times; not with --until";

pub(crate) const DIALOGUE_STATE_HELP: &str = "\
Begin with this state, which 'save' or 'hleak fold'
wrote, and fold, as with --fold; may stand many times";

pub(crate) const CODE_HELP: &str = "The code of a fault, as S10 or 'C8(0, 2)', or its whole line";

/// Which codes there are, as a refusal reports it.
pub(crate) const CODE_EXPECTED: &str =
    "S1 to S17, H1 to H3, F1 to F17, C1 to C10, Y1 to Y7, E1 or E2";

impl CommandName {
    /// What the command is for, in one line.
    pub(crate) fn about<'a>(self) -> &'a str {
        match self {
            CommandName::Question(question) => question.row().about,
            CommandName::Explain => "What a fault means, and what to do",
            CommandName::Dump => "Segments as text, to read, compare and change",
            CommandName::Encode => "The bytes of segments that are given as text",
            CommandName::Ask => "Many questions over the same segments, a line each",
            CommandName::Fold => "Segments folded into a state, for --state and 'merge'",
        }
    }

    /// What the option of a saved state is for.
    pub(crate) fn state_help<'a>(self) -> &'a str {
        match self {
            CommandName::Ask => DIALOGUE_STATE_HELP,
            _ => STATE_HELP,
        }
    }

    /// A command line to begin with, after what else is to be known.
    pub(crate) fn example<'a>(self) -> &'a str {
        match self {
            CommandName::Question(question) => question.row().example,
            CommandName::Explain => "Example:\n  hleak explain S10",
            CommandName::Dump => "Example:\n  hleak dump cpu0.hls > cpu0.txt",
            CommandName::Encode => {
                "\
Bytes are not written to a terminal.

Example:
  hleak encode cpu0.txt > cpu0.hls"
            }
            CommandName::Ask => {
                "\
Each line of standard input is a question with its options, as
'leaks --process 4 --top 5'. An argument with blanks stands in double quotes.
The answer is written with an empty line after it. 'read FILE ..' reads more
segments, and replies how many; answers are final up to its complete_to.
'use N' names the process of questions without --process. With --fold
'save FILE' saves what was read, and 'merge FILE' merges such a state. Any other
line gets the empty line alone, and status 2 at the end. One without an argument
(blanks, \"\") gets no reply. 'quit' ends.

Examples:
  hleak ask --symbols names.csv cpu0.hls cpu1.hls
  hleak ask --state a.hla cpu2.hls"
            }
            CommandName::Fold => {
                "\
The state is what 'save' writes in a dialogue with --fold over these files. A
question with --state is answered over it, and 'hleak ask --state' begins with
it. It is not written to a terminal.

Example:
  hleak fold cpu0.hls cpu1.hls > a.hla"
            }
        }
    }
}

impl CommandOption {
    /// What help calls the value.
    pub(crate) fn value_name<'a>(self) -> &'a str {
        match self {
            CommandOption::Process
            | CommandOption::Since
            | CommandOption::AtLeast
            | CommandOption::Points
            | CommandOption::Top
            | CommandOption::Workers
            | CommandOption::Until => "N",
            CommandOption::Object | CommandOption::Handle => "HEX",
            CommandOption::Tag | CommandOption::TagOfAll => "TAG",
            CommandOption::Symbols => "FILE",
        }
    }

    /// What it is for. Of other options it names those that stand where it is typed.
    pub(crate) fn help<'a>(self, place: Place) -> &'a str {
        match self {
            CommandOption::Process => "The process: decimal, at most 4294967295",
            CommandOption::Since => {
                "\
Only handles opened after this sequence: decimal, at
most 18446744073709551615, or 'snapshot' for that of the
last snapshot of their process
[default: snapshot for diff, none for leaks and sites]"
            }
            CommandOption::AtLeast => {
                "\
Only stacks with at least N of the handles: decimal, 1
to 4294967295 [default: 1]"
            }
            CommandOption::Object => {
                "\
The object's address: 1 to 16 hexadecimal digits, with
or without 0x"
            }
            CommandOption::Tag => {
                "\
The tag: four bytes of text, as Lky8, or 0x and eight
hexadecimal digits, as 0x4c6b7938"
            }
            CommandOption::TagOfAll => match place {
                Place::Shell => {
                    "\
The stacks that used this tag, instead of tags: four
bytes of text, as Lky8, or 0x and eight hexadecimal
digits, as 0x4c6b7938; not with --all or --exit-code"
                }
                Place::Dialogue => {
                    "\
The stacks that used this tag, instead of tags: four
bytes of text, as Lky8, or 0x and eight hexadecimal
digits, as 0x4c6b7938; not with --all"
                }
            },
            CommandOption::Handle => {
                "\
The handle: 1 to 16 hexadecimal digits, with or without
0x, at most 0xffffffff; its low two bits are ignored"
            }
            CommandOption::Points => "At most N moments: decimal, 2 to 1000 [default: 20]",
            CommandOption::Top => ROWS_HELP,
            CommandOption::Symbols => "Names for addresses: CSV of start,end,module,name",
            CommandOption::Workers => "Use up to N threads: 1 to 8 [default: 1]",
            CommandOption::Until => {
                "\
Only events up to this sequence count: decimal, at most
18446744073709551615, or 'complete' for complete_to,
up to which answers are final: 0 if a processor is idle"
            }
        }
    }

    /// The rule of the value, as a refusal reports it.
    pub(crate) fn expected<'a>(self) -> &'a str {
        match self {
            CommandOption::Process => "decimal digits, at most 4294967295",
            CommandOption::Since => "decimal digits, at most 18446744073709551615, or snapshot",
            CommandOption::AtLeast => "1 to 4294967295",
            CommandOption::Object => "1 to 16 hexadecimal digits, with or without 0x",
            CommandOption::Tag | CommandOption::TagOfAll => {
                "four bytes of text, or 0x and eight hexadecimal digits"
            }
            CommandOption::Handle => {
                "1 to 16 hexadecimal digits, with or without 0x, at most 0xffffffff"
            }
            CommandOption::Points => "2 to 1000",
            CommandOption::Top => "1 to 4294967295",
            CommandOption::Symbols => "the name of a file",
            CommandOption::Workers => "1 to 8",
            CommandOption::Until => "decimal digits, at most 18446744073709551615, or complete",
        }
    }
}

impl CommandFlag {
    pub(crate) fn help<'a>(self) -> &'a str {
        match self {
            CommandFlag::All => "Also tags that balance on each object",
            CommandFlag::ExitCode => "End with status 1 where the answer finds something",
            CommandFlag::Folded => "Folded stacks, for flame graph programs",
            CommandFlag::Json => "One JSON object a line, for other programs",
            CommandFlag::Fold => {
                "\
Keep what the events come to, not the events: trace,
growth and --until are not answered then"
            }
            CommandFlag::Complete => {
                "\
Refuse segments with a gap (C8). Without a gap the last
segments of a processor may still be missing"
            }
            CommandFlag::Hex => "The files hold hexadecimal digits, not bytes",
            CommandFlag::Partial => {
                "\
Behind its whole segments a file may have bytes that
begin as a segment does; they are left out"
            }
            CommandFlag::Notes => {
                "\
Notes, and the file and the words of a fault, also where
standard error is no terminal"
            }
        }
    }
}
