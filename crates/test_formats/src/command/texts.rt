// The texts of help and of refusals, as a person reads them in a terminal of 80 columns.
use super::{fault_of, fault_of_question, text_of};
use crate::rows::assert_row;
use htl_command::ParseFault;
use std::alloc::Global;
use std::process::Abort;

const PROGRAM: &str = "\
Finds handles that were opened and never closed, and object references that
were never dropped, in trace segments. Its questions are those of the Windows
debugger's !htrace and !obtrace.

Usage: hleak <COMMAND>

Commands:
  summary      What leaks at all: processes, objects, and missing segments
  outstanding  Handles that are open, each with the stack that opened it
  diff         Handles opened since a snapshot and still open (!htrace -diff)
  tags         References and dereferences of an object, by tag (!obtrace)
  bad          References to invalid handles, by handle and stack (BAD REF)
  leaks        Stacks by how many of their handles are still open, most first
  sites        Stacks by how many of their handles are open, over all processes
  stacks       Stacks behind one tag of an object (!obtrace)
  balance      Tags that do not balance on some object, over all objects
  trace        Each open, close and bad reference of a handle (!htrace HANDLE)
  growth       How many handles are open as of each of many moments
  ask          Many questions over the same segments, a line each
  fold         Segments folded into a state, for --state and 'merge'
  explain      What a fault means, and what to do
  dump         Segments as text, to read, compare and change
  encode       The bytes of segments that are given as text
  help         Print this message or the help of the given subcommand(s)

Options:
  -h, --help     Print help
  -V, --version  Print version

Options of every question, from summary to growth:
      --until <N>       Only events up to this sequence count: decimal, at most
                        18446744073709551615, or 'complete' for complete_to,
                        up to which answers are final: 0 if a processor is idle
      --symbols <FILE>  Names for addresses: CSV of start,end,module,name
      --workers <N>     Use up to N threads: 1 to 8 [default: 1]
      --json            One JSON object a line, for other programs
      --complete        Refuse segments with a gap (C8). Without a gap the last
                        segments of a processor may still be missing
      --hex             The files hold hexadecimal digits, not bytes
      --partial         Behind its whole segments a file may have bytes that
                        begin as a segment does; they are left out
      --notes           Notes, and the file and the words of a fault, also where
                        standard error is no terminal
  [FILES]...            Trace segments; standard input where no file is given

Options of every question but trace and growth:
      --state <FILE>    The answer is over the segments of this state too, which
                        'save' or 'hleak fold' wrote, and standard input is not
                        read; may stand many times; not with --until

Exit status:
  0  done                        4  not one trace, or no event asked about
  1  found, with --exit-code     5  a read or a write failed
  2  wrong command line          6  out of memory
  3  not a segment or its text   7  not a symbol table

Examples:
  hleak summary cpu0.hls cpu1.hls
  hleak outstanding --process 4 cpu0.hls cpu1.hls
  hleak tags --object 0xffffa00000001000 --symbols names.csv cpu0.hls cpu1.hls

'hleak COMMAND --help' lists the options of a command. No argument at all stands
for 'hleak outstanding --process 4 --hex'.

tools/from-htrace and tools/from-obtrace turn logs of the debugger into text for
'hleak encode'.
";

const VERSION: &str = "\
hleak 0.1.0
";

const SUMMARY: &str = "\
What leaks at all: processes, objects, and missing segments

Usage: hleak summary [OPTIONS] [FILES]...

Arguments:
  [FILES]...  Trace segments; standard input where no file is given

Options:
      --top <N>         At most N processes and N objects: 1 to 4294967295
      --exit-code       End with status 1 where the answer finds something
      --until <N>       Only events up to this sequence count: decimal, at most
                        18446744073709551615, or 'complete' for complete_to,
                        up to which answers are final: 0 if a processor is idle
      --symbols <FILE>  Names for addresses: CSV of start,end,module,name
      --workers <N>     Use up to N threads: 1 to 8 [default: 1]
      --state <FILE>    The answer is over the segments of this state too, which
                        'save' or 'hleak fold' wrote, and standard input is not
                        read; may stand many times; not with --until
      --json            One JSON object a line, for other programs
      --complete        Refuse segments with a gap (C8). Without a gap the last
                        segments of a processor may still be missing
      --hex             The files hold hexadecimal digits, not bytes
      --partial         Behind its whole segments a file may have bytes that
                        begin as a segment does; they are left out
      --notes           Notes, and the file and the words of a fault, also where
                        standard error is no terminal
  -h, --help            Print help

With gaps=0 the last segments of a processor may still be missing. Answers are
final up to complete_to, which --until complete asks for.

Example:
  hleak summary cpu0.hls cpu1.hls
";

const OUTSTANDING: &str = "\
Handles that are open, each with the stack that opened it

Usage: hleak outstanding [OPTIONS] --process <N> [FILES]...

Arguments:
  [FILES]...  Trace segments; standard input where no file is given

Options:
      --process <N>     The process: decimal, at most 4294967295
      --top <N>         At most N rows: decimal, 1 to 4294967295
      --exit-code       End with status 1 where the answer finds something
      --until <N>       Only events up to this sequence count: decimal, at most
                        18446744073709551615, or 'complete' for complete_to,
                        up to which answers are final: 0 if a processor is idle
      --symbols <FILE>  Names for addresses: CSV of start,end,module,name
      --workers <N>     Use up to N threads: 1 to 8 [default: 1]
      --state <FILE>    The answer is over the segments of this state too, which
                        'save' or 'hleak fold' wrote, and standard input is not
                        read; may stand many times; not with --until
      --json            One JSON object a line, for other programs
      --complete        Refuse segments with a gap (C8). Without a gap the last
                        segments of a processor may still be missing
      --hex             The files hold hexadecimal digits, not bytes
      --partial         Behind its whole segments a file may have bytes that
                        begin as a segment does; they are left out
      --notes           Notes, and the file and the words of a fault, also where
                        standard error is no terminal
  -h, --help            Print help

Example:
  hleak outstanding --process 4 --symbols names.csv cpu0.hls cpu1.hls
";

const DIFF: &str = "\
Handles opened since a snapshot and still open (!htrace -diff)

Usage: hleak diff [OPTIONS] --process <N> [FILES]...

Arguments:
  [FILES]...  Trace segments; standard input where no file is given

Options:
      --process <N>     The process: decimal, at most 4294967295
      --since <N>       Only handles opened after this sequence: decimal, at
                        most 18446744073709551615, or 'snapshot' for that of the
                        last snapshot of their process
                        [default: snapshot for diff, none for leaks and sites]
      --top <N>         At most N rows: decimal, 1 to 4294967295
      --exit-code       End with status 1 where the answer finds something
      --until <N>       Only events up to this sequence count: decimal, at most
                        18446744073709551615, or 'complete' for complete_to,
                        up to which answers are final: 0 if a processor is idle
      --symbols <FILE>  Names for addresses: CSV of start,end,module,name
      --workers <N>     Use up to N threads: 1 to 8 [default: 1]
      --state <FILE>    The answer is over the segments of this state too, which
                        'save' or 'hleak fold' wrote, and standard input is not
                        read; may stand many times; not with --until
      --json            One JSON object a line, for other programs
      --complete        Refuse segments with a gap (C8). Without a gap the last
                        segments of a processor may still be missing
      --hex             The files hold hexadecimal digits, not bytes
      --partial         Behind its whole segments a file may have bytes that
                        begin as a segment does; they are left out
      --notes           Notes, and the file and the words of a fault, also where
                        standard error is no terminal
  -h, --help            Print help

Example:
  hleak diff --process 4 --since 1200 cpu0.hls cpu1.hls
";

const TAGS: &str = "\
References and dereferences of an object, by tag (!obtrace)

Usage: hleak tags [OPTIONS] --object <HEX> [FILES]...

Arguments:
  [FILES]...  Trace segments; standard input where no file is given

Options:
      --object <HEX>    The object's address: 1 to 16 hexadecimal digits, with
                        or without 0x
      --exit-code       End with status 1 where the answer finds something
      --until <N>       Only events up to this sequence count: decimal, at most
                        18446744073709551615, or 'complete' for complete_to,
                        up to which answers are final: 0 if a processor is idle
      --symbols <FILE>  Names for addresses: CSV of start,end,module,name
      --workers <N>     Use up to N threads: 1 to 8 [default: 1]
      --state <FILE>    The answer is over the segments of this state too, which
                        'save' or 'hleak fold' wrote, and standard input is not
                        read; may stand many times; not with --until
      --json            One JSON object a line, for other programs
      --complete        Refuse segments with a gap (C8). Without a gap the last
                        segments of a processor may still be missing
      --hex             The files hold hexadecimal digits, not bytes
      --partial         Behind its whole segments a file may have bytes that
                        begin as a segment does; they are left out
      --notes           Notes, and the file and the words of a fault, also where
                        standard error is no terminal
  -h, --help            Print help

Example:
  hleak tags --object 0xffffa00000001000 cpu0.hls cpu1.hls
";

const BAD: &str = "\
References to invalid handles, by handle and stack (BAD REF)

Usage: hleak bad [OPTIONS] --process <N> [FILES]...

Arguments:
  [FILES]...  Trace segments; standard input where no file is given

Options:
      --process <N>     The process: decimal, at most 4294967295
      --top <N>         At most N rows: decimal, 1 to 4294967295
      --exit-code       End with status 1 where the answer finds something
      --until <N>       Only events up to this sequence count: decimal, at most
                        18446744073709551615, or 'complete' for complete_to,
                        up to which answers are final: 0 if a processor is idle
      --symbols <FILE>  Names for addresses: CSV of start,end,module,name
      --workers <N>     Use up to N threads: 1 to 8 [default: 1]
      --state <FILE>    The answer is over the segments of this state too, which
                        'save' or 'hleak fold' wrote, and standard input is not
                        read; may stand many times; not with --until
      --json            One JSON object a line, for other programs
      --complete        Refuse segments with a gap (C8). Without a gap the last
                        segments of a processor may still be missing
      --hex             The files hold hexadecimal digits, not bytes
      --partial         Behind its whole segments a file may have bytes that
                        begin as a segment does; they are left out
      --notes           Notes, and the file and the words of a fault, also where
                        standard error is no terminal
  -h, --help            Print help

Example:
  hleak bad --process 4 --symbols names.csv cpu0.hls cpu1.hls
";

const LEAKS: &str = "\
Stacks by how many of their handles are still open, most first

Usage: hleak leaks [OPTIONS] --process <N> [FILES]...

Arguments:
  [FILES]...  Trace segments; standard input where no file is given

Options:
      --process <N>     The process: decimal, at most 4294967295
      --since <N>       Only handles opened after this sequence: decimal, at
                        most 18446744073709551615, or 'snapshot' for that of the
                        last snapshot of their process
                        [default: snapshot for diff, none for leaks and sites]
      --at-least <N>    Only stacks with at least N of the handles: decimal, 1
                        to 4294967295 [default: 1]
      --top <N>         At most N rows: decimal, 1 to 4294967295
      --exit-code       End with status 1 where the answer finds something
      --folded          Folded stacks, for flame graph programs
      --until <N>       Only events up to this sequence count: decimal, at most
                        18446744073709551615, or 'complete' for complete_to,
                        up to which answers are final: 0 if a processor is idle
      --symbols <FILE>  Names for addresses: CSV of start,end,module,name
      --workers <N>     Use up to N threads: 1 to 8 [default: 1]
      --state <FILE>    The answer is over the segments of this state too, which
                        'save' or 'hleak fold' wrote, and standard input is not
                        read; may stand many times; not with --until
      --json            One JSON object a line, for other programs
      --complete        Refuse segments with a gap (C8). Without a gap the last
                        segments of a processor may still be missing
      --hex             The files hold hexadecimal digits, not bytes
      --partial         Behind its whole segments a file may have bytes that
                        begin as a segment does; they are left out
      --notes           Notes, and the file and the words of a fault, also where
                        standard error is no terminal
  -h, --help            Print help

Example:
  hleak leaks --process 4 --workers 4 cpu0.hls cpu1.hls
";

const STACKS: &str = "\
Stacks behind one tag of an object (!obtrace)

Usage: hleak stacks [OPTIONS] --object <HEX> --tag <TAG> [FILES]...

Arguments:
  [FILES]...  Trace segments; standard input where no file is given

Options:
      --object <HEX>    The object's address: 1 to 16 hexadecimal digits, with
                        or without 0x
      --tag <TAG>       The tag: four bytes of text, as Lky8, or 0x and eight
                        hexadecimal digits, as 0x4c6b7938
      --top <N>         At most N rows: decimal, 1 to 4294967295
      --until <N>       Only events up to this sequence count: decimal, at most
                        18446744073709551615, or 'complete' for complete_to,
                        up to which answers are final: 0 if a processor is idle
      --symbols <FILE>  Names for addresses: CSV of start,end,module,name
      --workers <N>     Use up to N threads: 1 to 8 [default: 1]
      --state <FILE>    The answer is over the segments of this state too, which
                        'save' or 'hleak fold' wrote, and standard input is not
                        read; may stand many times; not with --until
      --json            One JSON object a line, for other programs
      --complete        Refuse segments with a gap (C8). Without a gap the last
                        segments of a processor may still be missing
      --hex             The files hold hexadecimal digits, not bytes
      --partial         Behind its whole segments a file may have bytes that
                        begin as a segment does; they are left out
      --notes           Notes, and the file and the words of a fault, also where
                        standard error is no terminal
  -h, --help            Print help

Example:
  hleak stacks --object 0xffffa00000001000 --tag Lky8 cpu0.hls cpu1.hls
";

const BALANCE: &str = "\
Tags that do not balance on some object, over all objects

Usage: hleak balance [OPTIONS] [FILES]...

Arguments:
  [FILES]...  Trace segments; standard input where no file is given

Options:
      --tag <TAG>       The stacks that used this tag, instead of tags: four
                        bytes of text, as Lky8, or 0x and eight hexadecimal
                        digits, as 0x4c6b7938; not with --all or --exit-code
      --top <N>         At most N rows: decimal, 1 to 4294967295
      --all             Also tags that balance on each object
      --exit-code       End with status 1 where the answer finds something
      --until <N>       Only events up to this sequence count: decimal, at most
                        18446744073709551615, or 'complete' for complete_to,
                        up to which answers are final: 0 if a processor is idle
      --symbols <FILE>  Names for addresses: CSV of start,end,module,name
      --workers <N>     Use up to N threads: 1 to 8 [default: 1]
      --state <FILE>    The answer is over the segments of this state too, which
                        'save' or 'hleak fold' wrote, and standard input is not
                        read; may stand many times; not with --until
      --json            One JSON object a line, for other programs
      --complete        Refuse segments with a gap (C8). Without a gap the last
                        segments of a processor may still be missing
      --hex             The files hold hexadecimal digits, not bytes
      --partial         Behind its whole segments a file may have bytes that
                        begin as a segment does; they are left out
      --notes           Notes, and the file and the words of a fault, also where
                        standard error is no terminal
  -h, --help            Print help

Examples:
  hleak balance cpu0.hls cpu1.hls
  hleak balance --tag Lky8 --symbols names.csv cpu0.hls cpu1.hls
";

const TRACE: &str = "\
Each open, close and bad reference of a handle (!htrace HANDLE)

Usage: hleak trace [OPTIONS] --process <N> --handle <HEX> [FILES]...

Arguments:
  [FILES]...  Trace segments; standard input where no file is given

Options:
      --process <N>     The process: decimal, at most 4294967295
      --handle <HEX>    The handle: 1 to 16 hexadecimal digits, with or without
                        0x, at most 0xffffffff; its low two bits are ignored
      --top <N>         At most N rows: decimal, 1 to 4294967295
      --until <N>       Only events up to this sequence count: decimal, at most
                        18446744073709551615, or 'complete' for complete_to,
                        up to which answers are final: 0 if a processor is idle
      --symbols <FILE>  Names for addresses: CSV of start,end,module,name
      --workers <N>     Use up to N threads: 1 to 8 [default: 1]
      --json            One JSON object a line, for other programs
      --complete        Refuse segments with a gap (C8). Without a gap the last
                        segments of a processor may still be missing
      --hex             The files hold hexadecimal digits, not bytes
      --partial         Behind its whole segments a file may have bytes that
                        begin as a segment does; they are left out
      --notes           Notes, and the file and the words of a fault, also where
                        standard error is no terminal
  -h, --help            Print help

Example:
  hleak trace --process 4 --handle 0x44 cpu0.hls cpu1.hls
";

const GROWTH: &str = "\
How many handles are open as of each of many moments

Usage: hleak growth [OPTIONS] --process <N> [FILES]...

Arguments:
  [FILES]...  Trace segments; standard input where no file is given

Options:
      --process <N>     The process: decimal, at most 4294967295
      --points <N>      At most N moments: decimal, 2 to 1000 [default: 20]
      --until <N>       Only events up to this sequence count: decimal, at most
                        18446744073709551615, or 'complete' for complete_to,
                        up to which answers are final: 0 if a processor is idle
      --symbols <FILE>  Names for addresses: CSV of start,end,module,name
      --workers <N>     Use up to N threads: 1 to 8 [default: 1]
      --json            One JSON object a line, for other programs
      --complete        Refuse segments with a gap (C8). Without a gap the last
                        segments of a processor may still be missing
      --hex             The files hold hexadecimal digits, not bytes
      --partial         Behind its whole segments a file may have bytes that
                        begin as a segment does; they are left out
      --notes           Notes, and the file and the words of a fault, also where
                        standard error is no terminal
  -h, --help            Print help

Example:
  hleak growth --process 4 --points 50 cpu0.hls cpu1.hls
";

const ASK: &str = "\
Many questions over the same segments, a line each

Usage: hleak ask [OPTIONS] [FILES]...

Arguments:
  [FILES]...  Trace segments; they may be left out with --state

Options:
      --symbols <FILE>  Names for addresses: CSV of start,end,module,name
      --workers <N>     Use up to N threads: 1 to 8 [default: 1]
      --state <FILE>    Begin with this state, which 'save' or 'hleak fold'
                        wrote, and fold, as with --fold; may stand many times
      --fold            Keep what the events come to, not the events: trace,
                        growth and --until are not answered then
      --complete        Refuse segments with a gap (C8). Without a gap the last
                        segments of a processor may still be missing
      --hex             The files hold hexadecimal digits, not bytes
      --partial         Behind its whole segments a file may have bytes that
                        begin as a segment does; they are left out
      --notes           Notes, and the file and the words of a fault, also where
                        standard error is no terminal
  -h, --help            Print help

Each line of standard input is a question with its options, as
'leaks --process 4 --top 5'. An argument with blanks stands in double quotes.
The answer is written with an empty line after it. 'read FILE ..' reads more
segments, and replies how many; answers are final up to its complete_to.
'use N' names the process of questions without --process. With --fold
'save FILE' saves what was read, and 'merge FILE' merges such a state. Any other
line gets the empty line alone, and status 2 at the end. One without an argument
(blanks, \"\") gets no reply. 'quit' ends.

Examples:
  hleak ask --symbols names.csv cpu0.hls cpu1.hls
  hleak ask --state a.hla cpu2.hls
";

const FOLD: &str = "\
Segments folded into a state, for --state and 'merge'

Usage: hleak fold [OPTIONS] [FILES]...

Arguments:
  [FILES]...  Trace segments; standard input where no file is given

Options:
      --workers <N>  Use up to N threads: 1 to 8 [default: 1]
      --complete     Refuse segments with a gap (C8). Without a gap the last
                     segments of a processor may still be missing
      --hex          The files hold hexadecimal digits, not bytes
      --partial      Behind its whole segments a file may have bytes that
                     begin as a segment does; they are left out
      --notes        Notes, and the file and the words of a fault, also where
                     standard error is no terminal
  -h, --help         Print help

The state is what 'save' writes in a dialogue with --fold over these files. A
question with --state is answered over it, and 'hleak ask --state' begins with
it. It is not written to a terminal.

Example:
  hleak fold cpu0.hls cpu1.hls > a.hla
";

const EXPLAIN: &str = "\
What a fault means, and what to do

Usage: hleak explain [OPTIONS] <CODE>

Arguments:
  <CODE>  The code of a fault, as S10 or 'C8(0, 2)', or its whole line

Options:
      --notes  Notes, and the file and the words of a fault, also where
               standard error is no terminal
  -h, --help   Print help

Example:
  hleak explain S10
";

const DUMP: &str = "\
Segments as text, to read, compare and change

Usage: hleak dump [OPTIONS] [FILES]...

Arguments:
  [FILES]...  Trace segments; standard input where no file is given

Options:
      --hex      The files hold hexadecimal digits, not bytes
      --partial  Behind its whole segments a file may have bytes that
                 begin as a segment does; they are left out
      --notes    Notes, and the file and the words of a fault, also where
                 standard error is no terminal
  -h, --help     Print help

Example:
  hleak dump cpu0.hls > cpu0.txt
";

const ENCODE: &str = "\
The bytes of segments that are given as text

Usage: hleak encode [OPTIONS] [FILES]...

Arguments:
  [FILES]...  Texts of segments; standard input where no file is given

Options:
      --hex    Write hexadecimal digits, not bytes
      --notes  Notes, and the file and the words of a fault, also where
               standard error is no terminal
  -h, --help   Print help

Bytes are not written to a terminal.

Example:
  hleak encode cpu0.txt > cpu0.hls
";

/// What `help` shows in a dialogue.
const DIALOGUE: &str = "\
A line is a question over the segments that were read.

Usage: <COMMAND> [OPTIONS]

Commands:
  summary      What leaks at all: processes, objects, and missing segments
  outstanding  Handles that are open, each with the stack that opened it
  diff         Handles opened since a snapshot and still open (!htrace -diff)
  tags         References and dereferences of an object, by tag (!obtrace)
  bad          References to invalid handles, by handle and stack (BAD REF)
  leaks        Stacks by how many of their handles are still open, most first
  sites        Stacks by how many of their handles are open, over all processes
  stacks       Stacks behind one tag of an object (!obtrace)
  balance      Tags that do not balance on some object, over all objects
  trace        Each open, close and bad reference of a handle (!htrace HANDLE)
  growth       How many handles are open as of each of many moments
  help         Print this message or the help of the given subcommand(s)

Options:
  -h, --help     Print help
  -V, --version  Print version

Other lines:
  read FILE ..  Read more segments; a name that begins with '-' follows '--'
  merge FILE    Merge a saved state of the same trace, with --fold
  save FILE     Save the state of what was read, with --fold
  use N         Use process N in questions without --process; none to use none
  quit          End the dialogue, as exit and q do

Options of every question:
      --until <N>  Only events up to this sequence count: decimal, at most
                   18446744073709551615, or 'complete' for complete_to,
                   up to which answers are final: 0 if a processor is idle
      --json       One JSON object a line, for other programs

'COMMAND --help' lists the options of a question. 'help read', 'help merge',
'help save', 'help use' and 'help quit' say more of other lines. An argument
with blanks stands in double quotes.

With --fold no line asks for 'trace', 'growth' or '--until'.
";

/// What `leaks --help` shows in a dialogue.
const DIALOGUE_LEAKS: &str = "\
Stacks by how many of their handles are still open, most first

Usage: leaks [OPTIONS] --process <N>

Options:
      --process <N>   The process: decimal, at most 4294967295
      --since <N>     Only handles opened after this sequence: decimal, at
                      most 18446744073709551615, or 'snapshot' for that of the
                      last snapshot of their process
                      [default: snapshot for diff, none for leaks and sites]
      --at-least <N>  Only stacks with at least N of the handles: decimal, 1
                      to 4294967295 [default: 1]
      --top <N>       At most N rows: decimal, 1 to 4294967295
      --folded        Folded stacks, for flame graph programs
      --until <N>     Only events up to this sequence count: decimal, at most
                      18446744073709551615, or 'complete' for complete_to,
                      up to which answers are final: 0 if a processor is idle
      --json          One JSON object a line, for other programs
  -h, --help          Print help
";

/// What `balance --help` shows in a dialogue.
const DIALOGUE_BALANCE: &str = "\
Tags that do not balance on some object, over all objects

Usage: balance [OPTIONS]

Options:
      --tag <TAG>  The stacks that used this tag, instead of tags: four
                   bytes of text, as Lky8, or 0x and eight hexadecimal
                   digits, as 0x4c6b7938; not with --all
      --top <N>    At most N rows: decimal, 1 to 4294967295
      --all        Also tags that balance on each object
      --until <N>  Only events up to this sequence count: decimal, at most
                   18446744073709551615, or 'complete' for complete_to,
                   up to which answers are final: 0 if a processor is idle
      --json       One JSON object a line, for other programs
  -h, --help       Print help
";

const CODE: &str = "\
error: invalid value 'S18' for '<CODE>'
  [expected: S1 to S17, H1 to H3, F1 to F17, C1 to C10, Y1 to Y7, E1 or E2]

For more information, try 'hleak explain --help'.
";

const VALUE: &str = "\
error: invalid value '100000000' for '--handle <HEX>'
  [expected: 1 to 16 hexadecimal digits, with or without 0x, at most 0xffffffff]

For more information, try 'hleak trace --help'.
";

const MOMENT: &str = "\
error: invalid value '0x4b0' for '--until <N>'
  [expected: decimal digits, at most 18446744073709551615, or complete]

  tip: 0x4b0 is 1200

For more information, try 'hleak growth --help'.
";

const DIALOGUE_VALUE: &str = "\
error: invalid value 'complete' for '--since <N>'
  [expected: decimal digits, at most 18446744073709551615, or snapshot]

For more information, try 'leaks --help'.
";

const TAG_AND_ALL: &str = "\
error: the argument '--tag <TAG>' cannot be used with '--all'

For more information, try 'hleak balance --help'.
";

const TRACE_OF_STATE: &str = "\
error: the argument '--state <FILE>' cannot be used with 'trace'

For more information, try 'hleak trace --help'.
";

const MOMENT_OF_STATE: &str = "\
error: the argument '--until <N>' cannot be used with '--state <FILE>'

For more information, try 'hleak leaks --help'.
";

const DIALOGUE_TAG_AND_ALL: &str = "\
error: the argument '--tag <TAG>' cannot be used with '--all'

For more information, try 'balance --help'.
";

const DIALOGUE_OPTION: &str = "\
error: unexpected argument '-x' found

Usage: leaks [OPTIONS] --process <N>

For more information, try '--help'.
";

const DIALOGUE_MISSPELT: &str = "\
error: unexpected argument '--proces' found

  tip: a similar argument exists: '--process'

Usage: leaks --process <N>

For more information, try '--help'.
";

const DIALOGUE_COMMAND: &str = "\
error: unrecognized subcommand 'leak'

  tip: a similar subcommand exists: 'leaks'

Usage: <COMMAND> [OPTIONS]

For more information, try '--help'.
";

const DIALOGUE_SHORT: &str = "\
error: unrecognized subcommand 'sum'

  tip: a question is written in full: 'summary'

Usage: <COMMAND> [OPTIONS]

For more information, try '--help'.
";

const DIALOGUE_WORD: &str = "\
error: unrecognized subcommand 'quti'

  tip: a line is a question, or 'read', 'merge', 'save', 'use' or 'quit', as
  'help' says

Usage: <COMMAND> [OPTIONS]

For more information, try '--help'.
";

const DIALOGUE_FILE: &str = "\
error: unrecognized subcommand 'a.hls'

  tip: did you mean 'read a.hls'?

Usage: <COMMAND> [OPTIONS]

For more information, try '--help'.
";

const DIALOGUE_NOTES: &str = "\
error: a line is a question with its own options

  tip: files, --symbols, --workers, --state, --fold, --complete, --hex,
  --partial and --notes stand after 'hleak ask'; --exit-code is for a run of
  its own

For more information, try 'help'.
";

const DIALOGUE_OTHER: &str = "\
error: a line is a question, or 'read', 'merge', 'save', 'use' or 'quit'

  tip: ask, fold, explain, dump and encode are commands of their own

For more information, try 'help'.
";

const HEXADECIMAL: &str = "\
error: invalid value '0x4b0' for '--process <N>'
  [expected: decimal digits, at most 4294967295]

  tip: 0x4b0 is 1200

For more information, try 'hleak leaks --help'.
";

const BACKQUOTED: &str = "\
error: invalid value 'ffffa000`00001000' for '--object <HEX>'
  [expected: 1 to 16 hexadecimal digits, with or without 0x]

  tip: write ffffa00000001000

For more information, try 'hleak tags --help'.
";

const CAPITAL: &str = "\
error: invalid value '0X44' for '--handle <HEX>'
  [expected: 1 to 16 hexadecimal digits, with or without 0x, at most 0xffffffff]

  tip: write 0x44

For more information, try 'hleak trace --help'.
";

const NO_COMMAND: &str = "\
error: unrecognized subcommand 'a.hls'

  tip: did you mean 'hleak summary a.hls'?

Usage: hleak <COMMAND>

For more information, try '--help'.
";

const OPTION_FIRST: &str = "\
error: unexpected argument '--hex' found

  tip: options stand behind a command, as in 'leaks --process 4'

Usage: hleak --help <COMMAND>

For more information, try '--help'.
";

const VERSION_BEHIND: &str = "\
error: unexpected argument '-V' found

  tip: --version stands alone, without a command

Usage: hleak summary [OPTIONS] [FILES]...

For more information, try '--help'.
";

const NO_QUOTES: &str = "\
error: unexpected argument 'case:' found

  tip: a line with blanks stands in quotes

Usage: hleak explain [OPTIONS] <CODE>

For more information, try '--help'.
";

const MISSPELT_COMMAND: &str = "\
error: unrecognized subcommand 'outstandin'

  tip: a similar subcommand exists: 'outstanding'

Usage: hleak <COMMAND>

For more information, try '--help'.
";

const MISSPELT_OPTION: &str = "\
error: unexpected argument '--proces' found

  tip: a similar argument exists: '--process'

Usage: hleak bad --process <N> [FILES]...

For more information, try '--help'.
";

const MISSING_OPTION: &str = "\
error: the following required arguments were not provided:
  --process <N>

Usage: hleak diff --process <N> [FILES]...

For more information, try '--help'.
";

const NO_INPUTS: &str = "\
error: the following required arguments were not provided:
  <FILES>... or --state <FILE>

For more information, try 'hleak ask --help'.
";

const SEPARATED_VALUE: &str = "\
error: unexpected argument '-a' found

  tip: a value that begins with '-' follows '=', as in '--tag=-abc'

Usage: hleak stacks [OPTIONS] --object <HEX> --tag <TAG> [FILES]...

For more information, try '--help'.
";

const SEPARATED_TAG: &str = "\
error: unexpected argument '-a' found

  tip: a value that begins with '-' follows '=', as in '--tag=-abc'

Usage: hleak balance [OPTIONS] [FILES]...

For more information, try '--help'.
";

const SEPARATED_NUMBER: &str = "\
error: unexpected argument '-4' found

Usage: hleak leaks [OPTIONS] --process <N> [FILES]...

For more information, try '--help'.
";

const OTHER_OPTION: &str = "\
error: unexpected argument '--since' found

  tip: --since is an option of diff, leaks, sites

Usage: hleak bad --process <N> [FILES]...

For more information, try '--help'.
";

const OTHER_TAG: &str = "\
error: unexpected argument '--tag' found

  tip: --tag is an option of stacks, balance

Usage: hleak tags --object <HEX> [FILES]...

For more information, try '--help'.
";

const SEPARATED_FILE: &str = "\
error: unexpected argument '-x' found

  tip: to pass '-x' as a value, use '-- -x'

Usage: hleak leaks [OPTIONS] --process <N> [FILES]...

For more information, try '--help'.
";

/// No tip takes `--fold` of a dialogue and `--folded` of a question for each other.
const FOLDED_DIALOGUE: &str = "\
error: unexpected argument '--folded' found

  tip: --folded is an option of leaks, sites

Usage: hleak ask --fold [FILES]...

For more information, try '--help'.
";

const FOLDING_QUESTION: &str = "\
error: unexpected argument '--fold' found

  tip: --fold is an option of ask

Usage: hleak leaks --process <N> --folded [FILES]...

For more information, try '--help'.
";

/// A word that is like one of them alone still has its tip.
const MISSPELT_FOLD: &str = "\
error: unexpected argument '--fol' found

  tip: a similar argument exists: '--fold'

Usage: hleak ask --fold [FILES]...

For more information, try '--help'.
";

const OTHER_STATE: &str = "\
error: unexpected argument '--state' found

  tip: --state is an option of questions and of ask

Usage: hleak fold [OPTIONS] [FILES]...

For more information, try '--help'.
";

const DIALOGUE_FOLD: &str = "\
error: unexpected argument '--fold' found

  tip: --fold is an option of ask

Usage: leaks --process <N> --folded

For more information, try '--help'.
";

/// Lines that ask for help, and what they are answered.
const HELP: &[(&str, &str)] = &[
    ("--help", PROGRAM),
    ("--version", VERSION),
    ("summary|--help", SUMMARY),
    ("outstanding|--help", OUTSTANDING),
    ("diff|--help", DIFF),
    ("tags|--help", TAGS),
    ("bad|--help", BAD),
    ("leaks|--help", LEAKS),
    ("stacks|--help", STACKS),
    ("balance|--help", BALANCE),
    ("trace|--help", TRACE),
    ("growth|--help", GROWTH),
    ("ask|--help", ASK),
    ("fold|--help", FOLD),
    ("explain|--help", EXPLAIN),
    ("dump|--help", DUMP),
    ("encode|--help", ENCODE),
    ("-h", PROGRAM),
    ("help|diff", DIFF),
    ("diff|--process|4|--help", DIFF),
];

/// Lines that are refused, and what they are answered.
const USAGE: &[(&str, &str)] = &[
    ("trace|--process|4|--handle|100000000", VALUE),
    ("explain|S18", CODE),
    ("outstandin", MISSPELT_COMMAND),
    ("bad|--proces|4", MISSPELT_OPTION),
    ("diff", MISSING_OPTION),
    ("ask|--fold", NO_INPUTS),
    ("stacks|--object|1|--tag|-abc", SEPARATED_VALUE),
    ("balance|--tag|-abc", SEPARATED_TAG),
    ("balance|--all|--tag|Lky8", TAG_AND_ALL),
    (
        "trace|--process|4|--handle|44|--state|a.hla",
        TRACE_OF_STATE,
    ),
    (
        "leaks|--process|4|--state|a.hla|--until|complete",
        MOMENT_OF_STATE,
    ),
    ("leaks|--process|0x4b0", HEXADECIMAL),
    ("growth|--process|4|--until|0x4b0", MOMENT),
    ("tags|--object|ffffa000`00001000", BACKQUOTED),
    ("leaks|--process|-4", SEPARATED_NUMBER),
    ("leaks|--process|4|--until|-4", SEPARATED_NUMBER),
    ("leaks|--process|4|--at-least|-4", SEPARATED_NUMBER),
    ("bad|--process|4|--since|4", OTHER_OPTION),
    ("tags|--object|1|--tag|Lky8", OTHER_TAG),
    ("leaks|--process|4|-x", SEPARATED_FILE),
    ("ask|--folded|a.hls", FOLDED_DIALOGUE),
    ("leaks|--process|4|--fold", FOLDING_QUESTION),
    ("ask|--fol|a.hls", MISSPELT_FOLD),
    ("fold|--state|a.hla", OTHER_STATE),
    ("trace|--process|4|--handle|0X44", CAPITAL),
    ("a.hls", NO_COMMAND),
    ("--hex|a.hls", OPTION_FIRST),
    ("summary|-V", VERSION_BEHIND),
    ("explain|hleak:|case:|C1", NO_QUOTES),
];

/// Lines of a dialogue that ask for help, and what they are answered.
const DIALOGUE_HELP: &[(&str, &str)] = &[
    ("help", DIALOGUE),
    ("--help", DIALOGUE),
    ("leaks|--help", DIALOGUE_LEAKS),
    ("help|leaks", DIALOGUE_LEAKS),
    ("balance|--help", DIALOGUE_BALANCE),
];

/// Lines that are refused in a dialogue, and what they are answered.
const DIALOGUE_USAGE: &[(&str, &str)] = &[
    ("leaks|--process|4|--since|complete", DIALOGUE_VALUE),
    ("balance|--tag|Lky8|--all", DIALOGUE_TAG_AND_ALL),
    ("leaks|--process|4|-x", DIALOGUE_OPTION),
    ("leaks|--proces|4", DIALOGUE_MISSPELT),
    ("leak|--process|4", DIALOGUE_COMMAND),
    ("leaks|--process|4|--notes", DIALOGUE_NOTES),
    ("explain|S10", DIALOGUE_OTHER),
    ("ask", DIALOGUE_OTHER),
    ("fold|a.hls", DIALOGUE_OTHER),
    ("sum", DIALOGUE_SHORT),
    ("quti", DIALOGUE_WORD),
    ("a.hls", DIALOGUE_FILE),
    ("leaks|--process|4|--fold", DIALOGUE_FOLD),
];

/// Each line fits into 80 columns.
fn fits(text: &str) -> bool {
    text.lines().all(|line| line.chars().count() <= 80)
}

/// The line's fault has this status and this text, which fits.
pub fn has_text(
    rt: &impl Abort,
    alloc: Global,
    line: &str,
    fault: &ParseFault,
    wanted: (u8, &str),
) {
    let found = text_of(rt, alloc, fault);
    assert_row(rt, line, (fault.status(), found.as_str()), wanted);
    assert!(rt; fits(wanted.1), "of {line}");
}

#[test]
fn help_is_shown(rt: HostRuntime) {
    for (line, help) in HELP {
        let fault = fault_of(&rt, rt.alloc(), line);
        has_text(&rt, rt.alloc(), line, &fault, (0, help));
        assert!(rt; matches!(fault, ParseFault::Help(_)), "of {line}");
    }
}

#[test]
fn refusals_say_what_is_wrong(rt: HostRuntime) {
    for (line, usage) in USAGE {
        let fault = fault_of(&rt, rt.alloc(), line);
        has_text(&rt, rt.alloc(), line, &fault, (2, usage));
        assert!(rt; matches!(fault, ParseFault::Usage(_)), "of {line}");
    }
}

#[test]
fn a_dialogue_has_its_own_help(rt: HostRuntime) {
    for (line, help) in DIALOGUE_HELP {
        let fault = fault_of_question(&rt, rt.alloc(), line);
        has_text(&rt, rt.alloc(), line, &fault, (0, help));
    }
    for (line, usage) in DIALOGUE_USAGE {
        let fault = fault_of_question(&rt, rt.alloc(), line);
        has_text(&rt, rt.alloc(), line, &fault, (2, usage));
    }
}

#[test]
fn want_of_memory_has_a_line(rt: HostRuntime) {
    assert_eq!(rt; ParseFault::Memory.status(), 6);
    let text = text_of(&rt, rt.alloc(), &ParseFault::Memory);
    assert!(rt; text.as_str() == "hleak: out of memory");
}
