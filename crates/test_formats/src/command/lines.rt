// What a line asks for, and which lines are refused.
use super::{fault_of, text_of, words};
use crate::rows::assert_row;
use htl_command::{
    Code, Command, CommandLine, Dialogue, Format, InputForm, Job, Moment, ParseFault, Parts,
    PrintedFault, Question, Run, Setting, Since, parse, parse_question,
};
use htl_segment::{Fault, HexFault};
use htl_symbols::SymbolFault;
use htl_text::{Field, FormFault};
use std::alloc::Global;
use std::fmt;
use std::process::Abort;

/// Inputs of bytes, of digits, and those that may end within a segment.
const BYTES: InputForm = InputForm {
    hex: false,
    partial: false,
};

const DIGITS: InputForm = InputForm {
    hex: true,
    partial: false,
};

const PARTIAL: InputForm = InputForm {
    hex: false,
    partial: true,
};

const PARTIAL_DIGITS: InputForm = InputForm {
    hex: true,
    partial: true,
};

/// Lines and their questions.
const QUESTIONS: &[(&str, Question)] = &[
    ("summary", Question::Summary),
    ("summary|a.hls", Question::Summary),
    (
        "outstanding|--process|4",
        Question::Outstanding { process: 4 },
    ),
    ("bad|--process|4", Question::Bad { process: 4 }),
    (
        "leaks|--process|4",
        Question::Leaks {
            process: 4,
            since: None,
            at_least: 1,
        },
    ),
    (
        "leaks|--process|4|--since|5|--at-least|2",
        Question::Leaks {
            process: 4,
            since: Some(Since::Sequence(5)),
            at_least: 2,
        },
    ),
    (
        "leaks|--process|4|--since|snapshot|--at-least|4294967295",
        Question::Leaks {
            process: 4,
            since: Some(Since::Snapshot),
            at_least: 0xffff_ffff,
        },
    ),
    (
        "sites",
        Question::Sites {
            since: None,
            at_least: 1,
        },
    ),
    (
        "sites|--at-least|2|--since|snapshot",
        Question::Sites {
            since: Some(Since::Snapshot),
            at_least: 2,
        },
    ),
    (
        "diff|--process|4",
        Question::Diff {
            process: 4,
            since: Since::Snapshot,
        },
    ),
    (
        "diff|--process|4|--since|snapshot",
        Question::Diff {
            process: 4,
            since: Since::Snapshot,
        },
    ),
    (
        "diff|--process|4|--since|5",
        Question::Diff {
            process: 4,
            since: Since::Sequence(5),
        },
    ),
    (
        "growth|--process|4",
        Question::Growth {
            process: 4,
            points: 20,
        },
    ),
    (
        "growth|--process|4|--points|2",
        Question::Growth {
            process: 4,
            points: 2,
        },
    ),
    (
        "growth|--points=1000|--process|4|a.hls",
        Question::Growth {
            process: 4,
            points: 1000,
        },
    ),
    ("tags|--object|ff", Question::Tags { object: 0xff }),
    (
        "stacks|--object|ff|--tag|Lky8",
        Question::Stacks {
            object: 0xff,
            tag: *b"Lky8",
        },
    ),
    ("balance", Question::Balance { all: false }),
    ("balance|a.hls|--all", Question::Balance { all: true }),
    ("balance|--tag|Lky8", Question::TagStacks { tag: *b"Lky8" }),
    (
        "trace|--process|4|--handle|44",
        Question::Trace {
            process: 4,
            handle: 0x44,
        },
    ),
    // the least and the greatest of each kind
    ("bad|--process|0", Question::Bad { process: 0 }),
    (
        "bad|--process|4294967295",
        Question::Bad {
            process: 0xffff_ffff,
        },
    ),
    (
        "bad|--process|0000000000000000000000004",
        Question::Bad { process: 4 },
    ),
    (
        "diff|--process|4|--since|0",
        Question::Diff {
            process: 4,
            since: Since::Sequence(0),
        },
    ),
    (
        "diff|--process|4|--since|18446744073709551615",
        Question::Diff {
            process: 4,
            since: Since::Sequence(u64::MAX),
        },
    ),
    (
        "trace|--process|4|--handle|0x44",
        Question::Trace {
            process: 4,
            handle: 0x44,
        },
    ),
    (
        "trace|--process|4|--handle|0",
        Question::Trace {
            process: 4,
            handle: 0,
        },
    ),
    (
        "trace|--process|4|--handle|FFFFFFFF",
        Question::Trace {
            process: 4,
            handle: 0xffff_ffff,
        },
    ),
    ("tags|--object|0", Question::Tags { object: 0 }),
    (
        "tags|--object|0xffffA00000001000",
        Question::Tags {
            object: 0xffff_a000_0000_1000,
        },
    ),
    (
        "tags|--object|ffffffffffffffff",
        Question::Tags { object: u64::MAX },
    ),
    // a tag: four bytes, or eight digits in the order of the bytes
    (
        "stacks|--object|1|--tag|0x4c6b7938",
        Question::Stacks {
            object: 1,
            tag: *b"Lky8",
        },
    ),
    (
        "stacks|--object|1|--tag|0x41",
        Question::Stacks {
            object: 1,
            tag: *b"0x41",
        },
    ),
    (
        "stacks|--object|1|--tag|0x00FF00ff",
        Question::Stacks {
            object: 1,
            tag: [0, 0xff, 0, 0xff],
        },
    ),
    (
        "stacks|--object|1|--tag|éü",
        Question::Stacks {
            object: 1,
            tag: [0xc3, 0xa9, 0xc3, 0xbc],
        },
    ),
    (
        "balance|--tag|0x4c6b7938",
        Question::TagStacks { tag: *b"Lky8" },
    ),
    // other ways to write a line
    ("bad|--process=4", Question::Bad { process: 4 }),
    ("bad|a.hls|--process|4|b.hls", Question::Bad { process: 4 }),
    (
        "stacks|--object|1|--tag=-abc",
        Question::Stacks {
            object: 1,
            tag: *b"-abc",
        },
    ),
    ("balance|--tag=-abc", Question::TagStacks { tag: *b"-abc" }),
    (
        "trace|--handle|44|--process|4",
        Question::Trace {
            process: 4,
            handle: 0x44,
        },
    ),
];

/// Lines with the options that every question has.
const OPTIONS: &[(&str, InputForm, u32, &[&str], Option<&str>)] = &[
    ("summary|--workers|4|a.hls", BYTES, 4, &["a.hls"], None),
    ("bad|--process|4", BYTES, 1, &[], None),
    ("bad|--process|4|--hex", DIGITS, 1, &[], None),
    ("bad|--process|4|--partial", PARTIAL, 1, &[], None),
    ("bad|--process|4|--workers|1", BYTES, 1, &[], None),
    ("bad|--process|4|--workers|8", BYTES, 8, &[], None),
    (
        "bad|--process|4|a.hls|b.hls|a.hls",
        BYTES,
        1,
        &["a.hls", "b.hls", "a.hls"],
        None,
    ),
    (
        "bad|--process|4|--symbols|names.csv|-",
        BYTES,
        1,
        &["-"],
        Some("names.csv"),
    ),
    (
        "bad|a.hls|--hex|b.hls|--workers|2|--process|4|--symbols|",
        DIGITS,
        2,
        &["a.hls", "b.hls"],
        Some(""),
    ),
    (
        "bad|--process|4|--|--hex|--|-x",
        BYTES,
        1,
        &["--hex", "--", "-x"],
        None,
    ),
];

/// Lines that are asked of saved states: these, and the files.
const OVER_STATES: &[(&str, &[&str], &[&str])] = &[
    ("leaks|--process|4|--state|a.hla", &["a.hla"], &[]),
    (
        "sites|--state=b.hla|a.hls|--state|a.hla|--workers|2|--state|b.hla|--|--state",
        &["b.hla", "a.hla", "b.hla"],
        &["a.hls", "--state"],
    ),
];

/// Lines that want so many rows at most.
const TOPS: &[(&str, Option<u32>)] = &[
    ("summary", None),
    ("tags|--object|1", None),
    ("summary|--top|1", Some(1)),
    ("outstanding|--process|4|--top|4294967295", Some(u32::MAX)),
    ("diff|--process|4|--since|5|--top|10", Some(10)),
    ("bad|--top|10|--process|4", Some(10)),
    ("leaks|--process|4|--top=005", Some(5)),
    ("stacks|--object|1|--tag|Lky8|--top|2", Some(2)),
    ("balance|--top|2|--all", Some(2)),
    ("balance|--tag|Lky8|--top|3", Some(3)),
    ("trace|--process|4|--handle|44|--top|3|a.hls", Some(3)),
];

/// Lines that want events up to a moment.
const MOMENTS: &[(&str, Option<Moment>)] = &[
    ("summary", None),
    ("summary|--until|0", Some(Moment::Sequence(0))),
    ("tags|--object|1|--until|complete", Some(Moment::Complete)),
    ("balance|--until|77", Some(Moment::Sequence(77))),
    (
        "growth|--until|18446744073709551615|--process|4",
        Some(Moment::Sequence(u64::MAX)),
    ),
    (
        "diff|--process|4|--since|5|--until=012|a.hls",
        Some(Moment::Sequence(12)),
    ),
];

/// Lines of each command, and whether they want notes.
const NOTES: &[(&str, bool)] = &[
    ("summary", false),
    ("summary|--notes", true),
    ("growth|--process|4|--notes|a.hls", true),
    ("explain|C9|--notes", true),
    ("explain|C9", false),
    ("dump|--notes|--hex", true),
    ("encode|a.txt|--notes", true),
    ("ask|a.hls|--notes", true),
    ("ask|a.hls", false),
    ("fold|--notes", true),
    ("bad|--process|4|--|--notes", false),
];

/// Lines that want a complete trace, and the exit status to say what was found.
const CHECKS: &[(&str, bool, bool)] = &[
    ("summary|--exit-code", false, true),
    ("outstanding|--exit-code|--process|4", false, true),
    ("diff|--process|4|a.hls|--exit-code", false, true),
    ("tags|--object|1|--exit-code|--complete", true, true),
    ("bad|--process|4|--exit-code", false, true),
    ("leaks|--complete|--process|4|--exit-code", true, true),
    ("stacks|--object|1|--tag|Lky8|--complete", true, false),
    ("balance|--exit-code|--all", false, true),
    ("balance|--tag|Lky8|--complete", true, false),
    ("trace|--process|4|--handle|44|--complete", true, false),
];

/// Lines that want an answer in another form.
const FORMATS: &[(&str, Format)] = &[
    ("summary|--json", Format::Json),
    ("tags|--json|--object|1|--exit-code", Format::Json),
    ("trace|--process|4|--handle|44|a.hls|--json", Format::Json),
    ("balance|--json|--exit-code", Format::Json),
    ("balance|--tag|Lky8|--json", Format::Json),
    ("leaks|--process|4|--folded|--top|5", Format::Folded),
    ("leaks|--process|4", Format::Plain),
];

/// Lines that ask what a fault means.
const EXPLAINED: &[(&str, Code, Parts)] = &[
    ("explain|S1", Code::S1, Parts::Nothing),
    ("explain|C7", Code::C7, Parts::Nothing),
    ("explain|c9", Code::C9, Parts::Nothing),
    ("explain|--|S17", Code::S17, Parts::Nothing),
    ("explain|e2", Code::E2, Parts::Nothing),
    ("explain|S12(1)", Code::S12, Parts::Number(1)),
    ("explain|h1(0)", Code::H1, Parts::Number(0)),
    (
        "explain|C5(18446744073709551615)",
        Code::C5,
        Parts::Number(u64::MAX),
    ),
    ("explain|Y6(007)", Code::Y6, Parts::Number(7)),
    ("explain|C4(0, 3)", Code::C4, Parts::Numbers(0, 3)),
    ("explain|C4 (0, 3)", Code::C4, Parts::Numbers(0, 3)),
    ("explain| C4(0,3) ", Code::C4, Parts::Numbers(0, 3)),
    (
        "explain|hleak: case: C4(0, 3)",
        Code::C4,
        Parts::Numbers(0, 3),
    ),
    (
        "explain|hleak: input 0, offset 0: S12(1)\r\n",
        Code::S12,
        Parts::Number(1),
    ),
    ("explain|hleak: case: C1", Code::C1, Parts::Nothing),
    ("explain|c8(0,2)", Code::C8, Parts::Numbers(0, 2)),
    ("explain|f16", Code::F16, Parts::Nothing),
    (
        "explain|hleak: state 0, offset 92: F10",
        Code::F10,
        Parts::Nothing,
    ),
    (
        "explain|hleak: state 0: F17(255)",
        Code::F17,
        Parts::Number(255),
    ),
    ("explain|E1", Code::E1, Parts::Nothing),
    ("explain|E1(process)", Code::E1, Parts::Field("process")),
    ("explain|e1(seq)", Code::E1, Parts::Field("seq")),
];

/// The fields that a fault of a line may name.
const FIELDS: &[Field] = &[
    Field::Version,
    Field::Trace,
    Field::Processors,
    Field::Processor,
    Field::Number,
    Field::Handle,
    Field::Object,
    Field::Tag,
    Field::Sequence,
    Field::Process,
    Field::Thread,
    Field::Frame,
];

/// Lines that want the text of segments: how the files hold them, and the files.
const DUMPED: &[(&str, InputForm, &[&str])] = &[
    ("dump", BYTES, &[]),
    ("dump|--hex|a.hls|b.hls", DIGITS, &["a.hls", "b.hls"]),
    ("dump|a.hls|--partial|--hex", PARTIAL_DIGITS, &["a.hls"]),
];

/// Lines that want the segments of a text: whether as digits, and the files.
const ENCODED: &[(&str, bool, &[&str])] = &[
    ("encode|a.txt", false, &["a.txt"]),
    ("encode|a.txt|--hex|--|-b.txt", true, &["a.txt", "-b.txt"]),
];

/// Lines that ask for a state: how the files are read, and which they are.
const FOLDED: &[(&str, Setting, &[&str])] = &[
    (
        "fold",
        Setting {
            form: BYTES,
            workers: 1,
            complete: false,
        },
        &[],
    ),
    (
        "fold|--workers|2|a.hls|--complete|--partial|--hex|--|-b.hls",
        Setting {
            form: PARTIAL_DIGITS,
            workers: 2,
            complete: true,
        },
        &["a.hls", "-b.hls"],
    ),
];

/// Lines that ask for a dialogue: how its files are read, whether they are folded, its states, its
/// files, and its symbols.
const DIALOGUES: &[(&str, Setting, bool, &[&str], &[&str], Option<&str>)] = &[
    (
        "ask|a.hls",
        Setting {
            form: BYTES,
            workers: 1,
            complete: false,
        },
        false,
        &[],
        &["a.hls"],
        None,
    ),
    (
        "ask|--hex|a.hls|--workers=8|--complete|b.hls",
        Setting {
            form: DIGITS,
            workers: 8,
            complete: true,
        },
        false,
        &[],
        &["a.hls", "b.hls"],
        None,
    ),
    (
        "ask|--fold|a.hls|--workers=2|--complete|b.hls",
        Setting {
            form: BYTES,
            workers: 2,
            complete: true,
        },
        true,
        &[],
        &["a.hls", "b.hls"],
        None,
    ),
    (
        "ask|--symbols|names.csv|--partial|--|--fold",
        Setting {
            form: PARTIAL,
            workers: 1,
            complete: false,
        },
        false,
        &[],
        &["--fold"],
        Some("names.csv"),
    ),
    (
        "ask|--state|a.hla",
        Setting {
            form: BYTES,
            workers: 1,
            complete: false,
        },
        true,
        &["a.hla"],
        &[],
        None,
    ),
    (
        "ask|--state=b.hla|a.hls|--state|a.hla|--fold|--state|b.hla|--|--state",
        Setting {
            form: BYTES,
            workers: 1,
            complete: false,
        },
        true,
        &["b.hla", "a.hla", "b.hla"],
        &["a.hls", "--state"],
        None,
    ),
];

/// Questions of a dialogue: how many rows are asked for, and in which form.
const ASKED: &[(&str, Question, Option<u32>, Format)] = &[
    ("summary", Question::Summary, None, Format::Plain),
    (
        "leaks|--process|4|--top|5|--since|snapshot",
        Question::Leaks {
            process: 4,
            since: Some(Since::Snapshot),
            at_least: 1,
        },
        Some(5),
        Format::Plain,
    ),
    (
        "leaks|--folded|--process=4",
        Question::Leaks {
            process: 4,
            since: None,
            at_least: 1,
        },
        None,
        Format::Folded,
    ),
    (
        "tags|--object|ff|--json",
        Question::Tags { object: 0xff },
        None,
        Format::Json,
    ),
    (
        "balance|--all|--top|3",
        Question::Balance { all: true },
        Some(3),
        Format::Plain,
    ),
    (
        "balance|--json|--tag|Lky8",
        Question::TagStacks { tag: *b"Lky8" },
        None,
        Format::Json,
    ),
];

/// Lines that are no question of a dialogue, and after an arrow what their text names.
const NO_QUESTIONS: &str = "\
summary|a.hls => a question with its own options
summary|--hex => a question with its own options
summary|--partial => a question with its own options
summary|--complete => a question with its own options
summary|--exit-code => a question with its own options
balance|--exit-code => a question with its own options
balance|--tag|Lky8|--exit-code => a question with its own options
summary|--workers|2 => a question with its own options
summary|--workers|x => a question with its own options
summary|--symbols|names.csv => a question with its own options
summary|--notes => a question with its own options
explain|S1 => commands of their own
dump => commands of their own
encode => commands of their own
ask|a.hls => commands of their own
ask|--state|a.hla => commands of their own
ask => commands of their own
summary|--state|a.hla => a question with its own options
leaks => --process <N>
leaks|--process|x => 'x' for '--process <N>'
leaks|--process|4|--at-least|0 => '0' for '--at-least <N>'
summary|--until|x => 'x' for '--until <N>'
summary|--top|0 => '0' for '--top <N>'
balance|--tag|Lky8|--all => '--tag <TAG>' cannot be used with '--all'
outstandin => 'outstandin'
quit|now => 'quit'
";

/// Lines with a value that is refused, and after an arrow what their text names.
const REFUSED_VALUES: &str = "\
bad|--process|4294967296 => '4294967296' for '--process <N>'
bad|--process| => '' for '--process <N>'
bad|--process|+4 => '+4' for '--process <N>'
bad|--process| 4 => ' 4' for '--process <N>'
bad|--process|4  => '4 ' for '--process <N>'
bad|--process|4x => '4x' for '--process <N>'
bad|--process|0x4 => '0x4' for '--process <N>'
bad|--process|4_0 => '4_0' for '--process <N>'
bad|--process|٤ => '٤' for '--process <N>'
bad|--process|-4 => '-4'
outstanding|--process|x => 'x' for '--process <N>'
leaks|--process|x => 'x' for '--process <N>'
diff|--process|x => 'x' for '--process <N>'
diff|--process|4|--since|18446744073709551616 => for '--since <N>'
diff|--process|4|--since|+1 => '+1' for '--since <N>'
diff|--process|4|--since| => '' for '--since <N>'
diff|--process|4|--since|Snapshot => 'Snapshot' for '--since <N>'
diff|--process|4|--since|complete => 'complete' for '--since <N>'
leaks|--process|4|--since|x => 'x' for '--since <N>'
leaks|--process|4|--at-least|0 => '0' for '--at-least <N>'
leaks|--process|4|--at-least|4294967296 => '4294967296' for '--at-least <N>'
growth|--process|x => 'x' for '--process <N>'
growth|--process|4|--points|1 => '1' for '--points <N>'
growth|--process|4|--points|1001 => '1001' for '--points <N>'
growth|--process|4|--points| => '' for '--points <N>'
summary|--until|18446744073709551616 => '18446744073709551616' for '--until <N>'
summary|--until|-4 => '-4'
summary|--until| => '' for '--until <N>'
summary|--until|snapshot => 'snapshot' for '--until <N>'
summary|--until|complet => 'complet' for '--until <N>'
summary|--top|0|--until|x|--workers|0 => '0' for '--workers <N>'
summary|--top|0|--until|x => 'x' for '--until <N>'
summary|--state|a.hla|--until|x => 'x' for '--until <N>'
leaks|--until|x|--at-least|0|--since|y|--process|z => 'z' for '--process <N>'
leaks|--until|x|--at-least|0|--since|y|--process|4 => 'y' for '--since <N>'
leaks|--until|x|--at-least|0|--process|4 => '0' for '--at-least <N>'
sites|--at-least|0|--since|y => 'y' for '--since <N>'
trace|--process|4|--handle|zz => 'zz' for '--handle <HEX>'
trace|--process|4|--handle|0x => '0x' for '--handle <HEX>'
trace|--process|4|--handle|0X44 => '0X44' for '--handle <HEX>'
trace|--process|4|--handle|+44 => '+44' for '--handle <HEX>'
trace|--process|4|--handle|100000000 => '100000000' for '--handle <HEX>'
tags|--object| => '' for '--object <HEX>'
tags|--object|00000000000000001 => '00000000000000001' for '--object <HEX>'
stacks|--object|zz|--tag|Lky8 => 'zz' for '--object <HEX>'
stacks|--object|1|--tag|abc => 'abc' for '--tag <TAG>'
stacks|--object|1|--tag|abcde => 'abcde' for '--tag <TAG>'
stacks|--object|1|--tag| => '' for '--tag <TAG>'
stacks|--object|1|--tag|0xgggggggg => '0xgggggggg' for '--tag <TAG>'
stacks|--object|1|--tag|0X4c6b7938 => '0X4c6b7938' for '--tag <TAG>'
stacks|--object|1|--tag|0x4c6b793 => '0x4c6b793' for '--tag <TAG>'
balance|--tag|abc => 'abc' for '--tag <TAG>'
balance|--tag| => '' for '--tag <TAG>'
balance|--tag|0X4c6b7938 => write 0x4c6b7938
balance|--top|0|--tag|abc|--all => 'abc' for '--tag <TAG>'
balance|--top|0|--tag|Lky8|--all => '0' for '--top <N>'
bad|--process|4|--workers|0 => '0' for '--workers <N>'
bad|--process|4|--workers|9 => '9' for '--workers <N>'
bad|--process|4|--workers| => '' for '--workers <N>'
ask|a.hls|--workers|9 => '9' for '--workers <N>'
ask|--workers|9 => '9' for '--workers <N>'
fold|--workers|0 => '0' for '--workers <N>'
summary|--workers|9 => '9' for '--workers <N>'
summary|--top|0 => '0' for '--top <N>'
leaks|--process|4|--top|4294967296 => '4294967296' for '--top <N>'
trace|--process|4|--handle|44|--top| => '' for '--top <N>'
explain|S0 => 'S0' for '<CODE>'
explain|S18 => 'S18' for '<CODE>'
explain|S01 => 'S01' for '<CODE>'
explain|C11 => 'C11' for '<CODE>'
explain|F18 => 'F18' for '<CODE>'
explain|F11(2) => 'F11(2)' for '<CODE>'
explain|S5(2) => 'S5(2)' for '<CODE>'
explain|S12() => 'S12()' for '<CODE>'
explain|S12(1 => 'S12(1' for '<CODE>'
explain|S12(1)) => 'S12(1))' for '<CODE>'
explain|S1 2(1) => 'S1 2(1)' for '<CODE>'
explain|case: C8(0, 2): => for '<CODE>'
explain|S12(1, 2) => 'S12(1, 2)' for '<CODE>'
explain|S12(handle) => 'S12(handle)' for '<CODE>'
explain|S12(18446744073709551616) => for '<CODE>'
explain|C8(0) => 'C8(0)' for '<CODE>'
explain|C8(0,  2) => 'C8(0,  2)' for '<CODE>'
explain|C8(0 ,2) => 'C8(0 ,2)' for '<CODE>'
explain|C8(0,2,3) => 'C8(0,2,3)' for '<CODE>'
explain|E1(Process) => 'E1(Process)' for '<CODE>'
explain|E2(process) => 'E2(process)' for '<CODE>'
explain|(1) => '(1)' for '<CODE>'
explain| => '' for '<CODE>'
";

/// Lines with an option or a file that is refused or missing, and what their text names.
const REFUSED_OPTIONS: &str = "\
explain => <CODE>
explain|S1|S2 => 'S2'
explain|S1|--hex => '--hex'
explain|S1|--partial => '--partial'
dump|--workers|2 => '--workers'
encode|--symbols|names.csv => '--symbols'
encode|--hex|--hex => '--hex'
encode|--partial => '--partial'
ask => <FILES>
ask|--hex => <FILES>
ask|--fold => <FILES>
ask|--state => '--state <FILE>'
ask|--state|-a.hla => follows '='
ask|a.hls|--fold|--fold => '--fold'
ask|a.hls|--json => '--json'
ask|a.hls|--exit-code => '--exit-code'
ask|a.hls|--top|1 => '--top'
ask|a.hls|--process|4 => '--process'
ask|a.hls|--until|4 => '--until'
fold|--symbols|names.csv => '--symbols'
fold|--fold => '--fold'
dump|--until|4 => '--until'
explain|S1|--until|4 => '--until'
outstanding => --process <N>
diff|--since|1 => --process <N>
tags => --object <HEX>
bad => --process <N>
leaks|a.hls => --process <N>
stacks|--tag|Lky8 => --object <HEX>
stacks|--object|1 => --tag <TAG>
trace|--handle|44 => --process <N>
trace|--process|4 => --handle <HEX>
tags|--object|1|--process|4 => '--process'
summary|--process|4 => '--process'
bad|--process|4|--process|4 => '--process <N>'
bad|--process|4|--hex|--hex => '--hex'
tags|--object|1|--top|5 => '--top'
growth => --process <N>
growth|--process|4|--top|5 => '--top'
growth|--process|4|--exit-code => '--exit-code'
growth|--process|4|--folded => '--folded'
growth|--process|4|--state|a.hla => '--state <FILE>' cannot be used with 'growth'
growth|--process|4|--until|4|--state|a.hla => '--state <FILE>' cannot be used with 'growth'
summary|--state => '--state <FILE>'
growth|--process|4|--points|5|--points|5 => '--points <N>'
outstanding|--process|4|--since|5 => '--since'
diff|--process|4|--at-least|5 => '--at-least'
summary|--points|5 => '--points'
summary|--until|5|--until|5 => '--until <N>'
summary|--notes|--notes => '--notes'
leaks|--process|4|--top|5|--top|5 => '--top <N>'
summary|--hex|--hex => '--hex'
leaks|--process|4|--exit-code|--exit-code => '--exit-code'
bad|--process|4|--complete|--complete => '--complete'
stacks|--object|1|--tag|Lky8|--exit-code => '--exit-code'
trace|--process|4|--handle|44|--exit-code => '--exit-code'
dump|--complete => '--complete'
dump|--json => '--json'
summary|--json|--json => '--json'
summary|--folded => '--folded'
summary|--fold => '--fold'
dump|--fold => '--fold'
bad|--process|4|--folded => '--folded'
leaks|--process|4|--folded|--json => '--json' cannot be used with '--folded'
balance|--tag|Lky8|--all => '--tag <TAG>' cannot be used with '--all'
balance|--tag|Lky8|--exit-code => '--tag <TAG>' cannot be used with '--exit-code'
balance|--tag|Lky8|--exit-code|--all => '--tag <TAG>' cannot be used with '--all'
balance|--all|--all => '--all'
balance|--tag|Lky8|--tag|Copy => '--tag <TAG>'
balance|--folded => '--folded'
balance|--object|1 => '--object'
balance|--since|5 => '--since'
stacks|--object|1|--tag|Lky8|--all => '--all'
tags|--object|1|--all => '--all'
bad|--process|4|--workers => '--workers <N>'
";

/// Lines that begin with no command, and what their text names.
const REFUSED_COMMANDS: &str = "\
--process|4 => '--process'
 => ''
";

/// What a line asks for.
fn command(rt: &impl Abort, alloc: Global, line: &str) -> Command {
    let CommandLine { command, notes: _ } = command_line(rt, alloc, line);
    command
}

fn command_line(rt: &impl Abort, alloc: Global, line: &str) -> CommandLine {
    parse(alloc, words(rt, alloc, line)).expect(rt, "a command")
}

/// The question that a line asks.
fn run(rt: &impl Abort, alloc: Global, line: &str) -> Run {
    match command(rt, alloc, line) {
        Command::Question(run) => run,
        _ => panic!(rt; "no question: {line}"),
    }
}

/// The text of the usage fault that a line is refused with.
fn usage_text(rt: &impl Abort, alloc: Global, line: &str, fault: &ParseFault) -> String {
    assert_row(rt, line, matches!(fault, ParseFault::Usage(_)), true);
    text_of(rt, alloc, fault)
}

/// The line that stands before the arrow of a row, and what stands after it.
fn parts<'a>(rt: &impl Abort, row: &'a str) -> (&'a str, &'a str) {
    row.split_once(" => ").expect(rt, "a row with an arrow")
}

/// The files of a line have these names.
fn has_files(rt: &impl Abort, line: &str, files: &[String], names: &[&str]) {
    assert_row(rt, line, files.len(), names.len());
    for (file, name) in files.iter().zip(names) {
        assert_row(rt, line, file.as_str(), *name);
    }
}

#[test]
fn lines_ask_questions(rt: HostRuntime) {
    for (line, question) in QUESTIONS {
        let job = run(&rt, rt.alloc(), line).job;
        assert_row(&rt, *line, job, plain_job(*question));
    }
}

/// The job of a line that has no option beside its question's.
fn plain_job(question: Question) -> Job {
    Job {
        question,
        setting: Setting {
            form: BYTES,
            workers: 1,
            complete: false,
        },
        until: None,
        top: None,
        exit_code: false,
        format: Format::Plain,
    }
}

#[test]
fn lines_have_options(rt: HostRuntime) {
    for (line, form, workers, files, symbols) in OPTIONS {
        let run = run(&rt, rt.alloc(), line);
        has_files(&rt, line, &run.files, files);
        let found = (
            run.job.setting.form,
            run.job.setting.workers,
            run.symbols.as_deref(),
        );
        assert_row(&rt, *line, found, (*form, *workers, *symbols));
    }
}

#[test]
fn lines_are_asked_of_states(rt: HostRuntime) {
    for (line, states, files) in OVER_STATES {
        let run = run(&rt, rt.alloc(), line);
        has_files(&rt, line, &run.states, states);
        has_files(&rt, line, &run.files, files);
    }
}

#[test]
fn lines_limit_rows(rt: HostRuntime) {
    for (line, top) in TOPS {
        assert_row(&rt, *line, run(&rt, rt.alloc(), line).job.top, *top);
    }
}

#[test]
fn lines_name_moments(rt: HostRuntime) {
    for (line, until) in MOMENTS {
        assert_row(&rt, *line, run(&rt, rt.alloc(), line).job.until, *until);
    }
    let asked = asked_in_a_dialogue(&rt, rt.alloc(), "summary|--until|complete");
    assert_row(&rt, "a question", asked.until, Some(Moment::Complete));
}

#[test]
fn lines_ask_for_notes(rt: HostRuntime) {
    for (line, notes) in NOTES {
        let line_of = command_line(&rt, rt.alloc(), line);
        assert_row(&rt, *line, line_of.notes, *notes);
    }
}

#[test]
fn lines_check(rt: HostRuntime) {
    for (line, complete, exit_code) in CHECKS {
        let job = run(&rt, rt.alloc(), line).job;
        assert_row(
            &rt,
            *line,
            (job.setting.complete, job.exit_code),
            (*complete, *exit_code),
        );
    }
}

#[test]
fn lines_choose_a_form(rt: HostRuntime) {
    for (line, format) in FORMATS {
        assert_row(&rt, *line, run(&rt, rt.alloc(), line).job.format, *format);
    }
}

#[test]
fn lines_ask_for_faults(rt: HostRuntime) {
    for (line, code, parts) in EXPLAINED {
        let fault = PrintedFault {
            code: *code,
            parts: *parts,
        };
        let command = command(&rt, rt.alloc(), line);
        assert_row(&rt, *line, command, Command::Explain(fault));
    }
}

#[test]
fn faults_are_explained_as_they_are_printed(rt: HostRuntime) {
    let alloc = rt.alloc();
    explains(&rt, alloc, &Fault::Kind(3), Code::S13, Parts::Number(3));
    explains(&rt, alloc, &Fault::Cut, Code::S10, Parts::Nothing);
    explains(
        &rt,
        alloc,
        &HexFault::BadDigit(7),
        Code::H1,
        Parts::Number(7),
    );
    explains(
        &rt,
        alloc,
        &SymbolFault::Overlap(2),
        Code::Y5,
        Parts::Number(2),
    );
    explains(&rt, alloc, &FormFault::Words, Code::E1, Parts::Nothing);
    for field in FIELDS {
        let parts = Parts::Field(field.name());
        explains(&rt, alloc, &FormFault::Field(*field), Code::E1, parts);
    }
}

/// A fault is explained by what is printed of it.
fn explains<F: fmt::Display>(rt: &impl Abort, alloc: Global, fault: &F, code: Code, parts: Parts) {
    let line = format!(in alloc; "explain|{fault}").expect(rt, "the memory");
    let command = command(rt, alloc, &line);
    let wanted = Command::Explain(PrintedFault { code, parts });
    assert_row(rt, line.as_str(), command, wanted);
}

/// How the files hold segments whose text a line wants, and which they are.
fn dumped(rt: &impl Abort, alloc: Global, line: &str) -> (InputForm, Vec<String>) {
    match command(rt, alloc, line) {
        Command::Dump { form, files } => (form, files),
        _ => panic!(rt; "no dump: {line}"),
    }
}

/// Whether the segments that a line wants are digits, and the files with their text.
fn encoded(rt: &impl Abort, alloc: Global, line: &str) -> (bool, Vec<String>) {
    match command(rt, alloc, line) {
        Command::Encode { hex, files } => (hex, files),
        _ => panic!(rt; "no segments: {line}"),
    }
}

#[test]
fn lines_convert_files(rt: HostRuntime) {
    for (line, form, files) in DUMPED {
        let (found, names) = dumped(&rt, rt.alloc(), line);
        has_files(&rt, line, &names, files);
        assert_row(&rt, *line, found, *form);
    }
    for (line, hex, files) in ENCODED {
        let (found, names) = encoded(&rt, rt.alloc(), line);
        has_files(&rt, line, &names, files);
        assert_row(&rt, *line, found, *hex);
    }
}

/// The dialogue that a line asks for.
fn dialogue(rt: &impl Abort, alloc: Global, line: &str) -> Dialogue {
    match command(rt, alloc, line) {
        Command::Ask(of) => of,
        _ => panic!(rt; "no dialogue: {line}"),
    }
}

#[test]
fn lines_ask_for_dialogues(rt: HostRuntime) {
    for (line, setting, folds, states, files, symbols) in DIALOGUES {
        let of = dialogue(&rt, rt.alloc(), line);
        has_files(&rt, line, &of.states, states);
        has_files(&rt, line, &of.files, files);
        let found = (of.setting, of.folds, of.symbols.as_deref());
        assert_row(&rt, *line, found, (*setting, *folds, *symbols));
    }
}

/// How the files are read whose state a line wants, and which they are.
fn folded(rt: &impl Abort, alloc: Global, line: &str) -> (Setting, Vec<String>) {
    match command(rt, alloc, line) {
        Command::Fold { setting, files } => (setting, files),
        _ => panic!(rt; "no state: {line}"),
    }
}

#[test]
fn lines_ask_for_states(rt: HostRuntime) {
    for (line, setting, files) in FOLDED {
        let (found, names) = folded(&rt, rt.alloc(), line);
        has_files(&rt, line, &names, files);
        assert_row(&rt, *line, found, *setting);
    }
}

#[test]
fn lines_of_a_dialogue_ask_questions(rt: HostRuntime) {
    for (line, question, top, format) in ASKED {
        let wanted = Job {
            top: *top,
            format: *format,
            ..plain_job(*question)
        };
        assert_row(
            &rt,
            *line,
            asked_in_a_dialogue(&rt, rt.alloc(), line),
            wanted,
        );
    }
}

/// The job that a line of a dialogue asks for.
fn asked_in_a_dialogue(rt: &impl Abort, alloc: Global, line: &str) -> Job {
    parse_question(alloc, &words(rt, alloc, line)).expect(rt, "a question")
}

#[test]
fn lines_that_are_no_question_name_what_is_wrong(rt: HostRuntime) {
    for row in NO_QUESTIONS.lines() {
        is_no_question(&rt, rt.alloc(), row);
    }
}

/// The row's line is no question of a dialogue, and the text of its fault names what it should.
fn is_no_question(rt: &impl Abort, alloc: Global, row: &str) {
    let (line, named) = parts(rt, row);
    let refused = parse_question(alloc, &words(rt, alloc, line));
    let fault = refused.expect_err(rt, "no question");
    let text = usage_text(rt, alloc, line, &fault);
    let text = text.as_str();
    assert_row(rt, (line, text), text.contains(named), true);
}

#[test]
fn no_words_ask_for_the_stored_job(rt: HostRuntime) {
    let written = run(&rt, rt.alloc(), "outstanding|--process|4|--hex");
    assert!(rt; written.job.setting.workers == 1 && written.files.is_empty());
    let stored = parse(rt.alloc(), Vec::new(rt.alloc())).expect(&rt, "a command");
    let wanted = CommandLine {
        command: Command::Question(written),
        notes: false,
    };
    assert_row(&rt, "no words", stored, wanted);
}

#[test]
fn refused_lines_name_what_is_wrong(rt: HostRuntime) {
    for rows in [REFUSED_VALUES, REFUSED_OPTIONS, REFUSED_COMMANDS] {
        for row in rows.lines() {
            is_refused(&rt, rt.alloc(), row);
        }
    }
}

/// The row's line is refused. Its text names what it should, and ends with where to read more.
fn is_refused(rt: &impl Abort, alloc: Global, row: &str) {
    let (line, named) = parts(rt, row);
    let text = usage_text(rt, alloc, line, &fault_of(rt, alloc, line));
    let text = text.as_str();
    let found = (text.contains(named), text.ends_with("--help'.\n"));
    assert_row(rt, (line, text), found, (true, true));
}
