//! What a run prints, and why it is refused, for whole inputs.

use crate::commands::bytes_of;
use crate::comparison::assert_row;
use crate::rows::{PRINTED, Printed, REFUSED, Refused, STORED, STORED_COMPLETED, STORED_TEXT};
use htl_command::{Format, InputForm, Job, Question, Setting, Since};
use htl_main::{Between, Completed, Origin, Refused as Refusal, RunFault, Writing, run};
use htl_samples::TRACE;
use std::alloc::Global;
use std::fmt;
use std::process::Abort;
use std::thread::Threads;

/// The question of the stored run.
pub const OUTSTANDING: Question = Question::Outstanding { process: 4 };

/// The stacks of all outstanding handles.
pub const LEAKING: Question = Question::Leaks {
    process: 4,
    since: None,
    at_least: 1,
};

/// A job over bytes, with one worker.
pub fn over_bytes(question: Question) -> Job {
    Job {
        question,
        setting: Setting {
            form: InputForm {
                hex: false,
                partial: false,
            },
            workers: 1,
            complete: false,
        },
        until: None,
        top: None,
        exit_code: false,
        format: Format::Plain,
    }
}

/// The bytes of segments that are given by lines, with semicolons between them.
fn bundle(rt: &impl Abort, alloc: Global, lines: &str) -> Vec<u8> {
    let mut bytes = Vec::new(alloc);
    for line in lines.split(';').filter(|line| !line.trim().is_empty()) {
        let more = bytes_of(rt, alloc, line);
        bytes.extend_from_slice(&more).expect(rt, "the memory");
    }
    bytes
}

pub fn bundles(rt: &impl Abort, alloc: Global, inputs: &[&str]) -> Vec<Vec<u8>> {
    let mut all = Vec::new(alloc);
    for lines in inputs {
        let bytes = bundle(rt, alloc, lines);
        all.push(bytes).expect(rt, "the memory");
    }
    all
}

/// What was written, and how the run ended.
pub fn printed(
    rt: &(impl Threads + Sync),
    alloc: Global,
    job: &Job,
    inputs: &[Vec<u8>],
    symbols: Option<&str>,
) -> (Vec<u8>, Result<Completed, Refusal>) {
    let mut written = Vec::new(alloc);
    let ended = run(
        rt,
        alloc,
        job,
        inputs,
        table_of(symbols),
        &mut Writing::new(&mut written),
    );
    (written, ended)
}

/// The bytes of a symbol table.
pub fn table_of(symbols: Option<&str>) -> Option<&[u8]> {
    Some(symbols?.as_bytes())
}

/// The fault of a run that writes nothing.
pub fn fault_of(rt: &impl Abort, written: &[u8], ended: Result<Completed, Refusal>) -> RunFault {
    refusal(rt, written, ended).fault
}

/// The refusal of a run that writes nothing.
fn refusal(rt: &impl Abort, written: &[u8], ended: Result<Completed, Refusal>) -> Refusal {
    assert!(rt; written.is_empty(), "something was written");
    ended.err().expect(rt, "it was printed")
}

/// The fault, or the refusal, has this line.
pub fn has_line(rt: &impl Abort, alloc: Global, fault: &impl fmt::Display, line: &str) {
    let text = format!(in alloc; "{fault}").expect(rt, "the memory");
    assert!(rt; text.as_str() == line, "{text}");
}

/// A row's text is printed by so many workers.
fn is_printed(rt: &(impl Threads + Sync + Abort), alloc: Global, row: &Printed, workers: u32) {
    let mut job = over_bytes(row.question);
    job.setting.workers = workers;
    let inputs = bundles(rt, alloc, row.inputs);
    let (written, ended) = printed(rt, alloc, &job, &inputs, row.symbols);
    let found = (written.as_slice(), ended.is_ok());
    assert_row(rt, row.name, found, (row.text.as_bytes(), true));
}

#[test]
fn prints_the_same_for_every_number_of_workers(rt: HostRuntime) {
    for row in PRINTED {
        for workers in [1, 2, 8] {
            is_printed(&rt, rt.alloc(), row, workers);
        }
    }
}

/// What is printed of inputs in hexadecimal by so many workers, and how that ends.
fn printed_of_digits(
    rt: &(impl Threads + Sync + Abort),
    alloc: Global,
    workers: u32,
    inputs: &[&str],
    symbols: Option<&str>,
) -> (Vec<u8>, Result<Completed, Refusal>) {
    let mut job = over_bytes(OUTSTANDING);
    job.setting.form.hex = true;
    job.setting.workers = workers;
    let inputs = texts(rt, alloc, inputs);
    printed(rt, alloc, &job, &inputs, symbols)
}

/// Inputs that are texts.
fn texts(rt: &impl Abort, alloc: Global, inputs: &[&str]) -> Vec<Vec<u8>> {
    let mut all = Vec::new(alloc);
    for input in inputs {
        let text = Vec::from_slice(alloc, input.as_bytes()).expect(rt, "the memory");
        all.push(text).expect(rt, "the memory");
    }
    all
}

#[test]
fn prints_the_stored_run(rt: HostRuntime) {
    let (written, ended) = printed_of_digits(&rt, rt.alloc(), 1, &[STORED], None);
    let wanted = (STORED_TEXT.as_bytes(), Ok(STORED_COMPLETED));
    assert_row(&rt, "the stored run", (written.as_slice(), ended), wanted);
}

/// Lines of segments, a question, and whether its answer finds something. Tags alone have a row
/// that is no finding.
const FINDINGS: &[(&str, Question, bool)] = &[
    ("0/0: O 1 0x44, C 2 0x44, B 3 0x7", OUTSTANDING, false),
    (
        "0/0: O 1 0x44, S 2",
        Question::Diff {
            process: 4,
            since: Since::Snapshot,
        },
        false,
    ),
    (
        "0/0: O 1 0x44, S 2",
        Question::Diff {
            process: 4,
            since: Since::Sequence(0),
        },
        true,
    ),
    (
        "0/0: R 1 0x1000 Lky8, D 2 0x1000 Lky8, O 3 0x44",
        Question::Tags { object: 0x1000 },
        false,
    ),
    (
        "0/0: R 1 0x1000 Lky8, D 2 0x1000 Dflt",
        Question::Tags { object: 0x1000 },
        true,
    ),
    ("0/0: O 1 0x44", Question::Bad { process: 4 }, false),
    ("0/0: B 1 0x44", LEAKING, false),
    ("0/0: O 1 0x44", Question::Summary, true),
    ("0/0: R 1 0x1000 Lky8", Question::Summary, true),
];

#[test]
fn says_whether_the_answer_finds_something(rt: HostRuntime) {
    for (lines, question, has_finding) in FINDINGS {
        let found = has_finding_of(&rt, rt.alloc(), lines, *question);
        assert_row(&rt, *lines, found, *has_finding);
    }
}

/// Whether the answer to a question about segments that are given by lines finds something.
fn has_finding_of(
    rt: &(impl Threads + Sync + Abort),
    alloc: Global,
    lines: &str,
    question: Question,
) -> bool {
    let inputs = bundles(rt, alloc, &[lines]);
    let (_, ended) = printed(rt, alloc, &over_bytes(question), &inputs, None);
    ended.expect(rt, "it is printed").remarks.has_finding
}

#[test]
fn refuses_with_a_line_and_a_status(rt: HostRuntime) {
    for row in REFUSED {
        is_refused(&rt, rt.alloc(), row);
    }
}

/// A row is refused with its line and its status.
fn is_refused(rt: &(impl Threads + Sync + Abort), alloc: Global, row: &Refused) {
    let (written, ended) = printed_of_digits(rt, alloc, row.workers, row.inputs, row.symbols);
    let fault = fault_of(rt, &written, ended);
    has_line(rt, alloc, &fault, row.line);
    assert_row(rt, row.line, fault.status(), row.status);
}

/// Inputs by the lines of their segments that are no case, the line of the refusal, and the input
/// and the number of each of the two segments that it is about.
const NO_CASES: &[(&[&str], &str, Option<((u64, u32), (u64, u32))>)] = &[
    (&[], "hleak: case: C1", None),
    (
        &["0/3: O 1 0x44", "", "0/2:; 0/3: O 2 0x44"],
        "hleak: case: C4(0, 3)",
        Some(((0, 3), (2, 3))),
    ),
    (
        &["0/0: O 1 0x44; 0/1: O 1 0x48"],
        "hleak: case: C5(1)",
        Some(((0, 0), (0, 1))),
    ),
    (
        &["0/0: O 5 0x44; 0/1:", "0/2: O 4 0x48"],
        "hleak: case: C7(0, 2)",
        Some(((1, 2), (0, 0))),
    ),
    (&["", ""], "hleak: case: C1", None),
];

#[test]
fn refuses_what_is_no_case(rt: HostRuntime) {
    for (inputs, line, places) in NO_CASES {
        let refused = refused_lines(&rt, rt.alloc(), inputs);
        has_line(&rt, rt.alloc(), &refused, line);
        let found = (refused.fault.status(), refused.between);
        assert_row(&rt, *line, found, (4, between(*places)));
    }
}

/// The refusal of a run over inputs that are given by lines. Its symbols have a fault too.
fn refused_lines(rt: &(impl Threads + Sync + Abort), alloc: Global, inputs: &[&str]) -> Refusal {
    let inputs = bundles(rt, alloc, inputs);
    let (written, ended) = printed(rt, alloc, &over_bytes(OUTSTANDING), &inputs, Some(""));
    refusal(rt, &written, ended)
}

fn between(places: Option<((u64, u32), (u64, u32))>) -> Between {
    match places {
        Some((first, second)) => Between::Two(origin(first), origin(second)),
        None => Between::Nothing,
    }
}

/// That of a segment of processor 0, by its input and its number.
fn origin((input, number): (u64, u32)) -> Origin {
    Origin {
        input,
        trace_id: TRACE.id,
        processors: TRACE.processors,
        processor: 0,
        number,
    }
}
