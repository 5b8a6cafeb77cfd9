//! Lines of JSON that say a moment, the rows of a growth, sites, and balances.
use crate::rows::assert_row;
use htl_event::{Balance, Count, Point, SharedStack, Site};
use htl_json::json_lines;
use htl_question::{Answer, Question, Rows, Since, Totals};
use htl_samples::shared_stack;
use htl_symbols::Symbols;
use std::alloc::Global;
use std::process::Abort;

/// The lines of the answer as of this moment are those that are wanted.
fn assert_lines(rt: &impl Abort, alloc: Global, answer: &Answer, until: Option<u64>, wanted: &str) {
    let bytes = json_lines(alloc, answer, &Symbols::none(alloc), until, None);
    let bytes = bytes.expect(rt, "the lines");
    assert_row(rt, wanted, bytes.as_slice(), wanted.as_bytes());
}

/// An answer that isn't since any moment.
fn answer_to(question: Question, rows: Rows) -> Answer {
    Answer {
        question,
        since: None,
        rows,
    }
}

fn leaks(alloc: Global, since: Option<u64>) -> Answer {
    Answer {
        question: Question::Leaks {
            process: 4,
            since: Some(Since::Snapshot),
            at_least: 1,
        },
        since,
        rows: Rows::Leaks(Vec::new(alloc)),
    }
}

fn sites(since: Option<Since>, rows: Vec<Site<SharedStack>>) -> Answer {
    answer_to(Question::Sites { since, at_least: 1 }, Rows::Sites(rows))
}

fn summary(alloc: Global) -> Answer {
    let rows = Rows::Summary {
        totals: Totals {
            processors: 2,
            segments: 1,
            events: 19,
            complete_to: 9,
            objects: 4,
        },
        gaps: Vec::new(alloc),
        processes: Vec::new(alloc),
        objects: Vec::new(alloc),
    };
    answer_to(Question::Summary, rows)
}

#[test]
fn lines_of_a_growth(rt: HostRuntime) {
    let first = Point {
        sequence: 1,
        outstanding: 0,
    };
    let last = Point {
        sequence: u64::MAX,
        outstanding: 2,
    };
    let rows = Vec::from_array(rt.alloc(), [first, last]).expect(&rt, "the memory");
    let question = Question::Growth {
        process: 4,
        points: 2,
    };
    let growth = answer_to(question, Rows::Points(rows));
    let wanted = r#"{"answer":"growth","process":4,"count":2}
{"sequence":1,"outstanding":0}
{"sequence":18446744073709551615,"outstanding":2}
"#;
    assert_lines(&rt, rt.alloc(), &growth, None, wanted);
}

#[test]
fn lines_of_sites(rt: HostRuntime) {
    let alloc = rt.alloc();
    let site = Site {
        stack: shared_stack(alloc, &[0x60]).expect(&rt, "a stack"),
        handles: 31,
        processes: 7,
    };
    let rows = Vec::from_array(alloc, [site]).expect(&rt, "the memory");
    let wanted = r#"{"answer":"sites","since":"snapshot","count":1}
{"handles":31,"processes":7,"stack":[{"address":"0x0000000000000060"}]}
"#;
    assert_lines(
        &rt,
        alloc,
        &sites(Some(Since::Snapshot), rows),
        None,
        wanted,
    );
    let wanted = "{\"answer\":\"sites\",\"count\":0}\n";
    assert_lines(&rt, alloc, &sites(None, Vec::new(alloc)), None, wanted);
}

fn balance<By>(by: By, plus: u64, minus: u64, objects: u64) -> Balance<By> {
    Balance {
        by,
        count: Count { plus, minus },
        objects,
    }
}

#[test]
fn lines_of_balances(rt: HostRuntime) {
    let alloc = rt.alloc();
    let tags = [
        balance(*b"Lky8", 1_830, 1_811, 19),
        balance([1, 0x41, 0x42, 0x43], 0, 3, 0),
    ];
    let rows = Rows::Balances {
        objects: 5_021,
        tags: Vec::from_array(alloc, tags).expect(&rt, "the memory"),
    };
    let balances = answer_to(Question::Balance { all: true }, rows);
    let wanted = r#"{"answer":"balance","objects":5021,"until":12,"count":2}
{"tag":"Lky8","bytes":"4c6b7938","references":1830,"dereferences":1811,"over":19,"under":0,"objects":19}
{"tag":".ABC","bytes":"01414243","references":0,"dereferences":3,"over":0,"under":3,"objects":0}
"#;
    assert_lines(&rt, alloc, &balances, Some(12), wanted);
}

#[test]
fn lines_of_tag_stacks(rt: HostRuntime) {
    let alloc = rt.alloc();
    let stack = shared_stack(alloc, &[0x60]).expect(&rt, "a stack");
    let rows = Vec::from_array(alloc, [balance(stack, 9_120, 0, 19)]).expect(&rt, "the memory");
    let stacks = answer_to(Question::TagStacks { tag: *b"Lky8" }, Rows::TagStacks(rows));
    let wanted = r#"{"answer":"balance","tag":"Lky8","bytes":"4c6b7938","count":1}
{"references":9120,"dereferences":0,"objects":19,"stack":[{"address":"0x0000000000000060"}]}
"#;
    assert_lines(&rt, alloc, &stacks, None, wanted);
}

#[test]
fn first_lines_of_handles(rt: HostRuntime) {
    let alloc = rt.alloc();
    let wanted = "{\"answer\":\"leaks\",\"process\":4,\"count\":0}\n";
    assert_lines(&rt, alloc, &leaks(alloc, None), None, wanted);
    let wanted = "{\"answer\":\"leaks\",\"process\":4,\"since\":3,\"count\":0}\n";
    assert_lines(&rt, alloc, &leaks(alloc, Some(3)), None, wanted);
    let wanted = "{\"answer\":\"leaks\",\"process\":4,\"since\":3,\"until\":12,\"count\":0}\n";
    assert_lines(&rt, alloc, &leaks(alloc, Some(3)), Some(12), wanted);
    let question = Question::Trace {
        process: 4,
        handle: 0x45,
    };
    let trace = answer_to(question, Rows::Listing(Vec::new(alloc)));
    let wanted =
        "{\"answer\":\"trace\",\"process\":4,\"handle\":\"0x44\",\"until\":12,\"count\":0}\n";
    assert_lines(&rt, alloc, &trace, Some(12), wanted);
}

#[test]
fn first_lines_of_references(rt: HostRuntime) {
    let alloc = rt.alloc();
    let question = Question::Tags { object: 0x1000 };
    let tags = answer_to(question, Rows::Tags(Vec::new(alloc)));
    let wanted =
        "{\"answer\":\"tags\",\"object\":\"0x0000000000001000\",\"until\":12,\"count\":0}\n";
    assert_lines(&rt, alloc, &tags, Some(12), wanted);
    let question = Question::Stacks {
        object: 0x1000,
        tag: *b"Lky8",
    };
    let stacks = answer_to(question, Rows::Stacks(Vec::new(alloc)));
    let wanted = "{\"answer\":\"stacks\",\"object\":\"0x0000000000001000\",\"tag\":\"Lky8\",\
\"bytes\":\"4c6b7938\",\"until\":12,\"count\":0}\n";
    assert_lines(&rt, alloc, &stacks, Some(12), wanted);
    let wanted = "{\"answer\":\"summary\",\"processors\":2,\"segments\":1,\"events\":19,\
\"complete_to\":9,\"gaps\":0,\"processes\":0,\"objects\":4,\"unbalanced\":0,\"until\":12}\n";
    assert_lines(&rt, alloc, &summary(alloc), Some(12), wanted);
}
