//! The texts of all questions, what a moment changes in them, and how addresses print.
use crate::rows::assert_row;
use htl_event::{Balance, Count, ObjectRow, Point, ProcessRow, SharedEvent, SharedStack, Site};
use htl_question::{Answer, Question, Rows, Since, Totals};
use htl_report::text;
use htl_samples::{shared_events, shared_stack};
use htl_symbols::Symbols;
use htl_taken::Gap;
use std::alloc::Global;
use std::process::Abort;

fn count(plus: u64, minus: u64) -> Count {
    Count { plus, minus }
}

/// The events of lines.
fn events(rt: &impl Abort, alloc: Global, lines: &str) -> Vec<SharedEvent> {
    shared_events(alloc, lines).expect(rt, "the lines are events")
}

fn stack(rt: &impl Abort, alloc: Global, frames: &[u64]) -> SharedStack {
    shared_stack(alloc, frames).expect(rt, "a stack")
}

fn list<T: Drop, const N: usize>(rt: &impl Abort, alloc: Global, rows: [T; N]) -> Vec<T> {
    Vec::from_array(alloc, rows).expect(rt, "the memory")
}

/// An answer that isn't since any moment.
fn answer_to(question: Question, rows: Rows) -> Answer {
    Answer {
        question,
        since: None,
        rows,
    }
}

fn leaks_of(since: Option<u64>, rows: Vec<(SharedStack, u64)>) -> Answer {
    Answer {
        question: Question::Leaks {
            process: 4,
            since: since.map(|since| Since::Sequence(since)),
            at_least: 1,
        },
        since,
        rows: Rows::Leaks(rows),
    }
}

fn outstanding(rt: &impl Abort, alloc: Global) -> (Answer, &'static str) {
    let rows = events(rt, alloc, "O 1 0x46, O 3 0x48 [0x1010 0x2000]");
    (
        answer_to(Question::Outstanding { process: 4 }, Rows::Opens(rows)),
        "outstanding process=4 count=2
OPEN handle=0x44 seq=1 thread=12
OPEN handle=0x48 seq=3 thread=12
  0x0000000000001010
  0x0000000000002000
",
    )
}

fn diff(rt: &impl Abort, alloc: Global) -> (Answer, &'static str) {
    let rows = events(rt, alloc, "O 13 0x14, O 12 0x18");
    (
        Answer {
            question: Question::Diff {
                process: 4,
                since: Since::Snapshot,
            },
            since: Some(10),
            rows: Rows::Opens(rows),
        },
        "diff process=4 since=10 count=2
OPEN handle=0x14 seq=13 thread=12
OPEN handle=0x18 seq=12 thread=12
",
    )
}

fn tags(rt: &impl Abort, alloc: Global) -> (Answer, &'static str) {
    let rows = [
        ([1, 0x41, 0x42, 0x43], count(0, 1)),
        (*b"Dflt", count(1, 1)),
        (*b"Lky8", count(2, 1)),
    ];
    let rows = Vec::from_slice(alloc, &rows).expect(rt, "the memory");
    (
        answer_to(
            Question::Tags {
                object: 0xffff_a000_0000_1000,
            },
            Rows::Tags(rows),
        ),
        "tags object=0xffffa00000001000 count=3
TAG .ABC refs=0 derefs=1 under=1
TAG Dflt refs=1 derefs=1 balanced
TAG Lky8 refs=2 derefs=1 over=1
",
    )
}

fn bad(rt: &impl Abort, alloc: Global) -> (Answer, &'static str) {
    let mut rows = Vec::new(alloc);
    let stacks: [(u32, &[u64], u64); 2] = [(0, &[], 1), (7, &[0x10], 2)];
    for (handle, frames, times) in stacks {
        rows.push((handle, stack(rt, alloc, frames), times))
            .expect(rt, "the memory");
    }
    (
        answer_to(Question::Bad { process: 4 }, Rows::Bad(rows)),
        "bad process=4 count=2
BAD REF handle=0x0 times=1
BAD REF handle=0x7 times=2
  0x0000000000000010
",
    )
}

fn leaks(rt: &impl Abort, alloc: Global) -> (Answer, &'static str) {
    let mut rows = Vec::new(alloc);
    let stacks: [(&[u64], u64); 3] = [(&[0x60], 2), (&[0x50, 0x20], 1), (&[0x30, 0x40], 1)];
    for (frames, handles) in stacks {
        rows.push((stack(rt, alloc, frames), handles))
            .expect(rt, "the memory");
    }
    (
        leaks_of(None, rows),
        "leaks process=4 count=3
LEAK handles=2
  0x0000000000000060
LEAK handles=1
  0x0000000000000050
  0x0000000000000020
LEAK handles=1
  0x0000000000000030
  0x0000000000000040
",
    )
}

fn leaks_since(rt: &impl Abort, alloc: Global) -> (Answer, &'static str) {
    let rows = list(rt, alloc, [(stack(rt, alloc, &[0x60]), 2)]);
    (
        leaks_of(Some(3), rows),
        "leaks process=4 since=3 count=1
LEAK handles=2
  0x0000000000000060
",
    )
}

fn sites_of(since: Option<Since>, rows: Vec<Site<SharedStack>>) -> Answer {
    answer_to(Question::Sites { since, at_least: 1 }, Rows::Sites(rows))
}

fn sites(rt: &impl Abort, alloc: Global) -> (Answer, &'static str) {
    let rows = [
        Site {
            stack: stack(rt, alloc, &[0x60, 0x20]),
            handles: 31,
            processes: 7,
        },
        Site {
            stack: stack(rt, alloc, &[]),
            handles: 1,
            processes: 1,
        },
    ];
    (
        sites_of(Some(Since::Snapshot), list(rt, alloc, rows)),
        "sites since=snapshot count=2
SITE handles=31 processes=7
  0x0000000000000060
  0x0000000000000020
SITE handles=1 processes=1
",
    )
}

fn point(sequence: u64, outstanding: u64) -> Point {
    Point {
        sequence,
        outstanding,
    }
}

fn growth(rt: &impl Abort, alloc: Global) -> (Answer, &'static str) {
    let rows = list(rt, alloc, [point(1, 0), point(7, 2), point(u64::MAX, 1)]);
    (
        answer_to(
            Question::Growth {
                process: 4,
                points: 3,
            },
            Rows::Points(rows),
        ),
        "growth process=4 count=3
AT seq=1 outstanding=0
AT seq=7 outstanding=2
AT seq=18446744073709551615 outstanding=1
",
    )
}

fn stacks(rt: &impl Abort, alloc: Global) -> (Answer, &'static str) {
    let mut rows = Vec::new(alloc);
    let stacks: [(&[u64], Count); 3] = [
        (&[], count(0, 1)),
        (&[0x30, 0x20, 0x10], count(1, 0)),
        (&[0x40, 0x20, 0x10], count(1, 0)),
    ];
    for (frames, count) in stacks {
        rows.push((stack(rt, alloc, frames), count))
            .expect(rt, "the memory");
    }
    (
        answer_to(
            Question::Stacks {
                object: 0x1000,
                tag: *b"Lky8",
            },
            Rows::Stacks(rows),
        ),
        "stacks object=0x0000000000001000 tag=Lky8 count=3
STACK refs=0 derefs=1
STACK refs=1 derefs=0
  0x0000000000000030
  0x0000000000000020
  0x0000000000000010
STACK refs=1 derefs=0
  0x0000000000000040
  0x0000000000000020
  0x0000000000000010
",
    )
}

fn balance<By>(by: By, plus: u64, minus: u64, objects: u64) -> Balance<By> {
    Balance {
        by,
        count: count(plus, minus),
        objects,
    }
}

/// A tag balances over all objects where what is missing on one is over on another.
fn balances(rt: &impl Abort, alloc: Global) -> (Answer, &'static str) {
    let tags = [
        balance(*b"Lky8", 18_230, 18_211, 19),
        balance(*b"Copy", 2, 2, 2),
        balance([1, 0x41, 0x42, 0x43], 0, 3, 1),
        balance(*b"Dflt", 4, 4, 0),
    ];
    let rows = Rows::Balances {
        objects: 5_021,
        tags: list(rt, alloc, tags),
    };
    (
        answer_to(Question::Balance { all: true }, rows),
        "balance objects=5021 count=4
TAG Lky8 refs=18230 derefs=18211 over=19 objects=19
TAG Copy refs=2 derefs=2 balanced objects=2
TAG .ABC refs=0 derefs=3 under=3 objects=1
TAG Dflt refs=4 derefs=4 balanced objects=0
",
    )
}

fn tag_stacks(rt: &impl Abort, alloc: Global) -> (Answer, &'static str) {
    let rows = [
        balance(stack(rt, alloc, &[]), 0, 9_111, 12),
        balance(stack(rt, alloc, &[0x30, 0x10]), 9_120, 0, 19),
    ];
    (
        answer_to(
            Question::TagStacks { tag: *b"Lky8" },
            Rows::TagStacks(list(rt, alloc, rows)),
        ),
        "balance tag=Lky8 count=2
STACK refs=0 derefs=9111 objects=12
STACK refs=9120 derefs=0 objects=19
  0x0000000000000030
  0x0000000000000010
",
    )
}

/// A listing has events of the first three kinds alone; the others print by the kind's word.
fn trace(rt: &impl Abort, alloc: Global) -> (Answer, &'static str) {
    let lines =
        "C 3 0x46, B 2 0x45, O 1 0x44 [0x10], S 7, R 6 0x1000 Lky8, D 5 0x1000 Lky8, exit 4";
    let rows = events(rt, alloc, lines);
    (
        answer_to(
            Question::Trace {
                process: 4,
                handle: 0x45,
            },
            Rows::Listing(rows),
        ),
        "trace process=4 handle=0x44 count=7
CLOSE handle=0x46 seq=3 thread=12
BAD REF handle=0x45 seq=2 thread=12
OPEN handle=0x44 seq=1 thread=12
  0x0000000000000010
SNAPSHOT handle=0x0 seq=7 thread=12
REF handle=0x0 seq=6 thread=12
DEREF handle=0x0 seq=5 thread=12
EXIT handle=0x0 seq=4 thread=12
",
    )
}

fn process(process: u32, outstanding: u64, exit: u64) -> ProcessRow {
    ProcessRow {
        process,
        outstanding,
        opens: 3,
        closes: 1,
        bad: 2,
        mark: 7,
        exit,
    }
}

fn object(object: u64, unbalanced: u64) -> ObjectRow {
    ObjectRow {
        object,
        tags: 3,
        unbalanced,
        refs: 6,
        derefs: 5,
    }
}

fn summary(rt: &impl Abort, alloc: Global) -> (Answer, &'static str) {
    let between = Gap::Between {
        processor: 0,
        from: 0,
        to: 4_294_967_292,
    };
    let gaps = list(rt, alloc, [between, Gap::Absent { processor: 1 }]);
    let processes = list(
        rt,
        alloc,
        [process(4, 2, 0), process(u32::MAX, 0, u64::MAX)],
    );
    let objects = list(rt, alloc, [object(0xffff_a000_0000_1000, 2)]);
    let totals = Totals {
        processors: 2,
        segments: 1,
        events: 19,
        complete_to: 0,
        objects: 4,
    };
    (
        answer_to(
            Question::Summary,
            Rows::Summary {
                totals,
                gaps,
                processes,
                objects,
            },
        ),
        "summary processors=2 segments=1 events=19 complete_to=0 \
gaps=2 processes=2 objects=4 unbalanced=1
GAP processor=0 from=0 to=4294967292
GAP processor=1 from=0
PROCESS process=4 outstanding=2 opens=3 closes=1 bad=2 mark=7 exit=0
PROCESS process=4294967295 outstanding=0 opens=3 closes=1 bad=2 mark=7 exit=18446744073709551615
OBJECT object=0xffffa00000001000 tags=3 unbalanced=2 refs=6 derefs=5
",
    )
}

/// The answer's text, without symbols, is the one beside it.
fn assert_text(rt: &impl Abort, alloc: Global, (answer, wanted): (Answer, &str)) {
    let bytes = text(alloc, &answer, &Symbols::none(alloc), None, None).expect(rt, "the text");
    assert_row(rt, wanted, bytes.as_slice(), wanted.as_bytes());
}

#[test]
fn texts_of_handles(rt: HostRuntime) {
    assert_text(&rt, rt.alloc(), outstanding(&rt, rt.alloc()));
    assert_text(&rt, rt.alloc(), diff(&rt, rt.alloc()));
    assert_text(&rt, rt.alloc(), leaks(&rt, rt.alloc()));
    assert_text(&rt, rt.alloc(), leaks_since(&rt, rt.alloc()));
    assert_text(&rt, rt.alloc(), sites(&rt, rt.alloc()));
    assert_text(&rt, rt.alloc(), growth(&rt, rt.alloc()));
    assert_text(&rt, rt.alloc(), bad(&rt, rt.alloc()));
}

#[test]
fn texts_of_references(rt: HostRuntime) {
    assert_text(&rt, rt.alloc(), tags(&rt, rt.alloc()));
    assert_text(&rt, rt.alloc(), stacks(&rt, rt.alloc()));
    assert_text(&rt, rt.alloc(), balances(&rt, rt.alloc()));
    assert_text(&rt, rt.alloc(), tag_stacks(&rt, rt.alloc()));
}

#[test]
fn texts_of_a_trace(rt: HostRuntime) {
    assert_text(&rt, rt.alloc(), trace(&rt, rt.alloc()));
    assert_text(&rt, rt.alloc(), summary(&rt, rt.alloc()));
}

/// The text of the answer as of the moment 12, without rows, is the one that is wanted.
fn assert_moment(rt: &impl Abort, alloc: Global, (answer, _): (Answer, &str), wanted: &str) {
    let bytes = text(alloc, &answer, &Symbols::none(alloc), Some(12), Some(0));
    let bytes = bytes.expect(rt, "the text");
    assert_row(rt, wanted, bytes.as_slice(), wanted.as_bytes());
}

#[test]
fn moments_of_handles(rt: HostRuntime) {
    let alloc = rt.alloc();
    let wanted = "outstanding process=4 until=12 count=2\n";
    assert_moment(&rt, alloc, outstanding(&rt, alloc), wanted);
    let wanted = "diff process=4 since=10 until=12 count=2\n";
    assert_moment(&rt, alloc, diff(&rt, alloc), wanted);
    let wanted = "leaks process=4 since=3 until=12 count=1\n";
    assert_moment(&rt, alloc, leaks_since(&rt, alloc), wanted);
    let wanted = "sites since=snapshot until=12 count=2\n";
    assert_moment(&rt, alloc, sites(&rt, alloc), wanted);
    let wanted = "growth process=4 until=12 count=3\n";
    assert_moment(&rt, alloc, growth(&rt, alloc), wanted);
    let wanted = "bad process=4 until=12 count=2\n";
    assert_moment(&rt, alloc, bad(&rt, alloc), wanted);
    let wanted = "trace process=4 handle=0x44 until=12 count=7\n";
    assert_moment(&rt, alloc, trace(&rt, alloc), wanted);
}

#[test]
fn moments_of_references(rt: HostRuntime) {
    let alloc = rt.alloc();
    let wanted = "tags object=0xffffa00000001000 until=12 count=3\n";
    assert_moment(&rt, alloc, tags(&rt, alloc), wanted);
    let wanted = "stacks object=0x0000000000001000 tag=Lky8 until=12 count=3\n";
    assert_moment(&rt, alloc, stacks(&rt, alloc), wanted);
    let wanted = "balance objects=5021 until=12 count=4\n";
    assert_moment(&rt, alloc, balances(&rt, alloc), wanted);
    let wanted = "balance tag=Lky8 until=12 count=2\n";
    assert_moment(&rt, alloc, tag_stacks(&rt, alloc), wanted);
    let wanted = "summary processors=2 segments=1 events=19 complete_to=0 \
gaps=2 processes=2 objects=4 unbalanced=1 until=12
GAP processor=0 from=0 to=4294967292
GAP processor=1 from=0
";
    assert_moment(&rt, alloc, summary(&rt, alloc), wanted);
}

/// The table of these rows.
fn symbols_of(rt: &impl Abort, alloc: Global, rows: &[u8]) -> Symbols {
    let mut table = Vec::from_slice(alloc, b"start,end,module,name\n").expect(rt, "the memory");
    table.extend_from_slice(rows).expect(rt, "the memory");
    Symbols::read(alloc, &table).expect(rt, "a table")
}

/// A leak of a stack of these addresses.
fn leak_of(rt: &impl Abort, alloc: Global, addresses: &[u64]) -> Answer {
    let rows = list(rt, alloc, [(stack(rt, alloc, addresses), 1)]);
    leaks_of(None, rows)
}

/// What each address prints under these rows of a table.
fn names_of(rt: &impl Abort, alloc: Global, rows: &[u8], addresses: &[u64]) -> Vec<u8> {
    let symbols = symbols_of(rt, alloc, rows);
    let answer = leak_of(rt, alloc, addresses);
    text(alloc, &answer, &symbols, None, None).expect(rt, "the text")
}

/// Rows of a table, addresses, and what is printed of these.
const ADDRESSES: &[(&[u8], &[u64], &str)] = &[
    (
        b"0x1000,0x1020,ntdll,NtCreateFile\n2000,2001,app,main\n",
        &[0x1000, 0x1010, 0x101f, 0x1020, 0x2000, u64::MAX],
        "leaks process=4 count=1
LEAK handles=1
  ntdll!NtCreateFile
  ntdll!NtCreateFile+0x10
  ntdll!NtCreateFile+0x1f
  0x0000000000001020
  app!main
  0xffffffffffffffff
",
    ),
    (
        b"1,2,a,b\n2,3,c,d\n",
        &[2],
        "leaks process=4 count=1
LEAK handles=1
  c!d
",
    ),
    (
        b"0,1,,\n",
        &[0],
        "leaks process=4 count=1
LEAK handles=1
  !
",
    ),
];

#[test]
fn texts_of_addresses(rt: HostRuntime) {
    for (rows, addresses, wanted) in ADDRESSES {
        let bytes = names_of(&rt, rt.alloc(), rows, addresses);
        assert_row(&rt, *wanted, bytes.as_slice(), wanted.as_bytes());
    }
}
