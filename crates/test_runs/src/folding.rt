//! Segments that are folded and forgotten: what is answered of them, and what stays of sources that
//! have a fault.

use crate::commands::{COMMANDS, Command, INPUTS, SYMBOLS, bytes_of, digits_of};
use crate::comparison::assert_row;
use crate::pieces::Pieces;
use crate::printed::{bundles, has_line, over_bytes, table_of};
use htl_command::{InputForm, Setting};
use htl_main::{Added, Folded, Reading, Refused, fold, folded_text, load_folded};
use htl_samples::{TRACE, Trace};
use htl_segment::encode;
use std::alloc::Global;
use std::process::Abort;
use std::thread::Threads;

const BYTES: Setting = Setting {
    form: InputForm {
        hex: false,
        partial: false,
    },
    workers: 1,
    complete: false,
};

const DIGITS: Setting = Setting {
    form: InputForm {
        hex: true,
        partial: false,
    },
    ..BYTES
};

const COMPLETE: Setting = Setting {
    complete: true,
    ..BYTES
};

/// The segment behind those of the two inputs.
const THIRD: &str = "0/2: O 8 0x50";

/// The bytes of segments, one after another.
fn bundle(rt: &impl Abort, alloc: Global, lines: &[&str]) -> Vec<u8> {
    let segments = bundles(rt, alloc, lines);
    segments.concat(alloc).expect(rt, "the memory")
}

/// A source that gives these bytes, a few a read.
fn source(bytes: &[u8]) -> Pieces<'_> {
    Pieces::new(bytes, 7, 10_000)
}

/// What is folded of a first source, and how that ends.
fn loaded(
    rt: &(impl Threads + Sync),
    alloc: Global,
    setting: Setting,
    source: Pieces,
) -> Result<(Folded, Added), Refused> {
    let mut sources = [Reading::new(source)];
    let (none, table) = (Folded::none(alloc), table_of(Some(SYMBOLS)));
    load_folded(rt, alloc, setting, none, &mut sources, table)
}

/// What was folded of a first source, to which the reply has this line.
fn begun(
    rt: &(impl Threads + Sync + Abort),
    alloc: Global,
    setting: Setting,
    source: Pieces,
    line: &str,
) -> Folded {
    let (folded, added) = loaded(rt, alloc, setting, source).expect(rt, "it is folded");
    has_line(rt, alloc, &added, line);
    folded
}

/// A first source is refused with this line.
fn is_refused(
    rt: &(impl Threads + Sync + Abort),
    alloc: Global,
    setting: Setting,
    source: Pieces,
    line: &str,
) {
    let ended = loaded(rt, alloc, setting, source);
    let refused = ended.err().expect(rt, "it is folded");
    has_line(rt, alloc, &refused, line);
}

/// One more source is folded, and the reply to it or its fault has this line.
fn folds(
    rt: &(impl Threads + Sync + Abort),
    alloc: Global,
    setting: Setting,
    folded: &mut Folded,
    source: Pieces,
    line: &str,
) {
    let mut sources = [Reading::new(source)];
    match fold(rt, alloc, setting, folded, &mut sources) {
        Ok(added) => has_line(rt, alloc, &added, line),
        Err(refused) => has_line(rt, alloc, &refused, line),
    }
}

/// What was folded has the commands' answers, but for the last one, which needs events.
fn has_answers(rt: &(impl Threads + Sync + Abort), alloc: Global, folded: &Folded) {
    for command in COMMANDS.iter().take(7) {
        has_answer(rt, alloc, folded, command);
    }
}

fn has_answer(
    rt: &(impl Threads + Sync + Abort),
    alloc: Global,
    folded: &Folded,
    command: &Command,
) {
    let job = over_bytes(command.question);
    assert!(rt; !job.needs_events());
    for workers in 1..3 {
        let setting = Setting { workers, ..BYTES };
        let answer = folded_text(rt, alloc, setting, &job, folded).expect(rt, "the memory");
        assert_row(
            rt,
            command.question,
            answer.lines.as_slice(),
            command.text.as_bytes(),
        );
    }
}

/// Two segments in sources of their own are folded one after the other, and the first again. The
/// replies have these lines.
fn folds_both(
    rt: &(impl Threads + Sync + Abort),
    alloc: Global,
    workers: u32,
    (first, second): (&str, &str),
    (of_first, of_second): (&str, &str),
) {
    let setting = Setting { workers, ..BYTES };
    let (first, second) = (bytes_of(rt, alloc, first), bytes_of(rt, alloc, second));
    let mut folded = begun(rt, alloc, setting, source(&first), of_first);
    folds(rt, alloc, setting, &mut folded, source(&second), of_second);
    has_answers(rt, alloc, &folded);
    let of_repeat = "read segments=1 new=0 complete_to=7 gaps=0";
    folds(rt, alloc, setting, &mut folded, source(&first), of_repeat);
    has_answers(rt, alloc, &folded);
}

#[test]
fn answers_whatever_the_order_and_the_workers(rt: HostRuntime) {
    let of_second = "read segments=1 new=1 complete_to=7 gaps=0";
    for workers in [1, 2, 8] {
        folds_both(
            &rt,
            rt.alloc(),
            workers,
            (INPUTS[0], INPUTS[1]),
            ("read segments=1 new=1 complete_to=3 gaps=0", of_second),
        );
        folds_both(
            &rt,
            rt.alloc(),
            workers,
            (INPUTS[1], INPUTS[0]),
            ("read segments=1 new=1 complete_to=0 gaps=1", of_second),
        );
    }
}

/// A source of the first segment and something else is refused, and then one of the first segment and
/// the third is folded, whose first segment was taken.
fn is_mended(
    rt: &(impl Threads + Sync + Abort),
    alloc: Global,
    setting: Setting,
    second: &[u8],
    faulty: &[u8],
    mended: &[u8],
) {
    let of_second = "read segments=1 new=1 complete_to=0 gaps=1";
    let mut folded = begun(rt, alloc, setting, source(second), of_second);
    let fault = "hleak: input 0, offset 164: S2";
    folds(rt, alloc, setting, &mut folded, source(faulty), fault);
    has_answers(rt, alloc, &folded);
    let of_mended = "read segments=2 new=1 complete_to=8 gaps=0";
    folds(rt, alloc, setting, &mut folded, source(mended), of_mended);
}

/// The bytes of the first segment, and something else after them.
fn first_and_more(rt: &impl Abort, alloc: Global) -> Vec<u8> {
    let mut bytes = bytes_of(rt, alloc, INPUTS[0]);
    let more = b"HLS2 and so on, to the length of a header";
    bytes.extend_from_slice(more).expect(rt, "the memory");
    bytes
}

#[test]
fn the_segments_before_a_fault_count(rt: HostRuntime) {
    let second = bytes_of(&rt, rt.alloc(), INPUTS[1]);
    let faulty = first_and_more(&rt, rt.alloc());
    let mended = bundle(&rt, rt.alloc(), &[INPUTS[0], THIRD]);
    is_mended(&rt, rt.alloc(), BYTES, &second, &faulty, &mended);
    is_mended(
        &rt,
        rt.alloc(),
        DIGITS,
        &digits_of(&rt, rt.alloc(), &second),
        &digits_of(&rt, rt.alloc(), &faulty),
        &digits_of(&rt, rt.alloc(), &mended),
    );
}

#[test]
fn the_segments_before_a_failed_read_count(rt: HostRuntime) {
    let third = bytes_of(&rt, rt.alloc(), THIRD);
    let of_third = "read segments=1 new=1 complete_to=0 gaps=1";
    let mut folded = begun(&rt, rt.alloc(), BYTES, source(&third), of_third);
    let both = bundle(&rt, rt.alloc(), &INPUTS);
    // the first read gives the first segment, and the second one fails
    let failing = Pieces::new(&both, 164, 1);
    folds(
        &rt,
        rt.alloc(),
        BYTES,
        &mut folded,
        failing,
        "hleak: input 0: read failed",
    );
    let of_both = "read segments=2 new=1 complete_to=8 gaps=0";
    folds(&rt, rt.alloc(), BYTES, &mut folded, source(&both), of_both);
}

/// Of the segments that are there, the first is folded, and the other one is held.
const BEFORE: &[&str] = &["0/0: O 5 0x44", "0/3: O 9 0x48"];

/// A segment that can be taken.
const FITTING: &str = "0/1: S 6";

/// The trace and the line of a segment that can't be taken behind it, and the line of the fault.
const UNFIT: &[(Trace, &str, &str)] = &[
    (Trace { id: 8, ..TRACE }, "0/2: S 7", "hleak: case: C2(1)"),
    (
        Trace {
            processors: 2,
            ..TRACE
        },
        "0/2: S 7",
        "hleak: case: C3(1)",
    ),
    (TRACE, "0/3: S 9", "hleak: case: C4(0, 3)"),
    (TRACE, "0/2: S 5", "hleak: case: C7(0, 2)"),
    (TRACE, "0/2: S 6", "hleak: case: C7(0, 2)"),
    (TRACE, "0/2: S 7, S 9", "hleak: case: C7(0, 3)"),
    (TRACE, "0/4: S 9", "hleak: case: C7(0, 4)"),
];

#[test]
fn the_segments_before_an_unfit_one_count(rt: HostRuntime) {
    for (trace, line, fault) in UNFIT {
        is_unfit(&rt, rt.alloc(), *trace, line, fault);
    }
}

/// A source is refused with this line for its last segment, which stands behind one that is taken, and
/// before one that isn't.
fn is_unfit(
    rt: &(impl Threads + Sync + Abort),
    alloc: Global,
    trace: Trace,
    line: &str,
    fault: &str,
) {
    let before = bundle(rt, alloc, BEFORE);
    let of_before = "read segments=2 new=2 complete_to=5 gaps=1";
    let mut folded = begun(rt, alloc, BYTES, source(&before), of_before);
    let unfit = with_unfit(rt, alloc, trace, line);
    folds(rt, alloc, BYTES, &mut folded, source(&unfit), fault);
    let fitting = bundle(rt, alloc, &[FITTING, "0/2: S 8"]);
    let of_fitting = "read segments=2 new=1 complete_to=9 gaps=0";
    folds(rt, alloc, BYTES, &mut folded, source(&fitting), of_fitting);
}

/// The bytes of a segment that can be taken, of one that can't, and of one after them.
fn with_unfit(rt: &impl Abort, alloc: Global, trace: Trace, line: &str) -> Vec<u8> {
    let mut bytes = bytes_of(rt, alloc, FITTING);
    let segment = trace
        .segment(alloc, line)
        .expect(rt, "the line is a segment");
    let unfit = encode(alloc, &segment).expect(rt, "the memory");
    bytes.extend_from_slice(&unfit).expect(rt, "the memory");
    let after = bytes_of(rt, alloc, "0/2: S 8");
    bytes.extend_from_slice(&after).expect(rt, "the memory");
    bytes
}

#[test]
fn sources_without_a_segment(rt: HostRuntime) {
    is_refused(&rt, rt.alloc(), BYTES, source(b""), "hleak: case: C1");
    let first = bytes_of(&rt, rt.alloc(), INPUTS[0]);
    let of_first = "read segments=1 new=1 complete_to=3 gaps=0";
    let mut folded = begun(&rt, rt.alloc(), BYTES, source(&first), of_first);
    let of_none = "read segments=0 new=0 complete_to=3 gaps=0";
    folds(&rt, rt.alloc(), BYTES, &mut folded, source(b""), of_none);
}

#[test]
fn a_gap_is_refused_and_what_was_taken_stays(rt: HostRuntime) {
    let second = bytes_of(&rt, rt.alloc(), INPUTS[1]);
    is_refused(
        &rt,
        rt.alloc(),
        COMPLETE,
        source(&second),
        "hleak: case: C8(0, 0)",
    );
    let first = bytes_of(&rt, rt.alloc(), INPUTS[0]);
    let of_first = "read segments=1 new=1 complete_to=3 gaps=0";
    let mut folded = begun(&rt, rt.alloc(), COMPLETE, source(&first), of_first);
    let third = bytes_of(&rt, rt.alloc(), THIRD);
    folds(
        &rt,
        rt.alloc(),
        COMPLETE,
        &mut folded,
        source(&third),
        "hleak: case: C8(0, 1)",
    );
    let of_second = "read segments=1 new=1 complete_to=8 gaps=0";
    folds(
        &rt,
        rt.alloc(),
        COMPLETE,
        &mut folded,
        source(&second),
        of_second,
    );
}
