//! Runs that dump and encode, over sources and sinks that give or take a few bytes, and that fail.

use crate::commands::{INPUTS, bytes_of, digits_of};
use crate::comparison::assert_row;
use crate::devices::Narrow;
use crate::pieces::Pieces;
use crate::printed::has_line;
use htl_command::InputForm;
use htl_convert::{dump_from, encode_from};
use htl_main::{CutInputs, Reading, RunFault, Writing};
use htl_segment::Fault;
use std::alloc::Global;
use std::process::Abort;

/// The texts of the two inputs, a segment each.
pub const TEXTS: [&str; 2] = [
    "\
segment version=1 trace=0x0000000000000007 processors=1 processor=0 number=0
OPEN handle=0x44 seq=1 process=4 thread=12
  0x0000000000001004
  0x0000000000000020
SNAPSHOT seq=2 process=4 thread=12
OPEN handle=0x48 seq=3 process=4 thread=12
  0x0000000000000030
",
    "\
segment version=1 trace=0x0000000000000007 processors=1 processor=0 number=1
CLOSE handle=0x44 seq=4 process=4 thread=12
BAD REF handle=0x45 seq=5 process=4 thread=12
  0x0000000000000030
REF object=0x0000000000001000 tag=Lky8 seq=6 process=4 thread=12
  0x0000000000001004
DEREF object=0x0000000000001000 tag=Dflt seq=7 process=4 thread=12
",
];

const PIECES: [usize; 3] = [1, 7, 65_536];

const BYTES: InputForm = InputForm {
    hex: false,
    partial: false,
};

const DIGITS: InputForm = InputForm { hex: true, ..BYTES };

/// Two sources that give so many bytes a read, and a sink that takes as many.
#[derive(Clone, Copy)]
struct Devices<'a> {
    inputs: [&'a [u8]; 2],
    /// How the segments are held that are read or written.
    form: InputForm,
    piece: usize,
    /// After how many reads one of each source fails.
    reads: [usize; 2],
    /// How many bytes the sink holds when a write fails.
    most: usize,
}

impl<'a> Devices<'a> {
    fn new(first: &'a [u8], second: &'a [u8], piece: usize) -> Devices<'a> {
        Devices {
            inputs: [first, second],
            form: BYTES,
            piece,
            reads: [10_000; 2],
            most: usize::MAX,
        }
    }

    /// The reader of the first source.
    fn first(self) -> Pieces<'a> {
        Pieces::new(self.inputs[0], self.piece, self.reads[0])
    }

    fn second(self) -> Pieces<'a> {
        Pieces::new(self.inputs[1], self.piece, self.reads[1])
    }

    fn sink(self, alloc: Global) -> Narrow {
        Narrow {
            held: Vec::new(alloc),
            piece: self.piece,
            most: self.most,
        }
    }

    /// What a run that dumps writes, and how it ends.
    fn dump(self, alloc: Global) -> (Vec<u8>, Result<Option<CutInputs>, RunFault>) {
        let mut sources = [Reading::new(self.first()), Reading::new(self.second())];
        let mut narrow = self.sink(alloc);
        let ended = dump_from(
            alloc,
            self.form,
            &mut sources,
            &mut Writing::new(&mut narrow),
        );
        (narrow.held, ended)
    }

    /// The same of a run that encodes.
    fn encode(self, alloc: Global) -> (Vec<u8>, Result<(), RunFault>) {
        let mut sources = [Reading::new(self.first()), Reading::new(self.second())];
        let mut narrow = self.sink(alloc);
        let ended = encode_from(
            alloc,
            self.form.hex,
            &mut sources,
            &mut Writing::new(&mut narrow),
        );
        (narrow.held, ended)
    }
}

/// The bytes of one input after those of the other.
fn both_bytes(rt: &impl Abort, alloc: Global) -> Vec<u8> {
    let mut both = bytes_of(rt, alloc, INPUTS[0]);
    let second = bytes_of(rt, alloc, INPUTS[1]);
    both.extend_from_slice(&second).expect(rt, "the memory");
    both
}

/// The first so many texts, one after another.
fn texts(rt: &impl Abort, alloc: Global, count: usize) -> Vec<u8> {
    let mut texts = Vec::new(alloc);
    for text in TEXTS.iter().take(count) {
        texts
            .extend_from_slice(text.as_bytes())
            .expect(rt, "the memory");
    }
    texts
}

/// The digits of bytes, and a line feed.
fn line_of(rt: &impl Abort, alloc: Global, bytes: &[u8]) -> Vec<u8> {
    let mut line = digits_of(rt, alloc, bytes);
    line.push(b'\n').expect(rt, "the memory");
    line
}

/// A run that dumps writes the first so many texts, and ends so.
fn dumps(
    rt: &impl Abort,
    alloc: Global,
    devices: Devices,
    count: usize,
    wanted: Result<Option<CutInputs>, RunFault>,
) {
    let (written, ended) = devices.dump(alloc);
    let texts = texts(rt, alloc, count);
    let row = (devices.form, devices.piece, devices.reads);
    assert_row(
        rt,
        row,
        (written.as_slice(), ended),
        (texts.as_slice(), wanted),
    );
}

#[test]
fn bytes_are_dumped(rt: HostRuntime) {
    let first = bytes_of(&rt, rt.alloc(), INPUTS[0]);
    let second = bytes_of(&rt, rt.alloc(), INPUTS[1]);
    for piece in PIECES {
        let devices = Devices::new(&first, &second, piece);
        dumps(&rt, rt.alloc(), devices, 2, Ok(None));
    }
}

#[test]
fn digits_are_dumped(rt: HostRuntime) {
    let first = line_of(&rt, rt.alloc(), &bytes_of(&rt, rt.alloc(), INPUTS[0]));
    let second = line_of(&rt, rt.alloc(), &bytes_of(&rt, rt.alloc(), INPUTS[1]));
    for piece in PIECES {
        let devices = Devices {
            form: DIGITS,
            ..Devices::new(&first, &second, piece)
        };
        dumps(&rt, rt.alloc(), devices, 2, Ok(None));
    }
}

/// The sources of the two texts.
fn of_texts(hex: bool, piece: usize) -> Devices<'static> {
    Devices {
        form: InputForm { hex, ..BYTES },
        ..Devices::new(TEXTS[0].as_bytes(), TEXTS[1].as_bytes(), piece)
    }
}

/// A run that encodes the texts writes these bytes.
fn encodes(rt: &impl Abort, alloc: Global, hex: bool, bytes: &[u8]) {
    for piece in PIECES {
        let (written, ended) = of_texts(hex, piece).encode(alloc);
        assert_row(rt, piece, (written.as_slice(), ended), (bytes, Ok(())));
    }
}

#[test]
fn texts_are_encoded(rt: HostRuntime) {
    let both = both_bytes(&rt, rt.alloc());
    encodes(&rt, rt.alloc(), false, &both);
    encodes(&rt, rt.alloc(), true, &line_of(&rt, rt.alloc(), &both));
}

/// How many segments are there whole in so many bytes of a source of both.
fn whole(first: usize, both: usize, read: usize) -> usize {
    if read < first {
        0
    } else if read < both {
        1
    } else {
        2
    }
}

#[test]
fn a_dump_has_what_was_read(rt: HostRuntime) {
    let first = bytes_of(&rt, rt.alloc(), INPUTS[0]);
    let both = both_bytes(&rt, rt.alloc());
    for reads in 0..=both.len().div_ceil(7) {
        let devices = Devices {
            reads: [reads, 0],
            ..Devices::new(&both, &first, 7)
        };
        let count = whole(first.len(), both.len(), reads.saturating_mul(7));
        dumps(
            &rt,
            rt.alloc(),
            devices,
            count,
            Err(RunFault::Read { input: 0 }),
        );
    }
}

/// Both segments, and something else after them.
fn both_and_more(rt: &impl Abort, alloc: Global) -> Vec<u8> {
    let mut bytes = both_bytes(rt, alloc);
    let more = b"HLS2 and so on, to the length of a header";
    bytes.extend_from_slice(more).expect(rt, "the memory");
    bytes
}

#[test]
fn a_dump_has_the_segments_before_a_fault(rt: HostRuntime) {
    let bytes = both_and_more(&rt, rt.alloc());
    for piece in PIECES {
        // no read of the second source is made, which would fail
        let devices = Devices {
            reads: [10_000, 0],
            ..Devices::new(&bytes, &bytes, piece)
        };
        let fault = RunFault::Segment {
            input: 0,
            offset: both_bytes(&rt, rt.alloc()).len() as u64,
            fault: Fault::Magic,
        };
        dumps(&rt, rt.alloc(), devices, 2, Err(fault));
    }
}

#[test]
fn a_dump_has_the_segments_before_a_cut(rt: HostRuntime) {
    let first = bytes_of(&rt, rt.alloc(), INPUTS[0]);
    let (part, _) = first.split_at(70.min(first.len()));
    let cut = RunFault::Segment {
        input: 1,
        offset: 0,
        fault: Fault::Cut,
    };
    for piece in PIECES {
        let devices = Devices::new(&first, part, piece);
        dumps(&rt, rt.alloc(), devices, 1, Err(cut));
    }
}

#[test]
fn a_partial_input_is_dumped_up_to_a_cut(rt: HostRuntime) {
    let first = bytes_of(&rt, rt.alloc(), INPUTS[0]);
    let (part, _) = first.split_at(70.min(first.len()));
    let cut = CutInputs {
        first: 1,
        others: 0,
    };
    for piece in PIECES {
        let devices = Devices {
            form: InputForm {
                partial: true,
                ..BYTES
            },
            ..Devices::new(&first, part, piece)
        };
        dumps(&rt, rt.alloc(), devices, 1, Ok(Some(cut)));
    }
}

/// A failed write of up to five bytes ended the run, and these went out before.
fn is_stopped(
    rt: &impl Abort,
    most: usize,
    ended: Result<(), RunFault>,
    written: &[u8],
    whole: &[u8],
) {
    let count = written.len();
    assert!(rt; most <= count && count < most.saturating_add(5), "{most}");
    let wanted = (Err(RunFault::Write), whole.get(..count));
    assert_row(rt, most, (ended, Some(written)), wanted);
}

#[test]
fn a_failed_write_ends_a_dump(rt: HostRuntime) {
    let both = both_bytes(&rt, rt.alloc());
    let text = texts(&rt, rt.alloc(), 2);
    for most in 0..text.len() {
        // the second source isn't read
        let devices = Devices {
            reads: [10_000, 0],
            most,
            ..Devices::new(&both, &both, 5)
        };
        let (written, ended) = devices.dump(rt.alloc());
        is_stopped(&rt, most, ended.map(|_| ()), &written, &text);
    }
}

/// A run whose read of this input fails writes nothing.
fn writes_nothing(rt: &impl Abort, alloc: Global, reads: [usize; 2], input: u64) {
    let devices = Devices {
        reads,
        ..of_texts(false, 7)
    };
    let (written, ended) = devices.encode(alloc);
    let wanted = (Err(RunFault::Read { input }), true);
    assert_row(rt, reads, (ended, written.is_empty()), wanted);
}

#[test]
fn an_encoding_is_written_whole_or_not_at_all(rt: HostRuntime) {
    for reads in 0..=TEXTS[0].len().div_ceil(7) {
        writes_nothing(&rt, rt.alloc(), [reads, 0], 0);
    }
    for reads in 0..=TEXTS[1].len().div_ceil(7) {
        writes_nothing(&rt, rt.alloc(), [10_000, reads], 1);
    }
}

/// A write that fails ends a run that encodes the texts as these bytes.
fn a_write_ends(rt: &impl Abort, alloc: Global, hex: bool, bytes: &[u8]) {
    for most in 0..bytes.len() {
        let devices = Devices {
            most,
            ..of_texts(hex, 5)
        };
        let (written, ended) = devices.encode(alloc);
        is_stopped(rt, most, ended, &written, bytes);
    }
}

#[test]
fn a_failed_write_ends_an_encoding(rt: HostRuntime) {
    let both = both_bytes(&rt, rt.alloc());
    a_write_ends(&rt, rt.alloc(), false, &both);
    a_write_ends(&rt, rt.alloc(), true, &line_of(&rt, rt.alloc(), &both));
}

const HEAD: &str = "segment version=1 trace=0x7 processors=1 processor=0 number=0\n";

/// Lines of the second input, and the line of their fault.
const FAULTS: &[(&str, &str)] = &[
    (
        "# a story\n\nOPEN handle=0x44\n",
        "hleak: input 1, line 3: E1(seq)",
    ),
    ("  0x10", "hleak: input 1, line 1: E2"),
    (
        "# a story\nsegment version=1 trace=0x7 processors=0 processor=0 number=0\n",
        "hleak: input 1, line 2: S4",
    ),
];

#[test]
fn the_line_of_a_faulty_text(rt: HostRuntime) {
    for (lines, wanted) in FAULTS {
        let fault = fault_of(&rt, rt.alloc(), lines);
        has_line(&rt, rt.alloc(), &fault, wanted);
        assert_row(&rt, *wanted, fault.status(), 3);
    }
}

/// The fault of a run that encodes these lines after a first input, and writes nothing.
fn fault_of(rt: &impl Abort, alloc: Global, lines: &str) -> RunFault {
    let devices = Devices::new(HEAD.as_bytes(), lines.as_bytes(), 7);
    let (written, ended) = devices.encode(alloc);
    assert!(rt; written.is_empty());
    ended.err().expect(rt, "a fault")
}
