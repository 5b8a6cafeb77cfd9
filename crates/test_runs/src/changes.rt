//! Bundles with a bit turned, and bundles that are cut.

use crate::bundles::{BUNDLES, bundle};
use crate::comparison::assert_row;
use crate::plain::{code, count_segments, segment_len};
use htl_segment::{Fault, Segment, Splitter, decode, decode_bundle, encode};
use std::alloc::Global;
use std::process::Abort;

/// What `decode` says of the bytes: the length of the segment at their front.
fn decoded_len(rt: &impl Abort, alloc: Global, bytes: &[u8]) -> Result<usize, Fault> {
    let (segment, len) = decode(alloc, bytes)?;
    assert!(rt; is_written(rt, alloc, &segment, bytes.get(..len)));
    Ok(len)
}

/// Whether the segment is written as it was read.
fn is_written(rt: &impl Abort, alloc: Global, segment: &Segment, read: Option<&[u8]>) -> bool {
    let written = encode(alloc, segment).expect(rt, "the memory");
    Some(written.as_slice()) == read
}

/// How many segments a splitter gives for bytes that come in pieces, or what it refuses.
fn count_in_pieces(
    rt: &impl Abort,
    alloc: Global,
    bytes: &[u8],
    piece: usize,
) -> Result<usize, (u64, Fault)> {
    let mut splitter = Splitter::new(alloc);
    let mut count: usize = 0;
    for piece in bytes.chunks(piece.max(1)) {
        assert!(rt; splitter.fed() < 1_000_000 && piece.len() < 1_000_000);
        let segments = splitter.feed(alloc, piece)?;
        count = count.wrapping_add(segments.len());
    }
    splitter.finish()?;
    Ok(count)
}

/// How many bytes were read so far, and which faults they had: a bit for each code.
#[derive(Clone, Copy)]
struct Seen {
    inputs: u64,
    codes: u32,
}

const NOTHING: Seen = Seen {
    inputs: 0,
    codes: 0,
};

impl Seen {
    /// Notes what was read of some bytes.
    fn note(&mut self, read: Result<usize, (u64, Fault)>) {
        self.inputs = self.inputs.wrapping_add(1);
        if let Err((_, fault)) = read {
            self.codes |= 1 << code(fault);
        }
    }
}

/// Each reader says of the bytes what the plain one says.
fn check(rt: &impl Abort, alloc: Global, bytes: &[u8], piece: usize, seen: &mut Seen) {
    assert_row(
        rt,
        "alone",
        decoded_len(rt, alloc, bytes),
        segment_len(bytes),
    );
    let wanted = count_segments(bytes);
    let whole = decode_bundle(alloc, bytes).map(|segments| segments.len());
    assert_row(rt, "whole", whole, wanted);
    assert_row(
        rt,
        "in pieces",
        count_in_pieces(rt, alloc, bytes, piece),
        wanted,
    );
    seen.note(wanted);
}

/// Turns each bit of a bundle.
fn turn_bits(rt: &impl Abort, alloc: Global, number: u32, seen: &mut Seen) {
    let mut bytes = bundle(rt, alloc, number);
    for place in 0..bytes.len() {
        for bit in 0..8u32 {
            bytes[place] ^= 1 << bit;
            check(rt, alloc, &bytes, place % 67, seen);
            bytes[place] ^= 1 << bit;
        }
    }
}

// Each fault is met but S1: no bit makes a bundle shorter.
#[test]
fn turned_bits(rt: HostRuntime) {
    let mut seen = NOTHING;
    for number in 0..BUNDLES {
        turn_bits(&rt, rt.alloc(), number, &mut seen);
    }
    assert_eq!(rt; (seen.inputs, seen.codes), (967_648, 0x1_fffc));
}

/// Cuts a bundle at each byte.
fn cut(rt: &impl Abort, alloc: Global, number: u32, seen: &mut Seen) {
    let bytes = bundle(rt, alloc, number);
    for len in 0..=bytes.len() {
        check(rt, alloc, &bytes[..len], len % 67, seen);
    }
}

// Bytes that end too early have S1 or S10.
#[test]
fn cut_bundles(rt: HostRuntime) {
    let mut seen = NOTHING;
    for number in 0..BUNDLES {
        cut(&rt, rt.alloc(), number, &mut seen);
    }
    assert_eq!(rt; (seen.inputs, seen.codes), (121_456, 0x402));
}
