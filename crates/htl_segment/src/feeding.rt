//! How a splitter takes in a piece: it joins the piece to the rest, the bytes that make no segment yet.
//!
//! A rest that has a header has room for the whole segment. So the bytes that complete it need no
//! memory, and memory is asked for only where the bytes have no fault.
ghost use Rattle.std.specs.Prelude.{◌≡◌, ℕ, ◌+◌, ◌<◌, ◌≤◌, ◌^◌, ◌++◌, [], length, vec_capacity};
ghost use Rattle.std.specs.Prelude.{None, IsOk, OnOk, MatchResult};
ghost use Rattle.htl_segment.specs.Encoding.{encoding};
ghost use Rattle.htl_segment.specs.Reading.{length_in};
ghost use Rattle.htl_segment.specs.Faults.{header_fault};
ghost use Rattle.htl_segment.specs.Bundles.{IsRest, IsPieceRefused};
ghost use Rattle.htl_segment.specs.Feeding.{SplitsMore, Extends, HasRoom, IsTakenIn};

use crate::bundle::split;
use crate::fault::Fault;
use crate::header::{HEADER_LEN, len_at};
use crate::keeper::Segments;
use crate::segment::Segment;
use crate::segment_bytes::SegmentBytes;
use htl_event::NoMemory;
use std::alloc::{AllocError, Global};

/// Takes in a piece after `rest`: keeps the segments that it completes, and leaves the bytes after
/// them in `rest`. A refusal reports the offset of the refused segment, and may leave bytes of the
/// piece after those that `rest` held.
pub fn absorb(
    alloc: Global,
    kept: &mut Segments,
    rest: &mut Vec<u8>,
    piece: &[u8],
) -> Result<(), (u64, Fault)>
    requires none { kept.old.list.items ≡ [] }
    requires rest { IsRest rest.old.items }
    requires room { HasRoom rest.old.items (vec_capacity rest.old) }
    ensures taken { MatchResult result
        (λ _. IsTakenIn (rest.old.items ++ piece.now)
        kept.new.list.items rest.new.items (vec_capacity rest.new))
        (λ refused. IsPieceRefused (rest.old.items ++ piece.now) refused.0 refused.1
        × Extends rest.old.items rest.new.items) }
    ensures capacity { vec_capacity rest.old ≤ vec_capacity rest.new }
{
    if rest.is_empty() {
        keep_tail(alloc, kept, rest, piece)
    } else if rest.len() < HEADER_LEN {
        complete_header(alloc, kept, rest, piece)
    } else {
        complete_records(alloc, kept, rest, piece)
    }
}

/// Takes in a piece after a rest that has no whole header yet.
fn complete_header(
    alloc: Global,
    kept: &mut Segments,
    rest: &mut Vec<u8>,
    piece: &[u8],
) -> Result<(), (u64, Fault)>
    requires none { kept.old.list.items ≡ [] }
    requires some { 0 < length rest.old.items }
    requires part { length rest.old.items < HEADER_LEN }
    requires room { HEADER_LEN ≤ vec_capacity rest.old }
    ensures taken { MatchResult result
        (λ _. IsTakenIn (rest.old.items ++ piece.now)
        kept.new.list.items rest.new.items (vec_capacity rest.new))
        (λ refused. IsPieceRefused (rest.old.items ++ piece.now) refused.0 refused.1
        × Extends rest.old.items rest.new.items) }
    ensures capacity { vec_capacity rest.old ≤ vec_capacity rest.new }
{
    if piece.len() < HEADER_LEN - rest.len() {
        return keep_piece(rest, piece, HEADER_LEN);
    }
    let (header, left) = header_and_after(rest, piece);
    match SegmentBytes::check_parts(&header, left) {
        Ok(found) => match found.to_segment_with(alloc, &mut kept.cache) {
            Ok(first) => {
                let len = found.byte_len();
                keep_after(alloc, kept, first, len, rest, &left[len - HEADER_LEN..])
            }
            Err(NoMemory) => Err((0, Fault::NoMemory)),
        },
        Err(fault) if fault.is_early_end() => keep_piece(rest, piece, len_at(&header)),
        Err(fault) => Err((0, fault)),
    }
}

/// The header that `rest` begins and `piece` completes, and what follows it.
fn header_and_after<'a>(rest: &[u8], piece: &'a [u8]) -> ([u8; HEADER_LEN], &'a [u8])
    requires part { length rest.now < HEADER_LEN }
    requires enough { HEADER_LEN ≤ length rest.now + length piece.now }
    ensures bytes { result.0 ++ result.1.now ≡ rest.now ++ piece.now }
    ensures size { length result.0 ≡ HEADER_LEN }
{
    let (taken, after) = piece.split_at(HEADER_LEN - rest.len());
    let mut header = [0; HEADER_LEN];
    let (start, end) = header.split_at_mut(rest.len());
    start.copy_from_slice(rest);
    end.copy_from_slice(taken);
    (header, after)
}

/// Takes in a piece after a rest that has a whole header.
fn complete_records(
    alloc: Global,
    kept: &mut Segments,
    rest: &mut Vec<u8>,
    piece: &[u8],
) -> Result<(), (u64, Fault)>
    requires none { kept.old.list.items ≡ [] }
    requires long { HEADER_LEN ≤ length rest.old.items }
    requires no_fault { header_fault rest.old.items ≡ None }
    requires cut { length rest.old.items < length_in rest.old.items }
    requires room { length_in rest.old.items ≤ vec_capacity rest.old }
    ensures taken { MatchResult result
        (λ _. IsTakenIn (rest.old.items ++ piece.now)
        kept.new.list.items rest.new.items (vec_capacity rest.new))
        (λ refused. IsPieceRefused (rest.old.items ++ piece.now) refused.0 refused.1
        × Extends rest.old.items rest.new.items) }
    ensures capacity { vec_capacity rest.old ≤ vec_capacity rest.new }
{
    let len = len_at(rest);
    if piece.len() < len - rest.len() {
        return keep_piece(rest, piece, len);
    }
    let (taken, left) = piece.split_at(len - rest.len());
    put_behind(rest, taken);
    match SegmentBytes::check(rest) {
        Ok(found) => match found.to_segment_with(alloc, &mut kept.cache) {
            Ok(first) => {
                let len = found.byte_len();
                keep_after(alloc, kept, first, len, rest, left)
            }
            Err(NoMemory) => Err((0, Fault::NoMemory)),
        },
        Err(fault) => Err((0, fault)),
    }
}

/// Takes in a piece that completes no segment, and makes room for `len` bytes.
fn keep_piece(rest: &mut Vec<u8>, piece: &[u8], len: usize) -> Result<(), (u64, Fault)>
    requires some { 0 < length rest.old.items }
    requires fewer { length rest.old.items + length piece.now < len }
    requires is_rest { IsRest (rest.old.items ++ piece.now) }
    requires room { (c : ℕ) → len ≤ c → HasRoom (rest.old.items ++ piece.now) c }
    ensures taken { MatchResult result
        (λ _. IsTakenIn (rest.old.items ++ piece.now)
        [] rest.new.items (vec_capacity rest.new))
        (λ refused. IsPieceRefused (rest.old.items ++ piece.now) refused.0 refused.1
        × Extends rest.old.items rest.new.items) }
    ensures capacity { vec_capacity rest.old ≤ vec_capacity rest.new }
{
    if make_room(rest, len).is_err() {
        return Err((0, Fault::NoMemory));
    }
    put_behind(rest, piece);
    Ok(())
}

/// Keeps a first segment of `len` bytes, and takes in the bytes after it.
fn keep_after(
    alloc: Global,
    kept: &mut Segments,
    first: Segment,
    len: usize,
    rest: &mut Vec<u8>,
    bytes: &[u8],
) -> Result<(), (u64, Fault)>
    requires none { kept.old.list.items ≡ [] }
    requires len { len ≡ length (encoding first) }
    requires small { len + length bytes.now < 2 ^ 64 }
    ensures taken { MatchResult result
        (λ _. IsTakenIn (encoding first ++ bytes.now)
        kept.new.list.items rest.new.items (vec_capacity rest.new))
        (λ refused. IsPieceRefused (encoding first ++ bytes.now) refused.0 refused.1
        × (rest.new.items ≡ rest.old.items)) }
    ensures capacity { vec_capacity rest.old ≤ vec_capacity rest.new }
{
    // For the proof: the rules that every segment keeps are known once it is read.
    let _fits = first.events();
    if kept.list.push(first).is_err() {
        return Err((0, Fault::NoMemory));
    }
    match keep_tail(alloc, kept, rest, bytes) {
        Ok(()) => Ok(()),
        Err((offset, fault)) => Err((len as u64 + offset, fault)),
    }
}

/// Keeps the segments of `bytes` after those that were kept before, and makes the bytes after them
/// the rest.
fn keep_tail(
    alloc: Global,
    kept: &mut Segments,
    rest: &mut Vec<u8>,
    bytes: &[u8],
) -> Result<(), (u64, Fault)>
    ensures taken { MatchResult result
        (λ _. SplitsMore bytes.now kept.old.list.items kept.new.list.items rest.new.items
        × (IsRest rest.new.items × HasRoom rest.new.items (vec_capacity rest.new)))
        (λ refused. IsPieceRefused bytes.now refused.0 refused.1
        × (rest.new.items ≡ rest.old.items)) }
    ensures capacity { vec_capacity rest.old ≤ vec_capacity rest.new }
{
    let tail = split(alloc, kept, bytes)?;
    if make_room(rest, room_of(tail)).is_err() {
        return Err(((bytes.len() - tail.len()) as u64, Fault::NoMemory));
    }
    rest.clear();
    put_behind(rest, tail);
    Ok(())
}

/// The length of the segment that begins with these bytes, that of a header where they have no
/// whole one, and 0 where there are no bytes.
fn room_of(rest: &[u8]) -> usize
    requires { IsRest rest.now }
    ensures room { (c : ℕ) → result ≤ c → HasRoom rest.now c }
    ensures enough { length rest.now ≤ result }
    ensures none { length rest.now ≡ 0 → result ≡ 0 }
{
    if rest.is_empty() {
        0
    } else if rest.len() < HEADER_LEN {
        HEADER_LEN
    } else {
        len_at(rest)
    }
}

/// Makes room for `len` bytes, those that `rest` has included.
fn make_room(rest: &mut Vec<u8>, len: usize) -> Result<(), AllocError>
    ensures items { rest.new.items ≡ rest.old.items }
    ensures room { OnOk result (len ≤ vec_capacity rest.new) }
    ensures capacity { vec_capacity rest.old ≤ vec_capacity rest.new }
    ensures none { len ≡ 0 → IsOk result }
{
    rest.reserve_exact(len.saturating_sub(rest.len()))
}

/// Puts bytes behind the rest, which has room for them.
fn put_behind(rest: &mut Vec<u8>, bytes: &[u8])
    requires { length rest.old.items + length bytes.now ≤ vec_capacity rest.old }
    ensures items { rest.new.items ≡ rest.old.items ++ bytes.now }
    ensures capacity { vec_capacity rest.old ≤ vec_capacity rest.new }
{
    if rest.extend_from_slice(bytes).is_err() {
        unreachable!()
    }
}
