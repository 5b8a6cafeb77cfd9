//! How long it takes to read a symbol table and to print answers under it, as text, as JSON and
//! folded. The size is the number of an answer's rows, of 16 frames each, and the table has half as
//! many ranges.

use crate::stopwatch::Stopwatch;
use anyhow::Result;
use htl_event::{Kind, NoMemory, SharedEvent, SharedStack};
use htl_json::json_lines;
use htl_question::{Answer, Question, Rows};
use htl_report::{folded, text};
use htl_symbols::Symbols;
use std::alloc::{AllocError, Global};

/// How many addresses a range has; the next one starts at twice that distance.
const LENGTH: u64 = 0x40;

const FRAMES: usize = 16;

pub fn measure(watch: &mut Stopwatch<'_>, size: u32) -> Result<()> {
    let table = table(watch.alloc(), size / 2)?;
    watch.restart();
    let symbols = Symbols::read(watch.alloc(), table.as_bytes())?;
    watch.lap("bytes of a symbol table", table.len() as u64);
    measure_answer(watch, &symbols, size)?;
    measure_folded(watch, &symbols, size)
}

/// Prints an answer as text and as JSON.
fn measure_answer(watch: &mut Stopwatch<'_>, symbols: &Symbols, size: u32) -> Result<()> {
    let alloc = watch.alloc();
    let answer = Answer {
        question: Question::Outstanding { process: 4 },
        since: None,
        rows: Rows::Opens(rows(alloc, size)?),
    };
    watch.restart();
    watch.lap_list("bytes of text", text(alloc, &answer, symbols, None, None));
    watch.lap_list(
        "bytes of JSON",
        json_lines(alloc, &answer, symbols, None, None),
    );
    Ok(())
}

fn measure_folded(watch: &mut Stopwatch<'_>, symbols: &Symbols, size: u32) -> Result<()> {
    let alloc = watch.alloc();
    let answer = Answer {
        question: Question::Leaks {
            process: 4,
            since: None,
            at_least: 1,
        },
        since: None,
        rows: Rows::Leaks(leaks(alloc, size)?),
    };
    watch.restart();
    watch.lap_list(
        "bytes of folded stacks",
        folded(alloc, &answer, symbols, None, None),
    );
    Ok(())
}

/// A table of so many ranges, in no order.
fn table(alloc: Global, ranges: u32) -> Result<String, AllocError> {
    let mut table = String::from_str(alloc, "start,end,module,name\n")?;
    for range in 0..ranges {
        let start = u64::from(range.reverse_bits()) * 2 * LENGTH;
        let end = start + LENGTH;
        writeln!(
            &mut table,
            "{start:x},{end:x},module{range},SomeFunction{range}"
        )?;
    }
    Ok(table)
}

/// So many opens, each with a stack of its own.
fn rows(alloc: Global, count: u32) -> Result<Vec<SharedEvent>, NoMemory> {
    let mut rows = Vec::with_capacity(alloc, count as usize)?;
    for row in 0..count {
        rows.push(open(alloc, row, count / 2)?)?;
    }
    Ok(rows)
}

fn open(alloc: Global, row: u32, ranges: u32) -> Result<SharedEvent, NoMemory> {
    Ok(SharedEvent {
        sequence: u64::from(row) + 1,
        kind: Kind::Opened,
        process: 4,
        thread: 12,
        handle: row,
        object: 0,
        tag: [0; 4],
        stack: stack(alloc, row, ranges)?,
    })
}

/// So many leaking stacks, those of the opens.
fn leaks(alloc: Global, count: u32) -> Result<Vec<(SharedStack, u64)>, NoMemory> {
    let mut rows = Vec::with_capacity(alloc, count as usize)?;
    for row in 0..count {
        rows.push((stack(alloc, row, count / 2)?, u64::from(row)))?;
    }
    Ok(rows)
}

fn stack(alloc: Global, row: u32, ranges: u32) -> Result<SharedStack, NoMemory> {
    let addresses = Vec::from_array(alloc, addresses(row, ranges))?;
    SharedStack::of(alloc, addresses, u64::from(row))
}

/// The innermost address is the start of a range, twelve are inside one, and the three outermost in
/// none.
fn addresses(row: u32, ranges: u32) -> [u64; FRAMES] {
    let mut addresses = [0; FRAMES];
    for (place, address) in addresses.iter_mut().enumerate() {
        let frame = place as u32;
        let range = row.wrapping_mul(31).wrapping_add(frame) % ranges.max(1);
        let start = u64::from(range.reverse_bits()) * 2 * LENGTH;
        *address = start + u64::from(frame) * 5;
    }
    addresses
}
