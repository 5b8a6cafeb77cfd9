//! Answers for flame graph programs.

ghost use Rattle.std.specs.Prelude.{◌≡◌, ◌++◌, IfOk, OnOk, codes, flat_map, map, reverse};
ghost use Rattle.htl_report.specs.Folded.{folded_byte, folded_count, folded_frame, folded_line};
ghost use Rattle.htl_report.specs.Folded.{folded_lines, folded_stack};
ghost use Rattle.htl_report.specs.Rows.{first_rows as first_rows_of};

use crate::address::write_named;
use crate::answer::text;
use crate::rows::first_rows;
use htl_event::{NoMemory, SharedStack, Site};
use htl_question::{Answer, Rows};
use htl_symbols::Symbols;
use std::alloc::{AllocError, Global};

/// An answer in the form of flame graph programs, where its rows are stacks that opened handles: a
/// line for each, its frames, the outermost first, separated by `;`, a space, and the number of
/// handles. Where `top` is given, at most the first `top` rows are printed. Any other answer is
/// printed as in `text`.
///
/// Frames are printed as in `text`, but a `;` within a name as `:`, and a line feed or carriage
/// return as a space. An empty stack is `(no stack)`.
pub fn folded(
    alloc: Global,
    answer: &Answer,
    symbols: &Symbols,
    until: Option<u64>,
    top: Option<u32>,
) -> Result<Vec<u8>, NoMemory>
    ensures { IfOk result (λ bytes.
        bytes.items ≡ folded_lines symbols.now until top answer.now answer.now.rows) }
{
    match &answer.rows {
        Rows::Leaks(rows) => folded_rows(alloc, rows, symbols, top),
        Rows::Sites(rows) => folded_rows(alloc, rows, symbols, top),
        _ => text(alloc, answer, symbols, until, top),
    }
}

/// A row that is folded: a stack, and how many handles it opened.
trait FoldedRow {
    ghost use Rattle.std.specs.Prelude.{◌≡◌, ℕ, List};

    ghost stack_of: { Self → List ℕ };

    ghost handles_of: { Self → ℕ };

    fn stack(&self) -> &SharedStack
        ensures { result.now ≡ stack_of self.now };

    fn handles(&self) -> u64
        ensures { result ≡ handles_of self.now };
}

impl FoldedRow for (SharedStack, u64) {
    ghost stack_of = { λ row. row.0 };

    ghost handles_of = { λ row. row.1 };

    fn stack(&self) -> &SharedStack {
        &self.0
    }

    fn handles(&self) -> u64 {
        self.1
    }
}

/// The handles of a site are those of all processes.
impl FoldedRow for Site<SharedStack> {
    ghost stack_of = { λ site. site.stack };

    ghost handles_of = { λ site. site.handles };

    fn stack(&self) -> &SharedStack {
        &self.stack
    }

    fn handles(&self) -> u64 {
        self.handles
    }
}

fn folded_rows<R: FoldedRow>(
    alloc: Global,
    rows: &[R],
    symbols: &Symbols,
    top: Option<u32>,
) -> Result<Vec<u8>, NoMemory>
    ensures { IfOk result (λ bytes. bytes.items ≡ flat_map
        (λ row. folded_line symbols.now (R.stack_of row) (R.handles_of row))
        (first_rows_of top rows.now)) }
{
    let mut out = Vec::new(alloc);
    let mut scratch = String::new(alloc);
    write_rows(&mut out, &mut scratch, symbols, first_rows(top, rows))?;
    Ok(out)
}

fn write_rows<R: FoldedRow>(
    out: &mut Vec<u8>,
    scratch: &mut String,
    symbols: &Symbols,
    rows: &[R],
) -> Result<(), AllocError>
    ensures { OnOk result (out.new.items ≡ out.old.items ++ flat_map
        (λ row. folded_line symbols.now (R.stack_of row) (R.handles_of row)) rows.now) }
{
    for row in rows {
        write_stack(out, scratch, symbols, row.stack().frames())?;
        write_count(out, scratch, row.handles())?;
    }
    Ok(())
}

fn write_stack(
    out: &mut Vec<u8>,
    scratch: &mut String,
    symbols: &Symbols,
    frames: &[u64],
) -> Result<(), AllocError>
    ensures { OnOk result (out.new.items
        ≡ out.old.items ++ folded_stack symbols.now frames.now) }
{
    match frames.split_last() {
        None => out.extend_from_slice(b"(no stack)"),
        Some((outermost, inner)) => {
            write_frame(out, scratch, symbols, *outermost)?;
            write_inner(out, scratch, symbols, inner)
        }
    }
}

/// Writes the frames, each after a `;`.
fn write_inner(
    out: &mut Vec<u8>,
    scratch: &mut String,
    symbols: &Symbols,
    frames: &[u64],
) -> Result<(), AllocError>
    ensures { OnOk result (out.new.items ≡ out.old.items
        ++ flat_map (λ frame. codes ";" ++ folded_frame symbols.now frame) (reverse frames.now)) }
{
    for frame in frames.iter().rev() {
        out.push(b';')?;
        write_frame(out, scratch, symbols, *frame)?;
    }
    Ok(())
}

fn write_frame(
    out: &mut Vec<u8>,
    scratch: &mut String,
    symbols: &Symbols,
    address: u64,
) -> Result<(), AllocError>
    ensures { OnOk result (out.new.items
        ≡ out.old.items ++ folded_frame symbols.now address) }
{
    scratch.clear();
    write_named(scratch, symbols, address)?;
    write_bytes(out, scratch.as_bytes())
}

fn write_bytes(out: &mut Vec<u8>, name: &[u8]) -> Result<(), AllocError>
    ensures { OnOk result (out.new.items ≡ out.old.items ++ map folded_byte name.now) }
{
    for byte in name {
        out.push(folded_in_name(*byte))?;
    }
    Ok(())
}

fn folded_in_name(byte: u8) -> u8
    ensures { result ≡ folded_byte byte }
{
    match byte {
        b';' => b':',
        b'\n' | b'\r' => b' ',
        _ => byte,
    }
}

#[tactic(auto, unfolding(crate::specs::Folded::folded_count))]
fn write_count(out: &mut Vec<u8>, scratch: &mut String, handles: u64) -> Result<(), AllocError>
    ensures { OnOk result (out.new.items ≡ out.old.items ++ folded_count handles) }
{
    scratch.clear();
    writeln!(scratch, " {handles}")?;
    out.extend_from_slice(scratch.as_bytes())
}
