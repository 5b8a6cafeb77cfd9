//! The lines of rows, of whatever form, and which rows are printed.

ghost use Rattle.std.specs.Prelude.{◌≡◌, ◌++◌, OnOk, flat_map, string_bytes};
ghost use Rattle.htl_report.specs.Printed.{HasPrinted};
ghost use Rattle.htl_report.specs.Rows.{first_rows as first_rows_of, with_stack};

use crate::printed::Printed;
use htl_event::SharedStack;
use htl_symbols::Symbols;
use std::alloc::{AllocError, Global};

/// A form of row, which says what a row's own line is, and whether it has a stack.
pub(crate) trait Form {
    ghost use Rattle.std.specs.Prelude.{◌≡◌, ◌++◌, ℕ, List, OnOk, Option, option_map, string_bytes};

    type Row;

    ghost line_of: { Self.Row → List ℕ };

    ghost stack_of: { Self.Row → Option (List ℕ) };

    /// Whether several rows may have one stack, which is remembered then.
    const STACKS_REPEAT: bool = false;

    /// Writes the row's own line.
    fn write_line(out: &mut String, row: &Self::Row) -> Result<(), AllocError>
        ensures { OnOk result (string_bytes out.new
            ≡ string_bytes out.old ++ line_of row.now) };

    fn stack(row: &Self::Row) -> Option<&SharedStack>
        ensures { option_map (λ stack. stack.now) result ≡ stack_of row.now };
}

/// Writes the lines of each row.
pub(crate) fn write_rows<F: Form>(
    alloc: Global,
    out: &mut String,
    symbols: &Symbols,
    rows: &[F::Row],
) -> Result<(), AllocError>
    ensures { OnOk result (string_bytes out.new ≡ string_bytes out.old
        ++ flat_map (λ row. with_stack symbols.now (F.line_of row) (F.stack_of row)) rows.now) }
{
    let stacks = if F::STACKS_REPEAT { rows.len() } else { 1 };
    let mut printed = Printed::new(alloc, stacks)?;
    for row in rows {
        write_row::<F>(out, symbols, &mut printed, row)?;
    }
    Ok(())
}

fn write_row<'a, F: Form>(
    out: &mut String,
    symbols: &Symbols,
    printed: &mut Printed<'a>,
    row: &'a F::Row,
) -> Result<(), AllocError>
    requires { HasPrinted symbols.now (string_bytes out.old) printed.old.places.items }
    ensures text { OnOk result (string_bytes out.new ≡ string_bytes out.old
        ++ with_stack symbols.now (F.line_of row.now) (F.stack_of row.now)) }
    ensures kept { OnOk result
        (HasPrinted symbols.now (string_bytes out.new) printed.new.places.items) }
{
    F::write_line(out, row)?;
    match F::stack(row) {
        None => Ok(()),
        Some(stack) => printed.write_stack(out, symbols, stack),
    }
}

/// All rows, or at most the first `top`.
pub fn first_rows<R>(top: Option<u32>, rows: &[R]) -> &[R]
    ensures { result.now ≡ first_rows_of top rows.now }
{
    match top {
        Some(most) => &rows[..rows.len().min(most as usize)],
        None => rows,
    }
}
