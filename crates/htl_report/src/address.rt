//! The lines of stacks. Addresses are printed by name where the symbols have them.

ghost use Rattle.std.specs.Prelude.{◌≡◌, ◌++◌, codes, OnOk, string_bytes};
ghost use Rattle.htl_symbols.specs.Ranges.{resolved};
ghost use Rattle.htl_numbers.specs.Written.{padded};
ghost use Rattle.htl_report.specs.Addresses.{frame_line, named, stack_lines};

use htl_numbers::write_hex_digits;
use htl_symbols::Symbols;
use std::alloc::AllocError;

/// Writes the lines of a stack, the innermost frame first.
pub(crate) fn write_stack(
    out: &mut String,
    symbols: &Symbols,
    frames: &[u64],
) -> Result<(), AllocError>
    ensures { OnOk result (string_bytes out.new
        ≡ string_bytes out.old ++ stack_lines symbols.now frames.now) }
{
    for frame in frames {
        write_frame(out, symbols, *frame)?;
    }
    Ok(())
}

fn write_frame(out: &mut String, symbols: &Symbols, address: u64) -> Result<(), AllocError>
    ensures { OnOk result (string_bytes out.new
        ≡ string_bytes out.old ++ frame_line symbols.now address) }
{
    out.push_str("  ")?;
    write_named(out, symbols, address)?;
    out.push('\n')
}

/// Writes an address by its symbol where it has one, or else by its digits.
pub(crate) fn write_named(
    out: &mut String,
    symbols: &Symbols,
    address: u64,
) -> Result<(), AllocError>
    ensures { OnOk result (string_bytes out.new
        ≡ string_bytes out.old ++ named address (resolved symbols.now address)) }
{
    match symbols.resolve(address) {
        None => write_address(out, address),
        Some((module, name, 0)) => write!(out, "{module}!{name}"),
        Some((module, name, offset)) => write!(out, "{module}!{name}+0x{offset:x}"),
    }
}

/// Writes an address by its digits.
pub fn write_address(out: &mut String, address: u64) -> Result<(), AllocError>
    ensures { OnOk result (string_bytes out.new
        ≡ string_bytes out.old ++ (codes "0x" ++ padded 16 address)) }
{
    out.push_str("0x")?;
    write_hex_digits(out, address)
}
