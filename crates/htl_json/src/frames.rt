//! The stack of a row: an array of frames.

ghost use Rattle.std.specs.Prelude.{◌++◌, OnOk, flat_map, option_map};
ghost use Rattle.json.specs.Tree.{json_tokens};
ghost use Rattle.htl_symbols.specs.Ranges.{resolved};
ghost use Rattle.htl_json.specs.Frames.{address_fields, frame, named_fields, stack_fields};
ghost use Rattle.htl_json.specs.Frames.{symbol_fields};
ghost use Rattle.htl_json.specs.Writing.{AddsFields, AddsTokens};

use crate::lines::Lines;
use crate::members::{Member, write_members};
use htl_event::SharedStack;
use htl_symbols::Symbols;
use std::alloc::AllocError;

/// Writes the field of a stack, the innermost frame first.
pub(crate) fn write_stack(
    lines: &mut Lines,
    symbols: &Symbols,
    stack: &SharedStack,
) -> Result<(), AllocError>
    ensures { OnOk result
        (AddsFields lines.old lines.new (stack_fields symbols.now stack.now)) }
{
    lines.key("stack")?;
    lines.begin_array()?;
    write_frames(lines, symbols, stack.frames())?;
    lines.end_array()
}

fn write_frames(lines: &mut Lines, symbols: &Symbols, frames: &[u64]) -> Result<(), AllocError>
    ensures { OnOk result (AddsTokens lines.old lines.new
        (flat_map (λ address. json_tokens (frame symbols.now address)) frames.now)) }
{
    for address in frames {
        write_frame(lines, symbols, *address)?;
    }
    Ok(())
}

fn write_frame(lines: &mut Lines, symbols: &Symbols, address: u64) -> Result<(), AllocError>
    ensures { OnOk result
        (AddsTokens lines.old lines.new (json_tokens (frame symbols.now address))) }
{
    lines.begin_object()?;
    write_address(lines, symbols, address)?;
    lines.end_object()
}

/// Writes an address, and the name of the symbol that has it, if there is one.
fn write_address(lines: &mut Lines, symbols: &Symbols, address: u64) -> Result<(), AllocError>
    ensures { OnOk result (AddsFields lines.old lines.new
        (address_fields address ++ named_fields (resolved symbols.now address))) }
{
    lines.address("address", address)?;
    write_named(lines, symbols.resolve(address))
}

fn write_named<'a>(
    lines: &mut Lines,
    symbol: Option<(&'a str, &'a str, u64)>,
) -> Result<(), AllocError>
    ensures { OnOk result (AddsFields lines.old lines.new
        (named_fields (option_map (λ s. (s.0.now, s.1.now, s.2)) symbol.entry))) }
{
    match symbol {
        None => Ok(()),
        Some((module, name, offset)) => write_symbol(lines, module, name, offset),
    }
}

#[tactic(auto, unfolding(crate::specs::Frames::symbol_fields))]
fn write_symbol<'a>(
    lines: &mut Lines,
    module_name: &'a str,
    name: &'a str,
    offset: u64,
) -> Result<(), AllocError>
    ensures { OnOk result (AddsFields lines.old lines.new
        (symbol_fields (module_name.now, name.now, offset))) }
{
    write_members(
        lines,
        &[
            Member::Text("module", module_name),
            Member::Text("name", name),
            Member::Number("offset", offset),
        ],
    )
}
