//! Whether the addresses that rows show have names, whatever their form.

ghost use Rattle.std.specs.Prelude.{◌≡◌, flat_map, option_map};
ghost use Rattle.htl_report.specs.Names.{addresses_of, has_some, is_named, none_named};
ghost use Rattle.std.specs.List.{list_any};

use crate::rows::Form;
use htl_event::SharedStack;
use htl_symbols::Symbols;

/// Whether the rows have addresses, and the symbols have a name for none of these.
pub(crate) fn have_no_name<F: Form>(rows: &[F::Row], symbols: &Symbols) -> bool
    ensures { result ≡ none_named symbols.now
        (flat_map (λ row. addresses_of (F.stack_of row)) rows.now) }
{
    have_address::<F>(rows) && !have_name::<F>(rows, symbols)
}

/// Whether one of the rows has an address.
fn have_address<F: Form>(rows: &[F::Row]) -> bool
    ensures { result ≡ list_any (λ row. has_some (addresses_of (F.stack_of row))) rows.now }
{
    rows.iter().any(|row| has_address(F::stack(row)))
}

/// Whether there is a stack with an address.
fn has_address(stack: Option<&SharedStack>) -> bool
    ensures { result ≡ has_some (addresses_of (option_map (λ stack. stack.now) stack.entry)) }
{
    match stack {
        Some(stack) => !stack.frames().is_empty(),
        None => false,
    }
}

/// Whether the symbols have a name for an address of one of the rows.
fn have_name<F: Form>(rows: &[F::Row], symbols: &Symbols) -> bool
    ensures { result ≡ list_any
        (λ row. list_any (is_named symbols.now) (addresses_of (F.stack_of row))) rows.now }
{
    rows.iter().any(|row| has_name(F::stack(row), symbols))
}

/// Whether there is a stack with an address for which the symbols have a name.
fn has_name(stack: Option<&SharedStack>, symbols: &Symbols) -> bool
    ensures { result ≡ list_any (is_named symbols.now)
        (addresses_of (option_map (λ stack. stack.now) stack.entry)) }
{
    match stack {
        Some(stack) => is_one_named(stack.frames(), symbols),
        None => false,
    }
}

/// Whether the symbols have a name for one of the addresses.
fn is_one_named(addresses: &[u64], symbols: &Symbols) -> bool
    ensures { result ≡ list_any (is_named symbols.now) addresses.now }
{
    addresses.iter().any(|address| is_named(*address, symbols))
}

/// Whether the symbols have a name for the address.
fn is_named(address: u64, symbols: &Symbols) -> bool
    ensures { result ≡ is_named symbols.now address }
{
    symbols.resolve(address).is_some()
}
