//! Places of stacks in a table.

ghost use Rattle.std.specs.Prelude.{◌≡◌, Contains};
ghost use Rattle.htl_saved.specs.Tables.{IsOrdered, place_in};

use htl_event::SharedStack;

/// The place of the stack, which the table has.
pub(crate) fn place_of(table: &[SharedStack], stack: &SharedStack) -> u32
    requires ordered { IsOrdered table.now }
    requires here { Contains table.now stack.now }
    ensures { result ≡ place_in table.now stack.now }
{
    match table.binary_search(stack) {
        Ok(place) => place as u32,
        Err(_) => unreachable!(),
    }
}
