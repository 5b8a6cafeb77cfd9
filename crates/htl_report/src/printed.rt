//! Stacks that were written: the lines of an equal one are copied.

use crate::address::write_stack;
use htl_event::SharedStack;
use htl_symbols::Symbols;
use std::alloc::{AllocError, Global};

/// The most stacks that are remembered.
const MOST_PLACES: usize = 65_536;

/// A stack, and where its lines begin and end in the text.
#[derive(Clone, Copy)]
pub(crate) struct Place<'a> {
    frames: &'a [u64],
    from: usize,
    to: usize,
}

/// Where the lines of stacks stand in the text so far. The fingerprint of a stack leads to one place,
/// which the stack that was written last has.
#[derive(Drop)]
pub(crate) struct Printed<'a> {
    places: Vec<Place<'a>>,
    /// The lines that were copied last. A text takes bytes of its own one at a time, and others all at
    /// once.
    lines: String,
}

impl<'a> Printed<'a> {
    ghost use Rattle.std.specs.Prelude.{◌≡◌, ◌++◌, ℕ, List, IfOk, OnOk, string_bytes};
    ghost use Rattle.htl_symbols.specs.Ranges.{Range};
    ghost use Rattle.htl_report.specs.Addresses.{stack_lines};
    ghost use Rattle.htl_report.specs.Printed.{HasPrinted};

    /// No stack was written yet. So many will be.
    pub(crate) fn new(alloc: Global, stacks: usize) -> Result<Printed<'a>, AllocError>
        ensures { IfOk result (λ printed. (symbols : List Range) (text : List ℕ)
            → HasPrinted symbols text printed.places.items) }
    {
        let none = Place {
            frames: &[],
            from: 0,
            to: 0,
        };
        Ok(Printed {
            places: vec![in alloc; none; stacks.clamp(1, MOST_PLACES)]?,
            lines: String::new(alloc),
        })
    }

    /// Writes the lines of a stack.
    pub(crate) fn write_stack(
        &mut self,
        out: &mut String,
        symbols: &Symbols,
        stack: &'a SharedStack,
    ) -> Result<(), AllocError>
        requires { HasPrinted symbols.now (string_bytes out.old) self.old.places.items }
        ensures text { OnOk result (string_bytes out.new
            ≡ string_bytes out.old ++ stack_lines symbols.now stack.now) }
        ensures kept { OnOk result
            (HasPrinted symbols.now (string_bytes out.new) self.new.places.items) }
    {
        let frames = stack.frames();
        let cell = stack.fingerprint() as usize % self.places.len();
        let place = self.places[cell];
        let from = out.as_bytes().len();
        if place.frames == frames {
            self.lines.clear();
            self.lines.push_str(&out.as_str()[place.from..place.to])?;
            return out.push_str(self.lines.as_str());
        }
        write_stack(out, symbols, frames)?;
        let to = out.as_bytes().len();
        self.places[cell] = Place { frames, from, to };
        Ok(())
    }
}
