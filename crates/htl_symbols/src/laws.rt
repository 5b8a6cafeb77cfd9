//! A law of symbol tables. The function's contract is the law; it does nothing when it runs.

ghost use Rattle.std.specs.Prelude.{◌≡◌, ◌≢◌, List, Err, Result};
ghost use Rattle.htl_symbols.specs.Ranges.{Range};
ghost use Rattle.htl_symbols.specs.Reading.{Reads};
ghost use Rattle.htl_symbols.specs.Rows.{Record};
ghost use Rattle.htl_symbols.specs.declared.fault.SymbolFault.{SymbolFault};
ghost use Rattle.htl_symbols.specs.declared.fault.SymbolFault.TheVariants.{NoMemory};

/// Records give one table or have one first fault, and never both. (A refused allocation is no fault of
/// records.)
pub fn one_reading()
    ensures { (records : List Record) (a b : Result (List Range) SymbolFault)
        → a ≢ Err NoMemory → b ≢ Err NoMemory → Reads records a → Reads records b → a ≡ b }
{}
