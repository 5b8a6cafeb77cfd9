//! Why a symbol table is refused.

ghost use Rattle.std.specs.Prelude.{◌≡◌};
ghost use Rattle.htl_symbols.specs.declared.fault.SymbolFault.TheVariants as fault;

use std::alloc::AllocError;
use thiserror::Error;

/// Why a symbol table is refused. A number is that of the record, and the header has number 0. The
/// `Display` text is the fault's code.
#[derive(Clone, Copy, Debug, PartialEq, Eq, Error)]
pub enum SymbolFault {
    /// The first record isn't `start,end,module,name`, or there is no record.
    #[error("Y1")]
    Header,
    /// A row doesn't have four fields.
    #[error("Y2({0})")]
    Fields(u64),
    /// A row's start or end isn't a hexadecimal number of 1 to 16 digits.
    #[error("Y3({0})")]
    Number(u64),
    /// A row's end isn't above its start.
    #[error("Y4({0})")]
    EmptyRange(u64),
    /// A row's range has an address in common with that of an earlier row.
    #[error("Y5({0})")]
    Overlap(u64),
    /// `csv` refuses a record: it isn't UTF-8.
    #[error("Y6({0})")]
    Csv(u64),
    /// An allocation was refused.
    #[error("Y7")]
    NoMemory,
}

impl From<AllocError> for SymbolFault {
    ghost from_gives = { λ _ e. e ≡ fault.NoMemory };

    fn from(_refused: AllocError) -> SymbolFault {
        SymbolFault::NoMemory
    }
}
