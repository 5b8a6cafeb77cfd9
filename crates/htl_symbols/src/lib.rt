//! Symbol tables: which module and name an address belongs to.
//!
//! A table has ranges of addresses, and no two have an address in common (`specs/Ranges`). They are
//! kept in a tree by start, so that one look-up finds the range that has an address, and shows
//! whether a new range overlaps another. `Symbols::read` reads a table from its text. `specs/Rows`
//! defines the row of a record, `specs/Reading` the table of a whole text, or why it is refused.
//!
//! Files, in reading order: `symbols.rt` (the table), `read.rt` and `row.rt` (reading it from
//! CSV), `fault.rt` (why it is refused), `laws.rt` (it is read in one way).
#![tactic(auto)]

mod fault;
pub mod laws;
mod read;
mod row;
mod symbols;

pub use fault::SymbolFault;
pub use symbols::Symbols;
