//! Symbol tables in memory.

ghost use Rattle.std.specs.Prelude.{◌≡◌, ◌<◌, ◌∷◌, [], All, false, IsPermutation};
ghost use Rattle.std.specs.Prelude.{MatchOption, OnErr, OnOk, option_map};
ghost use Rattle.std.specs.List.{list_any};
ghost use Rattle.htl_symbols.specs.Ranges.{IsTable, meets, resolved};
ghost use Rattle.htl_symbols.specs.Symbols.{IsLastBegun, range_of};

use std::alloc::{AllocError, Global};
use std::collections::BTreeMap;
use std::marker::Model;

/// The end of a range, and its module and name.
#[derive(Debug, Drop)]
pub(crate) struct Symbol {
    /// The address after the last one.
    pub(crate) end: u64,
    pub(crate) module: String,
    pub(crate) name: String,
}

/// A symbol table: ranges of addresses with their names. No two ranges have an address in common.
#[derive(Debug, Drop)]
pub struct Symbols {
    by_start: BTreeMap<u64, Symbol>,
}

impl Model for Symbols {
    ghost use Rattle.std.specs.Prelude.{List};
    ghost use Rattle.htl_symbols.specs.Ranges.{IsTable, Range};
    ghost use Rattle.htl_symbols.specs.Symbols.{ranges_of};

    ghost Value = { List Range };

    ghost view = { λ s. ranges_of s.by_start.entries };

    ghost invariant = { λ s. IsTable (ranges_of s.by_start.entries) };
}

impl Symbols {
    /// An empty table.
    pub fn none(alloc: Global) -> Symbols
        ensures { result ≡ [] }
    {
        Symbols {
            by_start: BTreeMap::new(alloc),
        }
    }

    /// The module and the name of the range that has the address, and how many bytes after the
    /// range's start the address is. It is none where no range has the address.
    pub fn resolve(&self, address: u64) -> Option<(&str, &str, u64)>
        ensures value { option_map (λ s. (s.0.now, s.1.now, s.2)) result
            ≡ resolved self.now address }
        // so no other range has it
        ensures apart { IsTable self.now }
    {
        let (start, symbol) = self.last_begun(address)?;
        if address < symbol.end {
            Some((
                symbol.module.as_str(),
                symbol.name.as_str(),
                address - start,
            ))
        } else {
            None
        }
    }

    /// The last range that begins at or before the address.
    fn last_begun(&self, address: u64) -> Option<(u64, &Symbol)>
        ensures last { MatchOption result (All (λ r. address < r.start) self.now)
            (λ s. IsLastBegun self.now address (range_of (s.0, s.1.now))) }
        ensures table { IsTable self.now }
    {
        let (start, symbol) = self.by_start.range(..=address).next_back()?;
        Some((*start, symbol))
    }

    /// Whether a range has an address in common with the range from `start` up to `end`.
    pub(crate) fn overlaps(&self, start: u64, end: u64) -> bool
        requires { start < end }
        ensures { result ≡ list_any (meets start end) self.now }
    {
        match self.last_begun(end - 1) {
            Some((_, symbol)) => start < symbol.end,
            None => false,
        }
    }

    /// Adds a range that overlaps no other.
    pub(crate) fn insert(&mut self, start: u64, symbol: Symbol) -> Result<(), AllocError>
        requires filled { start < symbol.end }
        requires apart { list_any (meets start symbol.end) self.old ≡ false }
        ensures ok { OnOk result (IsPermutation (range_of (start, symbol) ∷ self.old) self.new) }
        ensures table { OnOk result (IsTable self.new) }
        ensures err { OnErr result (self.new ≡ self.old) }
    {
        self.by_start.insert(start, symbol)?;
        Ok(())
    }
}
