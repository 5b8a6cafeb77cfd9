//! Reading a symbol table from CSV.

ghost use Rattle.std.specs.Prelude.{◌≡◌, ◌+◌, ◌^◌, ◌<◌, ◌∷◌, IfOk, length};
ghost use Rattle.csv.specs.Records.{fields_of};
ghost use Rattle.htl_symbols.specs.Reading.{Reads, records_of};
ghost use Rattle.htl_symbols.specs.Records.{IsAtRecord, records_left};
ghost use Rattle.htl_symbols.specs.Rows.{header};
ghost use Rattle.htl_symbols.specs.Steps.{HeaderRead, RecordRead, RowAdded};
ghost use Rattle.htl_symbols.specs.Symbols.{range_of, row_range};

use crate::fault::SymbolFault;
use crate::row::{Row, is_header, row_of};
use crate::symbols::{Symbol, Symbols};
use csv::{ErrorKind, Reader, ReaderBuilder, StringRecord};
use std::alloc::{AllocError, Global};

impl Symbols {
    /// Reads a table from CSV with the header record `start,end,module,name`. A row is a start and
    /// an end, which is exclusive, in hexadecimal digits of either case with or without `0x`, and a
    /// module and a name, which are any texts. Rows stand in any order.
    ///
    /// The first record with a fault ends the reading, and is reported with its number: 0 for the
    /// header, 1 for the first row; blank lines are not counted. Of one record's faults the first of
    /// these is reported: it is not UTF-8, it hasn't four fields, its start or its end is no number,
    /// its range is empty, its range overlaps that of an earlier row. Out of memory can come at any
    /// row.
    // A reader has a buffer of 8 KB, so a caller without a table has no frame with room for one.
    #[inline(never)]
    pub fn read(alloc: Global, bytes: &[u8]) -> Result<Symbols, SymbolFault>
        ensures { Reads (records_of bytes.now) result }
    {
        let mut reader = reader_of(alloc, bytes);
        let mut fields = StringRecord::new(alloc);
        read_header(&mut reader, &mut fields)?;
        read_rows(alloc, &mut reader, &mut fields)
    }
}

/// A reader that treats the header as any other record, and takes rows with any number of fields.
// Its copies while it is made stand in a frame of their own, which is gone when rows are read.
#[inline(never)]
fn reader_of(alloc: Global, bytes: &[u8]) -> Reader<&[u8]>
    ensures at { IsAtRecord result }
    ensures records { records_left result ≡ records_of bytes.entry.now }
    ensures countable { length (records_left result) < 2 ^ 64 }
{
    // A length that is read is known to fit, so the records can be counted in u64.
    let _length = bytes.len();
    ReaderBuilder::new()
        .has_headers(false)
        .flexible(true)
        .from_reader(alloc, bytes)
}

/// Reads the first record.
fn read_header(reader: &mut Reader<&[u8]>, fields: &mut StringRecord) -> Result<(), SymbolFault>
    requires { IsAtRecord reader.old }
    ensures { HeaderRead reader.old reader.new result }
{
    if !read_record(reader, fields, 0)? {
        return Err(SymbolFault::Header);
    }
    if is_header(fields) {
        Ok(())
    } else {
        Err(SymbolFault::Header)
    }
}

/// Reads the records after the header.
fn read_rows(
    alloc: Global,
    reader: &mut Reader<&[u8]>,
    fields: &mut StringRecord,
) -> Result<Symbols, SymbolFault>
    requires at { IsAtRecord reader.old }
    requires countable { length (records_left reader.old) + 1 < 2 ^ 64 }
    ensures { Reads (header ∷ records_left reader.old) result }
{
    let mut symbols = Symbols::none(alloc);
    let mut number = 1;
    while read_record(reader, fields, number)? {
        add_row(alloc, &mut symbols, fields, number)?;
        number += 1;
    }
    Ok(symbols)
}

/// Adds the range of record number `number`.
fn add_row(
    alloc: Global,
    symbols: &mut Symbols,
    fields: &StringRecord,
    number: u64,
) -> Result<(), SymbolFault>
    ensures { RowAdded (number, fields_of fields.now) symbols.old symbols.new result }
{
    let row = row_of(fields, number)?;
    if symbols.overlaps(row.start, row.end) {
        return Err(SymbolFault::Overlap(number));
    }
    symbols.insert(row.start, symbol_of(alloc, &row)?)?;
    Ok(())
}

fn symbol_of(alloc: Global, row: &Row<'_>) -> Result<Symbol, AllocError>
    ensures { IfOk result (λ s. range_of (row.now.start, s) ≡ row_range row.now) }
{
    Ok(Symbol {
        end: row.end,
        module: String::from_str(alloc, row.module)?,
        name: String::from_str(alloc, row.name)?,
    })
}

/// Reads record number `number`, or answers false where there is no more record. Reading a slice never
/// fails, but the contract of `csv` doesn't say so. Such an error is reported as out of memory, so that
/// `Csv` is reported only where a record is refused.
fn read_record(
    reader: &mut Reader<&[u8]>,
    fields: &mut StringRecord,
    number: u64,
) -> Result<bool, SymbolFault>
    ensures { IsAtRecord reader.old
        → RecordRead number reader.old reader.new (fields_of fields.new) result }
{
    match reader.read_record(fields) {
        Ok(found) => Ok(found),
        Err(error) => match error.kind() {
            ErrorKind::Io(_) | ErrorKind::OutOfMemory => Err(SymbolFault::NoMemory),
            _ => Err(SymbolFault::Csv(number)),
        },
    }
}
