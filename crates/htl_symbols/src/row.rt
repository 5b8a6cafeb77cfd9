//! Rows: what the records of a table write.

ghost use Rattle.std.specs.Prelude.{◌≡◌, ◌≢◌, ◌∷◌, [], ◌↔◌, ◌<◌, Err, IfOk, IsTrue};
ghost use Rattle.std.specs.Prelude.{MatchOption, MatchResult, Ok, length};
ghost use Rattle.csv.specs.Records.{fields_of};
ghost use Rattle.htl_symbols.specs.Rows.{address_of, header, range_of_row};
ghost use Rattle.htl_symbols.specs.Steps.{columns_eq};
ghost use Rattle.htl_symbols.specs.Symbols.{row_range};

use crate::fault::SymbolFault;
use csv::StringRecord;
use htl_numbers::hexadecimal;

/// A row, whose texts lie in their record.
#[derive(Clone, Copy)]
pub(crate) struct Row<'r> {
    pub(crate) start: u64,
    pub(crate) end: u64,
    pub(crate) module: &'r str,
    pub(crate) name: &'r str,
}

/// The row that this record writes. The record has number `number`.
pub(crate) fn row_of(fields: &StringRecord, number: u64) -> Result<Row<'_>, SymbolFault>
    ensures filled { IfOk result (λ row. row.start < row.end) }
    ensures row { MatchResult result
        (λ row. range_of_row (number, fields_of fields.now) ≡ Ok (row_range row))
        (λ fault. range_of_row (number, fields_of fields.now) ≡ Err fault) }
{
    let Some((start, end, module, name)) = four_fields(fields) else {
        return Err(SymbolFault::Fields(number));
    };
    let Some(start) = address(start) else {
        return Err(SymbolFault::Number(number));
    };
    let Some(end) = address(end) else {
        return Err(SymbolFault::Number(number));
    };
    if start < end {
        Ok(Row {
            start,
            end,
            module,
            name,
        })
    } else {
        Err(SymbolFault::EmptyRange(number))
    }
}

fn address(text: &str) -> Option<u64>
    ensures { result ≡ address_of text.now }
{
    hexadecimal(text.as_bytes(), u64::MAX)
}

pub(crate) fn is_header(fields: &StringRecord) -> bool
    ensures { IsTrue result ↔ (fields_of fields.now ≡ header) }
{
    match four_fields(fields) {
        Some(columns) => are_columns(columns),
        None => false,
    }
}

fn are_columns(columns: (&str, &str, &str, &str)) -> bool
    ensures { result ≡ columns_eq
        columns.entry.0.now columns.entry.1.now columns.entry.2.now columns.entry.3.now }
{
    columns.0 == "start" && columns.1 == "end" && columns.2 == "module" && columns.3 == "name"
}

fn four_fields(fields: &StringRecord) -> Option<(&str, &str, &str, &str)>
    ensures { MatchOption result (length (fields_of fields.now) ≢ 4)
        (λ f. fields_of fields.now ≡ f.0.now ∷ f.1.now ∷ f.2.now ∷ f.3.now ∷ []) }
{
    if fields.len() != 4 {
        return None;
    }
    Some((
        fields.get(0)?,
        fields.get(1)?,
        fields.get(2)?,
        fields.get(3)?,
    ))
}
