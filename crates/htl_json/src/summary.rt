//! Rows of a summary: gaps, processes and objects.

ghost use Rattle.htl_json.specs.Rows.{missing, process_row, unbalanced_object};

use crate::lines::Lines;
use crate::members::Member;
use crate::rows::{Form, write_line};
use htl_event::{ObjectRow, ProcessRow};
use htl_symbols::Symbols;
use htl_taken::Gap;
use std::alloc::AllocError;

/// Segments that are missing.
pub(crate) struct Gaps;

impl Form for Gaps {
    type Row = Gap;

    ghost value_of = { λ symbols. missing };

    #[tactic(auto, unfolding(crate::specs::Rows::between_fields, crate::specs::Rows::absent_fields))]
    fn write(lines: &mut Lines, _symbols: &Symbols, gap: &Gap) -> Result<(), AllocError> {
        match *gap {
            Gap::Between {
                processor,
                from,
                to,
            } => write_line(
                lines,
                &[
                    Member::Text("row", "GAP"),
                    Member::Number("processor", processor as u64),
                    Member::Number("from", from as u64),
                    Member::Number("to", to as u64),
                ],
            ),
            Gap::Absent { processor } => write_line(
                lines,
                &[
                    Member::Text("row", "GAP"),
                    Member::Number("processor", processor as u64),
                    Member::Number("from", 0),
                ],
            ),
        }
    }
}

/// Processes, each with its counts and its moments.
pub(crate) struct Processes;

impl Form for Processes {
    type Row = ProcessRow;

    ghost value_of = { λ symbols. process_row };

    #[tactic(auto, unfolding(crate::specs::Rows::process_fields))]
    fn write(lines: &mut Lines, _symbols: &Symbols, row: &ProcessRow) -> Result<(), AllocError> {
        write_line(
            lines,
            &[
                Member::Text("row", "PROCESS"),
                Member::Number("process", row.process as u64),
                Member::Number("outstanding", row.outstanding),
                Member::Number("opens", row.opens),
                Member::Number("closes", row.closes),
                Member::Number("bad", row.bad),
                Member::Number("mark", row.mark),
                Member::Number("exit", row.exit),
            ],
        )
    }
}

/// Objects with an unbalanced tag.
pub(crate) struct Objects;

impl Form for Objects {
    type Row = ObjectRow;

    ghost value_of = { λ symbols. unbalanced_object };

    #[tactic(auto, unfolding(crate::specs::Records::count_fields, crate::specs::Rows::object_fields))]
    fn write(lines: &mut Lines, _symbols: &Symbols, row: &ObjectRow) -> Result<(), AllocError> {
        write_line(
            lines,
            &[
                Member::Text("row", "OBJECT"),
                Member::Address("object", row.object),
                Member::Number("tags", row.tags),
                Member::Number("unbalanced", row.unbalanced),
                Member::Counts(row.refs, row.derefs),
            ],
        )
    }
}
