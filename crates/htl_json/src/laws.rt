//! Laws of the lines. Each function's contract is the law; none does anything when it runs.

ghost use Rattle.std.specs.Prelude.{◌≡◌, List};
ghost use Rattle.json.specs.Json.{Json};
ghost use Rattle.htl_symbols.specs.Ranges.{Range};
ghost use Rattle.htl_json.specs.Lines.{IsReadBack, json_line};
ghost use Rattle.htl_json.specs.Laws.{IsOneRow};

/// A line is of one value only: where two values are read back, and their lines are the same, so
/// are the values.
pub fn a_line_is_of_one_value()
    ensures { (a b : Json) → IsReadBack a → IsReadBack b → json_line a ≡ json_line b → a ≡ b }
{}

/// A value is of one row only: where two rows have the same value, and their numbers are in the
/// ranges of their types, the rows agree in all that the value shows.
pub fn a_value_is_of_one_row()
    ensures { (symbols : List Range) → IsOneRow symbols }
{}
