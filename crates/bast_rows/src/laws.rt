//! Laws of rows. Each function does nothing: its clause is the law.

ghost use Rattle.bast_rows.specs.Laws.{EachValueHasARow, RowsAreOfOneTree};

/// Well-typed trees with the same rows are the same.
pub fn rows_are_of_one_tree()
    ensures { RowsAreOfOneTree }
{}

/// A tree has a row for each of its values.
pub fn each_value_has_a_row()
    ensures { EachValueHasARow }
{}
