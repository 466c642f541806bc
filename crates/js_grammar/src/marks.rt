ghost use Rattle.std.specs.Prelude.{◌≡◌};
ghost use Rattle.js_grammar.specs.Rows.{is_marked};

use crate::symbols::RowId;

/// Whether a row counts for the nest of a text: the rows by which statements, expressions and functions stand in each other.
pub fn marked(row: RowId) -> bool
    ensures { result ≡ is_marked row }
{
    matches!(
        row,
        RowId::Function
            | RowId::Body
            | RowId::StatSwitch
            | RowId::Block
            | RowId::AssignTailEquals(_)
            | RowId::AssignTailCompound(_)
            | RowId::AssignTailArrow(_)
            | RowId::CondTail(_)
            | RowId::UnaryOperator
            | RowId::UnaryIncrement
            | RowId::UnaryDecrement
            | RowId::AccessIndex
            | RowId::New
            | RowId::ArgSpread
            | RowId::ArgPlain
            | RowId::PrimaryHead
            | RowId::PrimaryParens
            | RowId::PrimaryArray
            | RowId::PrimaryObject
            | RowId::PrimaryTemplate
            | RowId::PrimaryFunction
            | RowId::GetRestGetter
            | RowId::SetRestSetter
            | RowId::Method
    )
}
