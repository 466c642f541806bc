//! The rows of functions at a token.

ghost use Rattle.std.specs.Prelude.{◌≡◌, Bool};
ghost use Rattle.js_grammar.specs.declared.symbols.Symbol.TheVariants as symbols;
ghost use Rattle.js_grammar.specs.Choice.{row_of};

use crate::class::Class;
use crate::firsts::begins_expression;
use crate::symbols::{Mode, RowId};
use crate::terminals::is_identifier;

pub fn parameters(class: Class) -> Option<RowId>
    ensures { (newline : Bool) → result ≡ row_of symbols.Params class newline }
{
    match class {
        Class::Identifier | Class::Of | Class::Get | Class::Set => Some(RowId::Params),
        Class::Ellipsis => Some(RowId::ParamsRest),
        Class::CloseParen => Some(RowId::ParamsEmpty),
        _ => None,
    }
}

pub fn parameters_tail(class: Class) -> Option<RowId>
    ensures { (newline : Bool) → result ≡ row_of symbols.ParamTail class newline }
{
    match class {
        Class::Comma => Some(RowId::ParamTail),
        _ => Some(RowId::ParamTailEmpty),
    }
}

pub fn next_parameter(class: Class) -> Option<RowId>
    ensures { (newline : Bool) → result ≡ row_of symbols.ParamNext class newline }
{
    match class {
        Class::Identifier | Class::Of | Class::Get | Class::Set => Some(RowId::ParamNext),
        Class::Ellipsis => Some(RowId::ParamNextRest),
        _ => None,
    }
}

pub fn arrow_body(mode: Mode, class: Class) -> Option<RowId>
    ensures { (newline : Bool) → result ≡ row_of (symbols.Arrow mode) class newline }
{
    match class {
        Class::OpenBrace => Some(RowId::ArrowBody(mode)),
        _ => {
            if begins_expression(class) {
                Some(RowId::ArrowExpr(mode))
            } else {
                None
            }
        },
    }
}

pub fn function_name(class: Class) -> Option<RowId>
    ensures { (newline : Bool) → result ≡ row_of symbols.FuncName class newline }
{
    if is_identifier(class) {
        Some(RowId::FuncName)
    } else {
        Some(RowId::FuncNameEmpty)
    }
}
