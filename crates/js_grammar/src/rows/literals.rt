//! The rows of primary expressions at a token, and of what stands in them.

ghost use Rattle.std.specs.Prelude.{◌≡◌, Bool};
ghost use Rattle.js_grammar.specs.declared.symbols.Symbol.TheVariants as symbols;
ghost use Rattle.js_grammar.specs.Choice.{row_of};

use crate::class::Class;
use crate::firsts::{begins_argument, begins_property};
use crate::symbols::RowId;
use crate::terminals::is_name;

pub fn primary(class: Class) -> Option<RowId>
    ensures { (newline : Bool) → result ≡ row_of symbols.Primary class newline }
{
    match class {
        Class::This => Some(RowId::PrimaryThis),
        Class::Null => Some(RowId::PrimaryNull),
        Class::True => Some(RowId::PrimaryTrue),
        Class::False => Some(RowId::PrimaryFalse),
        Class::Number => Some(RowId::PrimaryNumber),
        Class::Text => Some(RowId::PrimaryText),
        Class::Identifier | Class::Of | Class::Get | Class::Set => Some(RowId::PrimaryIdent),
        Class::HeadParen => Some(RowId::PrimaryHead),
        Class::OpenParen => Some(RowId::PrimaryParens),
        Class::OpenBracket => Some(RowId::PrimaryArray),
        Class::OpenBrace => Some(RowId::PrimaryObject),
        Class::TemplateWhole => Some(RowId::PrimaryWhole),
        Class::TemplateHead => Some(RowId::PrimaryTemplate),
        Class::Function => Some(RowId::PrimaryFunction),
        _ => None,
    }
}

pub fn elements(class: Class) -> Option<RowId>
    ensures { (newline : Bool) → result ≡ row_of symbols.Elems class newline }
{
    match class {
        Class::Comma => Some(RowId::ElemsHole),
        _ => {
            if begins_argument(class) {
                Some(RowId::ElemsArg)
            } else {
                Some(RowId::ElemsEmpty)
            }
        },
    }
}

pub fn more_elements(class: Class) -> Option<RowId>
    ensures { (newline : Bool) → result ≡ row_of symbols.ElemMore class newline }
{
    match class {
        Class::Comma => Some(RowId::ElemMore),
        _ => Some(RowId::ElemMoreEmpty),
    }
}

pub fn properties(class: Class) -> Option<RowId>
    ensures { (newline : Bool) → result ≡ row_of symbols.Props class newline }
{
    if begins_property(class) {
        Some(RowId::Props)
    } else {
        Some(RowId::PropsEmpty)
    }
}

pub fn more_properties(class: Class) -> Option<RowId>
    ensures { (newline : Bool) → result ≡ row_of symbols.PropMore class newline }
{
    match class {
        Class::Comma => Some(RowId::PropMore),
        _ => Some(RowId::PropMoreEmpty),
    }
}

pub fn property(class: Class) -> Option<RowId>
    ensures { (newline : Bool) → result ≡ row_of symbols.Prop class newline }
{
    match class {
        Class::Get => Some(RowId::PropGet),
        Class::Set => Some(RowId::PropSet),
        Class::Identifier | Class::Of => Some(RowId::PropIdent),
        Class::Text => Some(RowId::PropText),
        Class::Number => Some(RowId::PropNumber),
        Class::OpenBracket => Some(RowId::PropComputed),
        _ => {
            if is_name(class) {
                Some(RowId::PropReserved)
            } else {
                None
            }
        },
    }
}

pub fn value_or_method(class: Class) -> Option<RowId>
    ensures { (newline : Bool) → result ≡ row_of symbols.Long class newline }
{
    match class {
        Class::Colon => Some(RowId::LongValue),
        Class::OpenParen | Class::HeadParen => Some(RowId::LongMethod),
        _ => None,
    }
}

pub fn shorthand(class: Class) -> Option<RowId>
    ensures { (newline : Bool) → result ≡ row_of symbols.Short class newline }
{
    match class {
        Class::Colon => Some(RowId::ShortValue),
        Class::OpenParen | Class::HeadParen => Some(RowId::ShortMethod),
        _ => Some(RowId::ShortEmpty),
    }
}

pub fn after_get(class: Class) -> Option<RowId>
    ensures { (newline : Bool) → result ≡ row_of symbols.GetRest class newline }
{
    match class {
        Class::Colon => Some(RowId::GetRestValue),
        Class::OpenParen | Class::HeadParen => Some(RowId::GetRestMethod),
        _ => {
            if begins_property(class) {
                Some(RowId::GetRestGetter)
            } else {
                Some(RowId::GetRestEmpty)
            }
        },
    }
}

pub fn after_set(class: Class) -> Option<RowId>
    ensures { (newline : Bool) → result ≡ row_of symbols.SetRest class newline }
{
    match class {
        Class::Colon => Some(RowId::SetRestValue),
        Class::OpenParen | Class::HeadParen => Some(RowId::SetRestMethod),
        _ => {
            if begins_property(class) {
                Some(RowId::SetRestSetter)
            } else {
                Some(RowId::SetRestEmpty)
            }
        },
    }
}

pub fn property_name(class: Class) -> Option<RowId>
    ensures { (newline : Bool) → result ≡ row_of symbols.PropName class newline }
{
    match class {
        Class::Text => Some(RowId::PropNameText),
        Class::Number => Some(RowId::PropNameNumber),
        Class::OpenBracket => Some(RowId::PropNameComputed),
        _ => {
            if is_name(class) {
                Some(RowId::PropNameName)
            } else {
                None
            }
        },
    }
}

pub fn template_tail(class: Class) -> Option<RowId>
    ensures { (newline : Bool) → result ≡ row_of symbols.TplMore class newline }
{
    match class {
        Class::TemplateMiddle => Some(RowId::TplMoreMiddle),
        Class::TemplateTail => Some(RowId::TplMoreTail),
        _ => None,
    }
}
