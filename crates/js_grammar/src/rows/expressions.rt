//! The rows of expressions at a token.

ghost use Rattle.std.specs.Prelude.{◌≡◌, Bool};
ghost use Rattle.js_grammar.specs.declared.symbols.Symbol.TheVariants as symbols;
ghost use Rattle.js_grammar.specs.Choice.{row_of};

use crate::class::Class;
use crate::firsts::{begins_argument, begins_expression, begins_operand, begins_primary};
use crate::symbols::{Level, Mode, RowId, Terminal};
use crate::terminals::takes;

pub fn comma(mode: Mode, class: Class) -> Option<RowId>
    ensures { (newline : Bool) → result ≡ row_of (symbols.Comma mode) class newline }
{
    match class {
        Class::Comma => Some(RowId::Comma(mode)),
        _ => Some(RowId::CommaEmpty(mode)),
    }
}

pub fn assignment_tail(mode: Mode, class: Class, newline: bool) -> Option<RowId>
    ensures { result ≡ row_of (symbols.AssignTail mode) class newline }
{
    match class {
        Class::Equals => Some(RowId::AssignTailEquals(mode)),
        Class::Compound => Some(RowId::AssignTailCompound(mode)),
        Class::Arrow if !newline => Some(RowId::AssignTailArrow(mode)),
        _ => Some(RowId::AssignTailEmpty(mode)),
    }
}

pub fn conditional_tail(mode: Mode, class: Class) -> Option<RowId>
    ensures { (newline : Bool) → result ≡ row_of (symbols.CondTail mode) class newline }
{
    match class {
        Class::Question => Some(RowId::CondTail(mode)),
        _ => Some(RowId::CondTailEmpty(mode)),
    }
}

pub fn level_tail(level: Level, mode: Mode, class: Class) -> Option<RowId>
    ensures { (newline : Bool) → result ≡ row_of (symbols.LevelTail level mode) class newline }
{
    if takes(Terminal::Operator(level, mode), class) {
        Some(RowId::LevelTail(level, mode))
    } else {
        Some(RowId::LevelTailEmpty(level, mode))
    }
}

pub fn unary(class: Class) -> Option<RowId>
    ensures { (newline : Bool) → result ≡ row_of symbols.Unary class newline }
{
    match class {
        Class::Sign | Class::Complement | Class::UnaryWord => Some(RowId::UnaryOperator),
        Class::Increment => Some(RowId::UnaryIncrement),
        Class::Decrement => Some(RowId::UnaryDecrement),
        _ => {
            if begins_operand(class) {
                Some(RowId::UnaryLhs)
            } else {
                None
            }
        },
    }
}

pub fn postfix(class: Class, newline: bool) -> Option<RowId>
    ensures { result ≡ row_of symbols.Post class newline }
{
    if newline {
        Some(RowId::PostEmpty)
    } else {
        match class {
            Class::Increment => Some(RowId::PostIncrement),
            Class::Decrement => Some(RowId::PostDecrement),
            _ => Some(RowId::PostEmpty)
        }
    }
}

pub fn left_hand_side(class: Class) -> Option<RowId>
    ensures { (newline : Bool) → result ≡ row_of symbols.Lhs class newline }
{
    match class {
        Class::New => Some(RowId::LhsNew),
        _ => {
            if begins_primary(class) {
                Some(RowId::LhsPrimary)
            } else {
                None
            }
        },
    }
}

pub fn calls(class: Class) -> Option<RowId>
    ensures { (newline : Bool) → result ≡ row_of symbols.LhsTail class newline }
{
    match class {
        Class::Dot | Class::OpenBracket => Some(RowId::LhsTailAccess),
        Class::OpenParen | Class::HeadParen => Some(RowId::LhsTailCall),
        Class::TemplateWhole | Class::TemplateHead => None,
        _ => Some(RowId::LhsTailEmpty),
    }
}

pub fn access(class: Class) -> Option<RowId>
    ensures { (newline : Bool) → result ≡ row_of symbols.Access class newline }
{
    match class {
        Class::Dot => Some(RowId::AccessName),
        Class::OpenBracket => Some(RowId::AccessIndex),
        _ => None,
    }
}

pub fn callee(class: Class) -> Option<RowId>
    ensures { (newline : Bool) → result ≡ row_of symbols.Callee class newline }
{
    match class {
        Class::New => Some(RowId::CalleeNew),
        _ => {
            if begins_primary(class) {
                Some(RowId::CalleePrimary)
            } else {
                None
            }
        },
    }
}

pub fn members(class: Class) -> Option<RowId>
    ensures { (newline : Bool) → result ≡ row_of symbols.MemberTail class newline }
{
    match class {
        Class::Dot | Class::OpenBracket => Some(RowId::MemberTail),
        Class::TemplateWhole | Class::TemplateHead => None,
        _ => Some(RowId::MemberTailEmpty),
    }
}

pub fn arguments_of_new(class: Class) -> Option<RowId>
    ensures { (newline : Bool) → result ≡ row_of symbols.NewArgs class newline }
{
    match class {
        Class::OpenParen | Class::HeadParen => Some(RowId::NewArgs),
        _ => Some(RowId::NewArgsEmpty),
    }
}

pub fn arguments(class: Class) -> Option<RowId>
    ensures { (newline : Bool) → result ≡ row_of symbols.Args class newline }
{
    if begins_argument(class) {
        Some(RowId::Args)
    } else {
        Some(RowId::ArgsEmpty)
    }
}

pub fn more_arguments(class: Class) -> Option<RowId>
    ensures { (newline : Bool) → result ≡ row_of symbols.ArgMore class newline }
{
    match class {
        Class::Comma => Some(RowId::ArgMore),
        _ => Some(RowId::ArgMoreEmpty),
    }
}

pub fn argument(class: Class) -> Option<RowId>
    ensures { (newline : Bool) → result ≡ row_of symbols.Arg class newline }
{
    match class {
        Class::Ellipsis => Some(RowId::ArgSpread),
        _ => {
            if begins_expression(class) {
                Some(RowId::ArgPlain)
            } else {
                None
            }
        },
    }
}
