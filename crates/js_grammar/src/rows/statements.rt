//! The rows of statements and declarations at a token.

ghost use Rattle.std.specs.Prelude.{◌≡◌, Bool};
ghost use Rattle.js_grammar.specs.declared.symbols.Symbol.TheVariants as symbols;
ghost use Rattle.js_grammar.specs.Choice.{row_of};

use crate::class::Class;
use crate::firsts::{begins_expression, begins_item, begins_statement};
use crate::symbols::{Mode, RowId};
use crate::terminals::is_identifier;

pub fn items(class: Class) -> Option<RowId>
    ensures { (newline : Bool) → result ≡ row_of symbols.Items class newline }
{
    if begins_item(class) {
        Some(RowId::Items)
    } else {
        Some(RowId::ItemsEmpty)
    }
}

pub fn item(class: Class) -> Option<RowId>
    ensures { (newline : Bool) → result ≡ row_of symbols.Item class newline }
{
    match class {
        Class::Function => Some(RowId::ItemFunction),
        Class::Let | Class::Const => Some(RowId::ItemLexical),
        _ => {
            if begins_statement(class) {
                Some(RowId::ItemStat)
            } else {
                None
            }
        },
    }
}

pub fn lexical(class: Class) -> Option<RowId>
    ensures { (newline : Bool) → result ≡ row_of symbols.Lexical class newline }
{
    match class {
        Class::Let => Some(RowId::LexicalLet),
        Class::Const => Some(RowId::LexicalConst),
        _ => None,
    }
}

pub fn declarations_tail(mode: Mode, class: Class) -> Option<RowId>
    ensures { (newline : Bool) → result ≡ row_of (symbols.DeclTail mode) class newline }
{
    match class {
        Class::Comma => Some(RowId::DeclTail(mode)),
        _ => Some(RowId::DeclTailEmpty(mode)),
    }
}

pub fn initializer(mode: Mode, class: Class) -> Option<RowId>
    ensures { (newline : Bool) → result ≡ row_of (symbols.Init mode) class newline }
{
    match class {
        Class::Equals => Some(RowId::Init(mode)),
        _ => Some(RowId::InitEmpty(mode)),
    }
}

pub fn statement(class: Class) -> Option<RowId>
    ensures { (newline : Bool) → result ≡ row_of symbols.Stat class newline }
{
    match class {
        Class::OpenBrace => Some(RowId::StatBlock),
        Class::Var => Some(RowId::StatVar),
        Class::Semicolon => Some(RowId::StatEmpty),
        Class::Debugger => Some(RowId::StatDebugger),
        Class::If => Some(RowId::StatIf),
        Class::For => Some(RowId::StatFor),
        Class::While => Some(RowId::StatWhile),
        Class::Do => Some(RowId::StatDo),
        Class::Continue => Some(RowId::StatContinue),
        Class::Break => Some(RowId::StatBreak),
        Class::Return => Some(RowId::StatReturn),
        Class::Throw => Some(RowId::StatThrow),
        Class::Switch => Some(RowId::StatSwitch),
        Class::Try => Some(RowId::StatTry),
        Class::Function => None,
        _ => {
            if begins_expression(class) {
                Some(RowId::StatExpr)
            } else {
                None
            }
        },
    }
}

pub fn else_part(class: Class) -> Option<RowId>
    ensures { (newline : Bool) → result ≡ row_of symbols.Else class newline }
{
    match class {
        Class::Else => Some(RowId::Else),
        _ => Some(RowId::ElseEmpty),
    }
}

pub fn do_end(class: Class) -> Option<RowId>
    ensures { (newline : Bool) → result ≡ row_of symbols.DoEnd class newline }
{
    match class {
        Class::Semicolon => Some(RowId::DoEnd),
        _ => Some(RowId::DoEndEmpty),
    }
}

pub fn jump(class: Class, newline: bool) -> Option<RowId>
    ensures { result ≡ row_of symbols.Jump class newline }
{
    if is_identifier(class) && !newline {
        Some(RowId::JumpLabel)
    } else {
        Some(RowId::JumpPlain)
    }
}

pub fn returned(class: Class, newline: bool) -> Option<RowId>
    ensures { result ≡ row_of symbols.Ret class newline }
{
    if begins_expression(class) && !newline {
        Some(RowId::RetExpr)
    } else {
        Some(RowId::RetPlain)
    }
}

pub fn label(class: Class) -> Option<RowId>
    ensures { (newline : Bool) → result ≡ row_of symbols.Label class newline }
{
    match class {
        Class::Colon => Some(RowId::LabelBody),
        _ => Some(RowId::LabelSemi),
    }
}

pub fn for_head(class: Class) -> Option<RowId>
    ensures { (newline : Bool) → result ≡ row_of symbols.ForHead class newline }
{
    match class {
        Class::Var => Some(RowId::ForHeadVar),
        Class::Let => Some(RowId::ForHeadLet),
        Class::Const => Some(RowId::ForHeadConst),
        Class::Semicolon => Some(RowId::ForHeadEmpty),
        _ => {
            if begins_expression(class) {
                Some(RowId::ForHeadExpr)
            } else {
                None
            }
        },
    }
}

pub fn for_binding(class: Class) -> Option<RowId>
    ensures { (newline : Bool) → result ≡ row_of symbols.ForBind class newline }
{
    match class {
        Class::In => Some(RowId::ForBindIn),
        Class::Of => Some(RowId::ForBindOf),
        Class::Equals | Class::Comma | Class::Semicolon => Some(RowId::ForBindInit),
        _ => None,
    }
}

pub fn for_expression(class: Class) -> Option<RowId>
    ensures { (newline : Bool) → result ≡ row_of symbols.ForExpr class newline }
{
    match class {
        Class::In => Some(RowId::ForExprIn),
        Class::Of => Some(RowId::ForExprOf),
        Class::Semicolon => Some(RowId::ForExprRest),
        _ => None,
    }
}

pub fn optional_expression(class: Class) -> Option<RowId>
    ensures { (newline : Bool) → result ≡ row_of symbols.ExprOpt class newline }
{
    if begins_expression(class) {
        Some(RowId::ExprOpt)
    } else {
        Some(RowId::ExprOptEmpty)
    }
}

pub fn cases(class: Class) -> Option<RowId>
    ensures { (newline : Bool) → result ≡ row_of symbols.Cases class newline }
{
    match class {
        Class::Case => Some(RowId::CasesCase),
        Class::Default => Some(RowId::CasesDefault),
        _ => Some(RowId::CasesEmpty),
    }
}

pub fn cases_after_default(class: Class) -> Option<RowId>
    ensures { (newline : Bool) → result ≡ row_of symbols.CasesD class newline }
{
    match class {
        Class::Case => Some(RowId::CasesDCase),
        _ => Some(RowId::CasesDEmpty),
    }
}

pub fn try_rest(class: Class) -> Option<RowId>
    ensures { (newline : Bool) → result ≡ row_of symbols.TryRest class newline }
{
    match class {
        Class::Catch => Some(RowId::TryRestCatch),
        Class::Finally => Some(RowId::TryRestFinally),
        _ => None,
    }
}

pub fn finally_part(class: Class) -> Option<RowId>
    ensures { (newline : Bool) → result ≡ row_of symbols.Fin class newline }
{
    match class {
        Class::Finally => Some(RowId::Fin),
        _ => Some(RowId::FinEmpty),
    }
}
