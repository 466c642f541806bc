mod expressions;
mod functions;
mod literals;
mod statements;

ghost use Rattle.std.specs.Prelude.{◌≡◌};
ghost use Rattle.js_grammar.specs.Choice.{row_of};

use crate::class::Class;
use crate::symbols::{RowId, Symbol};

/// The row that a symbol takes at a token of the class, or `None` where it has none for that token.
///
/// `newline` tells whether a line terminator stands before the token.
pub fn row(symbol: Symbol, class: Class, newline: bool) -> Option<RowId>
    ensures { result ≡ row_of symbol class newline }
{
    match symbol {
        Symbol::Semi | Symbol::Take(_) => None,
        Symbol::Script => Some(RowId::Script),
        Symbol::Items => statements::items(class),
        Symbol::Item => statements::item(class),
        Symbol::Lexical => statements::lexical(class),
        Symbol::Decls(mode) => Some(RowId::Decls(mode)),
        Symbol::DeclTail(mode) => statements::declarations_tail(mode, class),
        Symbol::Decl(mode) => Some(RowId::Decl(mode)),
        Symbol::Init(mode) => statements::initializer(mode, class),
        Symbol::Function => Some(RowId::Function),
        Symbol::Params => functions::parameters(class),
        Symbol::ParamTail => functions::parameters_tail(class),
        Symbol::ParamNext => functions::next_parameter(class),
        Symbol::Body => Some(RowId::Body),
        Symbol::Stat => statements::statement(class),
        Symbol::Block => Some(RowId::Block),
        Symbol::Else => statements::else_part(class),
        Symbol::DoEnd => statements::do_end(class),
        Symbol::Jump => statements::jump(class, newline),
        Symbol::Ret => statements::returned(class, newline),
        Symbol::Throw => if newline { None } else { Some(RowId::Throw) },
        Symbol::Label => statements::label(class),
        Symbol::ForHead => statements::for_head(class),
        Symbol::ForBind => statements::for_binding(class),
        Symbol::ForExpr => statements::for_expression(class),
        Symbol::ForRest => Some(RowId::ForRest),
        Symbol::ExprOpt => statements::optional_expression(class),
        Symbol::Cases => statements::cases(class),
        Symbol::CasesD => statements::cases_after_default(class),
        Symbol::TryRest => statements::try_rest(class),
        Symbol::Fin => statements::finally_part(class),
        Symbol::Expr(mode) => Some(RowId::Expr(mode)),
        Symbol::Comma(mode) => expressions::comma(mode, class),
        Symbol::Assign(mode) => Some(RowId::Assign(mode)),
        Symbol::AssignTail(mode) => expressions::assignment_tail(mode, class, newline),
        Symbol::Arrow(mode) => functions::arrow_body(mode, class),
        Symbol::Cond(mode) => Some(RowId::Cond(mode)),
        Symbol::CondTail(mode) => expressions::conditional_tail(mode, class),
        Symbol::Level(level, mode) => Some(RowId::Level(level, mode)),
        Symbol::LevelTail(level, mode) => expressions::level_tail(level, mode, class),
        Symbol::Unary => expressions::unary(class),
        Symbol::Post => expressions::postfix(class, newline),
        Symbol::Lhs => expressions::left_hand_side(class),
        Symbol::LhsTail => expressions::calls(class),
        Symbol::Again => Some(RowId::Again),
        Symbol::Access => expressions::access(class),
        Symbol::New => Some(RowId::New),
        Symbol::Callee => expressions::callee(class),
        Symbol::MemberTail => expressions::members(class),
        Symbol::NewArgs => expressions::arguments_of_new(class),
        Symbol::Args => expressions::arguments(class),
        Symbol::ArgMore => expressions::more_arguments(class),
        Symbol::Arg => expressions::argument(class),
        Symbol::Primary => literals::primary(class),
        Symbol::FuncName => functions::function_name(class),
        Symbol::Elems => literals::elements(class),
        Symbol::ElemMore => literals::more_elements(class),
        Symbol::Props => literals::properties(class),
        Symbol::PropMore => literals::more_properties(class),
        Symbol::Prop => literals::property(class),
        Symbol::Long => literals::value_or_method(class),
        Symbol::Short => literals::shorthand(class),
        Symbol::GetRest => literals::after_get(class),
        Symbol::SetRest => literals::after_set(class),
        Symbol::Method => Some(RowId::Method),
        Symbol::PropName => literals::property_name(class),
        Symbol::TplRest => Some(RowId::TplRest),
        Symbol::TplMore => literals::template_tail(class),
    }
}
