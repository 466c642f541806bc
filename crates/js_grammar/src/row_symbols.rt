//! The symbols of each row. `tools/write_row_symbols.py` writes this file from the definition, to which it is proved equal.

ghost use Rattle.std.specs.Prelude.{◌≡◌};
ghost use Rattle.js_grammar.specs.declared.symbols.RowId.TheVariants as rows;
ghost use Rattle.js_grammar.specs.Rows.{row_symbols};

use crate::class::Class;
use crate::symbols::Level::{
    Additive, BitwiseAnd, BitwiseOr, BitwiseXor, Equality, LogicalAnd, LogicalOr, Multiplicative,
    Relational, Shift,
};
use crate::symbols::Mode::{NoIn, WithIn};
use crate::symbols::Symbol::{
    Access, Again, Arg, ArgMore, Args, Arrow, Assign, AssignTail, Block, Body, Callee, Cases,
    CasesD, Comma, Cond, CondTail, Decl, DeclTail, Decls, DoEnd, ElemMore, Elems, Else, Expr,
    ExprOpt, Fin, ForBind, ForExpr, ForHead, ForRest, FuncName, Function, GetRest, Init, Item,
    Items, Jump, Label, Level, LevelTail, Lexical, Lhs, LhsTail, Long, MemberTail, Method, New,
    NewArgs, ParamNext, ParamTail, Params, Post, Primary, Prop, PropMore, PropName, Props, Ret,
    Semi, SetRest, Short, Stat, Take, Throw, TplMore, TplRest, TryRest, Unary,
};
use crate::symbols::{self, RowId, Symbol, Terminal};

const ARROW: Symbol = Take(Terminal::One(Class::Arrow));

const BIND: Symbol = Take(Terminal::Bind);

const BREAK: Symbol = Take(Terminal::One(Class::Break));

const CASE: Symbol = Take(Terminal::One(Class::Case));

const CATCH: Symbol = Take(Terminal::One(Class::Catch));

const CLOSE_BRACE: Symbol = Take(Terminal::One(Class::CloseBrace));

const CLOSE_BRACKET: Symbol = Take(Terminal::One(Class::CloseBracket));

const CLOSE_PAREN: Symbol = Take(Terminal::One(Class::CloseParen));

const COLON: Symbol = Take(Terminal::One(Class::Colon));

const COMMA: Symbol = Take(Terminal::One(Class::Comma));

const COMPOUND: Symbol = Take(Terminal::One(Class::Compound));

const CONST: Symbol = Take(Terminal::One(Class::Const));

const CONTINUE: Symbol = Take(Terminal::One(Class::Continue));

const DEBUGGER: Symbol = Take(Terminal::One(Class::Debugger));

const DECREMENT: Symbol = Take(Terminal::One(Class::Decrement));

const DEFAULT: Symbol = Take(Terminal::One(Class::Default));

const DO: Symbol = Take(Terminal::One(Class::Do));

const DOT: Symbol = Take(Terminal::One(Class::Dot));

const ELLIPSIS: Symbol = Take(Terminal::One(Class::Ellipsis));

const ELSE: Symbol = Take(Terminal::One(Class::Else));

const END: Symbol = Take(Terminal::One(Class::End));

const EQUALS: Symbol = Take(Terminal::One(Class::Equals));

const FALSE: Symbol = Take(Terminal::One(Class::False));

const FINALLY: Symbol = Take(Terminal::One(Class::Finally));

const FOR: Symbol = Take(Terminal::One(Class::For));

const FUNCTION: Symbol = Take(Terminal::One(Class::Function));

const GET: Symbol = Take(Terminal::One(Class::Get));

const HEAD_PAREN: Symbol = Take(Terminal::One(Class::HeadParen));

const IDENT: Symbol = Take(Terminal::Ident);

const IF: Symbol = Take(Terminal::One(Class::If));

const IN: Symbol = Take(Terminal::One(Class::In));

const INCREMENT: Symbol = Take(Terminal::One(Class::Increment));

const LET: Symbol = Take(Terminal::One(Class::Let));

const NAME: Symbol = Take(Terminal::Name);

const NEW: Symbol = Take(Terminal::One(Class::New));

const NULL: Symbol = Take(Terminal::One(Class::Null));

const NUMBER: Symbol = Take(Terminal::One(Class::Number));

const OF: Symbol = Take(Terminal::One(Class::Of));

const OPEN_BRACE: Symbol = Take(Terminal::One(Class::OpenBrace));

const OPEN_BRACKET: Symbol = Take(Terminal::One(Class::OpenBracket));

const OPEN_PAREN: Symbol = Take(Terminal::OpenParen);

const QUESTION: Symbol = Take(Terminal::One(Class::Question));

const RETURN: Symbol = Take(Terminal::One(Class::Return));

const SEMICOLON: Symbol = Take(Terminal::One(Class::Semicolon));

const SET: Symbol = Take(Terminal::One(Class::Set));

const SWITCH: Symbol = Take(Terminal::One(Class::Switch));

const TEMPLATE_HEAD: Symbol = Take(Terminal::One(Class::TemplateHead));

const TEMPLATE_MIDDLE: Symbol = Take(Terminal::One(Class::TemplateMiddle));

const TEMPLATE_TAIL: Symbol = Take(Terminal::One(Class::TemplateTail));

const TEMPLATE_WHOLE: Symbol = Take(Terminal::One(Class::TemplateWhole));

const TEXT: Symbol = Take(Terminal::One(Class::Text));

const THIS: Symbol = Take(Terminal::One(Class::This));

const THROW: Symbol = Take(Terminal::One(Class::Throw));

const TRUE: Symbol = Take(Terminal::One(Class::True));

const TRY: Symbol = Take(Terminal::One(Class::Try));

const UNARY_OPERATOR: Symbol = Take(Terminal::UnaryOperator);

const VAR: Symbol = Take(Terminal::One(Class::Var));

const WHILE: Symbol = Take(Terminal::One(Class::While));

/// The symbols of a row, in their order.
pub fn symbols_of(row: RowId) -> &'static [Symbol]
    ensures { result.now ≡ row_symbols row }
{
    match row {
        RowId::Script => &[Items, END],
        RowId::Items => &[Item, Items],
        RowId::ItemsEmpty => &[],
        RowId::ItemFunction => &[Function],
        RowId::ItemLexical => &[Lexical],
        RowId::ItemStat => &[Stat],
        RowId::LexicalLet => &[LET, Decls(WithIn), Semi],
        RowId::LexicalConst => &[CONST, Decls(WithIn), Semi],
        RowId::Decls(WithIn) => &[Decl(WithIn), DeclTail(WithIn)],
        RowId::Decls(NoIn) => &[Decl(NoIn), DeclTail(NoIn)],
        RowId::DeclTail(WithIn) => &[COMMA, Decl(WithIn), DeclTail(WithIn)],
        RowId::DeclTail(NoIn) => &[COMMA, Decl(NoIn), DeclTail(NoIn)],
        RowId::DeclTailEmpty(_) => &[],
        RowId::Decl(WithIn) => &[BIND, Init(WithIn)],
        RowId::Decl(NoIn) => &[BIND, Init(NoIn)],
        RowId::Init(WithIn) => &[EQUALS, Assign(WithIn)],
        RowId::Init(NoIn) => &[EQUALS, Assign(NoIn)],
        RowId::InitEmpty(_) => &[],
        RowId::Function => &[
            FUNCTION,
            BIND,
            OPEN_PAREN,
            Params,
            CLOSE_PAREN,
            OPEN_BRACE,
            Items,
            CLOSE_BRACE,
        ],
        RowId::Params => &[BIND, Init(WithIn), ParamTail],
        RowId::ParamsRest => &[ELLIPSIS, BIND],
        RowId::ParamsEmpty => &[],
        RowId::ParamTail => &[COMMA, ParamNext],
        RowId::ParamTailEmpty => &[],
        RowId::ParamNext => &[BIND, Init(WithIn), ParamTail],
        RowId::ParamNextRest => &[ELLIPSIS, BIND],
        RowId::Body => &[Stat],
        RowId::StatBlock => &[Block],
        RowId::StatVar => &[VAR, Decls(WithIn), Semi],
        RowId::StatEmpty => &[SEMICOLON],
        RowId::StatDebugger => &[DEBUGGER, Semi],
        RowId::StatIf => &[IF, OPEN_PAREN, Expr(WithIn), CLOSE_PAREN, Body, Else],
        RowId::StatFor => &[FOR, OPEN_PAREN, ForHead, CLOSE_PAREN, Body],
        RowId::StatWhile => &[WHILE, OPEN_PAREN, Expr(WithIn), CLOSE_PAREN, Body],
        RowId::StatDo => &[
            DO,
            Body,
            WHILE,
            OPEN_PAREN,
            Expr(WithIn),
            CLOSE_PAREN,
            DoEnd,
        ],
        RowId::StatContinue => &[CONTINUE, Jump],
        RowId::StatBreak => &[BREAK, Jump],
        RowId::StatReturn => &[RETURN, Ret],
        RowId::StatThrow => &[THROW, Throw],
        RowId::StatSwitch => &[
            SWITCH,
            OPEN_PAREN,
            Expr(WithIn),
            CLOSE_PAREN,
            OPEN_BRACE,
            Cases,
            CLOSE_BRACE,
        ],
        RowId::StatTry => &[TRY, Block, TryRest],
        RowId::StatExpr => &[Expr(WithIn), Label],
        RowId::Block => &[OPEN_BRACE, Items, CLOSE_BRACE],
        RowId::Else => &[ELSE, Body],
        RowId::ElseEmpty => &[],
        RowId::DoEnd => &[SEMICOLON],
        RowId::DoEndEmpty => &[],
        RowId::JumpLabel => &[IDENT, Semi],
        RowId::JumpPlain => &[Semi],
        RowId::RetExpr => &[Expr(WithIn), Semi],
        RowId::RetPlain => &[Semi],
        RowId::Throw => &[Expr(WithIn), Semi],
        RowId::LabelBody => &[COLON, Body],
        RowId::LabelSemi => &[Semi],
        RowId::ForHeadVar => &[VAR, BIND, ForBind],
        RowId::ForHeadLet => &[LET, BIND, ForBind],
        RowId::ForHeadConst => &[CONST, BIND, ForBind],
        RowId::ForHeadEmpty => &[SEMICOLON, ForRest],
        RowId::ForHeadExpr => &[Expr(NoIn), ForExpr],
        RowId::ForBindIn => &[IN, Expr(WithIn)],
        RowId::ForBindOf => &[OF, Assign(WithIn)],
        RowId::ForBindInit => &[Init(NoIn), DeclTail(NoIn), SEMICOLON, ForRest],
        RowId::ForExprIn => &[IN, Expr(WithIn)],
        RowId::ForExprOf => &[OF, Assign(WithIn)],
        RowId::ForExprRest => &[SEMICOLON, ForRest],
        RowId::ForRest => &[ExprOpt, SEMICOLON, ExprOpt],
        RowId::ExprOpt => &[Expr(WithIn)],
        RowId::ExprOptEmpty => &[],
        RowId::CasesCase => &[CASE, Expr(WithIn), COLON, Items, Cases],
        RowId::CasesDefault => &[DEFAULT, COLON, Items, CasesD],
        RowId::CasesEmpty => &[],
        RowId::CasesDCase => &[CASE, Expr(WithIn), COLON, Items, CasesD],
        RowId::CasesDEmpty => &[],
        RowId::TryRestCatch => &[CATCH, OPEN_PAREN, BIND, CLOSE_PAREN, Block, Fin],
        RowId::TryRestFinally => &[FINALLY, Block],
        RowId::Fin => &[FINALLY, Block],
        RowId::FinEmpty => &[],
        RowId::Expr(WithIn) => &[Assign(WithIn), Comma(WithIn)],
        RowId::Expr(NoIn) => &[Assign(NoIn), Comma(NoIn)],
        RowId::Comma(WithIn) => &[COMMA, Assign(WithIn), Comma(WithIn)],
        RowId::Comma(NoIn) => &[COMMA, Assign(NoIn), Comma(NoIn)],
        RowId::CommaEmpty(_) => &[],
        RowId::Assign(WithIn) => &[Cond(WithIn), AssignTail(WithIn)],
        RowId::Assign(NoIn) => &[Cond(NoIn), AssignTail(NoIn)],
        RowId::AssignTailEquals(WithIn) => &[EQUALS, Assign(WithIn)],
        RowId::AssignTailEquals(NoIn) => &[EQUALS, Assign(NoIn)],
        RowId::AssignTailCompound(WithIn) => &[COMPOUND, Assign(WithIn)],
        RowId::AssignTailCompound(NoIn) => &[COMPOUND, Assign(NoIn)],
        RowId::AssignTailArrow(WithIn) => &[ARROW, Arrow(WithIn)],
        RowId::AssignTailArrow(NoIn) => &[ARROW, Arrow(NoIn)],
        RowId::AssignTailEmpty(_) => &[],
        RowId::ArrowBody(_) => &[OPEN_BRACE, Items, CLOSE_BRACE],
        RowId::ArrowExpr(WithIn) => &[Assign(WithIn)],
        RowId::ArrowExpr(NoIn) => &[Assign(NoIn)],
        RowId::Cond(WithIn) => &[Level(LogicalOr, WithIn), CondTail(WithIn)],
        RowId::Cond(NoIn) => &[Level(LogicalOr, NoIn), CondTail(NoIn)],
        RowId::CondTail(WithIn) => &[QUESTION, Assign(WithIn), COLON, Assign(WithIn)],
        RowId::CondTail(NoIn) => &[QUESTION, Assign(WithIn), COLON, Assign(NoIn)],
        RowId::CondTailEmpty(_) => &[],
        RowId::Level(level, mode) => level_symbols(level, mode),
        RowId::LevelTail(level, mode) => level_tail_symbols(level, mode),
        RowId::LevelTailEmpty(_, _) => &[],
        RowId::UnaryOperator => &[UNARY_OPERATOR, Unary],
        RowId::UnaryIncrement => &[INCREMENT, Unary],
        RowId::UnaryDecrement => &[DECREMENT, Unary],
        RowId::UnaryLhs => &[Lhs, Post],
        RowId::PostIncrement => &[INCREMENT],
        RowId::PostDecrement => &[DECREMENT],
        RowId::PostEmpty => &[],
        RowId::LhsNew => &[New, LhsTail],
        RowId::LhsPrimary => &[Primary, LhsTail],
        RowId::LhsTailAccess => &[Access, LhsTail],
        RowId::LhsTailCall => &[OPEN_PAREN, Args, CLOSE_PAREN, Again],
        RowId::LhsTailEmpty => &[],
        RowId::Again => &[LhsTail],
        RowId::AccessName => &[DOT, NAME],
        RowId::AccessIndex => &[OPEN_BRACKET, Expr(WithIn), CLOSE_BRACKET],
        RowId::New => &[NEW, Callee, NewArgs],
        RowId::CalleeNew => &[New, MemberTail],
        RowId::CalleePrimary => &[Primary, MemberTail],
        RowId::MemberTail => &[Access, MemberTail],
        RowId::MemberTailEmpty => &[],
        RowId::NewArgs => &[OPEN_PAREN, Args, CLOSE_PAREN],
        RowId::NewArgsEmpty => &[],
        RowId::Args => &[Arg, ArgMore],
        RowId::ArgsEmpty => &[],
        RowId::ArgMore => &[COMMA, Arg, ArgMore],
        RowId::ArgMoreEmpty => &[],
        RowId::ArgSpread => &[ELLIPSIS, Assign(WithIn)],
        RowId::ArgPlain => &[Assign(WithIn)],
        RowId::PrimaryThis => &[THIS],
        RowId::PrimaryNull => &[NULL],
        RowId::PrimaryTrue => &[TRUE],
        RowId::PrimaryFalse => &[FALSE],
        RowId::PrimaryNumber => &[NUMBER],
        RowId::PrimaryText => &[TEXT],
        RowId::PrimaryIdent => &[IDENT],
        RowId::PrimaryHead => &[HEAD_PAREN, Params, CLOSE_PAREN],
        RowId::PrimaryParens => &[OPEN_PAREN, Expr(WithIn), CLOSE_PAREN],
        RowId::PrimaryArray => &[OPEN_BRACKET, Elems, CLOSE_BRACKET],
        RowId::PrimaryObject => &[OPEN_BRACE, Props, CLOSE_BRACE],
        RowId::PrimaryWhole => &[TEMPLATE_WHOLE],
        RowId::PrimaryTemplate => &[TEMPLATE_HEAD, TplRest],
        RowId::PrimaryFunction => &[
            FUNCTION,
            FuncName,
            OPEN_PAREN,
            Params,
            CLOSE_PAREN,
            OPEN_BRACE,
            Items,
            CLOSE_BRACE,
        ],
        RowId::FuncName => &[BIND],
        RowId::FuncNameEmpty => &[],
        RowId::ElemsHole => &[COMMA, Elems],
        RowId::ElemsArg => &[Arg, ElemMore],
        RowId::ElemsEmpty => &[],
        RowId::ElemMore => &[COMMA, Elems],
        RowId::ElemMoreEmpty => &[],
        RowId::Props => &[Prop, PropMore],
        RowId::PropsEmpty => &[],
        RowId::PropMore => &[COMMA, Props],
        RowId::PropMoreEmpty => &[],
        RowId::PropGet => &[GET, GetRest],
        RowId::PropSet => &[SET, SetRest],
        RowId::PropIdent => &[IDENT, Short],
        RowId::PropReserved => &[NAME, Long],
        RowId::PropText => &[TEXT, Long],
        RowId::PropNumber => &[NUMBER, Long],
        RowId::PropComputed => &[OPEN_BRACKET, Assign(WithIn), CLOSE_BRACKET, Long],
        RowId::LongValue => &[COLON, Assign(WithIn)],
        RowId::LongMethod => &[Method],
        RowId::ShortValue => &[COLON, Assign(WithIn)],
        RowId::ShortMethod => &[Method],
        RowId::ShortEmpty => &[],
        RowId::GetRestValue => &[COLON, Assign(WithIn)],
        RowId::GetRestMethod => &[Method],
        RowId::GetRestGetter => &[
            PropName,
            OPEN_PAREN,
            CLOSE_PAREN,
            OPEN_BRACE,
            Items,
            CLOSE_BRACE,
        ],
        RowId::GetRestEmpty => &[],
        RowId::SetRestValue => &[COLON, Assign(WithIn)],
        RowId::SetRestMethod => &[Method],
        RowId::SetRestSetter => &[
            PropName,
            OPEN_PAREN,
            BIND,
            Init(WithIn),
            CLOSE_PAREN,
            OPEN_BRACE,
            Items,
            CLOSE_BRACE,
        ],
        RowId::SetRestEmpty => &[],
        RowId::Method => &[
            OPEN_PAREN,
            Params,
            CLOSE_PAREN,
            OPEN_BRACE,
            Items,
            CLOSE_BRACE,
        ],
        RowId::PropNameName => &[NAME],
        RowId::PropNameText => &[TEXT],
        RowId::PropNameNumber => &[NUMBER],
        RowId::PropNameComputed => &[OPEN_BRACKET, Assign(WithIn), CLOSE_BRACKET],
        RowId::TplRest => &[Expr(WithIn), TplMore],
        RowId::TplMoreMiddle => &[TEMPLATE_MIDDLE, Expr(WithIn), TplMore],
        RowId::TplMoreTail => &[TEMPLATE_TAIL],
    }
}

fn level_symbols(level: symbols::Level, mode: symbols::Mode) -> &'static [Symbol]
    ensures { result.now ≡ row_symbols (rows.Level level mode) }
{
    match (level, mode) {
        (LogicalOr, WithIn) => &[Level(LogicalAnd, WithIn), LevelTail(LogicalOr, WithIn)],
        (LogicalOr, NoIn) => &[Level(LogicalAnd, NoIn), LevelTail(LogicalOr, NoIn)],
        (LogicalAnd, WithIn) => &[Level(BitwiseOr, WithIn), LevelTail(LogicalAnd, WithIn)],
        (LogicalAnd, NoIn) => &[Level(BitwiseOr, NoIn), LevelTail(LogicalAnd, NoIn)],
        (BitwiseOr, WithIn) => &[Level(BitwiseXor, WithIn), LevelTail(BitwiseOr, WithIn)],
        (BitwiseOr, NoIn) => &[Level(BitwiseXor, NoIn), LevelTail(BitwiseOr, NoIn)],
        (BitwiseXor, WithIn) => &[Level(BitwiseAnd, WithIn), LevelTail(BitwiseXor, WithIn)],
        (BitwiseXor, NoIn) => &[Level(BitwiseAnd, NoIn), LevelTail(BitwiseXor, NoIn)],
        (BitwiseAnd, WithIn) => &[Level(Equality, WithIn), LevelTail(BitwiseAnd, WithIn)],
        (BitwiseAnd, NoIn) => &[Level(Equality, NoIn), LevelTail(BitwiseAnd, NoIn)],
        (Equality, WithIn) => &[Level(Relational, WithIn), LevelTail(Equality, WithIn)],
        (Equality, NoIn) => &[Level(Relational, NoIn), LevelTail(Equality, NoIn)],
        (Relational, WithIn) => &[Level(Shift, WithIn), LevelTail(Relational, WithIn)],
        (Relational, NoIn) => &[Level(Shift, NoIn), LevelTail(Relational, NoIn)],
        (Shift, WithIn) => &[Level(Additive, WithIn), LevelTail(Shift, WithIn)],
        (Shift, NoIn) => &[Level(Additive, NoIn), LevelTail(Shift, NoIn)],
        (Additive, WithIn) => &[Level(Multiplicative, WithIn), LevelTail(Additive, WithIn)],
        (Additive, NoIn) => &[Level(Multiplicative, NoIn), LevelTail(Additive, NoIn)],
        (Multiplicative, WithIn) => &[Unary, LevelTail(Multiplicative, WithIn)],
        (Multiplicative, NoIn) => &[Unary, LevelTail(Multiplicative, NoIn)],
    }
}

fn level_tail_symbols(level: symbols::Level, mode: symbols::Mode) -> &'static [Symbol]
    ensures { result.now ≡ row_symbols (rows.LevelTail level mode) }
{
    match (level, mode) {
        (LogicalOr, WithIn) => &[
            Take(Terminal::Operator(LogicalOr, WithIn)),
            Level(LogicalAnd, WithIn),
            LevelTail(LogicalOr, WithIn),
        ],
        (LogicalOr, NoIn) => &[
            Take(Terminal::Operator(LogicalOr, NoIn)),
            Level(LogicalAnd, NoIn),
            LevelTail(LogicalOr, NoIn),
        ],
        (LogicalAnd, WithIn) => &[
            Take(Terminal::Operator(LogicalAnd, WithIn)),
            Level(BitwiseOr, WithIn),
            LevelTail(LogicalAnd, WithIn),
        ],
        (LogicalAnd, NoIn) => &[
            Take(Terminal::Operator(LogicalAnd, NoIn)),
            Level(BitwiseOr, NoIn),
            LevelTail(LogicalAnd, NoIn),
        ],
        (BitwiseOr, WithIn) => &[
            Take(Terminal::Operator(BitwiseOr, WithIn)),
            Level(BitwiseXor, WithIn),
            LevelTail(BitwiseOr, WithIn),
        ],
        (BitwiseOr, NoIn) => &[
            Take(Terminal::Operator(BitwiseOr, NoIn)),
            Level(BitwiseXor, NoIn),
            LevelTail(BitwiseOr, NoIn),
        ],
        (BitwiseXor, WithIn) => &[
            Take(Terminal::Operator(BitwiseXor, WithIn)),
            Level(BitwiseAnd, WithIn),
            LevelTail(BitwiseXor, WithIn),
        ],
        (BitwiseXor, NoIn) => &[
            Take(Terminal::Operator(BitwiseXor, NoIn)),
            Level(BitwiseAnd, NoIn),
            LevelTail(BitwiseXor, NoIn),
        ],
        (BitwiseAnd, WithIn) => &[
            Take(Terminal::Operator(BitwiseAnd, WithIn)),
            Level(Equality, WithIn),
            LevelTail(BitwiseAnd, WithIn),
        ],
        (BitwiseAnd, NoIn) => &[
            Take(Terminal::Operator(BitwiseAnd, NoIn)),
            Level(Equality, NoIn),
            LevelTail(BitwiseAnd, NoIn),
        ],
        (Equality, WithIn) => &[
            Take(Terminal::Operator(Equality, WithIn)),
            Level(Relational, WithIn),
            LevelTail(Equality, WithIn),
        ],
        (Equality, NoIn) => &[
            Take(Terminal::Operator(Equality, NoIn)),
            Level(Relational, NoIn),
            LevelTail(Equality, NoIn),
        ],
        (Relational, WithIn) => &[
            Take(Terminal::Operator(Relational, WithIn)),
            Level(Shift, WithIn),
            LevelTail(Relational, WithIn),
        ],
        (Relational, NoIn) => &[
            Take(Terminal::Operator(Relational, NoIn)),
            Level(Shift, NoIn),
            LevelTail(Relational, NoIn),
        ],
        (Shift, WithIn) => &[
            Take(Terminal::Operator(Shift, WithIn)),
            Level(Additive, WithIn),
            LevelTail(Shift, WithIn),
        ],
        (Shift, NoIn) => &[
            Take(Terminal::Operator(Shift, NoIn)),
            Level(Additive, NoIn),
            LevelTail(Shift, NoIn),
        ],
        (Additive, WithIn) => &[
            Take(Terminal::Operator(Additive, WithIn)),
            Level(Multiplicative, WithIn),
            LevelTail(Additive, WithIn),
        ],
        (Additive, NoIn) => &[
            Take(Terminal::Operator(Additive, NoIn)),
            Level(Multiplicative, NoIn),
            LevelTail(Additive, NoIn),
        ],
        (Multiplicative, WithIn) => &[
            Take(Terminal::Operator(Multiplicative, WithIn)),
            Unary,
            LevelTail(Multiplicative, WithIn),
        ],
        (Multiplicative, NoIn) => &[
            Take(Terminal::Operator(Multiplicative, NoIn)),
            Unary,
            LevelTail(Multiplicative, NoIn),
        ],
    }
}
