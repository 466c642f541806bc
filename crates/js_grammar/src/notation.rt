//! How symbols, tokens and rows are written in the notation of `docs/grammar.md`.

use crate::class::Class;
use crate::marks::marked;
use crate::row_symbols::symbols_of;
use crate::rows::row;
use crate::symbols::{Level, Mode, RowId, Symbol, Terminal};
use std::alloc::{AllocError, Global};

pub static CLASSES: [Class; 69] = [
    Class::End,
    Class::Semicolon,
    Class::Comma,
    Class::OpenBrace,
    Class::CloseBrace,
    Class::OpenParen,
    Class::HeadParen,
    Class::CloseParen,
    Class::OpenBracket,
    Class::CloseBracket,
    Class::Ellipsis,
    Class::Equals,
    Class::Compound,
    Class::Arrow,
    Class::Colon,
    Class::Question,
    Class::Dot,
    Class::Increment,
    Class::Decrement,
    Class::LogicalOr,
    Class::LogicalAnd,
    Class::BitwiseOr,
    Class::BitwiseXor,
    Class::BitwiseAnd,
    Class::Equality,
    Class::Relational,
    Class::Shift,
    Class::Sign,
    Class::Multiplicative,
    Class::Complement,
    Class::Identifier,
    Class::Of,
    Class::Get,
    Class::Set,
    Class::Number,
    Class::Text,
    Class::TemplateWhole,
    Class::TemplateHead,
    Class::TemplateMiddle,
    Class::TemplateTail,
    Class::Instanceof,
    Class::In,
    Class::UnaryWord,
    Class::This,
    Class::Null,
    Class::True,
    Class::False,
    Class::New,
    Class::Function,
    Class::Let,
    Class::Const,
    Class::Var,
    Class::Debugger,
    Class::If,
    Class::Else,
    Class::For,
    Class::While,
    Class::Do,
    Class::Continue,
    Class::Break,
    Class::Return,
    Class::Throw,
    Class::Switch,
    Class::Case,
    Class::Default,
    Class::Try,
    Class::Catch,
    Class::Finally,
    Class::OtherWord,
];

pub static LEVELS: [Level; 10] = [
    Level::LogicalOr,
    Level::LogicalAnd,
    Level::BitwiseOr,
    Level::BitwiseXor,
    Level::BitwiseAnd,
    Level::Equality,
    Level::Relational,
    Level::Shift,
    Level::Additive,
    Level::Multiplicative,
];

pub static PLAIN: [Symbol; 54] = [
    Symbol::Script,
    Symbol::Items,
    Symbol::Item,
    Symbol::Lexical,
    Symbol::Function,
    Symbol::Params,
    Symbol::ParamTail,
    Symbol::ParamNext,
    Symbol::Body,
    Symbol::Stat,
    Symbol::Block,
    Symbol::Else,
    Symbol::DoEnd,
    Symbol::Jump,
    Symbol::Ret,
    Symbol::Throw,
    Symbol::Label,
    Symbol::ForHead,
    Symbol::ForBind,
    Symbol::ForExpr,
    Symbol::ForRest,
    Symbol::ExprOpt,
    Symbol::Cases,
    Symbol::CasesD,
    Symbol::TryRest,
    Symbol::Fin,
    Symbol::Unary,
    Symbol::Post,
    Symbol::Lhs,
    Symbol::LhsTail,
    Symbol::Again,
    Symbol::Access,
    Symbol::New,
    Symbol::Callee,
    Symbol::MemberTail,
    Symbol::NewArgs,
    Symbol::Args,
    Symbol::ArgMore,
    Symbol::Arg,
    Symbol::Primary,
    Symbol::FuncName,
    Symbol::Elems,
    Symbol::ElemMore,
    Symbol::Props,
    Symbol::PropMore,
    Symbol::Prop,
    Symbol::Long,
    Symbol::Short,
    Symbol::GetRest,
    Symbol::SetRest,
    Symbol::Method,
    Symbol::PropName,
    Symbol::TplRest,
    Symbol::TplMore,
];

/// The symbols that stand for two, in one of their modes.
pub fn moded(mode: Mode) -> [Symbol; 11] {
    [
        Symbol::Decls(mode),
        Symbol::DeclTail(mode),
        Symbol::Decl(mode),
        Symbol::Init(mode),
        Symbol::Expr(mode),
        Symbol::Comma(mode),
        Symbol::Assign(mode),
        Symbol::AssignTail(mode),
        Symbol::Arrow(mode),
        Symbol::Cond(mode),
        Symbol::CondTail(mode),
    ]
}

/// The name of a symbol, without its level and the mark of its mode.
fn name_of(symbol: Symbol) -> &'static str {
    match symbol {
        Symbol::Semi => "Semi",
        Symbol::Take(terminal) => terminal_name(terminal),
        Symbol::Level(_, _) => "L",
        Symbol::LevelTail(_, _) => "T",
        Symbol::Script => "Script",
        Symbol::Items => "Items",
        Symbol::Item => "Item",
        Symbol::Lexical => "Lexical",
        Symbol::Function => "Function",
        Symbol::Params => "Params",
        Symbol::ParamTail => "ParamTail",
        Symbol::ParamNext => "ParamNext",
        Symbol::Body => "Body",
        Symbol::Stat => "Stat",
        Symbol::Block => "Block",
        Symbol::Else => "Else",
        Symbol::DoEnd => "DoEnd",
        Symbol::Jump => "Jump",
        Symbol::Ret => "Ret",
        Symbol::Throw => "Throw",
        Symbol::Label => "Label",
        Symbol::ForHead => "ForHead",
        Symbol::ForBind => "ForBind",
        Symbol::ForExpr => "ForExpr",
        Symbol::ForRest => "ForRest",
        Symbol::ExprOpt => "ExprOpt",
        Symbol::Cases => "Cases",
        Symbol::CasesD => "CasesD",
        Symbol::TryRest => "TryRest",
        Symbol::Fin => "Fin",
        Symbol::Unary => "Unary",
        Symbol::Post => "Post",
        Symbol::Lhs => "Lhs",
        Symbol::LhsTail => "LhsTail",
        Symbol::Again => "Again",
        Symbol::Access => "Access",
        Symbol::New => "New",
        Symbol::Callee => "Callee",
        Symbol::MemberTail => "MemberTail",
        Symbol::NewArgs => "NewArgs",
        Symbol::Args => "Args",
        Symbol::ArgMore => "ArgMore",
        Symbol::Arg => "Arg",
        Symbol::Primary => "Primary",
        Symbol::FuncName => "FuncName",
        Symbol::Elems => "Elems",
        Symbol::ElemMore => "ElemMore",
        Symbol::Props => "Props",
        Symbol::PropMore => "PropMore",
        Symbol::Prop => "Prop",
        Symbol::Long => "Long",
        Symbol::Short => "Short",
        Symbol::GetRest => "GetRest",
        Symbol::SetRest => "SetRest",
        Symbol::Method => "Method",
        Symbol::PropName => "PropName",
        Symbol::TplRest => "TplRest",
        Symbol::TplMore => "TplMore",
        Symbol::Decls(_) => "Decls",
        Symbol::DeclTail(_) => "DeclTail",
        Symbol::Decl(_) => "Decl",
        Symbol::Init(_) => "Init",
        Symbol::Expr(_) => "Expr",
        Symbol::Comma(_) => "Comma",
        Symbol::Assign(_) => "Assign",
        Symbol::AssignTail(_) => "AssignTail",
        Symbol::Arrow(_) => "Arrow",
        Symbol::Cond(_) => "Cond",
        Symbol::CondTail(_) => "CondTail",
    }
}

fn terminal_name(terminal: Terminal) -> &'static str {
    match terminal {
        Terminal::One(class) => class_name(class),
        Terminal::OpenParen => "(",
        Terminal::Ident => "Ident",
        Terminal::Bind => "Bind",
        Terminal::Name => "Name",
        Terminal::UnaryOperator => "unop",
        Terminal::Operator(_, _) => "op",
    }
}

/// The number of a symbol's level, if it has one.
fn level_of(symbol: Symbol) -> &'static str {
    match symbol {
        Symbol::Take(Terminal::Operator(level, _))
        | Symbol::Level(level, _)
        | Symbol::LevelTail(level, _) => number_of(level),
        _ => "",
    }
}

/// The mark of a symbol's mode. Of operators those of the level of `in` have one.
fn mark_of_symbol(symbol: Symbol) -> &'static str {
    match symbol {
        Symbol::Decls(mode)
        | Symbol::DeclTail(mode)
        | Symbol::Decl(mode)
        | Symbol::Init(mode)
        | Symbol::Expr(mode)
        | Symbol::Comma(mode)
        | Symbol::Assign(mode)
        | Symbol::AssignTail(mode)
        | Symbol::Arrow(mode)
        | Symbol::Cond(mode)
        | Symbol::CondTail(mode) => mark_of(mode),
        Symbol::Level(_, mode) | Symbol::LevelTail(_, mode) => mark_of(mode),
        Symbol::Take(Terminal::Operator(Level::Relational, mode)) => mark_of(mode),
        _ => "",
    }
}

fn mark_of(mode: Mode) -> &'static str {
    match mode {
        Mode::WithIn => "",
        Mode::NoIn => "~",
    }
}

fn number_of(level: Level) -> &'static str {
    match level {
        Level::LogicalOr => "3",
        Level::LogicalAnd => "4",
        Level::BitwiseOr => "5",
        Level::BitwiseXor => "6",
        Level::BitwiseAnd => "7",
        Level::Equality => "8",
        Level::Relational => "9",
        Level::Shift => "10",
        Level::Additive => "11",
        Level::Multiplicative => "12",
    }
}

pub fn class_name(class: Class) -> &'static str {
    match class {
        Class::End => "end",
        Class::Semicolon => ";",
        Class::Comma => ",",
        Class::OpenBrace => "{",
        Class::CloseBrace => "}",
        Class::OpenParen => "(",
        Class::HeadParen => "head",
        Class::CloseParen => ")",
        Class::OpenBracket => "[",
        Class::CloseBracket => "]",
        Class::Ellipsis => "...",
        Class::Equals => "=",
        Class::Compound => "compound",
        Class::Arrow => "=>",
        Class::Colon => ":",
        Class::Question => "?",
        Class::Dot => ".",
        Class::Increment => "++",
        Class::Decrement => "--",
        Class::LogicalOr => "logicalor",
        Class::LogicalAnd => "logicaland",
        Class::BitwiseOr => "bitwiseor",
        Class::BitwiseXor => "bitwisexor",
        Class::BitwiseAnd => "bitwiseand",
        Class::Equality => "equality",
        Class::Relational => "relational",
        Class::Shift => "shift",
        Class::Sign => "sign",
        Class::Multiplicative => "multiplicative",
        Class::Complement => "complement",
        Class::Identifier => "identifier",
        Class::Of => "of",
        Class::Get => "get",
        Class::Set => "set",
        Class::Number => "number",
        Class::Text => "string",
        Class::TemplateWhole => "Whole",
        Class::TemplateHead => "Head",
        Class::TemplateMiddle => "Middle",
        Class::TemplateTail => "Tail",
        Class::Instanceof => "instanceof",
        Class::In => "in",
        Class::UnaryWord => "unaryword",
        Class::This => "this",
        Class::Null => "null",
        Class::True => "true",
        Class::False => "false",
        Class::New => "new",
        Class::Function => "function",
        Class::Let => "let",
        Class::Const => "const",
        Class::Var => "var",
        Class::Debugger => "debugger",
        Class::If => "if",
        Class::Else => "else",
        Class::For => "for",
        Class::While => "while",
        Class::Do => "do",
        Class::Continue => "continue",
        Class::Break => "break",
        Class::Return => "return",
        Class::Throw => "throw",
        Class::Switch => "switch",
        Class::Case => "case",
        Class::Default => "default",
        Class::Try => "try",
        Class::Catch => "catch",
        Class::Finally => "finally",
        Class::OtherWord => "otherword",
    }
}

pub fn push_symbol(into: &mut String, symbol: Symbol) -> Result<(), AllocError> {
    into.push_str(name_of(symbol))?;
    into.push_str(level_of(symbol))?;
    into.push_str(mark_of_symbol(symbol))
}

/// The symbols of a row and its mark, or `-` where it has none.
pub fn row_text(alloc: Global, row: RowId) -> Result<String, AllocError> {
    let mut text = String::new(alloc);
    for symbol in symbols_of(row) {
        if !text.is_empty() {
            text.push(' ')?;
        }
        push_symbol(&mut text, *symbol)?;
    }
    if text.is_empty() {
        text.push('-')?;
    }
    if marked(row) {
        text.push_str(" ^")?;
    }
    Ok(text)
}

/// The rows that a symbol takes at any token, each once, in the order of their texts.
fn rows_of(alloc: Global, symbol: Symbol, classes: &[Class]) -> Result<Vec<String>, AllocError> {
    let mut texts: Vec<String> = Vec::new(alloc);
    for class in classes {
        for newline in [false, true] {
            if let Some(taken) = row(symbol, *class, newline) {
                let text = row_text(alloc, taken)?;
                if !texts.iter().any(|other| *other == text) {
                    texts.push(text)?;
                }
            }
        }
    }
    texts.sort()?;
    Ok(texts)
}

/// A line for a symbol: its name and its rows.
pub fn push_line(alloc: Global, into: &mut String, symbol: Symbol) -> Result<(), AllocError> {
    push_symbol(into, symbol)?;
    into.push_str(": ")?;
    let texts = rows_of(alloc, symbol, &CLASSES)?;
    let mut first = true;
    for text in texts.iter() {
        if !first {
            into.push_str(" | ")?;
        }
        into.push_str(text)?;
        first = false;
    }
    into.push('\n')
}

/// The lines of the symbols of a mode.
pub fn push_moded(
    alloc: Global,
    into: &mut String,
    mode: Mode,
    levels: &[Level],
) -> Result<(), AllocError> {
    for symbol in moded(mode) {
        push_line(alloc, into, symbol)?;
    }
    for level in levels {
        push_line(alloc, into, Symbol::Level(*level, mode))?;
        push_line(alloc, into, Symbol::LevelTail(*level, mode))?;
    }
    Ok(())
}

/// The lines of these symbols.
pub fn push_lines(alloc: Global, into: &mut String, symbols: &[Symbol]) -> Result<(), AllocError> {
    for symbol in symbols {
        push_line(alloc, into, *symbol)?;
    }
    Ok(())
}
