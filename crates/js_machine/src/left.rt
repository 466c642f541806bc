//! What is left out of the language where the machine is stuck.

ghost use Rattle.std.specs.Prelude.{◌≡◌, ◌∷◌, []};
ghost use Rattle.js_machine.specs.Left.{fits, left_of, is_behind, is_binding, is_mark, is_statement, is_tail, is_word};
ghost use Rattle.js_grammar.specs.declared.class.Class.TheVariants as classes;

use crate::lookahead::Lookahead;
use crate::stops::Left;
use js_grammar::{Class, Symbol, Terminal};
use js_tokens::{Mark, TokenKind, Word};

/// What is left out, of all that fits where the symbol is wanted and the token comes instead, behind a token of the class.
pub(crate) fn left_of(symbol: Symbol, before: Option<Class>, token: Lookahead) -> Option<Left>
    ensures { result ≡ left_of symbol before token }
{
    if fits(symbol, before, token, Left::Class) {
        Some(Left::Class)
    } else if fits(symbol, before, token, Left::Super) {
        Some(Left::Super)
    } else if fits(symbol, before, token, Left::With) {
        Some(Left::With)
    } else if fits(symbol, before, token, Left::Module) {
        Some(Left::Module)
    } else if fits(symbol, before, token, Left::Generator) {
        Some(Left::Generator)
    } else if fits(symbol, before, token, Left::TaggedTemplate) {
        Some(Left::TaggedTemplate)
    } else if fits(symbol, before, token, Left::BindingPattern) {
        Some(Left::BindingPattern)
    } else if fits(symbol, before, token, Left::BareFunction) {
        Some(Left::BareFunction)
    } else if fits(symbol, before, token, Left::NewTarget) {
        Some(Left::NewTarget)
    } else if fits(symbol, before, token, Left::Regex) {
        Some(Left::Regex)
    } else {
        None
    }
}

fn fits(symbol: Symbol, before: Option<Class>, token: Lookahead, left: Left) -> bool
    ensures { result ≡ fits symbol before token left }
{
    let kind = token.kind;
    let class = token.class;
    match left {
        Left::Class => is_word(Word::Class, kind),
        Left::Super => is_word(Word::Super, kind),
        Left::With => is_word(Word::With, kind),
        Left::Module => is_word(Word::Import, kind) || is_word(Word::Export, kind),
        Left::Generator => {
            is_word(Word::Yield, kind)
                || (is_mark(Mark::Star, kind) && follows_what_a_star_may(before))
        }
        Left::TaggedTemplate => {
            matches!(class, Class::TemplateWhole | Class::TemplateHead) && is_tail(symbol)
        }
        Left::BindingPattern => {
            matches!(class, Class::OpenBracket | Class::OpenBrace) && is_binding(symbol)
        }
        Left::BareFunction => matches!(class, Class::Function) && is_statement(symbol),
        Left::NewTarget => matches!(class, Class::Dot) && follows_new(before),
        Left::Regex => is_mark(Mark::Slash, kind) || is_mark(Mark::SlashAssign, kind),
    }
}

fn is_word(word: Word, kind: TokenKind) -> bool
    ensures { result ≡ is_word word kind }
{
    match kind {
        TokenKind::Reserved(other) => word as u8 == other as u8,
        _ => false,
    }
}

fn is_mark(mark: Mark, kind: TokenKind) -> bool
    ensures { result ≡ is_mark mark kind }
{
    match kind {
        TokenKind::Punctuator(other) => mark as u8 == other as u8,
        _ => false,
    }
}

fn follows_what_a_star_may(before: Option<Class>) -> bool
    ensures { result ≡ is_behind (classes.Function ∷ classes.OpenBrace ∷ classes.Comma ∷ []) before }
{
    match before {
        Some(class) => matches!(class, Class::Function | Class::OpenBrace | Class::Comma),
        None => false,
    }
}

fn follows_new(before: Option<Class>) -> bool
    ensures { result ≡ is_behind (classes.New ∷ []) before }
{
    match before {
        Some(class) => matches!(class, Class::New),
        None => false,
    }
}

fn is_tail(symbol: Symbol) -> bool
    ensures { result ≡ is_tail symbol }
{
    matches!(symbol, Symbol::LhsTail | Symbol::MemberTail)
}

fn is_binding(symbol: Symbol) -> bool
    ensures { result ≡ is_binding symbol }
{
    matches!(
        symbol,
        Symbol::Take(Terminal::Bind) | Symbol::Params | Symbol::ParamNext
    )
}

fn is_statement(symbol: Symbol) -> bool
    ensures { result ≡ is_statement symbol }
{
    matches!(symbol, Symbol::Body | Symbol::Stat)
}
