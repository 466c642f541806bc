//! The tokens of a whole text.

ghost use Rattle.std.specs.Prelude.{◌≡◌, ◌^◌, ◌≤◌, ◌++◌, ◌∷◌, ◌+◌, [], length, IfOk, IfErr, OnOk};
ghost use Rattle.js_tokens.specs.Tokens.{AreTokens, AreEnded};
ghost use Rattle.js_tokens.specs.Values.{IsTokenOf};
ghost use Rattle.std.specs.List.{All};
ghost use Rattle.js_tokens.specs.Cut.{CutOf, FirstFault, IfFault, token};

use crate::braces::Braces;
use crate::cursor::Cursor;
use crate::heads::mark_heads;
use crate::kinds::{Token, TokenFault, TokenKind};
use crate::scan::{Item, scan};
use crate::words::kind_of_name;
use bast_base::Memory;
use std::alloc::Global;

impl From<Memory> for TokenFault {
    ghost use Rattle.std.specs.Prelude.{◌≡◌};
    ghost use Rattle.js_tokens.specs.declared.kinds.TokenFault.TheVariants.{Memory as NoMemory};

    ghost from_gives = { λ _ fault. fault ≡ NoMemory };

    fn from(_: Memory) -> Self {
        TokenFault::Memory
    }
}

/// The tokens of a text in their order, `End` last, or the first fault.
///
/// A token is the longest that begins at its place, and between two tokens stand white space, line terminators and
/// comments. Each fault but `Memory` stands where the text has it.
pub fn tokens(alloc: Global, text: &str) -> Result<Vec<Token>, TokenFault>
    requires { length text.now ≤ 2 ^ 31 }
    ensures tokens { IfOk result (λ tokens. AreTokens text.now tokens.items) }
    ensures each { IfOk result (λ tokens. All (IsTokenOf text.now) tokens.items) }
    ensures ended { IfOk result (λ tokens. AreEnded tokens.items) }
    ensures few { IfOk result (λ tokens. length tokens.items ≤ length text.now + 1) }
    ensures fault { IfErr result (λ e. IfFault e (FirstFault text.now)) }
{
    let mut tokens = cut(alloc, text)?;
    mark_heads(alloc, &mut tokens)?;
    Ok(tokens)
}

// The tokens of a text, of which none is marked as a head.
fn cut(alloc: Global, text: &str) -> Result<Vec<Token>, TokenFault>
    requires { length text.now ≤ 2 ^ 31 }
    ensures cut { IfOk result (λ tokens. CutOf text.now tokens.items) }
    ensures fault { IfErr result (λ e. IfFault e (FirstFault text.now)) }
{
    let mut tokens = Vec::new(alloc);
    let mut braces = Braces::new(alloc);
    let mut cursor = Cursor::new(text);
    let mut newline_before = false;
    loop {
        let from = cursor.at();
        let item = match scan(&mut cursor, braces.inside()) {
            Ok(item) => item,
            Err(fault) => return Err(fault),
        };
        let to = cursor.at();
        match item {
            Item::Gap { newline } => newline_before = newline_before || newline,
            Item::Name => {
                let kind = kind_of_name(&text[from as usize..to as usize]);
                push(&mut tokens, kind, from, to, newline_before)?;
                newline_before = false;
            }
            Item::Token(kind) => {
                push(&mut tokens, kind, from, to, newline_before)?;
                braces.pass(kind)?;
                newline_before = false;
            }
            Item::Over => {
                push(&mut tokens, TokenKind::End, from, to, newline_before)?;
                return Ok(tokens);
            }
        }
    }
}

// Adds a token that is no head at the end.
fn push(
    tokens: &mut Vec<Token>,
    kind: TokenKind,
    from: u32,
    to: u32,
    newline_before: bool,
) -> Result<(), Memory>
    ensures { OnOk result (tokens.new.items ≡ tokens.old.items ++ token kind from to newline_before ∷ []) }
{
    tokens.push(Token {
        kind,
        from,
        to,
        newline_before,
        head: false,
    })?;
    Ok(())
}
