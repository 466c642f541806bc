//! What the machine sees of a token.

ghost use Rattle.std.specs.Prelude.{◌≡◌, ◌≤◌, length};
ghost use Rattle.js_machine.specs.Lookahead.{seen_in};

use js_grammar::{Class, class_of};
use js_tokens::{Token, TokenKind};

/// What the machine sees of a token.
#[derive(Clone, Copy)]
pub struct Lookahead {
    pub class: Class,
    pub kind: TokenKind,
    pub newline_before: bool,
    /// The place of its first byte.
    pub at: u32,
}

/// What the machine sees of a token of the text.
pub(crate) fn look_at(text: &str, token: &Token) -> Lookahead
    requires { token.now.from ≤ token.now.to × token.now.to ≤ length text.now }
    ensures { result ≡ seen_in text.now token.now }
{
    Lookahead {
        class: class_of(text, token),
        kind: token.kind,
        newline_before: token.newline_before,
        at: token.from,
    }
}
