//! What the tree needs of a token.

use bast_base::NameId;
use js_tokens::TokenKind;

/// What the tree needs of a token that was taken, its texts as their places in a table.
#[derive(Clone, Copy)]
pub struct Leaf {
    /// What the token is: an operator, or a number with its value.
    pub kind: TokenKind,
    /// The text of an identifier or a reserved word, the decimal spelling of a number, the value of a string, the raw
    /// text of a piece of a template.
    pub text: Option<NameId>,
    /// The raw text of a string, which may be a directive.
    pub raw: Option<NameId>,
}
