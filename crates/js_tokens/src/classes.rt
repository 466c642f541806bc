//! The classes of characters that tokens are made of.

ghost use Rattle.std.specs.Prelude.{◌≡◌};
ghost use Rattle.js_tokens.specs.Classes.{is_space, is_newline, is_start, is_part};

/// White space (ECMA-262, 6th edition, 11.2).
pub(crate) fn is_space(c: char) -> bool
    ensures { result ≡ is_space c }
{
    c == ' '
        || c == '\t'
        || c == '\u{B}'
        || c == '\u{C}'
        || c == '\u{A0}'
        || c == '\u{FEFF}'
        || c == '\u{1680}'
        || (c > '\u{1FFF}' && c < '\u{200B}')
        || c == '\u{202F}'
        || c == '\u{205F}'
        || c == '\u{3000}'
}

/// A line terminator (11.3).
pub(crate) fn is_newline(c: char) -> bool
    ensures { result ≡ is_newline c }
{
    c == '\n' || c == '\r' || c == '\u{2028}' || c == '\u{2029}'
}

/// What an identifier starts with (11.6).
pub(crate) fn is_start(c: char) -> bool
    ensures { result ≡ is_start c }
{
    c == '$' || c == '_' || unicode_ident::is_xid_start(c)
}

/// What an identifier goes on with (11.6).
pub(crate) fn is_part(c: char) -> bool
    ensures { result ≡ is_part c }
{
    c == '$' || c == '\u{200C}' || c == '\u{200D}' || unicode_ident::is_xid_continue(c)
}
