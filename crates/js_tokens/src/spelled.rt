//! Which raw texts can be spelled where they are.

ghost use Rattle.std.specs.Prelude.{◌≡◌, ◌<◌, ◌-◌, ◌^◌, length};
ghost use Rattle.std.specs.Str.{chars};
ghost use Rattle.js_tokens.specs.Strings.{string_at, template_at, closing};
ghost use Rattle.js_tokens.specs.Words.{each};
ghost use Rattle.js_tokens.specs.Spelled.{quote_of, is_one_string, is_one_template, is_no_return, is_whole, is_empty, between_two};

use crate::cursor::{Cursor, split_first};
use crate::strings::{string, template};

// A raw text of so many bytes stands in no text that can be cut.
const LIMIT: usize = (1 << 31) - 8;

/// The quote that a directive with this raw text is written in (ECMA-262, 6th edition, 14.1.1): `"` where the raw text
/// between two of it is one string, else `'` where that is so, else `None`.
///
/// A raw text of 2^31 - 8 bytes or more stands in no text that can be cut, and has no quote.
pub fn directive_quote(raw: &str) -> Option<char>
    ensures { result ≡ quote_of raw.now }
{
    if is_one_string(raw, '"') {
        Some('"')
    } else if is_one_string(raw, '\'') {
        Some('\'')
    } else {
        None
    }
}

// Whether the raw text between two of this quote is one string.
fn is_one_string(raw: &str, quote: char) -> bool
    requires { quote < 128 }
    ensures { result ≡ is_one_string quote raw.now }
{
    raw.len() < LIMIT && closes_string(raw, quote)
}

fn closes_string(raw: &str, quote: char) -> bool
    requires short { length raw.now < 2 ^ 31 - 8 }
    requires ascii { quote < 128 }
    ensures { result ≡ is_whole (closing (string_at quote (between_two quote raw.now) 0)) }
{
    let mut cursor = Cursor::between_two(raw, quote);
    match string(&mut cursor, quote, 0) {
        Ok(more) => !more && is_over(&cursor),
        Err(_) => false,
    }
}

/// Whether the raw text between two backticks is one template (11.8.6) with that raw text.
///
/// A raw text of 2^31 - 8 bytes or more stands in no text that can be cut.
pub fn template_spelled(raw: &str) -> bool
    ensures { result ≡ is_one_template raw.now }
{
    has_no_return(raw) && raw.len() < LIMIT && closes_template(raw)
}

fn closes_template(raw: &str) -> bool
    requires { length raw.now < 2 ^ 31 - 8 }
    ensures { result ≡ is_whole (closing (template_at (between_two 96 raw.now) 0)) }
{
    let mut cursor = Cursor::between_two(raw, '`');
    match template(&mut cursor, 0) {
        Ok(more) => !more && is_over(&cursor),
        Err(_) => false,
    }
}

// Whether no U+000D stands in a text.
fn has_no_return(text: &str) -> bool
    ensures { result ≡ each is_no_return (chars text.now) }
{
    let mut rest = text;
    while let Some((c, behind)) = split_first(rest) {
        if c == '\r' {
            return false;
        }
        rest = behind;
    }
    true
}

// Whether nothing is left.
fn is_over(cursor: &Cursor<'_>) -> bool
    ensures { result ≡ is_empty cursor.now.chars }
{
    match cursor.peek() {
        Some(_) => false,
        None => true,
    }
}
