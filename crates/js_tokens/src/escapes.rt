//! Escapes in strings and templates.

ghost use Rattle.std.specs.Prelude.{◌≡◌, ◌<◌, ◌≤◌, length, IfOk};
ghost use Rattle.js_tokens.specs.Place.{Gives};
ghost use Rattle.js_tokens.specs.Escapes.{escape_at, other_at, hex_digit, two_digits, four_digits, code_point, closing_brace, unicode, unit, single, HasHalf};

use crate::classes::is_newline;
use crate::cursor::Cursor;
use crate::kinds::TokenFault;
use crate::numbers::{digit_of, digits};

/// What an escape stands for.
#[derive(Clone, Copy)]
pub enum Escaped {
    /// A character.
    Char(char),
    /// Half of a surrogate pair.
    Half(u32),
    /// Nothing, where a line goes on.
    Nothing,
}

/// Passes the rest of an escape behind its `\`, which stands at `start`.
pub(crate) fn escape(cursor: &mut Cursor<'_>, start: u32) -> Result<Escaped, TokenFault>
    ensures value { Gives result cursor.new (escape_at cursor.old start) }
    ensures half { IfOk result HasHalf }
    ensures within { length cursor.new.chars ≤ length cursor.old.chars }
{
    let Some(c) = cursor.next() else {
        return Err(TokenFault::BadEscape { at: start });
    };
    match single(c) {
        Some(value) => Ok(Escaped::Char(value)),
        None => other(cursor, c, start),
    }
}

// The character that a letter or a sign stands for behind a `\`.
fn single(c: char) -> Option<char>
    ensures { result ≡ single c }
{
    match c {
        '\'' | '"' | '\\' => Some(c),
        'b' => Some('\u{8}'),
        'f' => Some('\u{C}'),
        'n' => Some('\n'),
        'r' => Some('\r'),
        't' => Some('\t'),
        'v' => Some('\u{B}'),
        _ => None,
    }
}

// The rest of an escape behind its first character, which is none of the single ones.
fn other(cursor: &mut Cursor<'_>, c: char, start: u32) -> Result<Escaped, TokenFault>
    ensures value { Gives result cursor.new (other_at c cursor.old start) }
    ensures half { IfOk result HasHalf }
    ensures within { length cursor.new.chars ≤ length cursor.old.chars }
{
    if c == 'x' {
        let value = two_digits(cursor, start)?;
        return Ok(unit(value));
    }
    if c == 'u' {
        return unicode(cursor, start);
    }
    if c == '0' {
        return match cursor.peek() {
            Some(next) if next.is_ascii_digit() => Err(TokenFault::BadEscape { at: start }),
            _ => Ok(Escaped::Char('\0')),
        };
    }
    if c.is_ascii_digit() {
        return Err(TokenFault::BadEscape { at: start });
    }
    if c == '\r' {
        let _line_feed = cursor.eat('\n');
        return Ok(Escaped::Nothing);
    }
    if is_newline(c) {
        Ok(Escaped::Nothing)
    } else {
        Ok(Escaped::Char(c))
    }
}

// The rest of an escape behind `\u`.
fn unicode(cursor: &mut Cursor<'_>, start: u32) -> Result<Escaped, TokenFault>
    ensures value { Gives result cursor.new (unicode cursor.old start) }
    ensures half { IfOk result HasHalf }
    ensures within { length cursor.new.chars ≤ length cursor.old.chars }
{
    let value = if cursor.eat('{') {
        code_point(cursor, start)?
    } else {
        four_digits(cursor, start)?
    };
    Ok(unit(value))
}

// A character, or half of a surrogate pair.
fn unit(value: u32) -> Escaped
    requires { value ≤ 0x10FFFF }
    ensures value { result ≡ unit value }
    ensures half { HasHalf result }
{
    match char::from_u32(value) {
        Some(c) => Escaped::Char(c),
        None => Escaped::Half(value),
    }
}

// A code point in braces, behind the opening one.
fn code_point(cursor: &mut Cursor<'_>, start: u32) -> Result<u32, TokenFault>
    ensures value { Gives result cursor.new (code_point cursor.old start) }
    ensures bound { IfOk result (λ value. value ≤ 0x10FFFF) }
    ensures within { length cursor.new.chars ≤ length cursor.old.chars }
{
    let before = cursor.at();
    let digits = digits(cursor, 16, 0);
    if cursor.at() == before {
        return Err(TokenFault::BadEscape { at: start });
    }
    match digits {
        Some(value) if value <= 0x10FFFF => closed(cursor, value as u32, start),
        _ => Err(TokenFault::BadEscape { at: start }),
    }
}

// The brace behind a code point.
fn closed(cursor: &mut Cursor<'_>, value: u32, start: u32) -> Result<u32, TokenFault>
    ensures value { Gives result cursor.new (closing_brace cursor.old value start) }
    ensures same { IfOk result (λ v. v ≡ value) }
    ensures within { length cursor.new.chars ≤ length cursor.old.chars }
{
    if cursor.eat('}') {
        Ok(value)
    } else {
        Err(TokenFault::BadEscape { at: start })
    }
}

fn four_digits(cursor: &mut Cursor<'_>, start: u32) -> Result<u32, TokenFault>
    ensures value { Gives result cursor.new (four_digits cursor.old start) }
    ensures bound { IfOk result (λ value. value < 65536) }
    ensures within { length cursor.new.chars ≤ length cursor.old.chars }
{
    let high = two_digits(cursor, start)?;
    let low = two_digits(cursor, start)?;
    Ok(high * 256 + low)
}

fn two_digits(cursor: &mut Cursor<'_>, start: u32) -> Result<u32, TokenFault>
    ensures value { Gives result cursor.new (two_digits cursor.old start) }
    ensures bound { IfOk result (λ value. value < 256) }
    ensures within { length cursor.new.chars ≤ length cursor.old.chars }
{
    let high = hex_digit(cursor, start)?;
    let low = hex_digit(cursor, start)?;
    Ok(high * 16 + low)
}

fn hex_digit(cursor: &mut Cursor<'_>, start: u32) -> Result<u32, TokenFault>
    ensures value { Gives result cursor.new (hex_digit cursor.old start) }
    ensures bound { IfOk result (λ value. value < 16) }
    ensures within { length cursor.new.chars ≤ length cursor.old.chars }
{
    let Some(c) = cursor.next() else {
        return Err(TokenFault::BadEscape { at: start });
    };
    match digit_of(c, 16) {
        Some(digit) => Ok(digit),
        None => Err(TokenFault::BadEscape { at: start }),
    }
}
