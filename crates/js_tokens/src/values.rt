//! The values of strings, and raw texts.

ghost use Rattle.std.specs.Prelude.{◌≡◌, ◌≤◌, ◌++◌, ◌||◌, true, false, string_bytes, encode_utf8_all, IfOk, OnOk};
ghost use Rattle.js_tokens.specs.Values.{IsTokenOf, is_text, is_template, closing_len, piece_closing, value_at, raw_at, until, line_feed, line_feeds};

use crate::cursor::Cursor;
use crate::kinds::{Piece, Token, TokenKind};
use crate::strings::{Step, string_step};
use bast_base::Memory;
use std::alloc::Global;

/// The value of a string (ECMA-262, 6th edition, 11.8.4.2): the text that its characters and escapes give.
pub fn string_value(alloc: Global, text: &str, token: &Token) -> Result<String, Memory>
    requires token { IsTokenOf text.now token.now }
    requires text { is_text token.now.kind ≡ true }
    ensures { IfOk result (λ value. string_bytes value ≡ value_at text.now token.now.from) }
{
    let mut value = String::new(alloc);
    let mut cursor = Cursor::from(text, token.from);
    let Some(quote) = cursor.next() else {
        return Ok(value);
    };
    loop {
        match string_step(&mut cursor, quote, token.from) {
            Ok(Step::Char(c)) => value.push(c)?,
            Ok(Step::Nothing) => {}
            Ok(Step::Closed { .. }) => return Ok(value),
            Err(_) => unreachable!(),
        }
    }
}

/// The raw text of a string (14.1.1) or of a piece of a template (11.8.6.1): what stands between its delimiters. In a
/// template's U+000D U+000A and U+000D are U+000A.
pub fn raw_text(alloc: Global, text: &str, token: &Token) -> Result<String, Memory>
    requires token { IsTokenOf text.now token.now }
    requires text { is_text token.now.kind || is_template token.now.kind ≡ true }
    ensures { IfOk result (λ raw. string_bytes raw ≡ raw_at text.now token.now) }
{
    let mut cursor = Cursor::from(text, token.from);
    let _delimiter = cursor.next();
    let closing = closing_len(token.kind);
    if is_template(token.kind) {
        with_line_feeds(alloc, &mut cursor, closing, token.to)
    } else {
        unchanged(alloc, &mut cursor, closing, token.to)
    }
}

// The characters before the byte `stop`, of which `closing` more bytes are left out.
fn unchanged(
    alloc: Global,
    cursor: &mut Cursor<'_>,
    closing: u32,
    stop: u32,
) -> Result<String, Memory>
    requires { closing ≤ 2 }
    ensures { IfOk result (λ raw. string_bytes raw ≡ encode_utf8_all (until closing stop cursor.old.chars cursor.old.at)) }
{
    let mut raw = String::new(alloc);
    while cursor.at() + closing < stop {
        let Some(c) = cursor.next() else {
            return Ok(raw);
        };
        raw.push(c)?;
    }
    Ok(raw)
}

// The same with U+000D U+000A and U+000D made U+000A.
fn with_line_feeds(
    alloc: Global,
    cursor: &mut Cursor<'_>,
    closing: u32,
    stop: u32,
) -> Result<String, Memory>
    requires { closing ≤ 2 }
    ensures { IfOk result (λ raw. string_bytes raw ≡ encode_utf8_all (line_feeds false (until closing stop cursor.old.chars cursor.old.at))) }
{
    let mut raw = String::new(alloc);
    let mut behind_return = false;
    while cursor.at() + closing < stop {
        let Some(c) = cursor.next() else {
            return Ok(raw);
        };
        put(&mut raw, c, behind_return)?;
        behind_return = c == '\r';
    }
    Ok(raw)
}

// Adds a character, a line feed for U+000D, and nothing for U+000A behind U+000D.
fn put(raw: &mut String, c: char, behind_return: bool) -> Result<(), Memory>
    ensures { OnOk result (string_bytes raw.new ≡ string_bytes raw.old ++ encode_utf8_all (line_feed behind_return c)) }
{
    if c == '\r' {
        raw.push('\n')?;
    } else if !(c == '\n' && behind_return) {
        raw.push(c)?;
    }
    Ok(())
}

fn is_template(kind: TokenKind) -> bool
    ensures { result ≡ is_template kind }
{
    match kind {
        TokenKind::Template(_) => true,
        TokenKind::Text
        | TokenKind::Identifier
        | TokenKind::Reserved(_)
        | TokenKind::Punctuator(_)
        | TokenKind::Number(_)
        | TokenKind::End => false,
    }
}

// How many bytes close a token that has a raw text.
fn closing_len(kind: TokenKind) -> u32
    ensures value { result ≡ closing_len kind }
    ensures few { result ≤ 2 }
{
    match kind {
        TokenKind::Template(piece) => piece_closing(piece),
        TokenKind::Text
        | TokenKind::Identifier
        | TokenKind::Reserved(_)
        | TokenKind::Punctuator(_)
        | TokenKind::Number(_)
        | TokenKind::End => 1,
    }
}

fn piece_closing(piece: Piece) -> u32
    ensures value { result ≡ piece_closing piece }
    ensures few { result ≤ 2 }
{
    match piece {
        Piece::Whole | Piece::Tail => 1,
        Piece::Head | Piece::Middle => 2,
    }
}
