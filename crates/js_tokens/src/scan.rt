//! One token, or one gap.

ghost use Rattle.std.specs.Prelude.{◌≡◌, ◌<◌, ◌≤◌, Bool, IsTrue, false, length};
ghost use Rattle.js_tokens.specs.Place.{Gives, past, behind};
ghost use Rattle.js_tokens.specs.Classes.{is_part, is_in_line};
ghost use Rattle.js_tokens.specs.Scan.{scan_at, token_at, begins_number, begins_piece, piece, comment_at, comment_from, other_at};

use crate::classes::{is_newline, is_part, is_space, is_start};
use crate::cursor::Cursor;
use crate::kinds::{Piece, TokenFault, TokenKind};
use crate::marks::punctuator;
use crate::numbers::number;
use crate::strings::{string, template};

/// What stands at a place of a text.
#[derive(Clone, Copy)]
pub enum Item {
    /// White space, a line terminator or a comment.
    Gap { newline: bool },
    /// An identifier or a reserved word.
    Name,
    /// Any other token.
    Token(TokenKind),
    /// The end of the text.
    Over,
}

/// Passes the gap or the token that stands next. A `}` closes a `${` where `inside`.
pub(crate) fn scan(cursor: &mut Cursor<'_>, inside: bool) -> Result<Item, TokenFault>
    ensures value { Gives result cursor.new (scan_at inside cursor.old.chars cursor.old.at) }
    ensures shorter { 0 < length cursor.old.chars → length cursor.new.chars < length cursor.old.chars }
{
    let at = cursor.at();
    let Some(c) = cursor.next() else {
        return Ok(Item::Over);
    };
    if is_space(c) {
        Ok(Item::Gap { newline: false })
    } else if is_newline(c) {
        Ok(Item::Gap { newline: true })
    } else if is_start(c) {
        identifier_rest(cursor);
        Ok(Item::Name)
    } else {
        token(cursor, inside, c, at)
    }
}

// The tokens that are no names, behind their first character, which stands at `start`.
fn token(cursor: &mut Cursor<'_>, inside: bool, c: char, start: u32) -> Result<Item, TokenFault>
    ensures value { Gives result cursor.new (token_at inside c cursor.old start) }
    ensures within { length cursor.new.chars ≤ length cursor.old.chars }
{
    if begins_number(cursor, c) {
        let value = number(cursor, c, start)?;
        Ok(Item::Token(TokenKind::Number(value)))
    } else if c == '"' || c == '\'' {
        let _more = string(cursor, c, start)?;
        Ok(Item::Token(TokenKind::Text))
    } else if begins_piece(inside, c) {
        let more = template(cursor, start)?;
        Ok(Item::Token(TokenKind::Template(piece(c, more))))
    } else {
        other(cursor, c, start)
    }
}

fn identifier_rest(cursor: &mut Cursor<'_>)
    ensures value { cursor.new ≡ past is_part cursor.old }
    ensures within { length cursor.new.chars ≤ length cursor.old.chars }
{
    while let Some(c) = cursor.peek() {
        if !is_part(c) {
            break;
        }
        let _passed = cursor.next();
    }
}

// Whether a number begins with the character, behind which the cursor stands.
fn begins_number(cursor: &Cursor<'_>, c: char) -> bool
    ensures { result ≡ begins_number c cursor.now.chars }
{
    c.is_ascii_digit()
        || (c == '.'
            && match cursor.peek() {
                Some(next) => next.is_ascii_digit(),
                None => false,
            })
}

// Whether a piece of a template begins with the character.
fn begins_piece(inside: bool, c: char) -> bool
    ensures { result ≡ begins_piece inside c }
{
    c == '`' || (c == '}' && inside)
}

// Which piece of a template it is, by its first character and by whether `${` closes it.
fn piece(first: char, more: bool) -> Piece
    ensures { result ≡ piece first more }
{
    if first == '`' {
        if more { Piece::Head } else { Piece::Whole }
    } else {
        if more { Piece::Middle } else { Piece::Tail }
    }
}

// Comments, punctuators, and what begins no token, behind their first character, which stands at `start`.
fn other(cursor: &mut Cursor<'_>, c: char, start: u32) -> Result<Item, TokenFault>
    ensures value { Gives result cursor.new (other_at c cursor.old start) }
    ensures within { length cursor.new.chars ≤ length cursor.old.chars }
{
    if c == '/' && cursor.next_is('/') {
        line_rest(cursor);
        Ok(Item::Gap { newline: false })
    } else if c == '/' && cursor.next_is('*') {
        let _star = cursor.next();
        comment(cursor, start)
    } else if c == '\\' {
        Err(TokenFault::EscapedName { at: start })
    } else {
        match punctuator(cursor, c) {
            Some(mark) => Ok(Item::Token(TokenKind::Punctuator(mark))),
            None => Err(TokenFault::BadChar { at: start }),
        }
    }
}

fn line_rest(cursor: &mut Cursor<'_>)
    ensures value { cursor.new ≡ past is_in_line cursor.old }
    ensures within { length cursor.new.chars ≤ length cursor.old.chars }
{
    while let Some(c) = cursor.peek() {
        if is_newline(c) {
            break;
        }
        let _passed = cursor.next();
    }
}

// The rest of a comment behind its `/*`, which stands at `start`.
fn comment(cursor: &mut Cursor<'_>, start: u32) -> Result<Item, TokenFault>
    ensures value { Gives result cursor.new (comment_at cursor.old start) }
    ensures within { length cursor.new.chars ≤ length cursor.old.chars }
{
    let mut newline = false;
    while let Some(c) = cursor.next() {
        if c == '*' && cursor.next_is('/') {
            let _slash = cursor.next();
            return Ok(Item::Gap { newline });
        }
        newline = newline || is_newline(c);
    }
    Err(TokenFault::EndedComment { at: start })
}
