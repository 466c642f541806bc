//! Punctuators.

ghost use Rattle.std.specs.Prelude.{◌≡◌, ◌≤◌, length};
ghost use Rattle.js_tokens.specs.Marks.{mark_at};
ghost use Rattle.js_tokens.specs.MarkTree.{with_mark, marked, assigns, doubled, dots, not_equals, equals, less, greater, single, longer};

use crate::cursor::Cursor;
use crate::kinds::Mark;

/// Passes the rest of the longest punctuator that begins with the character before the cursor.
pub(crate) fn punctuator(cursor: &mut Cursor<'_>, first: char) -> Option<Mark>
    ensures value { marked result cursor.new ≡ mark_at first cursor.old }
    ensures within { length cursor.new.chars ≤ length cursor.old.chars }
{
    match single(first) {
        Some(mark) => Some(mark),
        None => longer(cursor, first),
    }
}

// The punctuators that no other begins with, and that begin with no other.
fn single(c: char) -> Option<Mark>
    ensures { result ≡ single c }
{
    match c {
        '(' => Some(Mark::OpenParen),
        ')' => Some(Mark::CloseParen),
        '{' => Some(Mark::OpenBrace),
        '}' => Some(Mark::CloseBrace),
        '[' => Some(Mark::OpenBracket),
        ']' => Some(Mark::CloseBracket),
        ';' => Some(Mark::Semicolon),
        ',' => Some(Mark::Comma),
        ':' => Some(Mark::Colon),
        '?' => Some(Mark::Question),
        '~' => Some(Mark::Tilde),
        _ => None,
    }
}

// The other punctuators.
fn longer(cursor: &mut Cursor<'_>, c: char) -> Option<Mark>
    ensures value { marked result cursor.new ≡ longer c cursor.old }
    ensures within { length cursor.new.chars ≤ length cursor.old.chars }
{
    match c {
        '.' => Some(dots(cursor)),
        '=' => Some(equals(cursor)),
        '!' => Some(not_equals(cursor)),
        '<' => Some(less(cursor)),
        '>' => Some(greater(cursor)),
        '+' => Some(doubled(cursor, '+', Mark::Increment, Mark::PlusAssign, Mark::Plus)),
        '-' => Some(doubled(cursor, '-', Mark::Decrement, Mark::MinusAssign, Mark::Minus)),
        '&' => Some(doubled(cursor, '&', Mark::AndAnd, Mark::BitAndAssign, Mark::BitAnd)),
        '|' => Some(doubled(cursor, '|', Mark::OrOr, Mark::BitOrAssign, Mark::BitOr)),
        '*' => Some(assigns(cursor, Mark::StarAssign, Mark::Star)),
        '/' => Some(assigns(cursor, Mark::SlashAssign, Mark::Slash)),
        '%' => Some(assigns(cursor, Mark::PercentAssign, Mark::Percent)),
        '^' => Some(assigns(cursor, Mark::BitXorAssign, Mark::BitXor)),
        _ => None,
    }
}

// One of two punctuators, of which the longer one goes on with `=`.
fn assigns(cursor: &mut Cursor<'_>, longer: Mark, shorter: Mark) -> Mark
    ensures value { with_mark result cursor.new ≡ assigns longer shorter cursor.old }
    ensures within { length cursor.new.chars ≤ length cursor.old.chars }
{
    if cursor.eat('=') { longer } else { shorter }
}

// One of three: the same character twice, or one that goes on with `=`, or alone.
fn doubled(cursor: &mut Cursor<'_>, c: char, twice: Mark, longer: Mark, shorter: Mark) -> Mark
    ensures value { with_mark result cursor.new ≡ doubled c twice longer shorter cursor.old }
    ensures within { length cursor.new.chars ≤ length cursor.old.chars }
{
    if cursor.eat(c) {
        twice
    } else {
        assigns(cursor, longer, shorter)
    }
}

fn dots(cursor: &mut Cursor<'_>) -> Mark
    ensures value { with_mark result cursor.new ≡ dots cursor.old }
    ensures within { length cursor.new.chars ≤ length cursor.old.chars }
{
    if cursor.next_is('.') && cursor.second_is('.') {
        let _second = cursor.next();
        let _third = cursor.next();
        Mark::Ellipsis
    } else {
        Mark::Dot
    }
}

fn not_equals(cursor: &mut Cursor<'_>) -> Mark
    ensures value { with_mark result cursor.new ≡ not_equals cursor.old }
    ensures within { length cursor.new.chars ≤ length cursor.old.chars }
{
    if cursor.eat('=') {
        assigns(cursor, Mark::StrictNotEqual, Mark::NotEqual)
    } else {
        Mark::Bang
    }
}

fn equals(cursor: &mut Cursor<'_>) -> Mark
    ensures value { with_mark result cursor.new ≡ equals cursor.old }
    ensures within { length cursor.new.chars ≤ length cursor.old.chars }
{
    if cursor.eat('=') {
        assigns(cursor, Mark::StrictEqual, Mark::Equal)
    } else if cursor.eat('>') {
        Mark::Arrow
    } else {
        Mark::Assign
    }
}

fn less(cursor: &mut Cursor<'_>) -> Mark
    ensures value { with_mark result cursor.new ≡ less cursor.old }
    ensures within { length cursor.new.chars ≤ length cursor.old.chars }
{
    if cursor.eat('<') {
        assigns(cursor, Mark::ShiftLeftAssign, Mark::ShiftLeft)
    } else {
        assigns(cursor, Mark::LessOrEqual, Mark::Less)
    }
}

fn greater(cursor: &mut Cursor<'_>) -> Mark
    ensures value { with_mark result cursor.new ≡ greater cursor.old }
    ensures within { length cursor.new.chars ≤ length cursor.old.chars }
{
    if !cursor.eat('>') {
        assigns(cursor, Mark::GreaterOrEqual, Mark::Greater)
    } else if cursor.eat('>') {
        assigns(
            cursor,
            Mark::ShiftRightUnsignedAssign,
            Mark::ShiftRightUnsigned,
        )
    } else {
        assigns(cursor, Mark::ShiftRightAssign, Mark::ShiftRight)
    }
}
