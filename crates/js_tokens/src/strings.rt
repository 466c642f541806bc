//! Strings and pieces of templates, step by step.

ghost use Rattle.std.specs.Prelude.{◌≡◌, ◌<◌, ◌≤◌, length, IfOk};
ghost use Rattle.js_tokens.specs.Place.{Gives};
ghost use Rattle.js_tokens.specs.Escapes.{HasHalf, IsHalf};
ghost use Rattle.js_tokens.specs.Strings.{string_step_at, template_step_at, string_at, template_at, closing, pair_at, second_half_at, whole};

use crate::classes::is_newline;
use crate::cursor::Cursor;
use crate::escapes::{Escaped, escape};
use crate::kinds::TokenFault;

/// What comes next in a string or in a piece of a template.
#[derive(Clone, Copy)]
pub enum Step {
    /// What closes it; `more` where that is a `${`.
    Closed { more: bool },
    /// A character of the string's value.
    Char(char),
    /// Something that gives no character.
    Nothing,
}

/// Passes what comes next in a string that began at `start`.
pub(crate) fn string_step(
    cursor: &mut Cursor<'_>,
    quote: char,
    start: u32,
) -> Result<Step, TokenFault>
    ensures value { Gives result cursor.new (string_step_at quote cursor.old start) }
    ensures shorter { IfOk result (λ _. length cursor.new.chars < length cursor.old.chars) }
    ensures within { length cursor.new.chars ≤ length cursor.old.chars }
{
    let at = cursor.at();
    let Some(c) = cursor.next() else {
        return Err(TokenFault::EndedString { at: start });
    };
    if c == quote {
        return Ok(Step::Closed { more: false });
    }
    if is_newline(c) {
        return Err(TokenFault::EndedString { at: start });
    }
    if c != '\\' {
        return Ok(Step::Char(c));
    }
    let escaped = escape(cursor, at)?;
    whole(cursor, escaped, at)
}

// An escape in a string, where it stands for no lone surrogate.
fn whole(cursor: &mut Cursor<'_>, escaped: Escaped, start: u32) -> Result<Step, TokenFault>
    requires { HasHalf escaped }
    ensures value { Gives result cursor.new (whole (escaped, cursor.old) start) }
    ensures within { length cursor.new.chars ≤ length cursor.old.chars }
{
    match escaped {
        Escaped::Char(c) => Ok(Step::Char(c)),
        Escaped::Nothing => Ok(Step::Nothing),
        Escaped::Half(half) => {
            let c = pair(cursor, half, start)?;
            Ok(Step::Char(c))
        }
    }
}

// The character that half of a pair makes with the half that the next escape is.
fn pair(cursor: &mut Cursor<'_>, half: u32, start: u32) -> Result<char, TokenFault>
    requires { IsHalf half }
    ensures value { Gives result cursor.new (pair_at half cursor.old start) }
    ensures within { length cursor.new.chars ≤ length cursor.old.chars }
{
    if half < 0xDC00 && cursor.eat('\\') {
        second_half(cursor, half, start)
    } else {
        Err(TokenFault::LoneSurrogate { at: start })
    }
}

// The same behind the `\` of the next escape.
fn second_half(cursor: &mut Cursor<'_>, high: u32, start: u32) -> Result<char, TokenFault>
    requires { (0xD800 ≤ high) × (high < 0xDC00) }
    ensures value { Gives result cursor.new (second_half_at high cursor.old start) }
    ensures within { length cursor.new.chars ≤ length cursor.old.chars }
{
    match escape(cursor, start) {
        Ok(Escaped::Half(low)) if low >= 0xDC00 => {
            let code = 0x10000 + (high - 0xD800) * 0x400 + (low - 0xDC00);
            match char::from_u32(code) {
                Some(c) => Ok(c),
                None => unreachable!(),
            }
        }
        _ => Err(TokenFault::LoneSurrogate { at: start }),
    }
}

/// Passes what comes next in a piece of a template that began at `start`.
pub(crate) fn template_step(cursor: &mut Cursor<'_>, start: u32) -> Result<Step, TokenFault>
    ensures value { Gives result cursor.new (template_step_at cursor.old start) }
    ensures shorter { IfOk result (λ _. length cursor.new.chars < length cursor.old.chars) }
    ensures within { length cursor.new.chars ≤ length cursor.old.chars }
{
    let at = cursor.at();
    let Some(c) = cursor.next() else {
        return Err(TokenFault::EndedTemplate { at: start });
    };
    if c == '`' {
        return Ok(Step::Closed { more: false });
    }
    if c == '$' && cursor.next_is('{') {
        let _brace = cursor.next();
        return Ok(Step::Closed { more: true });
    }
    if c == '\\' {
        let _escaped = escape(cursor, at)?;
    }
    Ok(Step::Nothing)
}

/// Passes the rest of a string behind its opening quote, which stands at `start`.
pub(crate) fn string(cursor: &mut Cursor<'_>, quote: char, start: u32) -> Result<bool, TokenFault>
    ensures value { Gives result cursor.new (closing (string_at quote cursor.old start)) }
    ensures within { length cursor.new.chars ≤ length cursor.old.chars }
{
    loop {
        match string_step(cursor, quote, start) {
            Ok(Step::Closed { more }) => return Ok(more),
            Ok(Step::Char(_)) => {}
            Ok(Step::Nothing) => {}
            Err(fault) => return Err(fault),
        }
    }
}

/// Passes the rest of a piece of a template behind its first character, which stands at `start`. Whether `${` closes it.
pub(crate) fn template(cursor: &mut Cursor<'_>, start: u32) -> Result<bool, TokenFault>
    ensures value { Gives result cursor.new (closing (template_at cursor.old start)) }
    ensures within { length cursor.new.chars ≤ length cursor.old.chars }
{
    loop {
        match template_step(cursor, start) {
            Ok(Step::Closed { more }) => return Ok(more),
            Ok(Step::Char(_)) => {}
            Ok(Step::Nothing) => {}
            Err(fault) => return Err(fault),
        }
    }
}
