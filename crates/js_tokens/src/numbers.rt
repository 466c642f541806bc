//! Numbers.

ghost use Rattle.std.specs.Prelude.{◌≡◌, ◌^◌, ◌<◌, ◌≤◌, length, IfSome};
ghost use Rattle.js_tokens.specs.Place.{Gives};
ghost use Rattle.js_tokens.specs.Classes.{ends_number};
ghost use Rattle.js_tokens.specs.Numbers.{digit_of, small, digits_at, with_place, number_to, base_at, behind_zero, some_digits, number_at, IsBase, capped};

use crate::classes::is_start;
use crate::cursor::Cursor;
use crate::kinds::TokenFault;

// The least number that is too big.
const LIMIT: u64 = 1 << 53;

/// Passes the rest of a number behind its first character, a digit or a `.`, which stands at `start`.
pub(crate) fn number(cursor: &mut Cursor<'_>, first: char, start: u32) -> Result<u64, TokenFault>
    ensures value { Gives result cursor.new (number_at first cursor.old start) }
    ensures within { length cursor.new.chars ≤ length cursor.old.chars }
{
    match digit_of(first, 10) {
        None => Err(TokenFault::NumberForm { at: start }),
        Some(0) => behind_zero(cursor, start),
        Some(value) => {
            let value = digits(cursor, 10, u64::from(value));
            ended(cursor, value, start)
        }
    }
}

// The rest of a number behind a zero.
fn behind_zero(cursor: &mut Cursor<'_>, start: u32) -> Result<u64, TokenFault>
    ensures value { Gives result cursor.new (behind_zero (base_at cursor.old.chars) cursor.old start) }
    ensures within { length cursor.new.chars ≤ length cursor.old.chars }
{
    match base(cursor) {
        None => ended(cursor, Some(0), start),
        Some(base) => {
            let _letter = cursor.next();
            some_digits(cursor, base, start)
        }
    }
}

// The base that the letter behind a zero stands for.
fn base(cursor: &Cursor<'_>) -> Option<u32>
    ensures value { result ≡ base_at cursor.now.chars }
    ensures within { IfSome result (λ base. IsBase base) }
{
    match cursor.peek() {
        Some('x' | 'X') => Some(16),
        Some('o' | 'O') => Some(8),
        Some('b' | 'B') => Some(2),
        _ => None,
    }
}

// Digits of a base, at least one of them.
fn some_digits(cursor: &mut Cursor<'_>, base: u32, start: u32) -> Result<u64, TokenFault>
    requires { IsBase base }
    ensures value { Gives result cursor.new (some_digits base cursor.old start) }
    ensures within { length cursor.new.chars ≤ length cursor.old.chars }
{
    let before = cursor.at();
    let value = digits(cursor, base, 0);
    if cursor.at() == before {
        return Err(TokenFault::NumberForm { at: start });
    }
    ended(cursor, value, start)
}

// A number that ends here.
fn ended(cursor: &Cursor<'_>, value: Option<u64>, start: u32) -> Result<u64, TokenFault>
    ensures { Gives result cursor.now (number_to (with_place value cursor.now) start) }
{
    if !ends_number(cursor) {
        return Err(TokenFault::NumberForm { at: start });
    }
    match value {
        Some(value) => Ok(value),
        None => Err(TokenFault::NumberTooBig { at: start }),
    }
}

// Whether a number may end here.
fn ends_number(cursor: &Cursor<'_>) -> bool
    ensures { result ≡ ends_number cursor.now.chars }
{
    match cursor.peek() {
        Some(c) => !(c.is_ascii_digit() || is_start(c) || c == '.' || c == '\\'),
        None => true,
    }
}

/// Passes the digits that come next. Their value, behind digits of this value, where it is below 2^53.
pub(crate) fn digits(cursor: &mut Cursor<'_>, base: u32, first: u64) -> Option<u64>
    requires base { IsBase base }
    requires first { first < 2 ^ 53 }
    ensures value { with_place result cursor.new ≡ digits_at base first cursor.old }
    ensures within { length cursor.new.chars ≤ length cursor.old.chars }
{
    let mut value = first;
    while let Some(c) = cursor.peek() {
        let Some(digit) = digit_of(c, base) else {
            break;
        };
        let _passed = cursor.next();
        value = capped(value * u64::from(base) + u64::from(digit));
    }
    if value < LIMIT { Some(value) } else { None }
}

// The value, or the least one that is too big.
fn capped(value: u64) -> u64
    ensures value { result ≡ capped value }
    ensures within { result ≤ 2 ^ 53 }
{
    if value < LIMIT { value } else { LIMIT }
}

/// The value of a digit of a base.
pub(crate) fn digit_of(c: char, base: u32) -> Option<u32>
    requires { IsBase base }
    ensures value { result ≡ digit_of base c }
    ensures within { IfSome result (λ digit. digit < base) }
{
    c.to_digit(base)
}
