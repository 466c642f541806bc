//! A place in a text.

ghost use Rattle.std.specs.Prelude.{◌≡◌, ◌+◌, ◌-◌, ◌^◌, ◌<◌, ◌≤◌, [], ◌∷◌, ◌++◌, length, drop, MatchOption};
ghost use Rattle.std.specs.Str.{chars, IsCharBoundary};
ghost use Rattle.std.specs.Char.{len_utf8};
ghost use Rattle.js_tokens.specs.Spelled.{between_two};
ghost use Rattle.js_tokens.specs.Place.{Place, first_char, first_is, second_char, second_is, eaten, after_eating};

use std::marker::Model;

/// What is left of a text, and how many bytes of it come before that. One more character may stand behind the text.
#[derive(Drop)]
pub(crate) struct Cursor<'a> {
    rest: &'a str,
    last: Option<char>,
    at: u32,
}

impl<'a> Model for Cursor<'a> {
    ghost use Rattle.std.specs.Prelude.{◌+◌, ◌*◌, ◌^◌, ◌≤◌, ◌++◌, length};
    ghost use Rattle.std.specs.Str.{chars, IsUtf8};
    ghost use Rattle.js_tokens.specs.Place.{Place, last_of};

    ghost Value = { Place };

    ghost view = { λ c. record { chars = chars c.rest.now ++ last_of c.last; at = c.at } };

    ghost invariant = { λ c. IsUtf8 c.rest.now × (c.at + length c.rest.now + 4 * length (last_of c.last) ≤ 2 ^ 31) };
}

/// The first character of a text, and the text behind it.
pub(crate) fn split_first(text: &str) -> Option<(char, &str)>
    ensures { MatchOption result (chars text.now ≡ []) (λ x. (chars text.now ≡ x.0 ∷ chars x.1.now) × (length x.1.now < length text.now)) }
{
    let mut chars = text.chars();
    match chars.next() {
        Some(c) => Some((c, chars.as_str())),
        None => None,
    }
}

impl<'a> Cursor<'a> {
    /// At the start of a text.
    pub(crate) fn new(text: &'a str) -> Cursor<'a>
        requires { length text.now ≤ 2 ^ 31 }
        ensures { result ≡ record { chars = chars text.now; at = 0 } }
    {
        Cursor {
            rest: text,
            last: None,
            at: 0,
        }
    }

    /// At a place of a text.
    pub(crate) fn from(text: &'a str, at: u32) -> Cursor<'a>
        requires small { length text.now ≤ 2 ^ 31 }
        requires place { IsCharBoundary text.now at }
        ensures { result ≡ record { chars = chars (drop at text.now); at = at } }
    {
        Cursor {
            rest: &text[at as usize..],
            last: None,
            at,
        }
    }

    /// Behind the first of two delimiters, between which a text stands.
    pub(crate) fn between_two(text: &'a str, delimiter: char) -> Cursor<'a>
        requires short { length text.now < 2 ^ 31 - 8 }
        requires ascii { delimiter < 128 }
        ensures { result ≡ between_two delimiter text.now }
    {
        Cursor {
            rest: text,
            last: Some(delimiter),
            at: 1,
        }
    }

    /// How many bytes come before what is left.
    pub(crate) fn at(&self) -> u32
        ensures value { result ≡ self.now.at }
        ensures small { result ≤ 2 ^ 31 }
    {
        self.at
    }

    /// The next character.
    pub(crate) fn peek(&self) -> Option<char>
        ensures { result ≡ first_char self.now.chars }
    {
        match self.rest.chars().next() {
            Some(c) => Some(c),
            None => self.last,
        }
    }

    /// Whether this character comes next.
    pub(crate) fn next_is(&self, c: char) -> bool
        ensures { result ≡ first_is c self.now.chars }
    {
        match self.peek() {
            Some(next) => next == c,
            None => false,
        }
    }

    /// The character after the next.
    fn peek_second(&self) -> Option<char>
        ensures { result ≡ second_char self.now.chars }
    {
        let mut ahead = Cursor {
            rest: self.rest,
            last: self.last,
            at: self.at,
        };
        ahead.next()?;
        ahead.peek()
    }

    /// Whether this character comes after the next.
    pub(crate) fn second_is(&self, c: char) -> bool
        ensures { result ≡ second_is c self.now.chars }
    {
        match self.peek_second() {
            Some(next) => next == c,
            None => false,
        }
    }

    /// Passes the next character.
    pub(crate) fn next(&mut self) -> Option<char>
        ensures cases { MatchOption result
            ((self.old.chars ≡ []) × (self.new ≡ self.old))
            (λ c. (self.old.chars ≡ c ∷ self.new.chars) × (self.new.at ≡ self.old.at + len_utf8 c)) }
        ensures same { result ≡ first_char self.old.chars }
    {
        let mut chars = self.rest.chars();
        match chars.next() {
            Some(c) => {
                self.rest = chars.as_str();
                self.at += c.len_utf8() as u32;
                Some(c)
            }
            None => {
                let c = self.last?;
                self.last = None;
                self.at += c.len_utf8() as u32;
                Some(c)
            }
        }
    }

    /// Passes the next character where it is this one.
    pub(crate) fn eat(&mut self, c: char) -> bool
        ensures value { after_eating result self.new ≡ eaten c self.old }
        ensures within { length self.new.chars ≤ length self.old.chars }
    {
        match self.peek() {
            Some(next) if next == c => {
                let _passed = self.next();
                true
            }
            _ => false,
        }
    }
}
