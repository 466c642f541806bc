//! Identifiers and reserved words.

ghost use Rattle.std.specs.Prelude.{◌≡◌, is_some, map};
ghost use Rattle.std.specs.Str.{chars};
ghost use Rattle.js_tokens.specs.Words.{word_named, word_among, kind_of_name, is_name, each};
ghost use Rattle.js_tokens.specs.Classes.{is_part};

use crate::classes::{is_part, is_start};
use crate::cursor::split_first;
use crate::kinds::{TokenKind, Word};

static WORDS: [(&str, Word); 38] = [
    ("break", Word::Break),
    ("case", Word::Case),
    ("catch", Word::Catch),
    ("class", Word::Class),
    ("const", Word::Const),
    ("continue", Word::Continue),
    ("debugger", Word::Debugger),
    ("default", Word::Default),
    ("delete", Word::Delete),
    ("do", Word::Do),
    ("else", Word::Else),
    ("enum", Word::Enum),
    ("export", Word::Export),
    ("extends", Word::Extends),
    ("false", Word::False),
    ("finally", Word::Finally),
    ("for", Word::For),
    ("function", Word::Function),
    ("if", Word::If),
    ("import", Word::Import),
    ("in", Word::In),
    ("instanceof", Word::Instanceof),
    ("let", Word::Let),
    ("new", Word::New),
    ("null", Word::Null),
    ("return", Word::Return),
    ("super", Word::Super),
    ("switch", Word::Switch),
    ("this", Word::This),
    ("throw", Word::Throw),
    ("true", Word::True),
    ("try", Word::Try),
    ("typeof", Word::Typeof),
    ("var", Word::Var),
    ("void", Word::Void),
    ("while", Word::While),
    ("with", Word::With),
    ("yield", Word::Yield),
];

/// The reserved word that a text is, if it is one.
pub(crate) fn word_named(text: &str) -> Option<Word>
    ensures { result ≡ word_named text.now }
{
    word_among(&WORDS, text)
}

// The word that a table has for a text.
fn word_among(words: &[(&str, Word)], text: &str) -> Option<Word>
    ensures { result ≡ word_among (map (λ w. (w.0.now, w.1)) words.now) text.now }
{
    for (spelling, word) in words {
        if *spelling == text {
            return Some(*word);
        }
    }
    None
}

/// The kind of the token that a name is.
pub(crate) fn kind_of_name(name: &str) -> TokenKind
    ensures { result ≡ kind_of_name name.now }
{
    match word_named(name) {
        Some(word) => TokenKind::Reserved(word),
        None => TokenKind::Identifier,
    }
}

/// Whether a text is reserved everywhere (ECMA-262, 6th edition, 11.6.2).
pub fn is_reserved(text: &str) -> bool
    ensures { result ≡ is_some (word_named text.now) }
{
    word_named(text).is_some()
}

/// Whether a text is an identifier name (ECMA-262, 6th edition, 11.6).
pub fn is_identifier_name(text: &str) -> bool
    ensures { result ≡ is_name (chars text.now) }
{
    match split_first(text) {
        Some((first, rest)) => is_start(first) && is_rest(rest),
        None => false,
    }
}

// Whether a name goes on with each character.
fn is_rest(text: &str) -> bool
    ensures { result ≡ each is_part (chars text.now) }
{
    let mut rest = text;
    while let Some((c, behind)) = split_first(rest) {
        if !is_part(c) {
            return false;
        }
        rest = behind;
    }
    true
}
