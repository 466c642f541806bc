ghost use Rattle.std.specs.Prelude.{◌≡◌, map, option_copied};
ghost use Rattle.std.specs.List.{list_any};
ghost use Rattle.std.specs.Str.{bytes_eq};
ghost use Rattle.early_errors.specs.Strict.{has_text, is_use_strict};
ghost use Rattle.early_errors.specs.Rules.{is_restricted, is_strict_word, is_identifier, is_member_name, is_quoted};
ghost use Rattle.js_tokens.specs.Spelled.{is_one_template};

use js_tokens::{directive_quote, is_identifier_name, is_reserved, template_spelled};

/// Whether a text makes code strict.
pub(crate) fn says_use_strict(text: Option<&str>) -> bool
    ensures { result ≡ has_text is_use_strict (option_copied text.entry) }
{
    match text {
        Some(text) => text == "use strict",
        None => false,
    }
}

/// Whether a text is one that strict code does not bind or assign to.
pub(crate) fn has_restricted(text: Option<&str>) -> bool
    ensures { result ≡ has_text is_restricted (option_copied text.entry) }
{
    match text {
        Some(text) => text == "eval" || text == "arguments",
        None => false,
    }
}

/// The words that strict code reserves.
static STRICT_WORDS: [&str; 7] = [
    "implements",
    "interface",
    "package",
    "private",
    "protected",
    "public",
    "static",
];

/// Whether a text is one of these words.
fn is_one_of(words: &[&str], text: &str) -> bool
    ensures { result ≡ list_any (λ w. bytes_eq w text.now) (map (λ w. w.now) words.now) }
{
    for word in words {
        if *word == text {
            return true;
        }
    }
    false
}

/// Whether there is a text that is a word that strict code reserves.
pub(crate) fn has_strict_word(text: Option<&str>) -> bool
    ensures { result ≡ has_text is_strict_word (option_copied text.entry) }
{
    match text {
        Some(text) => is_one_of(&STRICT_WORDS, text),
        None => false,
    }
}

/// Whether there is a text that is an identifier.
pub(crate) fn has_identifier(text: Option<&str>) -> bool
    ensures { result ≡ has_text is_identifier (option_copied text.entry) }
{
    match text {
        Some(text) => !is_reserved(text) && is_identifier_name(text),
        None => false,
    }
}

/// Whether there is a text that names a member.
pub(crate) fn has_member_name(text: Option<&str>) -> bool
    ensures { result ≡ has_text is_member_name (option_copied text.entry) }
{
    match text {
        Some(text) => is_identifier_name(text),
        None => false,
    }
}

/// Whether there is a raw text that a directive can be written with.
pub(crate) fn has_quote(text: Option<&str>) -> bool
    ensures { result ≡ has_text is_quoted (option_copied text.entry) }
{
    match text {
        Some(text) => directive_quote(text).is_some(),
        None => false,
    }
}

/// Whether there is a raw text that a template can be written with.
pub(crate) fn has_template(text: Option<&str>) -> bool
    ensures { result ≡ has_text is_one_template (option_copied text.entry) }
{
    match text {
        Some(text) => template_spelled(text),
        None => false,
    }
}
