ghost use Rattle.std.specs.Prelude.{◌≡◌, ◌<◌, length, map, slice_get, Some, IfSome};
ghost use Rattle.std.specs.List.{position_from};
ghost use Rattle.std.specs.Str.{bytes_eq};
ghost use Rattle.bast_schema.specs.Choices.{choice_texts, choice_of_text};

use crate::kind::EnumId;

/// The choice `var` of `EnumId::DeclaredKind`.
pub const DECLARED_VAR: u8 = 0;
/// The choice `non-const lexical` of `EnumId::DeclaredKind`.
pub const DECLARED_LEXICAL: u8 = 1;
/// The choice `const lexical` of `EnumId::DeclaredKind`.
pub const DECLARED_CONST: u8 = 2;
/// The choice `let` of `EnumId::LexicalKind`.
pub const LEXICAL_LET: u8 = 0;
/// The choice `const` of `EnumId::LexicalKind`.
pub const LEXICAL_CONST: u8 = 1;
/// The choice `var` of `EnumId::ForKind`.
pub const FOR_VAR: u8 = 0;
/// The choice `let` of `EnumId::ForKind`.
pub const FOR_LET: u8 = 1;
/// The choice `const` of `EnumId::ForKind`.
pub const FOR_CONST: u8 = 2;
/// The choice `delete` of `EnumId::UnaryOperator`.
pub const UNARY_DELETE: u8 = 6;

/// The texts of a set of choices.
fn texts_of(set: EnumId) -> &'static [&'static str]
    ensures texts { map (λ t. t.now) result.now ≡ choice_texts set }
    ensures few { length (choice_texts set) < 256 }
{
    match set {
        EnumId::DeclaredKind => &["var", "non-const lexical", "const lexical"],
        EnumId::LexicalKind => &["let", "const"],
        EnumId::ForKind => &["var", "let", "const"],
        EnumId::UnaryOperator => &["+", "-", "~", "!", "typeof", "void", "delete"],
        EnumId::UpdateOperator => &["++", "--"],
        EnumId::BinaryOperator => &[
            "||",
            "&&",
            "|",
            "^",
            "&",
            "==",
            "!=",
            "===",
            "!==",
            "<",
            ">",
            "<=",
            ">=",
            "instanceof",
            "in",
            "<<",
            ">>",
            ">>>",
            "+",
            "-",
            "*",
            "/",
            "%",
        ],
        EnumId::CompoundOperator => &[
            "+=", "-=", "*=", "/=", "%=", "<<=", ">>=", ">>>=", "&=", "^=", "|=",
        ],
    }
}

/// How many texts a set has.
pub fn choices_in(set: EnumId) -> usize
    ensures is { result ≡ length (choice_texts set) }
    ensures few { result < 256 }
{
    match set {
        EnumId::DeclaredKind => 3,
        EnumId::LexicalKind => 2,
        EnumId::ForKind => 3,
        EnumId::UnaryOperator => 7,
        EnumId::UpdateOperator => 2,
        EnumId::BinaryOperator => 23,
        EnumId::CompoundOperator => 11,
    }
}

/// The text of a choice, by its number in the set.
pub fn choice_text(set: EnumId, choice: u8) -> &'static str
    requires { choice < length (choice_texts set) }
    ensures { slice_get (choice_texts set) choice ≡ Some result.now }
{
    texts_of(set)[choice as usize]
}

/// The number of the choice that has a text, where one does.
pub fn choice_of(set: EnumId, text: &str) -> Option<u8>
    ensures { result ≡ choice_of_text set text.now }
{
    match place_of(texts_of(set), text) {
        Some(place) => Some(place as u8),
        None => None,
    }
}

/// The place of a text in a list of texts.
fn place_of(texts: &[&str], text: &str) -> Option<usize>
    ensures is { result ≡ position_from (λ t. bytes_eq t.now text.now) 0 texts.now }
    ensures within { IfSome result (λ n. n < length texts.now) }
{
    texts.iter().position(|other| *other == text)
}
