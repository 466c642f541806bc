//! The operators and the words of declarations that tokens are, as choices of the schema's sets.

ghost use Rattle.std.specs.Prelude.{◌≡◌};
ghost use Rattle.bast_schema.specs.declared.kind.EnumId.TheVariants as sets;
ghost use Rattle.bast_schema.specs.Choices.{choice_of_text};
ghost use Rattle.js_tokens.specs.Spelling.{mark_text, word_text};
ghost use Rattle.js_tree.specs.Operators.{operator};

use bast_schema::{
    DECLARED_VAR, EnumId, FOR_CONST, FOR_LET, FOR_VAR, LEXICAL_CONST, LEXICAL_LET, UNARY_DELETE,
};
use js_tokens::{Mark, TokenKind, Word};

/// The choice of a set whose text is the spelling of a token.
pub(crate) fn operator(set: EnumId, kind: TokenKind) -> Option<u8>
    ensures { result ≡ operator set kind }
{
    match kind {
        TokenKind::Punctuator(mark) => mark_choice(set, mark),
        TokenKind::Reserved(word) => word_choice(set, word),
        _ => None,
    }
}

fn mark_choice(set: EnumId, mark: Mark) -> Option<u8>
    ensures { result ≡ choice_of_text set (mark_text mark) }
{
    match set {
        EnumId::UnaryOperator => unary_mark(mark),
        EnumId::UpdateOperator => update_mark(mark),
        EnumId::BinaryOperator => binary_mark(mark),
        EnumId::CompoundOperator => compound_mark(mark),
        EnumId::DeclaredKind | EnumId::LexicalKind | EnumId::ForKind => None,
    }
}

fn word_choice(set: EnumId, word: Word) -> Option<u8>
    ensures { result ≡ choice_of_text set (word_text word) }
{
    match set {
        EnumId::UnaryOperator => unary_word(word),
        EnumId::BinaryOperator => binary_word(word),
        EnumId::DeclaredKind => declared_word(word),
        EnumId::LexicalKind => lexical_word(word),
        EnumId::ForKind => for_word(word),
        EnumId::UpdateOperator | EnumId::CompoundOperator => None,
    }
}

#[tactic(auto, unfolding(js_tokens::specs::Spelling::mark_text))]
fn unary_mark(mark: Mark) -> Option<u8>
    ensures { result ≡ choice_of_text sets.UnaryOperator (mark_text mark) }
{
    match mark {
        Mark::Plus => Some(0),
        Mark::Minus => Some(1),
        Mark::Tilde => Some(2),
        Mark::Bang => Some(3),
        _ => None,
    }
}

#[tactic(auto, unfolding(js_tokens::specs::Spelling::word_text))]
fn unary_word(word: Word) -> Option<u8>
    ensures { result ≡ choice_of_text sets.UnaryOperator (word_text word) }
{
    match word {
        Word::Typeof => Some(4),
        Word::Void => Some(5),
        Word::Delete => Some(UNARY_DELETE),
        _ => None,
    }
}

#[tactic(auto, unfolding(js_tokens::specs::Spelling::mark_text))]
fn update_mark(mark: Mark) -> Option<u8>
    ensures { result ≡ choice_of_text sets.UpdateOperator (mark_text mark) }
{
    match mark {
        Mark::Increment => Some(0),
        Mark::Decrement => Some(1),
        _ => None,
    }
}

#[tactic(auto, unfolding(js_tokens::specs::Spelling::mark_text))]
fn binary_mark(mark: Mark) -> Option<u8>
    ensures { result ≡ choice_of_text sets.BinaryOperator (mark_text mark) }
{
    match mark {
        Mark::OrOr => Some(0),
        Mark::AndAnd => Some(1),
        Mark::BitOr => Some(2),
        Mark::BitXor => Some(3),
        Mark::BitAnd => Some(4),
        Mark::Equal => Some(5),
        Mark::NotEqual => Some(6),
        Mark::StrictEqual => Some(7),
        Mark::StrictNotEqual => Some(8),
        Mark::Less => Some(9),
        Mark::Greater => Some(10),
        Mark::LessOrEqual => Some(11),
        Mark::GreaterOrEqual => Some(12),
        Mark::ShiftLeft => Some(15),
        Mark::ShiftRight => Some(16),
        Mark::ShiftRightUnsigned => Some(17),
        Mark::Plus => Some(18),
        Mark::Minus => Some(19),
        Mark::Star => Some(20),
        Mark::Slash => Some(21),
        Mark::Percent => Some(22),
        _ => None,
    }
}

#[tactic(auto, unfolding(js_tokens::specs::Spelling::word_text))]
fn binary_word(word: Word) -> Option<u8>
    ensures { result ≡ choice_of_text sets.BinaryOperator (word_text word) }
{
    match word {
        Word::Instanceof => Some(13),
        Word::In => Some(14),
        _ => None,
    }
}

#[tactic(auto, unfolding(js_tokens::specs::Spelling::mark_text))]
fn compound_mark(mark: Mark) -> Option<u8>
    ensures { result ≡ choice_of_text sets.CompoundOperator (mark_text mark) }
{
    match mark {
        Mark::PlusAssign => Some(0),
        Mark::MinusAssign => Some(1),
        Mark::StarAssign => Some(2),
        Mark::SlashAssign => Some(3),
        Mark::PercentAssign => Some(4),
        Mark::ShiftLeftAssign => Some(5),
        Mark::ShiftRightAssign => Some(6),
        Mark::ShiftRightUnsignedAssign => Some(7),
        Mark::BitAndAssign => Some(8),
        Mark::BitXorAssign => Some(9),
        Mark::BitOrAssign => Some(10),
        _ => None,
    }
}

#[tactic(auto, unfolding(js_tokens::specs::Spelling::word_text))]
fn declared_word(word: Word) -> Option<u8>
    ensures { result ≡ choice_of_text sets.DeclaredKind (word_text word) }
{
    match word {
        Word::Var => Some(DECLARED_VAR),
        _ => None,
    }
}

#[tactic(auto, unfolding(js_tokens::specs::Spelling::word_text))]
fn lexical_word(word: Word) -> Option<u8>
    ensures { result ≡ choice_of_text sets.LexicalKind (word_text word) }
{
    match word {
        Word::Let => Some(LEXICAL_LET),
        Word::Const => Some(LEXICAL_CONST),
        _ => None,
    }
}

#[tactic(auto, unfolding(js_tokens::specs::Spelling::word_text))]
fn for_word(word: Word) -> Option<u8>
    ensures { result ≡ choice_of_text sets.ForKind (word_text word) }
{
    match word {
        Word::Var => Some(FOR_VAR),
        Word::Let => Some(FOR_LET),
        Word::Const => Some(FOR_CONST),
        _ => None,
    }
}
