//! What the tree needs of the tokens of a text.

ghost use Rattle.std.specs.Prelude.{◌≡◌, ◌+◌, ◌<◌, ◌≤◌, ◌^◌, ◌*◌, ◌-◌, decimal, length, string_bytes, IfOk, OnOk};
ghost use Rattle.std.specs.List.{All};
ghost use Rattle.std.specs.Option.{option_map};
ghost use Rattle.js_parser.specs.Leaves.{AreLeaves, Grows, IsLeafOf, Stands, raw_of, text_of, with_text, with_texts, with_texts_of};
ghost use Rattle.js_tokens.specs.Values.{IsTokenOf};

use bast_base::{Memory, NameId};
use js_tokens::{Token, TokenKind, raw_text, string_value};
use js_tree::Leaf;
use std::alloc::Global;
use string_table::StringTable;

/// One for each token, in their order. Texts that are not in the table are added at its end.
pub(crate) fn leaves_of(
    alloc: Global,
    text: &str,
    tokens: &[Token],
    strings: &mut StringTable,
) -> Result<Vec<Leaf>, Memory>
    requires each { All (IsTokenOf text.now) tokens.now }
    requires room { length strings.old + 2 * length tokens.now < 2 ^ 32 - 1 }
    ensures leaves { IfOk result (λ l. AreLeaves text.now strings.new tokens.now l.items) }
    ensures table { OnOk result (strings.new ≡ with_texts text.now strings.old tokens.now) }
    ensures grows { Grows strings.old strings.new }
{
    let mut leaves = Vec::new(alloc);
    for token in tokens {
        let leaf = leaf_of(alloc, text, token, strings)?;
        leaves.push(leaf)?;
    }
    Ok(leaves)
}

fn leaf_of(
    alloc: Global,
    text: &str,
    token: &Token,
    strings: &mut StringTable,
) -> Result<Leaf, Memory>
    requires token { IsTokenOf text.now token.now }
    requires room { length strings.old + 2 < 2 ^ 32 - 1 }
    ensures leaf { IfOk result (λ l. IsLeafOf text.now strings.new token.now l) }
    ensures table { OnOk result (strings.new ≡ with_texts_of text.now strings.old token.now) }
    ensures grows { Grows strings.old strings.new }
    ensures few { length strings.new ≤ length strings.old + 2 }
{
    let found = text_of(alloc, text, token)?;
    let raw = raw_of(alloc, text, token)?;
    let found = place_of(found, strings)?;
    let raw = place_of(raw, strings)?;
    Ok(Leaf {
        kind: token.kind,
        text: found,
        raw,
    })
}

fn place_of(text: Option<String>, strings: &mut StringTable) -> Result<Option<NameId>, Memory>
    requires { length strings.old < 2 ^ 32 - 1 }
    ensures place { IfOk result (λ n. Stands strings.new (option_map string_bytes text) n) }
    ensures table { OnOk result (strings.new ≡ with_text strings.old (option_map string_bytes text)) }
    ensures grows { Grows strings.old strings.new }
    ensures few { length strings.new ≤ length strings.old + 1 }
{
    match text {
        None => Ok(None),
        Some(text) => {
            let name = strings.intern(&text)?;
            Ok(Some(name))
        }
    }
}

fn text_of(alloc: Global, text: &str, token: &Token) -> Result<Option<String>, Memory>
    requires { IsTokenOf text.now token.now }
    ensures { IfOk result (λ o. option_map string_bytes o ≡ text_of text.now token.now) }
{
    match token.kind {
        TokenKind::Identifier | TokenKind::Reserved(_) => {
            let name = String::from_str(alloc, &text[token.from as usize..token.to as usize])?;
            Ok(Some(name))
        }
        TokenKind::Number(number) => {
            let spelling = spelled(alloc, number)?;
            Ok(Some(spelling))
        }
        TokenKind::Text => {
            let value = string_value(alloc, text, token)?;
            Ok(Some(value))
        }
        TokenKind::Template(_) => {
            let raw = raw_text(alloc, text, token)?;
            Ok(Some(raw))
        }
        TokenKind::Punctuator(_) | TokenKind::End => Ok(None),
    }
}

fn spelled(alloc: Global, number: u64) -> Result<String, Memory>
    ensures { IfOk result (λ s. string_bytes s ≡ decimal number) }
{
    let spelling = format!(in alloc; "{number}")?;
    Ok(spelling)
}

fn raw_of(alloc: Global, text: &str, token: &Token) -> Result<Option<String>, Memory>
    requires { IsTokenOf text.now token.now }
    ensures { IfOk result (λ o. option_map string_bytes o ≡ raw_of text.now token.now) }
{
    match token.kind {
        TokenKind::Text => {
            let raw = raw_text(alloc, text, token)?;
            Ok(Some(raw))
        }
        TokenKind::Identifier
        | TokenKind::Reserved(_)
        | TokenKind::Punctuator(_)
        | TokenKind::Number(_)
        | TokenKind::Template(_)
        | TokenKind::End => Ok(None),
    }
}
