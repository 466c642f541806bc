//! The texts of a table, each judged once.

ghost use Rattle.std.specs.Prelude.{◌≡◌, ◌<◌, length, map, get_or, None, IfOk, option_copied};
ghost use Rattle.early_errors.specs.Strict.{text_of};
ghost use Rattle.early_errors.specs.TextFacts.{facts_of};

use crate::texts::{
    has_identifier, has_member_name, has_quote, has_restricted, has_strict_word, has_template,
    says_use_strict,
};
use bast_base::{Memory, NameId};
use std::alloc::Global;
use std::marker::Model;
use string_table::StringTable;

/// What the rules ask of a text. Where there is no text, none of it is so.
#[derive(Clone, Copy)]
pub struct TextFacts {
    /// As a directive it makes code strict.
    pub use_strict: bool,
    /// Strict code does not bind it or assign to it.
    pub restricted: bool,
    /// Strict code reserves it.
    pub strict_word: bool,
    /// It is an identifier.
    pub identifier: bool,
    /// It names a member.
    pub member_name: bool,
    /// A directive can be written with this raw text.
    pub quoted: bool,
    /// A template can be written with this raw text.
    pub template: bool,
}

/// The texts of a table, with what the rules ask of each by the numbers of the names. Each was looked through once, so a name
/// costs the same wherever it stands, however long its text is.
#[derive(Drop)]
pub struct KnownTexts<'a> {
    strings: &'a StringTable,
    facts: &'a [TextFacts],
}

impl<'a> Model for KnownTexts<'a> {
    ghost use Rattle.std.specs.Prelude.{◌≡◌, map};
    ghost use Rattle.early_errors.specs.Strict.{Texts};

    ghost Value = { Texts };

    ghost use Rattle.early_errors.specs.TextFacts.{facts_of};

    ghost view = { λ k. k.strings.now };

    ghost invariant = { λ k. k.facts.now ≡ map facts_of k.strings.now };
}

impl<'a> KnownTexts<'a> {
    /// The texts of this table.
    pub(crate) fn of(strings: &'a StringTable, facts: &'a [TextFacts]) -> KnownTexts<'a>
        requires { facts.now ≡ map facts_of strings.now }
        ensures { result ≡ strings.now }
    {
        KnownTexts { strings, facts }
    }

    /// What the rules ask of the text of a name, where there is a name and the table has its text.
    pub(crate) fn facts(&self, name: Option<u32>) -> TextFacts
        ensures { result ≡ facts_of (text_of self.now name) }
    {
        match name {
            Some(name) => match self.facts.get(name as usize) {
                Some(facts) => *facts,
                None => facts_of(None),
            },
            None => facts_of(None),
        }
    }
}

/// What the rules ask of each text of a table, by the numbers of the names.
pub(crate) fn facts_of_all(alloc: Global, strings: &StringTable) -> Result<Vec<TextFacts>, Memory>
    ensures { IfOk result (λ v. v.items ≡ map facts_of strings.now) }
{
    let mut all = Vec::new(alloc);
    'places: for place in 0..strings.len() {
        all.push(facts_at(strings, place))?;
    }
    Ok(all)
}

fn facts_at(strings: &StringTable, place: u32) -> TextFacts
    requires { place < length strings.now }
    ensures { result ≡ facts_of (get_or strings.now place None) }
{
    facts_of(strings.text(NameId(place)))
}

fn facts_of(text: Option<&str>) -> TextFacts
    ensures { result ≡ facts_of (option_copied text.entry) }
{
    TextFacts {
        use_strict: says_use_strict(text),
        restricted: has_restricted(text),
        strict_word: has_strict_word(text),
        identifier: has_identifier(text),
        member_name: has_member_name(text),
        quoted: has_quote(text),
        template: has_template(text),
    }
}
