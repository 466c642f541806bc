ghost use Rattle.std.specs.Prelude.{◌≡◌, ◌-◌, ◌^◌, ◌<◌, ◌++◌, ◌∷◌, [], Some, None, length, position, slice_get, string_bytes, option_copied, OnOk, OnErr, IfOk, IfSome, is_some};
ghost use Rattle.std.specs.Option.{option_map};
ghost use Rattle.std.specs.Str.{bytes_eq};
ghost use Rattle.string_table.specs.Entries.{AreDistinct, added, added_name, place_in, value_of};
ghost use Rattle.string_table.specs.Inside.{place_of_index, texts_of};

use crate::{AddedName, Entry};
use bast_base::{Chars, Memory, NameId};
use indexmap::IndexSet;
use std::alloc::Global;
use std::marker::Model;

/// Distinct entries, each a text or the absent string, which keep the places that they were added at.
///
/// Places count from 0. An entry is found by its hash, in a time that does not grow with the table.
#[derive(Drop)]
pub struct StringTable {
    alloc: Global,
    // The texts alone, in order. A set that held the absent string too could be searched only with a copy of the text.
    texts: IndexSet<String>,
    // The place of the absent string, once it was added. The texts from there on stand one place later than in `texts`.
    absent: Option<u32>,
}

impl Model for StringTable {
    ghost use Rattle.std.specs.Prelude.{List, ℕ, Option};

    ghost Value = { List (Option (List ℕ)) };

    ghost use Rattle.string_table.specs.Inside.{IsTable, texts_of, with_absent};

    ghost view = { λ t. with_absent (texts_of t.texts) t.absent };

    ghost invariant = { λ t. IsTable (texts_of t.texts) t.absent };
}

impl StringTable {
    /// A table with no entry. It takes no memory yet.
    pub fn new(alloc: Global) -> StringTable
        ensures { result ≡ [] }
    {
        StringTable {
            alloc,
            texts: IndexSet::new(alloc),
            absent: None,
        }
    }

    /// How many entries there are.
    pub fn len(&self) -> u32
        ensures count { result ≡ length self.now }
        ensures distinct { AreDistinct self.now }
    {
        let texts = self.texts.len() as u32;
        match self.absent {
            None => texts,
            Some(_) => texts + 1,
        }
    }

    /// The text at a place, or `None` where the absent string stands there.
    pub fn text(&self, name: NameId) -> Option<&str>
        requires { name.0 < length self.now }
        ensures { slice_get self.now name.0 ≡ Some (option_copied result) }
    {
        match self.absent {
            None => text_at(&self.texts, name.0),
            Some(place) => {
                if name.0 == place {
                    None
                } else if name.0 < place {
                    text_at(&self.texts, name.0)
                } else {
                    text_at(&self.texts, name.0 - 1)
                }
            }
        }
    }

    /// The place of a text, or `None` where no entry is this text.
    pub fn find(&self, text: &str) -> Option<NameId>
        ensures { option_map (λ n. n.0) result ≡ place_in self.now (Some text.now) }
    {
        match index_of(&self.texts, text) {
            None => None,
            Some(index) => Some(NameId(place_from(index, self.absent))),
        }
    }

    /// Adds an entry at the end, unless it is there. An error comes only where a new text finds no memory.
    pub fn add(&mut self, entry: Entry) -> Result<AddedName, Memory>
        requires { length self.old < 2 ^ 32 - 1 }
        ensures answer { IfOk result (λ a. a ≡ added_name self.old (value_of entry)) }
        ensures entries { OnOk result (self.new ≡ added self.old (value_of entry)) }
        ensures unchanged { OnErr result (self.new ≡ self.old) }
        ensures only_new { OnErr result (place_in self.old (value_of entry) ≡ None) }
    {
        match entry {
            Entry::Absent => Ok(self.add_absent()),
            Entry::Text(text) => self.add_text(text),
        }
    }

    /// The place of a text, which is added at the end unless it is there. An error comes only where a new text finds no memory.
    pub fn intern(&mut self, text: &str) -> Result<NameId, Memory>
        requires { length self.old < 2 ^ 32 - 1 }
        ensures place { IfOk result (λ n. Some n.0 ≡ place_in self.new (Some text.now)) }
        ensures entries { OnOk result (self.new ≡ added self.old (Some text.now)) }
        ensures unchanged { OnErr result (self.new ≡ self.old) }
        ensures only_new { OnErr result (place_in self.old (Some text.now) ≡ None) }
    {
        match self.find(text) {
            Some(name) => Ok(name),
            None => {
                let place = self.len();
                self.push_text(String::from_str(self.alloc, text)?)?;
                Ok(NameId(place))
            }
        }
    }

    // `add` of a text.
    fn add_text(&mut self, text: Chars) -> Result<AddedName, Memory>
        requires { length self.old < 2 ^ 32 - 1 }
        ensures answer { IfOk result (λ a. a ≡ added_name self.old (Some text)) }
        ensures entries { OnOk result (self.new ≡ added self.old (Some text)) }
        ensures unchanged { OnErr result (self.new ≡ self.old) }
        ensures only_new { OnErr result (place_in self.old (Some text) ≡ None) }
    {
        match self.find(text.as_str()) {
            Some(name) => Ok(AddedName::There(name)),
            None => {
                let place = self.len();
                self.push_text(text.into_string())?;
                Ok(AddedName::New(NameId(place)))
            }
        }
    }

    // Adds a text that is not there at the end.
    fn push_text(&mut self, text: String) -> Result<(), Memory>
        requires room { length self.old < 2 ^ 32 - 1 }
        requires absent { place_in self.old (Some (string_bytes text)) ≡ None }
        ensures entries { OnOk result (self.new ≡ self.old ++ Some (string_bytes text) ∷ []) }
        ensures unchanged { OnErr result (self.new ≡ self.old) }
    {
        push_to(&mut self.texts, text)
    }

    // `add` of the absent string.
    fn add_absent(&mut self) -> AddedName
        requires { length self.old < 2 ^ 32 - 1 }
        ensures answer { result ≡ added_name self.old None }
        ensures entries { self.new ≡ added self.old None }
    {
        match self.absent {
            Some(place) => AddedName::There(NameId(place)),
            None => {
                let place = self.texts.len() as u32;
                self.absent = Some(place);
                AddedName::New(NameId(place))
            }
        }
    }
}

// The index of a text among the texts.
fn index_of(texts: &IndexSet<String>, text: &str) -> Option<usize>
    ensures index { result ≡ position (bytes_eq text.now) (texts_of texts.now) }
    ensures within { IfSome result (λ i. i < length (texts_of texts.now)) }
{
    texts.get_index_of(text)
}

// The text at an index among the texts.
fn text_at(texts: &IndexSet<String>, index: u32) -> Option<&str>
    ensures { option_copied result ≡ slice_get (texts_of texts.now) index }
{
    match texts.get_index(index as usize) {
        None => None,
        Some(text) => Some(text.as_str()),
    }
}

// Adds a text that is not there behind the others.
fn push_to(texts: &mut IndexSet<String>, text: String) -> Result<(), Memory>
    requires { position (bytes_eq (string_bytes text)) (texts_of texts.old) ≡ None }
    ensures pushed { OnOk result (texts_of texts.new ≡ texts_of texts.old ++ string_bytes text ∷ []) }
    ensures unchanged { OnErr result (texts_of texts.new ≡ texts_of texts.old) }
{
    texts.insert(text)?;
    Ok(())
}

// The place in the table of the text at an index among the texts.
fn place_from(index: usize, absent: Option<u32>) -> u32
    requires { place_of_index absent index < 2 ^ 32 }
    ensures { result ≡ place_of_index absent index }
{
    match absent {
        None => index as u32,
        Some(place) => {
            if index < place as usize {
                index as u32
            } else {
                index as u32 + 1
            }
        }
    }
}
