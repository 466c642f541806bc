// The numbers of texts and kinds in the tables of a file. What is new goes to the end of its table.
ghost use Rattle.std.specs.Prelude.{◌≡◌, ◌<◌, ◌-◌, ◌^◌, Option, Some, length, option_copied, get_or, None, IfOk, OnOk};
ghost use Rattle.bast_schema.specs.KindTable.{place_of, with_kind};
ghost use Rattle.container.specs.Atoms.{chosen};
ghost use Rattle.string_table.specs.Entries.{added, place_in};
ghost use Rattle.tree_encoder.specs.Writing.{AreNumbers};

use bast_base::{Memory, NameId};
use bast_schema::{Added, FieldType, Kind, KindTable, choice_text, choices_in};
use string_table::{AddedName, Entry, StringTable};

// The number of a kind.
pub(crate) fn number_of_kind(kinds: &mut KindTable, kind: Kind) -> Result<u32, Memory>
    ensures number { IfOk result (λ n. place_of kinds.new kind ≡ Some n) }
    ensures kinds { OnOk result (kinds.new ≡ with_kind kinds.old kind) }
{
    match kinds.add(kind)? {
        Added::New(number) => Ok(number),
        Added::There(number) => Ok(number),
    }
}

// The number of a text, or of the absent string.
pub(crate) fn number_of_text(texts: &mut StringTable, text: Option<&str>) -> Result<u32, Memory>
    requires { length texts.old < 2 ^ 32 - 1 }
    ensures number { IfOk result (λ n. place_in texts.new (option_copied text.entry) ≡ Some n) }
    ensures texts { OnOk result (texts.new ≡ added texts.old (option_copied text.entry)) }
{
    match text {
        Some(text) => Ok(texts.intern(text)?.0),
        None => match texts.add(Entry::Absent)? {
            AddedName::New(name) => Ok(name.0),
            AddedName::There(name) => Ok(name.0),
        },
    }
}

// The number of the text that a name stands for. It is sought once, and then kept.
pub(crate) fn number_of_name(
    strings: &StringTable,
    name: NameId,
    texts: &mut StringTable,
    numbers: &mut Vec<Option<u32>>,
) -> Result<u32, Memory>
    requires room { length texts.old < 2 ^ 32 - 1 }
    requires kept { AreNumbers strings.now texts.old numbers.old.items }
    ensures number { IfOk result (λ n. place_in texts.new (get_or strings.now name.0 None) ≡ Some n) }
    ensures texts { OnOk result (texts.new ≡ added texts.old (get_or strings.now name.0 None)) }
    ensures kept { OnOk result (AreNumbers strings.now texts.new numbers.new.items) }
{
    let place = name.0 as usize;
    if let Some(Some(number)) = numbers.get(place) {
        return Ok(*number);
    }
    let number = number_of_text(texts, text_of(strings, name))?;
    if place < numbers.len() {
        numbers[place] = Some(number);
    }
    Ok(number)
}

// The text that a name stands for.
fn text_of(strings: &StringTable, name: NameId) -> Option<&str>
    ensures { option_copied result ≡ get_or strings.now name.0 None }
{
    if name.0 < strings.len() {
        strings.text(name)
    } else {
        None
    }
}

// The text of a choice in a field of this type.
pub(crate) fn text_of_choice(wanted: FieldType, choice: u8) -> Option<&'static str>
    ensures { option_copied result ≡ chosen wanted choice }
{
    match wanted {
        FieldType::Choice(set) => {
            if (choice as usize) < choices_in(set) {
                Some(choice_text(set, choice))
            } else {
                Some("")
            }
        }
        _ => None,
    }
}
