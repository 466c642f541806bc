ghost use Rattle.std.specs.Prelude.{◌≡◌, ◌≤◌, ◌<◌, ◌+◌, ◌++◌, ◌∷◌, [], ◌^◌, List, ℕ, Option, Err, None, length, option_copied, replicate, ◌-◌, IfOk, OnOk};
ghost use Rattle.bast_schema.specs.Held.{text_of};
ghost use Rattle.container.specs.Atoms.{kind as kind_atom, text as text_atom};
ghost use Rattle.string_table.specs.Entries.{added};
ghost use Rattle.tree_encoder.specs.File.{most_bytes, texts_held};
ghost use Rattle.tree_encoder.specs.Writing.{AreNumbers, IsSound, Puts, so_far};
ghost use Rattle.var_numbers.specs.Varnum.{varnum};

use crate::EncodeFault;
use crate::numbers::{number_of_kind, number_of_name, number_of_text};
use bast_base::{Memory, NameId};
use bast_schema::{Kind, KindTable};
use std::alloc::Global;
use string_table::StringTable;
use var_numbers::put_varnum;

// How many bytes a file may have.
pub(crate) const MOST_BYTES: u32 = 8_388_608;

// What is written of a tree so far.
#[derive(Drop)]
pub(crate) struct Writer {
    // The kinds and the texts that were used, in order of first use.
    pub(crate) kinds: KindTable,
    pub(crate) texts: StringTable,
    // For each entry of the tree's table of strings its number among the texts, once it was used.
    pub(crate) numbers: Vec<Option<u32>>,
    // The bytes of the tree.
    pub(crate) bytes: Vec<u8>,
}

impl Writer {
    // A writer of trees over this table of strings.
    pub(crate) fn new(alloc: Global, strings: &StringTable) -> Result<Writer, Memory>
        ensures start { IfOk result (λ w. so_far w ≡ record { tables = record { kinds = []; texts = [] }; bytes = [] }) }
        ensures sound { IfOk result (λ w. IsSound strings.now w) }
    {
        Ok(Writer {
            kinds: KindTable::new(alloc),
            texts: StringTable::new(alloc),
            numbers: no_numbers(alloc, strings.len())?,
            bytes: Vec::new(alloc),
        })
    }
}

// So many places with no number.
fn no_numbers(alloc: Global, count: u32) -> Result<Vec<Option<u32>>, Memory>
    ensures { IfOk result (λ numbers. numbers.items ≡ replicate count None) }
{
    let mut numbers = Vec::with_capacity(alloc, count as usize)?;
    'places: for _ in 0..count {
        numbers.push(None)?;
    }
    Ok(numbers)
}

// Adds the number of a kind.
pub(crate) fn put_kind(kind: Kind, into: &mut Writer) -> Result<(), EncodeFault>
    ensures puts { Puts (so_far into.old) (kind_atom kind ∷ []) (so_far into.new) result }
    ensures sound { (strings : List (Option (List ℕ))) → IsSound strings into.old → OnOk result (IsSound strings into.new) }
{
    let number = number_of_kind(&mut into.kinds, kind)?;
    put_number(number, &mut into.bytes)
}

// Adds the number of a text, or of the absent string.
pub(crate) fn put_text(text: Option<&str>, into: &mut Writer) -> Result<(), EncodeFault>
    requires { length into.old.texts < 2 ^ 32 - 1 }
    ensures puts { Puts (so_far into.old) (text_atom (option_copied text.entry) ∷ []) (so_far into.new) result }
    ensures sound { (strings : List (Option (List ℕ))) → IsSound strings into.old → OnOk result (IsSound strings into.new) }
{
    let number = number_of_text(&mut into.texts, text)?;
    put_number(number, &mut into.bytes)
}

// Adds the number of the text that a name stands for.
pub(crate) fn put_name(
    name: NameId,
    strings: &StringTable,
    into: &mut Writer,
) -> Result<(), EncodeFault>
    requires { IsSound strings.now into.old }
    ensures puts { Puts (so_far into.old) (text_atom (text_of (texts_held strings.now) name.0) ∷ []) (so_far into.new) result }
    ensures sound { OnOk result (IsSound strings.now into.new) }
{
    let number = number_of_name(strings, name, &mut into.texts, &mut into.numbers)?;
    put_number(number, &mut into.bytes)
}

// Adds the spelling of a number.
pub(crate) fn put_number(number: u32, into: &mut Vec<u8>) -> Result<(), EncodeFault>
    ensures put { OnOk result (into.new.items ≡ into.old.items ++ varnum number) }
    ensures small { OnOk result (length into.new.items ≤ most_bytes) }
    ensures large { result ≡ Err EncodeFault.TooLarge → most_bytes < length (into.old.items ++ varnum number) }
{
    put_varnum(into, number)?;
    check_size(into)
}

// Adds bytes.
pub(crate) fn put_bytes(bytes: &[u8], into: &mut Vec<u8>) -> Result<(), EncodeFault>
    ensures put { OnOk result (into.new.items ≡ into.old.items ++ bytes.now) }
    ensures small { OnOk result (length into.new.items ≤ most_bytes) }
    ensures large { result ≡ Err EncodeFault.TooLarge → most_bytes < length (into.old.items ++ bytes.now) }
{
    if into.extend_from_slice(bytes).is_err() {
        return Err(EncodeFault::Memory);
    }
    check_size(into)
}

// Whether these are no more bytes than a file may have.
fn check_size(bytes: &[u8]) -> Result<(), EncodeFault>
    ensures small { OnOk result (length bytes.now ≤ most_bytes) }
    ensures large { result ≡ Err EncodeFault.TooLarge → most_bytes < length bytes.now }
{
    if bytes.len() > MOST_BYTES as usize {
        return Err(EncodeFault::TooLarge);
    }
    Ok(())
}
