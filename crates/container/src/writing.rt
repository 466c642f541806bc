ghost use Rattle.std.specs.Prelude.{◌≡◌, ◌++◌, ◌<◌, ◌^◌, length, flat_map, get_or, None, IfOk, OnOk};
ghost use Rattle.bast_schema.specs.Kinds.{kind_name};
ghost use Rattle.container.specs.Container.{container, counted, entry_bytes, grammar, section, strings as strings_of};

use bast_base::{Memory, NameId};
use bast_schema::{Kind, KindTable, name_of};
use std::alloc::Global;
use string_table::StringTable;
use var_numbers::put_varnum;

// The version of the format.
pub(crate) const VERSION: u32 = 1;

// What stands for the absent string: two bytes that are no text.
pub(crate) const ABSENT: [u8; 2] = [0xFF, 0];

/// The file over two tables and the bytes of a tree.
#[tactic(auto, unfolding(crate::specs::Container::container))]
pub fn write_file(
    alloc: Global,
    kinds: &KindTable,
    strings: &StringTable,
    tree: &[u8],
) -> Result<Vec<u8>, Memory>
    requires { length (container (record { kinds = kinds.now; texts = strings.now }) tree.now) < 2 ^ 32 }
    ensures { IfOk result (λ v. v.items ≡ container (record { kinds = kinds.now; texts = strings.now }) tree.now) }
{
    let grammar = grammar_of(alloc, kinds.as_slice())?;
    let texts = texts_of(alloc, strings)?;
    let mut file = Vec::new(alloc);
    file.extend_from_slice(b"BINJS")?;
    put_varnum(&mut file, VERSION)?;
    put_section(&mut file, b"[GRAMMAR]", &grammar)?;
    put_section(&mut file, b"[STRINGS]", &texts)?;
    put_section(&mut file, b"[TREE]", tree)?;
    Ok(file)
}

fn grammar_of(alloc: Global, kinds: &[Kind]) -> Result<Vec<u8>, Memory>
    requires { length kinds.now < 2 ^ 32 }
    ensures { IfOk result (λ v. v.items ≡ grammar kinds.now) }
{
    let mut content = Vec::new(alloc);
    put_varnum(&mut content, kinds.len() as u32)?;
    put_names(&mut content, kinds)?;
    Ok(content)
}

fn put_names(into: &mut Vec<u8>, kinds: &[Kind]) -> Result<(), Memory>
    ensures { OnOk result (into.new.items ≡ into.old.items ++ flat_map (λ k. counted (kind_name k)) kinds.now) }
{
    'kinds: for kind in kinds {
        put_counted(into, name_of(*kind).as_bytes())?;
    }
    Ok(())
}

fn texts_of(alloc: Global, strings: &StringTable) -> Result<Vec<u8>, Memory>
    requires { length (strings_of strings.now) < 2 ^ 32 }
    ensures { IfOk result (λ v. v.items ≡ strings_of strings.now) }
{
    let mut content = Vec::new(alloc);
    put_varnum(&mut content, strings.len())?;
    put_entries(&mut content, strings)?;
    Ok(content)
}

fn put_entries(into: &mut Vec<u8>, strings: &StringTable) -> Result<(), Memory>
    requires { length (flat_map (λ entry. counted (entry_bytes entry)) strings.now) < 2 ^ 32 }
    ensures { OnOk result (into.new.items ≡ into.old.items ++ flat_map (λ entry. counted (entry_bytes entry)) strings.now) }
{
    'places: for place in 0..strings.len() {
        put_entry(into, strings, place)?;
    }
    Ok(())
}

fn put_entry(into: &mut Vec<u8>, strings: &StringTable, place: u32) -> Result<(), Memory>
    requires within { place < length strings.now }
    requires small { length (entry_bytes (get_or strings.now place None)) < 2 ^ 32 }
    ensures { OnOk result (into.new.items ≡ into.old.items ++ counted (entry_bytes (get_or strings.now place None))) }
{
    match strings.text(NameId(place)) {
        Some(text) => put_counted(into, text.as_bytes()),
        None => put_counted(into, &ABSENT),
    }
}

fn put_section(into: &mut Vec<u8>, title: &[u8], content: &[u8]) -> Result<(), Memory>
    requires { length content.now < 2 ^ 32 }
    ensures { OnOk result (into.new.items ≡ into.old.items ++ section title.now content.now) }
{
    into.extend_from_slice(title)?;
    into.extend_from_slice(b"identity;")?;
    put_counted(into, content)
}

fn put_counted(into: &mut Vec<u8>, bytes: &[u8]) -> Result<(), Memory>
    requires { length bytes.now < 2 ^ 32 }
    ensures { OnOk result (into.new.items ≡ into.old.items ++ counted bytes.now) }
{
    put_varnum(into, bytes.len() as u32)?;
    Ok(into.extend_from_slice(bytes)?)
}
