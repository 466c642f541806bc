// How long a file is, before it is made.
ghost use Rattle.std.specs.Prelude.{◌≡◌, ◌≤◌, ◌<◌, ◌+◌, ◌↔◌, IsTrue, None, get_or, length, OnSome};
ghost use Rattle.std.specs.List.{AllByRecursion};
ghost use Rattle.std.specs.Str.{is_utf8};
ghost use Rattle.container.specs.Clauses.{kind_entries, text_entries};
ghost use Rattle.container.specs.Container.{container, entry_bytes};
ghost use Rattle.container.specs.InFile.{IsEntry};
ghost use Rattle.tree_encoder.specs.File.{most_bytes};
ghost use Rattle.tree_encoder.specs.Length.{Within};
ghost use Rattle.var_numbers.specs.Varnum.{varnum};

use crate::writer::MOST_BYTES;
use bast_base::NameId;
use bast_schema::{Kind, KindTable, name_of};
use string_table::StringTable;
use var_numbers::varnum_len;

// Whether the file over these tables and these bytes of a tree has no more bytes than a file may have.
pub(crate) fn is_small(kinds: &KindTable, texts: &StringTable, tree: &[u8]) -> bool
    requires { length tree.now ≤ most_bytes }
    ensures small { IsTrue result ↔ (length (container (record { kinds = kinds.now; texts = texts.now }) tree.now) ≤ most_bytes) }
    ensures entries { IsTrue result → AllByRecursion IsEntry texts.now }
{
    let (Some(names), Some(entries)) = (names_len(kinds.as_slice()), entries_len(texts)) else {
        return false;
    };
    let grammar = varnum_len(kinds.len()) + names;
    let strings = varnum_len(texts.len()) + entries;
    let sections = section_len(9, grammar)
        + section_len(9, strings)
        + section_len(6, tree.len() as u32);
    6 + sections <= MOST_BYTES
}

// How long a section is whose title and content are so long.
fn section_len(title: u32, content: u32) -> u32
    requires short { title < 10 }
    requires small { content ≤ most_bytes + 5 }
    ensures exact { result ≡ title + 9 + length (varnum content) + content }
    ensures small { result ≤ content + 23 }
{
    title + 9 + varnum_len(content) + content
}

// How long the names of the kinds are, each behind its length, unless they are longer than a file.
fn names_len(kinds: &[Kind]) -> Option<u32>
    ensures { Within result (length (kind_entries kinds.now)) }
{
    let mut total = 0;
    'kinds: for kind in kinds {
        match with_counted(total, name_of(*kind).len()) {
            Some(next) => total = next,
            None => return None,
        }
    }
    Some(total)
}

// How long the entries are, each behind its length, unless they are longer than a file.
fn entries_len(texts: &StringTable) -> Option<u32>
    ensures len { Within result (length (text_entries texts.now)) }
    ensures entries { OnSome result (AllByRecursion IsEntry texts.now) }
{
    let mut total = 0;
    'places: for place in 0..texts.len() {
        match with_counted(total, entry_len(texts, place)) {
            Some(next) => total = next,
            None => return None,
        }
    }
    Some(total)
}

// How long an entry is, which is a text or the absent string.
fn entry_len(texts: &StringTable, place: u32) -> usize
    requires { place < length texts.now }
    ensures len { result ≡ length (entry_bytes (get_or texts.now place None)) }
    ensures entry { IsEntry (get_or texts.now place None) }
{
    match texts.text(NameId(place)) {
        Some(text) => text_len(text),
        None => 2,
    }
}

// How long a text is.
fn text_len(text: &str) -> usize
    ensures len { result ≡ length text.now }
    ensures text { IsTrue (is_utf8 text.now) }
{
    text.len()
}

// So many bytes, and so many more behind their length, unless they are longer than a file.
fn with_counted(total: u32, len: usize) -> Option<u32>
    requires { total ≤ most_bytes }
    ensures { Within result (total + length (varnum len) + len) }
{
    if len > MOST_BYTES as usize {
        return None;
    }
    let len = len as u32;
    let next = total + varnum_len(len) + len;
    if next > MOST_BYTES { None } else { Some(next) }
}
