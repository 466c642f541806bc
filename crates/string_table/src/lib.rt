//! The table of a file's strings: distinct entries, each a text or the absent string, known by their places.
//!
//! - `StringTable::add` and `StringTable::intern` answer the place of an entry, which they add where it is new; a place
//!   once given stays.
//! - `StringTable::text` answers the text at a place, and `StringTable::find` the place of a text.
//!
//! A name in a tree is such a place (`NameId`). Entries are found by their hash; that this is fast is measured, not
//! proved. Begin with `specs/Entries.antt`, which list of entries a table is and what adding makes of it;
//! `specs/Inside.antt` says how the hashed index agrees with the list.
#![tactic(auto)]

mod entry;
mod table;
#[cfg(test)]
mod tests;

pub use entry::{AddedName, Entry};
pub use table::StringTable;
