use bast_base::{Chars, NameId};

/// What a string table holds at a place.
#[derive(Debug, Drop)]
pub enum Entry {
    /// A text, which may be empty.
    Text(Chars),
    /// The string that is not there, which differs from each text, also from the empty one.
    Absent,
}

/// The place of an entry that was to be added, and whether it is new there.
#[derive(Clone, Copy, Debug, PartialEq, Eq)]
pub enum AddedName {
    /// The entry is new, and stands at the end.
    New(NameId),
    /// The entry was there before.
    There(NameId),
}
