use bast_base::Tape;
use bast_schema::KindTable;
use string_table::StringTable;

/// The bytes of a file up to a place, and the two tables that trees are spelled over there.
#[derive(Drop)]
pub(crate) struct Input<'a, L> {
    pub tape: &'a Tape<L>,
    pub kinds: &'a KindTable,
    pub strings: &'a StringTable,
    pub end: u32,
}
