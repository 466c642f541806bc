//! The reader of files: from the bytes of a range to the tree that they spell, or to their first fault, and from a
//! whole file to its tree, or to the first thing that is wrong with it.
//!
//! - `decode` reads a whole file: its tree with its texts, or the `ReadRefusal`.
//! - `read_outer` reads the tree of a file whose layout is known, and judges nothing; `read_tree` reads the tree of a
//!   kind that a range of bytes spells.
//!
//! Begin with `specs/WholeReading.antt`, what is answered of a file; `specs/Reading.antt` defines the tree or the first
//! fault of a range, `specs/Row.antt` and `specs/Dues.antt` what is still to be read at a place, and `specs/Spelt.antt`
//! which trees a range spells. The laws (`laws.rt`, `file_laws.rt`) say that one spelling is one tree, and that a file
//! is read exactly where it is in the grammar of files.
#![tactic(auto)]

mod cursor;
mod file_laws;
mod files;
mod laws;
mod lazy_kinds;
mod leaves;
mod outer;
mod reading;
#[cfg(test)]
mod tests;

pub use file_laws::{
    files_are_read_as_one_tree, files_are_read_exactly, files_have_one_reading,
    files_have_one_tree, files_in_grammar_have_no_fault, files_that_are_read_are_in_grammar,
    files_without_lazy_kinds_are_read_so,
};
pub use files::{ReadRefusal, decode};
pub use laws::{
    atoms_are_due, atoms_are_of_one_tree, fault_is_first_behind_row, one_tree_is_spelled,
    only_trees_leave_nothing_due, scripts_are_one, some_script_is_spelled, tree_ranges_are_sound,
};
pub use outer::read_outer;
pub use reading::read_tree;
