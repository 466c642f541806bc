//! The container of a file: a table of kinds, a table of texts, and the bytes of a tree.
//!
//! - `write_file` writes a file over two tables and the bytes of a tree.
//! - `read_layout` reads the tables of a file and where its tree stands, or answers the first fault with its place. The
//!   bytes of the tree themselves are read by `tree_decoder`.
//!
//! Begin with `specs/Container.antt`, the grammar of files, and `specs/Layout.antt`, what is read of one;
//! `specs/Spelled.antt` and `specs/SpelledAtom.antt` say how a tree is spelled, and `specs/InFile.antt` when a file is
//! one of a tree. `docs/format.md` has the same in words, with a file byte by byte. The laws that a file has one
//! reading and is read back are in `laws.rt`.
#![tactic(auto)]

mod laws;
mod layout;
mod parts;
mod tables;
#[cfg(test)]
mod tests;
mod writing;

pub use laws::{
    bytes_after_container_are_trailing, changed_byte_is_first_fault, container_has_one_reading,
    container_is_ended_where_it_breaks_off, container_is_read_back, layouts_are_containers,
    trees_are_spelled_by_atoms, trees_have_no_more_values_than_bytes,
};
pub use layout::{Layout, read_layout};
pub use writing::write_file;
