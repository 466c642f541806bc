//! Trees as flat rows: one row a value, in preorder, in one vector.
//!
//! - `Room` takes rows as they come, in memory that was taken at once, and `Room::finish` makes `Rows` of those of a tree.
//! - `Rows` is such a tree: contracts see the tree alone. `Rows::of` makes rows of nodes, `Rows::to_node` nodes of rows.
//! - `Siblings` is what a walk asks of a tree: values one after another, with the values inside each. `Boxed` gives it over
//!   nodes and `Flat` over rows, so a walk is written and proved once for both.
//!
//! Begin with `specs/RowsOf.antt`, the rows of a tree and the tree of rows; `specs/Siblings.antt` says what a walk learns of
//! a value, and `specs/Room.antt` what a room holds.
#![tactic(auto)]

mod boxed;
mod budget;
mod flat;
mod laws;
mod making;
mod putting;
mod room;
mod row;
mod rows;
mod siblings;
#[cfg(test)]
mod tests;

pub use boxed::Boxed;
pub use budget::left_after_siblings;
pub use flat::Flat;
pub use laws::{each_value_has_a_row, rows_are_of_one_tree};
pub use room::Room;
pub use row::Row;
pub use rows::Rows;
pub use siblings::{Sibling, Siblings};
