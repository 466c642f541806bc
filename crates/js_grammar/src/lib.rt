//! The grammar of scripts as a table: which row a symbol takes at a token (ECMA-262, 6th edition, sections 12 to 15).
//!
//! - `row` answers which row a symbol takes at the class of a token, and whether there is one; `class_of` gives the
//!   class.
//! - `symbols_of` has the symbols of a row, `marked` whether it counts for nesting, `takes` which tokens a terminal
//!   takes.
//!
//! Begin with `specs/Rows.antt`, the symbols of each row, and `specs/Choice.antt`, at which tokens it is taken;
//! `docs/grammar.md` has both as they are read by people. `specs/Derivation.antt` says what the rows derive, and where
//! semicolons count as there. The laws (`laws.rt`) say that the alternatives of a symbol begin with different tokens
//! and that first tokens agree with the derivations.
#![tactic(auto)]

mod class;
mod firsts;
mod laws;
mod marks;
mod row_symbols;
mod rows;
mod symbols;
mod terminals;

pub use class::{Class, class_of};
pub use laws::{
    alternatives_are_disjoint, begun_rows_are_taken, first_tokens_are_known, firsts_are_settled,
    rows_are_alternatives,
};
pub use marks::marked;
pub use row_symbols::symbols_of;
pub use rows::row;
pub use symbols::{Level, Mode, RowId, Symbol, Terminal};
pub use terminals::takes;

#[cfg(test)]
mod notation;
#[cfg(test)]
mod tests;
