//! Trees in words, for the tests of the crates above.
//!
//! A test tells a tree by one line of words, and `tree_of` makes it, with its texts added to a table. The words stand in
//! preorder: a kind for a node, a number for a list, `-` for what is absent, `#` for a window, and a text, a choice, a
//! number or a truth value for itself. No program uses this crate.
#![tactic(auto)]

mod words;

pub use words::{Scopes, tree_of};
