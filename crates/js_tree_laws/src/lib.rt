//! What holds of the trees that `js_tree` builds, as laws of their definition alone.
//!
//! - `accepted_have_trees`: what the machine accepts stands for a typed script, refused exactly where it is too deep.
//! - `trees_hold`: the tree of steps is whole, eager, its own plain tree, and has no names but those of the tokens; that
//!   of an accepted run is a script, and small.
//! - `limit_refuses_deep_trees`: the limit of depth changes no tree, and refuses those alone that are too deep.
//!
//! Each law is a function that does nothing: its clauses are the law. They stand apart from the code so that a change of
//! the code does not prove them anew where the definition stays. Begin with `specs/TreeLaws.antt`; the recipes and the
//! tree of steps are defined in the specs of `js_tree`.
#![tactic(auto)]

mod laws;
mod tree_laws;

pub use laws::accepted_have_trees;
pub use tree_laws::{limit_refuses_deep_trees, trees_hold};
