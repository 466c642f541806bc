//! The tree of a derivation, built from its steps, the last step first (ECMA-262, 6th edition, sections 12 to 15).
//!
//! - `build_tree` takes the steps of a derivation and a leaf for each token, and answers the tree that they stand for,
//!   or a `Fault`: the tree is too deep, or these are not the steps of a script.
//!
//! Each row of the grammar has a recipe: steps that gather the parts of its symbols, and a finish that makes the part
//! of the row itself. Begin with `specs/Recipes.antt`, the recipe of each row; `specs/Steps.antt` and
//! `specs/Finishes.antt` say what recipes do, `specs/Parts.antt` what a symbol stands for meanwhile, and
//! `specs/Image.antt` which tree the steps stand for, without regard to how it is built. What holds of these trees stands
//! in `js_tree_laws`.
#![tactic(auto)]

mod build;
mod fault;
mod finishes;
mod leaf;
mod nodes;
mod operators;
mod parts;
mod recipe;
mod recipes;
mod run;
mod statements;
mod steps;
mod switches;
mod work;

pub use build::build_tree;
pub use fault::Fault;
pub use leaf::Leaf;
