//! The early errors of a script: what ECMA-262 refuses in a program that its grammar takes.
//!
//! - `first_early` walks a tree, or the contents of a function in their context, and answers the first early error:
//!   rule, number of the node and name, or none.
//! - `KnownTexts` holds what the rules ask of each text of a table, so that a text is looked through once; `Step` is
//!   the first early error of a walk, or the number after its last node.
//!
//! Begin with `specs/Rules.antt`, which states each rule by itself; `specs/Early.antt` lists what is broken at the
//! nodes of a tree, and `specs/Least.antt` says which of these is the first. `specs/Around.antt` has what is handed
//! down: labels, strictness, and what encloses a node. `docs/scopes.md` has a script that breaks each rule. The laws
//! (`laws.rt`) say what scopes, names and the place of a node change of what is found.
#![tactic(auto)]

mod around;
mod chosen;
mod declares;
mod kinds;
mod known;
mod laws;
mod repeats;
mod rules;
mod strict;
mod texts;
mod walk;

pub use around::{Flags, Label};
pub use kinds::{Place, Role};
pub use known::{KnownTexts, TextFacts};
pub use laws::{
    each_node_is_judged, exact_scopes_keep_early_errors, inside_is_judged_in_its_context,
    nodes_are_numbered, numbers_of_names_break_no_rule, own_scopes_break_no_rule,
    scopes_break_no_rule,
};
pub use rules::Finding;
pub use walk::{Step, first_early};

#[cfg(test)]
mod tests;
