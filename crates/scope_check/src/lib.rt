//! The rules on what the scopes of a tree say: whether it is true of the tree.
//!
//! - `first_untrue` walks a tree, or the contents of a function inside the scopes around them, and answers the first
//!   place where what its scopes say is untrue: rule, number of the node and name, or none.
//! - `Step` is the first such place of a walk, or the number after its last node.
//!
//! Begin with `specs/Untrue.antt`, which lists what is untrue at the nodes of a tree; `specs/Entries.antt` has the
//! rules on what scopes declare, `specs/Covers.antt` which scope a use of a name belongs to, and `specs/Least.antt`
//! which of several is the first. `docs/scopes.md` has a file that breaks each rule. The law `exact_scopes_are_true`
//! says that the scopes which `scope_facts` fills in are untrue nowhere.
#![tactic(auto)]

mod covers;
mod entries;
mod evals;
mod finding;
mod laws;
mod numbers;
mod walk;

pub use finding::Finding;
pub use laws::exact_scopes_are_true;
pub use walk::{Step, first_untrue};

#[cfg(test)]
mod tests;
