//! The violations of a tree: whether it breaks an early error of ECMA-262, or says something untrue in its scopes.
//!
//! `first_violation` answers the first one, by the number of its node and then by its rule. Its definition is
//! `specs/Violations.antt`; what the two kinds of violations are stands in `early_errors` and `scope_check`.
#![tactic(auto)]

mod judging;
mod laws;
#[cfg(test)]
mod tests;

pub use judging::{first_violation, name_of};
pub use laws::first_violations_are_least;
