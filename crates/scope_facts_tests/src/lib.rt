//! The tests of `scope_facts`: scripts, as trees in words, with the scopes that each has to have.
//!
//! They stand apart from the crate that they test, since a crate with its tests is proved once more than without.
#![tactic(auto)]

#[cfg(test)]
mod tests;
