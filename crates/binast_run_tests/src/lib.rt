//! The tests of `binast_run`: sources and files with what `run` answers to them, and what a fault of a stream leaves.
//!
//! They stand apart from the crate that they test, since a crate with its tests is proved once more than without.
#![tactic(auto)]

#[cfg(test)]
mod file_cases;
#[cfg(test)]
mod source_cases;
#[cfg(test)]
mod tests;
