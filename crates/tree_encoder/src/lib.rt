//! The writer of files: from a tree and its table of strings to the file's bytes.
//!
//! - `encode` writes the file of a tree without windows and lazy kinds, its kinds and texts in the order of first use,
//!   or answers an `EncodeFault`: the file would be larger than 8,388,608 bytes.
//!
//! Begin with `specs/File.antt`, which bytes the file of a tree has; `specs/Length.antt` reckons how many they are
//! before they are made, and `specs/Writing.antt` says what the writer has written at each node. The law
//! `files_are_in_grammar` says that the file of a script is in the grammar of files, as `container` defines it.
#![tactic(auto)]

mod encoding;
mod fault;
mod laws;
mod length;
mod nodes;
mod numbers;
#[cfg(test)]
mod tests;
mod writer;

pub use encoding::encode;
pub use fault::EncodeFault;
pub use laws::files_are_in_grammar;
