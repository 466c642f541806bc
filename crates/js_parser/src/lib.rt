//! From the text of a script to its tree, or to the refusal (ECMA-262, 6th edition, sections 11 to 15).
//!
//! - `parse` takes a text and a table of strings, and answers the tree of the script, with its texts added to the
//!   table, or a `SourceFault`: the first fault of the tokens, the first token with which no script goes on, what is
//!   left out of the language, or a depth beyond the limits.
//!
//! It puts together `js_tokens::tokens`, `js_machine::derive` and `js_tree::build_tree`; its own is the list of leaves
//! that hands the texts of tokens on. Begin with `specs/Source.antt`, which tree or refusal a text has;
//! `specs/Leaves.antt` and `specs/Texts.antt` say what is handed on. The laws (`laws.rt`) say that each text has one
//! answer, and what the limit of depth refuses.
#![tactic(auto)]

mod laws;
mod leaves;
mod source;

pub use laws::{
    limit_refuses_deep_sources, sources_add_texts, sources_have_one_tree, texts_have_an_answer,
};
pub use source::{SourceFault, parse};

#[cfg(test)]
mod cases;
#[cfg(test)]
mod tests;
