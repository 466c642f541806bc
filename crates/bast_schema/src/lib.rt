//! The kinds of node with their fields, and well-typed trees of them.
//!
//! The kinds, their fields and the sets of texts follow the node interfaces of the Binary AST proposal, in a profile of
//! this repository's own for the syntax of ECMA-262, 6th edition, that it reads and writes. Fields, choices and kinds
//! are numbered from 0.
//!
//! - `Node::new` makes a node of a kind and its values, or tells the first reason why they are not those of the kind.
//! - `fields_of`, `kind_named`, `choice_of`, `allows` ask the table of kinds; `KindTable` is the table of a file.
//!
//! Begin with `specs/Tree.antt`, what a tree is and when it fits; then `specs/Fields.antt`, `specs/Unions.antt` and
//! `specs/Choices.antt`, the table itself. `specs/View.antt` says which tree a `Node` is.
#![tactic(auto)]

mod choices;
mod edits;
mod fields;
mod kind;
mod laws;
mod names;
mod node;
mod sizes;
mod table;
mod unions;

pub use choices::{
    DECLARED_CONST, DECLARED_LEXICAL, DECLARED_VAR, FOR_CONST, FOR_LET, FOR_VAR, LEXICAL_CONST,
    LEXICAL_LET, UNARY_DELETE, choice_of, choice_text, choices_in,
};
pub use edits::{put_first, rebuilt, take_first};
pub use fields::{field_name, fields_of, is_lazy};
pub use kind::{EnumId, FieldType, Kind, Union};
pub use laws::named_choices_have_their_texts;
pub use names::{is_counted, kind_named, kind_numbered, name_of, number_of};
pub use node::{Node, NodeFault, Value, Values};
pub use sizes::values_left;
pub use table::{Added, KindTable};
pub use unions::allows;

#[cfg(test)]
mod tests;
