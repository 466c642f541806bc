//! Trees and texts as text: the listing of a tree, and the string form of a text.
//!
//! - `list_tree` lists a tree, a line a value, with its texts from the table of strings.
//! - `string_form` writes a text between quotes on one line, with escapes for what can't stand there.
//!
//! Begin with `specs/Listing.antt` and `specs/StringForm.antt`, which define the two texts; `specs/Names.antt` says
//! when the names of a tree stand for texts. The law `string_forms_are_one_line` says that a string form has no end of
//! line within, so that lines can be told apart.
#![tactic(auto)]

mod laws;
mod listing;
mod strings;
#[cfg(test)]
mod tests;

pub use laws::string_forms_are_one_line;
pub use listing::list_tree;
pub use strings::string_form;
