//! Cuts a text of JavaScript into tokens (ECMA-262, 6th edition, section 11).
//!
//! - `tokens` answers the tokens of a text, each with its kind, its place in bytes, and whether a line ends before it,
//!   or the first `TokenFault` with its place.
//! - `string_value` and `raw_text` answer what the text of a token stands for.
//! - `is_identifier_name`, `is_reserved`, `template_spelled`, `directive_quote` answer what a text could be spelled as.
//!
//! Begin with `specs/Tokens.antt` and `specs/Cut.antt`, what the tokens of a text are; each form has a file of its own:
//! `Words`, `Numbers`, `Strings`, `Escapes`, `Marks`, `Span` (white space and comments). The laws (`laws.rt`) say that
//! a text has one cut, of longest tokens, and that the tokens are the text.
#![tactic(auto)]

mod braces;
mod classes;
mod cursor;
mod escapes;
mod heads;
mod kinds;
mod laws;
mod marks;
mod numbers;
mod scan;
mod spelled;
mod strings;
#[cfg(test)]
mod tests;
mod token_list;
mod values;
mod words;

pub use kinds::{Mark, Piece, Token, TokenFault, TokenKind, Word};
pub use laws::{
    faults_are_of_the_text, name_is_longest, number_is_whole, punctuator_is_longest,
    spellings_are_read, text_has_either, text_has_not_both, text_has_one_cut, text_has_one_fault,
    tokens_are_the_text, values_are_texts,
};
pub use spelled::{directive_quote, template_spelled};
pub use token_list::tokens;
pub use values::{raw_text, string_value};
pub use words::{is_identifier_name, is_reserved};
