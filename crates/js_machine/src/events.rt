//! What the machine keeps and what it answers.

use js_grammar::{Class, RowId, Symbol};

/// An entry of the machine's stack.
#[derive(Clone, Copy)]
pub enum Frame {
    /// A symbol that is still wanted.
    Want {
        symbol: Symbol,
        /// The class of the token at which the symbol's row was taken.
        first: Class,
        /// How many tokens were taken before that token.
        from: usize,
    },
    /// The end of a row that counts for the nest.
    EndMark,
}

/// A step of a derivation. The steps of a script stand in the order in which the machine makes them: each row before what
/// its symbols derive, from the left.
#[derive(Clone, Copy)]
pub enum Event {
    /// A symbol is replaced by the symbols of the row.
    Row(RowId),
    /// The next token is taken.
    Took,
    /// A semicolon that does not stand in the text counts as there (ECMA-262, 6th edition, 11.9.1).
    Inserted,
}
