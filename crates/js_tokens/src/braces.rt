//! What a `}` closes.

ghost use Rattle.std.specs.Prelude.{◌≡◌, [], ◌∷◌, OnOk};
ghost use Rattle.js_tokens.specs.Braces.{is_inside, turn_of, turn_of_mark, turn_of_piece, opened, turned};

use crate::kinds::{Mark, Piece, TokenKind};
use bast_base::Memory;
use std::alloc::Global;
use std::marker::Model;

/// A brace that is open.
#[derive(Clone, Copy)]
pub enum Brace {
    /// A `{`.
    Plain,
    /// A `${` of a template.
    Substitution,
}

/// What a token does to the braces that are open.
#[derive(Clone, Copy)]
pub enum Turn {
    Opens(Brace),
    Closes,
    Stays,
}

/// The braces that are open. Contracts see the innermost first.
#[derive(Drop)]
pub(crate) struct Braces {
    // The innermost last.
    open: Vec<Brace>,
}

impl Model for Braces {
    ghost use Rattle.std.specs.Prelude.{List, reverse};
    ghost use Rattle.js_tokens.specs.declared.braces.Brace.{Brace};

    ghost Value = { List Brace };

    ghost view = { λ b. reverse b.open.items };
}

impl Braces {
    pub(crate) fn new(alloc: Global) -> Braces
        ensures { result ≡ [] }
    {
        Braces {
            open: Vec::new(alloc),
        }
    }

    /// Whether a `}` closes a `${`.
    pub(crate) fn inside(&self) -> bool
        ensures { result ≡ is_inside self.now }
    {
        match self.open.last() {
            Some(Brace::Substitution) => true,
            _ => false,
        }
    }

    /// Goes past a token.
    pub(crate) fn pass(&mut self, kind: TokenKind) -> Result<(), Memory>
        ensures { OnOk result (self.new ≡ opened self.old kind) }
    {
        match turn_of(kind) {
            Turn::Opens(brace) => self.open.push(brace)?,
            Turn::Closes => {
                let _closed = self.open.pop();
            }
            Turn::Stays => {}
        }
        Ok(())
    }
}

fn turn_of(kind: TokenKind) -> Turn
    ensures { result ≡ turn_of kind }
{
    match kind {
        TokenKind::Punctuator(mark) => turn_of_mark(mark),
        TokenKind::Template(piece) => turn_of_piece(piece),
        TokenKind::Identifier
        | TokenKind::Reserved(_)
        | TokenKind::Number(_)
        | TokenKind::Text
        | TokenKind::End => Turn::Stays,
    }
}

fn turn_of_mark(mark: Mark) -> Turn
    ensures { result ≡ turn_of_mark mark }
{
    match mark {
        Mark::OpenBrace => Turn::Opens(Brace::Plain),
        Mark::CloseBrace => Turn::Closes,
        _ => Turn::Stays,
    }
}

fn turn_of_piece(piece: Piece) -> Turn
    ensures { result ≡ turn_of_piece piece }
{
    match piece {
        Piece::Head => Turn::Opens(Brace::Substitution),
        Piece::Tail => Turn::Closes,
        Piece::Whole | Piece::Middle => Turn::Stays,
    }
}
