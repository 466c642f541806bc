//! Which `(` are heads of arrow functions.

ghost use Rattle.std.specs.Prelude.{◌≡◌, ◌&&◌, not, [], OnOk, IfOk};
ghost use Rattle.js_tokens.specs.Heads.{with_heads, role_of, role_of_mark, head_of, closers_after, is_arrow};

use crate::kinds::{Mark, Token, TokenKind};
use bast_base::Memory;
use std::alloc::Global;
use std::marker::Model;

/// What a token does to heads.
#[derive(Clone, Copy)]
pub enum Role {
    Opens,
    Closes,
    Arrow,
    Other,
}

// For each `)` that no `(` was met for, going from the end, whether `=>` follows it. Contracts see the last met first.
#[derive(Drop)]
struct Closers {
    arrows: Vec<bool>,
}

impl Model for Closers {
    ghost use Rattle.std.specs.Prelude.{List, Bool, reverse};

    ghost Value = { List Bool };

    ghost view = { λ c. reverse c.arrows.items };
}

impl Closers {
    fn new(alloc: Global) -> Closers
        ensures { result ≡ [] }
    {
        Closers {
            arrows: Vec::new(alloc),
        }
    }

    // Goes past a token, behind which `=>` comes next or not. Whether it is a head.
    fn pass(&mut self, role: Role, arrow: bool) -> Result<bool, Memory>
        ensures head { IfOk result (λ head. head ≡ head_of role self.old) }
        ensures after { OnOk result (self.new ≡ closers_after role arrow self.old) }
    {
        match role {
            Role::Opens => Ok(self.arrows.pop().unwrap_or(false)),
            Role::Closes => {
                self.arrows.push(arrow)?;
                Ok(false)
            }
            Role::Arrow | Role::Other => Ok(false),
        }
    }
}

/// Marks the heads among all tokens of a text.
pub(crate) fn mark_heads(alloc: Global, tokens: &mut Vec<Token>) -> Result<(), Memory>
    ensures { OnOk result (tokens.new.items ≡ with_heads tokens.old.items) }
{
    let mut closers = Closers::new(alloc);
    let mut arrow = false;
    let mut left = tokens.len();
    while left > 0 {
        left -= 1;
        let token = tokens[left];
        let role = role_of(token.kind);
        let head = closers.pass(role, arrow)?;
        tokens[left] = Token {
            kind: token.kind,
            from: token.from,
            to: token.to,
            newline_before: token.newline_before,
            head,
        };
        arrow = is_arrow(token);
    }
    Ok(())
}

// Whether a token is a `=>` on the line of the token before it.
fn is_arrow(token: Token) -> bool
    ensures { result ≡ is_arrow (role_of token.kind) && not token.newline_before }
{
    match role_of(token.kind) {
        Role::Arrow => !token.newline_before,
        Role::Opens | Role::Closes | Role::Other => false,
    }
}

fn role_of(kind: TokenKind) -> Role
    ensures { result ≡ role_of kind }
{
    match kind {
        TokenKind::Punctuator(mark) => role_of_mark(mark),
        TokenKind::Template(_)
        | TokenKind::Identifier
        | TokenKind::Reserved(_)
        | TokenKind::Number(_)
        | TokenKind::Text
        | TokenKind::End => Role::Other,
    }
}

fn role_of_mark(mark: Mark) -> Role
    ensures { result ≡ role_of_mark mark }
{
    match mark {
        Mark::OpenParen => Role::Opens,
        Mark::CloseParen => Role::Closes,
        Mark::Arrow => Role::Arrow,
        _ => Role::Other,
    }
}
