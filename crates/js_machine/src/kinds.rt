//! The three kinds of symbols.

ghost use Rattle.std.specs.Prelude.{◌≡◌};
ghost use Rattle.js_machine.specs.Machine.{kind_of};

use js_grammar::Symbol;

/// What the machine does with a symbol.
#[derive(Clone, Copy)]
pub enum Kind {
    /// The symbol takes a token.
    Terminal(js_grammar::Terminal),
    /// The symbol takes a `;`, or one counts as there.
    Semicolon,
    /// A row is taken in place of the symbol.
    Expands,
}

pub(crate) fn kind_of(symbol: Symbol) -> Kind
    ensures { result ≡ kind_of symbol }
{
    match symbol {
        Symbol::Take(terminal) => Kind::Terminal(terminal),
        Symbol::Semi => Kind::Semicolon,
        _ => Kind::Expands,
    }
}
