//! Why the machine stops.

use bast_base::Memory;

/// What is left out of the language that is read, although scripts of ECMA-262, 6th edition, have it.
#[derive(Clone, Copy, Debug, PartialEq, Eq)]
pub enum Left {
    /// Classes (14.5).
    Class,
    /// `super` (12.3.5).
    Super,
    /// `with` (13.11).
    With,
    /// Imports and exports (15.2).
    Module,
    /// Generators (14.4).
    Generator,
    /// Templates with a tag (12.3.7).
    TaggedTemplate,
    /// Patterns in place of a name that is bound (13.3.3).
    BindingPattern,
    /// A function that is a part of a statement, and in no block (B.3.2, B.3.4).
    BareFunction,
    /// `new.target` (12.3.8).
    NewTarget,
    /// Regular expressions (11.8.5).
    Regex,
}

/// Where the machine stops, and why. A place is a byte of the text, counted from 0: the first one of the token at which it
/// stops, or the text's length at its end.
#[derive(Clone, Copy, Debug, PartialEq, Eq)]
pub enum Stop {
    /// No script of the language goes on with this token.
    Syntax { at: u32 },
    /// What stands here is left out of the language.
    NotHere { at: u32, what: Left },
    /// Statements, expressions and functions stand in each other more than 1,024 deep.
    TooDeep { at: u32 },
}

/// Why a script has no derivation.
#[derive(Clone, Copy, Debug, PartialEq, Eq)]
pub enum Refusal {
    /// Memory has run out.
    Memory,
    /// The machine stops.
    Stopped(Stop),
}

impl From<Memory> for Refusal {
    ghost use Rattle.std.specs.Prelude.{◌≡◌};
    ghost use Rattle.js_machine.specs.declared.stops.Refusal.TheVariants.{Memory as NoMemory};

    ghost from_gives = { λ _ refusal. refusal ≡ NoMemory };

    fn from(_: Memory) -> Self {
        Refusal::Memory
    }
}
