ghost use Rattle.std.specs.Prelude.{◌≡◌};
ghost use Rattle.js_grammar.specs.Classes.{same_class, takes_class, operators, identifiers, reserved_words, is_among};
ghost use Rattle.js_grammar.specs.declared.symbols.Terminal.TheVariants as terminals;

use crate::class::Class;
use crate::symbols::{Level, Mode, Terminal};

/// Whether a terminal takes a token of the class.
pub fn takes(terminal: Terminal, class: Class) -> bool
    ensures { result ≡ takes_class terminal class }
{
    match terminal {
        Terminal::One(one) => is_class(class, one),
        Terminal::OpenParen => matches!(class, Class::OpenParen | Class::HeadParen),
        Terminal::Ident | Terminal::Bind => is_identifier(class),
        Terminal::Name => is_name(class),
        Terminal::UnaryOperator => {
            matches!(class, Class::Sign | Class::Complement | Class::UnaryWord)
        }
        Terminal::Operator(level, mode) => is_operator(level, mode, class),
    }
}

fn is_class(one: Class, other: Class) -> bool
    ensures { result ≡ same_class one other }
{
    one as u8 == other as u8
}

/// Identifiers, whatever they are called.
pub(crate) fn is_identifier(class: Class) -> bool
    ensures { result ≡ is_among class identifiers }
{
    matches!(
        class,
        Class::Identifier | Class::Of | Class::Get | Class::Set
    )
}

/// Identifiers and reserved words (IdentifierName, 11.6).
pub(crate) fn is_name(class: Class) -> bool
    ensures { result ≡ takes_class terminals.Name class }
{
    is_identifier(class) || is_reserved_word(class)
}

fn is_reserved_word(class: Class) -> bool
    ensures { result ≡ is_among class reserved_words }
{
    matches!(
        class,
        Class::Instanceof
            | Class::In
            | Class::UnaryWord
            | Class::This
            | Class::Null
            | Class::True
            | Class::False
            | Class::New
            | Class::Function
            | Class::Let
            | Class::Const
            | Class::Var
            | Class::Debugger
            | Class::If
            | Class::Else
            | Class::For
            | Class::While
            | Class::Do
            | Class::Continue
            | Class::Break
            | Class::Return
            | Class::Throw
            | Class::Switch
            | Class::Case
            | Class::Default
            | Class::Try
            | Class::Catch
            | Class::Finally
            | Class::OtherWord
    )
}

fn is_operator(level: Level, mode: Mode, class: Class) -> bool
    ensures { result ≡ is_among class (operators level mode) }
{
    match level {
        Level::LogicalOr => matches!(class, Class::LogicalOr),
        Level::LogicalAnd => matches!(class, Class::LogicalAnd),
        Level::BitwiseOr => matches!(class, Class::BitwiseOr),
        Level::BitwiseXor => matches!(class, Class::BitwiseXor),
        Level::BitwiseAnd => matches!(class, Class::BitwiseAnd),
        Level::Equality => matches!(class, Class::Equality),
        Level::Relational => match mode {
            Mode::WithIn => matches!(class, Class::Relational | Class::Instanceof | Class::In),
            Mode::NoIn => matches!(class, Class::Relational | Class::Instanceof),
        },
        Level::Shift => matches!(class, Class::Shift),
        Level::Additive => matches!(class, Class::Sign),
        Level::Multiplicative => matches!(class, Class::Multiplicative),
    }
}
