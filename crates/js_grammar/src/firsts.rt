//! What begins with which tokens.

ghost use Rattle.std.specs.Prelude.{◌≡◌};
ghost use Rattle.js_grammar.specs.declared.symbols.Symbol.TheVariants as symbols;
ghost use Rattle.js_grammar.specs.declared.symbols.Mode.TheVariants as modes;
ghost use Rattle.js_grammar.specs.Choice.{begins_with};

use crate::class::Class;
use crate::terminals::is_name;

pub fn begins_primary(class: Class) -> bool
    ensures { result ≡ begins_with class symbols.Primary }
{
    matches!(
        class,
        Class::This
            | Class::Null
            | Class::True
            | Class::False
            | Class::Number
            | Class::Text
            | Class::Identifier
            | Class::Of
            | Class::Get
            | Class::Set
            | Class::HeadParen
            | Class::OpenParen
            | Class::OpenBracket
            | Class::OpenBrace
            | Class::TemplateWhole
            | Class::TemplateHead
            | Class::Function
    )
}

pub fn begins_operand(class: Class) -> bool
    ensures { result ≡ begins_with class symbols.Lhs }
{
    matches!(class, Class::New) || begins_primary(class)
}

pub fn begins_expression(class: Class) -> bool
    ensures { result ≡ begins_with class (symbols.Expr modes.WithIn) }
{
    matches!(
        class,
        Class::Sign | Class::Complement | Class::UnaryWord | Class::Increment | Class::Decrement
    ) || begins_operand(class)
}

pub fn begins_argument(class: Class) -> bool
    ensures { result ≡ begins_with class symbols.Arg }
{
    matches!(class, Class::Ellipsis) || begins_expression(class)
}

pub fn begins_statement(class: Class) -> bool
    ensures { result ≡ begins_with class symbols.Stat }
{
    match class {
        Class::Semicolon
        | Class::Var
        | Class::Debugger
        | Class::If
        | Class::For
        | Class::While
        | Class::Do
        | Class::Continue
        | Class::Break
        | Class::Return
        | Class::Throw
        | Class::Switch
        | Class::Try => true,
        Class::Function => false,
        _ => begins_expression(class),
    }
}

pub fn begins_item(class: Class) -> bool
    ensures { result ≡ begins_with class symbols.Item }
{
    matches!(class, Class::Function | Class::Let | Class::Const) || begins_statement(class)
}

pub fn begins_property(class: Class) -> bool
    ensures { result ≡ begins_with class symbols.Prop }
{
    matches!(class, Class::Text | Class::Number | Class::OpenBracket) || is_name(class)
}
