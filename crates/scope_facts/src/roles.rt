ghost use Rattle.std.specs.Prelude.{◌≡◌};
ghost use Rattle.bast_schema.specs.View.{datum};
ghost use Rattle.scope_facts.specs.Roles.{form, part, shape_of};
ghost use Rattle.scope_facts.specs.Uses.{is_scope};

use bast_schema::{Kind, Value};

/// What a kind of node is for the uses of names below it.
#[derive(Clone, Copy, Debug, PartialEq, Eq)]
pub enum Part {
    /// A scope, which covers what stands after it in its node.
    Scope,
    /// A reference to an identifier (section 12.1 of ECMA-262).
    Use,
    /// A call (section 12.3.4).
    Call,
    /// The contents of a function, or an arrow with an expression: the inside of a function begins here.
    Function,
    /// Every other kind.
    Other,
}

/// What a kind of node is for the declarations of names.
#[derive(Clone, Copy, Debug, PartialEq, Eq)]
pub enum Form {
    /// The identifier of a binding (section 12.1 of ECMA-262).
    Binding,
    /// A `var` declaration (section 13.3.2).
    VarStatement,
    /// A `let` or `const` declaration (section 13.3.1).
    LexicalStatement,
    /// The declaration of a function (section 14.1).
    FunctionStatement,
    /// The binding in the head of a `for`-`in` or `for`-`of` statement (section 13.7.5).
    Head,
    /// A clause of a switch (section 13.12).
    Case,
    /// The parameters of a function (section 14.1).
    Parameters,
    /// The inside of a function, whose declarations are its own.
    Inside,
    /// Every other kind.
    Plain,
}

/// What a scope declares.
#[derive(Clone, Copy, Debug, PartialEq, Eq)]
pub enum Shape {
    /// The names of the statements of a script or of a body.
    Statements,
    /// The lexical names of a block, of a switch or of the head of a `for` statement.
    Lexical,
    /// The parameters of a function.
    Parameters,
    /// The name of a function expression or of a catch clause.
    BoundName,
    /// Nothing: it is no scope.
    Nothing,
}

/// What a kind is for the uses of names below it.
pub fn part_of(kind: Kind) -> Part
    ensures { result ≡ part kind }
{
    match kind {
        Kind::AssertedScriptGlobalScope
        | Kind::AssertedVarScope
        | Kind::AssertedBlockScope
        | Kind::AssertedParameterScope
        | Kind::AssertedBoundNamesScope => Part::Scope,
        Kind::IdentifierExpression => Part::Use,
        Kind::CallExpression => Part::Call,
        Kind::FunctionContents
        | Kind::GetterContents
        | Kind::SetterContents
        | Kind::EagerArrowExpressionWithExpression => Part::Function,
        _ => Part::Other,
    }
}

/// What a kind is for the declarations of names.
pub fn form_of(kind: Kind) -> Form
    ensures { result ≡ form kind }
{
    match kind {
        Kind::BindingIdentifier => Form::Binding,
        Kind::VarDeclaration => Form::VarStatement,
        Kind::LexicalDeclaration => Form::LexicalStatement,
        Kind::EagerFunctionDeclaration | Kind::LazyFunctionDeclaration => Form::FunctionStatement,
        Kind::ForInOfBinding => Form::Head,
        Kind::SwitchCase | Kind::SwitchDefault => Form::Case,
        Kind::FormalParameters => Form::Parameters,
        Kind::FunctionContents
        | Kind::GetterContents
        | Kind::SetterContents
        | Kind::EagerArrowExpressionWithExpression => Form::Inside,
        _ => Form::Plain,
    }
}

/// What a scope of the kind declares.
pub fn scope_shape(kind: Kind) -> Shape
    ensures { result ≡ shape_of kind }
{
    match kind {
        Kind::AssertedScriptGlobalScope | Kind::AssertedVarScope => Shape::Statements,
        Kind::AssertedBlockScope => Shape::Lexical,
        Kind::AssertedParameterScope => Shape::Parameters,
        Kind::AssertedBoundNamesScope => Shape::BoundName,
        _ => Shape::Nothing,
    }
}

/// Whether the value is a scope.
pub fn is_scope_value(value: &Value) -> bool
    ensures { result ≡ is_scope (datum value.now) }
{
    match value {
        Value::Node(node) => matches!(part_of(node.kind()), Part::Scope),
        _ => false,
    }
}
