ghost use Rattle.std.specs.Prelude.{◌≡◌};
ghost use Rattle.std.specs.List.{list_any};
ghost use Rattle.bast_schema.specs.Kinds.{same_kind};
ghost use Rattle.bast_schema.specs.Unions.{allowed, bodies, expressions};

use crate::kind::{Kind, Union};
use crate::names::number_of;

/// Whether a kind is in a union.
pub fn allows(union: Union, kind: Kind) -> bool
    ensures { result ≡ allowed union kind }
{
    match union {
        Union::Body => is_body(kind),
        Union::Statement => {
            is_body(kind)
                || matches!(
                    kind,
                    Kind::LexicalDeclaration
                        | Kind::EagerFunctionDeclaration
                        | Kind::LazyFunctionDeclaration
                )
        }
        Union::Expression => is_expression(kind),
        Union::Parameter => matches!(kind, Kind::BindingIdentifier | Kind::BindingWithInitializer),
        Union::ParameterName => matches!(
            kind,
            Kind::AssertedPositionalParameterName | Kind::AssertedRestParameterName
        ),
        Union::PropertyName => matches!(
            kind,
            Kind::LiteralPropertyName | Kind::ComputedPropertyName
        ),
        Union::ObjectProperty => matches!(
            kind,
            Kind::DataProperty
                | Kind::ShorthandProperty
                | Kind::EagerMethod
                | Kind::LazyMethod
                | Kind::EagerGetter
                | Kind::LazyGetter
                | Kind::EagerSetter
                | Kind::LazySetter
        ),
        Union::Argument => is_expression(kind) || matches!(kind, Kind::SpreadElement),
        Union::ForInit => {
            matches!(kind, Kind::VarDeclaration | Kind::LexicalDeclaration) || is_expression(kind)
        }
        Union::ForTarget => matches!(kind, Kind::ForInOfBinding) || is_expression(kind),
        Union::One(one) => number_of(one) == number_of(kind),
    }
}

/// Whether a kind is a statement that may stand under another.
fn is_body(kind: Kind) -> bool
    ensures { result ≡ list_any (λ j. same_kind j kind) bodies }
{
    matches!(
        kind,
        Kind::Block
            | Kind::VarDeclaration
            | Kind::ExpressionStatement
            | Kind::EmptyStatement
            | Kind::DebuggerStatement
            | Kind::IfStatement
            | Kind::ForStatement
            | Kind::ForInStatement
            | Kind::ForOfStatement
            | Kind::WhileStatement
            | Kind::DoWhileStatement
            | Kind::ReturnStatement
            | Kind::BreakStatement
            | Kind::ContinueStatement
            | Kind::ThrowStatement
            | Kind::TryCatchStatement
            | Kind::TryFinallyStatement
            | Kind::SwitchStatement
            | Kind::SwitchStatementWithDefault
            | Kind::LabelledStatement
    )
}

/// Whether a kind is an expression.
fn is_expression(kind: Kind) -> bool
    ensures { result ≡ list_any (λ j. same_kind j kind) expressions }
{
    matches!(
        kind,
        Kind::ThisExpression
            | Kind::LiteralNullExpression
            | Kind::LiteralBooleanExpression
            | Kind::LiteralNumericExpression
            | Kind::LiteralStringExpression
            | Kind::IdentifierExpression
            | Kind::TemplateExpression
            | Kind::ArrayExpression
            | Kind::ObjectExpression
            | Kind::EagerFunctionExpression
            | Kind::LazyFunctionExpression
            | Kind::EagerArrowExpressionWithFunctionBody
            | Kind::EagerArrowExpressionWithExpression
            | Kind::StaticMemberExpression
            | Kind::ComputedMemberExpression
            | Kind::CallExpression
            | Kind::NewExpression
            | Kind::UnaryExpression
            | Kind::UpdateExpression
            | Kind::BinaryExpression
            | Kind::AssignmentExpression
            | Kind::CompoundAssignmentExpression
            | Kind::ConditionalExpression
            | Kind::SequenceExpression
    )
}
