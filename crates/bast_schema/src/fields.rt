ghost use Rattle.std.specs.Prelude.{◌≡◌, ◌<◌, length, map, slice_get, Some};
ghost use Rattle.bast_schema.specs.Fields.{fields, field_names, has_lazy};

use crate::kind::{EnumId, FieldType, Kind, Union};

// The two tables below are a profile of this repository's own, after the attributes of the node interfaces of the Binary
// AST proposal. Numbers are whole and below 2^53, a template is its head and its parts, and the contents of a function
// are lazy in the `Lazy` kinds.

/// The types of the fields of a kind, in order.
pub fn fields_of(kind: Kind) -> &'static [FieldType]
    ensures is { result.now ≡ fields kind }
    ensures few { length result.now < 6 }
{
    match kind {
        Kind::Null => &[],
        Kind::Script => &[
            FieldType::List {
                item: Union::One(Kind::Directive),
                optional: false,
                nonempty: false,
            },
            FieldType::Node(Union::One(Kind::AssertedScriptGlobalScope)),
            FieldType::List {
                item: Union::Statement,
                optional: false,
                nonempty: false,
            },
        ],
        Kind::AssertedScriptGlobalScope => &[
            FieldType::List {
                item: Union::One(Kind::AssertedDeclaredName),
                optional: false,
                nonempty: false,
            },
            FieldType::Bool,
        ],
        Kind::AssertedVarScope => &[
            FieldType::List {
                item: Union::One(Kind::AssertedDeclaredName),
                optional: false,
                nonempty: false,
            },
            FieldType::Bool,
        ],
        Kind::AssertedBlockScope => &[
            FieldType::List {
                item: Union::One(Kind::AssertedDeclaredName),
                optional: false,
                nonempty: false,
            },
            FieldType::Bool,
        ],
        Kind::AssertedParameterScope => &[
            FieldType::List {
                item: Union::ParameterName,
                optional: false,
                nonempty: false,
            },
            FieldType::Bool,
            FieldType::Bool,
        ],
        Kind::AssertedBoundNamesScope => &[
            FieldType::List {
                item: Union::One(Kind::AssertedBoundName),
                optional: false,
                nonempty: false,
            },
            FieldType::Bool,
        ],
        Kind::AssertedDeclaredName => &[
            FieldType::Name,
            FieldType::Choice(EnumId::DeclaredKind),
            FieldType::Bool,
        ],
        Kind::AssertedPositionalParameterName => &[
            FieldType::Index,
            FieldType::Name,
            FieldType::Bool,
        ],
        Kind::AssertedRestParameterName => &[FieldType::Name, FieldType::Bool],
        Kind::AssertedBoundName => &[FieldType::Name, FieldType::Bool],
        Kind::Directive => &[FieldType::Text],
        Kind::BindingIdentifier => &[FieldType::Name],
        Kind::BindingWithInitializer => &[
            FieldType::Node(Union::One(Kind::BindingIdentifier)),
            FieldType::Node(Union::Expression),
        ],
        Kind::FormalParameters => &[
            FieldType::List {
                item: Union::Parameter,
                optional: false,
                nonempty: false,
            },
            FieldType::Optional(Union::One(Kind::BindingIdentifier)),
        ],
        Kind::FunctionContents => &[
            FieldType::Node(Union::One(Kind::AssertedParameterScope)),
            FieldType::Node(Union::One(Kind::FormalParameters)),
            FieldType::Node(Union::One(Kind::AssertedVarScope)),
            FieldType::List {
                item: Union::Statement,
                optional: false,
                nonempty: false,
            },
        ],
        Kind::GetterContents => &[
            FieldType::Node(Union::One(Kind::AssertedVarScope)),
            FieldType::List {
                item: Union::Statement,
                optional: false,
                nonempty: false,
            },
        ],
        Kind::SetterContents => &[
            FieldType::Node(Union::One(Kind::AssertedParameterScope)),
            FieldType::Node(Union::Parameter),
            FieldType::Node(Union::One(Kind::AssertedVarScope)),
            FieldType::List {
                item: Union::Statement,
                optional: false,
                nonempty: false,
            },
        ],
        Kind::EagerFunctionDeclaration => &[
            FieldType::Node(Union::One(Kind::BindingIdentifier)),
            FieldType::List {
                item: Union::One(Kind::Directive),
                optional: false,
                nonempty: false,
            },
            FieldType::Node(Union::One(Kind::FunctionContents)),
        ],
        Kind::LazyFunctionDeclaration => &[
            FieldType::Node(Union::One(Kind::BindingIdentifier)),
            FieldType::List {
                item: Union::One(Kind::Directive),
                optional: false,
                nonempty: false,
            },
            FieldType::Lazy(Union::One(Kind::FunctionContents)),
        ],
        Kind::EagerMethod => &[
            FieldType::Node(Union::PropertyName),
            FieldType::List {
                item: Union::One(Kind::Directive),
                optional: false,
                nonempty: false,
            },
            FieldType::Node(Union::One(Kind::FunctionContents)),
        ],
        Kind::LazyMethod => &[
            FieldType::Node(Union::PropertyName),
            FieldType::List {
                item: Union::One(Kind::Directive),
                optional: false,
                nonempty: false,
            },
            FieldType::Lazy(Union::One(Kind::FunctionContents)),
        ],
        Kind::EagerGetter => &[
            FieldType::Node(Union::PropertyName),
            FieldType::List {
                item: Union::One(Kind::Directive),
                optional: false,
                nonempty: false,
            },
            FieldType::Node(Union::One(Kind::GetterContents)),
        ],
        Kind::LazyGetter => &[
            FieldType::Node(Union::PropertyName),
            FieldType::List {
                item: Union::One(Kind::Directive),
                optional: false,
                nonempty: false,
            },
            FieldType::Lazy(Union::One(Kind::GetterContents)),
        ],
        Kind::EagerSetter => &[
            FieldType::Node(Union::PropertyName),
            FieldType::List {
                item: Union::One(Kind::Directive),
                optional: false,
                nonempty: false,
            },
            FieldType::Node(Union::One(Kind::SetterContents)),
        ],
        Kind::LazySetter => &[
            FieldType::Node(Union::PropertyName),
            FieldType::List {
                item: Union::One(Kind::Directive),
                optional: false,
                nonempty: false,
            },
            FieldType::Lazy(Union::One(Kind::SetterContents)),
        ],
        Kind::LiteralPropertyName => &[FieldType::Text],
        Kind::ComputedPropertyName => &[FieldType::Node(Union::Expression)],
        Kind::DataProperty => &[
            FieldType::Node(Union::PropertyName),
            FieldType::Node(Union::Expression),
        ],
        Kind::ShorthandProperty => &[FieldType::Node(Union::One(Kind::IdentifierExpression))],
        Kind::SpreadElement => &[FieldType::Node(Union::Expression)],
        Kind::TemplatePart => &[FieldType::Node(Union::Expression), FieldType::Text],
        Kind::VariableDeclarator => &[
            FieldType::Node(Union::One(Kind::BindingIdentifier)),
            FieldType::Optional(Union::Expression),
        ],
        Kind::ForInOfBinding => &[
            FieldType::Choice(EnumId::ForKind),
            FieldType::Node(Union::One(Kind::BindingIdentifier)),
        ],
        Kind::CatchClause => &[
            FieldType::Node(Union::One(Kind::AssertedBoundNamesScope)),
            FieldType::Node(Union::One(Kind::BindingIdentifier)),
            FieldType::Node(Union::One(Kind::Block)),
        ],
        Kind::SwitchCase => &[
            FieldType::Node(Union::Expression),
            FieldType::List {
                item: Union::Statement,
                optional: false,
                nonempty: false,
            },
        ],
        Kind::SwitchDefault => &[FieldType::List {
            item: Union::Statement,
            optional: false,
            nonempty: false,
        }],
        Kind::Block => &[
            FieldType::Node(Union::One(Kind::AssertedBlockScope)),
            FieldType::List {
                item: Union::Statement,
                optional: false,
                nonempty: false,
            },
        ],
        Kind::VarDeclaration => &[FieldType::List {
            item: Union::One(Kind::VariableDeclarator),
            optional: false,
            nonempty: true,
        }],
        Kind::LexicalDeclaration => &[
            FieldType::Choice(EnumId::LexicalKind),
            FieldType::List {
                item: Union::One(Kind::VariableDeclarator),
                optional: false,
                nonempty: true,
            },
        ],
        Kind::ExpressionStatement => &[FieldType::Node(Union::Expression)],
        Kind::EmptyStatement => &[],
        Kind::DebuggerStatement => &[],
        Kind::IfStatement => &[
            FieldType::Node(Union::Expression),
            FieldType::Node(Union::Body),
            FieldType::Optional(Union::Body),
        ],
        Kind::ForStatement => &[
            FieldType::Node(Union::One(Kind::AssertedBlockScope)),
            FieldType::Optional(Union::ForInit),
            FieldType::Optional(Union::Expression),
            FieldType::Optional(Union::Expression),
            FieldType::Node(Union::Body),
        ],
        Kind::ForInStatement => &[
            FieldType::Node(Union::One(Kind::AssertedBlockScope)),
            FieldType::Node(Union::ForTarget),
            FieldType::Node(Union::Expression),
            FieldType::Node(Union::Body),
        ],
        Kind::ForOfStatement => &[
            FieldType::Node(Union::One(Kind::AssertedBlockScope)),
            FieldType::Node(Union::ForTarget),
            FieldType::Node(Union::Expression),
            FieldType::Node(Union::Body),
        ],
        Kind::WhileStatement => &[
            FieldType::Node(Union::Expression),
            FieldType::Node(Union::Body),
        ],
        Kind::DoWhileStatement => &[
            FieldType::Node(Union::Body),
            FieldType::Node(Union::Expression),
        ],
        Kind::ReturnStatement => &[FieldType::Optional(Union::Expression)],
        Kind::BreakStatement => &[FieldType::Label],
        Kind::ContinueStatement => &[FieldType::Label],
        Kind::ThrowStatement => &[FieldType::Node(Union::Expression)],
        Kind::TryCatchStatement => &[
            FieldType::Node(Union::One(Kind::Block)),
            FieldType::Node(Union::One(Kind::CatchClause)),
        ],
        Kind::TryFinallyStatement => &[
            FieldType::Node(Union::One(Kind::Block)),
            FieldType::Optional(Union::One(Kind::CatchClause)),
            FieldType::Node(Union::One(Kind::Block)),
        ],
        Kind::SwitchStatement => &[
            FieldType::Node(Union::Expression),
            FieldType::Node(Union::One(Kind::AssertedBlockScope)),
            FieldType::List {
                item: Union::One(Kind::SwitchCase),
                optional: false,
                nonempty: false,
            },
        ],
        Kind::SwitchStatementWithDefault => &[
            FieldType::Node(Union::Expression),
            FieldType::Node(Union::One(Kind::AssertedBlockScope)),
            FieldType::List {
                item: Union::One(Kind::SwitchCase),
                optional: false,
                nonempty: false,
            },
            FieldType::Node(Union::One(Kind::SwitchDefault)),
            FieldType::List {
                item: Union::One(Kind::SwitchCase),
                optional: false,
                nonempty: false,
            },
        ],
        Kind::LabelledStatement => &[FieldType::Name, FieldType::Node(Union::Body)],
        Kind::ThisExpression => &[],
        Kind::LiteralNullExpression => &[],
        Kind::LiteralBooleanExpression => &[FieldType::Bool],
        Kind::LiteralNumericExpression => &[FieldType::Whole],
        Kind::LiteralStringExpression => &[FieldType::Text],
        Kind::IdentifierExpression => &[FieldType::Name],
        Kind::TemplateExpression => &[
            FieldType::Text,
            FieldType::List {
                item: Union::One(Kind::TemplatePart),
                optional: false,
                nonempty: false,
            },
        ],
        Kind::ArrayExpression => &[FieldType::List {
            item: Union::Argument,
            optional: true,
            nonempty: false,
        }],
        Kind::ObjectExpression => &[FieldType::List {
            item: Union::ObjectProperty,
            optional: false,
            nonempty: false,
        }],
        Kind::EagerFunctionExpression => &[
            FieldType::Optional(Union::One(Kind::BindingIdentifier)),
            FieldType::Node(Union::One(Kind::AssertedBoundNamesScope)),
            FieldType::List {
                item: Union::One(Kind::Directive),
                optional: false,
                nonempty: false,
            },
            FieldType::Node(Union::One(Kind::FunctionContents)),
        ],
        Kind::LazyFunctionExpression => &[
            FieldType::Optional(Union::One(Kind::BindingIdentifier)),
            FieldType::Node(Union::One(Kind::AssertedBoundNamesScope)),
            FieldType::List {
                item: Union::One(Kind::Directive),
                optional: false,
                nonempty: false,
            },
            FieldType::Lazy(Union::One(Kind::FunctionContents)),
        ],
        Kind::EagerArrowExpressionWithFunctionBody => &[
            FieldType::List {
                item: Union::One(Kind::Directive),
                optional: false,
                nonempty: false,
            },
            FieldType::Node(Union::One(Kind::FunctionContents)),
        ],
        Kind::EagerArrowExpressionWithExpression => &[
            FieldType::Node(Union::One(Kind::AssertedParameterScope)),
            FieldType::Node(Union::One(Kind::FormalParameters)),
            FieldType::Node(Union::Expression),
        ],
        Kind::StaticMemberExpression => &[FieldType::Node(Union::Expression), FieldType::Name],
        Kind::ComputedMemberExpression => &[
            FieldType::Node(Union::Expression),
            FieldType::Node(Union::Expression),
        ],
        Kind::CallExpression => &[
            FieldType::Node(Union::Expression),
            FieldType::List {
                item: Union::Argument,
                optional: false,
                nonempty: false,
            },
        ],
        Kind::NewExpression => &[
            FieldType::Node(Union::Expression),
            FieldType::List {
                item: Union::Argument,
                optional: false,
                nonempty: false,
            },
        ],
        Kind::UnaryExpression => &[
            FieldType::Choice(EnumId::UnaryOperator),
            FieldType::Node(Union::Expression),
        ],
        Kind::UpdateExpression => &[
            FieldType::Bool,
            FieldType::Choice(EnumId::UpdateOperator),
            FieldType::Node(Union::Expression),
        ],
        Kind::BinaryExpression => &[
            FieldType::Choice(EnumId::BinaryOperator),
            FieldType::Node(Union::Expression),
            FieldType::Node(Union::Expression),
        ],
        Kind::AssignmentExpression => &[
            FieldType::Node(Union::Expression),
            FieldType::Node(Union::Expression),
        ],
        Kind::CompoundAssignmentExpression => &[
            FieldType::Choice(EnumId::CompoundOperator),
            FieldType::Node(Union::Expression),
            FieldType::Node(Union::Expression),
        ],
        Kind::ConditionalExpression => &[
            FieldType::Node(Union::Expression),
            FieldType::Node(Union::Expression),
            FieldType::Node(Union::Expression),
        ],
        Kind::SequenceExpression => &[
            FieldType::Node(Union::Expression),
            FieldType::List {
                item: Union::Expression,
                optional: false,
                nonempty: true,
            },
        ],
    }
}

/// The names of a kind's fields.
pub(crate) fn field_names_of(kind: Kind) -> &'static [&'static str]
    ensures { map (λ t. t.now) result.now ≡ field_names kind }
{
    match kind {
        Kind::Null => &[],
        Kind::Script => &["directives", "scope", "statements"],
        Kind::AssertedScriptGlobalScope => &["declaredNames", "hasDirectEval"],
        Kind::AssertedVarScope => &["declaredNames", "hasDirectEval"],
        Kind::AssertedBlockScope => &["declaredNames", "hasDirectEval"],
        Kind::AssertedParameterScope => &["paramNames", "hasDirectEval", "isSimpleParameterList"],
        Kind::AssertedBoundNamesScope => &["boundNames", "hasDirectEval"],
        Kind::AssertedDeclaredName => &["name", "kind", "isCaptured"],
        Kind::AssertedPositionalParameterName => &["index", "name", "isCaptured"],
        Kind::AssertedRestParameterName => &["name", "isCaptured"],
        Kind::AssertedBoundName => &["name", "isCaptured"],
        Kind::Directive => &["rawValue"],
        Kind::BindingIdentifier => &["name"],
        Kind::BindingWithInitializer => &["binding", "initializer"],
        Kind::FormalParameters => &["items", "rest"],
        Kind::FunctionContents => &["parameterScope", "params", "bodyScope", "body"],
        Kind::GetterContents => &["bodyScope", "body"],
        Kind::SetterContents => &["parameterScope", "param", "bodyScope", "body"],
        Kind::EagerFunctionDeclaration => &["name", "directives", "contents"],
        Kind::LazyFunctionDeclaration => &["name", "directives", "contents"],
        Kind::EagerMethod => &["name", "directives", "contents"],
        Kind::LazyMethod => &["name", "directives", "contents"],
        Kind::EagerGetter => &["name", "directives", "contents"],
        Kind::LazyGetter => &["name", "directives", "contents"],
        Kind::EagerSetter => &["name", "directives", "contents"],
        Kind::LazySetter => &["name", "directives", "contents"],
        Kind::LiteralPropertyName => &["value"],
        Kind::ComputedPropertyName => &["expression"],
        Kind::DataProperty => &["name", "expression"],
        Kind::ShorthandProperty => &["name"],
        Kind::SpreadElement => &["expression"],
        Kind::TemplatePart => &["expression", "tail"],
        Kind::VariableDeclarator => &["binding", "init"],
        Kind::ForInOfBinding => &["kind", "binding"],
        Kind::CatchClause => &["bindingScope", "binding", "body"],
        Kind::SwitchCase => &["test", "consequent"],
        Kind::SwitchDefault => &["consequent"],
        Kind::Block => &["scope", "statements"],
        Kind::VarDeclaration => &["declarators"],
        Kind::LexicalDeclaration => &["kind", "declarators"],
        Kind::ExpressionStatement => &["expression"],
        Kind::EmptyStatement => &[],
        Kind::DebuggerStatement => &[],
        Kind::IfStatement => &["test", "consequent", "alternate"],
        Kind::ForStatement => &["scope", "init", "test", "update", "body"],
        Kind::ForInStatement => &["scope", "left", "right", "body"],
        Kind::ForOfStatement => &["scope", "left", "right", "body"],
        Kind::WhileStatement => &["test", "body"],
        Kind::DoWhileStatement => &["body", "test"],
        Kind::ReturnStatement => &["expression"],
        Kind::BreakStatement => &["label"],
        Kind::ContinueStatement => &["label"],
        Kind::ThrowStatement => &["expression"],
        Kind::TryCatchStatement => &["body", "catchClause"],
        Kind::TryFinallyStatement => &["body", "catchClause", "finalizer"],
        Kind::SwitchStatement => &["discriminant", "scope", "cases"],
        Kind::SwitchStatementWithDefault => &[
            "discriminant",
            "scope",
            "preDefaultCases",
            "defaultCase",
            "postDefaultCases",
        ],
        Kind::LabelledStatement => &["label", "body"],
        Kind::ThisExpression => &[],
        Kind::LiteralNullExpression => &[],
        Kind::LiteralBooleanExpression => &["value"],
        Kind::LiteralNumericExpression => &["value"],
        Kind::LiteralStringExpression => &["value"],
        Kind::IdentifierExpression => &["name"],
        Kind::TemplateExpression => &["head", "parts"],
        Kind::ArrayExpression => &["elements"],
        Kind::ObjectExpression => &["properties"],
        Kind::EagerFunctionExpression => &["name", "selfScope", "directives", "contents"],
        Kind::LazyFunctionExpression => &["name", "selfScope", "directives", "contents"],
        Kind::EagerArrowExpressionWithFunctionBody => &["directives", "contents"],
        Kind::EagerArrowExpressionWithExpression => &["parameterScope", "params", "expression"],
        Kind::StaticMemberExpression => &["object", "property"],
        Kind::ComputedMemberExpression => &["object", "expression"],
        Kind::CallExpression => &["callee", "arguments"],
        Kind::NewExpression => &["callee", "arguments"],
        Kind::UnaryExpression => &["operator", "operand"],
        Kind::UpdateExpression => &["isPrefix", "operator", "operand"],
        Kind::BinaryExpression => &["operator", "left", "right"],
        Kind::AssignmentExpression => &["binding", "expression"],
        Kind::CompoundAssignmentExpression => &["operator", "binding", "expression"],
        Kind::ConditionalExpression => &["test", "consequent", "alternate"],
        Kind::SequenceExpression => &["first", "rest"],
    }
}

/// The name of a field of a kind, by the field's number.
pub fn field_name(kind: Kind, field: u32) -> &'static str
    requires { field < length (fields kind) }
    ensures { slice_get (field_names kind) field ≡ Some result.now }
{
    field_names_of(kind)[field as usize]
}

/// Whether a kind has a field whose node may be left as bytes.
pub fn is_lazy(kind: Kind) -> bool
    ensures { result ≡ has_lazy kind }
{
    matches!(
        kind,
        Kind::LazyFunctionDeclaration
            | Kind::LazyMethod
            | Kind::LazyGetter
            | Kind::LazySetter
            | Kind::LazyFunctionExpression
    )
}
