ghost use Rattle.std.specs.Prelude.{◌≡◌, slice_get};
ghost use Rattle.bast_schema.specs.Kinds.{kind_name, number, kinds, kind_of_name, counted};

use crate::kind::Kind;

/// The name of a kind, as files spell it: that of the variant, and `_Null` for `Null`.
pub fn name_of(kind: Kind) -> &'static str
    ensures { result.now ≡ kind_name kind }
{
    match kind {
        Kind::Null => "_Null",
        Kind::Script => "Script",
        Kind::AssertedScriptGlobalScope => "AssertedScriptGlobalScope",
        Kind::AssertedVarScope => "AssertedVarScope",
        Kind::AssertedBlockScope => "AssertedBlockScope",
        Kind::AssertedParameterScope => "AssertedParameterScope",
        Kind::AssertedBoundNamesScope => "AssertedBoundNamesScope",
        Kind::AssertedDeclaredName => "AssertedDeclaredName",
        Kind::AssertedPositionalParameterName => "AssertedPositionalParameterName",
        Kind::AssertedRestParameterName => "AssertedRestParameterName",
        Kind::AssertedBoundName => "AssertedBoundName",
        Kind::Directive => "Directive",
        Kind::BindingIdentifier => "BindingIdentifier",
        Kind::BindingWithInitializer => "BindingWithInitializer",
        Kind::FormalParameters => "FormalParameters",
        Kind::FunctionContents => "FunctionContents",
        Kind::GetterContents => "GetterContents",
        Kind::SetterContents => "SetterContents",
        Kind::EagerFunctionDeclaration => "EagerFunctionDeclaration",
        Kind::LazyFunctionDeclaration => "LazyFunctionDeclaration",
        Kind::EagerMethod => "EagerMethod",
        Kind::LazyMethod => "LazyMethod",
        Kind::EagerGetter => "EagerGetter",
        Kind::LazyGetter => "LazyGetter",
        Kind::EagerSetter => "EagerSetter",
        Kind::LazySetter => "LazySetter",
        Kind::LiteralPropertyName => "LiteralPropertyName",
        Kind::ComputedPropertyName => "ComputedPropertyName",
        Kind::DataProperty => "DataProperty",
        Kind::ShorthandProperty => "ShorthandProperty",
        Kind::SpreadElement => "SpreadElement",
        Kind::TemplatePart => "TemplatePart",
        Kind::VariableDeclarator => "VariableDeclarator",
        Kind::ForInOfBinding => "ForInOfBinding",
        Kind::CatchClause => "CatchClause",
        Kind::SwitchCase => "SwitchCase",
        Kind::SwitchDefault => "SwitchDefault",
        Kind::Block => "Block",
        Kind::VarDeclaration => "VarDeclaration",
        Kind::LexicalDeclaration => "LexicalDeclaration",
        Kind::ExpressionStatement => "ExpressionStatement",
        Kind::EmptyStatement => "EmptyStatement",
        Kind::DebuggerStatement => "DebuggerStatement",
        Kind::IfStatement => "IfStatement",
        Kind::ForStatement => "ForStatement",
        Kind::ForInStatement => "ForInStatement",
        Kind::ForOfStatement => "ForOfStatement",
        Kind::WhileStatement => "WhileStatement",
        Kind::DoWhileStatement => "DoWhileStatement",
        Kind::ReturnStatement => "ReturnStatement",
        Kind::BreakStatement => "BreakStatement",
        Kind::ContinueStatement => "ContinueStatement",
        Kind::ThrowStatement => "ThrowStatement",
        Kind::TryCatchStatement => "TryCatchStatement",
        Kind::TryFinallyStatement => "TryFinallyStatement",
        Kind::SwitchStatement => "SwitchStatement",
        Kind::SwitchStatementWithDefault => "SwitchStatementWithDefault",
        Kind::LabelledStatement => "LabelledStatement",
        Kind::ThisExpression => "ThisExpression",
        Kind::LiteralNullExpression => "LiteralNullExpression",
        Kind::LiteralBooleanExpression => "LiteralBooleanExpression",
        Kind::LiteralNumericExpression => "LiteralNumericExpression",
        Kind::LiteralStringExpression => "LiteralStringExpression",
        Kind::IdentifierExpression => "IdentifierExpression",
        Kind::TemplateExpression => "TemplateExpression",
        Kind::ArrayExpression => "ArrayExpression",
        Kind::ObjectExpression => "ObjectExpression",
        Kind::EagerFunctionExpression => "EagerFunctionExpression",
        Kind::LazyFunctionExpression => "LazyFunctionExpression",
        Kind::EagerArrowExpressionWithFunctionBody => "EagerArrowExpressionWithFunctionBody",
        Kind::EagerArrowExpressionWithExpression => "EagerArrowExpressionWithExpression",
        Kind::StaticMemberExpression => "StaticMemberExpression",
        Kind::ComputedMemberExpression => "ComputedMemberExpression",
        Kind::CallExpression => "CallExpression",
        Kind::NewExpression => "NewExpression",
        Kind::UnaryExpression => "UnaryExpression",
        Kind::UpdateExpression => "UpdateExpression",
        Kind::BinaryExpression => "BinaryExpression",
        Kind::AssignmentExpression => "AssignmentExpression",
        Kind::CompoundAssignmentExpression => "CompoundAssignmentExpression",
        Kind::ConditionalExpression => "ConditionalExpression",
        Kind::SequenceExpression => "SequenceExpression",
    }
}

/// Every kind, in the order of the enum.
static KINDS: [Kind; 82] = [
    Kind::Null,
    Kind::Script,
    Kind::AssertedScriptGlobalScope,
    Kind::AssertedVarScope,
    Kind::AssertedBlockScope,
    Kind::AssertedParameterScope,
    Kind::AssertedBoundNamesScope,
    Kind::AssertedDeclaredName,
    Kind::AssertedPositionalParameterName,
    Kind::AssertedRestParameterName,
    Kind::AssertedBoundName,
    Kind::Directive,
    Kind::BindingIdentifier,
    Kind::BindingWithInitializer,
    Kind::FormalParameters,
    Kind::FunctionContents,
    Kind::GetterContents,
    Kind::SetterContents,
    Kind::EagerFunctionDeclaration,
    Kind::LazyFunctionDeclaration,
    Kind::EagerMethod,
    Kind::LazyMethod,
    Kind::EagerGetter,
    Kind::LazyGetter,
    Kind::EagerSetter,
    Kind::LazySetter,
    Kind::LiteralPropertyName,
    Kind::ComputedPropertyName,
    Kind::DataProperty,
    Kind::ShorthandProperty,
    Kind::SpreadElement,
    Kind::TemplatePart,
    Kind::VariableDeclarator,
    Kind::ForInOfBinding,
    Kind::CatchClause,
    Kind::SwitchCase,
    Kind::SwitchDefault,
    Kind::Block,
    Kind::VarDeclaration,
    Kind::LexicalDeclaration,
    Kind::ExpressionStatement,
    Kind::EmptyStatement,
    Kind::DebuggerStatement,
    Kind::IfStatement,
    Kind::ForStatement,
    Kind::ForInStatement,
    Kind::ForOfStatement,
    Kind::WhileStatement,
    Kind::DoWhileStatement,
    Kind::ReturnStatement,
    Kind::BreakStatement,
    Kind::ContinueStatement,
    Kind::ThrowStatement,
    Kind::TryCatchStatement,
    Kind::TryFinallyStatement,
    Kind::SwitchStatement,
    Kind::SwitchStatementWithDefault,
    Kind::LabelledStatement,
    Kind::ThisExpression,
    Kind::LiteralNullExpression,
    Kind::LiteralBooleanExpression,
    Kind::LiteralNumericExpression,
    Kind::LiteralStringExpression,
    Kind::IdentifierExpression,
    Kind::TemplateExpression,
    Kind::ArrayExpression,
    Kind::ObjectExpression,
    Kind::EagerFunctionExpression,
    Kind::LazyFunctionExpression,
    Kind::EagerArrowExpressionWithFunctionBody,
    Kind::EagerArrowExpressionWithExpression,
    Kind::StaticMemberExpression,
    Kind::ComputedMemberExpression,
    Kind::CallExpression,
    Kind::NewExpression,
    Kind::UnaryExpression,
    Kind::UpdateExpression,
    Kind::BinaryExpression,
    Kind::AssignmentExpression,
    Kind::CompoundAssignmentExpression,
    Kind::ConditionalExpression,
    Kind::SequenceExpression,
];

/// The place of a kind in the order of the enum.
pub fn number_of(kind: Kind) -> u8
    ensures { result ≡ number kind }
{
    kind as u8
}

/// The kind that has a name, where one does.
pub fn kind_named(name: &str) -> Option<Kind>
    ensures { result ≡ kind_of_name name.now }
{
    KINDS.iter().copied().find(|kind| name_of(*kind) == name)
}

/// The kind at a place in the order of the enum, where there is one.
pub fn kind_numbered(number: u32) -> Option<Kind>
    ensures { result ≡ slice_get kinds number }
{
    kind_at(&KINDS, number as usize)
}

/// The kind at a place of a list.
pub(crate) fn kind_at(list: &[Kind], place: usize) -> Option<Kind>
    ensures { result ≡ slice_get list.now place }
{
    list.get(place).copied()
}

/// Whether a node of a kind counts for the depth of a tree. Scopes, what they declare and absent nodes do not.
pub fn is_counted(kind: Kind) -> bool
    ensures { result ≡ counted kind }
{
    !matches!(
        kind,
        Kind::Null
            | Kind::AssertedScriptGlobalScope
            | Kind::AssertedVarScope
            | Kind::AssertedBlockScope
            | Kind::AssertedParameterScope
            | Kind::AssertedBoundNamesScope
            | Kind::AssertedDeclaredName
            | Kind::AssertedPositionalParameterName
            | Kind::AssertedRestParameterName
            | Kind::AssertedBoundName
    )
}
