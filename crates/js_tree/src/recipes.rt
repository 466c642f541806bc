//! The recipe of each row.

ghost use Rattle.std.specs.Prelude.{◌≡◌};
ghost use Rattle.js_tree.specs.Recipes.{recipe};

use crate::recipe::Step::{
    Absent, Body, Choice, Close, Flag, Hold, Named, NoItems, NoLabel, Operand, Operator, Parameter,
    ParameterScope, Put, Quoted, Rest, Resume, Scope, Skip, Statements, Tail, TemplatePart, Text,
    Whole, Wrap,
};
use crate::recipe::{Declared, Finish, Step};
use bast_schema::{EnumId, Kind, LEXICAL_CONST, LEXICAL_LET};
use js_grammar::RowId;

/// The steps that gather the parts of a row's symbols.
pub(crate) fn steps_of(row: RowId) -> &'static [Step]
    ensures { result.now ≡ (recipe row).0 }
{
    match row {
        RowId::Script => &[
            Hold,
            Scope(Kind::AssertedScriptGlobalScope),
            Body,
            Skip,
            Resume,
            Close(Kind::Script),
        ],
        RowId::Items => &[Operand, Rest],
        RowId::ItemsEmpty => &[],
        RowId::ItemFunction
        | RowId::ItemLexical
        | RowId::ItemStat
        | RowId::Body
        | RowId::StatBlock
        | RowId::Again
        | RowId::LongMethod
        | RowId::ShortMethod
        | RowId::GetRestMethod
        | RowId::SetRestMethod => &[],
        RowId::LexicalLet => &[
            Skip,
            Choice(LEXICAL_LET),
            Wrap,
            Skip,
            Close(Kind::LexicalDeclaration),
        ],
        RowId::LexicalConst => &[
            Skip,
            Choice(LEXICAL_CONST),
            Wrap,
            Skip,
            Close(Kind::LexicalDeclaration),
        ],
        RowId::Decls(_) | RowId::Args | RowId::ElemsArg | RowId::Props => &[Put, Put],
        RowId::DeclTail(_) | RowId::Comma(_) | RowId::ArgMore => &[Skip, Put, Put],
        RowId::DeclTailEmpty(_)
        | RowId::DoEndEmpty
        | RowId::CasesEmpty
        | RowId::CasesDEmpty
        | RowId::FinEmpty
        | RowId::CommaEmpty(_)
        | RowId::ArgsEmpty
        | RowId::ArgMoreEmpty
        | RowId::ElemsEmpty
        | RowId::ElemMoreEmpty
        | RowId::PropsEmpty
        | RowId::PropMoreEmpty => &[],
        RowId::Decl(_) => &[
            Named(Kind::BindingIdentifier),
            Put,
            Close(Kind::VariableDeclarator),
        ],
        RowId::Init(_)
        | RowId::ParamTail
        | RowId::Else
        | RowId::LabelBody
        | RowId::Fin
        | RowId::AssignTailEquals(_)
        | RowId::ElemMore
        | RowId::PropMore
        | RowId::LongValue
        | RowId::ShortValue
        | RowId::GetRestValue
        | RowId::SetRestValue => &[Skip, Put],
        RowId::InitEmpty(_)
        | RowId::ParamTailEmpty
        | RowId::ElseEmpty
        | RowId::ExprOptEmpty
        | RowId::FuncNameEmpty => &[Absent],
        RowId::Function => &[
            Skip,
            Named(Kind::BindingIdentifier),
            Hold,
            Skip,
            ParameterScope,
            Put,
            Skip,
            Skip,
            Scope(Kind::AssertedVarScope),
            Body,
            Skip,
            Close(Kind::FunctionContents),
            Resume,
            Close(Kind::EagerFunctionDeclaration),
        ],
        RowId::Params | RowId::ParamNext => &[Parameter, Put],
        RowId::ParamsRest => &[
            Skip,
            NoItems,
            Named(Kind::BindingIdentifier),
            Close(Kind::FormalParameters),
        ],
        RowId::ParamsEmpty => &[NoItems, Absent, Close(Kind::FormalParameters)],
        RowId::ParamNextRest => &[Skip, Named(Kind::BindingIdentifier)],
        RowId::StatVar => &[Skip, Wrap, Skip, Close(Kind::VarDeclaration)],
        RowId::StatEmpty => &[Skip, Close(Kind::EmptyStatement)],
        RowId::StatDebugger => &[Skip, Skip, Close(Kind::DebuggerStatement)],
        RowId::StatIf => &[Skip, Skip, Put, Skip, Put, Put, Close(Kind::IfStatement)],
        RowId::StatFor => &[Skip, Skip, Tail, Skip, Put],
        RowId::StatWhile => &[Skip, Skip, Put, Skip, Put, Close(Kind::WhileStatement)],
        RowId::StatDo => &[
            Skip,
            Put,
            Skip,
            Skip,
            Put,
            Skip,
            Put,
            Close(Kind::DoWhileStatement),
        ],
        RowId::StatContinue => &[Skip, Put, Close(Kind::ContinueStatement)],
        RowId::StatBreak => &[Skip, Put, Close(Kind::BreakStatement)],
        RowId::StatReturn => &[Skip, Put, Close(Kind::ReturnStatement)],
        RowId::StatThrow => &[Skip, Put, Close(Kind::ThrowStatement)],
        RowId::StatSwitch => &[
            Skip,
            Skip,
            Put,
            Skip,
            Skip,
            Scope(Kind::AssertedBlockScope),
            Hold,
            Put,
            Skip,
        ],
        RowId::StatTry | RowId::New => &[Skip, Put, Tail],
        RowId::StatExpr
        | RowId::Assign(_)
        | RowId::Cond(_)
        | RowId::Level(_, _)
        | RowId::UnaryLhs
        | RowId::LhsNew
        | RowId::LhsPrimary => &[Operand, Tail],
        RowId::Block => &[
            Skip,
            Scope(Kind::AssertedBlockScope),
            Statements,
            Skip,
            Close(Kind::Block),
        ],
        RowId::DoEnd | RowId::LabelSemi => &[Skip],
        RowId::JumpLabel => &[Text, Skip],
        RowId::JumpPlain => &[NoLabel, Skip],
        RowId::RetExpr | RowId::Throw => &[Put, Skip],
        RowId::RetPlain => &[Absent, Skip],
        RowId::ForHeadVar | RowId::ForHeadLet | RowId::ForHeadConst => &[
            Skip,
            Named(Kind::BindingIdentifier),
            Tail,
        ],
        RowId::ForHeadEmpty => &[Skip, Absent, Tail],
        RowId::ForHeadExpr | RowId::CalleeNew | RowId::CalleePrimary => &[Put, Tail],
        RowId::ForBindIn | RowId::ForBindOf | RowId::ForExprIn | RowId::ForExprOf => &[
            Scope(Kind::AssertedBlockScope),
            Hold,
            Skip,
            Put,
        ],
        RowId::ForBindInit => &[Put, Put, Skip, Tail],
        RowId::ForExprRest | RowId::AssignTailArrow(_) => &[Skip, Tail],
        RowId::ForRest => &[Scope(Kind::AssertedBlockScope), Hold, Put, Skip, Put],
        RowId::ExprOpt | RowId::ArgPlain => &[Put],
        RowId::CasesCase | RowId::CasesDCase => &[
            Skip,
            Put,
            Skip,
            Statements,
            Close(Kind::SwitchCase),
            Put,
        ],
        RowId::CasesDefault => &[Skip, Skip, Statements, Close(Kind::SwitchDefault), Put],
        RowId::TryRestCatch => &[
            Skip,
            Skip,
            Scope(Kind::AssertedBoundNamesScope),
            Named(Kind::BindingIdentifier),
            Skip,
            Put,
            Close(Kind::CatchClause),
            Put,
        ],
        RowId::TryRestFinally => &[Absent, Skip, Put],
        RowId::Expr(_) => &[Operand, Hold, Put],
        RowId::AssignTailCompound(_) => &[Operator(EnumId::CompoundOperator), Hold, Put],
        RowId::AssignTailEmpty(_)
        | RowId::CondTailEmpty(_)
        | RowId::LevelTailEmpty(_, _)
        | RowId::PostEmpty
        | RowId::LhsTailEmpty
        | RowId::MemberTailEmpty
        | RowId::ShortEmpty
        | RowId::GetRestEmpty
        | RowId::SetRestEmpty => &[],
        RowId::ArrowBody(_) => &[Skip, Body, Skip],
        RowId::ArrowExpr(_) => &[ParameterScope, Hold, Put],
        RowId::CondTail(_) => &[Skip, Put, Skip, Put],
        RowId::LevelTail(_, _) => &[Operator(EnumId::BinaryOperator), Hold, Put, Tail],
        RowId::UnaryOperator => &[
            Operator(EnumId::UnaryOperator),
            Put,
            Close(Kind::UnaryExpression),
        ],
        RowId::UnaryIncrement | RowId::UnaryDecrement => &[
            Flag(true),
            Operator(EnumId::UpdateOperator),
            Put,
            Close(Kind::UpdateExpression),
        ],
        RowId::PostIncrement | RowId::PostDecrement => &[
            Flag(false),
            Operator(EnumId::UpdateOperator),
            Hold,
        ],
        RowId::LhsTailAccess | RowId::MemberTail => &[Tail, Tail],
        RowId::LhsTailCall => &[Skip, Wrap, Skip, Tail],
        RowId::AccessName => &[Skip, Text],
        RowId::AccessIndex | RowId::PrimaryHead | RowId::PrimaryParens => &[Skip, Put, Skip],
        RowId::NewArgs => &[Skip, Wrap, Skip],
        RowId::NewArgsEmpty => &[NoItems],
        RowId::ArgSpread => &[Skip, Put, Close(Kind::SpreadElement)],
        RowId::PrimaryThis => &[Skip, Close(Kind::ThisExpression)],
        RowId::PrimaryNull => &[Skip, Close(Kind::LiteralNullExpression)],
        RowId::PrimaryTrue => &[Skip, Flag(true), Close(Kind::LiteralBooleanExpression)],
        RowId::PrimaryFalse => &[Skip, Flag(false), Close(Kind::LiteralBooleanExpression)],
        RowId::PrimaryNumber => &[Whole, Close(Kind::LiteralNumericExpression)],
        RowId::PrimaryText => &[Quoted],
        RowId::PrimaryIdent => &[Named(Kind::IdentifierExpression)],
        RowId::PrimaryArray => &[Skip, Wrap, Skip, Close(Kind::ArrayExpression)],
        RowId::PrimaryObject => &[Skip, Wrap, Skip, Close(Kind::ObjectExpression)],
        RowId::PrimaryWhole => &[Text, NoItems, Close(Kind::TemplateExpression)],
        RowId::PrimaryTemplate => &[Text, Wrap, Close(Kind::TemplateExpression)],
        RowId::PrimaryFunction => &[
            Skip,
            Put,
            Scope(Kind::AssertedBoundNamesScope),
            Hold,
            Skip,
            ParameterScope,
            Put,
            Skip,
            Skip,
            Scope(Kind::AssertedVarScope),
            Body,
            Skip,
            Close(Kind::FunctionContents),
            Resume,
            Close(Kind::EagerFunctionExpression),
        ],
        RowId::FuncName => &[Named(Kind::BindingIdentifier)],
        RowId::ElemsHole => &[Skip, Absent, Put],
        RowId::PropGet | RowId::PropSet | RowId::PropIdent => &[Text, Tail],
        RowId::PropReserved | RowId::PropText | RowId::PropNumber => &[
            Named(Kind::LiteralPropertyName),
            Tail,
        ],
        RowId::PropComputed => &[Skip, Put, Close(Kind::ComputedPropertyName), Skip, Tail],
        RowId::GetRestGetter => &[
            Put,
            Hold,
            Skip,
            Skip,
            Skip,
            Scope(Kind::AssertedVarScope),
            Body,
            Skip,
            Close(Kind::GetterContents),
            Resume,
            Close(Kind::EagerGetter),
        ],
        RowId::SetRestSetter => &[
            Put,
            Hold,
            Skip,
            ParameterScope,
            Parameter,
            Skip,
            Skip,
            Scope(Kind::AssertedVarScope),
            Body,
            Skip,
            Close(Kind::SetterContents),
            Resume,
            Close(Kind::EagerSetter),
        ],
        RowId::Method => &[
            Hold,
            Skip,
            ParameterScope,
            Put,
            Skip,
            Skip,
            Scope(Kind::AssertedVarScope),
            Body,
            Skip,
            Close(Kind::FunctionContents),
            Resume,
        ],
        RowId::PropNameName | RowId::PropNameText | RowId::PropNameNumber => &[Named(
            Kind::LiteralPropertyName,
        )],
        RowId::PropNameComputed => &[Skip, Put, Skip, Close(Kind::ComputedPropertyName)],
        RowId::TplRest => &[TemplatePart],
        RowId::TplMoreMiddle => &[Text, TemplatePart],
        RowId::TplMoreTail => &[Text],
    }
}

/// What is made of what a row's steps gathered.
pub(crate) fn finish_of(row: RowId) -> Finish
    ensures { result ≡ (recipe row).1 }
{
    match row {
        RowId::Script
        | RowId::LexicalLet
        | RowId::LexicalConst
        | RowId::Decls(_)
        | RowId::DeclTail(_)
        | RowId::DeclTailEmpty(_)
        | RowId::Decl(_)
        | RowId::Init(_)
        | RowId::InitEmpty(_)
        | RowId::Function
        | RowId::ParamsRest
        | RowId::ParamsEmpty
        | RowId::ParamTail
        | RowId::ParamTailEmpty
        | RowId::ParamNext
        | RowId::ParamNextRest
        | RowId::StatVar
        | RowId::StatEmpty
        | RowId::StatDebugger
        | RowId::StatIf
        | RowId::StatWhile
        | RowId::StatDo
        | RowId::StatContinue
        | RowId::StatBreak
        | RowId::StatReturn
        | RowId::StatThrow
        | RowId::Block
        | RowId::Else
        | RowId::ElseEmpty
        | RowId::DoEnd
        | RowId::DoEndEmpty
        | RowId::JumpLabel
        | RowId::JumpPlain
        | RowId::RetExpr
        | RowId::RetPlain
        | RowId::Throw
        | RowId::ExprOpt
        | RowId::ExprOptEmpty
        | RowId::CasesCase
        | RowId::CasesDefault
        | RowId::CasesEmpty
        | RowId::CasesDCase
        | RowId::CasesDEmpty
        | RowId::Fin
        | RowId::FinEmpty
        | RowId::Comma(_)
        | RowId::CommaEmpty(_)
        | RowId::UnaryOperator
        | RowId::UnaryIncrement
        | RowId::UnaryDecrement
        | RowId::Args
        | RowId::ArgsEmpty
        | RowId::ArgMore
        | RowId::ArgMoreEmpty
        | RowId::ArgSpread
        | RowId::ArgPlain
        | RowId::PrimaryThis
        | RowId::PrimaryNull
        | RowId::PrimaryTrue
        | RowId::PrimaryFalse
        | RowId::PrimaryNumber
        | RowId::PrimaryIdent
        | RowId::PrimaryHead
        | RowId::PrimaryParens
        | RowId::PrimaryArray
        | RowId::PrimaryObject
        | RowId::PrimaryWhole
        | RowId::PrimaryTemplate
        | RowId::PrimaryFunction
        | RowId::FuncName
        | RowId::FuncNameEmpty
        | RowId::ElemsHole
        | RowId::ElemsArg
        | RowId::ElemsEmpty
        | RowId::ElemMore
        | RowId::ElemMoreEmpty
        | RowId::Props
        | RowId::PropsEmpty
        | RowId::PropMore
        | RowId::PropMoreEmpty
        | RowId::PropNameName
        | RowId::PropNameText
        | RowId::PropNameNumber
        | RowId::PropNameComputed
        | RowId::TplRest
        | RowId::TplMoreMiddle
        | RowId::TplMoreTail => Finish::Values,
        RowId::Items => Finish::Items,
        RowId::ItemsEmpty => Finish::NoItems,
        RowId::ItemFunction
        | RowId::ItemLexical
        | RowId::ItemStat
        | RowId::Body
        | RowId::StatBlock
        | RowId::Again
        | RowId::LongMethod
        | RowId::ShortMethod
        | RowId::GetRestMethod
        | RowId::SetRestMethod => Finish::Same,
        RowId::Params => Finish::Parameters,
        RowId::StatFor
        | RowId::StatTry
        | RowId::Assign(_)
        | RowId::Cond(_)
        | RowId::Level(_, _)
        | RowId::UnaryLhs
        | RowId::LhsNew
        | RowId::LhsPrimary
        | RowId::New
        | RowId::CalleeNew
        | RowId::CalleePrimary
        | RowId::PrimaryText
        | RowId::PropReserved
        | RowId::PropText
        | RowId::PropNumber
        | RowId::PropComputed => Finish::Folds,
        RowId::StatSwitch => Finish::Switch,
        RowId::StatExpr => Finish::Statement,
        RowId::LabelBody => Finish::EndsLabel(Kind::LabelledStatement),
        RowId::LabelSemi
        | RowId::ForExprRest
        | RowId::AssignTailArrow(_)
        | RowId::AssignTailEmpty(_)
        | RowId::CondTailEmpty(_)
        | RowId::LevelTailEmpty(_, _)
        | RowId::PostEmpty
        | RowId::LhsTailAccess
        | RowId::LhsTailEmpty
        | RowId::MemberTail
        | RowId::MemberTailEmpty
        | RowId::ShortEmpty
        | RowId::GetRestEmpty
        | RowId::SetRestEmpty => Finish::Endings,
        RowId::ForHeadVar => Finish::Binds(Declared::Var),
        RowId::ForHeadLet => Finish::Binds(Declared::Let),
        RowId::ForHeadConst => Finish::Binds(Declared::Const),
        RowId::ForHeadEmpty | RowId::ForHeadExpr => Finish::Fills,
        RowId::ForBindIn | RowId::ForExprIn => Finish::Ends(Kind::ForInStatement),
        RowId::ForBindOf | RowId::ForExprOf => Finish::Ends(Kind::ForOfStatement),
        RowId::ForBindInit => Finish::Declares,
        RowId::ForRest => Finish::Ends(Kind::ForStatement),
        RowId::TryRestCatch => Finish::Tries,
        RowId::TryRestFinally => Finish::Ends(Kind::TryFinallyStatement),
        RowId::Expr(_) => Finish::Sequence,
        RowId::AssignTailEquals(_) => Finish::Ends(Kind::AssignmentExpression),
        RowId::AssignTailCompound(_) => Finish::Ends(Kind::CompoundAssignmentExpression),
        RowId::ArrowBody(_) => Finish::ArrowBody,
        RowId::ArrowExpr(_) => Finish::EndsParameters(Kind::EagerArrowExpressionWithExpression),
        RowId::CondTail(_) => Finish::Ends(Kind::ConditionalExpression),
        RowId::LevelTail(_, _) => Finish::Ends(Kind::BinaryExpression),
        RowId::PostIncrement | RowId::PostDecrement => Finish::Ends(Kind::UpdateExpression),
        RowId::LhsTailCall => Finish::Ends(Kind::CallExpression),
        RowId::AccessName => Finish::Ends(Kind::StaticMemberExpression),
        RowId::AccessIndex => Finish::Ends(Kind::ComputedMemberExpression),
        RowId::NewArgs | RowId::NewArgsEmpty => Finish::Ends(Kind::NewExpression),
        RowId::PropGet | RowId::PropSet | RowId::PropIdent => Finish::Property,
        RowId::LongValue | RowId::ShortValue | RowId::GetRestValue | RowId::SetRestValue =>
            Finish::Ends(Kind::DataProperty),
        RowId::GetRestGetter | RowId::SetRestSetter => Finish::Instead,
        RowId::Method => Finish::Ends(Kind::EagerMethod),
    }
}
