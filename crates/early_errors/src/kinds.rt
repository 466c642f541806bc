ghost use Rattle.std.specs.Prelude.{◌≡◌};
ghost use Rattle.early_errors.specs.Kinds.{role, places};

use bast_schema::Kind;

/// What a kind of node is for the rules.
#[derive(Clone, Copy)]
pub enum Role {
    /// A script (section 15.1 of ECMA-262).
    Script,
    /// A function that is declared, a function expression, a getter or a setter (14.1, 14.3).
    Function,
    /// A method, or an arrow with a body: a function whose parameters all have names of their own (14.2, 14.3).
    Method,
    /// An arrow with an expression (14.2).
    Arrow,
    /// The parameters and the body of a function.
    Contents,
    /// A block or a switch (13.2, 13.12).
    Block,
    /// A statement with `for` (13.7.4, 13.7.5).
    For,
    /// Another loop (13.7.2, 13.7.3).
    Loop,
    /// A catch clause (13.15).
    Catch,
    /// A directive (14.1.1).
    Directive,
    /// The first or a later piece of a template (12.2.9).
    Template,
    /// A `let` or `const` declaration (13.3.1).
    Lexical,
    /// A `var` declaration (13.3.2).
    Variables,
    /// A declarator of such a declaration.
    Declarator,
    /// A statement with a label (13.13).
    Labelled,
    /// `return` (13.10).
    Return,
    /// `break` (13.9).
    Break,
    /// `continue` (13.8).
    Continue,
    /// A unary operator (12.5).
    Unary,
    /// A reference to an identifier (12.1).
    Use,
    /// The identifier of a binding (12.1).
    Binding,
    /// The binding in the head of a `for`-`in` or `for`-`of` statement (13.7.5).
    Head,
    /// A member by a name (12.3.2).
    Property,
    /// A member by an expression (12.3.2).
    Member,
    /// Every other kind.
    Plain,
}

/// What a field is for what stands in it.
#[derive(Clone, Copy)]
pub enum Place {
    /// It changes nothing.
    Plain,
    /// What is assigned to.
    Target,
    /// The body of a loop.
    Body,
    /// The clauses of a switch.
    Cases,
    /// The name of a function, which its strictness judges.
    Name,
    /// The inside of a function.
    Inside,
}

/// What a kind is for the rules.
pub(crate) fn role_of(kind: Kind) -> Role
    ensures { result ≡ role kind }
{
    match kind {
        Kind::Script => Role::Script,
        Kind::EagerFunctionDeclaration
        | Kind::LazyFunctionDeclaration
        | Kind::EagerFunctionExpression
        | Kind::LazyFunctionExpression
        | Kind::EagerGetter
        | Kind::LazyGetter
        | Kind::EagerSetter
        | Kind::LazySetter => Role::Function,
        Kind::EagerMethod | Kind::LazyMethod | Kind::EagerArrowExpressionWithFunctionBody =>
            Role::Method,
        Kind::EagerArrowExpressionWithExpression => Role::Arrow,
        Kind::FunctionContents | Kind::GetterContents | Kind::SetterContents => Role::Contents,
        Kind::Block | Kind::SwitchStatement | Kind::SwitchStatementWithDefault => Role::Block,
        Kind::ForStatement | Kind::ForInStatement | Kind::ForOfStatement => Role::For,
        Kind::WhileStatement | Kind::DoWhileStatement => Role::Loop,
        Kind::CatchClause => Role::Catch,
        Kind::Directive => Role::Directive,
        Kind::TemplateExpression | Kind::TemplatePart => Role::Template,
        Kind::LexicalDeclaration => Role::Lexical,
        Kind::VarDeclaration => Role::Variables,
        Kind::VariableDeclarator => Role::Declarator,
        Kind::LabelledStatement => Role::Labelled,
        Kind::ReturnStatement => Role::Return,
        Kind::BreakStatement => Role::Break,
        Kind::ContinueStatement => Role::Continue,
        Kind::UnaryExpression => Role::Unary,
        Kind::IdentifierExpression => Role::Use,
        Kind::BindingIdentifier => Role::Binding,
        Kind::ForInOfBinding => Role::Head,
        Kind::StaticMemberExpression => Role::Property,
        Kind::ComputedMemberExpression => Role::Member,
        _ => Role::Plain,
    }
}

/// What the fields of a kind are, up to the last that is not plain.
pub(crate) fn places_of(kind: Kind) -> &'static [Place]
    ensures { result.now ≡ places kind }
{
    match kind {
        Kind::EagerFunctionDeclaration | Kind::LazyFunctionDeclaration => {
            &[Place::Name, Place::Plain, Place::Inside]
        }
        Kind::EagerFunctionExpression | Kind::LazyFunctionExpression => {
            &[Place::Name, Place::Plain, Place::Plain, Place::Inside]
        }
        Kind::EagerMethod
        | Kind::LazyMethod
        | Kind::EagerGetter
        | Kind::LazyGetter
        | Kind::EagerSetter
        | Kind::LazySetter => &[Place::Plain, Place::Plain, Place::Inside],
        Kind::EagerArrowExpressionWithFunctionBody => &[Place::Plain, Place::Inside],
        Kind::EagerArrowExpressionWithExpression => &[Place::Inside, Place::Inside, Place::Inside],
        Kind::WhileStatement => &[Place::Plain, Place::Body],
        Kind::DoWhileStatement => &[Place::Body],
        Kind::ForStatement => {
            &[
                Place::Plain,
                Place::Plain,
                Place::Plain,
                Place::Plain,
                Place::Body,
            ]
        }
        Kind::ForInStatement | Kind::ForOfStatement => {
            &[Place::Plain, Place::Target, Place::Plain, Place::Body]
        }
        Kind::SwitchStatement => &[Place::Plain, Place::Plain, Place::Cases],
        Kind::SwitchStatementWithDefault => {
            &[
                Place::Plain,
                Place::Plain,
                Place::Cases,
                Place::Cases,
                Place::Cases,
            ]
        }
        Kind::UpdateExpression => &[Place::Plain, Place::Plain, Place::Target],
        Kind::AssignmentExpression => &[Place::Target],
        Kind::CompoundAssignmentExpression => &[Place::Plain, Place::Target],
        _ => &[],
    }
}
