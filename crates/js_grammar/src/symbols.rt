use crate::class::Class;

/// Whether an expression may hold the operator `in` outside of brackets. It may not before the `in` of a `for` loop
/// (the parameter `In` of ECMA-262, 12.9).
#[derive(Clone, Copy)]
pub enum Mode {
    /// It may.
    WithIn,
    /// It may not.
    NoIn,
}

/// A level of binary operators, the ones that bind least first (ECMA-262, 6th edition, 12.6 to 12.12).
#[derive(Clone, Copy)]
pub enum Level {
    /// `||`
    LogicalOr,
    /// `&&`
    LogicalAnd,
    /// `|`
    BitwiseOr,
    /// `^`
    BitwiseXor,
    /// `&`
    BitwiseAnd,
    /// `==`, `!=`, `===` and `!==`
    Equality,
    /// `<`, `>`, `<=`, `>=`, `instanceof` and, where it is allowed, `in`
    Relational,
    /// `<<`, `>>` and `>>>`
    Shift,
    /// `+` and `-`
    Additive,
    /// `*`, `/` and `%`
    Multiplicative,
}

/// What takes one token.
#[derive(Clone, Copy)]
pub enum Terminal {
    /// A token of the class.
    One(Class),
    /// A `(`, be it the head of an arrow function or not.
    OpenParen,
    /// An identifier.
    Ident,
    /// An identifier that is bound.
    Bind,
    /// An identifier or a reserved word.
    Name,
    /// A unary operator other than `++` and `--`.
    UnaryOperator,
    /// A binary operator of the level; without `in` where that is not allowed.
    Operator(Level, Mode),
}

/// A symbol of the grammar: one that has rows, a semicolon that may count as there, or a terminal.
///
/// Most symbols stand for a production of ECMA-262, 6th edition, or for a part of one, so that each row is chosen by one
/// token. A symbol with a mode stands for two.
#[derive(Clone, Copy)]
pub enum Symbol {
    /// A `;`, which may be left out before a `}`, at the end and behind a newline (11.9.1).
    Semi,
    /// Takes a token.
    Take(Terminal),
    /// A whole script (15.1).
    Script,
    /// Statements and declarations up to a `}`, a `case` or the end (13.2).
    Items,
    /// A statement or a declaration.
    Item,
    /// A declaration by `let` or `const` (13.3.1).
    Lexical,
    /// The variables of a declaration (13.3.2).
    Decls(Mode),
    /// Further variables.
    DeclTail(Mode),
    /// A variable, with or without an initializer.
    Decl(Mode),
    /// An initializer, or none.
    Init(Mode),
    /// The declaration of a function (14.1).
    Function,
    /// Parameters up to a `)`.
    Params,
    /// Further parameters.
    ParamTail,
    /// The parameter behind a comma.
    ParamNext,
    /// A statement that belongs to another one.
    Body,
    /// A statement (13).
    Stat,
    /// A block (13.2).
    Block,
    /// The `else` of an `if`, or none (13.6).
    Else,
    /// The `;` of a `do` loop, which may be left out (11.9.1).
    DoEnd,
    /// The label of a `continue` or `break`, or none (13.8, 13.9).
    Jump,
    /// The expression of a `return`, or none (13.10).
    Ret,
    /// The expression of a `throw` (13.14).
    Throw,
    /// What follows an expression that began a statement: a `:`, where it is a label (13.13), or the end of the statement (13.5).
    Label,
    /// What stands in the parentheses of a `for` (13.7.4, 13.7.5).
    ForHead,
    /// What follows the variable of a `for`.
    ForBind,
    /// What follows the expression of a `for`.
    ForExpr,
    /// The test and the update of a `for`.
    ForRest,
    /// An expression, or none.
    ExprOpt,
    /// The clauses of a `switch` (13.12).
    Cases,
    /// The clauses behind a `default`.
    CasesD,
    /// What follows the block of a `try` (13.15).
    TryRest,
    /// A `finally` block, or none.
    Fin,
    /// An expression (12.15).
    Expr(Mode),
    /// Further expressions behind commas.
    Comma(Mode),
    /// An expression without commas (12.14).
    Assign(Mode),
    /// What is assigned, the arrow of a function, or nothing.
    AssignTail(Mode),
    /// The body of an arrow function (14.2).
    Arrow(Mode),
    /// A conditional expression, or one that binds more (12.13).
    Cond(Mode),
    /// The branches of a conditional, or none.
    CondTail(Mode),
    /// An operand of the level before, with the operators of this level in it.
    Level(Level, Mode),
    /// Further operators of the level, with their right operands.
    LevelTail(Level, Mode),
    /// A unary expression (12.5).
    Unary,
    /// `++` or `--` behind an operand, or none (12.4).
    Post,
    /// A member, a call or a `new` (12.3).
    Lhs,
    /// Further accesses and calls.
    LhsTail,
    /// The same, behind a call.
    Again,
    /// `.` and a name, or an index in brackets (12.3.2).
    Access,
    /// A `new` (12.3.3).
    New,
    /// What a `new` makes, which holds no call.
    Callee,
    /// Further accesses.
    MemberTail,
    /// The arguments of a `new`, or none.
    NewArgs,
    /// Arguments up to a `)` (12.3.6).
    Args,
    /// Further arguments.
    ArgMore,
    /// An argument, or an element of an array.
    Arg,
    /// A primary expression (12.2), or the head of an arrow function (14.2).
    Primary,
    /// The name of a function expression, or none.
    FuncName,
    /// The elements of an array, or holes (12.2.5).
    Elems,
    /// What follows an element.
    ElemMore,
    /// Properties up to a `}` (12.2.6).
    Props,
    /// Further properties.
    PropMore,
    /// A property.
    Prop,
    /// The value of a property, or a method.
    Long,
    /// The same, or nothing: a shorthand.
    Short,
    /// What follows `get` in an object: a getter (14.3), or what makes it the name of a property.
    GetRest,
    /// What follows `set` in an object: a setter (14.3), or what makes it the name of a property.
    SetRest,
    /// The parameters and the body of a method (14.3).
    Method,
    /// The name of a property.
    PropName,
    /// A template behind its head (12.2.9).
    TplRest,
    /// A template behind a substitution.
    TplMore,
}

/// A row of the grammar: one alternative of a symbol, named by the symbol and what tells it from the others.
///
/// `symbols_of` has its symbols. Only `row` chooses one.
#[derive(Clone, Copy)]
pub enum RowId {
    Script,
    Items,
    ItemsEmpty,
    ItemFunction,
    ItemLexical,
    ItemStat,
    LexicalLet,
    LexicalConst,
    Decls(Mode),
    DeclTail(Mode),
    DeclTailEmpty(Mode),
    Decl(Mode),
    Init(Mode),
    InitEmpty(Mode),
    Function,
    Params,
    ParamsRest,
    ParamsEmpty,
    ParamTail,
    ParamTailEmpty,
    ParamNext,
    ParamNextRest,
    Body,
    StatBlock,
    StatVar,
    StatEmpty,
    StatDebugger,
    StatIf,
    StatFor,
    StatWhile,
    StatDo,
    StatContinue,
    StatBreak,
    StatReturn,
    StatThrow,
    StatSwitch,
    StatTry,
    StatExpr,
    Block,
    Else,
    ElseEmpty,
    DoEnd,
    DoEndEmpty,
    JumpLabel,
    JumpPlain,
    RetExpr,
    RetPlain,
    Throw,
    LabelBody,
    LabelSemi,
    ForHeadVar,
    ForHeadLet,
    ForHeadConst,
    ForHeadEmpty,
    ForHeadExpr,
    ForBindIn,
    ForBindOf,
    ForBindInit,
    ForExprIn,
    ForExprOf,
    ForExprRest,
    ForRest,
    ExprOpt,
    ExprOptEmpty,
    CasesCase,
    CasesDefault,
    CasesEmpty,
    CasesDCase,
    CasesDEmpty,
    TryRestCatch,
    TryRestFinally,
    Fin,
    FinEmpty,
    Expr(Mode),
    Comma(Mode),
    CommaEmpty(Mode),
    Assign(Mode),
    AssignTailEquals(Mode),
    AssignTailCompound(Mode),
    AssignTailArrow(Mode),
    AssignTailEmpty(Mode),
    ArrowBody(Mode),
    ArrowExpr(Mode),
    Cond(Mode),
    CondTail(Mode),
    CondTailEmpty(Mode),
    Level(Level, Mode),
    LevelTail(Level, Mode),
    LevelTailEmpty(Level, Mode),
    UnaryOperator,
    UnaryIncrement,
    UnaryDecrement,
    UnaryLhs,
    PostIncrement,
    PostDecrement,
    PostEmpty,
    LhsNew,
    LhsPrimary,
    LhsTailAccess,
    LhsTailCall,
    LhsTailEmpty,
    Again,
    AccessName,
    AccessIndex,
    New,
    CalleeNew,
    CalleePrimary,
    MemberTail,
    MemberTailEmpty,
    NewArgs,
    NewArgsEmpty,
    Args,
    ArgsEmpty,
    ArgMore,
    ArgMoreEmpty,
    ArgSpread,
    ArgPlain,
    PrimaryThis,
    PrimaryNull,
    PrimaryTrue,
    PrimaryFalse,
    PrimaryNumber,
    PrimaryText,
    PrimaryIdent,
    PrimaryHead,
    PrimaryParens,
    PrimaryArray,
    PrimaryObject,
    PrimaryWhole,
    PrimaryTemplate,
    PrimaryFunction,
    FuncName,
    FuncNameEmpty,
    ElemsHole,
    ElemsArg,
    ElemsEmpty,
    ElemMore,
    ElemMoreEmpty,
    Props,
    PropsEmpty,
    PropMore,
    PropMoreEmpty,
    PropGet,
    PropSet,
    PropIdent,
    PropReserved,
    PropText,
    PropNumber,
    PropComputed,
    LongValue,
    LongMethod,
    ShortValue,
    ShortMethod,
    ShortEmpty,
    GetRestValue,
    GetRestMethod,
    GetRestGetter,
    GetRestEmpty,
    SetRestValue,
    SetRestMethod,
    SetRestSetter,
    SetRestEmpty,
    Method,
    PropNameName,
    PropNameText,
    PropNameNumber,
    PropNameComputed,
    TplRest,
    TplMoreMiddle,
    TplMoreTail,
}
