//! How the parts of a row's symbols are put together.

use bast_schema::{EnumId, Kind};

/// What is done with the next parts of a row's symbols, from the left. Values that are gathered are added behind those
/// before them.
#[derive(Clone, Copy)]
pub enum Step {
    /// A token or a semicolon that leaves nothing.
    Skip,
    /// The values of a symbol.
    Put,
    /// The same, with the raw text of the one string that the symbol may be.
    Operand,
    /// The values of a symbol as one list.
    Wrap,
    /// The text of a token.
    Text,
    /// The value of a number.
    Whole,
    /// A node of the kind, with the text of a token.
    Named(Kind),
    /// A string, with its raw text.
    Quoted,
    /// The operator that a token is.
    Operator(EnumId),
    /// A name that is bound and its initializer, if there is one.
    Parameter,
    /// An expression and the piece of a template behind it, with the parts behind that.
    TemplatePart,
    /// What is put around an operand.
    Tail,
    /// The items of a list of statements, to which one is added in front.
    Rest,
    /// The items of a block, each a statement.
    Statements,
    /// The items of a script or a function: the directives in front, and the statements.
    Body,
    /// No node where one may stand.
    Absent,
    /// No label.
    NoLabel,
    /// A list without items.
    NoItems,
    /// A truth value.
    Flag(bool),
    /// A choice.
    Choice(u8),
    /// A scope of the kind that tells no names.
    Scope(Kind),
    /// The scope of parameters that tells no names.
    ParameterScope,
    /// What was gathered so far stands before what comes.
    Hold,
    /// What stood before, the directives, and what was gathered since.
    Resume,
    /// What was gathered so far are the fields of one node of the kind.
    Close(Kind),
}

/// How a `for` head declares its variable.
#[derive(Clone, Copy)]
pub enum Declared {
    Var,
    Let,
    Const,
}

/// What a row's own part is, once the parts of its symbols are gathered.
#[derive(Clone, Copy)]
pub enum Finish {
    /// That of its one symbol, which is left as it stands.
    Same,
    /// The values.
    Values,
    /// The one value, with all that stands behind it put around it from the left.
    Folds,
    /// What is put around an operand: a node of the kind, where the operand stands as it is.
    Ends(Kind),
    /// The same, where the operand stands as the parameters of a function.
    EndsParameters(Kind),
    /// The same, where the operand is a label.
    EndsLabel(Kind),
    /// What is put around an operand further on.
    Endings,
    /// The value put into what the body of a `for` is still to be put into.
    Fills,
    /// The same with a name that is declared so.
    Binds(Declared),
    /// What is declared in the head of a `for`, without its first name.
    Declares,
    /// The body of an arrow function, whose operand is its parameters.
    ArrowBody,
    /// What is put around the block of a `try`.
    Tries,
    /// One expression, or a sequence.
    Sequence,
    /// A statement that begins with an expression.
    Statement,
    /// A property that begins with a name.
    Property,
    /// What stands in place of an operand.
    Instead,
    /// An item in front of those behind it.
    Items,
    /// No items.
    NoItems,
    /// A `switch`.
    Switch,
    /// The parameters of a function, the one for the rest behind the others.
    Parameters,
}
