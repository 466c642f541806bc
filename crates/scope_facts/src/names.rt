ghost use Rattle.std.specs.Prelude.{◌≡◌, OnOk, ◌++◌};
ghost use Rattle.bast_schema.specs.View.{datum, data_of};
ghost use Rattle.scope_facts.specs.Uses.{first_name};
ghost use Rattle.scope_facts.specs.Names.{kind_choice, with_kind, bound_at, bound, bound_below_at, bound_below, declarators, lexical_kind, is_var_head, head_kind, vars, vars_at, vars_in, lexicals, lexicals_at, lexicals_in, tops, tops_among, tops_in};

use crate::roles::{Form, form_of};
use bast_base::Memory;
use bast_schema::{
    DECLARED_CONST, DECLARED_LEXICAL, DECLARED_VAR, FOR_LET, FOR_VAR, LEXICAL_LET, Node, Value,
};
use std::alloc::Global;

/// How a scope declares a name.
#[derive(Clone, Copy, Debug, PartialEq, Eq, Hash)]
pub enum NameKind {
    /// As `var` does, and as a function of a script or of a body.
    Var,
    /// As `let` does, and as a function in a block.
    Lexical,
    /// As `const` does.
    Constant,
}

impl NameKind {
    /// The choice of `EnumId::DeclaredKind` that the kind is.
    pub fn choice(self) -> u8
        ensures { result ≡ kind_choice self }
    {
        match self {
            NameKind::Var => DECLARED_VAR,
            NameKind::Lexical => DECLARED_LEXICAL,
            NameKind::Constant => DECLARED_CONST,
        }
    }
}

/// A name that a scope declares, with its kind.
#[derive(Clone, Copy, Debug, PartialEq, Eq, Hash)]
pub struct Declared {
    /// The number of the name's text in the table of strings.
    pub name: u32,
    pub kind: NameKind,
}

/// The first name among the values.
pub fn first_name_of(values: &[Value]) -> Option<u32>
    ensures { result ≡ first_name (data_of values.now) }
{
    match values {
        [] => None,
        [first, rest @ ..] => match first {
            Value::Name(name) => Some(name.0),
            _ => first_name_of(rest),
        },
    }
}

/// The name that a value binds itself.
pub fn bound_name(value: &Value) -> Option<u32>
    ensures { result ≡ bound_at (datum value.now) }
{
    match value {
        Value::Node(node) => match form_of(node.kind()) {
            Form::Binding => first_name_of(node.fields()),
            _ => None,
        },
        _ => None,
    }
}

/// Adds the names that values bind themselves.
pub(crate) fn put_bound(names: &mut Vec<u32>, values: &[Value]) -> Result<(), Memory>
    ensures { OnOk result (names.new.items ≡ names.old.items ++ bound (data_of values.now)) }
{
    for value in values {
        if let Some(name) = bound_name(value) {
            names.push(name)?;
        }
    }
    Ok(())
}

/// Adds the names that an item binds, itself or by its fields.
pub(crate) fn put_bound_below(names: &mut Vec<u32>, item: &Value) -> Result<(), Memory>
    ensures { OnOk result (names.new.items ≡ names.old.items ++ bound_below_at (datum item.now)) }
{
    if let Value::Node(node) = item {
        if let Some(name) = bound_name(item) {
            names.push(name)?;
        }
        put_bound(names, node.fields())?;
    }
    Ok(())
}

/// Adds the names that the items of a list bind.
pub(crate) fn put_items(names: &mut Vec<u32>, items: &[Value]) -> Result<(), Memory>
    ensures { OnOk result (names.new.items ≡ names.old.items ++ bound_below (data_of items.now)) }
{
    for item in items {
        put_bound_below(names, item)?;
    }
    Ok(())
}

/// Adds the names of the declarators among the values of a declaration.
fn put_declarators(names: &mut Vec<u32>, values: &[Value]) -> Result<(), Memory>
    ensures { OnOk result (names.new.items ≡ names.old.items ++ declarators (data_of values.now)) }
{
    match values {
        [] => Ok(()),
        [first, rest @ ..] => match first {
            Value::List(items) => put_items(names, items.as_slice()),
            _ => put_declarators(names, rest),
        },
    }
}

/// The kind of the names that a `let` or `const` declaration declares.
fn lexical_kind_of(values: &[Value]) -> NameKind
    ensures { result ≡ lexical_kind (data_of values.now) }
{
    match values {
        [] => NameKind::Constant,
        [first, ..] => match first {
            Value::Choice(LEXICAL_LET) => NameKind::Lexical,
            _ => NameKind::Constant,
        },
    }
}

/// Whether the head of a `for` statement declares with `var`.
fn has_var(values: &[Value]) -> bool
    ensures { result ≡ is_var_head (data_of values.now) }
{
    match values {
        [] => false,
        [first, ..] => match first {
            Value::Choice(choice) => *choice == FOR_VAR,
            _ => false,
        },
    }
}

/// The kind of the name that the head of a `for` statement declares with `let` or `const`.
fn head_kind_of(values: &[Value]) -> NameKind
    ensures { result ≡ head_kind (data_of values.now) }
{
    match values {
        [] => NameKind::Constant,
        [first, ..] => match first {
            Value::Choice(FOR_LET) => NameKind::Lexical,
            _ => NameKind::Constant,
        },
    }
}

/// Adds the var names below a node, outside functions.
#[cycle(vars)]
fn put_vars(names: &mut Vec<u32>, node: &Node) -> Result<(), Memory>
    ensures { OnOk result (names.new.items ≡ names.old.items ++ vars node.now) }
{
    let fields = node.fields();
    match form_of(node.kind()) {
        Form::VarStatement => put_declarators(names, fields),
        Form::Head => {
            if has_var(fields) {
                put_bound(names, fields)
            } else {
                Ok(())
            }
        }
        Form::Inside => Ok(()),
        _ => put_vars_in(names, fields),
    }
}

/// Adds the var names in values.
#[cycle(vars)]
pub(crate) fn put_vars_in(names: &mut Vec<u32>, values: &[Value]) -> Result<(), Memory>
    ensures { OnOk result (names.new.items ≡ names.old.items ++ vars_in (data_of values.now)) }
{
    for value in values {
        put_vars_at(names, value)?;
    }
    Ok(())
}

/// Adds the var names in a value.
#[cycle(vars)]
fn put_vars_at(names: &mut Vec<u32>, value: &Value) -> Result<(), Memory>
    ensures { OnOk result (names.new.items ≡ names.old.items ++ vars_at (datum value.now)) }
{
    match value {
        Value::Node(node) => put_vars(names, node),
        Value::List(values) => put_vars_in(names, values.as_slice()),
        _ => Ok(()),
    }
}

/// Adds names that have a kind.
fn put_with_kind(out: &mut Vec<Declared>, kind: NameKind, names: &[u32]) -> Result<(), Memory>
    ensures { OnOk result (out.new.items ≡ out.old.items ++ with_kind kind names.now) }
{
    for name in names {
        out.push(Declared { name: *name, kind })?;
    }
    Ok(())
}

/// Adds the names of the declarators of a declaration, with their kind.
fn put_statement(
    alloc: Global,
    out: &mut Vec<Declared>,
    kind: NameKind,
    values: &[Value],
) -> Result<(), Memory>
    ensures { OnOk result (out.new.items ≡ out.old.items ++ with_kind kind (declarators (data_of values.now))) }
{
    let mut names = Vec::new(alloc);
    put_declarators(&mut names, values)?;
    put_with_kind(out, kind, &names)
}

/// Adds the names that values bind themselves, with their kind.
fn put_bound_as(
    alloc: Global,
    out: &mut Vec<Declared>,
    kind: NameKind,
    values: &[Value],
) -> Result<(), Memory>
    ensures { OnOk result (out.new.items ≡ out.old.items ++ with_kind kind (bound (data_of values.now))) }
{
    let mut names = Vec::new(alloc);
    put_bound(&mut names, values)?;
    put_with_kind(out, kind, &names)
}

/// Adds the lexical names of a node that stands directly there.
#[cycle(lexicals)]
fn put_lexicals(alloc: Global, out: &mut Vec<Declared>, node: &Node) -> Result<(), Memory>
    ensures { OnOk result (out.new.items ≡ out.old.items ++ lexicals node.now) }
{
    let fields = node.fields();
    match form_of(node.kind()) {
        Form::LexicalStatement => put_statement(alloc, out, lexical_kind_of(fields), fields),
        Form::FunctionStatement => put_bound_as(alloc, out, NameKind::Lexical, fields),
        Form::Head => {
            if has_var(fields) {
                Ok(())
            } else {
                put_bound_as(alloc, out, head_kind_of(fields), fields)
            }
        }
        Form::Case => put_lexicals_in(alloc, out, fields),
        _ => Ok(()),
    }
}

/// Adds the lexical names in values.
#[cycle(lexicals)]
pub(crate) fn put_lexicals_in(
    alloc: Global,
    out: &mut Vec<Declared>,
    values: &[Value],
) -> Result<(), Memory>
    ensures { OnOk result (out.new.items ≡ out.old.items ++ lexicals_in (data_of values.now)) }
{
    for value in values {
        put_lexicals_at(alloc, out, value)?;
    }
    Ok(())
}

/// Adds the lexical names in a value.
#[cycle(lexicals)]
fn put_lexicals_at(alloc: Global, out: &mut Vec<Declared>, value: &Value) -> Result<(), Memory>
    ensures { OnOk result (out.new.items ≡ out.old.items ++ lexicals_at (datum value.now)) }
{
    match value {
        Value::Node(node) => put_lexicals(alloc, out, node),
        Value::List(values) => put_lexicals_in(alloc, out, values.as_slice()),
        _ => Ok(()),
    }
}

/// Adds the names that a statement of a script or of a body declares there.
fn put_tops(alloc: Global, out: &mut Vec<Declared>, node: &Node) -> Result<(), Memory>
    ensures { OnOk result (out.new.items ≡ out.old.items ++ tops node.now) }
{
    let fields = node.fields();
    match form_of(node.kind()) {
        Form::LexicalStatement => put_statement(alloc, out, lexical_kind_of(fields), fields),
        Form::FunctionStatement => put_bound_as(alloc, out, NameKind::Var, fields),
        _ => {
            let mut names = Vec::new(alloc);
            put_vars(&mut names, node)?;
            put_with_kind(out, NameKind::Var, &names)
        }
    }
}

/// Adds the names that the statements of a script or of a body declare there.
fn put_tops_among(
    alloc: Global,
    out: &mut Vec<Declared>,
    statements: &[Value],
) -> Result<(), Memory>
    ensures { OnOk result (out.new.items ≡ out.old.items ++ tops_among (data_of statements.now)) }
{
    for statement in statements {
        if let Value::Node(node) = statement {
            put_tops(alloc, out, node)?;
        }
    }
    Ok(())
}

/// Adds the names that the first list among values declares, as the statements of a script or of a body.
pub(crate) fn put_tops_in(
    alloc: Global,
    out: &mut Vec<Declared>,
    values: &[Value],
) -> Result<(), Memory>
    ensures { OnOk result (out.new.items ≡ out.old.items ++ tops_in (data_of values.now)) }
{
    match values {
        [] => Ok(()),
        [first, rest @ ..] => match first {
            Value::List(statements) => put_tops_among(alloc, out, statements.as_slice()),
            _ => put_tops_in(alloc, out, rest),
        },
    }
}
