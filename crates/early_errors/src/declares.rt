ghost use Rattle.std.specs.Prelude.{◌≡◌, IfOk};
ghost use Rattle.bast_schema.specs.View.{datum, data_of};
ghost use Rattle.scope_facts.specs.Names.{tops_in};
ghost use Rattle.early_errors.specs.Declares.{behind, is_var, lexical_of, var_of, lexical_names, var_names, list_names, parameters_at, parameters_first, parameter_names, has_simple, caught, values_first, declared_names, block_names, starts_absent, bare_of, bare_name, used_name, used_first, is_delete, deleted_of, deleted_name};

use crate::kinds::{Role, role_of};
use bast_base::Memory;
use bast_schema::{UNARY_DELETE, Value};
use scope_facts::{
    Declared, Form, NameKind, are_simple, bound_name, first_name_of, form_of, with_bound,
    with_bound_below, with_items, with_lexicals_in, with_tops_in, with_vars_in,
};
use std::alloc::Global;

/// The values behind the first.
fn values_behind(values: &[Value]) -> &[Value]
    ensures { data_of result.now ≡ behind (data_of values.now) }
{
    match values {
        [] => &[],
        [_, rest @ ..] => rest,
    }
}

/// Whether names of this kind are var names.
fn is_var_kind(kind: NameKind) -> bool
    ensures { result ≡ is_var kind }
{
    matches!(kind, NameKind::Var)
}

/// The lexical ones of declared names.
fn lexical_among(alloc: Global, declared: &[Declared]) -> Result<Vec<u32>, Memory>
    ensures { IfOk result (λ r. r.items ≡ lexical_of declared.now) }
{
    let mut names = Vec::new(alloc);
    for name in declared {
        if !is_var_kind(name.kind) {
            names.push(name.name)?;
        }
    }
    Ok(names)
}

/// The var names among declared names.
fn var_among(alloc: Global, declared: &[Declared]) -> Result<Vec<u32>, Memory>
    ensures { IfOk result (λ r. r.items ≡ var_of declared.now) }
{
    let mut names = Vec::new(alloc);
    for name in declared {
        if is_var_kind(name.kind) {
            names.push(name.name)?;
        }
    }
    Ok(names)
}

/// What a script or a body declares.
fn declared_by(alloc: Global, fields: &[Value]) -> Result<Vec<Declared>, Memory>
    ensures { IfOk result (λ r. r.items ≡ tops_in (behind (data_of fields.now))) }
{
    with_tops_in(alloc, Vec::new(alloc), values_behind(fields))
}

/// The lexical names of a holder or of a `for` head, in order.
pub(crate) fn lexical_names(alloc: Global, role: Role, fields: &[Value]) -> Result<Vec<u32>, Memory>
    ensures { IfOk result (λ r. r.items ≡ lexical_names role (data_of fields.now)) }
{
    match role {
        Role::Script | Role::Contents => lexical_among(alloc, &declared_by(alloc, fields)?),
        Role::Block | Role::For => {
            let declared = with_lexicals_in(alloc, Vec::new(alloc), fields)?;
            lexical_among(alloc, &declared)
        }
        _ => Ok(Vec::new(alloc)),
    }
}

/// The var names of a holder or of the body of a `for` statement, in order.
pub(crate) fn var_names(alloc: Global, role: Role, fields: &[Value]) -> Result<Vec<u32>, Memory>
    ensures { IfOk result (λ r. r.items ≡ var_names role (data_of fields.now)) }
{
    match role {
        Role::Script | Role::Contents => var_among(alloc, &declared_by(alloc, fields)?),
        Role::Block | Role::For => with_vars_in(Vec::new(alloc), fields),
        _ => Ok(Vec::new(alloc)),
    }
}

/// The names of a list of parameters with its rest.
fn names_of_list(alloc: Global, fields: &[Value]) -> Result<Vec<u32>, Memory>
    ensures { IfOk result (λ r. r.items ≡ list_names (data_of fields.now)) }
{
    match fields {
        [] => Ok(Vec::new(alloc)),
        [first, rest @ ..] => match first {
            Value::List(items) => with_bound(with_items(Vec::new(alloc), items.as_slice())?, rest),
            _ => Ok(Vec::new(alloc)),
        },
    }
}

/// The names of parameters, or of the one parameter of a setter.
fn names_of_parameters(alloc: Global, parameters: &Value) -> Result<Vec<u32>, Memory>
    ensures { IfOk result (λ r. r.items ≡ parameters_at (datum parameters.now)) }
{
    match parameters {
        Value::Node(node) => match form_of(node.kind()) {
            Form::Parameters => names_of_list(alloc, node.fields()),
            _ => with_bound_below(Vec::new(alloc), parameters),
        },
        _ => Ok(Vec::new(alloc)),
    }
}

/// The names of the parameters that come first.
fn names_of_first(alloc: Global, values: &[Value]) -> Result<Vec<u32>, Memory>
    ensures { IfOk result (λ r. r.items ≡ parameters_first (data_of values.now)) }
{
    match values {
        [] => Ok(Vec::new(alloc)),
        [parameters, ..] => names_of_parameters(alloc, parameters),
    }
}

/// The names of the parameters of a function, in order.
pub(crate) fn parameter_names(
    alloc: Global,
    role: Role,
    fields: &[Value],
) -> Result<Vec<u32>, Memory>
    ensures { IfOk result (λ r. r.items ≡ parameter_names role (data_of fields.now)) }
{
    match role {
        Role::Contents | Role::Arrow => names_of_first(alloc, values_behind(fields)),
        _ => Ok(Vec::new(alloc)),
    }
}

/// Whether the contents of a function have simple parameters.
pub(crate) fn has_simple_parameters(role: Role, fields: &[Value]) -> bool
    ensures { result ≡ has_simple role (data_of fields.now) }
{
    match role {
        Role::Contents => are_simple(values_behind(fields)),
        _ => true,
    }
}

/// The name of a catch clause.
pub(crate) fn caught_names(alloc: Global, role: Role, fields: &[Value]) -> Result<Vec<u32>, Memory>
    ensures { IfOk result (λ r. r.items ≡ caught role (data_of fields.now)) }
{
    match role {
        Role::Catch => with_bound(Vec::new(alloc), fields),
        _ => Ok(Vec::new(alloc)),
    }
}

/// The values of the node that comes first.
fn values_of_first(values: &[Value]) -> &[Value]
    ensures { data_of result.now ≡ values_first (data_of values.now) }
{
    match values {
        [] => &[],
        [first, ..] => match first {
            Value::Node(node) => node.fields(),
            _ => &[],
        },
    }
}

/// The names that a block declares.
fn declared_names(alloc: Global, fields: &[Value]) -> Result<Vec<u32>, Memory>
    ensures { IfOk result (λ r. r.items ≡ declared_names (data_of fields.now)) }
{
    with_vars_in(lexical_names(alloc, Role::Block, fields)?, fields)
}

/// The names that the block of a catch clause declares.
pub(crate) fn names_of_block(
    alloc: Global,
    role: Role,
    fields: &[Value],
) -> Result<Vec<u32>, Memory>
    ensures { IfOk result (λ r. r.items ≡ block_names role (data_of fields.now)) }
{
    match role {
        Role::Catch => declared_names(alloc, values_of_first(values_behind(values_behind(fields)))),
        _ => Ok(Vec::new(alloc)),
    }
}

/// Whether the first value is absent.
fn starts_absent(values: &[Value]) -> bool
    ensures { result ≡ starts_absent (data_of values.now) }
{
    match values {
        [] => false,
        [first, ..] => matches!(first, Value::Absent),
    }
}

/// The name of a declarator without initializer.
fn bare_declarator(fields: &[Value]) -> Option<u32>
    ensures { result ≡ bare_of (data_of fields.now) }
{
    match fields {
        [] => None,
        [binding, rest @ ..] => {
            if starts_absent(rest) {
                bound_name(binding)
            } else {
                None
            }
        }
    }
}

/// The name of a node that is a declarator without initializer.
pub(crate) fn bare_name(role: Role, fields: &[Value]) -> Option<u32>
    ensures { result ≡ bare_name role (data_of fields.now) }
{
    match role {
        Role::Declarator => bare_declarator(fields),
        _ => None,
    }
}

/// The name that a value uses, where it is a reference.
fn used_name(value: &Value) -> Option<u32>
    ensures { result ≡ used_name (datum value.now) }
{
    match value {
        Value::Node(node) => match role_of(node.kind()) {
            Role::Use => first_name_of(node.fields()),
            _ => None,
        },
        _ => None,
    }
}

/// The name that the first value uses.
fn used_first(values: &[Value]) -> Option<u32>
    ensures { result ≡ used_first (data_of values.now) }
{
    match values {
        [] => None,
        [first, ..] => used_name(first),
    }
}

/// Whether a value is the operator `delete`.
fn is_delete(value: &Value) -> bool
    ensures { result ≡ is_delete (datum value.now) }
{
    match value {
        Value::Choice(choice) => *choice == UNARY_DELETE,
        _ => false,
    }
}

/// The name that a unary operator deletes.
fn deleted_operand(fields: &[Value]) -> Option<u32>
    ensures { result ≡ deleted_of (data_of fields.now) }
{
    match fields {
        [] => None,
        [operator, rest @ ..] => {
            if is_delete(operator) {
                used_first(rest)
            } else {
                None
            }
        }
    }
}

/// The name that a node deletes.
pub(crate) fn deleted_name(role: Role, fields: &[Value]) -> Option<u32>
    ensures { result ≡ deleted_name role (data_of fields.now) }
{
    match role {
        Role::Unary => deleted_operand(fields),
        _ => None,
    }
}
