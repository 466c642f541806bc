ghost use Rattle.std.specs.Prelude.{◌≡◌, IfOk, true, if◌then◌else◌};
ghost use Rattle.bast_schema.specs.Counts.{is_whole, is_whole_at, is_whole_in};
ghost use Rattle.bast_schema.specs.View.{datum, data_of};
ghost use Rattle.scope_facts.specs.Uses.{is_scope};
ghost use Rattle.scope_facts.specs.Bare.{eager, empty_fields, bare_scope, bare, bare_at, bare_in};

use crate::roles::{Shape, is_scope_value, scope_shape};
use bast_base::Memory;
use bast_schema::{Kind, Node, Value, Values, rebuilt};
use std::alloc::Global;

/// The kind without its laziness.
fn eager_kind(kind: Kind) -> Kind
    ensures { result ≡ eager kind }
{
    match kind {
        Kind::LazyFunctionDeclaration => Kind::EagerFunctionDeclaration,
        Kind::LazyMethod => Kind::EagerMethod,
        Kind::LazyGetter => Kind::EagerGetter,
        Kind::LazySetter => Kind::EagerSetter,
        Kind::LazyFunctionExpression => Kind::EagerFunctionExpression,
        other => other,
    }
}

/// The fields of a scope that has no entry and no flag set.
fn make_empty_fields(alloc: Global, shape: Shape) -> Result<Vec<Value>, Memory>
    ensures { IfOk result (λ vs. data_of vs.items ≡ empty_fields shape) }
{
    let entries = Value::List(Values::of(Vec::new(alloc)));
    match shape {
        Shape::Parameters => Ok(vec![in alloc; entries, Value::Bool(false), Value::Bool(false)]?),
        _ => Ok(vec![in alloc; entries, Value::Bool(false)]?),
    }
}

/// A scope that says nothing.
fn empty_scope(alloc: Global, scope: Value) -> Result<Value, Memory>
    requires { is_scope (datum scope) ≡ true }
    ensures { IfOk result (λ v. datum v ≡ bare_scope (datum scope)) }
{
    match scope {
        Value::Node(node) => {
            let kind = node.kind();
            let fields = make_empty_fields(alloc, scope_shape(kind))?;
            Ok(Value::Node(rebuilt(kind, fields)))
        }
        other => Ok(other),
    }
}

/// The same tree with scopes that say nothing: no entry and no flag set. Each lazy function is eager in it.
///
/// The tree has no windows. The time is linear in the size of the tree.
#[cycle(bare)]
pub fn plain(alloc: Global, tree: Node) -> Result<Node, Memory>
    requires { is_whole tree ≡ true }
    ensures { IfOk result (λ t. t ≡ bare tree) }
{
    let (kind, fields) = tree.parts();
    let fields = plain_values(alloc, fields)?;
    Ok(rebuilt(eager_kind(kind), fields))
}

/// Values with scopes that say nothing below them.
#[cycle(bare)]
fn plain_values(alloc: Global, values: Vec<Value>) -> Result<Vec<Value>, Memory>
    requires { is_whole_in (data_of values.items) ≡ true }
    ensures { IfOk result (λ vs. data_of vs.items ≡ bare_in (data_of values.items)) }
{
    let mut done = Vec::with_capacity(alloc, values.len())?;
    for value in values {
        done.push(plain_value(alloc, value)?)?;
    }
    Ok(done)
}

/// A value that is a scope and says nothing, or one with such scopes below it.
#[cycle(bare)]
fn plain_value(alloc: Global, value: Value) -> Result<Value, Memory>
    requires { is_whole_at (datum value) ≡ true }
    ensures { IfOk result (λ v. datum v ≡ (if is_scope (datum value) then bare_scope (datum value) else bare_at (datum value))) }
{
    if is_scope_value(&value) {
        return empty_scope(alloc, value);
    }
    match value {
        Value::Node(node) => Ok(Value::Node(plain(alloc, node)?)),
        Value::List(values) => {
            let values = plain_values(alloc, values.into_vec())?;
            Ok(Value::List(Values::of(values)))
        }
        leaf => Ok(leaf),
    }
}
