ghost use Rattle.std.specs.Prelude.{◌≡◌, ◌≤◌, ◌*◌, ◌^◌, IfOk, true};
ghost use Rattle.bast_schema.specs.View.{datum, data_of};
ghost use Rattle.bast_schema.specs.Counts.{size, size_at, size_in};
ghost use Rattle.scope_facts.specs.Uses.{is_scope};
ghost use Rattle.scope_facts.specs.Filled.{filled, filled_at, filled_in, filled_among, filled_scope};

use crate::entries::{are_simple, make_entries, make_scope_fields};
use crate::names::put_bound;
use crate::roles::{is_scope_value, scope_shape};
use bast_base::Memory;
use bast_schema::{Node, Value, Values, put_first, rebuilt, take_first};
use std::alloc::Global;

/// A scope with its entries, from the names that the values of its node bind and from what stands after it.
fn fill_scope(alloc: Global, names: &[u32], scope: Value, after: &[Value]) -> Result<Value, Memory>
    requires scope { is_scope (datum scope) ≡ true }
    requires size { size_in (data_of after.now) ≤ 2 ^ 28 }
    ensures { IfOk result (λ v. datum v ≡ filled_scope names.now (datum scope) (data_of after.now)) }
{
    match scope {
        Value::Node(node) => {
            let kind = node.kind();
            let shape = scope_shape(kind);
            let entries = make_entries(alloc, shape, names, after)?;
            let fields = make_scope_fields(alloc, shape, entries, are_simple(after))?;
            Ok(Value::Node(rebuilt(kind, fields)))
        }
        other => Ok(other),
    }
}

/// The node with the entries of its scopes, and no flag set.
#[cycle(fill)]
pub(crate) fn fill_node(alloc: Global, node: Node) -> Result<Node, Memory>
    requires { size node ≤ 2 ^ 28 }
    ensures filled { IfOk result (λ t. t ≡ filled node) }
    ensures size { IfOk result (λ t. size t ≤ 4 * size node) }
{
    let (kind, fields) = node.parts();
    let mut names = Vec::new(alloc);
    put_bound(&mut names, &fields)?;
    let fields = fill_fields(alloc, &names, fields)?;
    Ok(rebuilt(kind, fields))
}

/// The fields of a node, whose values bind these names, with the entries of its scopes.
#[cycle(fill)]
fn fill_fields(alloc: Global, names: &[u32], mut fields: Vec<Value>) -> Result<Vec<Value>, Memory>
    requires { size_in (data_of fields.items) ≤ 2 ^ 28 }
    ensures { IfOk result (λ vs. data_of vs.items ≡ filled_in names.now (data_of fields.items)) }
{
    let Some(first) = take_first(&mut fields) else {
        return Ok(fields);
    };
    let first = if is_scope_value(&first) {
        fill_scope(alloc, names, first, &fields)?
    } else {
        fill_value(alloc, first)?
    };
    let mut rest = fill_fields(alloc, names, fields)?;
    put_first(&mut rest, first)?;
    Ok(rest)
}

/// A value with the entries of the scopes below it.
#[cycle(fill)]
fn fill_value(alloc: Global, value: Value) -> Result<Value, Memory>
    requires { size_at (datum value) ≤ 2 ^ 28 }
    ensures { IfOk result (λ v. datum v ≡ filled_at (datum value)) }
{
    match value {
        Value::Node(node) => Ok(Value::Node(fill_node(alloc, node)?)),
        Value::List(values) => {
            let values = fill_items(alloc, values.into_vec())?;
            Ok(Value::List(Values::of(values)))
        }
        leaf => Ok(leaf),
    }
}

/// The items of a list with the entries of the scopes below them.
#[cycle(fill)]
fn fill_items(alloc: Global, values: Vec<Value>) -> Result<Vec<Value>, Memory>
    requires { size_in (data_of values.items) ≤ 2 ^ 28 }
    ensures { IfOk result (λ vs. data_of vs.items ≡ filled_among (data_of values.items)) }
{
    let mut done = Vec::with_capacity(alloc, values.len())?;
    for value in values {
        done.push(fill_value(alloc, value)?)?;
    }
    Ok(done)
}
