ghost use Rattle.std.specs.Prelude.{◌≡◌, ◌≤◌, Some, true, IfOk};
ghost use Rattle.bast_schema.specs.Tree.{branch, depth, depth_at, depth_in, typed};
ghost use Rattle.bast_schema.specs.View.{datum, data_of};
ghost use Rattle.bast_rows.specs.Siblings.{datum_of, is_typed};

use crate::siblings::{Sibling, Siblings};
use bast_base::Memory;
use bast_schema::{Kind, Node, Value, Values, fields_of};
use std::alloc::Global;

/// The node of a kind with these values.
#[cycle(make)]
pub(crate) fn make_node<S: Siblings>(alloc: Global, kind: Kind, values: S) -> Result<Node, Memory>
    requires typed { typed (branch kind (S.seen values)) ≡ true }
    requires depth { depth (branch kind (S.seen values)) ≤ 512 }
    ensures { IfOk result (λ node. node ≡ branch kind (S.seen values)) }
{
    let fields = make_values(alloc, fields_of(kind).len(), values)?;
    match Node::new(kind, fields) {
        Ok(node) => Ok(node),
        Err(_) => unreachable!(),
    }
}

#[cycle(make)]
fn make_values<S: Siblings>(alloc: Global, count: usize, values: S) -> Result<Vec<Value>, Memory>
    requires depth { depth_in (S.seen values) ≤ 512 }
    ensures { IfOk result (λ made. data_of made.items ≡ S.seen values) }
{
    let mut made = Vec::with_capacity(alloc, count)?;
    let mut values = values;
    while let Some(sibling) = values.step() {
        made.push(make_value(alloc, sibling)?)?;
    }
    Ok(made)
}

#[cycle(make)]
fn make_value<S: Siblings>(alloc: Global, sibling: Sibling<S>) -> Result<Value, Memory>
    requires typed { is_typed S.seen (Some sibling) ≡ true }
    requires depth { depth_at (datum_of S.seen sibling) ≤ 512 }
    ensures { IfOk result (λ value. datum value ≡ datum_of S.seen sibling) }
{
    match sibling {
        Sibling::Node(kind, values) => Ok(Value::Node(make_node(alloc, kind, values)?)),
        Sibling::Absent => Ok(Value::Absent),
        Sibling::List(count, values) => {
            Ok(Value::List(Values::of(make_values(alloc, count, values)?)))
        }
        Sibling::Bool(truth) => Ok(Value::Bool(truth)),
        Sibling::Index(index) => Ok(Value::Index(index)),
        Sibling::Whole(whole) => Ok(Value::Whole(whole)),
        Sibling::Name(name) => Ok(Value::Name(name)),
        Sibling::NoName => Ok(Value::NoName),
        Sibling::Choice(choice) => Ok(Value::Choice(choice)),
        Sibling::Window { from, to } => Ok(Value::Window { from, to }),
    }
}
