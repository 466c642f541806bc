ghost use Rattle.std.specs.Prelude.{◌≡◌, MatchOption, OnErr, OnOk, Ok};
ghost use Rattle.bast_schema.specs.View.{datum, data_of};
ghost use Rattle.bast_schema.specs.Tree.{branch, none, more};
ghost use Rattle.bast_schema.specs.Made.{node_of};

use crate::kind::Kind;
use crate::node::{Node, Value};
use bast_base::Memory;

/// Takes the first of the values of a node, in time linear in their number.
pub fn take_first(values: &mut Vec<Value>) -> Option<Value>
    ensures { MatchOption result ((data_of values.old.items ≡ none) × (data_of values.new.items ≡ none)) (λ v. data_of values.old.items ≡ more (datum v) (data_of values.new.items)) }
{
    if values.is_empty() {
        None
    } else {
        Some(values.remove(0))
    }
}

/// Puts a value before the values of a node, in time linear in their number.
pub fn put_first(values: &mut Vec<Value>, value: Value) -> Result<(), Memory>
    ensures first { OnOk result (data_of values.new.items ≡ more (datum value) (data_of values.old.items)) }
    ensures unchanged { OnErr result (values.new.items ≡ values.old.items) }
{
    values.insert(0, value)?;
    Ok(())
}

/// The node of a kind with fields that are as they have to be. It takes no memory.
pub fn rebuilt(kind: Kind, fields: Vec<Value>) -> Node
    requires { node_of kind (data_of fields.items) ≡ Ok (branch kind (data_of fields.items)) }
    ensures { result ≡ branch kind (data_of fields.items) }
{
    match Node::new(kind, fields) {
        Ok(node) => node,
        Err(_) => unreachable!(),
    }
}
