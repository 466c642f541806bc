ghost use Rattle.std.specs.Prelude.{◌≡◌, ◌+◌, ◌<◌, ◌^◌};
ghost use Rattle.bast_schema.specs.Tree.{nodes, nodes_at, nodes_in};
ghost use Rattle.bast_schema.specs.View.{datum, data_of};

use bast_schema::{Node, Value};

/// The number behind the nodes of a tree.
#[cycle(count)]
pub(crate) fn number_behind(number: u32, node: &Node) -> u32
    requires { number + nodes node.now < 2 ^ 32 }
    ensures { result ≡ number + nodes node.now }
{
    number_behind_values(number + 1, node.fields())
}

/// The number behind the nodes in values.
#[cycle(count)]
fn number_behind_values(number: u32, values: &[Value]) -> u32
    requires { number + nodes_in (data_of values.now) < 2 ^ 32 }
    ensures { result ≡ number + nodes_in (data_of values.now) }
{
    let mut next = number;
    for value in values {
        next = number_behind_value(next, value);
    }
    next
}

/// The number behind the nodes in a value.
#[cycle(count)]
fn number_behind_value(number: u32, value: &Value) -> u32
    requires { number + nodes_at (datum value.now) < 2 ^ 32 }
    ensures { result ≡ number + nodes_at (datum value.now) }
{
    match value {
        Value::Node(node) => number_behind(number, node),
        Value::List(values) => number_behind_values(number, values.as_slice()),
        _ => number,
    }
}
