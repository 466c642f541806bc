// The first node of a lazy kind, of which no file may have one yet.
ghost use Rattle.std.specs.Prelude.{◌≡◌, ◌<◌, ◌+◌, ◌^◌};
ghost use Rattle.bast_schema.specs.Tree.{nodes, nodes_at, nodes_in};
ghost use Rattle.bast_schema.specs.View.{datum, data_of};
ghost use Rattle.tree_decoder.specs.LazyKinds.{is_eager_kind, first_lazy, kinds_of, kinds_at, kinds_in, walked};

use bast_schema::{Kind, Node, Value};

// The number, in preorder from 0, of the first node of a lazy kind.
pub(crate) fn first_lazy_of(tree: &Node) -> Option<u32>
    requires { nodes tree.now < 2 ^ 32 }
    ensures { result ≡ first_lazy tree.now }
{
    match walk_node(tree, 0) {
        Ok(_) => None,
        Err(other) => Some(other),
    }
}

// Each walk is given the number of its first node. It answers the number behind its last one, or as an error the number
// of the first node of a lazy kind, so that `?` ends all the walks around it at once.
#[cycle(lazy_kinds)]
fn walk_node(node: &Node, number: u32) -> Result<u32, u32>
    requires { number + nodes node.now < 2 ^ 32 }
    ensures { result ≡ walked number (kinds_of node.now) }
{
    if is_eager_kind(node.kind()) {
        walk_values(node.fields(), number + 1)
    } else {
        Err(number)
    }
}

#[cycle(lazy_kinds)]
fn walk_values(values: &[Value], number: u32) -> Result<u32, u32>
    requires { number + nodes_in (data_of values.now) < 2 ^ 32 }
    ensures { result ≡ walked number (kinds_in (data_of values.now)) }
{
    let mut next = number;
    for value in values {
        next = walk_value(value, next)?;
    }
    Ok(next)
}

// A value that holds no node takes no number.
#[cycle(lazy_kinds)]
fn walk_value(value: &Value, number: u32) -> Result<u32, u32>
    requires { number + nodes_at (datum value.now) < 2 ^ 32 }
    ensures { result ≡ walked number (kinds_at (datum value.now)) }
{
    match value {
        Value::Node(node) => walk_node(node, number),
        Value::List(values) => walk_values(values.as_slice(), number),
        _ => Ok(number),
    }
}

// Whether it is no lazy kind.
fn is_eager_kind(kind: Kind) -> bool
    ensures { result ≡ is_eager_kind kind }
{
    !matches!(
        kind,
        Kind::LazyFunctionDeclaration
            | Kind::LazyFunctionExpression
            | Kind::LazyMethod
            | Kind::LazyGetter
            | Kind::LazySetter
    )
}
