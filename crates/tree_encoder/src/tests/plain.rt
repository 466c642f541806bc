// Whether a tree has a file: no window stands in it, and no lazy kind.
ghost use Rattle.std.specs.Prelude.{IsTrue};
ghost use Rattle.bast_schema.specs.Counts.{is_whole, is_whole_at, is_whole_in};
ghost use Rattle.bast_schema.specs.View.{datum, data_of};
ghost use Rattle.bast_schema.specs.Eager.{is_eager, is_eager_at, are_eager};

use bast_schema::{Node, Value, is_lazy};

#[cycle(plain)]
pub fn is_plain(node: &Node) -> bool
    ensures whole { IsTrue result → IsTrue (is_whole node.now) }
    ensures eager { IsTrue result → IsTrue (is_eager node.now) }
{
    !is_lazy(node.kind()) && are_plain(node.fields())
}

#[cycle(plain)]
fn are_plain(values: &[Value]) -> bool
    ensures whole { IsTrue result → IsTrue (is_whole_in (data_of values.now)) }
    ensures eager { IsTrue result → IsTrue (are_eager (data_of values.now)) }
{
    match values {
        [] => true,
        [first, rest @ ..] => is_plain_value(first) && are_plain(rest),
    }
}

#[cycle(plain)]
fn is_plain_value(value: &Value) -> bool
    ensures whole { IsTrue result → IsTrue (is_whole_at (datum value.now)) }
    ensures eager { IsTrue result → IsTrue (is_eager_at (datum value.now)) }
{
    match value {
        Value::Node(node) => is_plain(node),
        Value::List(values) => are_plain(values.as_slice()),
        Value::Window { .. } => false,
        _ => true,
    }
}
