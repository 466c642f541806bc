// How many values a tree has, counted off a budget.
ghost use Rattle.std.specs.Prelude.{◌≡◌, ◌+◌, IfSome, true};
ghost use Rattle.bast_schema.specs.Counts.{is_whole, is_whole_at, is_whole_in, size, size_at, size_in};
ghost use Rattle.bast_schema.specs.View.{datum, data_of};

use bast_schema::{Node, Value};

/// What is left of a budget after the values of a tree without windows.
#[cycle(budget)]
pub fn left_after(node: &Node, budget: u32) -> Option<u32>
    ensures left { IfSome result (λ left. left + size node.now ≡ budget) }
    ensures whole { IfSome result (λ left. is_whole node.now ≡ true) }
{
    if budget == 0 {
        return None;
    }
    left_after_all(node.fields(), budget - 1)
}

/// What is left of a budget after values.
#[cycle(budget)]
fn left_after_all(values: &[Value], budget: u32) -> Option<u32>
    ensures left { IfSome result (λ left. left + size_in (data_of values.now) ≡ budget) }
    ensures whole { IfSome result (λ left. is_whole_in (data_of values.now) ≡ true) }
{
    match values {
        [] => Some(budget),
        [first, rest @ ..] => match left_after_value(first, budget) {
            Some(left) => left_after_all(rest, left),
            None => None,
        },
    }
}

/// What is left of a budget after a value.
#[cycle(budget)]
fn left_after_value(value: &Value, budget: u32) -> Option<u32>
    ensures left { IfSome result (λ left. left + size_at (datum value.now) ≡ budget) }
    ensures whole { IfSome result (λ left. is_whole_at (datum value.now) ≡ true) }
{
    match value {
        Value::Node(node) => left_after(node, budget),
        Value::List(values) => {
            if budget == 0 {
                None
            } else {
                left_after_all(values.as_slice(), budget - 1)
            }
        }
        Value::Window { .. } => None,
        _ => { if budget == 0 { None } else { Some(budget - 1) } }
    }
}
