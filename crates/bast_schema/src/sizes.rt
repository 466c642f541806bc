ghost use Rattle.std.specs.Prelude.{◌≡◌, ◌+◌, ◌<◌, MatchOption};
ghost use Rattle.bast_schema.specs.Counts.{size, size_at, size_in};
ghost use Rattle.bast_schema.specs.View.{datum, data_of};

use crate::node::{Node, Value};

/// What is left of a budget after the values of a tree, or `None` where the tree has more values than the budget.
///
/// The size of a tree is the number of its values, the root and every node among them. It takes no memory, and time in
/// proportion to the budget at most.
#[cycle(size)]
pub fn values_left(tree: &Node, budget: u32) -> Option<u32>
    ensures { MatchOption result (budget < size tree.now) (λ left. left + size tree.now ≡ budget) }
{
    if budget == 0 {
        return None;
    }
    left_after_all(tree.fields(), budget - 1)
}

/// What is left of a budget after values.
#[cycle(size)]
fn left_after_all(values: &[Value], budget: u32) -> Option<u32>
    ensures { MatchOption result (budget < size_in (data_of values.now)) (λ left. left + size_in (data_of values.now) ≡ budget) }
{
    let mut left = budget;
    for value in values {
        let Some(rest) = left_after(value, left) else {
            return None;
        };
        left = rest;
    }
    Some(left)
}

/// What is left of a budget after a value.
#[cycle(size)]
fn left_after(value: &Value, budget: u32) -> Option<u32>
    ensures { MatchOption result (budget < size_at (datum value.now)) (λ left. left + size_at (datum value.now) ≡ budget) }
{
    match value {
        Value::Node(node) => values_left(node, budget),
        Value::List(values) => {
            if budget == 0 {
                None
            } else {
                left_after_all(values.as_slice(), budget - 1)
            }
        }
        _ => { if budget == 0 { None } else { Some(budget - 1) } }
    }
}
