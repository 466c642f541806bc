ghost use Rattle.std.specs.Prelude.{◌≡◌, ◌+◌, ◌<◌, MatchOption};
ghost use Rattle.bast_schema.specs.Counts.{size_at, size_in};
ghost use Rattle.bast_rows.specs.Siblings.{datum_of};

use crate::siblings::{Sibling, Siblings};

/// What is left of a budget after values, or `None` where there are more values than the budget.
#[cycle(left)]
pub fn left_after_siblings<S: Siblings>(values: S, budget: u32) -> Option<u32>
    ensures { MatchOption result (budget < size_in (S.seen values)) (λ left. left + size_in (S.seen values) ≡ budget) }
{
    let mut values = values;
    let mut left = budget;
    while let Some(sibling) = values.step() {
        let Some(rest) = left_after(sibling, left) else {
            return None;
        };
        left = rest;
    }
    Some(left)
}

/// What is left of a budget after a value.
#[cycle(left)]
fn left_after<S: Siblings>(sibling: Sibling<S>, budget: u32) -> Option<u32>
    ensures { MatchOption result (budget < size_at (datum_of S.seen sibling)) (λ left. left + size_at (datum_of S.seen sibling) ≡ budget) }
{
    if budget == 0 {
        return None;
    }
    match sibling {
        Sibling::Node(_, values) | Sibling::List(_, values) => left_after_siblings(
            values,
            budget - 1,
        ),
        _ => Some(budget - 1),
    }
}
