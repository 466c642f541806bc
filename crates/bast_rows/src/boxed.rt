ghost use Rattle.std.specs.Prelude.{◌≡◌, Some, true};
ghost use Rattle.bast_schema.specs.View.{datum, data_of};
ghost use Rattle.bast_rows.specs.Siblings.{datum_of, Counts, is_typed};
ghost use Rattle.bast_rows.specs.Boxed.{boxed_data};

use crate::siblings::{Sibling, Siblings};
use bast_schema::Value;

/// The values that are left of a node, or of a list, in a tree of nodes.
#[derive(Drop)]
pub struct Boxed<'a> {
    pub values: &'a [Value],
}

// A value as a sibling.
#[tactic(auto, using(bast_schema::proofs::Lists::count_data_of))]
fn sibling_of(value: &Value) -> Sibling<Boxed<'_>>
    ensures datum { datum_of boxed_data result ≡ datum value.now }
    ensures counts { Counts boxed_data (Some result) }
    ensures typed { is_typed boxed_data (Some result) ≡ true }
{
    match value {
        Value::Node(node) => {
            let values = node.fields();
            Sibling::Node(node.kind(), Boxed { values })
        }
        Value::Absent => Sibling::Absent,
        Value::List(values) => {
            let values = values.as_slice();
            Sibling::List(values.len(), Boxed { values })
        }
        Value::Bool(truth) => Sibling::Bool(*truth),
        Value::Index(index) => Sibling::Index(*index),
        Value::Whole(whole) => Sibling::Whole(*whole),
        Value::Name(name) => Sibling::Name(*name),
        Value::NoName => Sibling::NoName,
        Value::Choice(choice) => Sibling::Choice(*choice),
        Value::Window { from, to } => Sibling::Window {
            from: *from,
            to: *to,
        },
    }
}

impl Siblings for Boxed<'_> {
    ghost seen = { λ s. data_of s.values.now };

    fn step(&mut self) -> Option<Sibling<Self>> {
        let (first, rest) = self.values.split_first()?;
        self.values = rest;
        Some(sibling_of(first))
    }

    fn again(&self) -> Self {
        Boxed {
            values: self.values,
        }
    }
}
