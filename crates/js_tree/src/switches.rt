//! The clauses of a `switch`.

ghost use Rattle.std.specs.Prelude.{◌≡◌, Ok};
ghost use Rattle.bast_schema.specs.Counts.{join};
ghost use Rattle.bast_schema.specs.View.{datum, data_of};
ghost use Rattle.js_tree.specs.Finishes.{at_default, before_default, from_default, is_default, switch_of};
ghost use Rattle.js_tree.specs.Nodes.{limited};
ghost use Rattle.js_tree.specs.Results.{Gives};

use crate::fault::Fault;
use crate::nodes::{make, two};
use crate::run::Run;
use bast_schema::{Kind, Node, Value, Values, number_of};
use std::alloc::Global;

/// A `switch` of the values before its clauses, and the clauses.
pub(crate) fn switch(alloc: Global, held: Run, clauses: Run) -> Result<Node, Fault>
    ensures { Gives result (λ t. t) (switch_of limited held (before_default clauses) (from_default clauses)) }
{
    let mut from = clauses;
    let before = before_default(alloc, &mut from)?;
    let before = Value::List(Values::of(before.into_vec()));
    let mut fields = held;
    match from.next() {
        None => {
            fields.add(before)?;
            make(Kind::SwitchStatement, fields)
        }
        Some(default) => {
            let mut behind = two(alloc, default, Value::List(Values::of(from.into_vec())))?;
            behind.put(before)?;
            fields.join(behind)?;
            make(Kind::SwitchStatementWithDefault, fields)
        }
    }
}

// Takes off the clauses before `default`.
#[tactic(auto, using(crate::proofs::StatementLists::pushed, crate::proofs::StatementLists::all_joined))]
fn before_default(alloc: Global, clauses: &mut Run) -> Result<Run, Fault>
    ensures { Gives result (λ r. (r, clauses.new)) (Ok (at_default clauses.old)) }
{
    let mut found = Vec::new(alloc);
    while let Some(clause) = clauses.next() {
        if is_default(&clause) {
            clauses.put(clause)?;
            return Ok(Run::of(found));
        }
        found.push(clause)?;
    }
    Ok(Run::of(found))
}

fn is_default(clause: &Value) -> bool
    ensures { result ≡ is_default (datum clause.now) }
{
    match clause {
        Value::Node(node) => number_of(node.kind()) == number_of(Kind::SwitchDefault),
        _ => false,
    }
}
