//! Lists of statements, with the directives in front of them.

ghost use Rattle.std.specs.Prelude.{Ok};
ghost use Rattle.js_tree.specs.Nodes.{limited, parted, statements, with_directive};
ghost use Rattle.bast_schema.specs.View.{data_of};
ghost use Rattle.js_tree.specs.Results.{Gives};

use crate::fault::Fault;
use crate::nodes::named;
use crate::parts::Items;
use crate::run::Run;
use bast_base::NameId;
use bast_schema::{Kind, Value};
use std::alloc::Global;

/// Each item as a statement.
#[tactic(auto, using(crate::proofs::StatementLists::pushed, crate::proofs::StatementLists::all_joined))]
pub(crate) fn statements(alloc: Global, items: Items) -> Result<Run, Fault>
    ensures { Gives result (λ r. r) (Ok (statements items)) }
{
    let mut items = items;
    let mut found = Vec::new(alloc);
    while let Some(item) = items.next() {
        found.push(Value::Node(item.statement))?;
    }
    Ok(Run::of(found))
}

/// Takes off the directives, and gives their nodes.
pub(crate) fn directives(alloc: Global, items: &mut Items) -> Result<Run, Fault>
    ensures { Gives result (λ r. (r, items.new)) (parted limited items.old) }
{
    let mut found = Vec::new(alloc);
    while let Some(raw) = items.next_directive() {
        push_directive(alloc, &mut found, raw)?;
    }
    Ok(Run::of(found))
}

// Adds the node of a directive at the end.
#[tactic(auto, using(crate::proofs::StatementLists::appended))]
fn push_directive(alloc: Global, found: &mut Vec<Value>, raw: NameId) -> Result<(), Fault>
    ensures { Gives result (λ _. data_of found.new.items) (with_directive limited raw (data_of found.old.items)) }
{
    let node = named(alloc, Kind::Directive, raw)?;
    found.push(Value::Node(node))?;
    Ok(())
}
