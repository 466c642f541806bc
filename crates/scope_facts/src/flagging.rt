ghost use Rattle.std.specs.Prelude.{◌≡◌, ◌≤◌, ◌+◌, IfOk, OnOk};
ghost use Rattle.bast_schema.specs.Tree.{depth, depth_at, depth_in};
ghost use Rattle.bast_schema.specs.View.{datum, data_of};
ghost use Rattle.scope_facts.specs.Uses.{used, used_at, used_in, used_among, crossed, crossed_at, crossed_in, crossed_among, evals, evals_at, evals_in, evals_among};
ghost use Rattle.scope_facts.specs.Flagged.{flagged, flagged_at, flagged_in, flagged_among};
ghost use Rattle.scope_facts.specs.Covers.{AreWithin, Touches};

use crate::covers::{Cover, enter, functions_inside, leave, names_of_scope};
use crate::evals::is_eval_call;
use crate::flags::{flag_scope, use_node};
use crate::names::first_name_of;
use crate::roles::{is_scope_value, part_of};
use bast_base::Memory;
use bast_schema::{Node, Value, Values, put_first, rebuilt, take_first};
use std::alloc::Global;

/// A node with the flags of its scopes set, and whether a direct eval is in it. The covers of its names are told of its uses.
#[cycle(flag)]
pub(crate) fn flag_node(
    alloc: Global,
    eval: Option<u32>,
    now: u32,
    covers: &mut Vec<Option<Cover>>,
    node: Node,
) -> Result<(Node, bool), Memory>
    requires depth { now + depth node ≤ 512 }
    requires within { AreWithin now covers.old.items }
    ensures tree { IfOk result (λ r. r.0 ≡ flagged eval node) }
    ensures evals { IfOk result (λ r. r.1 ≡ evals eval node) }
    ensures covers { OnOk result (Touches (λ x. used x node) (λ x. crossed x node) now covers.old.items covers.new.items) }
{
    let (kind, fields) = node.parts();
    let part = part_of(kind);
    let called = is_eval_call(eval, part, &fields);
    use_node(covers, now, part, first_name_of(&fields))?;
    let inside = functions_inside(part, now);
    let (fields, evals) = flag_fields(alloc, eval, inside, covers, fields)?;
    Ok((rebuilt(kind, fields), called || evals))
}

/// The fields of a node with the flags of the scopes set, and whether a direct eval is in them.
#[cycle(flag)]
fn flag_fields(
    alloc: Global,
    eval: Option<u32>,
    now: u32,
    covers: &mut Vec<Option<Cover>>,
    mut fields: Vec<Value>,
) -> Result<(Vec<Value>, bool), Memory>
    requires depth { now + depth_in (data_of fields.items) ≤ 512 }
    requires within { AreWithin now covers.old.items }
    ensures fields { IfOk result (λ r. data_of r.0.items ≡ flagged_in eval (data_of fields.items)) }
    ensures evals { IfOk result (λ r. r.1 ≡ evals_in eval (data_of fields.items)) }
    ensures covers { OnOk result (Touches (λ x. used_in x (data_of fields.items)) (λ x. crossed_in x (data_of fields.items)) now covers.old.items covers.new.items) }
{
    let Some(first) = take_first(&mut fields) else {
        return Ok((fields, false));
    };
    if is_scope_value(&first) {
        let names = names_of_scope(alloc, &first)?;
        let entry = Cover {
            function: now,
            captured: false,
        };
        let shadows = enter(alloc, covers, entry, &names)?;
        let (mut rest, evals) = flag_fields(alloc, eval, now, covers, fields)?;
        let scope = flag_scope(alloc, &*covers, evals, first)?;
        leave(covers, shadows)?;
        put_first(&mut rest, scope)?;
        Ok((rest, evals))
    } else {
        let (first, called) = flag_value(alloc, eval, now, covers, first)?;
        let (mut rest, evals) = flag_fields(alloc, eval, now, covers, fields)?;
        put_first(&mut rest, first)?;
        Ok((rest, called || evals))
    }
}

/// A value with the flags of the scopes in it set, and whether a direct eval is in it.
#[cycle(flag)]
fn flag_value(
    alloc: Global,
    eval: Option<u32>,
    now: u32,
    covers: &mut Vec<Option<Cover>>,
    value: Value,
) -> Result<(Value, bool), Memory>
    requires depth { now + depth_at (datum value) ≤ 512 }
    requires within { AreWithin now covers.old.items }
    ensures value { IfOk result (λ r. datum r.0 ≡ flagged_at eval (datum value)) }
    ensures evals { IfOk result (λ r. r.1 ≡ evals_at eval (datum value)) }
    ensures covers { OnOk result (Touches (λ x. used_at x (datum value)) (λ x. crossed_at x (datum value)) now covers.old.items covers.new.items) }
{
    match value {
        Value::Node(node) => {
            let (node, evals) = flag_node(alloc, eval, now, covers, node)?;
            Ok((Value::Node(node), evals))
        }
        Value::List(values) => {
            let (values, evals) = flag_items(alloc, eval, now, covers, values.into_vec())?;
            Ok((Value::List(Values::of(values)), evals))
        }
        leaf => Ok((leaf, false)),
    }
}

/// The items of a list with the flags of the scopes in them set, and whether a direct eval is in them.
#[cycle(flag)]
fn flag_items(
    alloc: Global,
    eval: Option<u32>,
    now: u32,
    covers: &mut Vec<Option<Cover>>,
    values: Vec<Value>,
) -> Result<(Vec<Value>, bool), Memory>
    requires depth { now + depth_in (data_of values.items) ≤ 512 }
    requires within { AreWithin now covers.old.items }
    ensures items { IfOk result (λ r. data_of r.0.items ≡ flagged_among eval (data_of values.items)) }
    ensures evals { IfOk result (λ r. r.1 ≡ evals_among eval (data_of values.items)) }
    ensures covers { OnOk result (Touches (λ x. used_among x (data_of values.items)) (λ x. crossed_among x (data_of values.items)) now covers.old.items covers.new.items) }
{
    let mut done = Vec::with_capacity(alloc, values.len())?;
    let mut evals = false;
    for value in values {
        let (value, called) = flag_value(alloc, eval, now, covers, value)?;
        done.push(value)?;
        evals |= called;
    }
    Ok((done, evals))
}
