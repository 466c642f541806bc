ghost use Rattle.std.specs.Prelude.{◌≡◌, ◌<◌, ◌≤◌, ◌+◌, ◌^◌, ℕ, IfOk, OnOk, true, None};
ghost use Rattle.bast_schema.specs.Counts.{size, size_at, size_in};
ghost use Rattle.bast_schema.specs.Tree.{child, more, nodes, nodes_in, nodes_at, kind_of, values_of};
ghost use Rattle.bast_schema.specs.View.{datum, data_of};
ghost use Rattle.scope_facts.specs.Roles.{part};
ghost use Rattle.scope_facts.specs.Covers.{cover_of};
ghost use Rattle.scope_facts.specs.Uses.{is_scope};
ghost use Rattle.scope_check.specs.Covers.{is_fine};
ghost use Rattle.scope_check.specs.Least.{is_fine_use, cover_start, least_own, least, least_at, least_in, least_among, told_step};
ghost use Rattle.scope_check.specs.Untrue.{violation, entries_rule, untrue_scope, untrue, first, all_tell};

use crate::covers::{enter, facts_of_scope};
use crate::entries::judge_scope;
use crate::evals::tells_eval_too;
use crate::finding::Finding;
use crate::numbers::number_behind;
use bast_base::{Memory, NameId};
use bast_schema::{Node, Value};
use scope_facts::{
    Cover, Ctx, Part, Rule, ScopeFacts, Shape, Violation, find_cover, first_name_of,
    functions_inside, is_eval_call, is_scope_value, leave, name_of_eval, part_of, scope_shape,
    with_bound,
};
use std::alloc::Global;
use string_table::StringTable;

/// The first violation, or the number behind a walk without one.
#[derive(Clone, Copy)]
pub enum Step {
    Found(Violation),
    Next(u32),
}

/// A violation.
fn violation_of(number: u32, rule: Rule, name: Option<u32>) -> Violation
    ensures { result ≡ violation number rule name }
{
    Violation {
        node: number,
        rule,
        name: match name {
            Some(name) => Some(NameId(name)),
            None => None,
        },
    }
}

/// Whether a use inside so many functions may find an entry.
fn is_fine_cover(now: u32, cover: Option<Cover>) -> bool
    ensures { result ≡ is_fine now cover }
{
    match cover {
        Some(cover) => cover.captured || cover.function >= now,
        None => true,
    }
}

/// Whether a node is no use of a name whose nearest declaration it may not find.
fn is_fine_here(covers: &[Option<Cover>], now: u32, part: Part, name: Option<u32>) -> bool
    ensures { result ≡ is_fine_use (cover_of covers.now) now part name }
{
    match part {
        Part::Use => match name {
            Some(name) => is_fine_cover(now, find_cover(covers, name)),
            None => true,
        },
        _ => true,
    }
}

/// The violation at a node itself.
fn own_violation(
    eval: Option<u32>,
    covers: &[Option<Cover>],
    now: u32,
    told: bool,
    number: u32,
    node: &Node,
) -> Option<Violation>
    ensures { result ≡ least_own eval (cover_of covers.now) now told number (kind_of node.now) (values_of node.now) }
{
    let part = part_of(node.kind());
    let fields = node.fields();
    let name = first_name_of(fields);
    if !is_fine_here(covers, now, part, name) {
        return Some(violation_of(number, Rule::A2, name));
    }
    if is_eval_call(eval, part, fields) && !told {
        return Some(violation_of(number, Rule::A3, eval));
    }
    None
}

/// The rule on the entries of a scope of a shape.
fn rule_of_entries(shape: Shape) -> Rule
    ensures { result ≡ entries_rule shape }
{
    match shape {
        Shape::Parameters => Rule::A4,
        Shape::BoundName => Rule::A5,
        _ => Rule::A1,
    }
}

/// The violation at a scope.
fn scope_violation(
    alloc: Global,
    number: u32,
    names: &[u32],
    scope: &Node,
    after: &[Value],
) -> Result<Option<Violation>, Memory>
    requires { size_in (data_of after.now) ≤ 2 ^ 30 }
    ensures { IfOk result (λ r. r ≡ first (untrue_scope number names.now (child scope.now) (data_of after.now))) }
{
    match judge_scope(alloc, scope, names, after)? {
        Finding::Fine => Ok(None),
        Finding::Wrong(name) => {
            let rule = rule_of_entries(scope_shape(scope.kind()));
            Ok(Some(violation_of(number, rule, name)))
        }
    }
}

/// The first violation at a node or below it.
#[cycle(walk)]
fn walk_node(
    alloc: Global,
    eval: Option<u32>,
    covers: &mut Vec<Option<Cover>>,
    now: u32,
    told: bool,
    number: u32,
    node: &Node,
) -> Result<Step, Memory>
    requires functions { now ≤ number }
    requires numbers { number + nodes node.now < 2 ^ 32 }
    requires size { size node.now ≤ 2 ^ 30 }
    ensures step { IfOk result (λ r. r ≡ told_step (least eval (cover_of covers.old.items) now told number node.now) (number + nodes node.now)) }
    ensures covers { OnOk result ((x : ℕ) → cover_of covers.new.items x ≡ cover_of covers.old.items x) }
{
    if let Some(violation) = own_violation(eval, &*covers, now, told, number, node) {
        return Ok(Step::Found(violation));
    }
    let fields = node.fields();
    let inside = functions_inside(part_of(node.kind()), now);
    let names = with_bound(Vec::new(alloc), fields)?;
    walk_fields(
        alloc,
        eval,
        covers,
        inside,
        told,
        &names,
        number + 1,
        fields,
    )
}

/// The first violation in the fields of a node whose values bind these names.
#[cycle(walk)]
fn walk_fields(
    alloc: Global,
    eval: Option<u32>,
    covers: &mut Vec<Option<Cover>>,
    now: u32,
    told: bool,
    names: &[u32],
    number: u32,
    fields: &[Value],
) -> Result<Step, Memory>
    requires functions { now ≤ number }
    requires numbers { number + nodes_in (data_of fields.now) < 2 ^ 32 }
    requires size { size_in (data_of fields.now) ≤ 2 ^ 30 }
    ensures step { IfOk result (λ r. r ≡ told_step (least_in eval (cover_of covers.old.items) now told names.now number (data_of fields.now)) (number + nodes_in (data_of fields.now))) }
    ensures covers { OnOk result ((x : ℕ) → cover_of covers.new.items x ≡ cover_of covers.old.items x) }
{
    match fields {
        [] => Ok(Step::Next(number)),
        [first, rest @ ..] => {
            if is_scope_value(first) {
                walk_scope(alloc, eval, covers, now, told, names, number, first, rest)
            } else {
                match walk_value(alloc, eval, covers, now, told, number, first)? {
                    Step::Found(violation) => Ok(Step::Found(violation)),
                    Step::Next(next) => {
                        walk_fields(alloc, eval, covers, now, told, names, next, rest)
                    }
                }
            }
        }
    }
}

/// The first violation at a scope, or in what stands after it in its node.
#[cycle(walk)]
fn walk_scope(
    alloc: Global,
    eval: Option<u32>,
    covers: &mut Vec<Option<Cover>>,
    now: u32,
    told: bool,
    names: &[u32],
    number: u32,
    scope: &Value,
    after: &[Value],
) -> Result<Step, Memory>
    requires scope { is_scope (datum scope.now) ≡ true }
    requires functions { now ≤ number }
    requires numbers { number + nodes_at (datum scope.now) + nodes_in (data_of after.now) < 2 ^ 32 }
    requires size { size_in (data_of after.now) ≤ 2 ^ 30 }
    ensures step { IfOk result (λ r. r ≡ told_step (least_in eval (cover_of covers.old.items) now told names.now number (more (datum scope.now) (data_of after.now))) (number + nodes_at (datum scope.now) + nodes_in (data_of after.now))) }
    ensures covers { OnOk result ((x : ℕ) → cover_of covers.new.items x ≡ cover_of covers.old.items x) }
{
    let Value::Node(node) = scope else {
        return Ok(Step::Next(number));
    };
    if let Some(violation) = scope_violation(alloc, number, names, node, after)? {
        return Ok(Step::Found(violation));
    }
    let next = number_behind(number, node);
    let told = tells_eval_too(told, node);
    let facts = facts_of_scope(alloc, node)?;
    let shadows = enter(alloc, covers, now, &facts)?;
    let step = walk_fields(alloc, eval, covers, now, told, names, next, after)?;
    leave(covers, shadows)?;
    Ok(step)
}

/// The first violation in a value.
#[cycle(walk)]
fn walk_value(
    alloc: Global,
    eval: Option<u32>,
    covers: &mut Vec<Option<Cover>>,
    now: u32,
    told: bool,
    number: u32,
    value: &Value,
) -> Result<Step, Memory>
    requires functions { now ≤ number }
    requires numbers { number + nodes_at (datum value.now) < 2 ^ 32 }
    requires size { size_at (datum value.now) ≤ 2 ^ 30 }
    ensures step { IfOk result (λ r. r ≡ told_step (least_at eval (cover_of covers.old.items) now told number (datum value.now)) (number + nodes_at (datum value.now))) }
    ensures covers { OnOk result ((x : ℕ) → cover_of covers.new.items x ≡ cover_of covers.old.items x) }
{
    match value {
        Value::Node(node) => walk_node(alloc, eval, covers, now, told, number, node),
        Value::List(values) => {
            walk_items(alloc, eval, covers, now, told, number, values.as_slice())
        }
        _ => Ok(Step::Next(number)),
    }
}

/// The first violation in the items of a list.
#[cycle(walk)]
fn walk_items(
    alloc: Global,
    eval: Option<u32>,
    covers: &mut Vec<Option<Cover>>,
    now: u32,
    told: bool,
    number: u32,
    values: &[Value],
) -> Result<Step, Memory>
    requires functions { now ≤ number }
    requires numbers { number + nodes_in (data_of values.now) < 2 ^ 32 }
    requires size { size_in (data_of values.now) ≤ 2 ^ 30 }
    ensures step { IfOk result (λ r. r ≡ told_step (least_among eval (cover_of covers.old.items) now told number (data_of values.now)) (number + nodes_in (data_of values.now))) }
    ensures covers { OnOk result ((x : ℕ) → cover_of covers.new.items x ≡ cover_of covers.old.items x) }
{
    let mut next = number;
    for value in values {
        match walk_value(alloc, eval, covers, now, told, next, value)? {
            Step::Found(violation) => return Ok(Step::Found(violation)),
            Step::Next(number) => next = number,
        }
    }
    Ok(Step::Next(next))
}

/// Whether all scopes of a context tell a direct eval.
fn all_tell_eval(scopes: &[ScopeFacts]) -> bool
    ensures { result ≡ all_tell scopes.now }
{
    for scope in scopes {
        if !scope.direct_eval {
            return false;
        }
    }
    true
}

/// What covers the names in a context.
fn start_covers(alloc: Global, scopes: &[ScopeFacts]) -> Result<Vec<Option<Cover>>, Memory>
    ensures { IfOk result (λ r. (x : ℕ) → cover_of r.items x ≡ cover_start scopes.now x None) }
{
    let mut covers = Vec::new(alloc);
    for scope in scopes {
        enter(alloc, &mut covers, 0, scope.names.as_slice())?;
    }
    Ok(covers)
}

/// The first violation of the rules on what scopes say.
///
/// A scope has to have an entry for each name that it declares and no other; a use inside a function has to find its
/// nearest declaration captured where that is outside the function; and each scope around a direct eval has to tell it.
/// The nodes are numbered in preorder from 0, absent nodes and windows not counted, and the first violation is that at
/// the least number. Names are compared by their numbers in the table. Around the tree are the scopes of the context. A
/// window is not looked into, and nothing inside a scope is judged but its entries.
pub fn first_untrue(
    alloc: Global,
    tree: &Node,
    ctx: &Ctx,
    strings: &StringTable,
) -> Result<Option<Violation>, Memory>
    requires { size tree.now ≤ 2 ^ 30 }
    ensures { IfOk result (λ r. r ≡ first (untrue strings.now ctx.now tree.now)) }
{
    let scopes = ctx.scopes.as_slice();
    let mut covers = start_covers(alloc, scopes)?;
    let eval = name_of_eval(strings);
    match walk_node(alloc, eval, &mut covers, 0, all_tell_eval(scopes), 0, tree)? {
        Step::Found(violation) => Ok(Some(violation)),
        Step::Next(_) => Ok(None),
    }
}
