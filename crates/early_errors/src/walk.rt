ghost use Rattle.std.specs.Prelude.{◌≡◌, ◌<◌, ◌≤◌, ◌+◌, ◌^◌, IfOk, filter_map};
ghost use Rattle.bast_schema.specs.Counts.{size};
ghost use Rattle.bast_schema.specs.Tree.{nodes, nodes_in, nodes_at};
ghost use Rattle.bast_schema.specs.View.{datum, data_of};
ghost use Rattle.early_errors.specs.Around.{Around};
ghost use Rattle.early_errors.specs.Early.{violation, broken, early_rules, early, first};
ghost use Rattle.early_errors.specs.Least.{least, least_at, least_in, told};

use crate::around::{
    Flags, Label, first_place, flags_of_parts, flags_of_place, is_label_of, labels_of_place,
    more_labels, rest_of_places, start_flags,
};
use crate::chosen::chosen_for;
use crate::kinds::{Place, places_of, role_of};
use crate::known::{KnownTexts, facts_of_all};
use crate::rules::{Finding, saying};
use bast_base::{Memory, NameId};
use bast_schema::{Node, Value};
use scope_facts::{Ctx, Rule, Violation};
use std::alloc::Global;
use string_table::StringTable;

/// The first violation, or the number behind a walk without one.
#[derive(Clone, Copy)]
pub enum Step {
    Found(Violation),
    Next(u32),
}

/// The violation at a node that a rule finds.
fn violation_of(number: u32, rule: Rule, finding: Finding) -> Option<Violation>
    ensures { result ≡ violation number rule finding }
{
    match finding {
        Finding::Broken(name) => Some(Violation {
            node: number,
            rule,
            name: match name {
                Some(name) => Some(NameId(name)),
                None => None,
            },
        }),
        Finding::Holds => None,
    }
}

/// What a rule finds at a node, as a violation.
fn broken_by(
    alloc: Global,
    texts: &KnownTexts<'_>,
    rule: Rule,
    node: &Node,
    flags: Flags,
    labels: &[Label],
    number: u32,
) -> Result<Option<Violation>, Memory>
    ensures { IfOk result (λ r. r ≡ broken texts.now number (record { flags = flags; labels = labels.now }) node.now rule) }
{
    let finding = saying(
        alloc,
        rule,
        texts,
        flags,
        labels,
        role_of(node.kind()),
        node.fields(),
    )?;
    Ok(violation_of(number, rule, finding))
}

/// The first violation of these rules at a node.
fn first_of_rules(
    alloc: Global,
    texts: &KnownTexts<'_>,
    order: &[Rule],
    node: &Node,
    flags: Flags,
    labels: &[Label],
    number: u32,
) -> Result<Option<Violation>, Memory>
    ensures { IfOk result (λ r. r ≡ first (filter_map (broken texts.now number (record { flags = flags; labels = labels.now }) node.now) order.now)) }
{
    for rule in order {
        if let Some(violation) = broken_by(alloc, texts, *rule, node, flags, labels, number)? {
            return Ok(Some(violation));
        }
    }
    Ok(None)
}

/// The first violation at a node.
fn first_at(
    alloc: Global,
    texts: &KnownTexts<'_>,
    node: &Node,
    flags: Flags,
    labels: &[Label],
    number: u32,
) -> Result<Option<Violation>, Memory>
    ensures { IfOk result (λ r. r ≡ first (filter_map (broken texts.now number (record { flags = flags; labels = labels.now }) node.now) early_rules)) }
{
    let chosen = chosen_for(role_of(node.kind()));
    first_of_rules(alloc, texts, chosen, node, flags, labels, number)
}

/// The first violation at a node or below it.
#[cycle(walk)]
fn walk_node(
    alloc: Global,
    texts: &KnownTexts<'_>,
    node: &Node,
    flags: Flags,
    labels: &[Label],
    number: u32,
) -> Result<Step, Memory>
    requires { number + nodes node.now < 2 ^ 32 }
    ensures { IfOk result (λ r. r ≡ told (least texts.now (record { flags = flags; labels = labels.now }) number node.now) (number + nodes node.now)) }
{
    if let Some(violation) = first_at(alloc, texts, node, flags, labels, number)? {
        return Ok(Step::Found(violation));
    }
    let role = role_of(node.kind());
    let fields = node.fields();
    let places = places_of(node.kind());
    let flags = flags_of_parts(texts, role, fields, flags);
    if is_label_of(role) {
        let labels = more_labels(alloc, fields, labels)?;
        walk_values(alloc, texts, fields, places, flags, &labels, number + 1)
    } else {
        walk_values(alloc, texts, fields, places, flags, labels, number + 1)
    }
}

/// The first violation in the fields of a node, or in the items of a list.
#[cycle(walk)]
fn walk_values(
    alloc: Global,
    texts: &KnownTexts<'_>,
    values: &[Value],
    places: &[Place],
    flags: Flags,
    labels: &[Label],
    number: u32,
) -> Result<Step, Memory>
    requires { number + nodes_in (data_of values.now) < 2 ^ 32 }
    ensures { IfOk result (λ r. r ≡ told (least_in texts.now places.now (record { flags = flags; labels = labels.now }) number (data_of values.now)) (number + nodes_in (data_of values.now))) }
{
    let mut next = number;
    let mut left = places;
    for value in values {
        let place = first_place(left);
        left = rest_of_places(left);
        match walk_value(
            alloc,
            texts,
            value,
            flags_of_place(place, flags),
            labels_of_place(place, labels),
            next,
        )? {
            Step::Found(violation) => return Ok(Step::Found(violation)),
            Step::Next(number) => next = number,
        }
    }
    Ok(Step::Next(next))
}

/// The first violation in a value.
#[cycle(walk)]
fn walk_value(
    alloc: Global,
    texts: &KnownTexts<'_>,
    value: &Value,
    flags: Flags,
    labels: &[Label],
    number: u32,
) -> Result<Step, Memory>
    requires { number + nodes_at (datum value.now) < 2 ^ 32 }
    ensures { IfOk result (λ r. r ≡ told (least_at texts.now (record { flags = flags; labels = labels.now }) number (datum value.now)) (number + nodes_at (datum value.now))) }
{
    match value {
        Value::Node(node) => walk_node(alloc, texts, node, flags, labels, number),
        Value::List(values) => walk_values(
            alloc,
            texts,
            values.as_slice(),
            &[],
            flags,
            labels,
            number,
        ),
        _ => Ok(Step::Next(number)),
    }
}

/// The first violation of a whole tree.
fn first_violation(
    alloc: Global,
    tree: &Node,
    ctx: &Ctx,
    texts: &KnownTexts<'_>,
) -> Result<Option<Violation>, Memory>
    requires { size tree.now ≤ 2 ^ 30 }
    ensures { IfOk result (λ r. r ≡ first (early texts.now ctx.now tree.now)) }
{
    match walk_node(alloc, texts, tree, start_flags(ctx), &[], 0)? {
        Step::Found(violation) => Ok(Some(violation)),
        Step::Next(_) => Ok(None),
    }
}

/// The first early error of a script, or of the contents of a function in the context that the function gives them.
///
/// The nodes are numbered in preorder from 0, absent nodes and windows not counted. At a node the rules go in order, and
/// nodes by number; names are compared by their numbers in the table. A name that the table has no text for is no
/// identifier, and a raw text that it has none for can't be spelled. A window is not looked into.
///
/// The time is about linear in the sizes of the tree and the table: each text is looked through once, wherever its name stands.
/// But the statements of a block with lexical names, of a catch clause and of a loop with lexical names are looked through once
/// more for each of these that stands around.
pub fn first_early(
    alloc: Global,
    tree: &Node,
    ctx: &Ctx,
    strings: &StringTable,
) -> Result<Option<Violation>, Memory>
    requires { size tree.now ≤ 2 ^ 30 }
    ensures { IfOk result (λ r. r ≡ first (early strings.now ctx.now tree.now)) }
{
    let facts = facts_of_all(alloc, strings)?;
    let texts = KnownTexts::of(strings, &facts);
    first_violation(alloc, tree, ctx, &texts)
}
