//! The tree of a whole derivation.

ghost use Rattle.std.specs.Prelude.{◌≡◌, reverse, true};
ghost use Rattle.js_tree.specs.Image.{event_part, image, leaf_part, root, row_part, tree_of};
ghost use Rattle.js_tree.specs.Nodes.{limited};
ghost use Rattle.js_tree.specs.Recipes.{no_endings, one_symbol, operand_with_tail, recipe};
ghost use Rattle.js_tree.specs.Results.{Gives};

use crate::fault::Fault;
use crate::finishes::finish;
use crate::leaf::Leaf;
use crate::parts::{Endings, Part, Parts};
use crate::recipes::{finish_of, steps_of};
use crate::steps::gather;
use bast_schema::{Node, Value};
use js_grammar::RowId;
use js_machine::Event;
use std::alloc::Global;

/// The tree of the steps of a derivation, with what it needs of the tokens that they take, in their order.
///
/// `Broken` comes where the steps are no derivation of a script from that many tokens, and `TooDeep` where a node would be
/// more than 512 deep.
#[tactic(auto, unfolding(crate::specs::Image::tree_of))]
pub fn build_tree(alloc: Global, events: &[Event], leaves: Vec<Leaf>) -> Result<Node, Fault>
    ensures { Gives result (λ t. t) (tree_of limited leaves.items events.now) }
{
    let mut leaves = leaves;
    let parts = build(alloc, events, &mut leaves)?;
    only_node(parts)
}

// The node that is alone.
fn only_node(parts: Parts) -> Result<Node, Fault>
    ensures { Gives result (λ t. t) (root parts) }
{
    let mut parts = parts;
    let (values, _raw) = parts.values()?;
    if !parts.is_empty() {
        return Err(Fault::Broken);
    }
    match values.only()? {
        Value::Node(node) => Ok(node),
        _ => Err(Fault::Broken),
    }
}

// What the steps stand for, built from the last to the first.
fn build(alloc: Global, events: &[Event], leaves: &mut Vec<Leaf>) -> Result<Parts, Fault>
    ensures { Gives result (λ p. (reverse leaves.new.items, p)) (image limited (reverse leaves.old.items) events.now) }
{
    let mut parts = Parts::new(alloc);
    let mut left = events.len();
    while left > 0 {
        left -= 1;
        build_event(alloc, events[left], leaves, &mut parts)?;
    }
    Ok(parts)
}

fn build_event(
    alloc: Global,
    event: Event,
    leaves: &mut Vec<Leaf>,
    parts: &mut Parts,
) -> Result<(), Fault>
    ensures { Gives result (λ _. (reverse leaves.new.items, parts.new)) (event_part limited event (reverse leaves.old.items, parts.old)) }
{
    match event {
        Event::Row(row) => build_row(alloc, row, parts),
        Event::Took => build_leaf(leaves, parts),
        Event::Inserted => parts.push(Part::Counted),
    }
}

// Most rows of an expression are those of operators that it does not have. They put nothing around their operand, and are
// built without gathering.
#[tactic(auto, using(crate::proofs::Folding::none_put, crate::proofs::Folding::symbol_stays))]
fn build_row(alloc: Global, row: RowId, parts: &mut Parts) -> Result<(), Fault>
    ensures { Gives result (λ _. parts.new) (row_part limited row parts.old) }
{
    if puts_no_endings(row) {
        return parts.push(Part::Endings(Endings::new(alloc)));
    }
    if is_one_symbol(row) {
        return Ok(());
    }
    if is_operand_with_tail(row) {
        return build_operand(alloc, row, parts);
    }
    gather_row(alloc, row, parts)
}

fn build_operand(alloc: Global, row: RowId, parts: &mut Parts) -> Result<(), Fault>
    requires { recipe row ≡ operand_with_tail }
    ensures { Gives result (λ _. parts.new) (row_part limited row parts.old) }
{
    if parts.drop_no_endings()? {
        return Ok(());
    }
    gather_row(alloc, row, parts)
}

#[tactic(auto, unfolding(crate::specs::Image::row_part))]
fn gather_row(alloc: Global, row: RowId, parts: &mut Parts) -> Result<(), Fault>
    ensures { Gives result (λ _. parts.new) (row_part limited row parts.old) }
{
    let work = gather(alloc, steps_of(row), parts)?;
    finish(alloc, finish_of(row), work, parts)
}

fn puts_no_endings(row: RowId) -> bool
    ensures those { result ≡ true → recipe row ≡ no_endings }
    ensures all { recipe row ≡ no_endings → result ≡ true }
{
    matches!(
        row,
        RowId::AssignTailEmpty(_)
            | RowId::CondTailEmpty(_)
            | RowId::LevelTailEmpty(_, _)
            | RowId::PostEmpty
            | RowId::LhsTailEmpty
            | RowId::MemberTailEmpty
            | RowId::ShortEmpty
            | RowId::GetRestEmpty
            | RowId::SetRestEmpty
    )
}

fn is_one_symbol(row: RowId) -> bool
    ensures those { result ≡ true → recipe row ≡ one_symbol }
    ensures all { recipe row ≡ one_symbol → result ≡ true }
{
    matches!(
        row,
        RowId::ItemFunction
            | RowId::ItemLexical
            | RowId::ItemStat
            | RowId::Body
            | RowId::StatBlock
            | RowId::Again
            | RowId::LongMethod
            | RowId::ShortMethod
            | RowId::GetRestMethod
            | RowId::SetRestMethod
    )
}

fn is_operand_with_tail(row: RowId) -> bool
    ensures those { result ≡ true → recipe row ≡ operand_with_tail }
    ensures all { recipe row ≡ operand_with_tail → result ≡ true }
{
    matches!(
        row,
        RowId::Assign(_)
            | RowId::Cond(_)
            | RowId::Level(_, _)
            | RowId::UnaryLhs
            | RowId::LhsNew
            | RowId::LhsPrimary
    )
}

fn build_leaf(leaves: &mut Vec<Leaf>, parts: &mut Parts) -> Result<(), Fault>
    ensures { Gives result (λ _. (reverse leaves.new.items, parts.new)) (leaf_part (reverse leaves.old.items) parts.old) }
{
    match leaves.pop() {
        Some(leaf) => parts.push(Part::Token(leaf)),
        None => Err(Fault::Broken),
    }
}
