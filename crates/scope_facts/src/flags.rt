ghost use Rattle.std.specs.Prelude.{◌≡◌, IfOk, OnOk, ℕ, false};
ghost use Rattle.bast_schema.specs.View.{datum, data_of};
ghost use Rattle.scope_facts.specs.Uses.{is_use_named};
ghost use Rattle.scope_facts.specs.Flagged.{with_flag, entry_by, entries_by, fields_by, scope_by};
ghost use Rattle.scope_facts.specs.Covers.{cover_of, touched, is_caught};

use crate::covers::{Cover, find_cover, use_name};
use crate::names::first_name_of;
use crate::roles::Part;
use bast_base::Memory;
use bast_schema::{Value, Values, put_first, rebuilt, take_first};
use std::alloc::Global;

/// Sets the first flag among the values.
fn set_flag(flag: bool, mut values: Vec<Value>) -> Result<Vec<Value>, Memory>
    ensures { IfOk result (λ r. data_of r.items ≡ with_flag flag (data_of values.items)) }
{
    match take_first(&mut values) {
        None => Ok(values),
        Some(Value::Bool(_)) => {
            put_first(&mut values, Value::Bool(flag))?;
            Ok(values)
        }
        Some(first) => {
            let mut rest = set_flag(flag, values)?;
            put_first(&mut rest, first)?;
            Ok(rest)
        }
    }
}

/// Whether the entry that covers a name is captured.
fn is_captured(covers: &[Option<Cover>], name: u32) -> bool
    ensures { result ≡ is_caught (cover_of covers.now name) }
{
    match find_cover(covers, name) {
        Some(cover) => cover.captured,
        None => false,
    }
}

/// An entry, captured where the cover of its name is.
fn flag_entry(covers: &[Option<Cover>], entry: Value) -> Result<Value, Memory>
    ensures { IfOk result (λ r. datum r ≡ entry_by (λ x. is_caught (cover_of covers.now x)) (datum entry)) }
{
    match entry {
        Value::Node(node) => {
            let (kind, fields) = node.parts();
            let captured = match first_name_of(&fields) {
                Some(name) => is_captured(covers, name),
                None => false,
            };
            Ok(Value::Node(rebuilt(kind, set_flag(captured, fields)?)))
        }
        other => Ok(other),
    }
}

/// Entries, captured where the covers of their names are.
#[tactic(auto, using(crate::proofs::FlaggedItems::entries_step))]
fn flag_entries(
    alloc: Global,
    covers: &[Option<Cover>],
    entries: Vec<Value>,
) -> Result<Vec<Value>, Memory>
    ensures { IfOk result (λ r. data_of r.items ≡ entries_by (λ x. is_caught (cover_of covers.now x)) (data_of entries.items)) }
{
    let mut done = Vec::with_capacity(alloc, entries.len())?;
    for entry in entries {
        done.push(flag_entry(covers, entry)?)?;
    }
    Ok(done)
}

/// The fields of a scope with their flags.
fn flag_scope_fields(
    alloc: Global,
    covers: &[Option<Cover>],
    evals: bool,
    mut fields: Vec<Value>,
) -> Result<Vec<Value>, Memory>
    ensures { IfOk result (λ r. data_of r.items ≡ fields_by (λ x. is_caught (cover_of covers.now x)) evals (data_of fields.items)) }
{
    match take_first(&mut fields) {
        None => Ok(fields),
        Some(Value::List(values)) => {
            let entries = flag_entries(alloc, covers, values.into_vec())?;
            let mut rest = set_flag(evals, fields)?;
            put_first(&mut rest, Value::List(Values::of(entries)))?;
            Ok(rest)
        }
        Some(first) => {
            put_first(&mut fields, first)?;
            Ok(fields)
        }
    }
}

/// A scope with its flags, where its entries still cover their names.
pub(crate) fn flag_scope(
    alloc: Global,
    covers: &[Option<Cover>],
    evals: bool,
    scope: Value,
) -> Result<Value, Memory>
    ensures { IfOk result (λ r. datum r ≡ scope_by (λ x. is_caught (cover_of covers.now x)) evals (datum scope)) }
{
    match scope {
        Value::Node(node) => {
            let (kind, fields) = node.parts();
            Ok(Value::Node(rebuilt(kind, flag_scope_fields(alloc, covers, evals, fields)?)))
        }
        other => Ok(other),
    }
}

/// Uses the name of a node, where the node is a use.
pub(crate) fn use_node(
    covers: &mut Vec<Option<Cover>>,
    now: u32,
    part: Part,
    name: Option<u32>,
) -> Result<(), Memory>
    ensures { OnOk result ((x : ℕ) → cover_of covers.new.items x ≡ touched (is_use_named x part name) false now (cover_of covers.old.items x)) }
{
    match part {
        Part::Use => match name {
            Some(name) => use_name(covers, now, name),
            None => Ok(()),
        },
        _ => Ok(()),
    }
}
