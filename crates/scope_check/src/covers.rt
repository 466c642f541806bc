ghost use Rattle.std.specs.Prelude.{◌≡◌, ◌++◌, IfOk, OnOk, ℕ, Option, map, if◌then◌else◌};
ghost use Rattle.bast_schema.specs.Tree.{child};
ghost use Rattle.bast_schema.specs.View.{datum, data_of};
ghost use Rattle.scope_facts.specs.Covers.{cover_of, restored};
ghost use Rattle.scope_facts.specs.Frames.{is_captured};
ghost use Rattle.scope_check.specs.Covers.{entered, has_fact, marked, facts_at, facts_among, facts_in, facts_of};

use bast_base::{Memory, NameId};
use bast_schema::{Node, Value};
use scope_facts::{Cover, FactName, Shadow, first_name_of, put_cover};
use std::alloc::Global;

/// The names of entries.
fn names_of_facts(alloc: Global, facts: &[FactName]) -> Result<Vec<u32>, Memory>
    ensures { IfOk result (λ r. r.items ≡ map (λ f. f.name.0) facts.now) }
{
    let mut names = Vec::with_capacity(alloc, facts.len())?;
    for fact in facts {
        names.push(fact.name.0)?;
    }
    Ok(names)
}

/// Covers the names of the entries that aren't captured by such entries.
fn mark_facts(covers: &mut Vec<Option<Cover>>, now: u32, facts: &[FactName]) -> Result<(), Memory>
    ensures { OnOk result ((x : ℕ) → cover_of covers.new.items x ≡ marked now facts.now x (cover_of covers.old.items x)) }
{
    for fact in facts {
        if !fact.captured {
            let entry = Cover {
                function: now,
                captured: false,
            };
            put_cover(covers, fact.name.0, Some(entry))?;
        }
    }
    Ok(())
}

/// Covers names by the entries of a scope inside so many functions, and keeps what covered them before.
pub(crate) fn enter(
    alloc: Global,
    covers: &mut Vec<Option<Cover>>,
    now: u32,
    facts: &[FactName],
) -> Result<Vec<Shadow>, Memory>
    ensures covers { OnOk result ((x : ℕ) → cover_of covers.new.items x ≡ entered now facts.now x (cover_of covers.old.items x)) }
    ensures shadows { IfOk result (λ r. (x : ℕ) (o : Option Cover) → restored r.items x o ≡ (if has_fact x facts.now then cover_of covers.old.items x else o)) }
{
    let names = names_of_facts(alloc, facts)?;
    let entry = Cover {
        function: now,
        captured: true,
    };
    let shadows = scope_facts::enter(alloc, covers, entry, &names)?;
    mark_facts(covers, now, facts)?;
    Ok(shadows)
}

/// The first flag among the values of an entry or behind the entries of a scope, or true.
pub(crate) fn first_flag(values: &[Value]) -> bool
    ensures { result ≡ is_captured (data_of values.now) }
{
    match values {
        [] => true,
        [first, rest @ ..] => match first {
            Value::Bool(flag) => *flag,
            _ => first_flag(rest),
        },
    }
}

/// Adds what an entry says.
fn put_fact(facts: &mut Vec<FactName>, entry: &Value) -> Result<(), Memory>
    ensures { OnOk result (facts.new.items ≡ facts.old.items ++ facts_at (datum entry.now)) }
{
    if let Value::Node(node) = entry {
        let fields = node.fields();
        if let Some(name) = first_name_of(fields) {
            facts.push(FactName {
                name: NameId(name),
                captured: first_flag(fields),
            })?;
        }
    }
    Ok(())
}

/// What entries say.
fn facts_of_entries(alloc: Global, entries: &[Value]) -> Result<Vec<FactName>, Memory>
    ensures { IfOk result (λ r. r.items ≡ facts_among (data_of entries.now)) }
{
    let mut facts = Vec::with_capacity(alloc, entries.len())?;
    for entry in entries {
        put_fact(&mut facts, entry)?;
    }
    Ok(facts)
}

/// What the entries of a scope say, which has these fields.
fn facts_of_fields(alloc: Global, fields: &[Value]) -> Result<Vec<FactName>, Memory>
    ensures { IfOk result (λ r. r.items ≡ facts_in (data_of fields.now)) }
{
    match fields {
        [] => Ok(Vec::new(alloc)),
        [first, ..] => match first {
            Value::List(entries) => facts_of_entries(alloc, entries.as_slice()),
            _ => Ok(Vec::new(alloc)),
        },
    }
}

/// What the entries of a scope say.
pub(crate) fn facts_of_scope(alloc: Global, scope: &Node) -> Result<Vec<FactName>, Memory>
    ensures { IfOk result (λ r. r.items ≡ facts_of (child scope.now)) }
{
    facts_of_fields(alloc, scope.fields())
}
