ghost use Rattle.std.specs.Prelude.{◌≡◌, ◌≤◌, ◌^◌, IfOk, OnOk};
ghost use Rattle.std.specs.List.{list_all};
ghost use Rattle.bast_schema.specs.View.{datum, data_of};
ghost use Rattle.bast_schema.specs.Counts.{join, size_in};
ghost use Rattle.bast_schema.specs.Tree.{Data, child, listed, more, none, count};
ghost use Rattle.scope_facts.specs.Entries.{declared_entry, bound_entry, rest_entry, positional_entry, declared_entries, bound_entries, rest_entries, place_entry, parameter_name, item_entries, list_entries, parameter_entries, is_bare, all_bare, no_rest, list_simple, is_simple, entries, flags_by};

use crate::names::{Declared, put_bound, put_bound_below, put_lexicals_in, put_tops_in};
use crate::repeats::without_repeats;
use crate::roles::{Form, Shape, form_of};
use bast_base::{Memory, NameId};
use bast_schema::{Kind, Value, Values, rebuilt};
use std::alloc::Global;

/// The entry of a declared name.
fn make_declared(alloc: Global, declared: Declared) -> Result<Value, Memory>
    ensures { IfOk result (λ v. datum v ≡ child (declared_entry declared)) }
{
    let name = Value::Name(NameId(declared.name));
    let fields = vec![in alloc;
        name,
        Value::Choice(declared.kind.choice()),
        Value::Bool(false),
    ]?;
    Ok(Value::Node(rebuilt(Kind::AssertedDeclaredName, fields)))
}

/// The entry of the name of a function expression or of a catch clause.
fn make_bound(alloc: Global, name: u32) -> Result<Value, Memory>
    ensures { IfOk result (λ v. datum v ≡ child (bound_entry name)) }
{
    let fields = vec![in alloc; Value::Name(NameId(name)), Value::Bool(false)]?;
    Ok(Value::Node(rebuilt(Kind::AssertedBoundName, fields)))
}

/// The entry of a rest parameter.
fn make_rest(alloc: Global, name: u32) -> Result<Value, Memory>
    ensures { IfOk result (λ v. datum v ≡ child (rest_entry name)) }
{
    let fields = vec![in alloc; Value::Name(NameId(name)), Value::Bool(false)]?;
    Ok(Value::Node(rebuilt(Kind::AssertedRestParameterName, fields)))
}

/// The entry of a parameter.
fn make_positional(alloc: Global, place: u32, name: u32) -> Result<Value, Memory>
    ensures { IfOk result (λ v. datum v ≡ child (positional_entry place name)) }
{
    let name = Value::Name(NameId(name));
    let fields = vec![in alloc; Value::Index(place), name, Value::Bool(false)]?;
    Ok(Value::Node(rebuilt(Kind::AssertedPositionalParameterName, fields)))
}

/// Adds a value at the end.
#[tactic(auto, using(bast_schema::proofs::Sums::join_last))]
fn push_value(out: &mut Vec<Value>, value: Value) -> Result<(), Memory>
    ensures { OnOk result ((others : Data) → join (data_of out.new.items) others ≡ join (data_of out.old.items) (more (datum value) others)) }
{
    out.push(value)?;
    Ok(())
}

/// The entries of declared names.
fn make_declared_entries(alloc: Global, names: &[Declared]) -> Result<Vec<Value>, Memory>
    ensures { IfOk result (λ vs. data_of vs.items ≡ declared_entries names.now) }
{
    let mut out = Vec::with_capacity(alloc, names.len())?;
    for name in names {
        push_value(&mut out, make_declared(alloc, *name)?)?;
    }
    Ok(out)
}

/// The entries of the names of function expressions or catch clauses.
fn make_bound_entries(alloc: Global, names: &[u32]) -> Result<Vec<Value>, Memory>
    ensures { IfOk result (λ vs. data_of vs.items ≡ bound_entries names.now) }
{
    let mut out = Vec::with_capacity(alloc, names.len())?;
    for name in names {
        push_value(&mut out, make_bound(alloc, *name)?)?;
    }
    Ok(out)
}

/// Adds the entries of rest parameters.
fn put_rest_entries(alloc: Global, out: &mut Vec<Value>, names: &[u32]) -> Result<(), Memory>
    ensures { OnOk result (data_of out.new.items ≡ join (data_of out.old.items) (rest_entries names.now)) }
{
    for name in names {
        push_value(out, make_rest(alloc, *name)?)?;
    }
    Ok(())
}

/// The name that a parameter binds.
fn name_of_parameter(alloc: Global, parameter: &Value) -> Result<Option<u32>, Memory>
    ensures { IfOk result (λ n. n ≡ parameter_name (datum parameter.now)) }
{
    let mut names = Vec::new(alloc);
    put_bound_below(&mut names, parameter)?;
    Ok(names.get(0).copied())
}

/// Adds the entry of a parameter.
fn put_place_entry(
    alloc: Global,
    out: &mut Vec<Value>,
    place: u32,
    parameter: &Value,
) -> Result<(), Memory>
    ensures { OnOk result ((others : Data) → join (data_of out.new.items) others ≡ join (data_of out.old.items) (place_entry place (parameter_name (datum parameter.now)) others)) }
{
    if let Some(name) = name_of_parameter(alloc, parameter)? {
        push_value(out, make_positional(alloc, place, name)?)?;
    }
    Ok(())
}

/// The entry of the one parameter of a setter.
fn make_first_entry(alloc: Global, parameter: &Value) -> Result<Vec<Value>, Memory>
    ensures { IfOk result (λ vs. data_of vs.items ≡ place_entry 0 (parameter_name (datum parameter.now)) none) }
{
    match name_of_parameter(alloc, parameter)? {
        Some(name) => Ok(vec![in alloc; make_positional(alloc, 0, name)?]?),
        None => Ok(Vec::new(alloc)),
    }
}

/// Adds the entries of parameters, with their places.
fn put_item_entries(alloc: Global, out: &mut Vec<Value>, items: &[Value]) -> Result<(), Memory>
    requires { count (data_of items.now) ≤ 2 ^ 30 }
    ensures { OnOk result ((others : Data) → join (data_of out.new.items) others ≡ join (data_of out.old.items) (item_entries 0 (data_of items.now) others)) }
{
    let mut place = 0;
    for item in items {
        put_place_entry(alloc, out, place, item)?;
        place += 1;
    }
    Ok(())
}

/// The entries of a list of parameters with its rest.
fn make_list_entries(alloc: Global, fields: &[Value]) -> Result<Vec<Value>, Memory>
    requires { size_in (data_of fields.now) ≤ 2 ^ 30 }
    ensures { IfOk result (λ vs. data_of vs.items ≡ list_entries (data_of fields.now)) }
{
    let mut out = Vec::new(alloc);
    match fields {
        [] => Ok(out),
        [first, rest @ ..] => match first {
            Value::List(items) => {
                put_item_entries(alloc, &mut out, items.as_slice())?;
                let mut names = Vec::new(alloc);
                put_bound(&mut names, rest)?;
                put_rest_entries(alloc, &mut out, &names)?;
                Ok(out)
            }
            _ => Ok(out),
        },
    }
}

/// The entries of parameters, from what stands after their scope.
fn make_parameter_entries(alloc: Global, after: &[Value]) -> Result<Vec<Value>, Memory>
    requires { size_in (data_of after.now) ≤ 2 ^ 30 }
    ensures { IfOk result (λ vs. data_of vs.items ≡ parameter_entries (data_of after.now)) }
{
    match after {
        [] => Ok(Vec::new(alloc)),
        [first, ..] => match first {
            Value::Node(node) => match form_of(node.kind()) {
                Form::Parameters => make_list_entries(alloc, node.fields()),
                _ => make_first_entry(alloc, first),
            },
            _ => Ok(Vec::new(alloc)),
        },
    }
}

/// Whether a parameter is a name without initializer.
fn is_bare_name(parameter: &Value) -> bool
    ensures { result ≡ is_bare (datum parameter.now) }
{
    match parameter {
        Value::Node(node) => matches!(form_of(node.kind()), Form::Binding),
        _ => false,
    }
}

/// Whether each parameter is a name without initializer.
#[tactic(auto, using(crate::proofs::Bares::all_bare_data_of))]
fn are_bare_names(parameters: &[Value]) -> bool
    ensures { result ≡ all_bare (data_of parameters.now) }
{
    are_all_bare(parameters)
}

/// Whether each parameter is a name without initializer.
fn are_all_bare(parameters: &[Value]) -> bool
    ensures { result ≡ list_all (λ v. is_bare (datum v)) parameters.now }
{
    parameters.iter().all(|parameter| is_bare_name(parameter))
}

/// Whether there is no rest parameter.
fn has_no_rest(rest: &[Value]) -> bool
    ensures { result ≡ no_rest (data_of rest.now) }
{
    match rest {
        [] => true,
        [first, ..] => matches!(first, Value::Absent),
    }
}

/// Whether a list of parameters has neither initializer nor rest.
fn is_simple_list(fields: &[Value]) -> bool
    ensures { result ≡ list_simple (data_of fields.now) }
{
    match fields {
        [] => true,
        [first, rest @ ..] => match first {
            Value::List(items) => are_bare_names(items.as_slice()) && has_no_rest(rest),
            _ => true,
        },
    }
}

/// Whether the parameters that stand after their scope have neither initializer nor rest.
pub fn are_simple(after: &[Value]) -> bool
    ensures { result ≡ is_simple (data_of after.now) }
{
    match after {
        [] => true,
        [first, ..] => match first {
            Value::Node(node) => match form_of(node.kind()) {
                Form::Parameters => is_simple_list(node.fields()),
                form => matches!(form, Form::Binding),
            },
            _ => true,
        },
    }
}

/// The entries of a scope, from the names that the values of its node bind and from what stands after it.
pub fn make_entries(
    alloc: Global,
    shape: Shape,
    names: &[u32],
    after: &[Value],
) -> Result<Vec<Value>, Memory>
    requires { size_in (data_of after.now) ≤ 2 ^ 30 }
    ensures { IfOk result (λ vs. data_of vs.items ≡ entries shape names.now (data_of after.now)) }
{
    match shape {
        Shape::Statements => {
            let mut declared = Vec::new(alloc);
            put_tops_in(alloc, &mut declared, after)?;
            make_declared_entries(alloc, &without_repeats(alloc, &declared)?)
        }
        Shape::Lexical => {
            let mut declared = Vec::new(alloc);
            put_lexicals_in(alloc, &mut declared, after)?;
            make_declared_entries(alloc, &without_repeats(alloc, &declared)?)
        }
        Shape::Parameters => make_parameter_entries(alloc, after),
        Shape::BoundName => make_bound_entries(alloc, names),
        Shape::Nothing => Ok(Vec::new(alloc)),
    }
}

/// The fields of a scope: its entries, no direct eval, and for parameters whether they are simple.
pub(crate) fn make_scope_fields(
    alloc: Global,
    shape: Shape,
    entries: Vec<Value>,
    simple: bool,
) -> Result<Vec<Value>, Memory>
    ensures { IfOk result (λ vs. data_of vs.items ≡ more (listed (data_of entries.items)) (flags_by shape simple)) }
{
    let entries = Value::List(Values::of(entries));
    match shape {
        Shape::Parameters => Ok(vec![in alloc; entries, Value::Bool(false), Value::Bool(simple)]?),
        _ => Ok(vec![in alloc; entries, Value::Bool(false)]?),
    }
}
