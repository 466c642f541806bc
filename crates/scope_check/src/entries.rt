ghost use Rattle.std.specs.Prelude.{◌≡◌, ◌≤◌, ◌^◌, ◌||◌, not, false, IfOk, OnOk};
ghost use Rattle.bast_schema.specs.View.{datum, data_of};
ghost use Rattle.bast_schema.specs.Counts.{size_in};
ghost use Rattle.scope_check.specs.Entries.{entry_sort, entry_number, key_at, keys, same, is_among, first_extra, first_missing, differing, said, says_simple, flags_agree, judged_flag, says_by, scope_says};
ghost use Rattle.scope_check.specs.declared.entries.Key.{Key};

use crate::finding::Finding;
use bast_base::Memory;
use bast_schema::{Kind, Node, Value};
use scope_facts::{Shape, are_simple, first_name_of, make_entries, scope_shape};
use std::alloc::Global;
use std::collections::HashSet;

/// What an entry of a scope says, but for whether its name is captured.
#[derive(Clone, Copy, Debug, PartialEq, Eq, Hash)]
struct Key {
    /// The number of its kind among the kinds of entry.
    sort: u32,
    /// The number of the name's text in the table of strings.
    name: u32,
    /// The place of a parameter or the choice of a kind of name, and 0 for an entry that has neither.
    number: u32,
}

/// The number of a kind among the kinds of entry.
fn sort_of(kind: Kind) -> u32
    ensures { result ≡ entry_sort kind }
{
    match kind {
        Kind::AssertedDeclaredName => 0,
        Kind::AssertedPositionalParameterName => 1,
        Kind::AssertedRestParameterName => 2,
        Kind::AssertedBoundName => 3,
        _ => 4,
    }
}

/// The place or the choice among the values of an entry.
fn number_of(values: &[Value]) -> u32
    ensures { result ≡ entry_number (data_of values.now) }
{
    match values {
        [] => 0,
        [first, rest @ ..] => match first {
            Value::Index(place) => *place,
            Value::Choice(choice) => u32::from(*choice),
            _ => number_of(rest),
        },
    }
}

/// What an entry says.
fn key_of(entry: &Value) -> Option<Key>
    ensures { result ≡ key_at (datum entry.now) }
{
    match entry {
        Value::Node(node) => match first_name_of(node.fields()) {
            Some(name) => Some(Key {
                sort: sort_of(node.kind()),
                name,
                number: number_of(node.fields()),
            }),
            None => None,
        },
        _ => None,
    }
}

/// What entries say, in their order.
fn keys_of(alloc: Global, entries: &[Value]) -> Result<Vec<Key>, Memory>
    ensures { IfOk result (λ r. r.items ≡ keys (data_of entries.now)) }
{
    let mut out = Vec::with_capacity(alloc, entries.len())?;
    for entry in entries {
        if let Some(key) = key_of(entry) {
            out.push(key)?;
        }
    }
    Ok(out)
}

/// Adds a key, and says whether it is new.
fn insert_key(seen: &mut HashSet<Key>, key: Key) -> Result<bool, Memory>
    ensures is_new { IfOk result (λ b. b ≡ not (is_among seen.old.keys key)) }
    ensures keys { OnOk result ((a : Key) → is_among seen.new.keys a ≡ (same a key || is_among seen.old.keys a)) }
{
    Ok(seen.insert(key)?)
}

/// Whether a key is in the set.
fn has_key(set: &HashSet<Key>, key: &Key) -> bool
    ensures { result ≡ is_among set.now.keys key.now }
{
    set.contains(key)
}

/// The set of some keys.
fn set_of(alloc: Global, list: &[Key]) -> Result<HashSet<Key>, Memory>
    ensures { IfOk result (λ r. (a : Key) → is_among r.keys a ≡ is_among list.now a) }
{
    let mut set: HashSet<Key> = HashSet::new(alloc);
    for key in list {
        insert_key(&mut set, *key)?;
    }
    Ok(set)
}

/// The name of the first key that is not wanted or repeats an earlier one.
fn name_of_extra(alloc: Global, found: &[Key], wanted: &HashSet<Key>) -> Result<Option<u32>, Memory>
    ensures { IfOk result (λ r. r ≡ first_extra (is_among wanted.now.keys) (λ a. false) found.now) }
{
    let mut seen: HashSet<Key> = HashSet::new(alloc);
    for key in found {
        if !has_key(wanted, key) || !insert_key(&mut seen, *key)? {
            return Ok(Some(key.name));
        }
    }
    Ok(None)
}

/// The name of the first wanted key that is not there.
fn name_of_missing(wanted: &[Key], there: &HashSet<Key>) -> Option<u32>
    ensures { result ≡ first_missing (is_among there.now.keys) wanted.now }
{
    for key in wanted {
        if !has_key(there, key) {
            return Some(key.name);
        }
    }
    None
}

/// The name in which keys differ from those that are wanted, in time linear in the number of both.
fn name_of_difference(alloc: Global, found: &[Key], wanted: &[Key]) -> Result<Option<u32>, Memory>
    ensures { IfOk result (λ r. r ≡ differing found.now wanted.now) }
{
    if let Some(name) = name_of_extra(alloc, found, &set_of(alloc, wanted)?)? {
        return Ok(Some(name));
    }
    Ok(name_of_missing(wanted, &set_of(alloc, found)?))
}

/// The entries among the fields of a scope.
fn entries_among(fields: &[Value]) -> &[Value]
    ensures { data_of result.now ≡ said (data_of fields.now) }
{
    match fields {
        [] => fields,
        [first, ..] => match first {
            Value::List(entries) => entries.as_slice(),
            _ => &[],
        },
    }
}

/// Whether the fields of a parameter scope say that its parameters are simple.
fn says_that_simple(fields: &[Value]) -> bool
    ensures { result ≡ says_simple (data_of fields.now) }
{
    match fields {
        [_, _, third, ..] => match third {
            Value::Bool(simple) => *simple,
            _ => false,
        },
        _ => false,
    }
}

/// What is wrong with a flag, where it has to be the other.
fn judge_flags(said: bool, wanted: bool) -> Finding
    ensures { result ≡ flags_agree said wanted }
{
    if said == wanted {
        Finding::Fine
    } else {
        Finding::Wrong(None)
    }
}

/// What is wrong with the flag of simple parameters, where the scope has it.
fn judge_flag(shape: Shape, fields: &[Value], after: &[Value]) -> Finding
    ensures { result ≡ judged_flag shape (data_of fields.now) (data_of after.now) }
{
    match shape {
        Shape::Parameters => judge_flags(says_that_simple(fields), are_simple(after)),
        _ => Finding::Fine,
    }
}

/// What is wrong with what the fields of a scope say.
fn judge_fields(
    alloc: Global,
    shape: Shape,
    names: &[u32],
    fields: &[Value],
    after: &[Value],
) -> Result<Finding, Memory>
    requires { size_in (data_of after.now) ≤ 2 ^ 30 }
    ensures { IfOk result (λ f. f ≡ says_by shape names.now (data_of fields.now) (data_of after.now)) }
{
    if matches!(shape, Shape::Nothing) {
        return Ok(Finding::Fine);
    }
    let found = keys_of(alloc, entries_among(fields))?;
    let wanted = keys_of(alloc, &make_entries(alloc, shape, names, after)?)?;
    match name_of_difference(alloc, &found, &wanted)? {
        Some(name) => Ok(Finding::Wrong(Some(name))),
        None => Ok(judge_flag(shape, fields, after)),
    }
}

/// What is wrong with what a scope says, where `names` are the names that the values of its node bind and `after` is what
/// stands after it in its node.
pub(crate) fn judge_scope(
    alloc: Global,
    scope: &Node,
    names: &[u32],
    after: &[Value],
) -> Result<Finding, Memory>
    requires { size_in (data_of after.now) ≤ 2 ^ 30 }
    ensures { IfOk result (λ f. f ≡ scope_says names.now scope.now (data_of after.now)) }
{
    judge_fields(
        alloc,
        scope_shape(scope.kind()),
        names,
        scope.fields(),
        after,
    )
}
