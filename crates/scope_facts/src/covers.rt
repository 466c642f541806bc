ghost use Rattle.std.specs.Prelude.{◌≡◌, ◌<◌, ◌≤◌, ◌+◌, ◌^◌, All, IfOk, OnErr, OnOk, ℕ, Some, false, nat_eq, length, Option, if◌then◌else◌};
ghost use Rattle.std.specs.List.{list_any};
ghost use Rattle.bast_schema.specs.View.{datum, data_of};
ghost use Rattle.scope_facts.specs.Covers.{cover_of, touched, has_name, restored, shadows_among, names_among, entry_names, entry_name, inside_now};
ghost use Rattle.scope_facts.specs.declared.covers.Cover.{Cover};

use crate::names::first_name_of;
use crate::roles::Part;
use bast_base::Memory;
use bast_schema::Value;
use std::alloc::Global;

/// What covers a name at a place: the innermost entry of the name, or the innermost scope with entries of it where a
/// scope may have several.
#[derive(Clone, Copy, Debug)]
pub struct Cover {
    /// How many functions are around the scope.
    pub function: u32,
    /// Whether the entry is captured, or all entries of the name in the scope are.
    pub captured: bool,
}

/// What covered a name before a scope had an entry of it.
#[derive(Clone, Copy, Debug)]
pub struct Shadow {
    /// The number of the name's text in the table of strings.
    pub name: u32,
    pub cover: Option<Cover>,
}

/// The cover of a name, where something covers it.
pub fn find_cover(covers: &[Option<Cover>], name: u32) -> Option<Cover>
    ensures { result ≡ cover_of covers.now name }
{
    match covers.get(name as usize) {
        Some(cover) => *cover,
        None => None,
    }
}

/// Makes room for the cover of a name.
fn make_room(covers: &mut Vec<Option<Cover>>, name: u32) -> Result<(), Memory>
    ensures room { OnOk result (name < length covers.new.items) }
    ensures more { length covers.old.items ≤ length covers.new.items }
    ensures covers { (x : ℕ) → cover_of covers.new.items x ≡ cover_of covers.old.items x }
{
    for _ in covers.len()..name as usize + 1 {
        covers.push(None)?;
    }
    Ok(())
}

/// Changes the cover of a name, and of no other.
pub fn put_cover(
    covers: &mut Vec<Option<Cover>>,
    name: u32,
    cover: Option<Cover>,
) -> Result<(), Memory>
    ensures covers { OnOk result ((x : ℕ) → cover_of covers.new.items x ≡ (if nat_eq name x then cover else cover_of covers.old.items x)) }
    ensures unchanged { OnErr result ((x : ℕ) → cover_of covers.new.items x ≡ cover_of covers.old.items x) }
{
    make_room(covers, name)?;
    covers[name as usize] = cover;
    Ok(())
}

/// How many functions are around what is inside a node.
pub fn functions_inside(part: Part, now: u32) -> u32
    requires { now + 1 < 2 ^ 32 }
    ensures { result ≡ inside_now part now }
{
    match part {
        Part::Function => now + 1,
        _ => now,
    }
}

/// Captures the entry that covers a name, where it stands outside the innermost of so many functions.
pub(crate) fn use_name(covers: &mut Vec<Option<Cover>>, now: u32, name: u32) -> Result<(), Memory>
    ensures { OnOk result ((x : ℕ) → cover_of covers.new.items x ≡ touched (nat_eq name x) false now (cover_of covers.old.items x)) }
{
    let Some(cover) = find_cover(covers, name) else {
        return Ok(());
    };
    if cover.function >= now {
        return Ok(());
    }
    let captured = Cover {
        function: cover.function,
        captured: true,
    };
    put_cover(covers, name, Some(captured))
}

/// Makes room for the covers of names.
fn make_rooms(covers: &mut Vec<Option<Cover>>, shadows: &[Shadow]) -> Result<(), Memory>
    ensures room { OnOk result (All (λ s. s.name < length covers.new.items) shadows.now) }
    ensures covers { (x : ℕ) → cover_of covers.new.items x ≡ cover_of covers.old.items x }
{
    for shadow in shadows {
        make_room(covers, shadow.name)?;
    }
    Ok(())
}

/// Puts back what covered the names before a scope, where there is room for them.
fn put_back(covers: &mut Vec<Option<Cover>>, mut shadows: Vec<Shadow>)
    requires { All (λ s. s.name < length covers.old.items) shadows.items }
    ensures { (x : ℕ) → cover_of covers.new.items x ≡ restored shadows.items x (cover_of covers.old.items x) }
{
    while let Some(shadow) = shadows.pop() {
        covers[shadow.name as usize] = shadow.cover;
    }
}

/// What covers names, to put it back.
fn shadows_of(alloc: Global, covers: &[Option<Cover>], names: &[u32]) -> Result<Vec<Shadow>, Memory>
    ensures { IfOk result (λ r. r.items ≡ shadows_among (cover_of covers.now) names.now) }
{
    let mut shadows = Vec::with_capacity(alloc, names.len())?;
    for name in names {
        let cover = find_cover(covers, *name);
        shadows.push(Shadow { name: *name, cover })?;
    }
    Ok(shadows)
}

/// Covers the names of shadows by an entry, where there is room for them.
fn put_entries(covers: &mut Vec<Option<Cover>>, entry: Cover, shadows: &[Shadow])
    requires { All (λ s. s.name < length covers.old.items) shadows.now }
    ensures { (x : ℕ) → cover_of covers.new.items x ≡ (if list_any (λ s. nat_eq s.name x) shadows.now then Some entry else cover_of covers.old.items x) }
{
    for shadow in shadows {
        covers[shadow.name as usize] = Some(entry);
    }
}

/// Covers each of the names by an entry, and keeps what covered them before.
pub fn enter(
    alloc: Global,
    covers: &mut Vec<Option<Cover>>,
    entry: Cover,
    names: &[u32],
) -> Result<Vec<Shadow>, Memory>
    ensures covers { OnOk result ((x : ℕ) → cover_of covers.new.items x ≡ (if has_name x names.now then Some entry else cover_of covers.old.items x)) }
    ensures shadows { IfOk result (λ r. (x : ℕ) (o : Option Cover) → restored r.items x o ≡ (if has_name x names.now then cover_of covers.old.items x else o)) }
    ensures unchanged { OnErr result ((x : ℕ) → cover_of covers.new.items x ≡ cover_of covers.old.items x) }
{
    let shadows = shadows_of(alloc, covers, names)?;
    make_rooms(covers, &shadows)?;
    put_entries(covers, entry, &shadows);
    Ok(shadows)
}

/// Puts back what covered the names before a scope.
pub fn leave(covers: &mut Vec<Option<Cover>>, shadows: Vec<Shadow>) -> Result<(), Memory>
    ensures covers { OnOk result ((x : ℕ) → cover_of covers.new.items x ≡ restored shadows.items x (cover_of covers.old.items x)) }
    ensures unchanged { OnErr result ((x : ℕ) → cover_of covers.new.items x ≡ cover_of covers.old.items x) }
{
    make_rooms(covers, &shadows)?;
    put_back(covers, shadows);
    Ok(())
}

/// The name of an entry.
fn name_of_entry(entry: &Value) -> Option<u32>
    ensures { result ≡ entry_name (datum entry.now) }
{
    match entry {
        Value::Node(node) => first_name_of(node.fields()),
        _ => None,
    }
}

/// The names of entries.
fn names_of(alloc: Global, entries: &[Value]) -> Result<Vec<u32>, Memory>
    ensures { IfOk result (λ r. r.items ≡ names_among (data_of entries.now)) }
{
    let mut names = Vec::with_capacity(alloc, entries.len())?;
    for entry in entries {
        if let Some(name) = name_of_entry(entry) {
            names.push(name)?;
        }
    }
    Ok(names)
}

/// The names of the entries of a scope.
pub(crate) fn names_of_scope(alloc: Global, scope: &Value) -> Result<Vec<u32>, Memory>
    ensures { IfOk result (λ r. r.items ≡ entry_names (datum scope.now)) }
{
    match scope {
        Value::Node(node) => match node.fields() {
            [] => Ok(Vec::new(alloc)),
            [first, ..] => match first {
                Value::List(entries) => names_of(alloc, entries.as_slice()),
                _ => Ok(Vec::new(alloc)),
            },
        },
        _ => Ok(Vec::new(alloc)),
    }
}
