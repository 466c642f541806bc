ghost use Rattle.std.specs.Prelude.{◌≡◌, IfOk};
ghost use Rattle.bast_schema.specs.View.{datum, data_of};
ghost use Rattle.scope_facts.specs.Uses.{first_name};
ghost use Rattle.early_errors.specs.Around.{loops, loop_at, loop_in, is_const, flags_in, with_label, is_labelled, flags_at, labels_at, place_first, place_rest, start};

use crate::kinds::{Place, Role, role_of};
use crate::known::KnownTexts;
use crate::strict::is_own_strict;
use bast_base::Memory;
use bast_schema::{LEXICAL_CONST, Node, Value};
use scope_facts::{Ctx, first_name_of};
use std::alloc::Global;

/// What is known of the code around a node.
#[derive(Clone, Copy)]
pub struct Flags {
    /// Whether the code is strict.
    pub strict: bool,
    /// Whether the directives of the function whose part this is say `use strict`.
    pub own_strict: bool,
    /// Whether no two parameters of that function may have one name.
    pub unique: bool,
    /// Whether a function stands around.
    pub function: bool,
    /// Whether a loop stands around, inside the innermost function.
    pub looped: bool,
    /// Whether a loop or a switch stands around, inside the innermost function.
    pub breakable: bool,
    /// Whether the declarators are those of a `const` declaration.
    pub constant: bool,
    /// Whether the node is assigned to.
    pub target: bool,
}

/// A label around a node.
#[derive(Clone, Copy)]
pub struct Label {
    pub name: u32,
    /// Whether it labels a loop, also through further labels.
    pub looped: bool,
}

/// Whether a statement is a loop, or has labels and then a loop.
#[cycle(loops)]
fn is_loop(node: &Node) -> bool
    ensures { result ≡ loops node.now }
{
    let fields = node.fields();
    match role_of(node.kind()) {
        Role::Loop | Role::For => true,
        Role::Labelled => has_loop(fields),
        _ => false,
    }
}

/// Whether a value is such a statement.
#[cycle(loops)]
fn is_loop_at(value: &Value) -> bool
    ensures { result ≡ loop_at (datum value.now) }
{
    match value {
        Value::Node(node) => is_loop(node),
        _ => false,
    }
}

/// Whether one of the values is such a statement.
#[cycle(loops)]
fn has_loop(values: &[Value]) -> bool
    ensures { result ≡ loop_in (data_of values.now) }
{
    for value in values {
        if is_loop_at(value) {
            return true;
        }
    }
    false
}

/// Whether a declaration is one with `const`.
fn is_constant(fields: &[Value]) -> bool
    ensures { result ≡ is_const (data_of fields.now) }
{
    match fields {
        [] => false,
        [first, ..] => match first {
            Value::Choice(choice) => *choice == LEXICAL_CONST,
            _ => false,
        },
    }
}

/// What is known around the parts of a node.
pub(crate) fn flags_of_parts(
    texts: &KnownTexts<'_>,
    role: Role,
    fields: &[Value],
    flags: Flags,
) -> Flags
    ensures { result ≡ flags_in texts.now role (data_of fields.now) flags }
{
    match role {
        Role::Script => Flags {
            strict: flags.strict || is_own_strict(texts, fields),
            ..flags
        },
        Role::Function => Flags {
            own_strict: is_own_strict(texts, fields),
            unique: false,
            ..flags
        },
        Role::Method => Flags {
            own_strict: is_own_strict(texts, fields),
            unique: true,
            ..flags
        },
        Role::Arrow => Flags {
            own_strict: false,
            unique: true,
            ..flags
        },
        Role::Lexical => Flags {
            constant: is_constant(fields),
            ..flags
        },
        Role::Variables => Flags {
            constant: false,
            ..flags
        },
        _ => flags,
    }
}

/// What is known around what stands in a field.
pub(crate) fn flags_of_place(place: Place, flags: Flags) -> Flags
    ensures { result ≡ flags_at place flags }
{
    match place {
        Place::Plain => Flags {
            target: false,
            ..flags
        },
        Place::Target => Flags {
            target: true,
            ..flags
        },
        Place::Body => Flags {
            target: false,
            looped: true,
            breakable: true,
            ..flags
        },
        Place::Cases => Flags {
            target: false,
            breakable: true,
            ..flags
        },
        Place::Name => Flags {
            target: false,
            strict: flags.strict || flags.own_strict,
            ..flags
        },
        Place::Inside => Flags {
            strict: flags.strict || flags.own_strict,
            function: true,
            looped: false,
            breakable: false,
            constant: false,
            target: false,
            ..flags
        },
    }
}

/// The labels around what stands in a field.
pub(crate) fn labels_of_place(place: Place, labels: &[Label]) -> &[Label]
    ensures { result.now ≡ labels_at place labels.now }
{
    match place {
        Place::Inside => &[],
        _ => labels,
    }
}

/// Whether a node of this role has a label.
pub(crate) fn is_label_of(role: Role) -> bool
    ensures { result ≡ is_labelled role }
{
    matches!(role, Role::Labelled)
}

/// The labels around the body of a labelled statement.
pub(crate) fn more_labels(
    alloc: Global,
    fields: &[Value],
    labels: &[Label],
) -> Result<Vec<Label>, Memory>
    ensures { IfOk result (λ v. v.items ≡ with_label (first_name (data_of fields.now)) (loop_in (data_of fields.now)) labels.now) }
{
    let mut all = Vec::new(alloc);
    all.extend_from_slice(labels)?;
    if let Some(name) = first_name_of(fields) {
        all.push(Label {
            name,
            looped: has_loop(fields),
        })?;
    }
    Ok(all)
}

/// The place that the first of the fields left has.
pub(crate) fn first_place(places: &[Place]) -> Place
    ensures { result ≡ place_first places.now }
{
    match places {
        [] => Place::Plain,
        [place, ..] => *place,
    }
}

/// The places of the fields behind it.
pub(crate) fn rest_of_places(places: &[Place]) -> &[Place]
    ensures { result.now ≡ place_rest places.now }
{
    match places {
        [] => &[],
        [_, rest @ ..] => rest,
    }
}

/// What is known around the whole of what is checked.
pub(crate) fn start_flags(ctx: &Ctx) -> Flags
    ensures { result ≡ (start ctx.now).flags }
{
    Flags {
        strict: ctx.strict,
        own_strict: ctx.own_strict,
        unique: ctx.unique,
        function: ctx.function,
        looped: false,
        breakable: false,
        constant: false,
        target: false,
    }
}
