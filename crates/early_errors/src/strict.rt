ghost use Rattle.std.specs.Prelude.{◌≡◌};
ghost use Rattle.bast_schema.specs.View.{datum, data_of};
ghost use Rattle.early_errors.specs.Strict.{is_directive, strict_at, strict_items, strict_list, own_strict};

use crate::kinds::{Role, role_of};
use crate::known::KnownTexts;
use bast_schema::Value;
use scope_facts::first_name_of;

/// Whether a node of this role is a directive.
fn is_directive_role(role: Role) -> bool
    ensures { result ≡ is_directive role }
{
    matches!(role, Role::Directive)
}

/// Whether a value is a directive that makes code strict.
fn is_strict_at(texts: &KnownTexts<'_>, value: &Value) -> bool
    ensures { result ≡ strict_at texts.now (datum value.now) }
{
    match value {
        Value::Node(node) => {
            is_directive_role(role_of(node.kind()))
                && texts.facts(first_name_of(node.fields())).use_strict
        }
        _ => false,
    }
}

/// Whether one of the values is a directive that makes code strict.
fn has_strict_item(texts: &KnownTexts<'_>, values: &[Value]) -> bool
    ensures { result ≡ strict_items texts.now (data_of values.now) }
{
    for value in values {
        if is_strict_at(texts, value) {
            return true;
        }
    }
    false
}

/// Whether a value is a list with a directive that makes code strict.
fn is_strict_list(texts: &KnownTexts<'_>, value: &Value) -> bool
    ensures { result ≡ strict_list texts.now (datum value.now) }
{
    match value {
        Value::List(values) => has_strict_item(texts, values.as_slice()),
        _ => false,
    }
}

/// Whether the directives among the fields of a node make its code strict.
pub(crate) fn is_own_strict(texts: &KnownTexts<'_>, fields: &[Value]) -> bool
    ensures { result ≡ own_strict texts.now (data_of fields.now) }
{
    for value in fields {
        if is_strict_list(texts, value) {
            return true;
        }
    }
    false
}
