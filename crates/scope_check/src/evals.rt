ghost use Rattle.std.specs.Prelude.{◌≡◌, ◌&&◌};
ghost use Rattle.bast_schema.specs.Tree.{child};
ghost use Rattle.bast_schema.specs.View.{data_of};
ghost use Rattle.scope_facts.specs.Reading.{says_eval, says_eval_in};

use crate::covers::first_flag;
use bast_schema::{Node, Value};

/// Whether a scope with these fields tells a direct eval in what it covers.
fn tells_eval(fields: &[Value]) -> bool
    ensures { result ≡ says_eval_in (data_of fields.now) }
{
    match fields {
        [Value::List(_), rest @ ..] => first_flag(rest),
        _ => true,
    }
}

/// Whether a scope tells a direct eval, where the scopes around it do.
pub(crate) fn tells_eval_too(told: bool, scope: &Node) -> bool
    ensures { result ≡ (told && says_eval (child scope.now)) }
{
    told && tells_eval(scope.fields())
}
