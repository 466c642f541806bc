ghost use Rattle.std.specs.Prelude.{◌≡◌};
ghost use Rattle.bast_schema.specs.View.{data_of};
ghost use Rattle.scope_facts.specs.Exact.{eval_name};
ghost use Rattle.scope_facts.specs.Uses.{is_eval, is_use_of, is_use_of_text};

use crate::names::first_name_of;
use crate::roles::{Part, part_of};
use bast_schema::Value;
use string_table::StringTable;

/// The name of the text `eval`, where the table has it.
pub fn name_of_eval(strings: &StringTable) -> Option<u32>
    ensures { result ≡ eval_name strings.now }
{
    match strings.find("eval") {
        Some(name) => Some(name.0),
        None => None,
    }
}

/// Whether a node is a use of a name.
fn is_use_here(name: u32, part: Part, fields: &[Value]) -> bool
    ensures { result ≡ is_use_of name part (data_of fields.now) }
{
    match part {
        Part::Use => match first_name_of(fields) {
            Some(first) => first == name,
            None => false,
        },
        _ => false,
    }
}

/// Whether a node is a use of a name, where there is such a name.
fn is_use_of_eval(eval: Option<u32>, part: Part, fields: &[Value]) -> bool
    ensures { result ≡ is_use_of_text eval part (data_of fields.now) }
{
    match eval {
        Some(name) => is_use_here(name, part, fields),
        None => false,
    }
}

/// Whether a node of this part with these fields is a direct eval (section 12.3.4.1 of ECMA-262), where `eval` is the
/// name of that text.
pub fn is_eval_call(eval: Option<u32>, part: Part, fields: &[Value]) -> bool
    ensures { result ≡ is_eval eval part (data_of fields.now) }
{
    match part {
        Part::Call => match fields {
            [Value::Node(callee), ..] => is_use_of_eval(
                eval,
                part_of(callee.kind()),
                callee.fields(),
            ),
            _ => false,
        },
        _ => false,
    }
}
