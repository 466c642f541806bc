ghost use Rattle.std.specs.Prelude.{◌≡◌, ◌≤◌, ◌^◌, get_or, IfOk, None, option_copied};
ghost use Rattle.bast_schema.specs.Counts.{size};
ghost use Rattle.violations.specs.Violations.{earlier, first_violation, name_in, sooner};

use bast_base::{Memory, NameId};
use bast_schema::Node;
use early_errors::first_early;
use scope_check::first_untrue;
use scope_facts::{Ctx, Violation};
use std::alloc::Global;
use string_table::StringTable;

/// The first violation of a tree in a context: of a script in `Ctx::script`, or of a function's contents in the context
/// that the function gives them. `None` comes exactly where there is none.
///
/// A violation is of the least node, whose numbers count from 0 in preorder, scopes and their entries among them; at one
/// node of the first rule, where the early errors of ECMA-262 come before the rules on what scopes say.
pub fn first_violation(
    alloc: Global,
    tree: &Node,
    ctx: &Ctx,
    strings: &StringTable,
) -> Result<Option<Violation>, Memory>
    requires { size tree.now ≤ 2 ^ 30 }
    ensures { IfOk result (λ r. r ≡ first_violation strings.now ctx.now tree.now) }
{
    let early = first_early(alloc, tree, ctx, strings)?;
    let untrue = first_untrue(alloc, tree, ctx, strings)?;
    Ok(earlier(early, untrue))
}

fn earlier(early: Option<Violation>, untrue: Option<Violation>) -> Option<Violation>
    ensures { result ≡ earlier early untrue }
{
    match (early, untrue) {
        (None, untrue) => untrue,
        (Some(early), None) => Some(early),
        (Some(early), Some(untrue)) => Some(sooner(early, untrue)),
    }
}

// The one of the lesser node, and the early error where they stand at one node.
fn sooner(early: Violation, untrue: Violation) -> Violation
    ensures { result ≡ sooner early untrue }
{
    if untrue.node < early.node {
        untrue
    } else {
        early
    }
}

/// The text of a violation's name. `None` comes where it has no name, or one that stands for no text.
pub fn name_of<'a>(violation: &Violation, strings: &'a StringTable) -> Option<&'a str>
    ensures { option_copied result ≡ name_in strings.now violation.now }
{
    match violation.name {
        Some(name) => text_of(name, strings),
        None => None,
    }
}

// The text of a name. `None` comes where the table has none at its place.
fn text_of(name: NameId, strings: &StringTable) -> Option<&str>
    ensures { option_copied result ≡ get_or strings.now name.0 None }
{
    if name.0 >= strings.len() {
        return None;
    }
    strings.text(name)
}
