ghost use Rattle.std.specs.Prelude.{◌≡◌, ◌≤◌, ◌^◌, IfOk, ℕ, Bool, true};
ghost use Rattle.bast_schema.specs.Counts.{is_whole, size};
ghost use Rattle.bast_schema.specs.Tree.{depth};
ghost use Rattle.scope_facts.specs.Exact.{exact};
ghost use Rattle.bast_schema.specs.NamesHold.{names_hold};

use crate::evals::name_of_eval;
use crate::filling::fill_node;
use crate::flagging::flag_node;
use bast_base::Memory;
use bast_schema::Node;
use std::alloc::Global;
use string_table::StringTable;

/// The same tree with exact scopes, where its names are those of a table of strings.
///
/// Each scope gets an entry for each name that it declares, in the order of the declaring nodes, parameters by their
/// places. An entry is captured where a use of its name inside a function has its nearest declaration in this scope and
/// the scope is outside that function; a scope has a direct eval where one stands in what it covers. What the scopes of
/// the tree said before does not count.
///
/// The tree stays as well typed, no deeper, without windows where it has none, and names nothing new. It has at most four
/// times as many values.
///
/// The time is about linear in the size of the tree, and the depth of the recursion is bounded by the tree's depth.
pub fn annotate(alloc: Global, tree: Node, strings: &StringTable) -> Result<Node, Memory>
    requires { size tree ≤ 2 ^ 28 }
    ensures exact { IfOk result (λ t. t ≡ exact strings.now tree) }
    ensures whole { IfOk result (λ t. is_whole tree ≡ true → is_whole t ≡ true) }
    ensures names { IfOk result (λ t. (p : ℕ → Bool) → names_hold p tree ≡ true → names_hold p t ≡ true) }
    ensures depth { IfOk result (λ t. depth t ≤ depth tree) }
    ensures size { IfOk result (λ t. size t ≤ 2 ^ 30) }
{
    let eval = name_of_eval(strings);
    let tree = fill_node(alloc, tree)?;
    let _within_the_limit = tree.depth();
    let mut covers = Vec::with_capacity(alloc, strings.len() as usize)?;
    let (tree, _) = flag_node(alloc, eval, 0, &mut covers, tree)?;
    Ok(tree)
}
