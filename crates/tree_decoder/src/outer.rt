ghost use Rattle.std.specs.Prelude.{◌≤◌, ◌-◌, IfOk, IsTrue};
ghost use Rattle.bast_schema.specs.Counts.{size};
ghost use Rattle.bast_schema.specs.Held.{Held};
ghost use Rattle.bast_schema.specs.Tree.{Tree};
ghost use Rattle.container.specs.IsContainer.{IsContainer};
ghost use Rattle.container.specs.Named.{named};
ghost use Rattle.tree_decoder.specs.Found.{Spent};
ghost use Rattle.tree_decoder.specs.Outer.{tree_range};
ghost use Rattle.tree_decoder.specs.Range.{held};
ghost use Rattle.tree_decoder.specs.Script.{ReadsScript, script_outcome};
ghost use Rattle.tree_decoder.specs.Spelt.{IsSpelt, IsThatTree, NoFault};

use crate::reading::read_tree;
use bast_base::{Halt, Steps, Tape};
use bast_schema::Node;
use container::Layout;
use std::alloc::Global;

/// The script of a file, whose container was read. Lazy fields are left as windows, whose bytes are not looked at.
///
/// The fault is the first in the tree. Places count from the file's start. The tree has no more values than its range has
/// bytes, where a window is one value, and each of its names is the number of a text.
pub fn read_outer<L>(
    alloc: Global,
    tape: &Tape<L>,
    layout: &Layout,
    steps: &mut Steps<L>,
) -> Result<Node, Halt>
    requires { IsContainer tape.now layout.now }
    ensures reads { ReadsScript (tree_range tape.now layout.now) layout.now.from result }
    ensures only { (h : Held) (t : Tree) → IsSpelt (tree_range tape.now layout.now) layout.now.from h t → NoFault result }
    ensures same { (h : Held) (t : Tree) → IsSpelt (tree_range tape.now layout.now) layout.now.from h t → IsThatTree (tree_range tape.now layout.now) h t result }
    ensures size { IfOk result (λ t. size t ≤ layout.now.to - layout.now.from) }
    ensures named { IfOk result (λ t. IsTrue (named (held (tree_range tape.now layout.now)) t)) }
    ensures cost { Spent (script_outcome (tree_range tape.now layout.now) layout.now.from).windows layout.now.from layout.now.to steps.old steps.new }
    ensures later { steps.old ≤ steps.new }
{
    read_tree(
        alloc,
        tape,
        &layout.kinds,
        &layout.strings,
        layout.from,
        layout.to,
        steps,
    )
}
