ghost use Rattle.tree_decoder.specs.Left.{AreDue, AreOfTree};
ghost use Rattle.tree_decoder.specs.OneTree.{IsOneTree, ScriptsAreOne};
ghost use Rattle.tree_decoder.specs.Outer.{TreeRangesAreSound};
ghost use Rattle.tree_decoder.specs.Row.{IsFirstBehindRow};
ghost use Rattle.tree_decoder.specs.SameTree.{AtomsAreOfOneTree};
ghost use Rattle.tree_decoder.specs.Script.{SomeScriptIsSpelled};

/// The atoms of each well-typed value whose lazy contents are windows are due one after another where the value is due,
/// and after them nothing more of it is. It does nothing: its clause is the law.
pub fn atoms_are_due()
    ensures { AreDue }
{}

/// Atoms that leave nothing due are those of a well-typed value of that due, whose lazy contents are windows. It does
/// nothing: its clause is the law.
pub fn only_trees_leave_nothing_due()
    ensures { AreOfTree }
{}

/// Whole trees with one spelling over two tables have the same atoms: one tree is spelled. It does nothing: its clause is
/// the law.
pub fn one_tree_is_spelled()
    ensures { IsOneTree }
{}

/// What the reading answers is the cause for the first due behind the longest row of atoms that stand one after another,
/// each spelled at its place and of the type that is due there. It does nothing: its clause is the law.
pub fn fault_is_first_behind_row()
    ensures { IsFirstBehindRow }
{}

/// Where no text stands twice, the script that is read at a place is the only one, with its windows. It does nothing: its
/// clause is the law.
pub fn scripts_are_one()
    ensures { ScriptsAreOne }
{}

/// Where no fault is found from a place on, some script is spelled there. It does nothing: its clause is the law.
pub fn some_script_is_spelled()
    ensures { SomeScriptIsSpelled }
{}

/// Well-typed trees whose names stand for texts have the same atoms exactly where they are the same, but for the numbers
/// of names and the places of windows. It does nothing: its clause is the law.
pub fn atoms_are_of_one_tree()
    ensures { AtomsAreOfOneTree }
{}

/// In each container of bytes that is no longer than a file may be, the range of the tree can be read. It does nothing: its
/// clause is the law.
pub fn tree_ranges_are_sound()
    ensures { TreeRangesAreSound }
{}
