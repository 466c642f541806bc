// What holds of the tree's definition alone.
ghost use Rattle.js_tree.specs.Tells.{AcceptedHaveTrees};

/// What the machine accepts stands for a typed script, which is refused exactly where it is more than 512 deep. It does
/// nothing: its clause is the law.
pub fn accepted_have_trees()
    ensures { AcceptedHaveTrees }
{}
