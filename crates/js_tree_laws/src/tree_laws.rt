//! Laws of the tree that steps stand for. Each function does nothing: its clauses are the law.

ghost use Rattle.js_tree_laws.specs.TreeLaws.{LimitedAreSame, RefusedAreDeep, TreesAreEager, TreesArePlain, TreesAreScripts, TreesAreShallow, TreesAreSmall, TreesAreWhole, TreesHaveNames};

/// The tree of steps holds no window and no lazy kind, is its own plain tree, has no names but those of the tokens, and is at
/// most 512 deep. That of an accepted run is a script, and has fewer values than seven for each token.
pub fn trees_hold()
    ensures whole { TreesAreWhole }
    ensures eager { TreesAreEager }
    ensures plain { TreesArePlain }
    ensures names { TreesHaveNames }
    ensures shallow { TreesAreShallow }
    ensures scripts { TreesAreScripts }
    ensures small { TreesAreSmall }
{}

/// The limit on the depth changes no tree of an accepted run, and refuses those alone that are more than 512 deep.
pub fn limit_refuses_deep_trees()
    ensures same { LimitedAreSame }
    ensures deep { RefusedAreDeep }
{}
