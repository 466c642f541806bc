// What holds of the definitions alone.
ghost use Rattle.violations.specs.Laws.{FirstViolationsAreLeast};

/// The first violation is a violation of the tree, and none comes before it, by node and then by rule; there is none
/// exactly where the tree has no early error and nothing in its scopes is untrue. It does nothing: its clause is the law.
pub fn first_violations_are_least()
    ensures { FirstViolationsAreLeast }
{}
