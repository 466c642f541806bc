// What holds of the definitions alone.
ghost use Rattle.scope_check.specs.Laws.{ExactScopesAreTrue};

/// What exact scopes say of a script is true.
pub fn exact_scopes_are_true()
    ensures { ExactScopesAreTrue }
{}
