// What holds of the definitions alone.
ghost use Rattle.scope_facts.specs.Laws.{BareOfExact, CapturedExactly, EvalsAreTold, ExactOfBare, FourTimesAtMost, NumbersMeanNothing, ScopesDeclareNothing, UsesAreCaptured};

/// An entry is captured exactly where some use of its name inside a function has its nearest declaration there, outside
/// that function.
pub fn entries_are_captured_exactly()
    ensures { CapturedExactly }
{}

/// In a tree with exact scopes each use inside a function finds its nearest declaration captured, where that is outside
/// the function.
pub fn uses_find_captured_entries()
    ensures { UsesAreCaptured }
{}

/// In a tree with exact scopes each direct eval is covered only by scopes that say so.
pub fn evals_are_told_by_all_scopes()
    ensures { EvalsAreTold }
{}

/// The plain tree of a tree with exact scopes is the plain tree.
pub fn exact_scopes_change_scopes_alone()
    ensures { BareOfExact }
{}

/// With exact scopes a well-typed tree declares what it declares with its own.
pub fn scopes_declare_nothing()
    ensures { ScopesDeclareNothing }
{}

/// A tree with other numbers for its names has the exact tree with these numbers.
pub fn numbers_of_names_mean_nothing()
    ensures { NumbersMeanNothing }
{}

/// The exact scopes of a well-typed tree without lazy functions don't depend on the scopes that it has.
pub fn exact_scopes_depend_on_no_scopes()
    ensures { ExactOfBare }
{}

/// A well-typed tree has at most four times as many values with exact scopes as with its own.
pub fn exact_scopes_are_small()
    ensures { FourTimesAtMost }
{}
