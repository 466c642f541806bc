// What holds of the definitions alone.
ghost use Rattle.early_errors.specs.Laws.{EachNodeIsJudged, EarlyOfExact, InsideIsContext, NodesAreNumbered, NumbersBreakNoRule, OwnScopesBreakNoRule, ScopesBreakNoRule};

/// The rules are asked at each node of a tree, in preorder.
pub fn each_node_is_judged()
    ensures { EachNodeIsJudged }
{}

/// The numbers of the nodes go on by one in preorder.
pub fn nodes_are_numbered()
    ensures { NodesAreNumbered }
{}

/// The inside of a function is judged as in the context that the function gives it.
pub fn inside_is_judged_in_its_context()
    ensures { InsideIsContext }
{}

/// With exact scopes a well-typed tree breaks the rules that it breaks with empty ones, in the same order and by the same
/// names.
pub fn scopes_break_no_rule()
    ensures { ScopesBreakNoRule }
{}

/// With its own scopes, whatever they say, a well-typed tree breaks the rules that it breaks with empty ones, in the same
/// order and by the same names.
pub fn own_scopes_break_no_rule()
    ensures { OwnScopesBreakNoRule }
{}

/// A well-typed tree is without early errors with exact scopes exactly where it is so with empty ones.
pub fn exact_scopes_keep_early_errors()
    ensures { EarlyOfExact }
{}

/// With other numbers for its names a tree breaks the same rules at the same nodes, by the names with these numbers.
pub fn numbers_of_names_break_no_rule()
    ensures { NumbersBreakNoRule }
{}
