// What holds of the definitions alone.
ghost use Rattle.js_grammar.specs.Laws.{AlternativesAreDisjoint, BegunRowsAreTaken, EmptinessIsSettled, EmptySymbolsAreKnown, FirstTokensAreKnown, FirstsAreSettled, LeftOutRowsAreNotTaken, RestrictedRowsAreNotTaken, RowsAreAlternatives, TokensTakeTheirRows};

/// No two alternatives of a symbol begin with one token, but where the definition lists that the first of them is taken.
/// It does nothing: its clause is the law.
pub fn alternatives_are_disjoint()
    ensures { AlternativesAreDisjoint }
{}

/// The row that a symbol takes at a token is one of its alternatives, one that the token begins where there is one; no
/// expression statement begins with `function`, and no newline stands in a restricted production. It does nothing: its
/// clauses are the law.
pub fn rows_are_alternatives()
    ensures among { RowsAreAlternatives }
    ensures left_out { LeftOutRowsAreNotTaken }
    ensures restricted { RestrictedRowsAreNotTaken }
    ensures begun { TokensTakeTheirRows }
{}

/// An alternative that begins with the token is the row that its symbol takes, but where the first of several is taken and
/// where a newline stands against it. It does nothing: its clause is the law.
pub fn begun_rows_are_taken()
    ensures { BegunRowsAreTaken }
{}

/// What begins with a token, and what may be empty, is found by the rows, however many of them lie between. It does
/// nothing: its clauses are the law.
pub fn firsts_are_settled()
    ensures begins { FirstsAreSettled }
    ensures empty { EmptinessIsSettled }
{}

/// Symbols that derive leaves of which a token is the first begin with that token, and symbols that derive nothing may be
/// empty. It does nothing: its clauses are the law.
pub fn first_tokens_are_known()
    ensures token { FirstTokensAreKnown }
    ensures nothing { EmptySymbolsAreKnown }
{}
