ghost use Rattle.var_numbers.specs.Laws.{IsBinary64, IsInjective, IsPrefixFree, IsReadBack, IsReadOnlyWhereSpelled};

/// A number has one spelling, and no spelling is a front of another. It does nothing: its clause is the law.
pub fn varnum_is_prefix_free()
    ensures { IsPrefixFree }
{}

/// A spelling is read as its number. It does nothing: its clause is the law.
pub fn varnum_is_read_back()
    ensures { IsReadBack }
{}

/// Nothing but a spelling is read as a number. It does nothing: its clause is the law.
pub fn only_varnum_is_read()
    ensures { IsReadOnlyWhereSpelled }
{}

/// Whole numbers below 2^53 with one pattern are one number. It does nothing: its clause is the law.
pub fn pattern_is_injective()
    ensures { IsInjective }
{}

/// A whole number's pattern is its binary64 encoding. It does nothing: its clause is the law.
pub fn pattern_is_binary64()
    ensures { IsBinary64 }
{}
