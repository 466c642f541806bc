// What holds of the machine's definition alone.
ghost use Rattle.js_machine.specs.Laws.{AcceptedIsDerived, AcceptedTakesAll, EndsAreEqual, RunsEnd};

/// What the machine accepts is derived by the grammar, with no machine, by the rows of its steps from all tokens of the text
/// and the semicolons that count as there. It does nothing: its clauses are the law.
pub fn accepted_is_derived()
    ensures derived { AcceptedIsDerived }
    ensures all { AcceptedTakesAll }
{}

/// The machine's run over the tokens of a text ends, and in one way. It does nothing: its clauses are the law.
pub fn runs_have_one_end()
    ensures some { RunsEnd }
    ensures one { EndsAreEqual }
{}
