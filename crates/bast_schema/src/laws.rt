//! Laws of the named choices. Each function does nothing: its clauses are the law.

ghost use Rattle.std.specs.Prelude.{◌≡◌, Some, codes};
ghost use Rattle.bast_schema.specs.Choices.{choice_of_text};
ghost use Rattle.bast_schema.specs.declared.kind.EnumId.TheVariants as sets;

use crate::choices::{
    DECLARED_CONST, DECLARED_LEXICAL, DECLARED_VAR, FOR_CONST, FOR_LET, FOR_VAR, LEXICAL_CONST,
    LEXICAL_LET, UNARY_DELETE,
};

/// Each named choice is the one with its text.
pub fn named_choices_have_their_texts()
    ensures declared_var { choice_of_text sets.DeclaredKind (codes "var") ≡ Some DECLARED_VAR }
    ensures declared_lexical { choice_of_text sets.DeclaredKind (codes "non-const lexical") ≡ Some DECLARED_LEXICAL }
    ensures declared_const { choice_of_text sets.DeclaredKind (codes "const lexical") ≡ Some DECLARED_CONST }
    ensures lexical_let { choice_of_text sets.LexicalKind (codes "let") ≡ Some LEXICAL_LET }
    ensures lexical_const { choice_of_text sets.LexicalKind (codes "const") ≡ Some LEXICAL_CONST }
    ensures for_var { choice_of_text sets.ForKind (codes "var") ≡ Some FOR_VAR }
    ensures for_let { choice_of_text sets.ForKind (codes "let") ≡ Some FOR_LET }
    ensures for_const { choice_of_text sets.ForKind (codes "const") ≡ Some FOR_CONST }
    ensures unary_delete { choice_of_text sets.UnaryOperator (codes "delete") ≡ Some UNARY_DELETE }
{}
