ghost use Rattle.tree_encoder.specs.Laws.{FilesAreInGrammar};

/// The file of a script without windows and lazy kinds is in the grammar of files, and spells it. It does nothing: its
/// clause is the law.
pub fn files_are_in_grammar()
    ensures { FilesAreInGrammar }
{}
