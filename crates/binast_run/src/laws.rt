// What holds of the definitions alone.
ghost use Rattle.binast_run.specs.Laws.{EncodedFilesAreReadBack, FilesAreAnsweredExactly, InputsHaveAnAnswer, InputsHaveOneAnswer};

/// An input has an answer of each command, where it is not too long, and one.
pub fn inputs_have_one_answer()
    ensures some { InputsHaveAnAnswer }
    ensures one { InputsHaveOneAnswer }
{}

/// The answer to a file is an output exactly where the file is in the grammar of files, and spells a tree without lazy
/// functions in which no rule fails: it is then the output of that tree.
pub fn files_are_answered_exactly()
    ensures { FilesAreAnsweredExactly }
{}

/// What a source is encoded to is read whole, as the source's tree with exact scopes: it breaks no early error, and its
/// scopes say nothing untrue.
pub fn encoded_files_are_read_back()
    ensures { EncodedFilesAreReadBack }
{}
