// What holds of the definitions of files alone.
ghost use Rattle.tree_decoder.specs.FileLaws.{FilesAreRead, FilesAreReadAsOneTree, FilesAreReadExactly, FilesHaveOneReading, FilesHaveOneTree, FilesInGrammarHaveNoFault, FilesThatAreReadAreInGrammar, FilesWithoutLazyKindsAreReadSo};

/// A file that is read as a tree without windows is in the grammar of files, and spells that tree.
pub fn files_that_are_read_are_in_grammar()
    ensures { FilesThatAreReadAreInGrammar }
{}

/// A file in the grammar of files, of at most 8,388,608 bytes, has no fault: it is read.
pub fn files_in_grammar_have_no_fault()
    ensures { FilesInGrammarHaveNoFault }
{}

/// A file in the grammar of files is that of one tree.
pub fn files_have_one_tree()
    ensures { FilesHaveOneTree }
{}

/// A file in the grammar of files whose tree has no lazy kind is read as such a tree.
pub fn files_without_lazy_kinds_are_read_so()
    ensures { FilesWithoutLazyKindsAreReadSo }
{}

/// A file is read as one tree, over one layout.
pub fn files_are_read_as_one_tree()
    ensures { FilesAreReadAsOneTree }
{}

/// Every file of at most 8,388,608 bytes has a whole reading, and one.
pub fn files_have_one_reading()
    ensures some { FilesAreRead }
    ensures one { FilesHaveOneReading }
{}

/// A file is read whole as a tree exactly where it is in the grammar of files and spells that tree, no function of which
/// is lazy and in which no rule fails.
pub fn files_are_read_exactly()
    ensures { FilesAreReadExactly }
{}
