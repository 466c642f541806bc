//! Laws of the tree of a source text. Each function does nothing: its clauses are the law.

ghost use Rattle.js_parser.specs.Laws.{HasAnAnswer, HasOneAnswer, HasOneTree, RefusedAreDeep, RefusedForDepth, SourcesAddTexts, SourcesAreShallow};

/// A text and a table have one new table and one tree, and a text that is refused has none.
pub fn sources_have_one_tree()
    ensures tree { HasOneTree }
    ensures answer { HasOneAnswer }
{}

/// A text and a table have an answer: the first fault of the text, or the token at which the machine stops, or a new table
/// and a tree, unless the tree is too deep.
pub fn texts_have_an_answer()
    ensures some { HasAnAnswer }
    ensures depth { RefusedForDepth }
{}

/// The limit on the depth changes no tree, and refuses exactly the sources whose tree is more than 512 deep.
pub fn limit_refuses_deep_sources()
    ensures shallow { SourcesAreShallow }
    ensures deep { RefusedAreDeep }
{}

/// What a source adds to a table is texts.
pub fn sources_add_texts()
    ensures { SourcesAddTexts }
{}
