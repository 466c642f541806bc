//! Laws of the cut of a text and of spellings. Each function does nothing: its clause is the law.

ghost use Rattle.js_tokens.specs.Laws.{HasOneCut, HasOneFault, HasNotBoth, HasEither, FaultsAreOfTheText, AreTheText, ValuesAreTexts, RawTextsAreTexts, IsLongestName, IsLongestMark, IsWholeNumber};
ghost use Rattle.js_tokens.specs.Spelling.{SpellingsAreRead};

/// A text has at most one list of tokens.
pub fn text_has_one_cut()
    ensures { HasOneCut }
{}

/// A text has at most one first fault.
pub fn text_has_one_fault()
    ensures { HasOneFault }
{}

/// A text with tokens has no first fault.
pub fn text_has_not_both()
    ensures { HasNotBoth }
{}

/// A text has tokens or a first fault.
pub fn text_has_either()
    ensures { HasEither }
{}

/// The first fault of a text is no want of memory.
pub fn faults_are_of_the_text()
    ensures { FaultsAreOfTheText }
{}

/// The tokens of a text and the gaps between them are the text.
pub fn tokens_are_the_text()
    ensures { AreTheText }
{}

/// No longer name begins where a name stands.
pub fn name_is_longest()
    ensures { IsLongestName }
{}

/// No longer punctuator begins where one stands.
pub fn punctuator_is_longest()
    ensures { IsLongestMark }
{}

/// What could go on with a number does not follow one.
pub fn number_is_whole()
    ensures { IsWholeNumber }
{}

/// A punctuator or a reserved word is read where its spelling stands.
pub fn spellings_are_read()
    ensures { SpellingsAreRead }
{}

/// The value of a string and the raw text of a token are texts.
pub fn values_are_texts()
    ensures value { ValuesAreTexts }
    ensures raw { RawTextsAreTexts }
{}
