// What holds of the definitions alone.
ghost use Rattle.js_printer.specs.Laws.{StringFormsAreOneLine};

/// A string form stands on one line, whatever its text is.
pub fn string_forms_are_one_line()
    ensures { StringFormsAreOneLine }
{}
