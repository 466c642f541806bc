ghost use Rattle.std.specs.Prelude.{◌≡◌, ◌++◌, string_bytes, IfOk, OnOk};
ghost use Rattle.std.specs.List.{flat_map};
ghost use Rattle.std.specs.Str.{chars};
ghost use Rattle.js_printer.specs.StringForm.{escaped, string_form};

use bast_base::Memory;
use std::alloc::Global;

/// The string form of a text: the text between double quotes, in the form of a string literal (ECMA-262, section 11.8.4).
///
/// The quote, the backslash and the line terminators of section 11.3 are escaped, and every other character stands as it
/// is. An error comes only where memory runs out.
pub fn string_form(alloc: Global, text: &str) -> Result<String, Memory>
    ensures { IfOk result (λ form. string_bytes form ≡ string_form text.now) }
{
    let mut form = String::new(alloc);
    put_string_form(text, &mut form)?;
    Ok(form)
}

/// Adds the string form of a text at the end.
pub(crate) fn put_string_form(text: &str, into: &mut String) -> Result<(), Memory>
    ensures { OnOk result (string_bytes into.new ≡ string_bytes into.old ++ string_form text.now) }
{
    into.push('"')?;
    put_characters(text, into)?;
    Ok(into.push('"')?)
}

// Adds the characters of a text at the end, escaped where they have to be.
fn put_characters(text: &str, into: &mut String) -> Result<(), Memory>
    ensures { OnOk result (string_bytes into.new ≡ string_bytes into.old ++ flat_map escaped (chars text.now)) }
{
    for character in text.chars() {
        put_escaped(character, into)?;
    }
    Ok(())
}

// Adds a character at the end, or its escape.
fn put_escaped(character: char, into: &mut String) -> Result<(), Memory>
    ensures { OnOk result (string_bytes into.new ≡ string_bytes into.old ++ escaped character) }
{
    match character {
        '"' => into.push_str("\\\"")?,
        '\\' => into.push_str("\\\\")?,
        '\n' => into.push_str("\\n")?,
        '\r' => into.push_str("\\r")?,
        '\u{2028}' => into.push_str("\\u2028")?,
        '\u{2029}' => into.push_str("\\u2029")?,
        _ => into.push(character)?,
    }
    Ok(())
}
