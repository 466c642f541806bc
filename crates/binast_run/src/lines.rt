// The lines that tell of a file.
ghost use Rattle.std.specs.Prelude.{◌≡◌, ◌++◌, codes, decimal, string_bytes, IfOk, OnOk};
ghost use Rattle.binast_run.specs.Lines.{accepted_line as accepted, fault_line as of_fault, large_file_line as large_file, not_yet_line as not_yet, why_text};

use bast_base::{FormatFault, Memory, Why};
use itoa::Buffer;
use std::alloc::Global;

// The line of a fault: its cause, and its place.
pub(crate) fn fault_line(alloc: Global, fault: FormatFault) -> Result<String, Memory>
    ensures { IfOk result (λ text. string_bytes text ≡ of_fault fault) }
{
    let mut text = String::from_str(alloc, "file: ")?;
    put_why(fault.why, &mut text)?;
    text.push_str(" at ")?;
    put_number(fault.at, &mut text)?;
    text.push('\n')?;
    Ok(text)
}

// The line of a node of a kind that is not read yet.
pub(crate) fn not_yet_line(alloc: Global, node: u32) -> Result<String, Memory>
    ensures { IfOk result (λ text. string_bytes text ≡ not_yet node) }
{
    let mut text = String::from_str(alloc, "file: NotYet at node ")?;
    put_number(node, &mut text)?;
    text.push('\n')?;
    Ok(text)
}

// The line of a source whose file would be too large.
pub(crate) fn large_file_line(alloc: Global) -> Result<String, Memory>
    ensures { IfOk result (λ text. string_bytes text ≡ large_file) }
{
    Ok(String::from_str(alloc, "file: larger than 8388608 bytes\n")?)
}

// The line of an accepted file of so many bytes, which has no lazy function.
pub(crate) fn accepted_line(alloc: Global, bytes: u32) -> Result<String, Memory>
    ensures { IfOk result (λ text. string_bytes text ≡ accepted bytes) }
{
    let mut text = String::from_str(alloc, "ok: ")?;
    put_number(bytes, &mut text)?;
    text.push_str(" bytes, 0 lazy functions")?;
    text.push('\n')?;
    Ok(text)
}

// Adds a cause at the end, with the number that it holds.
fn put_why(why: Why, into: &mut String) -> Result<(), Memory>
    ensures { OnOk result (string_bytes into.new ≡ string_bytes into.old ++ why_text why) }
{
    match why {
        Why::BadVersion { found } => put_numbered("BadVersion ", found, into),
        Why::Repeated { first } => put_numbered("Repeated ", first, into),
        Why::BadMagic => put("BadMagic", into),
        Why::BadSection => put("BadSection", into),
        Why::NotIdentity => put("NotIdentity", into),
        Why::Ended => put("Ended", into),
        Why::Overlong => put("Overlong", into),
        Why::TooBig => put("TooBig", into),
        Why::UnknownKind => put("UnknownKind", into),
        Why::NotUtf8 => put("NotUtf8", into),
        Why::Trailing => put("Trailing", into),
        Why::BadKind => put("BadKind", into),
        Why::BadString => put("BadString", into),
        Why::BadVariant => put("BadVariant", into),
        Why::BadBool => put("BadBool", into),
        Why::BadWhole => put("BadWhole", into),
        Why::EmptyList => put("EmptyList", into),
        Why::TooDeep => put("TooDeep", into),
    }
}

pub(crate) fn put(word: &str, into: &mut String) -> Result<(), Memory>
    ensures { OnOk result (string_bytes into.new ≡ string_bytes into.old ++ word.now) }
{
    Ok(into.push_str(word)?)
}

fn put_numbered(word: &str, number: u32, into: &mut String) -> Result<(), Memory>
    ensures { OnOk result (string_bytes into.new ≡ string_bytes into.old ++ (word.now ++ decimal number)) }
{
    into.push_str(word)?;
    put_number(number, into)
}

pub(crate) fn put_number(number: u32, into: &mut String) -> Result<(), Memory>
    ensures { OnOk result (string_bytes into.new ≡ string_bytes into.old ++ decimal number) }
{
    Ok(into.push_str(Buffer::new().format(number))?)
}
