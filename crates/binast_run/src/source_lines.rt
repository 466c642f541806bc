// The lines that refuse a source, and the one that tells a violation in a file.
ghost use Rattle.std.specs.Prelude.{◌≡◌, ◌++◌, codes, option_copied, string_bytes, IfOk, OnOk};
ghost use Rattle.binast_run.specs.SourceLines.{fault_text, left_text, not_utf8_text, placed, rule_text, shown_name, source_line as of_source, token_text, violation_text};
ghost use Rattle.binast_run.specs.FileAnswers.{file_violation_line as of_file};
ghost use Rattle.violations.specs.Violations.{name_in};

use crate::lines::{put, put_number};
use bast_base::{Chars, Memory};
use js_machine::Left;
use js_parser::SourceFault;
use js_printer::string_form;
use js_tokens::TokenFault;
use scope_facts::{Rule, Violation};
use std::alloc::Global;
use string_table::StringTable;
use violations::name_of;

// The line of a text that is no UTF-8, of which so many bytes are.
pub(crate) fn not_utf8_line(alloc: Global, at: u32) -> Result<String, Memory>
    ensures { IfOk result (λ text. string_bytes text ≡ of_source (not_utf8_text at)) }
{
    let mut text = String::from_str(alloc, "source: ")?;
    put_placed("NotUtf8", at, &mut text)?;
    text.push('\n')?;
    Ok(text)
}

// The line of a text that has no tree.
pub(crate) fn fault_line(alloc: Global, fault: SourceFault) -> Result<String, Memory>
    ensures { IfOk result (λ text. string_bytes text ≡ of_source (fault_text fault)) }
{
    let mut text = String::from_str(alloc, "source: ")?;
    put_fault(fault, &mut text)?;
    text.push('\n')?;
    Ok(text)
}

// The line of a rule that does not hold at a node of a source's tree.
pub(crate) fn violation_line(
    alloc: Global,
    violation: Violation,
    strings: &StringTable,
) -> Result<String, Memory>
    ensures { IfOk result (λ text. string_bytes text ≡ of_source (violation_text violation (name_in strings.now violation))) }
{
    let mut text = String::from_str(alloc, "source: ")?;
    put_violation(alloc, violation, name_of(&violation, strings), &mut text)?;
    text.push('\n')?;
    Ok(text)
}

// The same of a file's tree, with the text of the violation's name.
pub(crate) fn file_violation_line(
    alloc: Global,
    violation: Violation,
    name: Option<Chars>,
) -> Result<String, Memory>
    ensures { IfOk result (λ text. string_bytes text ≡ of_file violation name) }
{
    let mut text = String::from_str(alloc, "file: ")?;
    put_violation(alloc, violation, text_in(&name), &mut text)?;
    text.push('\n')?;
    Ok(text)
}

fn text_in(name: &Option<Chars>) -> Option<&str>
    ensures { option_copied result ≡ name.now }
{
    match name {
        Some(text) => Some(text.as_str()),
        None => None,
    }
}

// Adds a rule that does not hold, its node, and the text of its name at the end.
fn put_violation(
    alloc: Global,
    violation: Violation,
    name: Option<&str>,
    into: &mut String,
) -> Result<(), Memory>
    ensures { OnOk result (string_bytes into.new ≡ string_bytes into.old ++ violation_text violation (option_copied name.entry)) }
{
    into.push_str(name_of_rule(violation.rule))?;
    into.push_str(" at node ")?;
    put_number(violation.node, into)?;
    put_name(alloc, name, into)
}

fn put_fault(fault: SourceFault, into: &mut String) -> Result<(), Memory>
    ensures { OnOk result (string_bytes into.new ≡ string_bytes into.old ++ fault_text fault) }
{
    match fault {
        SourceFault::Memory => Ok(()),
        SourceFault::Token(fault) => put_token_fault(fault, into),
        SourceFault::Syntax { at } => put_placed("Syntax", at, into),
        SourceFault::NotHere { at, what } => {
            into.push_str("NotHere ")?;
            put_placed(name_of_left(what), at, into)
        }
        SourceFault::TooDeep { at } => put_placed("TooDeep", at, into),
        SourceFault::DeepTree => put("DeepTree", into),
    }
}

fn put_token_fault(fault: TokenFault, into: &mut String) -> Result<(), Memory>
    ensures { OnOk result (string_bytes into.new ≡ string_bytes into.old ++ token_text fault) }
{
    match fault {
        TokenFault::Memory => Ok(()),
        TokenFault::BadChar { at } => put_placed("BadChar", at, into),
        TokenFault::EndedString { at } => put_placed("EndedString", at, into),
        TokenFault::EndedTemplate { at } => put_placed("EndedTemplate", at, into),
        TokenFault::EndedComment { at } => put_placed("EndedComment", at, into),
        TokenFault::BadEscape { at } => put_placed("BadEscape", at, into),
        TokenFault::LoneSurrogate { at } => put_placed("LoneSurrogate", at, into),
        TokenFault::NumberForm { at } => put_placed("NumberForm", at, into),
        TokenFault::NumberTooBig { at } => put_placed("NumberTooBig", at, into),
        TokenFault::EscapedName { at } => put_placed("EscapedName", at, into),
    }
}

// Adds a fault and its place at the end.
fn put_placed(fault: &str, at: u32, into: &mut String) -> Result<(), Memory>
    ensures { OnOk result (string_bytes into.new ≡ string_bytes into.old ++ placed fault.now at) }
{
    into.push_str(fault)?;
    into.push_str(" at ")?;
    put_number(at, into)
}

// Adds a space and a name as a string literal at the end, where there is a name.
fn put_name(alloc: Global, name: Option<&str>, into: &mut String) -> Result<(), Memory>
    ensures { OnOk result (string_bytes into.new ≡ string_bytes into.old ++ shown_name (option_copied name.entry)) }
{
    let Some(name) = name else {
        return Ok(());
    };
    into.push(' ')?;
    let form = string_form(alloc, name)?;
    Ok(into.push_str(form.as_str())?)
}

fn name_of_left(what: Left) -> &'static str
    ensures { result.now ≡ left_text what }
{
    match what {
        Left::Class => "Class",
        Left::Super => "Super",
        Left::With => "With",
        Left::Module => "Module",
        Left::Generator => "Generator",
        Left::TaggedTemplate => "TaggedTemplate",
        Left::BindingPattern => "BindingPattern",
        Left::BareFunction => "BareFunction",
        Left::NewTarget => "NewTarget",
        Left::Regex => "Regex",
    }
}

fn name_of_rule(rule: Rule) -> &'static str
    ensures { result.now ≡ rule_text rule }
{
    match rule {
        Rule::E1 => "E1",
        Rule::E2 => "E2",
        Rule::E3 => "E3",
        Rule::E4 => "E4",
        Rule::E5 => "E5",
        Rule::E6 => "E6",
        Rule::E7 => "E7",
        Rule::E8 => "E8",
        Rule::E9 => "E9",
        Rule::E10 => "E10",
        Rule::E11 => "E11",
        Rule::E12 => "E12",
        Rule::E13 => "E13",
        Rule::E14 => "E14",
        Rule::E15 => "E15",
        Rule::E16 => "E16",
        Rule::E17 => "E17",
        Rule::E18 => "E18",
        Rule::A1 => "A1",
        Rule::A2 => "A2",
        Rule::A3 => "A3",
        Rule::A4 => "A4",
        Rule::A5 => "A5",
    }
}
