use crate::{SourceFault, cases, parse};
use bast_schema::{Kind, Node, Value, name_of};
use js_machine::Left;
use std::alloc::Global;
use std::test::Fail;
use string_table::StringTable;

// Longer texts are no cases.
const LONGEST: usize = 100_000;

/// A node in short: its kind and its values, `~` for each scope that tells nothing, `-` for a node that is absent.
#[cycle(show)]
fn put_node(node: &Node, strings: &StringTable, out: &mut String) -> Result<(), Fail> {
    let values = node.fields();
    if tells_nothing(node.kind(), values) {
        out.push('~')?;
        return Ok(());
    }
    out.push_str(name_of(node.kind()))?;
    out.push('(')?;
    put_values(values, strings, out)?;
    out.push(')')?;
    Ok(())
}

#[cycle(show)]
fn put_values(values: &[Value], strings: &StringTable, out: &mut String) -> Result<(), Fail> {
    let mut is_first = true;
    for value in values {
        if !is_first {
            out.push(' ')?;
        }
        is_first = false;
        put_value(value, strings, out)?;
    }
    Ok(())
}

#[cycle(show)]
fn put_value(value: &Value, strings: &StringTable, out: &mut String) -> Result<(), Fail> {
    match value {
        Value::Node(node) => put_node(node, strings, out)?,
        Value::List(list) => {
            out.push('[')?;
            put_values(list.as_slice(), strings, out)?;
            out.push(']')?;
        }
        Value::Absent => out.push('-')?,
        Value::NoName => out.push('*')?,
        Value::Bool(true) => out.push('T')?,
        Value::Bool(false) => out.push('F')?,
        Value::Whole(number) => write!(out, "{number}")?,
        Value::Choice(choice) => write!(out, "#{choice}")?,
        Value::Index(_) | Value::Window { .. } => out.push('?')?,
        Value::Name(name) => {
            out.push('\'')?;
            if name.0 < strings.len() {
                if let Some(text) = strings.text(*name) {
                    out.push_str(text)?;
                }
            }
            out.push('\'')?;
        }
    }
    Ok(())
}

// Whether these are the values of a scope without entries and with false flags.
fn tells_nothing(kind: Kind, values: &[Value]) -> bool {
    match kind {
        Kind::AssertedScriptGlobalScope
        | Kind::AssertedVarScope
        | Kind::AssertedBlockScope
        | Kind::AssertedBoundNamesScope => {
            matches!(values, [Value::List(list), Value::Bool(false)] if list.is_empty())
        }
        Kind::AssertedParameterScope => {
            matches!(values, [Value::List(list), Value::Bool(false), Value::Bool(false)] if list.is_empty())
        }
        _ => false,
    }
}

/// The tree of a source in short, or why there is none.
fn in_short(alloc: Global, text: &str) -> Result<String, Fail> {
    let mut out = String::new(alloc);
    if text.len() > LONGEST {
        return Ok(out);
    }
    let mut strings = StringTable::new(alloc);
    match parse(alloc, text, &mut strings) {
        Ok(tree) => put_node(&tree, &strings, &mut out)?,
        Err(fault) => put_fault(fault, &mut out)?,
    }
    Ok(out)
}

fn put_fault(fault: SourceFault, out: &mut String) -> Result<(), Fail> {
    match fault {
        SourceFault::Memory => out.push_str("Memory")?,
        SourceFault::Token(_) => out.push_str("Token")?,
        SourceFault::Syntax { at } => write!(out, "Syntax {at}")?,
        SourceFault::TooDeep { at } => write!(out, "TooDeep {at}")?,
        SourceFault::NotHere { at, what } => {
            let name = left_name(what);
            write!(out, "NotHere {name} {at}")?
        }
        SourceFault::DeepTree => out.push_str("DeepTree")?,
    }
    Ok(())
}

fn left_name(left: Left) -> &'static str {
    match left {
        Left::Class => "Class",
        Left::Super => "Super",
        Left::With => "With",
        Left::Module => "Module",
        Left::Generator => "Generator",
        Left::TaggedTemplate => "TaggedTemplate",
        Left::BindingPattern => "BindingPattern",
        Left::BareFunction => "BareFunction",
        Left::NewTarget => "NewTarget",
        Left::Regex => "Regex",
    }
}

/// The first case that has another tree than is told.
fn first_other<'a>(alloc: Global, cases: &[(&'a str, &'a str)]) -> Result<Option<&'a str>, Fail> {
    for (text, wanted) in cases {
        if in_short(alloc, text)?.as_str() != *wanted {
            return Ok(Some(*text));
        }
    }
    Ok(None)
}

#[test]
fn expressions_have_their_trees(rt: HostRuntime) -> Result<(), Fail> {
    assert_eq!(rt; first_other(rt.alloc(), &cases::EXPRESSIONS)?, None);
    Ok(())
}

#[test]
fn statements_have_their_trees(rt: HostRuntime) -> Result<(), Fail> {
    assert_eq!(rt; first_other(rt.alloc(), &cases::STATEMENTS)?, None);
    Ok(())
}

#[test]
fn more_statements_have_their_trees(rt: HostRuntime) -> Result<(), Fail> {
    assert_eq!(rt; first_other(rt.alloc(), &cases::MORE_STATEMENTS)?, None);
    Ok(())
}

#[test]
fn a_script_of_many_statements_has_its_tree(rt: HostRuntime) -> Result<(), Fail> {
    assert_eq!(rt; first_other(rt.alloc(), &cases::CART)?, None);
    Ok(())
}

#[test]
fn boundaries_are_where_the_grammar_has_them(rt: HostRuntime) -> Result<(), Fail> {
    assert_eq!(rt; first_other(rt.alloc(), &cases::BOUNDARIES)?, None);
    Ok(())
}

#[test]
fn other_sources_are_refused(rt: HostRuntime) -> Result<(), Fail> {
    assert_eq!(rt; first_other(rt.alloc(), &cases::REFUSED)?, None);
    Ok(())
}

// A text between as many openings as closings.
fn within(alloc: Global, opening: &str, closing: &str, count: u32) -> Result<String, Fail> {
    let mut text = String::new(alloc);
    text.push('(')?;
    for _ in 0..count {
        text.push_str(opening)?;
    }
    text.push('1')?;
    for _ in 0..count {
        text.push_str(closing)?;
    }
    text.push(')')?;
    Ok(text)
}

#[test]
fn parentheses_leave_nothing_and_may_be_too_deep(rt: HostRuntime) -> Result<(), Fail> {
    let alloc = rt.alloc();
    let most = within(alloc, "(", ")", 1023)?;
    assert_eq!(rt;
        in_short(alloc, most.as_str())?.as_str(),
        "Script([] ~ [ExpressionStatement(LiteralNumericExpression(1))])"
    );
    let more = within(alloc, "(", ")", 1024)?;
    assert_eq!(rt; in_short(alloc, more.as_str())?.as_str(), "TooDeep 1024");
    Ok(())
}

#[test]
fn objects_in_each_other_may_be_a_deep_tree(rt: HostRuntime) -> Result<(), Fail> {
    let alloc = rt.alloc();
    let deep = within(alloc, "{a:", "}", 256)?;
    assert_eq!(rt; in_short(alloc, deep.as_str())?.as_str(), "DeepTree");
    Ok(())
}
