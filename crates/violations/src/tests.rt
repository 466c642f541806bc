use super::*;
use bast_base::NameId;
use bast_schema::{Kind, Node, Value, Values, values_left};
use scope_facts::{Ctx, Rule, Violation};
use std::alloc::Global;
use std::test::Fail;
use string_table::StringTable;

fn node(kind: Kind, fields: Vec<Value>) -> Result<Value, Fail> {
    Ok(Value::Node(Node::new(kind, fields)?))
}

fn list(values: Vec<Value>) -> Value {
    Value::List(Values::of(values))
}

/// The entry `var 0`, which is not captured.
fn entry(alloc: Global) -> Result<Value, Fail> {
    let fields = vec![in alloc;
        Value::Name(NameId(0)),
        Value::Choice(0),
        Value::Bool(false),
    ]?;
    node(Kind::AssertedDeclaredName, fields)
}

/// A script of these statements, whose scope has these entries.
fn script(alloc: Global, entries: Vec<Value>, statements: Vec<Value>) -> Result<Node, Fail> {
    let scope = vec![in alloc; list(entries), Value::Bool(false)]?;
    let scope = node(Kind::AssertedScriptGlobalScope, scope)?;
    let fields = vec![in alloc; list(Vec::new(alloc)), scope, list(statements)]?;
    Ok(Node::new(Kind::Script, fields)?)
}

/// A `break` that stands in no loop.
fn stray_break(alloc: Global) -> Result<Value, Fail> {
    node(Kind::BreakStatement, vec![in alloc; Value::NoName]?)
}

/// The first violation of a script, where its tree is small.
fn first_of(alloc: Global, tree: &Node, strings: &StringTable) -> Option<Option<Violation>> {
    let _left = values_left(tree, 1000)?;
    first_violation(alloc, tree, &Ctx::script(alloc), strings).ok()
}

fn is_at(found: Option<Option<Violation>>, node: u32, rule: Rule) -> bool {
    match found {
        Some(Some(found)) => found.node == node && found.rule == rule,
        _ => false,
    }
}

fn is_named(found: Option<Option<Violation>>, strings: &StringTable, name: Option<&str>) -> bool {
    match found {
        Some(Some(found)) => name_of(&found, strings) == name,
        _ => false,
    }
}

#[test]
fn a_sound_script_has_none(rt: HostRuntime) -> Result<(), Fail> {
    let alloc = rt.alloc();
    let strings = StringTable::new(alloc);
    let tree = script(alloc, Vec::new(alloc), Vec::new(alloc))?;
    assert!(rt; matches!(first_of(alloc, &tree, &strings), Some(None)));
    Ok(())
}

#[test]
fn an_early_error_is_told(rt: HostRuntime) -> Result<(), Fail> {
    let alloc = rt.alloc();
    let strings = StringTable::new(alloc);
    let statements = vec![in alloc; stray_break(alloc)?]?;
    let tree = script(alloc, Vec::new(alloc), statements)?;
    let found = first_of(alloc, &tree, &strings);
    assert!(rt; is_at(found, 2, Rule::E11));
    assert!(rt; is_named(found, &strings, None));
    Ok(())
}

#[test]
fn the_first_is_of_the_lesser_node(rt: HostRuntime) -> Result<(), Fail> {
    let alloc = rt.alloc();
    let mut strings = StringTable::new(alloc);
    let _ = strings.intern("x")?;
    let entries = vec![in alloc; entry(alloc)?]?;
    let statements = vec![in alloc; stray_break(alloc)?]?;
    let tree = script(alloc, entries, statements)?;
    let found = first_of(alloc, &tree, &strings);
    assert!(rt; is_at(found, 1, Rule::A1));
    assert!(rt; is_named(found, &strings, Some("x")));
    Ok(())
}
