use super::*;
use crate::entries::judge_scope;
use bast_base::NameId;
use bast_schema::{
    DECLARED_CONST, DECLARED_LEXICAL, DECLARED_VAR, Kind, LEXICAL_LET, Node, Value, Values,
    values_left,
};
use scope_facts::with_bound;
use std::alloc::Global;
use std::test::Fail;

fn node(kind: Kind, fields: Vec<Value>) -> Result<Value, Fail> {
    Ok(Value::Node(Node::new(kind, fields)?))
}

fn list(values: Vec<Value>) -> Value {
    Value::List(Values::of(values))
}

fn name(number: u32) -> Value {
    Value::Name(NameId(number))
}

fn binding(alloc: Global, number: u32) -> Result<Value, Fail> {
    node(Kind::BindingIdentifier, vec![in alloc; name(number)]?)
}

/// One declarator, without initializer.
fn declarators(alloc: Global, number: u32) -> Result<Value, Fail> {
    let fields = vec![in alloc; binding(alloc, number)?, Value::Absent]?;
    Ok(list(vec![in alloc; node(Kind::VariableDeclarator, fields)?]?))
}

/// The contents of a getter, `var 7; let 8; var 7;`, whose scope has these entries.
fn getter(alloc: Global, entries: Vec<Value>) -> Result<Node, Fail> {
    let first = node(
        Kind::VarDeclaration,
        vec![in alloc; declarators(alloc, 7)?]?,
    )?;
    let second = vec![in alloc; Value::Choice(LEXICAL_LET), declarators(alloc, 8)?]?;
    let third = node(
        Kind::VarDeclaration,
        vec![in alloc; declarators(alloc, 7)?]?,
    )?;
    let body = vec![in alloc; first, node(Kind::LexicalDeclaration, second)?, third]?;
    let scope = vec![in alloc; list(entries), Value::Bool(false)]?;
    let scope = node(Kind::AssertedVarScope, scope)?;
    Ok(Node::new(Kind::GetterContents, vec![in alloc; scope, list(body)]?)?)
}

/// The clause `catch (7) {}`, whose scope has these entries.
fn catch_clause(alloc: Global, entries: Vec<Value>) -> Result<Node, Fail> {
    let nothing = list(Vec::new(alloc));
    let block = vec![in alloc; nothing, Value::Bool(false)]?;
    let block = node(Kind::AssertedBlockScope, block)?;
    let block = vec![in alloc; block, list(Vec::new(alloc))]?;
    let scope = vec![in alloc; list(entries), Value::Bool(false)]?;
    let scope = node(Kind::AssertedBoundNamesScope, scope)?;
    let fields = vec![in alloc; scope, binding(alloc, 7)?, node(Kind::Block, block)?]?;
    Ok(Node::new(Kind::CatchClause, fields)?)
}

/// The arrow `(7, 8, ...9) => this`, whose scope has these entries and this flag of simple parameters. Without a rest it
/// is `(7, 8) => this`.
fn arrow(alloc: Global, rest: bool, entries: Vec<Value>, simple: bool) -> Result<Node, Fail> {
    let rest = if rest {
        binding(alloc, 9)?
    } else {
        Value::Absent
    };
    let items = vec![in alloc; binding(alloc, 7)?, binding(alloc, 8)?]?;
    let items = node(Kind::FormalParameters, vec![in alloc; list(items), rest]?)?;
    let scope = vec![in alloc; list(entries), Value::Bool(false), Value::Bool(simple)]?;
    let scope = node(Kind::AssertedParameterScope, scope)?;
    let this = node(Kind::ThisExpression, Vec::new(alloc))?;
    let fields = vec![in alloc; scope, items, this]?;
    Ok(Node::new(Kind::EagerArrowExpressionWithExpression, fields)?)
}

fn declared(alloc: Global, number: u32, kind: u8, captured: bool) -> Result<Value, Fail> {
    let fields = vec![in alloc; name(number), Value::Choice(kind), Value::Bool(captured)]?;
    node(Kind::AssertedDeclaredName, fields)
}

fn bound(alloc: Global, number: u32) -> Result<Value, Fail> {
    let fields = vec![in alloc; name(number), Value::Bool(true)]?;
    node(Kind::AssertedBoundName, fields)
}

fn positional(alloc: Global, place: u32, number: u32) -> Result<Value, Fail> {
    let fields = vec![in alloc; Value::Index(place), name(number), Value::Bool(false)]?;
    node(Kind::AssertedPositionalParameterName, fields)
}

fn rest(alloc: Global, number: u32) -> Result<Value, Fail> {
    let fields = vec![in alloc; name(number), Value::Bool(false)]?;
    node(Kind::AssertedRestParameterName, fields)
}

/// What is found at the scope that is a node's first value.
fn found(alloc: Global, owner: &Node) -> Option<Finding> {
    let _left = values_left(owner, 1000)?;
    let names = with_bound(Vec::new(alloc), owner.fields()).ok()?;
    match owner.fields() {
        [Value::Node(scope), after @ ..] => judge_scope(alloc, scope, &names, after).ok(),
        _ => None,
    }
}

fn is_fine(alloc: Global, owner: &Node) -> bool {
    matches!(found(alloc, owner), Some(Finding::Fine))
}

fn is_wrong_by(alloc: Global, owner: &Node, number: u32) -> bool {
    match found(alloc, owner) {
        Some(Finding::Wrong(Some(name))) => name == number,
        _ => false,
    }
}

fn is_wrong_by_none(alloc: Global, owner: &Node) -> bool {
    matches!(found(alloc, owner), Some(Finding::Wrong(None)))
}

#[test]
fn entries_stand_in_any_order(rt: HostRuntime) -> Result<(), Fail> {
    let alloc = rt.alloc();
    let seven = declared(alloc, 7, DECLARED_VAR, false)?;
    let eight = declared(alloc, 8, DECLARED_LEXICAL, false)?;
    assert!(rt; is_fine(alloc, &getter(alloc, vec![in alloc; seven, eight]?)?));
    let seven = declared(alloc, 7, DECLARED_VAR, false)?;
    let eight = declared(alloc, 8, DECLARED_LEXICAL, false)?;
    assert!(rt; is_fine(alloc, &getter(alloc, vec![in alloc; eight, seven]?)?));
    Ok(())
}

#[test]
fn a_captured_entry_is_as_good(rt: HostRuntime) -> Result<(), Fail> {
    let alloc = rt.alloc();
    let seven = declared(alloc, 7, DECLARED_VAR, true)?;
    let eight = declared(alloc, 8, DECLARED_LEXICAL, false)?;
    assert!(rt; is_fine(alloc, &getter(alloc, vec![in alloc; seven, eight]?)?));
    Ok(())
}

#[test]
fn a_missing_entry_is_named(rt: HostRuntime) -> Result<(), Fail> {
    let alloc = rt.alloc();
    let seven = declared(alloc, 7, DECLARED_VAR, false)?;
    assert!(rt; is_wrong_by(alloc, &getter(alloc, vec![in alloc; seven]?)?, 8));
    assert!(rt; is_wrong_by(alloc, &getter(alloc, Vec::new(alloc))?, 7));
    Ok(())
}

#[test]
fn a_repeated_entry_is_named_before_a_missing_one(rt: HostRuntime) -> Result<(), Fail> {
    let alloc = rt.alloc();
    let eight = declared(alloc, 8, DECLARED_LEXICAL, false)?;
    let again = declared(alloc, 8, DECLARED_LEXICAL, true)?;
    assert!(rt; is_wrong_by(alloc, &getter(alloc, vec![in alloc; eight, again]?)?, 8));
    Ok(())
}

#[test]
fn an_entry_of_another_kind_is_named(rt: HostRuntime) -> Result<(), Fail> {
    let alloc = rt.alloc();
    let seven = declared(alloc, 7, DECLARED_VAR, false)?;
    let eight = declared(alloc, 8, DECLARED_CONST, false)?;
    assert!(rt; is_wrong_by(alloc, &getter(alloc, vec![in alloc; seven, eight]?)?, 8));
    Ok(())
}

#[test]
fn the_first_strange_entry_is_named(rt: HostRuntime) -> Result<(), Fail> {
    let alloc = rt.alloc();
    let ten = declared(alloc, 10, DECLARED_VAR, false)?;
    let eleven = declared(alloc, 11, DECLARED_VAR, false)?;
    assert!(rt; is_wrong_by(alloc, &getter(alloc, vec![in alloc; ten, eleven]?)?, 10));
    Ok(())
}

#[test]
fn a_caught_name_has_one_entry(rt: HostRuntime) -> Result<(), Fail> {
    let alloc = rt.alloc();
    let seven = bound(alloc, 7)?;
    assert!(rt; is_fine(alloc, &catch_clause(alloc, vec![in alloc; seven]?)?));
    assert!(rt; is_wrong_by(alloc, &catch_clause(alloc, Vec::new(alloc))?, 7));
    let eight = bound(alloc, 8)?;
    assert!(rt; is_wrong_by(alloc, &catch_clause(alloc, vec![in alloc; eight]?)?, 8));
    Ok(())
}

#[test]
fn parameters_have_their_places(rt: HostRuntime) -> Result<(), Fail> {
    let alloc = rt.alloc();
    let entries = vec![in alloc; positional(alloc, 1, 8)?, positional(alloc, 0, 7)?]?;
    assert!(rt; is_fine(alloc, &arrow(alloc, false, entries, true)?));
    let entries = vec![in alloc; positional(alloc, 0, 7)?, positional(alloc, 2, 8)?]?;
    assert!(rt; is_wrong_by(alloc, &arrow(alloc, false, entries, true)?, 8));
    Ok(())
}

#[test]
fn the_flag_of_simple_parameters_is_exact(rt: HostRuntime) -> Result<(), Fail> {
    let alloc = rt.alloc();
    let entries = vec![in alloc; positional(alloc, 0, 7)?, positional(alloc, 1, 8)?]?;
    assert!(rt; is_wrong_by_none(alloc, &arrow(alloc, false, entries, false)?));
    let entries = vec![in alloc;
        positional(alloc, 0, 7)?,
        positional(alloc, 1, 8)?,
        rest(alloc, 9)?,
    ]?;
    assert!(rt; is_fine(alloc, &arrow(alloc, true, entries, false)?));
    let entries = vec![in alloc;
        positional(alloc, 0, 7)?,
        positional(alloc, 1, 8)?,
        rest(alloc, 9)?,
    ]?;
    assert!(rt; is_wrong_by_none(alloc, &arrow(alloc, true, entries, true)?));
    Ok(())
}

#[test]
fn a_rest_is_no_parameter_at_a_place(rt: HostRuntime) -> Result<(), Fail> {
    let alloc = rt.alloc();
    let entries = vec![in alloc;
        positional(alloc, 0, 7)?,
        positional(alloc, 1, 8)?,
        positional(alloc, 2, 9)?,
    ]?;
    assert!(rt; is_wrong_by(alloc, &arrow(alloc, true, entries, false)?, 9));
    Ok(())
}

#[test]
fn a_name_comes_before_the_flag(rt: HostRuntime) -> Result<(), Fail> {
    let alloc = rt.alloc();
    let entries = vec![in alloc; positional(alloc, 0, 7)?]?;
    assert!(rt; is_wrong_by(alloc, &arrow(alloc, false, entries, false)?, 8));
    Ok(())
}
