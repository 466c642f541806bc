ghost use Rattle.std.specs.Prelude.{◌≡◌, ◌∷◌, [], true, codes, Some, IfOk};
ghost use Rattle.bast_schema.specs.Counts.{is_whole, is_whole_at};
ghost use Rattle.bast_schema.specs.Tree.{branch, child, listed, more, none};
ghost use Rattle.bast_schema.specs.View.{datum, data_of};
ghost use Rattle.js_printer.specs.Names.{is_named, is_named_at};

use super::*;
use bast_base::NameId;
use bast_schema::{Kind, Node, Value, Values};
use std::alloc::Global;
use std::test::Fail;
use string_table::StringTable;

fn node(kind: Kind, fields: Vec<Value>) -> Result<Node, Fail>
    ensures { IfOk result (λ t. t ≡ branch kind (data_of fields.items)) }
{
    Ok(Node::new(kind, fields)?)
}

// A node of one field.
fn single(alloc: Global, kind: Kind, value: Value) -> Result<Value, Fail>
    ensures { IfOk result (λ v. datum v ≡ child (branch kind (more (datum value) none))) }
{
    Ok(Value::Node(node(kind, vec![in alloc; value]?)?))
}

// A node of two fields.
fn pair(alloc: Global, kind: Kind, first: Value, second: Value) -> Result<Value, Fail>
    ensures { IfOk result (λ v. datum v ≡ child (branch kind (more (datum first) (more (datum second) none)))) }
{
    Ok(Value::Node(node(kind, vec![in alloc; first, second]?)?))
}

fn empty(alloc: Global) -> Value
    ensures { datum result ≡ listed none }
{
    Value::List(Values::of(Vec::new(alloc)))
}

fn list_of_one(alloc: Global, item: Value) -> Result<Value, Fail>
    ensures { IfOk result (λ v. datum v ≡ listed (more (datum item) none)) }
{
    Ok(Value::List(Values::of(vec![in alloc; item]?)))
}

fn list_of_two(alloc: Global, first: Value, second: Value) -> Result<Value, Fail>
    ensures { IfOk result (λ v. datum v ≡ listed (more (datum first) (more (datum second) none))) }
{
    Ok(Value::List(Values::of(vec![in alloc; first, second]?)))
}

// The script `1;`.
fn script_of_one(alloc: Global) -> Result<Node, Fail>
    ensures whole { IfOk result (λ t. is_whole t ≡ true) }
    ensures names { IfOk result (λ t. is_named [] t ≡ true) }
{
    let scope = pair(
        alloc,
        Kind::AssertedScriptGlobalScope,
        empty(alloc),
        Value::Bool(false),
    )?;
    let literal = single(alloc, Kind::LiteralNumericExpression, Value::Whole(1))?;
    let statement = single(alloc, Kind::ExpressionStatement, literal)?;
    let statements = list_of_one(alloc, statement)?;
    node(
        Kind::Script,
        vec![in alloc; empty(alloc), scope, statements]?,
    )
}

#[test]
fn the_listing_of_one(rt: HostRuntime) -> Result<(), Fail> {
    let alloc = rt.alloc();
    let tree = script_of_one(alloc)?;
    let listing = list_tree(alloc, &tree, &StringTable::new(alloc))?;
    let expected =
        "Script\n  directives: [0]\n  scope: AssertedScriptGlobalScope\n    declaredNames: [0]\n    hasDirectEval = false\n  statements: [1]\n    ExpressionStatement\n      expression: LiteralNumericExpression\n        value = 1\n";
    assert_eq!(rt; listing.as_str(), expected);
    Ok(())
}

// `for (;; [, typeof a]) break;`, where `a` is the first name.
fn loop_statement(alloc: Global) -> Result<Value, Fail>
    ensures whole { IfOk result (λ v. is_whole_at (datum v) ≡ true) }
    ensures names { IfOk result (λ v. is_named_at (Some (codes "a") ∷ []) (datum v) ≡ true) }
{
    let scope = pair(
        alloc,
        Kind::AssertedBlockScope,
        empty(alloc),
        Value::Bool(false),
    )?;
    let name = single(alloc, Kind::IdentifierExpression, Value::Name(NameId(0)))?;
    let operation = pair(alloc, Kind::UnaryExpression, Value::Choice(4), name)?;
    let elements = list_of_two(alloc, Value::Absent, operation)?;
    let update = single(alloc, Kind::ArrayExpression, elements)?;
    let body = single(alloc, Kind::BreakStatement, Value::NoName)?;
    let fields = vec![in alloc; scope, Value::Absent, Value::Absent, update, body]?;
    Ok(Value::Node(node(Kind::ForStatement, fields)?))
}

fn script_of_loop(alloc: Global) -> Result<Node, Fail>
    ensures whole { IfOk result (λ t. is_whole t ≡ true) }
    ensures names { IfOk result (λ t. is_named (Some (codes "a") ∷ []) t ≡ true) }
{
    let scope = pair(
        alloc,
        Kind::AssertedScriptGlobalScope,
        empty(alloc),
        Value::Bool(false),
    )?;
    let statements = list_of_one(alloc, loop_statement(alloc)?)?;
    node(
        Kind::Script,
        vec![in alloc; empty(alloc), scope, statements]?,
    )
}

#[test]
fn names_choices_holes_and_absent_parts(rt: HostRuntime) -> Result<(), Fail> {
    let alloc = rt.alloc();
    let mut strings = StringTable::new(alloc);
    assert_eq!(rt; strings.intern("a")?, NameId(0));
    let tree = script_of_loop(alloc)?;
    let listing = list_tree(alloc, &tree, &strings)?;
    let expected =
        "Script\n  directives: [0]\n  scope: AssertedScriptGlobalScope\n    declaredNames: [0]\n    hasDirectEval = false\n  statements: [1]\n    ForStatement\n      scope: AssertedBlockScope\n        declaredNames: [0]\n        hasDirectEval = false\n      init: none\n      test: none\n      update: ArrayExpression\n        elements: [2]\n          none\n          UnaryExpression\n            operator = \"typeof\"\n            operand: IdentifierExpression\n              name = \"a\"\n      body: BreakStatement\n        label = none\n";
    assert_eq!(rt; listing.as_str(), expected);
    Ok(())
}

#[test]
fn quotes_backslashes_and_line_terminators_are_escaped(rt: HostRuntime) -> Result<(), Fail> {
    let form = string_form(rt.alloc(), "a\"\\\n\r\u{2028}\u{e9}")?;
    assert_eq!(rt; form.as_str(), "\"a\\\"\\\\\\n\\r\\u2028\u{e9}\"");
    Ok(())
}
