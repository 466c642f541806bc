use super::*;
use bast_base::NameId;
use bast_schema::{Kind, Node, Value, Values};
use std::alloc::Global;
use std::test::Fail;

fn node(kind: Kind, fields: Vec<Value>) -> Option<Value> {
    Some(Value::Node(Node::new(kind, fields).ok()?))
}

fn list(values: Vec<Value>) -> Value {
    Value::List(Values::of(values))
}

// The contents of a function without parameters and statements.
fn empty_contents(alloc: Global) -> Option<Node> {
    let entries = vec![in alloc;
        list(Vec::new(alloc)),
        Value::Bool(false),
        Value::Bool(true),
    ];
    let parameters = vec![in alloc; list(Vec::new(alloc)), Value::Absent];
    let names = vec![in alloc; list(Vec::new(alloc)), Value::Bool(false)];
    let fields = vec![in alloc;
        node(Kind::AssertedParameterScope, entries.ok()?)?,
        node(Kind::FormalParameters, parameters.ok()?)?,
        node(Kind::AssertedVarScope, names.ok()?)?,
        list(Vec::new(alloc)),
    ];
    Node::new(Kind::FunctionContents, fields.ok()?).ok()
}

// `[7, , a]`, where `a` is the first name of the table.
fn array(alloc: Global) -> Option<Node> {
    let seven = vec![in alloc; Value::Whole(7)];
    let name = vec![in alloc; Value::Name(NameId(0))];
    let values = vec![in alloc;
        node(Kind::LiteralNumericExpression, seven.ok()?)?,
        Value::Absent,
        node(Kind::IdentifierExpression, name.ok()?)?,
    ];
    let fields = vec![in alloc; list(values.ok()?)];
    Node::new(Kind::ArrayExpression, fields.ok()?).ok()
}

// Whether these are the rows, one by one.
fn are(rows: &Rows, wanted: &[Row]) -> bool {
    if rows.len() as usize != wanted.len() {
        return false;
    }
    for at in 0..rows.len() {
        if rows.row(at) != wanted[at as usize] {
            return false;
        }
    }
    true
}

// Whether a tree has these rows, gives them again in a copy, and has them after it was made of rows anew.
fn has_rows(alloc: Global, tree: Option<Node>, wanted: &[Row]) -> Option<bool> {
    let rows = Rows::of(alloc, &tree?).ok()?;
    let again = rows.to_node(alloc).ok()?;
    let same = Rows::of(alloc, &again).ok()?;
    Some(are(&rows, wanted) && are(&rows.copy().ok()?, wanted) && are(&same, wanted))
}

#[test]
fn a_value_has_a_row(rt: HostRuntime) -> Result<(), Fail> {
    let wanted = [
        Row::Node {
            kind: Kind::FunctionContents,
            rows: 12,
        },
        Row::Node {
            kind: Kind::AssertedParameterScope,
            rows: 4,
        },
        Row::List { count: 0, rows: 1 },
        Row::Bool(false),
        Row::Bool(true),
        Row::Node {
            kind: Kind::FormalParameters,
            rows: 3,
        },
        Row::List { count: 0, rows: 1 },
        Row::Absent,
        Row::Node {
            kind: Kind::AssertedVarScope,
            rows: 3,
        },
        Row::List { count: 0, rows: 1 },
        Row::Bool(false),
        Row::List { count: 0, rows: 1 },
    ];
    assert_eq!(rt;
        has_rows(rt.alloc(), empty_contents(rt.alloc()), &wanted),
        Some(true)
    );
    Ok(())
}

#[test]
fn a_list_tells_its_values_and_its_rows(rt: HostRuntime) -> Result<(), Fail> {
    let wanted = [
        Row::Node {
            kind: Kind::ArrayExpression,
            rows: 7,
        },
        Row::List { count: 3, rows: 6 },
        Row::Node {
            kind: Kind::LiteralNumericExpression,
            rows: 2,
        },
        Row::Whole(7),
        Row::Absent,
        Row::Node {
            kind: Kind::IdentifierExpression,
            rows: 2,
        },
        Row::Name(NameId(0)),
    ];
    assert_eq!(rt;
        has_rows(rt.alloc(), array(rt.alloc()), &wanted),
        Some(true)
    );
    Ok(())
}

// What walks over the values inside a tree leave of a budget: over nodes, over rows, and over the same rows again.
fn left_of(alloc: Global, tree: Option<Node>, budget: u32) -> Option<[Option<u32>; 3]> {
    let tree = tree?;
    let rows = Rows::of(alloc, &tree).ok()?;
    let (_, values) = rows.root();
    let again = values.again();
    Some([
        left_after_siblings(
            Boxed {
                values: tree.fields(),
            },
            budget,
        ),
        left_after_siblings(values, budget),
        left_after_siblings(again, budget),
    ])
}

#[test]
fn a_walk_goes_over_nodes_and_rows_alike(rt: HostRuntime) -> Result<(), Fail> {
    for (budget, left) in [(20, Some(9)), (11, Some(0)), (10, None)] {
        let tree = empty_contents(rt.alloc());
        assert_eq!(rt; left_of(rt.alloc(), tree, budget), Some([left, left, left]));
    }
    Ok(())
}

#[test]
fn a_room_is_cleared(rt: HostRuntime) -> Result<(), Fail> {
    let mut room = Room::new(rt.alloc(), 2)?;
    assert_eq!(rt; room.len(), 0);
    room.push(Row::List { count: 1, rows: 0 });
    room.push(Row::Bool(true));
    room.set_span(0, 2);
    assert_eq!(rt; room.len(), 2);
    room.clear();
    assert_eq!(rt; room.len(), 0);
    room.push(Row::Absent);
    assert_eq!(rt; room.len(), 1);
    Ok(())
}
