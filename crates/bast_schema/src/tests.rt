use super::*;
use crate::fields::field_names_of;
use bast_base::NameId;
use std::alloc::Global;
use std::test::Fail;

/// The tree of the script `1;`.
fn script_of_one(alloc: Global) -> Result<Node, Fail> {
    let one = Node::new(
        Kind::LiteralNumericExpression,
        vec![in alloc; Value::Whole(1)]?,
    )?;
    let statement = Node::new(Kind::ExpressionStatement, vec![in alloc; Value::Node(one)]?)?;
    let no_names = Value::List(Values::of(Vec::new(alloc)));
    let scope = Node::new(
        Kind::AssertedScriptGlobalScope,
        vec![in alloc; no_names, Value::Bool(false)]?,
    )?;
    let directives = Value::List(Values::of(Vec::new(alloc)));
    let statements = Value::List(Values::of(vec![in alloc; Value::Node(statement)]?));
    let fields = vec![in alloc; directives, Value::Node(scope), statements]?;
    Ok(Node::new(Kind::Script, fields)?)
}

/// Whether two lists of values are the same, as far down as there are levels.
#[cycle(same)]
fn are_same(ones: &[Value], others: &[Value], levels: u32) -> bool {
    if levels == 0 || ones.len() != others.len() {
        return false;
    }
    for at in 0..ones.len() {
        if !is_same(&ones[at], &others[at], levels - 1) {
            return false;
        }
    }
    true
}

/// Whether two values are the same, as far down as there are levels.
#[cycle(same)]
fn is_same(one: &Value, other: &Value, levels: u32) -> bool {
    match (one, other) {
        (Value::Node(one), Value::Node(other)) => {
            one.kind() == other.kind() && are_same(one.fields(), other.fields(), levels)
        }
        (Value::List(ones), Value::List(others)) => {
            are_same(ones.as_slice(), others.as_slice(), levels)
        }
        (Value::Bool(one), Value::Bool(other)) => *one == *other,
        (Value::Whole(one), Value::Whole(other)) => *one == *other,
        _ => false,
    }
}

#[test]
fn a_copy_is_the_same_tree(rt: HostRuntime) -> Result<(), Fail> {
    let script = script_of_one(rt.alloc())?;
    let copy = script.copy()?;
    assert_eq!(rt; copy.depth(), 3);
    assert!(rt; copy.kind() == Kind::Script);
    assert!(rt; are_same(script.fields(), copy.fields(), 9));
    Ok(())
}

#[test]
fn the_values_of_a_tree_are_counted(rt: HostRuntime) -> Result<(), Fail> {
    let script = script_of_one(rt.alloc())?;
    assert_eq!(rt; values_left(&script, 12), Some(3));
    assert_eq!(rt; values_left(&script, 9), Some(0));
    assert_eq!(rt; values_left(&script, 8), None);
    Ok(())
}

#[test]
fn a_value_too_many_or_of_another_type_is_mistyped(rt: HostRuntime) -> Result<(), Fail> {
    for kind in [Kind::EmptyStatement, Kind::ThrowStatement] {
        let fields = vec![in rt.alloc(); Value::Bool(true)]?;
        assert_eq!(rt;
            Node::new(kind, fields).err(),
            Some(NodeFault::Mistyped { field: 0 })
        );
    }
    Ok(())
}

#[test]
fn an_operand_of_depth_512_makes_a_node_too_deep(rt: HostRuntime) -> Result<(), Fail> {
    let alloc = rt.alloc();
    let mut operand = Node::new(Kind::ThisExpression, Vec::new(alloc))?;
    for _ in 0..511u32 {
        let fields = vec![in alloc; Value::Choice(UNARY_DELETE), Value::Node(operand)]?;
        operand = Node::new(Kind::UnaryExpression, fields)?;
    }
    assert_eq!(rt; operand.depth(), 512);
    let fields = vec![in alloc; Value::Choice(UNARY_DELETE), Value::Node(operand)]?;
    assert_eq!(rt;
        Node::new(Kind::UnaryExpression, fields).err(),
        Some(NodeFault::TooDeep)
    );
    Ok(())
}

#[test]
fn a_table_holds_each_kind_once(rt: HostRuntime) -> Result<(), Fail> {
    let mut table = KindTable::new(rt.alloc());
    assert_eq!(rt; table.add(Kind::Script)?, Added::New(0));
    assert_eq!(rt; table.add(Kind::Block)?, Added::New(1));
    assert_eq!(rt; table.add(Kind::Script)?, Added::There(0));
    assert_eq!(rt; table.len(), 2);
    assert_eq!(rt; table.get(1), Some(Kind::Block));
    assert_eq!(rt; table.get(2), None);
    assert_eq!(rt; table.number(Kind::Block), Some(1));
    assert_eq!(rt; table.number(Kind::Null), None);
    Ok(())
}

#[test]
fn a_node_gives_its_values(rt: HostRuntime) -> Result<(), Fail> {
    let alloc = rt.alloc();
    let label = Node::new(Kind::BreakStatement, vec![in alloc; Value::NoName]?)?;
    assert!(rt; matches!(label.field(0), Value::NoName));
    let (kind, values) = label.parts();
    assert_eq!(rt; kind, Kind::BreakStatement);
    let list = Values::of(values);
    assert!(rt; !list.is_empty());
    assert_eq!(rt; list.into_vec().len(), 1);
    Ok(())
}

/// Whether a kind has a name for each field, none of them empty.
fn has_names(kind: Kind) -> bool {
    let names = field_names_of(kind);
    names.len() == fields_of(kind).len() && names.iter().all(|name| !name.is_empty())
}

#[test]
fn each_kind_is_found_by_its_number_and_name(rt: HostRuntime) {
    let mut lazy = 0u32;
    for number in 0..82u32 {
        let kind = kind_numbered(number);
        assert!(rt; kind.is_some(), "no kind at {number}");
        if let Some(kind) = kind {
            assert_eq!(rt; u32::from(number_of(kind)), number);
            assert_eq!(rt; kind_named(name_of(kind)), Some(kind));
            assert!(rt; has_names(kind), "the fields at {number}");
            lazy = lazy.saturating_add(u32::from(is_lazy(kind)));
        }
    }
    assert_eq!(rt; kind_numbered(82), None);
    assert_eq!(rt; kind_named("Class"), None);
    assert_eq!(rt; lazy, 5);
}

#[test]
fn each_choice_is_found_by_its_text(rt: HostRuntime) {
    let sizes = [
        (EnumId::DeclaredKind, 3),
        (EnumId::LexicalKind, 2),
        (EnumId::ForKind, 3),
        (EnumId::UnaryOperator, 7),
        (EnumId::UpdateOperator, 2),
        (EnumId::BinaryOperator, 23),
        (EnumId::CompoundOperator, 11),
    ];
    for (set, size) in sizes {
        assert_eq!(rt; choices_in(set), size);
        for choice in 0..choices_in(set) {
            let text = choice_text(set, choice as u8);
            assert_eq!(rt; choice_of(set, text), Some(choice as u8), "{text}");
        }
        assert_eq!(rt; choice_of(set, "with"), None);
    }
}

#[test]
fn kinds_have_the_fields_of_the_syntax(rt: HostRuntime) {
    let rows: [(Kind, &str, &[&str]); 6] = [
        (Kind::Null, "_Null", &[]),
        (
            Kind::Script,
            "Script",
            &["directives", "scope", "statements"],
        ),
        (
            Kind::IfStatement,
            "IfStatement",
            &["test", "consequent", "alternate"],
        ),
        (Kind::ForInOfBinding, "ForInOfBinding", &["kind", "binding"]),
        (
            Kind::UpdateExpression,
            "UpdateExpression",
            &["isPrefix", "operator", "operand"],
        ),
        (
            Kind::LabelledStatement,
            "LabelledStatement",
            &["label", "body"],
        ),
    ];
    for (kind, name, fields) in rows {
        assert_eq!(rt; name_of(kind), name);
        assert!(rt; field_names_of(kind) == fields, "the fields of {name}");
    }
}

#[test]
fn fields_have_the_types_of_the_syntax(rt: HostRuntime) {
    let statements = FieldType::List {
        item: Union::Statement,
        optional: false,
        nonempty: false,
    };
    let rows: [(Kind, u32, FieldType); 8] = [
        (Kind::Script, 2, statements),
        (Kind::IfStatement, 2, FieldType::Optional(Union::Body)),
        (Kind::BreakStatement, 0, FieldType::Label),
        (Kind::Directive, 0, FieldType::Text),
        (Kind::AssertedPositionalParameterName, 0, FieldType::Index),
        (Kind::LiteralNumericExpression, 0, FieldType::Whole),
        (
            Kind::LazyGetter,
            2,
            FieldType::Lazy(Union::One(Kind::GetterContents)),
        ),
        (
            Kind::UnaryExpression,
            0,
            FieldType::Choice(EnumId::UnaryOperator),
        ),
    ];
    for (kind, field, wanted) in rows {
        let found = fields_of(kind).get(field as usize).copied();
        assert_eq!(rt; found, Some(wanted), "a field of {}", name_of(kind));
    }
}
