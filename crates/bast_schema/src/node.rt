ghost use Rattle.std.specs.Prelude.{◌≡◌, IsTrue, ◌≤◌, ◌+◌, ◌<◌, ◌^◌, length, IfOk, Option, Result, Ok, Err, Some, None, slice_get};
ghost use Rattle.std.specs.List.{list_all};
ghost use Rattle.bast_schema.specs.Tree.{Tree, branch, kind_of, values_of, count, value_at, fit, typed, fits, item_type, items_fit, first_wrong, depth, depth_at, depth_in, is_none};
ghost use Rattle.bast_schema.specs.View.{datum, data_of};
ghost use Rattle.bast_schema.specs.Fields.{fields};
ghost use Rattle.bast_schema.specs.Made.{node_of};

use crate::choices::choices_in;
use crate::fields::fields_of;
use crate::kind::{FieldType, Kind, Union};
use crate::names::is_counted;
use crate::unions::allows;
use bast_base::{Memory, NameId};
use std::marker::Model;

/// The depth that no node passes.
const DEPTH_LIMIT: u32 = 512;

/// What stands in a field of a node.
#[cycle(tree)]
#[derive(Drop)]
pub enum Value {
    Node(Node),
    /// No node, where one is optional.
    Absent,
    List(Values),
    Bool(bool),
    /// The place of a parameter.
    Index(u32),
    /// A whole number, below 2^53 in a node.
    Whole(u64),
    /// A text, a name or a label, as its number in the table of strings.
    Name(NameId),
    /// No label.
    NoName,
    /// The number of a text of the field's set.
    Choice(u8),
    /// The bytes that spell a lazy field's node: those of the file from `from` on and before `to`.
    Window { from: u32, to: u32 },
}

/// A list of values, whether or not they fit a field.
#[cycle(tree)]
#[derive(Drop)]
pub struct Values {
    items: Vec<Value>,
}

impl Model for Values {
    ghost use Rattle.bast_schema.specs.Tree.{Data};

    ghost Value = { Data };

    ghost use Rattle.bast_schema.specs.Code.{data_code};

    ghost coded = { data_code };

    ghost use Rattle.bast_schema.specs.View.{values_view};

    ghost view = { values_view };

    ghost use Rattle.bast_schema.specs.Tree.{weight_in};

    ghost size = { weight_in };

    ghost use Rattle.bast_schema.specs.Falls.{most_le-weight_in};
    ghost use Rattle.std.proofs.Common.{arith};

    ghost size_decreases = { λ a h. Prim.omega (arith, most_le-weight_in a.items.items) };
}

/// A node: a kind, and a value for each of its fields. It is well typed, and at most 512 counted nodes deep.
#[cycle(tree)]
#[derive(Drop)]
pub struct Node {
    kind: Kind,
    depth: u32,
    fields: Values,
}

impl Model for Node {
    ghost use Rattle.bast_schema.specs.Tree.{Tree};

    ghost Value = { Tree };

    ghost use Rattle.bast_schema.specs.Code.{tree_code};

    ghost coded = { tree_code };

    ghost use Rattle.bast_schema.specs.View.{tree_of, IsSound};

    ghost view = { tree_of };

    ghost invariant = { IsSound };

    ghost use Rattle.bast_schema.specs.Tree.{weight};

    ghost size = { weight };
}

impl Node {
    /// The node of a kind with these fields. It takes no memory, and the fields are given up where it is refused.
    pub fn new(kind: Kind, fields: Vec<Value>) -> Result<Node, NodeFault>
        ensures { result ≡ node_of kind (data_of fields.items) }
    {
        if let Some(field) = first_mistyped(fields_of(kind), &fields) {
            return Err(NodeFault::Mistyped { field });
        }
        let depth = u32::from(is_counted(kind)) + deepest(&fields);
        if depth > DEPTH_LIMIT {
            return Err(NodeFault::TooDeep);
        }
        Ok(Node {
            kind,
            depth,
            fields: Values { items: fields },
        })
    }

    /// The kind of the node.
    pub fn kind(&self) -> Kind
        ensures kind { result ≡ kind_of self.now }
        ensures typed { IsTrue (typed self.now) }
    {
        self.kind
    }

    /// The value of a field, by the field's number.
    pub fn field(&self, field: u32) -> &Value
        requires { field < count (values_of self.now) }
        ensures { value_at (values_of self.now) field ≡ Some (datum result.now) }
    {
        &self.fields.as_slice()[field as usize]
    }

    /// The values of the fields, in order.
    pub fn fields(&self) -> &[Value]
        ensures tree { branch (kind_of self.now) (data_of result.now) ≡ self.now }
        ensures typed { IsTrue (fit (fields (kind_of self.now)) (data_of result.now)) }
    {
        self.fields.as_slice()
    }

    /// The kind and the values of the fields, without the node.
    pub fn parts(self) -> (Kind, Vec<Value>)
        ensures tree { branch result.0 (data_of result.1.items) ≡ self }
        ensures typed { IsTrue (typed self) }
        ensures depth { depth self ≤ 512 }
    {
        let Node { kind, fields, .. } = self;
        let Values { items } = fields;
        (kind, items)
    }

    /// The same tree again, in memory of its own from the allocators of this one's lists.
    #[cycle(copy)]
    pub fn copy(&self) -> Result<Node, Memory>
        ensures { IfOk result (λ t. t ≡ self.now) }
    {
        Ok(Node {
            kind: self.kind,
            depth: self.depth,
            fields: copy_values(&self.fields)?,
        })
    }

    /// The largest number of counted nodes on a path down from this node, itself among them.
    pub fn depth(&self) -> u32
        ensures depth { result ≡ depth self.now }
        ensures most { result ≤ 512 }
    {
        self.depth
    }
}

impl Value {
    /// Whether the value may stand in such a field.
    fn is_of(&self, wanted: FieldType) -> bool
        ensures { result ≡ fits wanted (datum self.now) }
    {
        match (wanted, self) {
            (FieldType::Node(union), Value::Node(node)) => allows(union, node.kind()),
            (FieldType::Lazy(union), Value::Node(node)) => allows(union, node.kind()),
            (FieldType::Optional(union), Value::Node(node)) => allows(union, node.kind()),
            (FieldType::Optional(_), Value::Absent) => true,
            (
                FieldType::List {
                    item,
                    optional,
                    nonempty,
                },
                Value::List(values),
            ) => { (!nonempty || !values.is_empty()) && values.are_of(item, optional) }
            (FieldType::Bool, Value::Bool(_)) => true,
            (FieldType::Index, Value::Index(index)) => {
                let _in_range = *index;
                true
            }
            (FieldType::Whole, Value::Whole(whole)) => *whole < 1 << 53,
            (FieldType::Text, Value::Name(_)) => true,
            (FieldType::Name, Value::Name(_)) => true,
            (FieldType::Label, Value::Name(_) | Value::NoName) => true,
            (FieldType::Choice(set), Value::Choice(choice)) => (*choice as usize) < choices_in(set),
            (FieldType::Lazy(_), Value::Window { .. }) => true,
            _ => false,
        }
    }

    /// Whether the value may be an item of such a list.
    fn is_item_of(&self, union: Union, holes: bool) -> bool
        ensures { result ≡ fits (item_type union holes) (datum self.now) }
    {
        match self {
            Value::Node(node) => allows(union, node.kind()),
            Value::Absent => holes,
            _ => false,
        }
    }
}

impl Values {
    /// The list of these values. It takes no memory.
    pub fn of(items: Vec<Value>) -> Values
        ensures { result ≡ data_of items.items }
    {
        Values { items }
    }

    /// The values, in order.
    pub fn as_slice(&self) -> &[Value]
        ensures { data_of result.now ≡ self.now }
    {
        self.items.as_slice()
    }

    /// The values, in order, without the list. It takes no memory.
    pub fn into_vec(self) -> Vec<Value>
        ensures { data_of result.items ≡ self }
    {
        let Values { items } = self;
        items
    }

    /// Whether there is no value.
    #[tactic(auto, using(crate::proofs::Lists::is_none_data_of))]
    pub fn is_empty(&self) -> bool
        ensures { result ≡ is_none self.now }
    {
        self.as_slice().is_empty()
    }

    /// Whether each value may be an item of such a list.
    #[tactic(auto, using(crate::proofs::Lists::items_fit_data_of))]
    fn are_of(&self, union: Union, holes: bool) -> bool
        ensures { result ≡ items_fit union holes self.now }
    {
        are_items(self.as_slice(), union, holes)
    }
}

/// Whether each value may be an item of such a list.
fn are_items(values: &[Value], union: Union, holes: bool) -> bool
    ensures { result ≡ list_all (λ v. fits (item_type union holes) (datum v)) values.now }
{
    values.iter().all(|value| value.is_item_of(union, holes))
}

/// The least field that is missing, too many or mistyped.
fn first_mistyped(wanted: &[FieldType], values: &[Value]) -> Option<u32>
    requires { length wanted.now < 2 ^ 32 }
    ensures { result ≡ first_wrong 0 wanted.now (data_of values.now) }
{
    for at in 0..wanted.len() {
        if at == values.len() {
            return Some(at as u32);
        }
        if !values[at].is_of(wanted[at]) {
            return Some(at as u32);
        }
    }
    if values.len() == wanted.len() {
        None
    } else {
        Some(wanted.len() as u32)
    }
}

/// The depth of the deepest of the values.
#[cycle(depth)]
fn deepest(values: &[Value]) -> u32
    ensures is { result ≡ depth_in (data_of values.now) }
    ensures most { result ≤ 512 }
{
    let mut deepest = 0;
    for value in values {
        deepest = deepest.max(depth_of(value));
    }
    deepest
}

/// The depth of a value.
#[cycle(depth)]
fn depth_of(value: &Value) -> u32
    ensures is { result ≡ depth_at (datum value.now) }
    ensures most { result ≤ 512 }
{
    match value {
        Value::Node(node) => node.depth(),
        Value::List(values) => deepest(values.as_slice()),
        _ => 0,
    }
}

/// Why no node has these fields.
#[derive(Debug, PartialEq, Eq, Drop)]
pub enum NodeFault {
    /// The value of this field is missing, one too many or not of the field's type. It is the least such field.
    Mistyped { field: u32 },
    /// The fields are well typed, and the node would be more than 512 deep.
    TooDeep,
}

/// The same values again.
#[cycle(copy)]
fn copy_values(values: &Values) -> Result<Values, Memory>
    ensures { IfOk result (λ v. v ≡ values.now) }
{
    let items = &values.items;
    let mut copies = Vec::with_capacity(*items.allocator(), items.len())?;
    for item in items {
        copies.push(copy_value(item)?)?;
    }
    Ok(Values { items: copies })
}

/// The same value again.
#[cycle(copy)]
fn copy_value(value: &Value) -> Result<Value, Memory>
    ensures { IfOk result (λ v. v ≡ value.now) }
{
    Ok(match value {
        Value::Node(node) => Value::Node(node.copy()?),
        Value::Absent => Value::Absent,
        Value::List(values) => Value::List(copy_values(values)?),
        Value::Bool(truth) => Value::Bool(*truth),
        Value::Index(index) => Value::Index(*index),
        Value::Whole(whole) => Value::Whole(*whole),
        Value::Name(name) => Value::Name(*name),
        Value::NoName => Value::NoName,
        Value::Choice(choice) => Value::Choice(*choice),
        Value::Window { from, to } => Value::Window {
            from: *from,
            to: *to,
        },
    })
}
