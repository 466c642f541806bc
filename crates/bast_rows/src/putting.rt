ghost use Rattle.std.specs.Prelude.{◌≡◌, ◌+◌, ◌-◌, ◌<◌, ◌≤◌, ◌^◌, ◌++◌, length};
ghost use Rattle.bast_schema.specs.Counts.{size, size_at, size_in};
ghost use Rattle.bast_schema.specs.Tree.{listed};
ghost use Rattle.bast_schema.specs.View.{datum, data_of};
ghost use Rattle.bast_rows.specs.Room.{with_span_at};
ghost use Rattle.bast_rows.specs.RowsOf.{rows_of, rows_at, rows_in};

use crate::room::Room;
use crate::row::Row;
use bast_schema::{Node, Value};

/// Tells the row at a place, with which a value begins that ends here, how many rows there are from it on.
fn close(room: &mut Room, at: u32)
    requires { at < length room.old.rows }
    ensures rows { room.new.rows ≡ with_span_at room.old.rows at (length room.old.rows - at) }
    ensures spare { room.new.spare ≡ room.old.spare }
{
    let rows = room.len() - at;
    room.set_span(at, rows);
}

/// Adds the rows of a tree at the end.
#[cycle(put)]
pub(crate) fn put_node(node: &Node, room: &mut Room)
    requires spare { size node.now ≤ room.old.spare }
    requires few { room.old.spare < 2 ^ 32 }
    ensures rows { room.new.rows ≡ room.old.rows ++ rows_of node.now }
    ensures spare { room.new.spare + size node.now ≡ room.old.spare }
{
    let at = room.len();
    room.push(Row::Node {
        kind: node.kind(),
        rows: 0,
    });
    put_values(node.fields(), room);
    close(room, at);
}

#[cycle(put)]
fn put_values(values: &[Value], room: &mut Room)
    requires spare { size_in (data_of values.now) ≤ room.old.spare }
    requires few { room.old.spare < 2 ^ 32 }
    ensures rows { room.new.rows ≡ room.old.rows ++ rows_in (data_of values.now) }
    ensures spare { room.new.spare + size_in (data_of values.now) ≡ room.old.spare }
{
    for value in values {
        put_value(value, room);
    }
}

#[cycle(put)]
fn put_value(value: &Value, room: &mut Room)
    requires spare { size_at (datum value.now) ≤ room.old.spare }
    requires few { room.old.spare < 2 ^ 32 }
    ensures rows { room.new.rows ≡ room.old.rows ++ rows_at (datum value.now) }
    ensures spare { room.new.spare + size_at (datum value.now) ≡ room.old.spare }
{
    match value {
        Value::Node(node) => put_node(node, room),
        Value::Absent => room.push(Row::Absent),
        Value::List(values) => put_list(values.as_slice(), room),
        Value::Bool(truth) => room.push(Row::Bool(*truth)),
        Value::Index(index) => room.push(Row::Index(*index)),
        Value::Whole(whole) => room.push(Row::Whole(*whole)),
        Value::Name(name) => room.push(Row::Name(*name)),
        Value::NoName => room.push(Row::NoName),
        Value::Choice(choice) => room.push(Row::Choice(*choice)),
        Value::Window { from, to } => room.push(Row::Window {
            from: *from,
            to: *to,
        }),
    }
}

#[cycle(put)]
fn put_list(values: &[Value], room: &mut Room)
    requires spare { 1 + size_in (data_of values.now) ≤ room.old.spare }
    requires few { room.old.spare < 2 ^ 32 }
    ensures rows { room.new.rows ≡ room.old.rows ++ rows_at (listed (data_of values.now)) }
    ensures spare { room.new.spare + (1 + size_in (data_of values.now)) ≡ room.old.spare }
{
    let at = room.len();
    room.push(Row::List {
        count: values.len() as u32,
        rows: 0,
    });
    put_values(values, room);
    close(room, at);
}
