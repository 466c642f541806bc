// Trees without windows, atom by atom.
ghost use Rattle.std.specs.Prelude.{OnOk};
ghost use Rattle.bast_schema.specs.View.{datum, data_of};
ghost use Rattle.container.specs.Atoms.{atoms, atoms_of, atoms_of_fields, atoms_of_items};
ghost use Rattle.tree_encoder.specs.File.{texts_held};
ghost use Rattle.tree_encoder.specs.Writing.{AllPlain, IsSound, Puts, list_atoms, so_far};

use crate::EncodeFault;
use crate::numbers::text_of_choice;
use crate::writer::{MOST_BYTES, Writer, put_bytes, put_kind, put_name, put_number, put_text};
use bast_schema::{FieldType, Kind, Node, Union, Value, fields_of};
use string_table::StringTable;
use var_numbers::pattern_of;

// Adds what is spelled of a node.
#[cycle(put)]
pub(crate) fn put_node(
    node: &Node,
    strings: &StringTable,
    into: &mut Writer,
) -> Result<(), EncodeFault>
    requires plain { AllPlain (atoms (texts_held strings.now) node.now) }
    requires sound { IsSound strings.now into.old }
    ensures puts { Puts (so_far into.old) (atoms (texts_held strings.now) node.now) (so_far into.new) result }
    ensures sound { OnOk result (IsSound strings.now into.new) }
{
    let kind = node.kind();
    put_kind(kind, into)?;
    put_fields(fields_of(kind), node.fields(), strings, into)
}

#[cycle(put)]
fn put_fields(
    wanted: &[FieldType],
    values: &[Value],
    strings: &StringTable,
    into: &mut Writer,
) -> Result<(), EncodeFault>
    requires plain { AllPlain (atoms_of_fields (texts_held strings.now) wanted.now (data_of values.now)) }
    requires sound { IsSound strings.now into.old }
    ensures puts { Puts (so_far into.old) (atoms_of_fields (texts_held strings.now) wanted.now (data_of values.now)) (so_far into.new) result }
    ensures sound { OnOk result (IsSound strings.now into.new) }
{
    for at in 0..wanted.len() {
        if at == values.len() {
            return Ok(());
        }
        put_value(wanted[at], &values[at], strings, into)?;
    }
    Ok(())
}

#[cycle(put)]
fn put_items(values: &[Value], strings: &StringTable, into: &mut Writer) -> Result<(), EncodeFault>
    requires plain { AllPlain (atoms_of_items (texts_held strings.now) (data_of values.now)) }
    requires sound { IsSound strings.now into.old }
    ensures puts { Puts (so_far into.old) (atoms_of_items (texts_held strings.now) (data_of values.now)) (so_far into.new) result }
    ensures sound { OnOk result (IsSound strings.now into.new) }
{
    for value in values {
        put_value(FieldType::Optional(Union::Body), value, strings, into)?;
    }
    Ok(())
}

// Adds what is spelled of a value in a field of this type.
#[cycle(put)]
fn put_value(
    wanted: FieldType,
    value: &Value,
    strings: &StringTable,
    into: &mut Writer,
) -> Result<(), EncodeFault>
    requires plain { AllPlain (atoms_of (texts_held strings.now) wanted (datum value.now)) }
    requires sound { IsSound strings.now into.old }
    ensures puts { Puts (so_far into.old) (atoms_of (texts_held strings.now) wanted (datum value.now)) (so_far into.new) result }
    ensures sound { OnOk result (IsSound strings.now into.new) }
{
    match value {
        Value::Node(node) => put_node(node, strings, into),
        Value::Absent => put_kind(Kind::Null, into),
        Value::List(values) => put_list(values.as_slice(), strings, into),
        Value::Bool(flag) => put_bytes(&[u8::from(*flag)], &mut into.bytes),
        Value::Index(index) => put_number(*index, &mut into.bytes),
        Value::Whole(whole) => put_bytes(&pattern_of(*whole).to_be_bytes(), &mut into.bytes),
        Value::Name(name) => put_name(*name, strings, into),
        Value::NoName => put_text(None, into),
        Value::Choice(choice) => put_text(text_of_choice(wanted, *choice), into),
        Value::Window { .. } => unreachable!(),
    }
}

// Adds the number of the items and then the items. Each of them takes a byte at least.
#[cycle(put)]
fn put_list(values: &[Value], strings: &StringTable, into: &mut Writer) -> Result<(), EncodeFault>
    requires plain { AllPlain (atoms_of_items (texts_held strings.now) (data_of values.now)) }
    requires sound { IsSound strings.now into.old }
    ensures puts { Puts (so_far into.old) (list_atoms (texts_held strings.now) (data_of values.now)) (so_far into.new) result }
    ensures sound { OnOk result (IsSound strings.now into.new) }
{
    if values.len() > MOST_BYTES as usize {
        return Err(EncodeFault::TooLarge);
    }
    put_number(values.len() as u32, &mut into.bytes)?;
    put_items(values, strings, into)
}
