ghost use Rattle.std.specs.Prelude.{◌≡◌, ◌++◌, ◌∷◌, [], true, codes, decimal, get_or, is_some, string_bytes, None, Some, IfOk, IsTrue, OnOk};
ghost use Rattle.bast_schema.specs.Counts.{is_whole, is_whole_at, is_whole_in};
ghost use Rattle.bast_schema.specs.Fields.{fields, field_names};
ghost use Rattle.bast_schema.specs.Tree.{choice as choice_of, fit, fits};
ghost use Rattle.bast_schema.specs.View.{datum, data_of};
ghost use Rattle.js_printer.specs.Listing.{chosen, field_lines, fields_lines, indent, item_lines, items_lines, line, listed, node_lines, shown_all};
ghost use Rattle.js_printer.specs.Names.{is_named, is_named_at, is_named_in, name_text};
ghost use Rattle.js_printer.specs.StringForm.{string_form};

use crate::strings::put_string_form;
use bast_base::{Memory, NameId};
use bast_schema::{FieldType, Kind, Node, Value, choice_text, field_name, fields_of, name_of};
use itoa::Buffer;
use std::alloc::Global;
use string_table::StringTable;

// The depth from which on lines are indented no further.
const INDENT_LIMIT: u32 = 16;

/// The listing of a tree: a line for each node and each field, indented by two spaces for each level of depth up to 16.
///
/// A node's line is its kind, and its fields stand one deeper. A field that is a node is `field: Kind`, an absent one
/// `field: none`, a list `field: [count]` with its items one deeper, where a hole is `none`. Any other field is
/// `field = value`, where the value is `true`, `false`, a decimal number, `none` for an absent label, or the string form
/// of a text. It takes time and memory in proportion to the listing, and an error comes only where memory runs out.
pub fn list_tree(alloc: Global, tree: &Node, strings: &StringTable) -> Result<String, Memory>
    requires whole { IsTrue (is_whole tree.now) }
    requires names { IsTrue (is_named strings.now tree.now) }
    ensures { IfOk result (λ text. string_bytes text ≡ listed strings.now tree.now) }
{
    let mut text = String::new(alloc);
    put_node("", "", tree, strings, 0, &mut text)?;
    Ok(text)
}

// Adds the lines of a node at the end. Its first line begins with a name and a mark.
#[cycle(listing)]
fn put_node(
    name: &str,
    mark: &str,
    node: &Node,
    strings: &StringTable,
    depth: u32,
    into: &mut String,
) -> Result<(), Memory>
    requires whole { is_whole node.now ≡ true }
    requires names { is_named strings.now node.now ≡ true }
    ensures { OnOk result (string_bytes into.new ≡ string_bytes into.old ++ shown_all (node_lines strings.now depth (name.now ++ mark.now) node.now)) }
{
    let kind = node.kind();
    put_line(name, mark, name_of(kind), depth, into)?;
    put_fields(kind, node.fields(), strings, depth.saturating_add(1), into)
}

#[cycle(listing)]
fn put_fields(
    kind: Kind,
    values: &[Value],
    strings: &StringTable,
    depth: u32,
    into: &mut String,
) -> Result<(), Memory>
    requires typed { fit (fields kind) (data_of values.now) ≡ true }
    requires whole { is_whole_in (data_of values.now) ≡ true }
    requires names { is_named_in strings.now (data_of values.now) ≡ true }
    ensures { OnOk result (string_bytes into.new ≡ string_bytes into.old ++ shown_all (fields_lines strings.now depth (fields kind) (field_names kind) (data_of values.now))) }
{
    let wanted = fields_of(kind);
    for at in 0..wanted.len() {
        let name = field_name(kind, at as u32);
        put_field(name, wanted[at], &values[at], strings, depth, into)?;
    }
    Ok(())
}

#[cycle(listing)]
fn put_field(
    name: &str,
    wanted: FieldType,
    value: &Value,
    strings: &StringTable,
    depth: u32,
    into: &mut String,
) -> Result<(), Memory>
    requires typed { fits wanted (datum value.now) ≡ true }
    requires whole { is_whole_at (datum value.now) ≡ true }
    requires names { is_named_at strings.now (datum value.now) ≡ true }
    ensures { OnOk result (string_bytes into.new ≡ string_bytes into.old ++ shown_all (field_lines strings.now depth wanted name.now (datum value.now))) }
{
    match value {
        Value::Node(node) => put_node(name, ": ", node, strings, depth, into),
        Value::Absent => put_line(name, ": ", "none", depth, into),
        Value::List(values) => {
            let values = values.as_slice();
            put_count(name, values.len(), depth, into)?;
            put_items(values, strings, depth.saturating_add(1), into)
        }
        Value::Bool(true) => put_line(name, " = ", "true", depth, into),
        Value::Bool(false) => put_line(name, " = ", "false", depth, into),
        Value::Index(index) => put_number(name, u64::from(*index), depth, into),
        Value::Whole(whole) => put_number(name, *whole, depth, into),
        Value::Name(text) => put_text(name, text_of(*text, strings), depth, into),
        Value::NoName => put_line(name, " = ", "none", depth, into),
        Value::Choice(choice) => put_text(name, chosen_text(wanted, *choice), depth, into),
        Value::Window { .. } => unreachable!(),
    }
}

#[cycle(listing)]
fn put_items(
    values: &[Value],
    strings: &StringTable,
    depth: u32,
    into: &mut String,
) -> Result<(), Memory>
    requires whole { is_whole_in (data_of values.now) ≡ true }
    requires names { is_named_in strings.now (data_of values.now) ≡ true }
    ensures { OnOk result (string_bytes into.new ≡ string_bytes into.old ++ shown_all (items_lines strings.now depth (data_of values.now))) }
{
    for value in values {
        put_item(value, strings, depth, into)?;
    }
    Ok(())
}

#[cycle(listing)]
fn put_item(
    value: &Value,
    strings: &StringTable,
    depth: u32,
    into: &mut String,
) -> Result<(), Memory>
    requires whole { is_whole_at (datum value.now) ≡ true }
    requires names { is_named_at strings.now (datum value.now) ≡ true }
    ensures { OnOk result (string_bytes into.new ≡ string_bytes into.old ++ shown_all (item_lines strings.now depth (datum value.now))) }
{
    match value {
        Value::Node(node) => put_node("", "", node, strings, depth, into),
        _ => put_line("", "", "none", depth, into),
    }
}

// Adds a line of a name, a mark and a text at the end.
fn put_line(name: &str, mark: &str, text: &str, depth: u32, into: &mut String) -> Result<(), Memory>
    ensures { OnOk result (string_bytes into.new ≡ string_bytes into.old ++ shown_all (line depth (name.now ++ mark.now ++ text.now) ∷ [])) }
{
    put_start(name, mark, depth, into)?;
    into.push_str(text)?;
    Ok(into.push('\n')?)
}

// Adds the line of a field that is a list of so many items at the end.
fn put_count(name: &str, count: usize, depth: u32, into: &mut String) -> Result<(), Memory>
    ensures { OnOk result (string_bytes into.new ≡ string_bytes into.old ++ shown_all (line depth (name.now ++ codes ": [" ++ decimal count ++ codes "]") ∷ [])) }
{
    put_start(name, ": [", depth, into)?;
    into.push_str(Buffer::new().format(count))?;
    Ok(into.push_str("]\n")?)
}

// Adds the line of a field that is a number at the end.
fn put_number(name: &str, number: u64, depth: u32, into: &mut String) -> Result<(), Memory>
    ensures { OnOk result (string_bytes into.new ≡ string_bytes into.old ++ shown_all (line depth (name.now ++ codes " = " ++ decimal number) ∷ [])) }
{
    put_line(name, " = ", Buffer::new().format(number), depth, into)
}

// Adds the line of a field that is a text at the end.
fn put_text(name: &str, text: &str, depth: u32, into: &mut String) -> Result<(), Memory>
    ensures { OnOk result (string_bytes into.new ≡ string_bytes into.old ++ shown_all (line depth (name.now ++ codes " = " ++ string_form text.now) ∷ [])) }
{
    put_start(name, " = ", depth, into)?;
    put_string_form(text, into)?;
    Ok(into.push('\n')?)
}

// Adds the indent of a line, a name and a mark at the end.
fn put_start(name: &str, mark: &str, depth: u32, into: &mut String) -> Result<(), Memory>
    ensures { OnOk result (string_bytes into.new ≡ string_bytes into.old ++ (indent depth ++ name.now ++ mark.now)) }
{
    put_indent(depth, into)?;
    into.push_str(name)?;
    Ok(into.push_str(mark)?)
}

fn put_indent(depth: u32, into: &mut String) -> Result<(), Memory>
    ensures { OnOk result (string_bytes into.new ≡ string_bytes into.old ++ indent depth) }
{
    for _ in 0..2 * depth.min(INDENT_LIMIT) {
        into.push(' ')?;
    }
    Ok(())
}

// The text of a name that has one.
fn text_of(name: NameId, strings: &StringTable) -> &str
    requires { is_some (get_or strings.now name.0 None) ≡ true }
    ensures { result.now ≡ name_text strings.now name.0 }
{
    match strings.text(name) {
        Some(text) => text,
        None => unreachable!(),
    }
}

// The text of a field's choice.
fn chosen_text(wanted: FieldType, choice: u8) -> &'static str
    requires { fits wanted (choice_of choice) ≡ true }
    ensures { result.now ≡ chosen wanted choice }
{
    match wanted {
        FieldType::Choice(set) => choice_text(set, choice),
        _ => unreachable!(),
    }
}
